// The lines that the answer of a command can match.
use crate::command_classes::Class;
use crate::patterns::{number_in, set_states};
use indexmap::IndexSet;
use model_device::NoMemory;
use prove_facts::{Values, push};
use std::alloc::Global;

// For each `on` line whether it is one of those that match.
fn spread_over(alloc: Global, class: &Class, matched: &[bool]) -> Result<Vec<bool>, NoMemory> {
    let mut spread = Vec::new(alloc);
    for _ in &class.matches {
        push(&mut spread, false)?;
    }
    for (number, is) in class.answers.iter().zip(matched.iter()) {
        if let Some(place) = spread.get_mut(*number) {
            *place = *is;
        }
    }
    Ok(spread)
}

fn listed(alloc: Global, found: &IndexSet<Vec<bool>>) -> Result<Vec<Vec<bool>>, NoMemory> {
    let mut list = Vec::new(alloc);
    for one in found.as_slice() {
        push(&mut list, Vec::from_slice(alloc, one.as_slice())?)?;
    }
    Ok(list)
}

/// Returns each combination of lines that some result of a command of a class matches, for each `on` line whether it is
/// one. The result is any bytes, or none, and two bytes of status from these sets.
///
/// # Errors
///
/// Returns `NoMemory` if it is out of memory.
pub fn answers(
    alloc: Global,
    class: &Class,
    none: bool,
    high: &Values,
    low: &Values,
) -> Result<Vec<Vec<bool>>, NoMemory> {
    let from = if none {
        class.none.as_slice()
    } else {
        class.any.as_slice()
    };
    let half = set_states(alloc, &class.results, from, high)?;
    let last = set_states(alloc, &class.results, half.as_slice(), low)?;
    let mut found = IndexSet::new(alloc);
    for state in &last {
        let matched = class.results.matched(alloc, state.as_slice())?;
        number_in(&mut found, spread_over(alloc, class, matched.as_slice())?)?;
    }
    listed(alloc, &found)
}

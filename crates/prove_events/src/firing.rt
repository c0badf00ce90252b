// What an event does to the allowances.
use crate::command_classes::Class;
use lab_app_rules::{Effect, Event, On};
use lab_match::fits;
use model_device::NoMemory;
use prove_facts::push;
use std::alloc::Global;

/// The amounts after an event, or the line and the allowance of the rule that it breaks.
#[derive(Drop)]
pub enum Firing {
    Amounts(Vec<u32>),
    Broken { line: u32, name: usize },
}

// What an effect makes of an amount, or `None` if the rule is broken.
fn amount_after(effect: &Effect, amount: u32) -> Option<u32> {
    match effect {
        Effect::Allow(k) => Some(*k),
        Effect::Spend(k) => amount.checked_sub(*k),
        Effect::Need(k) => if amount < *k { None } else { Some(amount) },
        _ => Some(amount),
    }
}

// Whether an effect is one on a sum.
fn is_of_sum(effect: &Effect) -> bool {
    match effect {
        Effect::Add(_) => true,
        Effect::Take(_) => true,
        _ => false,
    }
}

// Does what one line says; returns whether its rule is kept.
fn is_kept(amounts: &mut Vec<u32>, on: &On) -> bool {
    if is_of_sum(&on.effect) {
        return true;
    }
    let Some(amount) = amounts.get_mut(on.name) else {
        return true;
    };
    match amount_after(&on.effect, *amount) {
        Some(after) => {
            *amount = after;
            true
        }
        None => false,
    }
}

/// Returns the amounts after an event: the lines that match it apply in their order, up to the first that is broken.
///
/// # Errors
///
/// Returns `NoMemory` if it is out of memory.
pub fn fire(
    alloc: Global,
    ons: &[On],
    amounts: &[u32],
    matched: &[bool],
) -> Result<Firing, NoMemory> {
    let mut after = Vec::from_slice(alloc, amounts)?;
    for (on, is) in ons.iter().zip(matched.iter()) {
        if *is && !is_kept(&mut after, on) {
            return Ok(Firing::Broken {
                line: on.line,
                name: on.name,
            });
        }
    }
    Ok(Firing::Amounts(after))
}

/// Returns for each line whether it is of an event.
///
/// # Errors
///
/// Returns `NoMemory` if it is out of memory.
pub fn lines_of(alloc: Global, ons: &[On], event: Event) -> Result<Vec<bool>, NoMemory> {
    let mut lines = Vec::new(alloc);
    for on in ons {
        push(&mut lines, on.event == event)?;
    }
    Ok(lines)
}

/// Returns for each line whether it is of an event and its APDU matches the commands of a class.
///
/// # Errors
///
/// Returns `NoMemory` if it is out of memory.
pub fn lines_in(
    alloc: Global,
    ons: &[On],
    class: &Class,
    event: Event,
) -> Result<Vec<bool>, NoMemory> {
    let mut lines = Vec::new(alloc);
    for (on, is) in ons.iter().zip(class.matches.iter()) {
        push(&mut lines, *is && on.event == event)?;
    }
    Ok(lines)
}

// The text of an abend's code.
fn code_text(code: u8) -> &'static [u8] {
    match code {
        1 => b"abend 01",
        2 => b"abend 02",
        3 => b"abend 03",
        4 => b"abend 04",
        5 => b"abend 05",
        6 => b"abend 06",
        7 => b"abend 07",
        8 => b"abend 08",
        9 => b"abend 09",
        _ => b"abend 0A",
    }
}

/// Returns for each line whether it is an `answer` line that an abend of a command of a class matches.
///
/// # Errors
///
/// Returns `NoMemory` if it is out of memory.
pub fn abend_lines(
    alloc: Global,
    ons: &[On],
    class: &Class,
    code: u8,
) -> Result<Vec<bool>, NoMemory> {
    let text = code_text(code);
    let mut lines = Vec::new(alloc);
    for (on, is) in ons.iter().zip(class.matches.iter()) {
        push(
            &mut lines,
            *is && on.event == Event::Answer && fits(on.result.as_slice(), text),
        )?;
    }
    Ok(lines)
}

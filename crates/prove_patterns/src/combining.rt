// Combinations of lines that match and that do not.
ghost use Rattle.std.specs.Prelude.{◌≡◌, map, IfOk, OnOk};
ghost use Rattle.prove_facts.specs.model_prove.specs.Keys.{same_lists};
ghost use Rattle.prove_facts.specs.model_prove.specs.Digits.{same};
ghost use Rattle.prove_facts.specs.model_prove.specs.Texts.{matches_of};
ghost use Rattle.prove_facts.specs.model_prove.specs.Arrivals.{has_combination, distinct};
ghost use Rattle.prove_patterns.specs.Opens.{many_of};
ghost use Rattle.prove_patterns.specs.Replies.{combinations_of, with_combination};

use crate::opens::{Opens, matches_of};
use model_device::NoMemory;
use prove_facts::prepend;
use std::alloc::Global;

/// Returns whether the same lines match.
pub fn same_matches(first: &[bool], second: &[bool]) -> bool
    ensures { result ≡ same_lists same first.now second.now }
{
    if first.len() != second.len() {
        return false;
    }
    for (i, is) in first.iter().enumerate() {
        if *is != second[i] {
            return false;
        }
    }
    true
}

// Whether a combination is among some.
fn has_combination(matches: &[bool], others: &[Vec<bool>]) -> bool
    ensures { result ≡ has_combination matches.now (combinations_of others.now) }
{
    for other in others {
        if same_matches(matches, other.as_slice()) {
            return true;
        }
    }
    false
}

// Puts a combination before others, unless it is there.
fn add_combination(others: &mut Vec<Vec<bool>>, matches: Vec<bool>) -> Result<(), NoMemory>
    ensures { OnOk result (combinations_of others.new.items
        ≡ with_combination matches.items (combinations_of others.old.items)) }
{
    if has_combination(matches.as_slice(), others.as_slice()) {
        return Ok(());
    }
    prepend(others, matches)
}

/// Returns each combination of patterns that match, of some possibilities, once.
///
/// # Errors
///
/// Returns `NoMemory` if it is out of memory.
pub fn combinations(alloc: Global, many: &[Opens<'_>]) -> Result<Vec<Vec<bool>>, NoMemory>
    ensures { IfOk result (λ c. combinations_of c.items ≡ distinct (map matches_of (many_of many.now))) }
{
    let mut found = Vec::new(alloc);
    let mut i = many.len();
    while i > 0 {
        i -= 1;
        add_combination(&mut found, matches_of(alloc, many[i].as_slice())?)?;
    }
    Ok(found)
}

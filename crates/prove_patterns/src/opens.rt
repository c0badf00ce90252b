// What is left of each of several patterns.
ghost use Rattle.std.specs.Prelude.{◌≡◌, map, bytes_eq, IfOk, [], ◌∷◌};
ghost use Rattle.prove_facts.specs.model_prove.specs.Keys.{same_lists};
ghost use Rattle.prove_facts.specs.model_prove.specs.Texts.{openings_unless, is_none_left, after_character, all_after, same_opens, matches_of};
ghost use Rattle.prove_facts.specs.model_text.specs.Listing.{hex_text};
ghost use Rattle.prove_patterns.specs.Ways.{texts};
ghost use Rattle.prove_patterns.specs.Opens.{open_of, opens_of};

use crate::ways::{Open, after_byte, after_character, is_match, openings};
use model_device::NoMemory;
use prove_facts::push;
use std::alloc::Global;

/// What is left of each of several patterns.
pub type Opens<'a> = Vec<Open<'a>>;

/// Returns a plain pattern before any text; an empty one matches nothing.
///
/// # Errors
///
/// Returns `NoMemory` if it is out of memory.
pub fn opened<'a>(alloc: Global, pattern: &'a [u8]) -> Result<Open<'a>, NoMemory>
    ensures { IfOk result (λ o. open_of o ≡ openings_unless (is_none_left pattern.now) pattern.now) }
{
    if pattern.is_empty() {
        return Ok(Vec::new(alloc));
    }
    openings(alloc, pattern)
}

/// Returns what is left of each pattern after a character.
///
/// # Errors
///
/// Returns `NoMemory` if it is out of memory.
pub fn each_after<'a>(
    alloc: Global,
    character: u8,
    opens: &[Open<'a>],
) -> Result<Opens<'a>, NoMemory>
    ensures { IfOk result (λ o. opens_of o.items ≡ map (after_character character) (opens_of opens.now)) }
{
    let mut after = Vec::new(alloc);
    for open in opens {
        push(
            &mut after,
            after_character(alloc, character, open.as_slice())?,
        )?;
    }
    Ok(after)
}

/// Returns what is left of each pattern after the two digits of a byte.
///
/// # Errors
///
/// Returns `NoMemory` if it is out of memory.
#[tactic(auto, using(crate::proofs::SignLemmas::after_two))]
pub fn all_after<'a>(alloc: Global, byte: u8, opens: &[Open<'a>]) -> Result<Opens<'a>, NoMemory>
    ensures { IfOk result (λ o. opens_of o.items ≡ all_after (hex_text (byte ∷ [])) (opens_of opens.now)) }
{
    let mut after = Vec::new(alloc);
    for open in opens {
        push(&mut after, after_byte(alloc, byte, open.as_slice())?)?;
    }
    Ok(after)
}

// Whether two patterns have the same ways, in the same order.
fn same_ways(first: &[&[u8]], second: &[&[u8]]) -> bool
    ensures { result ≡ same_lists bytes_eq (texts first.now) (texts second.now) }
{
    if first.len() != second.len() {
        return false;
    }
    for (i, way) in first.iter().enumerate() {
        if *way != second[i] {
            return false;
        }
    }
    true
}

/// Returns whether the same is left of each pattern.
pub fn same_opens(first: &[Open<'_>], second: &[Open<'_>]) -> bool
    ensures { result ≡ same_opens (opens_of first.now) (opens_of second.now) }
{
    if first.len() != second.len() {
        return false;
    }
    for (i, open) in first.iter().enumerate() {
        if !same_ways(open.as_slice(), second[i].as_slice()) {
            return false;
        }
    }
    true
}

/// Returns which of the patterns match.
///
/// # Errors
///
/// Returns `NoMemory` if it is out of memory.
pub fn matches_of(alloc: Global, opens: &[Open<'_>]) -> Result<Vec<bool>, NoMemory>
    ensures { IfOk result (λ m. m.items ≡ matches_of (opens_of opens.now)) }
{
    let mut matches = Vec::new(alloc);
    for open in opens {
        push(&mut matches, is_match(open.as_slice()))?;
    }
    Ok(matches)
}

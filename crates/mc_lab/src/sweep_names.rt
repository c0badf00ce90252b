// The names that a deck mentions.
ghost use Rattle.std.specs.Prelude.{◌≡◌, [], ◌∷◌, IfOk, MatchOption};
ghost use Rattle.law_explore.specs.model_device.specs.Bytes.{has_name};
ghost use Rattle.mc_deck.specs.Lines.{line_of};
ghost use Rattle.mc_lab.specs.Sweeps.{names_in_line, names_from, with_names};

use mc_deck::{Deck, Line};
use mc_words::{Aid, NoMemory};
use std::alloc::{AllocError, Global};

// The name that a line mentions; a load mentions that of its unit.
fn mentioned(line: &Line<'_>) -> Option<Aid>
    ensures { MatchOption result (names_in_line (line_of line.now) ≡ [])
        (λ name. names_in_line (line_of line.now) ≡ name ∷ []) }
{
    match line {
        Line::Load { unit, .. } => Some(unit.aid),
        Line::Select(aid) => Some(*aid),
        Line::Delete(aid) => Some(*aid),
        Line::Dump(aid) => Some(*aid),
        _ => None,
    }
}

// Whether a name is among others.
fn is_among(names: &[Aid], name: &Aid) -> bool
    ensures { result ≡ has_name name.now names.now }
{
    for known in names {
        if known.bytes() == name.bytes() {
            return true;
        }
    }
    false
}

// Adds the name that a line mentions, if it is new.
fn add_mentioned(names: &mut Vec<Aid>, line: &Line<'_>) -> Result<(), NoMemory>
    ensures { IfOk result (λ done. names.new.items ≡ with_names names.old.items (names_in_line (line_of line.now))) }
{
    let Some(name) = mentioned(line) else {
        return Ok(());
    };
    if is_among(names.as_slice(), &name) {
        return Ok(());
    }
    match names.push(name) {
        Ok(()) => Ok(()),
        Err(e) => Err(AllocError::from(e).into()),
    }
}

/// Returns the names that the lines of a deck mention, in order of first mention.
///
/// # Errors
///
/// Returns `NoMemory` if it is out of memory.
pub fn names_of(alloc: Global, deck: &Deck) -> Result<Vec<Aid>, NoMemory>
    ensures { IfOk result (λ names. names.items ≡ names_from [] deck.now) }
{
    let mut names = Vec::new(alloc);
    for i in 0..deck.len() {
        let (_number, line) = deck.line(i);
        add_mentioned(&mut names, &line)?;
    }
    Ok(names)
}

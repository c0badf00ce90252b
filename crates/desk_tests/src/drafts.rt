// Drafts with their decks, listings and source lines.
mod declarations;
mod line_ends;
mod listings;
mod operands;
mod purse;
mod refusals;
mod statements;
mod verdicts;

use desk_draft::{DeckRefusal, Loads, deck_of, list, push_source_part, read_desk};
use mc_deck::model_play::DeckCause;
use std::alloc::Global;

// Whether a draft makes this deck.
pub fn makes(alloc: Global, draft: &[u8], deck: &[u8]) -> bool {
    match deck_of(alloc, draft) {
        Ok(made) => made.as_slice() == deck,
        Err(_) => false,
    }
}

// Whether a draft is refused so.
pub fn refuses(alloc: Global, draft: &[u8], line: u32, cause: DeckCause) -> bool {
    match deck_of(alloc, draft) {
        Ok(_) => false,
        Err(refusal) => refusal == DeckRefusal::At(line, cause),
    }
}

// The number of the first draft that does not make its deck.
pub fn first_unmade(alloc: Global, rows: &[(&[u8], &[u8])]) -> Option<usize> {
    for (number, (draft, deck)) in rows.iter().enumerate() {
        if !makes(alloc, draft, deck) {
            return Some(number);
        }
    }
    None
}

// The number of the first draft that is not refused at its line for its cause.
pub fn first_unrefused(alloc: Global, rows: &[(&[u8], u32, DeckCause)]) -> Option<usize> {
    for (number, (draft, line, cause)) in rows.iter().enumerate() {
        if !refuses(alloc, draft, *line, *cause) {
            return Some(number);
        }
    }
    None
}

// Whether a draft has this listing.
pub fn lists(alloc: Global, draft: &[u8], listing: &[u8]) -> bool {
    match list(alloc, draft) {
        Ok(made) => made.as_slice() == listing,
        Err(_) => false,
    }
}

// Whether a draft, or its deck, is refused so.
pub fn refuses_desk(alloc: Global, draft: &[u8], line: u32, cause: DeckCause) -> bool {
    match list(alloc, draft) {
        Ok(_) => false,
        Err(refusal) => refusal == DeckRefusal::At(line, cause),
    }
}

// The part of the verdict on a place of the code that a `load` line loads, as `?` and its cause where the draft is
// refused.
fn source_part(
    alloc: Global,
    draft: &[u8],
    number: u32,
    place: u16,
) -> Result<Vec<u8>, DeckRefusal> {
    let desk = read_desk(alloc, draft)?;
    let loads = Loads::new(alloc, desk.text.as_slice(), desk.sources.as_slice())?;
    let mut text = Vec::new(alloc);
    push_source_part(&mut text, loads.line_at(number, place))?;
    Ok(text)
}

// Whether that part is a text.
pub fn has_part(alloc: Global, draft: &[u8], number: u32, place: u16, part: &[u8]) -> bool {
    match source_part(alloc, draft, number, place) {
        Ok(made) => made.as_slice() == part,
        Err(_) => false,
    }
}

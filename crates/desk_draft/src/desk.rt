// Drafts whose decks are read.
ghost use Rattle.std.specs.Prelude.{◌≡◌, Ok, IfErr, IfOk};
ghost use Rattle.mc_deck.specs.Refused.{DeckRefuses};
ghost use Rattle.desk_draft.specs.Listings.{desk_read};
ghost use Rattle.desk_draft.specs.Loads.{desk_value};

use crate::draft::{Draft, read_draft};
use crate::source::{Source, sources_of};
use mc_deck::{Deck, DeckRefusal, read_deck};
use std::alloc::Global;

/// A draft whose deck was read: the text of its deck, its sections with their code, and the lines of its deck.
#[derive(Drop)]
pub struct Desk<'a> {
    pub text: Vec<u8>,
    pub sources: Vec<Source<'a>>,
    pub deck: Deck,
}

/// Reads a draft, and its deck.
///
/// # Errors
///
/// Returns `At` with the number of the first refused line, counted from 1, and its cause: the first that is refused as
/// a draft's, and if there is none, as its deck's. Returns `NoMemory` if out of memory.
#[tactic(auto, using(crate::proofs::DeskLemmas::desk_made, crate::proofs::DeskLemmas::desk_refused, crate::proofs::DeskLemmas::deck_refused))]
pub fn read_desk(alloc: Global, draft: &[u8]) -> Result<Desk<'_>, DeckRefusal>
    ensures desk { IfOk result (λ d. desk_read draft.now ≡ Ok (desk_value d)) }
    ensures refused { IfErr result (λ e. DeckRefuses (desk_read draft.now) e) }
{
    let Draft {
        deck: text,
        sections,
    } = read_draft(alloc, draft)?;
    let deck = read_deck(alloc, text.as_slice())?;
    let sources = sources_of(alloc, text.as_slice(), sections.as_slice())?;
    Ok(Desk {
        text,
        sources,
        deck,
    })
}

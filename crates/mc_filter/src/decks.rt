// The deck of an input.
ghost use Rattle.std.specs.Prelude.{◌≡◌, Ok, IfErr, IfOk};
ghost use Rattle.mc_deck.specs.model_play.specs.DeckGrammar.{deck_read};
ghost use Rattle.mc_filter.specs.Inputs.{refused_deck, Rejects};

use crate::lines::refused;
use crate::rejection::Rejection;
use mc_deck::{Deck, DeckRefusal, read_deck};
use std::alloc::Global;

/// Reads a deck.
///
/// # Errors
///
/// Returns the line that refuses it, or `NoMemory` if out of memory.
pub fn deck_of(alloc: Global, text: &[u8]) -> Result<Deck, Rejection>
    ensures deck { IfOk result (λ d. deck_read text.now ≡ Ok d) }
    ensures rejected { IfErr result (Rejects (refused_deck (deck_read text.now))) }
{
    match read_deck(alloc, text) {
        Ok(deck) => Ok(deck),
        Err(DeckRefusal::At(number, cause)) => Err(refused(alloc, "line", number, cause.word())),
        Err(DeckRefusal::NoMemory) => Err(Rejection::NoMemory),
    }
}

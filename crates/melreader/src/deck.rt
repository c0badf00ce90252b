// The deck that a session begins with.
ghost use Rattle.std.specs.Prelude.{None, Some};
ghost use Rattle.mc_filter.specs.Inputs.{stream};
ghost use Rattle.melreader.specs.Decks.{HasDeck};

use mc_deck::Deck;
use mc_filter::{Rejection, deck_of, read_input};
use mc_streams::Source;
use std::alloc::Global;

// The deck of a blank card.
const BLANK_DECK: &[u8] = b"format";

/// Reads a source to its end and returns the deck in it.
///
/// # Errors
///
/// Returns the line that refuses the deck, a fault of the source, or `NoMemory`.
pub fn deck_from<D: Source>(alloc: Global, source: &mut D) -> Result<Deck, Rejection>
    ensures { HasDeck (Some (stream D.Source source.old)) (Some (stream D.Source source.new)) result }
{
    let text = read_input(alloc, source)?;
    deck_of(alloc, text.as_slice())
}

/// Returns the deck of a blank card: the one line `format`.
///
/// # Errors
///
/// Returns `NoMemory` if it is out of memory.
pub fn blank_deck(alloc: Global) -> Result<Deck, Rejection>
    ensures { HasDeck None None result }
{
    deck_of(alloc, BLANK_DECK)
}

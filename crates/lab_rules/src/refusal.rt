// Why a deck with its rules is not explored.
ghost use Rattle.std.specs.Prelude.{◌≡◌};
ghost use Rattle.lab_rules.specs.Meanings.{line_refusal};

use mc_deck::{DeckCause, DeckRefusal};

/// Why a deck with its rules is not explored.
#[derive(Clone, Copy, Debug, PartialEq, Eq)]
pub enum ExplorationRefusal {
    /// A line of the deck or of its rules is refused: its number, and the cause.
    Line(u32, DeckCause),
    /// No line is a move.
    NoMove,
    /// No line is an `on` line, so that no rule can be broken.
    NoRule,
    /// Out of memory.
    NoMemory,
}

/// Returns the refusal of a line.
pub fn line_refusal(refusal: DeckRefusal) -> ExplorationRefusal
    ensures { result ≡ line_refusal refusal }
{
    match refusal {
        DeckRefusal::At(number, cause) => ExplorationRefusal::Line(number, cause),
        DeckRefusal::NoMemory => ExplorationRefusal::NoMemory,
    }
}

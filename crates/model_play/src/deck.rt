ghost use Rattle.std.specs.Prelude.{◌≡◌};
ghost use Rattle.model_play.specs.Words.{deck_word};

use model_card::UnitRefusal;
use model_text::AsmCause;

/// Why a line of a deck is refused.
#[derive(Clone, Copy, Debug, PartialEq, Eq)]
pub enum DeckCause {
    TooManyLines,
    BadLine,
    BadName,
    BadHex,
    BadNumber,
    OutOfRange,
    NameTwice,
    UnknownName,
    LateLine,
    NoEnd,
    Unit(UnitRefusal),
    Asm(AsmCause),
}

impl DeckCause {
    /// Returns the word that a refusal prints: that of the unit's or the assembler's cause if it has one.
    pub fn word(&self) -> &'static str
        ensures { result.now ≡ deck_word self.now }
    {
        match self {
            DeckCause::TooManyLines => "TooManyLines",
            DeckCause::BadLine => "BadLine",
            DeckCause::BadName => "BadName",
            DeckCause::BadHex => "BadHex",
            DeckCause::BadNumber => "BadNumber",
            DeckCause::OutOfRange => "OutOfRange",
            DeckCause::NameTwice => "NameTwice",
            DeckCause::UnknownName => "UnknownName",
            DeckCause::LateLine => "LateLine",
            DeckCause::NoEnd => "NoEnd",
            DeckCause::Unit(cause) => cause.word(),
            DeckCause::Asm(cause) => cause.word(),
        }
    }
}

// Why a deck with the rules of one application is not explored.
ghost use Rattle.std.specs.Prelude.{◌≡◌};
ghost use Rattle.lab_deck.specs.Applications.{first_refusal, move_refusal};

use mc_deck::DeckRefusal;
use prove_rules::{RuleCause, RuleRefusal};

/// Why a deck with the rules of one application is not explored.
#[derive(Clone, Copy, Debug, PartialEq, Eq)]
pub enum ApplicationRefusal {
    /// A line is refused: its number, and the cause.
    Line(u32, RuleCause),
    /// No line is a move.
    NoMove,
    /// No line is an `on`, a `never` or an `always` line.
    NoRule,
    /// Out of memory.
    NoMemory,
}

/// Returns the refusal of a move.
pub fn move_refusal(refusal: DeckRefusal) -> ApplicationRefusal
    ensures { result ≡ move_refusal refusal }
{
    match refusal {
        DeckRefusal::At(number, cause) => {
            ApplicationRefusal::Line(number, RuleCause::Deck(cause))
        }
        DeckRefusal::NoMemory => ApplicationRefusal::NoMemory,
    }
}

/// Returns the refusal of a rule, or that of a move if its line is before that of the rule; line 0 is after all lines.
pub fn first_refusal(rule: RuleRefusal, of_move: Option<DeckRefusal>) -> ApplicationRefusal
    ensures { result ≡ first_refusal rule of_move }
{
    match (rule, of_move) {
        (RuleRefusal::NoMemory, _) => ApplicationRefusal::NoMemory,
        (_, Some(DeckRefusal::NoMemory)) => ApplicationRefusal::NoMemory,
        (RuleRefusal::At(line, cause), Some(DeckRefusal::At(number, of_move))) => {
            if number < line || line == 0 {
                ApplicationRefusal::Line(number, RuleCause::Deck(of_move))
            } else {
                ApplicationRefusal::Line(line, cause)
            }
        }
        (RuleRefusal::At(line, cause), None) => ApplicationRefusal::Line(line, cause),
    }
}

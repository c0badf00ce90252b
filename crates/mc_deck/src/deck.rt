use crate::line::{Line, OwnedLine, borrowed_line};
use crate::unit::OwnedUnit;
use std::marker::Model;

/// A deck, whose view in contracts is the list of its lines, each with its number. Lines that are skipped are
/// not in it, and they count in the numbers of the others. A deck owns everything that its lines refer to.
#[derive(Drop)]
pub struct Deck {
    pub units: Vec<OwnedUnit>,
    pub lines: Vec<(u32, OwnedLine)>,
}

impl Model for Deck {
    ghost use Rattle.std.specs.Prelude.{ℕ, List};
    ghost use Rattle.model_play.specs.DeckGrammar.{DeckLine};

    ghost Value = { List (ℕ × DeckLine) };

    ghost use Rattle.mc_deck.specs.Decks.{deck_view, KeepsDeck};

    ghost view = { deck_view };

    ghost invariant = { KeepsDeck };
}

impl Deck {
    ghost use Rattle.std.specs.Prelude.{◌≡◌, ◌<◌, length, slice_get, Some};
    ghost use Rattle.std.specs.List.{AllByRecursion};
    ghost use Rattle.model_play.specs.ReadyAgain.{IsLine};
    ghost use Rattle.mc_deck.specs.Lines.{line_of, AreDeck, GoodLine};

    /// Returns the number of lines of the deck.
    pub fn len(&self) -> usize
        ensures value { result ≡ length self.now }
        ensures deck { AreDeck self.now }
        ensures bytes { AllByRecursion (λ l. IsLine l.1) self.now }
    {
        self.lines.len()
    }

    /// Returns the line at place `i`, counted from 0, and its number.
    // A line is large, since a `Load` is: it is cheapest to make it in the caller.
    #[inline(always)]
    pub fn line(&self, i: usize) -> (u32, Line<'_>)
        requires { i < length self.now }
        ensures line { slice_get self.now i ≡ Some (result.0, line_of result.1) }
        ensures good { GoodLine (line_of result.1) }
        ensures deck { AreDeck self.now }
    {
        let (number, line) = &self.lines[i];
        (*number, borrowed_line(self.units.as_slice(), line))
    }
}

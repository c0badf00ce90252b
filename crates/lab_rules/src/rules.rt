// The rules of a deck.
ghost use Rattle.std.specs.Prelude.{◌≡◌, map, IfOk};
ghost use Rattle.law_explore.specs.model_play.specs.DeckGrammar.{DeckLine};
ghost use Rattle.mc_deck.specs.Lines.{line_of, GoodLine};
ghost use Rattle.lab_rules.specs.Meanings.{allowance_values, place_of};
ghost use Rattle.lab_rules.specs.Moves.{move_deck};

use mc_deck::{Deck, Line};
use model_device::NoMemory;

/// A move of a terminal: its statement as its line has it, and a deck of one `power` line and this statement.
#[derive(Drop)]
pub struct Move<'a> {
    pub text: &'a [u8],
    pub deck: Deck,
}

impl<'a> Move<'a> {
    /// Returns the line of a deck that the move is.
    pub fn line(&self) -> Line<'_>
        ensures good { GoodLine (line_of result) }
        ensures line { (l : DeckLine) → self.now.deck ≡ move_deck l → line_of result ≡ l }
    {
        match self.deck.len() {
            0 => Line::Power,
            count => self.deck.line(count - 1).1,
        }
    }
}

/// An allowance: its name, and its amount once the deck was played.
#[derive(Clone, Copy, Debug)]
pub struct Allowance<'a> {
    pub name: &'a [u8],
    pub amount: u32,
}

/// What of a move a pattern is compared with: its result, or each of its executed instructions.
#[derive(Clone, Copy, Debug, PartialEq, Eq)]
pub enum Occasion {
    Result,
    Turn,
}

/// What happens to an allowance: it is set to an amount, or reduced by it.
#[derive(Clone, Copy, Debug, PartialEq, Eq)]
pub enum Effect {
    Allow,
    Spend,
}

/// An `on` line: its number, the plain pattern of its moves, the plain pattern of its occasions, and what then happens to
/// which allowance, by its place among them.
#[derive(Drop)]
pub struct OnRule {
    pub line: u32,
    pub moves: Vec<u8>,
    pub occasion: Occasion,
    pub pattern: Vec<u8>,
    pub effect: Effect,
    pub allowance: usize,
    pub amount: u32,
}

/// The rules of a deck, each kind in the order of its lines.
#[derive(Drop)]
pub struct Rules<'a> {
    pub moves: Vec<Move<'a>>,
    pub allowances: Vec<Allowance<'a>>,
    pub ons: Vec<OnRule>,
}

// Returns the place of the allowance with a name.
fn place_of(allowances: &[Allowance<'_>], name: &[u8]) -> Option<usize>
    ensures { result ≡ place_of (allowance_values allowances.now) name.now }
{
    for (place, allowance) in allowances.iter().enumerate() {
        if allowance.name == name {
            return Some(place);
        }
    }
    None
}

impl<'a> Rules<'a> {
    /// Returns the place of the allowance with a name, or `None` if there is none.
    pub fn allowance_named(&self, name: &[u8]) -> Option<usize>
        ensures { result ≡ place_of (allowance_values self.now.allowances.items) name.now }
    {
        place_of(self.allowances.as_slice(), name)
    }

    /// Returns the amounts of the allowances once the deck was played.
    ///
    /// # Errors
    ///
    /// Returns `NoMemory` if it is out of memory.
    pub fn amounts(&self) -> Result<Vec<u32>, NoMemory>
        ensures { IfOk result (λ v. v.items ≡ map (λ a. a.1) (allowance_values self.now.allowances.items)) }
    {
        let alloc = *self.allowances.allocator();
        Ok(self.allowances.iter().map(|one| one.amount).collect(alloc)?)
    }
}

// The plays of a sweep, and the trait of what plays them.
ghost use Rattle.std.specs.Prelude.{◌≡◌, ◌≤◌, ℕ, List};
ghost use Rattle.law_explore.specs.model_device.specs.Bytes.{zeros};
ghost use Rattle.law_explore.specs.model_play.specs.DeckGrammar.{DeckLine};
ghost use Rattle.mc_lab.specs.SweepBodies.{account_value, front_of, hit_in, lines_through, state_at_place, CanCut, AccountFits};
ghost use Rattle.mc_lab.specs.declared.sweep_trial.TrialLines.TheVariants as trial;
ghost use Rattle.mc_lab.specs.SweepBodies.{IsRecoveryBound, IsPlace};

use crate::sweep_account::Account;
use mc_deck::Deck;
use mc_words::{Aid, Steps, Word};
use std::sync::ledger::Ledger;

/// A line of a deck, and the names whose static bytes are observed.
#[derive(Clone, Copy)]
pub struct Place<'a> {
    pub deck: &'a Deck,
    pub at: usize,
    pub names: &'a [Aid],
}

/// The lines that are played after those before a line: none, the line, the line with one of its writes cut,
/// or also a power line with one of its writes cut. Writes are counted from 1, and a cut leaves its fill.
#[derive(Clone, Copy, Debug)]
pub enum TrialLines {
    Nothing,
    Whole,
    Cut { k: u32, fill: Word },
    Twice { k: u32, fill: Word, again: u32 },
}

/// The end of a play: whether its last cut hit its line, and a number of device writes that the power line without
/// a cut did not exceed. If that found a card, it made exactly that number.
#[derive(Clone, Copy, Debug, PartialEq, Eq)]
pub struct Played {
    pub hit: bool,
    pub most: u16,
}

/// A play of a deck on a device of 8,192 words, line by line, and trials of the line that comes next. Each trial goes
/// on from the lines that were played, as if they were played for it on a blank device.
pub trait Trials {
    /// These lines were played.
    ghost has_played: { Self → List (ℕ × DeckLine) → Type 0 };

    /// Plays the lines of a trial after the lines before a line, which were played, and then a power line without a
    /// cut. Stores the observed state in `into`.
    fn report<L: Ledger>(
        &mut self,
        place: &Place<'_>,
        trial: TrialLines,
        into: &mut Account,
        steps: &mut Steps<L>,
    ) -> Played
        requires at { IsPlace place.now }
        requires played { has_played self.old (front_of place.now) }
        requires room { AccountFits into.old place.now }
        requires cuts { CanCut trial }
        ensures reported { account_value into.new ≡ state_at_place place.now trial }
        ensures hit { result.hit ≡ hit_in place.now trial }
        ensures few { IsRecoveryBound place.now trial result.most }
        ensures room { AccountFits into.new place.now }
        ensures played { has_played self.new (front_of place.now) };

    /// Returns whether a line makes at least `k` device writes: plays it after the lines before it, which were played,
    /// with that write cut.
    fn reaches<L: Ledger>(&mut self, place: &Place<'_>, k: u32, steps: &mut Steps<L>) -> bool
        requires at { IsPlace place.now }
        requires played { has_played self.old (front_of place.now) }
        requires low { 1 ≤ k }
        ensures hit { result ≡ hit_in place.now (trial.Cut k (zeros 8)) }
        ensures played { has_played self.new (front_of place.now) };

    /// Plays a line after the lines before it, which were played.
    fn advance<L: Ledger>(&mut self, place: &Place<'_>, steps: &mut Steps<L>)
        requires at { IsPlace place.now }
        requires played { has_played self.old (front_of place.now) }
        ensures played { has_played self.new (lines_through place.now) };
}

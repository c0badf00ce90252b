// Commands that are run turn by turn before a follower, who knows which section runs.
ghost use Rattle.std.specs.Prelude.{◌≡◌, ◌+◌, ◌≤◌, ◌++◌, List, [], ℕ, is_err};
ghost use Rattle.mc_arith.specs.model_machine.specs.Chain.{Chain, turn_of};
ghost use Rattle.desk_draft.specs.Listings.{Source};
ghost use Rattle.mc_machine.specs.Turns.{brief_result};
ghost use Rattle.mc_card.specs.Parts.{card_in, device_in, due, IsReadyCard, IsRunning, RunsChain};
ghost use Rattle.mc_card.specs.Ends.{outcome_or_stop, ChainTurned};
ghost use Rattle.mc_script.specs.Runs.{RanAndReported, sent_to};
ghost use Rattle.mc_script.specs.StepCounts.{command_search, instructions, StepsOf};
ghost use Rattle.mc_script.specs.Watching.{IsWide, Watches, WatchesTurn};
ghost use Rattle.desk_cover.specs.Known.{Knows};

use crate::known::Known;
use crate::sections::Sections;
use mc_card::{BriefTurn, Card};
use mc_machine::Outcome;
use mc_nvm::Nvm;
use mc_words::{Steps, Stop};
use std::sync::ledger::Ledger;

/// Watches the turns of the applications of a play, as `mc_script`'s `Watcher` does, by which section of a draft runs.
///
/// An `impl` says in `Seen` and `seen` what it sees of a turn, in `watched` what it then holds, and in `sources` the
/// sections of the draft. Of the clauses of `turn` only `watches` is the follower's own.
pub trait Follower {
    /// What is seen of a turn.
    ghost Seen: { Type 0 };

    /// What is seen of the turn of a chain, if this many instructions are left of the budget.
    ghost seen: { ℕ → Chain → Self.Seen };

    /// The follower before and after it recorded what is seen of some turns, in order.
    ghost watched: { Self → List Self.Seen → Self → Type 0 };

    /// The sections of the draft.
    ghost sources: { Self → List Source };

    /// Runs a turn of the command that runs on a card, of whose application this is known, and records what is seen of
    /// it, whichever chain the card runs, if its segments are whole. With the last turn the outcome of the command is
    /// written to `into`.
    ///
    /// # Errors
    ///
    /// Returns the `Stop` of the write that stopped; nothing is recorded of its turn.
    fn turn<N: Nvm, L: Ledger>(
        &mut self,
        card: &mut Card<N>,
        known: &Known,
        into: &mut Outcome,
        steps: &mut Steps<L>,
    ) -> Result<BriefTurn, Stop>
        requires running { IsRunning N.state card.old }
        requires known { Knows N.state card.old (sources self.old) known.now }
        ensures done { (ch : Chain) (left : ℕ) → RunsChain N.state card.old ch left
            → ChainTurned N.state N.wrote card.old ch left (turn_of left ch) (brief_result result into.new) card.new }
        ensures watches { (ch : Chain) (left : ℕ) → RunsChain N.state card.old ch left → IsWide ch
            → WatchesTurn Self.seen Self.watched left ch (brief_result result into.new) self.old self.new }
        ensures steps { (ch : Chain) (left : ℕ) → RunsChain N.state card.old ch left
            → steps.new ≡ steps.old + (turn_of left ch).count }
        ensures keeps_device { N.same (device_in card.old) (device_in card.new) };

    /// Without turns nothing is recorded.
    ghost silent: { (r : Self) → Self.watched r [] r };

    /// Turns are recorded after those before them.
    ghost onward: { (q r s : Self) (ts us : List Self.Seen) → Self.watched q ts r → Self.watched r us s
        → Self.watched q (ts ++ us) s };

    /// The sections stay.
    ghost stays: { (q r : Self) (ts : List Self.Seen) → Self.watched q ts r → sources r ≡ sources q };
}

/// Runs a command turn by turn before a follower. Its application's code is compared with that of the sections once,
/// and again only if another application runs on.
///
/// # Errors
///
/// Returns the `Stop` of the write that stopped, whose turn the follower does not record.
pub fn run_followed<N: Nvm, W: Follower, L: Ledger>(
    follower: &mut W,
    sections: &Sections<'_>,
    card: &mut Card<N>,
    bytes: &[u8],
    budget: u32,
    into: &mut Outcome,
    steps: &mut Steps<L>,
) -> Result<(), Stop>
    requires ready { IsReadyCard N.state card.old }
    requires some { 1 ≤ budget }
    requires budget { budget ≤ 65536 }
    requires sources { W.sources follower.old ≡ sections.now }
    ensures done { RanAndReported N.state N.wrote (Watches W.seen W.watched (sent_to N.state card.old bytes.now budget))
        card.old (due N.state card.old bytes.now budget) (outcome_or_stop result into.new) card.new follower.old
        follower.new }
    ensures steps { StepsOf (instructions (due N.state card.old bytes.now budget).turns)
        (command_search (card_in N.state card.old) bytes.now) (is_err result) steps.old steps.new }
    ensures keeps_device { N.same (device_in card.old) (device_in card.new) }
{
    if let Some(outcome) = card.begin(bytes, budget, steps)? {
        *into = outcome;
        return Ok(());
    }
    let mut known = Known::new(card, sections);
    let mut left = budget;
    'turns: loop {
        let turn = follower.turn(card, &known, into, steps)?;
        if turn.end.is_some() {
            return Ok(());
        }
        known.follow(card, sections);
        left -= 1;
    }
}

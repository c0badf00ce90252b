// Commands that are run turn by turn before a watcher.
ghost use Rattle.std.specs.Prelude.{◌≡◌, ◌+◌, ◌≤◌, ◌++◌, List, [], ℕ, is_err};
ghost use Rattle.model_play.specs.model_machine.specs.Chain.{Chain, turn_of};
ghost use Rattle.mc_machine.specs.Turns.{brief_result};
ghost use Rattle.mc_card.specs.Parts.{card_in, device_in, due, IsReadyCard, IsRunning, RunsChain};
ghost use Rattle.mc_card.specs.Ends.{outcome_or_stop, ChainTurned};
ghost use Rattle.mc_script.specs.Runs.{RanAndReported, sent_to};
ghost use Rattle.mc_script.specs.StepCounts.{command_search, instructions, StepsOf};
ghost use Rattle.mc_script.specs.Watching.{IsWide, Watches, WatchesTurn};

use mc_card::{BriefTurn, Card};
use mc_machine::Outcome;
use mc_nvm::Nvm;
use mc_words::{Steps, Stop};
use std::sync::ledger::Ledger;

/// Watches the turns of the applications of a play: `run_watched` has it run each turn of a command, and so lets it look
/// at the card before and after the turn.
///
/// An `impl` says in `Seen` and `seen` what it sees of a turn, as a function of the chain before the turn and of the
/// instructions that are left of the budget: `Turn` and `turn_alone` for the turn alone, or a record with what surrounds
/// it. `watched` says what it then holds. `turn` calls `card.brief_turn(into, steps)?` once, looks at the card before and
/// after, and returns the turn: of its clauses only `watches` is the watcher's own.
///
/// A watcher is made a `Runner` by `run` with `run_watched` as its body and these members, by the laws of the watcher:
/// `reported` is `Watches seen watched`, `silent` is `λ c. silent`, and `onward` is `λ c d q r s. onward q r s [] []`.
pub trait Watcher {
    /// What is seen of a turn.
    ghost Seen: { Type 0 };

    /// What is seen of the turn of a chain, if this many instructions are left of the budget.
    ghost seen: { ℕ → Chain → Self.Seen };

    /// The watcher before and after it recorded what is seen of some turns, in order.
    ghost watched: { Self → List Self.Seen → Self → Type 0 };

    /// Runs a turn of the command that runs on a card, and records what is seen of it, whichever chain the card runs, if
    /// its segments are whole. With the last turn the outcome of the command is written to `into`.
    ///
    /// # Errors
    ///
    /// Returns the `Stop` of the write that stopped; nothing is recorded of its turn.
    fn turn<N: Nvm, L: Ledger>(
        &mut self,
        card: &mut Card<N>,
        into: &mut Outcome,
        steps: &mut Steps<L>,
    ) -> Result<BriefTurn, Stop>
        requires { IsRunning N.state card.old }
        ensures done { (ch : Chain) (left : ℕ) → RunsChain N.state card.old ch left
            → ChainTurned N.state N.wrote card.old ch left (turn_of left ch) (brief_result result into.new) card.new }
        ensures watches { (ch : Chain) (left : ℕ) → RunsChain N.state card.old ch left → IsWide ch
            → WatchesTurn Self.seen Self.watched left ch (brief_result result into.new) self.old self.new }
        ensures steps { (ch : Chain) (left : ℕ) → RunsChain N.state card.old ch left
            → steps.new ≡ steps.old + (turn_of left ch).count }
        ensures keeps_device { N.same (device_in card.old) (device_in card.new) };

    /// Without turns nothing is recorded.
    ghost silent: { (r : Self) → Self.watched r [] r };

    /// Turns are recorded after those before them.
    ghost onward: { (q r s : Self) (ts us : List Self.Seen) → Self.watched q ts r → Self.watched r us s
        → Self.watched q (ts ++ us) s };
}

/// Runs a command turn by turn before a watcher.
///
/// # Errors
///
/// Returns the `Stop` of the write that stopped, whose turn the watcher does not record.
pub fn run_watched<N: Nvm, W: Watcher, L: Ledger>(
    watcher: &mut W,
    card: &mut Card<N>,
    bytes: &[u8],
    budget: u32,
    into: &mut Outcome,
    steps: &mut Steps<L>,
) -> Result<(), Stop>
    requires ready { IsReadyCard N.state card.old }
    requires some { 1 ≤ budget }
    requires budget { budget ≤ 65536 }
    ensures done { RanAndReported N.state N.wrote (Watches W.seen W.watched (sent_to N.state card.old bytes.now budget))
        card.old (due N.state card.old bytes.now budget) (outcome_or_stop result into.new) card.new watcher.old
        watcher.new }
    ensures steps { StepsOf (instructions (due N.state card.old bytes.now budget).turns)
        (command_search (card_in N.state card.old) bytes.now) (is_err result) steps.old steps.new }
    ensures keeps_device { N.same (device_in card.old) (device_in card.new) }
{
    if let Some(outcome) = card.begin(bytes, budget, steps)? {
        *into = outcome;
        return Ok(());
    }
    let mut left = budget;
    'turns: loop {
        let turn = watcher.turn(card, into, steps)?;
        if turn.end.is_some() {
            return Ok(());
        }
        left -= 1;
    }
}

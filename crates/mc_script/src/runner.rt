// Runners, which run the commands of a play, and may record their turns.
ghost use Rattle.std.specs.Prelude.{◌≤◌, List, [], is_err};
ghost use Rattle.model_play.specs.model_machine.specs.Chain.{Turn as ModelTurn};
ghost use Rattle.mc_card.specs.Parts.{device_in, card_in, due, IsReadyCard};
ghost use Rattle.mc_script.specs.Runs.{RanAndReported, SentCommand, sent_to};
ghost use Rattle.mc_script.specs.StepCounts.{instructions, command_search, StepsOf};
ghost use Rattle.mc_card.specs.Ends.{outcome_or_stop};

use mc_card::Card;
use mc_machine::Outcome;
use mc_nvm::Nvm;
use mc_words::{Steps, Stop};
use std::sync::ledger::Ledger;

/// Runs the commands of a play, and may record their turns.
pub trait Runner {
    /// The runner before and after it recorded some turns of a command, in order: all, or those before a stop.
    ghost reported: { SentCommand → Self → List ModelTurn → Self → Type 0 };

    /// Runs one command on a card, with a budget of 1 to 65,536 instructions, and writes its outcome to
    /// `into`. The turns that are recorded are those of its run; if a write stopped, those before the turn
    /// whose write it was. Each executed instruction is one step, and an OPEN searches for room in at most two steps
    /// more than the card has gaps.
    ///
    /// # Errors
    ///
    /// Returns the `Stop` of the write that stopped.
    fn run<N: Nvm, L: Ledger>(
        &mut self,
        card: &mut Card<N>,
        bytes: &[u8],
        budget: u32,
        into: &mut Outcome,
        steps: &mut Steps<L>,
    ) -> Result<(), Stop>
        requires ready { IsReadyCard N.state card.old }
        requires some { 1 ≤ budget }
        requires budget { budget ≤ 65536 }
        ensures done { RanAndReported N.state N.wrote (reported (sent_to N.state card.old bytes.now budget)) card.old
            (due N.state card.old bytes.now budget) (outcome_or_stop result into.new) card.new self.old self.new }
        ensures steps { StepsOf (instructions (due N.state card.old bytes.now budget).turns)
            (command_search (card_in N.state card.old) bytes.now) (is_err result) steps.old steps.new }
        ensures keeps_device { N.same (device_in card.old) (device_in card.new) };

    /// Without turns nothing is recorded.
    ghost silent: { (c : SentCommand) (r : Self) → reported c r [] r };

    /// A command without turns may follow one, whatever it is sent to.
    ghost onward: { (c d : SentCommand) (q r s : Self) → reported c q [] r → reported d r [] s → reported c q [] s };
}

/// Runs commands, and records nothing of their turns.
#[derive(Clone, Copy, Debug)]
pub struct Silent;

impl Runner for Silent {
    ghost reported = { λ c q ts r. Unit {0} };

    ghost silent = { λ c r. tt };

    ghost onward = { λ c d q r s first rest. tt };

    fn run<N: Nvm, L: Ledger>(
        &mut self,
        card: &mut Card<N>,
        bytes: &[u8],
        budget: u32,
        into: &mut Outcome,
        steps: &mut Steps<L>,
    ) -> Result<(), Stop> {
        card.command_into(bytes, budget, into, steps)
    }
}

// The lines that are commands to a card.
ghost use Rattle.std.specs.Prelude.{◌≡◌, ◌≤◌, ◌++◌, ◌∷◌, length, is_err};
ghost use Rattle.model_play.specs.Play.{line_command};
ghost use Rattle.mc_deck.specs.Lines.{GoodLine};
ghost use Rattle.mc_card.specs.Parts.{device_in, card_in, session_state_in, IsReadyCard};
ghost use Rattle.mc_script.specs.Commands.{deck_line_of};
ghost use Rattle.mc_script.specs.Runs.{RanAndReported, line_bytes, sent_to};
ghost use Rattle.mc_script.specs.StepCounts.{instructions, line_search, StepsOf};
ghost use Rattle.mc_card.specs.Ends.{outcome_or_stop};

use crate::loading::{LoadCommands, send};
use crate::runner::Runner;
use arrayvec::ArrayVec;
use mc_card::Card;
use mc_machine::Outcome;
use mc_nvm::Nvm;
use mc_unit::Unit;
use mc_words::{Aid, Steps, Stop};
use std::sync::ledger::Ledger;

/// A line that is one command to a card, or the commands of a load.
#[derive(Clone, Copy, Debug)]
pub enum CardLine<'a> {
    Select(&'a Aid),
    Delete(&'a Aid),
    Apdu(&'a [u8]),
    Load {
        unit: &'a Unit<'a>,
        fixed: u16,
        session: u16,
    },
}

// Returns a command with a name as its data.
fn with_name(header: [u8; 4], aid: &Aid) -> ArrayVec<u8, 21>
    ensures { result.items ≡ header ++ length aid.now ∷ aid.now }
{
    let mut bytes = ArrayVec::new();
    bytes.try_extend_from_slice(&header).unwrap();
    bytes.push(aid.bytes().len() as u8);
    bytes.try_extend_from_slice(aid.bytes()).unwrap();
    bytes
}

/// Runs the command or the commands of a line on a card, and writes the last outcome to `into`.
pub fn run_line<N: Nvm, R: Runner, L: Ledger>(
    card: &mut Card<N>,
    command: &CardLine<'_>,
    budget: u32,
    runner: &mut R,
    into: &mut Outcome,
    steps: &mut Steps<L>,
) -> Result<(), Stop>
    requires ready { IsReadyCard N.state card.old }
    requires some { 1 ≤ budget }
    requires budget { budget ≤ 65536 }
    requires good { GoodLine (deck_line_of command.now) }
    ensures done { RanAndReported N.state N.wrote
        (R.reported (sent_to N.state card.old (line_bytes (deck_line_of command.now)) budget)) card.old
        (line_command (card_in N.state card.old) (session_state_in N.state card.old) budget (deck_line_of command.now))
        (outcome_or_stop result into.new) card.new runner.old runner.new }
    ensures steps { StepsOf
        (instructions (line_command (card_in N.state card.old) (session_state_in N.state card.old) budget
        (deck_line_of command.now)).turns)
        (line_search (card_in N.state card.old) (deck_line_of command.now)) (is_err result) steps.old steps.new }
    ensures keeps_device { N.same (device_in card.old) (device_in card.new) }
{
    match command {
        CardLine::Select(aid) => runner.run(
            card,
            with_name([0x00, 0xA4, 0x04, 0x0C], aid).as_slice(),
            budget,
            into,
            steps,
        ),
        CardLine::Delete(aid) => runner.run(
            card,
            with_name([0xBE, 0x18, 0x00, 0x00], aid).as_slice(),
            budget,
            into,
            steps,
        ),
        CardLine::Apdu(bytes) => runner.run(card, bytes, budget, into, steps),
        CardLine::Load {
            unit,
            fixed,
            session,
        } => {
            let mut commands = LoadCommands::new(unit, *fixed, *session);
            send(card, &mut commands, budget, runner, into, steps)
        }
    }
}

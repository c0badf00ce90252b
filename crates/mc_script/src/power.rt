// Power lines, card lines, and how a stop ends them.
ghost use Rattle.std.specs.Prelude.{◌≡◌, ◌≤◌, Some};
ghost use Rattle.model_play.specs.DeckGrammar as line;
ghost use Rattle.mc_deck.specs.Lines.{GoodLine};
ghost use Rattle.mc_card.specs.Parts.{device_in, with_device, IsReadyCard};
ghost use Rattle.mc_script.specs.Arming.{armed_bench, power_after_stop, answer_after_stop, power_after_failure, answer_after_failure};
ghost use Rattle.mc_script.specs.Players.{device_of, CanArm};
ghost use Rattle.mc_script.specs.declared.armed.Armed.TheVariants as armed;
ghost use Rattle.mc_script.specs.declared.player.Power.TheVariants as live;
ghost use Rattle.mc_script.specs.Commands.{deck_line_of};
ghost use Rattle.mc_script.specs.Runs.{sent_by};
ghost use Rattle.mc_script.specs.Benches.{CountsLine, IsPlaying, LineDone, SilentDone};

use crate::answer::Answer;
use crate::armed::Armed;
use crate::commands::{CardLine, run_line};
use crate::player::{Player, Power};
use crate::runner::Runner;
use mc_card::{Card, Up};
use mc_nvm::Bench;
use mc_words::{Steps, Stop};
use std::sync::ledger::Ledger;

/// The word that a failed write leaves.
const WORN: [u8; 8] = [0; 8];

// Passes the armed stop to the device of a card.
fn arm<N: Bench>(card: &mut Card<N>, armed: Armed)
    requires { CanArm armed }
    ensures state { N.state (device_in card.new) ≡ N.state (device_in card.old) }
    ensures bench { N.bench (device_in card.new) ≡ armed_bench armed (N.bench (device_in card.old)) }
    ensures rest { card.new ≡ with_device card.old (device_in card.new) }
    ensures keeps_device { N.same (device_in card.old) (device_in card.new) }
{
    match armed {
        Armed::Not => {}
        Armed::Cut { k, fill } => card.arm(k, fill),
        Armed::Fail(k) => card.wear(k, WORN),
    }
}

// Returns the power after a stop: no card runs, and after a failed write it is mute.
fn power_after_stop(stop: Stop) -> Power
    ensures { result ≡ power_after_stop stop }
{
    match stop {
        Stop::Off => Power::Off,
        Stop::Worn => Power::Mute,
    }
}

// Returns the answer of a line that a stop hit.
fn answer_after_stop(stop: Stop, armed: Armed) -> Answer
    ensures { result ≡ answer_after_stop stop armed }
{
    match stop {
        Stop::Off => Answer::OffAt(armed.cut_place()),
        Stop::Worn => Answer::Worn,
    }
}

// Returns the power after a power line that found no card.
fn power_after_failure(up: Up) -> Power
    ensures { result ≡ power_after_failure up }
{
    match up {
        Up::Stop(stop) => power_after_stop(stop),
        Up::Unusable(_) => Power::Off,
    }
}

// Returns the answer of a power line that found no card.
fn answer_after_failure(up: Up, armed: Armed) -> Answer
    ensures { result ≡ answer_after_failure up armed }
{
    match up {
        Up::Stop(stop) => answer_after_stop(stop, armed),
        Up::Unusable(unusable) => Answer::Unusable(unusable),
    }
}

impl<N: Bench> Player<N> {
    /// Plays a `power` line: turns power on and looks for the card, under the armed stop.
    pub(crate) fn power_line(&mut self) -> Answer
        requires { IsPlaying N.Bench self.old }
        ensures done { SilentDone N.Bench self.old line.Power (Some result) self.new }
        ensures keeps_device { N.same (device_of self.old) (device_of self.new) }
    {
        let armed = self.armed;
        self.armed = Armed::Not;
        let _size = self.card.len();
        self.card.power();
        arm(&mut self.card, armed);
        let up = self.card.restart();
        self.card.disarm();
        match up {
            Ok(writes) => {
                self.power = Power::On;
                Answer::Ready(writes)
            }
            Err(up) => {
                self.power = power_after_failure(up);
                answer_after_failure(up, armed)
            }
        }
    }

    /// Plays a line of commands, which needs a card that runs. The armed stop is used up with it.
    pub(crate) fn card_line<R: Runner, L: Ledger>(
        &mut self,
        command: &CardLine<'_>,
        runner: &mut R,
        steps: &mut Steps<L>,
    ) -> Answer
        requires playing { IsPlaying N.Bench self.old }
        requires good { GoodLine (deck_line_of command.now) }
        ensures done { LineDone N.Bench (R.reported (sent_by N.state self.old (deck_line_of command.now)))
            self.old (deck_line_of command.now) runner.old runner.new (Some result) self.new }
        ensures steps { CountsLine N.Bench self.old (deck_line_of command.now) (Some result) steps.old
            steps.new }
        ensures keeps_device { N.same (device_of self.old) (device_of self.new) }
    {
        match self.power {
            Power::BeforePower => self.refuse(Answer::NoCard),
            Power::Off => self.refuse(Answer::NoCard),
            Power::Mute => self.refuse(Answer::Mute),
            Power::On => self.run_on(command, runner, steps),
        }
    }

    // Plays a line of commands when no card runs.
    fn refuse(&mut self, answer: Answer) -> Answer
        ensures player { self.new ≡ record self.old { armed = armed.Not } }
        ensures answer { result ≡ answer }
    {
        self.armed = Armed::Not;
        answer
    }

    // Plays a line of commands to a card that runs, under the armed stop.
    fn run_on<R: Runner, L: Ledger>(
        &mut self,
        command: &CardLine<'_>,
        runner: &mut R,
        steps: &mut Steps<L>,
    ) -> Answer
        requires on { self.old.power ≡ live.On }
        requires ready { IsReadyCard N.state self.old.card }
        requires some { 1 ≤ self.old.budget }
        requires most { self.old.budget ≤ 65536 }
        requires can { CanArm self.old.armed }
        requires good { GoodLine (deck_line_of command.now) }
        ensures done { LineDone N.Bench (R.reported (sent_by N.state self.old (deck_line_of command.now)))
            self.old (deck_line_of command.now) runner.old runner.new (Some result) self.new }
        ensures steps { CountsLine N.Bench self.old (deck_line_of command.now) (Some result) steps.old
            steps.new }
        ensures keeps_device { N.same (device_of self.old) (device_of self.new) }
    {
        let armed = self.armed;
        self.armed = Armed::Not;
        arm(&mut self.card, armed);
        let ended = run_line(
            &mut self.card,
            command,
            self.budget,
            runner,
            &mut self.outcome,
            steps,
        );
        self.card.disarm();
        match ended {
            Ok(()) => Answer::Outcome,
            Err(stop) => {
                self.power = power_after_stop(stop);
                answer_after_stop(stop, armed)
            }
        }
    }
}

// One line of a deck.
ghost use Rattle.std.specs.Prelude.{◌≡◌};
ghost use Rattle.mc_deck.specs.Lines.{line_of, GoodLine};
ghost use Rattle.mc_script.specs.Players.{device_of};
ghost use Rattle.mc_script.specs.Counting.{count_after_rises, line_powers};
ghost use Rattle.mc_script.specs.Arming.{on_after_answer};
ghost use Rattle.mc_script.specs.Runs.{sent_by};
ghost use Rattle.mc_script.specs.Benches.{CountsLine, IsPlaying, LineDone};

use crate::answer::Answer;
use crate::commands::CardLine;
use crate::player::Player;
use crate::runner::Runner;
use mc_deck::Line;
use mc_nvm::Bench;
use mc_words::Steps;
use std::sync::ledger::Ledger;

impl<N: Bench> Player<N> {
    /// Plays one line of a deck, and returns its result, or `None` if it has none.
    ///
    /// A line to the card meets the stop that is armed, and `runner` records the turns that the line shows.
    /// The result is that of the player as the line leaves it. Each executed instruction is one step, and the search of
    /// an OPEN for room takes at most two steps more than the card has gaps.
    pub fn line<R: Runner, L: Ledger>(
        &mut self,
        line: &Line<'_>,
        runner: &mut R,
        steps: &mut Steps<L>,
    ) -> Option<Answer>
        requires playing { IsPlaying N.Bench self.old }
        requires good { GoodLine (line_of line.now) }
        // The line is the step of the play from each state that the player is at: its words, its power, its calls of
        // the bench, its tape, its turns and its result.
        ensures done { LineDone N.Bench (R.reported (sent_by N.state self.old (line_of line.now))) self.old
            (line_of line.now) runner.old runner.new result self.new }
        // A `power` line turns the power of the device on once, and no other line does.
        ensures powers { (N.bench (device_of self.new)).powers
            ≡ count_after_rises (N.bench (device_of self.old)).powers (line_powers (line_of line.now)) }
        // A cut takes the power; else it is on after a `power` line, and after any other line as it was.
        ensures power { (N.state (device_of self.new)).on
            ≡ on_after_answer (N.state (device_of self.old)).on (line_of line.now) result }
        // Its steps are those of its instructions and of its search for room; a line that a stop hits makes no more.
        ensures steps { CountsLine N.Bench self.old (line_of line.now) result steps.old steps.new }
        // The device is the same one.
        ensures keeps_device { N.same (device_of self.old) (device_of self.new) }
    {
        match line {
            Line::Format => self.format(),
            Line::Power => Some(self.power_line()),
            Line::Named => None,
            Line::Load {
                unit,
                fixed,
                session,
            } => {
                let command = CardLine::Load {
                    unit,
                    fixed: *fixed,
                    session: *session,
                };
                Some(self.card_line(&command, runner, steps))
            }
            Line::Select(aid) => Some(self.card_line(&CardLine::Select(aid), runner, steps)),
            Line::Delete(aid) => Some(self.card_line(&CardLine::Delete(aid), runner, steps)),
            Line::Dump(aid) => Some(Answer::Dump(*aid)),
            Line::Apdu(bytes) => Some(self.card_line(&CardLine::Apdu(bytes), runner, steps)),
            Line::Budget(budget) => {
                self.set_budget(*budget);
                None
            }
            Line::Cut { k, fill } => {
                let fill = *fill;
                self.arm_cut(*k, fill);
                None
            }
            Line::Fail(k) => {
                self.arm_fail(*k);
                None
            }
            Line::Poke { at, fill } => {
                let fill = *fill;
                self.poke(*at, fill);
                None
            }
        }
    }
}

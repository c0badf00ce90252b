// The text of a play, written line by line.
ghost use Rattle.std.specs.Prelude.{◌≡◌, ◌≤◌, ◌++◌, ◌∷◌, [], ℕ, List, Option, None, IfSome, option_map};
ghost use Rattle.model_play.specs.model_machine.specs.Chain.{Turn as ModelTurn};
ghost use Rattle.model_play.specs.model_machine.specs.Code.{Shaped};
ghost use Rattle.model_play.specs.Transcript.{line_text};
ghost use Rattle.mc_machine.specs.declared.outcome.Outcome.{Outcome};
ghost use Rattle.mc_machine.specs.Turns.{full_turn, turn_value};
ghost use Rattle.mc_text.specs.Texts.{sunk, Puts};
ghost use Rattle.mc_script.specs.Players.{answer_value};
ghost use Rattle.mc_script.specs.Benches.{IsPlaying};
ghost use Rattle.mc_script.specs.Watching.{turn_alone};
ghost use Rattle.mc_script.specs.Writers.{keeps_none, keeps_on, log_in, same_after, same_itself, same_kept, same_texts, text_by, turns_text, write_result, IsSameWriter, WriterKeeps};
ghost use Rattle.mc_script.specs.declared.writer.Reporting.TheVariants as reporting;

use crate::answer::Answer;
use crate::player::Player;
use crate::reporter::Reporter;
use crate::runner::Runner;
use crate::text::{Text, put_answer};
use crate::watching::{Watcher, run_watched};
use arrayvec::ArrayVec;
use mc_card::{BriefTurn, Card};
use mc_machine::Outcome;
use mc_nvm::{Bench, Nvm};
use mc_streams::{Sink, WriteFault};
use mc_text::put;
use mc_trace::line_of_brief;
use mc_words::{Steps, Stop};
use std::sync::ledger::Ledger;

/// The text of each line of a play: its result, or the lines of its turns and its result.
#[derive(Clone, Copy, Debug)]
pub enum Reporting {
    Results,
    Turns,
}

/// Writes the text of a play, line by line. Once its sink failed it writes no more, and commands are run to their end.
#[derive(Drop)]
pub struct Writer<'a, T: Sink> {
    pub(crate) out: &'a mut T,
    pub(crate) fault: Option<WriteFault>,
    pub(crate) line: Text,
    pub(crate) reporting: Reporting,
}

/// Returns `Ok` if all was written, or else the fault of the sink.
pub fn write_result(fault: Option<WriteFault>) -> Result<(), WriteFault>
    ensures { result ≡ write_result fault }
{
    match fault {
        None => Ok(()),
        Some(fault) => Err(fault),
    }
}

impl<'a, T: Sink> Writer<'a, T> {
    /// Returns a writer that has written nothing.
    pub fn new(out: &'a mut T, reporting: Reporting) -> Writer<'a, T>
        ensures out { result.out.now ≡ out.old }
        ensures same { result.out.ghost_name ≡ out.entry.ghost_name }
        ensures fault { result.fault ≡ None }
        ensures reporting { result.reporting ≡ reporting }
    {
        Writer {
            out,
            fault: None,
            line: ArrayVec::new(),
            reporting,
        }
    }

    // Writes the result of a line after the text of the turns that were recorded in it, unless its sink failed before.
    fn put_result<N: Bench>(&mut self, number: u32, player: &Player<N>, answer: &Option<Answer>)
        requires playing { IsPlaying N.Bench player.now }
        ensures reports { (before : Writer T) (ts : List ModelTurn) → before.fault ≡ None
            → WriterKeeps T.Sink before ts self.old
            → Puts (sunk T.Sink before.out.now) (turns_text before.reporting ts
            ++ line_text number (option_map (answer_value N.state player.now) answer.now)) (write_result self.new.fault)
            (sunk T.Sink self.new.out.now) }
        ensures same { self.new.out.ghost_name ≡ self.old.out.ghost_name }
        ensures reporting { self.new.reporting ≡ self.old.reporting }
    {
        if self.fault.is_none() {
            self.fault = put_answer(self.out, &mut self.line, number, player, answer).err();
        }
    }

    // Writes the line of a turn, if lines of turns are written.
    fn report_turn(&mut self, turn: &BriefTurn)
        requires shaped { IfSome turn.now.ins Shaped }
        requires low { 1 ≤ turn.now.depth }
        requires high { turn.now.depth ≤ 4 }
        ensures { (outcome : Outcome) (wrote : Option ℕ)
            → WriterKeeps T.Sink self.old (turn_value (full_turn turn.now outcome) wrote ∷ []) self.new }
    {
        match self.reporting {
            Reporting::Results => {}
            Reporting::Turns => self.put_turn(turn),
        }
    }

    // Writes the line of a turn.
    fn put_turn(&mut self, turn: &BriefTurn)
        requires turns { self.old.reporting ≡ reporting.Turns }
        requires shaped { IfSome turn.now.ins Shaped }
        requires low { 1 ≤ turn.now.depth }
        requires high { turn.now.depth ≤ 4 }
        ensures { (outcome : Outcome) (wrote : Option ℕ)
            → WriterKeeps T.Sink self.old (turn_value (full_turn turn.now outcome) wrote ∷ []) self.new }
    {
        if self.fault.is_none() {
            self.fault = put(self.out, line_of_brief(turn).as_slice()).err();
        }
    }
}

impl<'a, T: Sink> Watcher for Writer<'a, T> {
    ghost Seen = { ModelTurn };

    ghost seen = { turn_alone };

    ghost watched = { WriterKeeps T.Sink };

    ghost silent = { keeps_none T.Sink };

    ghost onward = { keeps_on T.Sink };

    fn turn<N: Nvm, L: Ledger>(
        &mut self,
        card: &mut Card<N>,
        into: &mut Outcome,
        steps: &mut Steps<L>,
    ) -> Result<BriefTurn, Stop> {
        let turn = card.brief_turn(into, steps)?;
        self.report_turn(&turn);
        Ok(turn)
    }
}

impl<'a, T: Sink> Runner for Writer<'a, T> {
    ghost reported = { λ c. WriterKeeps T.Sink };

    ghost silent = { λ c. keeps_none T.Sink };

    ghost onward = { λ c d q r s. keeps_on T.Sink q r s [] [] };

    fn run<N: Nvm, L: Ledger>(
        &mut self,
        card: &mut Card<N>,
        bytes: &[u8],
        budget: u32,
        into: &mut Outcome,
        steps: &mut Steps<L>,
    ) -> Result<(), Stop> {
        match self.reporting {
            Reporting::Results => card.command_into(bytes, budget, into, steps),
            Reporting::Turns => run_watched(self, card, bytes, budget, into, steps),
        }
    }
}

impl<'a, T: Sink> Reporter for Writer<'a, T> {
    ghost text = { λ w. text_by (turns_text w.reporting) };

    ghost log = { log_in T.Sink };

    ghost same = { IsSameWriter };

    ghost records = { λ c q r ts h. same_kept T.Sink q r ts h };

    ghost itself = { same_itself };

    ghost after = { same_after };

    ghost texts = { same_texts };

    fn report<N: Bench>(&mut self, number: u32, player: &Player<N>, answer: &Option<Answer>) {
        self.put_result(number, player, answer);
    }

    fn ended(&self) -> Result<(), WriteFault> {
        write_result(self.fault)
    }
}

// The trace of a draft: the line of each turn of a section with its source line, its operand and its stack.
ghost use Rattle.std.specs.Prelude.{◌≡◌, ◌≤◌, ◌+◌, ◌-◌, ◌*◌, ◌++◌, [], ℕ, None, Option, Some, codes, decimal, length, option_map, take, IfSome};
ghost use Rattle.arrayvec.specs.ArrayVec.{array_vec_len};
ghost use Rattle.mc_arith.specs.model_machine.specs.Code.{Shaped};
ghost use Rattle.mc_isa.specs.model_text.specs.TurnText.{turn_line};
ghost use Rattle.mc_deck.specs.model_play.specs.Transcript.{line_text};
ghost use Rattle.mc_machine.specs.declared.outcome.Outcome.{Outcome};
ghost use Rattle.mc_machine.specs.Turns.{full_turn, turn_value};
ghost use Rattle.desk_draft.specs.FullTurns.{FullTurn, last_bytes};
ghost use Rattle.desk_draft.specs.Traces.{bytes_or_dash, trace_text};
ghost use Rattle.desk_draft.specs.Verdicts.{source_line};
ghost use Rattle.mc_text.specs.Texts.{sunk};
ghost use Rattle.mc_script.specs.Players.{answer_value, IsUnfused};
ghost use Rattle.mc_script.specs.Benches.{bench_at, IsPlaying};
ghost use Rattle.mc_script.specs.Plays.{PlaysDeck};
ghost use Rattle.mc_script.specs.Watching.{seen_of, Watches};
ghost use Rattle.mc_script.specs.Writers.{write_result};
ghost use Rattle.desk_cover.specs.Looking.{section_at};
ghost use Rattle.desk_cover.specs.Tracing.{line_pair, line_value, log_of, same_after, same_itself, same_texts, same_traced, state_part_of, traced_none, traced_on, turn_text, Adds, IsSameTracer, Traced};
ghost use Rattle.desk_cover.specs.Watching.{full_turn_of};

use crate::following::{Follower, run_followed};
use crate::known::Known;
use crate::looking::{After, Scene};
use crate::sections::Sections;
use arrayvec::ArrayVec;
use desk_draft::CodeLine;
use mc_card::{BriefTurn, Card};
use mc_deck::Deck;
use mc_machine::Outcome;
use mc_nvm::{Bench, Nvm};
use mc_script::{Answer, Player, Reporter, Runner, Text, gather_result, play_lines, write_result};
use mc_streams::{Sink, WriteFault};
use mc_text::{add, add_decimal, add_hex, put};
use mc_trace::line_of_brief;
use mc_words::{Steps, Stop};
use std::sync::ledger::Ledger;

/// The number of bytes of the stack that are shown.
const SHOWN: usize = 8;

/// Writes the trace of a draft. Once its sink failed it writes no more, and commands are run to their end.
#[derive(Drop)]
struct Tracer<'s, 'o, T: Sink> {
    out: &'o mut T,
    fault: Option<WriteFault>,
    text: Text,
    sections: &'o Sections<'s>,
    scene: Scene,
    after: After,
}

// Adds bytes in hexadecimal, `-` if there are none.
fn add_bytes(text: &mut Text, bytes: &[u8])
    requires room { array_vec_len text.old + 1 ≤ 8211 }
    requires bytes { array_vec_len text.old + 2 * length bytes.now ≤ 8211 }
    ensures text { text.new.items ≡ text.old.items ++ bytes_or_dash bytes.now }
    ensures short { array_vec_len text.new ≤ array_vec_len text.old + 1 + 2 * length bytes.now }
{
    if bytes.is_empty() {
        add(text, b"-");
    } else {
        add_hex(text, bytes);
    }
}

// The last bytes of a stack.
fn top_of(stack: &[u8]) -> &[u8]
    ensures value { result.now ≡ last_bytes 8 stack.now }
    ensures short { length result.now ≤ 8 }
{
    &stack[stack.len().saturating_sub(SHOWN)..]
}

// Gathers what comes before the text of a turn's source line: the line of the turn, and the number of the source line.
fn gather_front(text: &mut Text, turn: &BriefTurn, number: u32)
    requires shaped { IfSome turn.now.ins Shaped }
    requires low { 1 ≤ turn.now.depth }
    requires high { turn.now.depth ≤ 4 }
    ensures { (outcome : Outcome) (wrote : Option ℕ)
        → (let line = turn_line (turn_value (full_turn turn.now outcome) wrote)
        in text.new.items ≡ take (length line - 1) line ++ (codes " ; " ++ decimal number ++ codes " ")) }
{
    let line = line_of_brief(turn);
    text.clear();
    add(text, &line.as_slice()[..line.len().saturating_sub(1)]);
    add(text, b" ; ");
    add_decimal(text, number);
    add(text, b" ");
}

// Gathers what comes after the source line of a turn.
fn gather_state(text: &mut Text, after: &After)
    ensures { text.new.items ≡ state_part_of after.now.operand.items after.now.stack.items ++ codes "\n" }
{
    text.clear();
    add(text, b" ; ");
    add_bytes(text, after.operand.as_slice());
    add(text, b" ");
    add_bytes(text, top_of(after.stack.as_slice()));
    add(text, b"\n");
}

// The line whose code has the byte at a place of the section with an index.
fn line_at<'s>(sections: &Sections<'s>, section: Option<usize>, place: u16) -> Option<CodeLine<'s>>
    ensures { option_map line_value result
        ≡ option_map line_pair (source_line (section_at sections.now section) place) }
{
    match sections.all().get(section?) {
        Some(section) => section.line_at(place),
        None => None,
    }
}

// The code of the section with an index.
fn code_of<'s>(sections: &Sections<'s>, section: Option<usize>) -> Option<&'s [u8]>
    ensures { option_map (λ c. c.now) result ≡ option_map (λ s. s.code) (section_at sections.now section) }
{
    match sections.all().get(section?) {
        Some(section) => Some(section.code()),
        None => None,
    }
}

impl<'s, 'o, T: Sink> Tracer<'s, 'o, T> {
    // A tracer that has written nothing.
    fn new(out: &'o mut T, sections: &'o Sections<'s>) -> Tracer<'s, 'o, T>
        ensures out { result.out.now ≡ out.old }
        ensures same { result.out.ghost_name ≡ out.entry.ghost_name }
        ensures fault { result.fault ≡ None }
        ensures sections { result.sections.now ≡ sections.now }
    {
        Tracer {
            out,
            fault: None,
            text: ArrayVec::new(),
            sections,
            scene: Scene::blank(),
            after: After::blank(),
        }
    }

    // Writes a text, unless the sink failed before. What is shown of a turn stays.
    fn write(&mut self, text: &[u8])
        ensures adds { Adds T.Sink self.old text.now self.new }
        ensures operand { self.new.after.operand.items ≡ self.old.after.operand.items }
        ensures stack { self.new.after.stack.items ≡ self.old.after.stack.items }
    {
        if self.fault.is_none() {
            self.fault = put(self.out, text).err();
        }
    }

    // Writes what was gathered. What is shown of a turn stays.
    fn write_gathered(&mut self)
        ensures adds { Adds T.Sink self.old self.old.text.items self.new }
        ensures operand { self.new.after.operand.items ≡ self.old.after.operand.items }
        ensures stack { self.new.after.stack.items ≡ self.old.after.stack.items }
    {
        if self.fault.is_none() {
            self.fault = put(self.out, self.text.as_slice()).err();
        }
    }

    // Writes the line of a turn with its source line, its operand and its stack.
    fn put_turn(&mut self, turn: &BriefTurn, line: &CodeLine<'s>)
        requires shaped { IfSome turn.now.ins Shaped }
        requires low { 1 ≤ turn.now.depth }
        requires high { turn.now.depth ≤ 4 }
        ensures { (outcome : Outcome) (wrote : Option ℕ)
            → Adds T.Sink self.old (turn_text (turn_value (full_turn turn.now outcome) wrote) (line_value line.now)
            self.old.after.operand.items self.old.after.stack.items) self.new }
    {
        gather_front(&mut self.text, turn, line.number);
        self.write_gathered();
        self.write(line.text);
        gather_state(&mut self.text, &self.after);
        self.write_gathered();
    }

    // Writes the result of a line, if it has one.
    fn put_result<N: Bench>(&mut self, number: u32, player: &Player<N>, answer: &Option<Answer>)
        requires { IsPlaying N.Bench player.now }
        ensures { Adds T.Sink self.old
            (line_text number (option_map (answer_value N.state player.now) answer.now)) self.new }
    {
        if let Some(answer) = answer {
            gather_result(&mut self.text, number, player, answer);
            self.write_gathered();
        }
    }
}

impl<'s, 'o, T: Sink> Follower for Tracer<'s, 'o, T> {
    ghost Seen = { FullTurn };

    ghost seen = { full_turn_of };

    ghost watched = { Traced T.Sink };

    ghost sources = { λ q. q.sections.now };

    ghost silent = { traced_none T.Sink };

    ghost onward = { traced_on T.Sink };

    ghost stays = { λ q r ts h. h.sections };

    fn turn<N: Nvm, L: Ledger>(
        &mut self,
        card: &mut Card<N>,
        known: &Known,
        into: &mut Outcome,
        steps: &mut Steps<L>,
    ) -> Result<BriefTurn, Stop> {
        let section = known.section();
        self.scene
            .take(card, known.name(), code_of(self.sections, section));
        let turn = card.brief_turn(into, steps)?;
        match line_at(self.sections, section, turn.at) {
            Some(line) => {
                self.after.take(card, &self.scene, turn.dt);
                self.put_turn(&turn, &line);
            }
            None => self.write(line_of_brief(&turn).as_slice()),
        }
        Ok(turn)
    }
}

impl<'s, 'o, T: Sink> Runner for Tracer<'s, 'o, T> {
    ghost reported = { Watches full_turn_of (Traced T.Sink) };

    ghost silent = { λ c. traced_none T.Sink };

    ghost onward = { λ c d q r s. traced_on T.Sink q r s [] [] };

    fn run<N: Nvm, L: Ledger>(
        &mut self,
        card: &mut Card<N>,
        bytes: &[u8],
        budget: u32,
        into: &mut Outcome,
        steps: &mut Steps<L>,
    ) -> Result<(), Stop> {
        let sections = self.sections;
        run_followed(self, sections, card, bytes, budget, into, steps)
    }
}

impl<'s, 'o, T: Sink> Reporter for Tracer<'s, 'o, T> {
    ghost text = { λ q. trace_text q.sections.now };

    ghost log = { log_of T.Sink };

    ghost same = { IsSameTracer };

    ghost records = { λ c q r ts h. same_traced T.Sink q r (take (length ts) (seen_of full_turn_of c)) h };

    ghost itself = { same_itself };

    ghost after = { same_after };

    ghost texts = { same_texts };

    fn report<N: Bench>(&mut self, number: u32, player: &Player<N>, answer: &Option<Answer>) {
        self.put_result(number, player, answer);
    }

    fn ended(&self) -> Result<(), WriteFault> {
        write_result(self.fault)
    }
}

/// Plays the deck of a draft on a device and writes its trace: the transcript, with a line before each result for
/// each executed instruction. The line of a turn that runs a section of the draft has its source line, the bytes
/// of its operand and the top of the stack after it.
///
/// The device has no fuse at the start. If the sink fails, the line whose text it was is played whole, and no
/// later line is.
///
/// # Errors
///
/// Returns the fault of the sink.
pub fn trace<N: Bench, T: Sink, L: Ledger>(
    sections: &Sections<'_>,
    deck: &Deck,
    dev: &mut N,
    out: &mut T,
    steps: &mut Steps<L>,
) -> Result<(), WriteFault>
    requires { IsUnfused (N.bench dev.old) }
    // The lines are played in order, up to the first whose text is not wholly written. The words, the power, the calls
    // and the tape of the device are those of the lines, one by one and in sum, and what is written is their trace
    // under the sections of the draft.
    ensures plays { PlaysDeck (trace_text sections.now) deck.now
        (bench_at N.Bench dev.old) (sunk T.Sink out.old) result
        (bench_at N.Bench dev.new) (sunk T.Sink out.new) }
{
    let mut tracer = Tracer::new(&mut *out, sections);
    let _dev = play_lines(deck, &mut *dev, &mut tracer, steps);
    tracer.ended()
}

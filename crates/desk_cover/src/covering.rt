// How often each line of a draft's code ran, and each of its branches went each way.
ghost use Rattle.std.specs.Prelude.{◌≡◌, ◌++◌, [], map, IfErr, IfOk};
ghost use Rattle.std.specs.List.{AllByRecursion};
ghost use Rattle.mc_words.specs.model_device.specs.Device.{IsImage};
ghost use Rattle.mc_arith.specs.model_machine.specs.Code.{front};
ghost use Rattle.mc_deck.specs.model_play.specs.Play.{start};
ghost use Rattle.mc_deck.specs.model_play.specs.ReadyAgain.{IsLine};
ghost use Rattle.desk_draft.specs.Coverage.{condition_decoded, condition_in, condition_of, line_condition};
ghost use Rattle.desk_draft.specs.FullTurns.{FullTurn};
ghost use Rattle.desk_draft.specs.Sources.{code_line_value};
ghost use Rattle.mc_text.specs.Texts.{sunk};
ghost use Rattle.mc_script.specs.Players.{IsUnfused};
ghost use Rattle.mc_script.specs.Benches.{bench_at};
ghost use Rattle.mc_script.specs.Watching.{Watches};
ghost use Rattle.mc_script.specs.declared.job.JobFault.TheVariants as fault;
ghost use Rattle.desk_cover.specs.Watching.{full_turn_of};
ghost use Rattle.desk_cover.specs.Plays.{CountsPlay, CoversBy};
ghost use Rattle.desk_cover.specs.Counting.{Counted, counted_none, counted_on, holds_by, line_by, line_risen, lines_by, new_line, new_lines, risen, took_by};

use crate::following::{Follower, run_followed};
use crate::known::Known;
use crate::lcov::{LineCount, put_record};
use crate::sections::{Section, Sections, bytes_of};
use desk_draft::CodeLine;
use mc_arith::Flags;
use mc_card::{BriefTurn, Card};
use mc_deck::Deck;
use mc_isa::{Ins, decode};
use mc_machine::Outcome;
use mc_nvm::{Bench, Nvm};
use mc_script::{JobFault, Player, Runner};
use mc_streams::{Sink, WriteFault};
use mc_words::{Steps, Stop};
use std::alloc::{AllocError, Global};
use std::sync::ledger::Ledger;

// The condition of a number, `None` for one that always holds or has its target on the stack.
fn condition_in(number: u8) -> Option<u8>
    ensures { result ≡ condition_in number }
{
    if number >= 1 && number <= 6 {
        Some(number)
    } else {
        None
    }
}

// The condition of an instruction that goes elsewhere if it holds, `None` for one that always does.
fn condition_of(ins: &Ins) -> Option<u8>
    ensures { result ≡ condition_of ins.now }
{
    match *ins {
        Ins::Branch { cond, .. } => condition_in(cond),
        Ins::Jump { cond, .. } => condition_in(cond),
        Ins::Call { cond, .. } => condition_in(cond),
        _ => None,
    }
}

/// The most bytes of an instruction.
const MOST_INSTRUCTION: usize = 6;

// The condition of the instruction at the front of the bytes of a line.
#[tactic(auto, using(crate::proofs::FrontLemmas::condition_front))]
fn condition_at_front(bytes: &[u8]) -> Option<u8>
    ensures { result ≡ condition_decoded (front bytes.now) }
{
    match decode(&bytes[..bytes.len().min(MOST_INSTRUCTION)], 0) {
        Ok((ins, _end)) => condition_of(&ins),
        Err(_) => None,
    }
}

// The condition of a line of a section with this code.
fn line_condition(code: &[u8], line: &CodeLine<'_>) -> Option<u8>
    ensures { result ≡ line_condition (code_line_value code.now line.now) }
{
    condition_at_front(bytes_of(code, line))
}

// Whether a condition from 1 to 6 holds: EQ, LT, LE, GT, GE, NE.
fn holds(condition: u8, flags: &Flags) -> bool
    ensures { result ≡ holds_by condition flags.now.c flags.now.z }
{
    match condition {
        1 => flags.z,
        2 => flags.c,
        3 => flags.c || flags.z,
        4 => !(flags.c || flags.z),
        5 => !flags.c,
        6 => !flags.z,
        _ => true,
    }
}

// Whether the condition of a line, if it has one, holds.
fn took(condition: Option<u8>, flags: &Flags) -> bool
    ensures { result ≡ took_by condition flags.now.c flags.now.z }
{
    match condition {
        Some(condition) => holds(condition, flags),
        None => false,
    }
}

// A count that rises by one unless it is at its end.
fn risen(count: u64) -> u64
    ensures { result ≡ risen count }
{
    count.saturating_add(1)
}

// A line that ran once more.
fn line_risen(line: &LineCount, flags: &Flags) -> LineCount
    ensures { result ≡ line_risen flags.now.c flags.now.z line.now }
{
    let taken = if took(line.condition, flags) {
        risen(line.taken)
    } else {
        line.taken
    };
    LineCount {
        turns: risen(line.turns),
        taken,
        ..*line
    }
}

// Counts a turn at a place of a section for a line.
fn count_at(line: &mut LineCount, section: usize, at: u16, flags: &Flags)
    ensures { line.new ≡ line_by section at flags.now.c flags.now.z line.old }
{
    if line.section == section && at == line.place {
        *line = line_risen(line, flags);
    }
}

// Counts a turn at a place of a section.
fn count(lines: &mut [LineCount], section: usize, at: u16, flags: &Flags)
    ensures { lines.new ≡ map (line_by section at flags.now.c flags.now.z) lines.old }
{
    for i in 0..lines.len() {
        count_at(&mut lines[i], section, at, flags);
    }
}

// A line of the section with an index, which never ran.
fn new_line(index: usize, code: &[u8], line: &CodeLine<'_>) -> LineCount
    ensures { result ≡ new_line index (code_line_value code.now line.now) }
{
    LineCount {
        number: line.number,
        section: index,
        place: line.place,
        condition: line_condition(code, line),
        turns: 0,
        taken: 0,
    }
}

// Adds the lines of the section with an index, which never ran.
fn push_lines(
    lines: &mut Vec<LineCount>,
    index: usize,
    section: &Section<'_>,
) -> Result<(), AllocError>
    ensures { IfOk result (λ u. lines.new.items ≡ lines.old.items ++ map (new_line index) section.now.lines) }
{
    let code = section.code();
    for line in section.lines() {
        lines.push(new_line(index, code, line))?;
    }
    Ok(())
}

// The lines of sections, which never ran.
fn new_lines(alloc: Global, sections: &[Section<'_>]) -> Result<Vec<LineCount>, AllocError>
    ensures { IfOk result (λ lines. lines.items ≡ new_lines 0 sections.now) }
{
    let mut lines = Vec::new(alloc);
    for i in 0..sections.len() {
        push_lines(&mut lines, i, &sections[i])?;
    }
    Ok(lines)
}

/// Counts the turns of the sections of a draft.
#[derive(Drop)]
struct Counter<'s, 'o> {
    sections: &'o Sections<'s>,
    lines: Vec<LineCount>,
}

impl<'s, 'o> Counter<'s, 'o> {
    // Counts a turn that runs the section with an index, if it runs one.
    fn count(&mut self, section: Option<usize>, turn: &BriefTurn)
        ensures sections { self.new.sections.now ≡ self.old.sections.now }
        ensures lines { self.new.lines.items ≡ lines_by section turn.now self.old.lines.items }
    {
        if let Some(i) = section {
            if turn.ins.is_some() {
                count(self.lines.as_mut_slice(), i, turn.at, &turn.flags);
            }
        }
    }
}

impl<'s, 'o> Follower for Counter<'s, 'o> {
    ghost Seen = { FullTurn };

    ghost seen = { full_turn_of };

    ghost watched = { Counted };

    ghost sources = { λ q. q.sections.now };

    ghost silent = { counted_none };

    ghost onward = { counted_on };

    ghost stays = { λ q r ts h. h.sections };

    fn turn<N: Nvm, L: Ledger>(
        &mut self,
        card: &mut Card<N>,
        known: &Known,
        into: &mut Outcome,
        steps: &mut Steps<L>,
    ) -> Result<BriefTurn, Stop> {
        let turn = card.brief_turn(into, steps)?;
        self.count(known.section(), &turn);
        Ok(turn)
    }
}

impl<'s, 'o> Runner for Counter<'s, 'o> {
    ghost reported = { Watches full_turn_of Counted };

    ghost silent = { λ c. counted_none };

    ghost onward = { λ c d q r s. counted_on q r s [] [] };

    fn run<N: Nvm, L: Ledger>(
        &mut self,
        card: &mut Card<N>,
        bytes: &[u8],
        budget: u32,
        into: &mut Outcome,
        steps: &mut Steps<L>,
    ) -> Result<(), Stop> {
        let sections = self.sections;
        run_followed(self, sections, card, bytes, budget, into, steps)
    }
}

// Plays a deck on a device before a counter.
fn count_lines<N: Bench, L: Ledger>(
    deck: &Deck,
    device: N,
    counter: &mut Counter<'_, '_>,
    steps: &mut Steps<L>,
) -> N
    requires { IsUnfused (N.bench device) }
    ensures counts { CountsPlay (start (N.state device).words) deck.now
        (bench_at N.Bench device)
        (bench_at N.Bench result) counter.old counter.new }
    ensures image { IsImage (N.state device).words }
    ensures lines { AllByRecursion (λ l. IsLine l.1) deck.now }
    ensures keeps_device { N.same device result }
{
    let _words = device.len();
    let _lines = deck.len();
    let mut player = Player::new(device);
    for i in 0..deck.len() {
        let (_number, line) = deck.line(i);
        let _answer = player.line(&line, counter, steps);
    }
    player.into_dev()
}

/// Plays the deck of a draft on a device, and writes as an LCOV record for the file `name` how often each line of
/// its code ran, and each branch of it went each way.
///
/// The device has no fuse at the start. All lines are played before the first byte is written.
///
/// # Errors
///
/// Returns `NoMemory` if out of memory, before the first line is played, or the fault of the sink.
pub fn cover<N: Bench, T: Sink, L: Ledger>(
    alloc: Global,
    name: &[u8],
    sections: &Sections<'_>,
    deck: &Deck,
    dev: &mut N,
    out: &mut T,
    steps: &mut Steps<L>,
) -> Result<(), JobFault>
    requires { IsUnfused (N.bench dev.old) }
    // All lines of the deck are played in order, and what is written is the record of the play under the sections of
    // the draft. Out of memory, nothing is played.
    ensures covers { CoversBy name.now sections.now deck.now
        (bench_at N.Bench dev.old) (sunk T.Sink out.old) result
        (bench_at N.Bench dev.new) (sunk T.Sink out.new) }
    ensures unplayed { IfErr result (λ e. e ≡ fault.NoMemory → dev.new ≡ dev.old) }
{
    let Ok(lines) = new_lines(alloc, sections.all()) else {
        return Err(JobFault::NoMemory);
    };
    let mut counter = Counter { sections, lines };
    let _dev = count_lines(deck, &mut *dev, &mut counter, steps);
    match put_record(out, name, counter.lines.as_slice()) {
        Ok(()) => Ok(()),
        Err(WriteFault) => Err(JobFault::WriteFault),
    }
}

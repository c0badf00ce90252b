// Sweeps of a deck.
ghost use Rattle.std.specs.Prelude.{◌≡◌, ℕ, ◌+◌, ◌≤◌, ◌<◌, ◌&&◌, Bool, [], ◌∷◌, length, not, take, true, false};
ghost use Rattle.std.specs.Prelude.{IfNone, IfOk, IfSome, MatchOption, OnOk};
ghost use Rattle.law_explore.specs.model_play.specs.Play.{armed_stop_in, is_card_line};
ghost use Rattle.mc_deck.specs.Lines.{line_of};
ghost use Rattle.mc_text.specs.Texts.{sunk, Puts};
ghost use Rattle.mc_lab.specs.Judged.{done_of};
ghost use Rattle.mc_lab.specs.Remarked.{remark_values};
ghost use Rattle.mc_lab.specs.Sweeps.{are_fine, is_whole, is_unarmed, marks_after, rows_text, rows_to, state_on_blank, sweep_text, Swept};
ghost use Rattle.mc_lab.specs.SweepFronts.{HasPlayed};
ghost use Rattle.mc_lab.specs.SweepBodies.{front_of, line_at, writes_in, AccountsHaveRoom, IsUnarmedLine, IsPlace};
ghost use Rattle.mc_lab.specs.SweepEnds.{free_behind, is_open_at, sweeps_from, sweeps_at, pending_value, AddsFine, AddsSums, AtMost, IsLineOf, IsRoom};
ghost use Rattle.mc_lab.specs.SweepEnds.{HasTooMany, IsSmall, ReportsSweep};

use crate::remark::Remark;
use crate::sweep_line::LineSweeper;
use crate::sweep_marks::{Pending, is_broken, put_above};
use crate::sweep_names::names_of;
use crate::sweep_play::Laboratory;
use crate::sweep_text::{Sums, put_sums, put_swept};
use crate::sweep_trial::{Place, Trials};
use crate::sweep_word::SweepWord;
use crate::truth::both;
use mc_deck::{Deck, Line};
use mc_script::JobFault;
use mc_streams::{Sink, WriteFault};
use mc_words::{Aid, NoMemory, Steps};
use std::alloc::Global;
use std::sync::ledger::Ledger;

/// The room of a sweep: the names of the deck, the device and the observed states, and the words of the
/// writes of one line.
#[derive(Drop)]
struct Room {
    names: Vec<Aid>,
    sweeper: LineSweeper<Laboratory>,
    words: Vec<SweepWord>,
}

// Whether a line is one to the card.
fn is_card_line(line: &Line<'_>) -> bool
    ensures { result ≡ is_card_line (line_of line.now) }
{
    match line {
        Line::Power => true,
        Line::Load { .. } => true,
        Line::Select(_) => true,
        Line::Delete(_) => true,
        Line::Apdu(_) => true,
        _ => false,
    }
}

// Whether no stop is armed after a line, or `None` if that is as before it.
fn free_behind(line: &Line<'_>) -> Option<bool>
    ensures { MatchOption result ((b : Bool) → free_behind (line_of line.now) b ≡ b)
        (λ free. (b : Bool) → free_behind (line_of line.now) b ≡ free) }
{
    match line {
        Line::Cut { .. } => Some(false),
        Line::Fail(_) => Some(false),
        Line::Power => Some(true),
        Line::Load { .. } => Some(true),
        Line::Select(_) => Some(true),
        Line::Delete(_) => Some(true),
        Line::Apdu(_) => Some(true),
        _ => None,
    }
}

// Whether no stop is armed after the first `at` lines of a deck: the last of them that is one to the card, or that arms
// a stop, says so.
fn is_free(deck: &Deck, at: usize) -> bool
    requires { at ≤ length deck.now }
    ensures { result ≡ is_unarmed (armed_stop_in (state_on_blank (take at deck.now))) }
{
    let mut left = at;
    while left > 0 {
        let (_number, line) = deck.line(left - 1);
        if let Some(free) = free_behind(&line) {
            return free;
        }
        left -= 1;
    }
    true
}

// The number of the line, if it may be swept: a line to the card for which no stop is armed.
fn open_number(deck: &Deck, at: usize) -> Option<u32>
    requires { at < length deck.now }
    ensures { MatchOption result (is_open_at deck.now at ≡ false)
        (λ n. (is_open_at deck.now at ≡ true) × (n ≡ (line_at deck.now at).0)) }
{
    let (number, line) = deck.line(at);
    if !is_card_line(&line) {
        return None;
    }
    if !is_free(deck, at) {
        return None;
    }
    Some(number)
}

// `most`, or a greater number that the device writes of a line do not exceed, if it may be swept and makes more.
// `None` if they are 4,294,967,295 or more.
fn bound_at<D: Trials + Drop, L: Ledger>(
    sweeper: &mut LineSweeper<D>,
    place: &Place<'_>,
    most: u32,
    steps: &mut Steps<L>,
) -> Option<u32>
    requires at { IsPlace place.now }
    requires played { D.has_played sweeper.old.trials (front_of place.now) }
    requires small { most < 4294967295 }
    requires room { AccountsHaveRoom sweeper.old.ends sweeper.old.pair (length place.now.names.now) }
    ensures writes { IfSome result (λ n. is_open_at place.now.deck.now place.now.at ≡ true → writes_in place.now ≤ n) }
    ensures many { IfNone result (HasTooMany place.now.deck.now place.now.at) }
    ensures grows { IfSome result (λ n. most ≤ n) }
    ensures small { IfSome result (λ n. n < 4294967295) }
    ensures room { AccountsHaveRoom sweeper.new.ends sweeper.new.pair (length place.now.names.now) }
    ensures played { D.has_played sweeper.new.trials (front_of place.now) }
{
    match open_number(place.deck, place.at) {
        None => Some(most),
        Some(_) => sweeper.bound(place, most, steps),
    }
}

// A number that the device writes of no line that may be swept exceed, or `None` if a line makes 4,294,967,295 or
// more.
fn most_writes<D: Trials + Drop, L: Ledger>(
    sweeper: &mut LineSweeper<D>,
    deck: &Deck,
    names: &[Aid],
    steps: &mut Steps<L>,
) -> Option<u32>
    requires room { AccountsHaveRoom sweeper.old.ends sweeper.old.pair (length names.now) }
    requires played { D.has_played sweeper.old.trials [] }
    ensures most { IfSome result (λ n. AtMost deck.now (length deck.now) n) }
    ensures many { IfNone result ((at : ℕ) × (at < length deck.now) × HasTooMany deck.now at) }
{
    let mut most = 0;
    for at in 0..deck.len() {
        let place = Place { deck, at, names };
        let bound = bound_at(sweeper, &place, most, steps)?;
        most = bound;
        sweeper.advance(&place, steps);
    }
    Some(most)
}

// Writes the lines of the marks above a swept line and its own, and returns whether all of them are as the marks want
// it.
fn report_place<T: Sink>(
    out: &mut T,
    number: u32,
    words: &[SweepWord],
    broken: bool,
    marks: &[Remark<'_>],
    pending: &mut Pending,
) -> Result<bool, WriteFault>
    requires { length words.now ≤ 4294967295 }
    ensures reported { (s : Swept) → IsLineOf (remark_values marks.now) s number words.now broken
        → Puts (sunk T.Sink out.old) (rows_text (remark_values marks.now)
        (rows_to (pending_value (remark_values marks.now) pending.old) (s ∷ []))) (done_of result)
        (sunk T.Sink out.new) }
    ensures fine { IfOk result (λ b. (s : Swept) → IsLineOf (remark_values marks.now) s number words.now broken
        → b ≡ are_fine (remark_values marks.now)
        (rows_to (pending_value (remark_values marks.now) pending.old) (s ∷ []))) }
    ensures left { OnOk result ((s : Swept) → s.number ≡ number
        → pending_value (remark_values marks.now) pending.new
        ≡ marks_after (pending_value (remark_values marks.now) pending.old) (s ∷ [])) }
{
    let passed = put_above(out, Some(number), pending.last, marks, pending.next)?;
    put_swept(out, number, words, broken)?;
    pending.next = passed.next;
    pending.last = Some(number);
    Ok(is_fine(passed.whole, broken))
}

// Whether a swept line and the marks above it are as the marks want it.
fn is_fine(whole: bool, broken: bool) -> bool
    ensures { result ≡ (whole && not broken) }
{
    whole && !broken
}

// Sweeps a line, and writes its text and that of the marks above it, if it makes a device write.
fn sweep_place<D: Trials + Drop, T: Sink, L: Ledger>(
    sweeper: &mut LineSweeper<D>,
    place: &Place<'_>,
    number: u32,
    marks: &[Remark<'_>],
    pending: &mut Pending,
    words: &mut [SweepWord],
    out: &mut T,
    sums: &mut Sums,
    steps: &mut Steps<L>,
) -> Result<(), WriteFault>
    requires at { IsPlace place.now }
    requires played { D.has_played sweeper.old.trials (front_of place.now) }
    requires open { IsUnarmedLine place.now }
    requires number { number ≡ (line_at place.now.deck.now place.now.at).0 }
    requires words { writes_in place.now ≤ length words.old }
    requires most { length words.old ≤ 4294967295 }
    requires sums { IsSmall sums.old place.now.at }
    requires room { AccountsHaveRoom sweeper.old.ends sweeper.old.pair (length place.now.names.now) }
    ensures reported { Puts (sunk T.Sink out.old)
        (rows_text (remark_values marks.now)
        (rows_to (pending_value (remark_values marks.now) pending.old) (sweeps_at place.now)))
        result (sunk T.Sink out.new) }
    ensures adds { OnOk result (AddsSums sums.old (sweeps_at place.now) sums.new) }
    ensures fine { OnOk result (AddsFine (remark_values marks.now) sums.old.whole
        (rows_to (pending_value (remark_values marks.now) pending.old) (sweeps_at place.now)) sums.new.whole) }
    ensures left { OnOk result (pending_value (remark_values marks.now) pending.new
        ≡ marks_after (pending_value (remark_values marks.now) pending.old) (sweeps_at place.now)) }
    ensures small { OnOk result (IsSmall sums.new (place.now.at + 1)) }
    ensures size { length words.new ≡ length words.old }
    ensures room { AccountsHaveRoom sweeper.new.ends sweeper.new.pair (length place.now.names.now) }
    ensures played { D.has_played sweeper.new.trials (front_of place.now) }
{
    let swept = sweeper.sweep_line(place, words, steps);
    if swept.writes == 0 {
        return Ok(());
    }
    let made = &words[..swept.writes];
    let broken = is_broken(marks, number, made);
    let fine = report_place(out, number, made, broken, marks, pending)?;
    sums.lines += 1;
    sums.writes += swept.writes as u128;
    sums.plays += swept.plays as u128;
    sums.whole = both(sums.whole, fine);
    Ok(())
}

// Sweeps the line at a place, if it may be swept.
fn sweep_at<D: Trials + Drop, T: Sink, L: Ledger>(
    sweeper: &mut LineSweeper<D>,
    place: &Place<'_>,
    marks: &[Remark<'_>],
    pending: &mut Pending,
    words: &mut [SweepWord],
    out: &mut T,
    sums: &mut Sums,
    steps: &mut Steps<L>,
) -> Result<(), WriteFault>
    requires at { IsPlace place.now }
    requires played { D.has_played sweeper.old.trials (front_of place.now) }
    requires words { AtMost place.now.deck.now (length place.now.deck.now) (length words.old) }
    requires most { length words.old ≤ 4294967295 }
    requires sums { IsSmall sums.old place.now.at }
    requires room { AccountsHaveRoom sweeper.old.ends sweeper.old.pair (length place.now.names.now) }
    ensures reported { Puts (sunk T.Sink out.old)
        (rows_text (remark_values marks.now)
        (rows_to (pending_value (remark_values marks.now) pending.old) (sweeps_at place.now)))
        result (sunk T.Sink out.new) }
    ensures adds { OnOk result (AddsSums sums.old (sweeps_at place.now) sums.new) }
    ensures fine { OnOk result (AddsFine (remark_values marks.now) sums.old.whole
        (rows_to (pending_value (remark_values marks.now) pending.old) (sweeps_at place.now)) sums.new.whole) }
    ensures left { OnOk result (pending_value (remark_values marks.now) pending.new
        ≡ marks_after (pending_value (remark_values marks.now) pending.old) (sweeps_at place.now)) }
    ensures small { OnOk result (IsSmall sums.new (place.now.at + 1)) }
    ensures size { length words.new ≡ length words.old }
    ensures room { AccountsHaveRoom sweeper.new.ends sweeper.new.pair (length place.now.names.now) }
    ensures played { D.has_played sweeper.new.trials (front_of place.now) }
{
    match open_number(place.deck, place.at) {
        None => Ok(()),
        Some(number) => sweep_place(
            sweeper, place, number, marks, pending, words, out, sums, steps,
        ),
    }
}

// Sums of no lines.
fn no_sums() -> Sums
    ensures small { IsSmall result 0 }
    ensures lines { result.lines ≡ 0 }
    ensures writes { result.writes ≡ 0 }
    ensures plays { result.plays ≡ 0 }
    ensures whole { result.whole ≡ true }
{
    Sums {
        lines: 0,
        writes: 0,
        plays: 0,
        whole: true,
    }
}

// Sweeps the lines of a deck, and writes the text of each when it is done.
fn sweep_lines<D: Trials + Drop, T: Sink, L: Ledger>(
    sweeper: &mut LineSweeper<D>,
    deck: &Deck,
    names: &[Aid],
    marks: &[Remark<'_>],
    pending: &mut Pending,
    words: &mut [SweepWord],
    out: &mut T,
    sums: &mut Sums,
    steps: &mut Steps<L>,
) -> Result<(), WriteFault>
    requires words { AtMost deck.now (length deck.now) (length words.old) }
    requires most { length words.old ≤ 4294967295 }
    requires sums { IsSmall sums.old 0 }
    requires room { AccountsHaveRoom sweeper.old.ends sweeper.old.pair (length names.now) }
    requires played { D.has_played sweeper.old.trials [] }
    ensures reported { Puts (sunk T.Sink out.old)
        (rows_text (remark_values marks.now)
        (rows_to (pending_value (remark_values marks.now) pending.old) (sweeps_from names.now deck.now 0))) result
        (sunk T.Sink out.new) }
    ensures adds { OnOk result (AddsSums sums.old (sweeps_from names.now deck.now 0) sums.new) }
    ensures fine { OnOk result (AddsFine (remark_values marks.now) sums.old.whole
        (rows_to (pending_value (remark_values marks.now) pending.old) (sweeps_from names.now deck.now 0))
        sums.new.whole) }
    ensures left { OnOk result (pending_value (remark_values marks.now) pending.new
        ≡ marks_after (pending_value (remark_values marks.now) pending.old) (sweeps_from names.now deck.now 0)) }
{
    for at in 0..deck.len() {
        let place = Place { deck, at, names };
        sweep_at(sweeper, &place, marks, pending, words, out, sums, steps)?;
        sweeper.advance(&place, steps);
    }
    Ok(())
}

// Allocates a device of which no line was played, and room for the observed states of this number of names.
fn new_sweeper(alloc: Global, names: usize) -> Result<LineSweeper<Laboratory>, NoMemory>
    ensures room { IfOk result (λ sweeper. AccountsHaveRoom sweeper.ends sweeper.pair names) }
    ensures played { IfOk result (λ sweeper. HasPlayed sweeper.trials []) }
{
    let trials = Laboratory::new(alloc)?;
    LineSweeper::new(alloc, trials, names)
}

// Measures the writes of the lines of a deck on a device of its own: a number that they exceed in no line that may be
// swept. It is out of memory, too, if a line makes 4,294,967,295 or more.
fn measure<L: Ledger>(
    alloc: Global,
    deck: &Deck,
    names: &[Aid],
    steps: &mut Steps<L>,
) -> Result<u32, NoMemory>
    ensures most { IfOk result (λ n. AtMost deck.now (length deck.now) n) }
{
    let mut sweeper = new_sweeper(alloc, names.len())?;
    match most_writes(&mut sweeper, deck, names, steps) {
        Some(most) => Ok(most),
        None => Err(NoMemory),
    }
}

// Allocates room for the words of this number of writes.
fn new_words(alloc: Global, count: u32) -> Result<Vec<SweepWord>, NoMemory>
    ensures { IfOk result (λ words. length words.items ≡ count) }
{
    Ok(vec![in alloc; SweepWord::Same; count as usize]?)
}

// Allocates the room for a sweep of a deck.
fn room_for<L: Ledger>(alloc: Global, deck: &Deck, steps: &mut Steps<L>) -> Result<Room, NoMemory>
    ensures room { IfOk result (λ room. IsRoom deck.now room.names.items room.sweeper.ends room.sweeper.pair
        (length room.words.items)) }
    ensures played { IfOk result (λ room. HasPlayed room.sweeper.trials []) }
{
    let names = names_of(alloc, deck)?;
    let most = measure(alloc, deck, names.as_slice(), steps)?;
    let words = new_words(alloc, most)?;
    let sweeper = new_sweeper(alloc, names.len())?;
    Ok(Room {
        names,
        sweeper,
        words,
    })
}

// Sweeps a deck for which there is room, and writes its text. Returns whether each line that must be whole is, and each
// mark is of a swept line.
fn sweep_in<T: Sink, L: Ledger>(
    room: &mut Room,
    deck: &Deck,
    marks: &[Remark<'_>],
    out: &mut T,
    steps: &mut Steps<L>,
) -> Result<bool, WriteFault>
    requires room { IsRoom deck.now room.old.names.items room.old.sweeper.ends room.old.sweeper.pair
        (length room.old.words.items) }
    requires played { HasPlayed room.old.sweeper.trials [] }
    ensures reported { Puts (sunk T.Sink out.old) (sweep_text (remark_values marks.now) deck.now)
        (done_of result) (sunk T.Sink out.new) }
    ensures whole { IfOk result (λ whole. whole ≡ is_whole (remark_values marks.now) deck.now) }
{
    let mut sums = no_sums();
    let mut pending = Pending {
        next: 0,
        last: None,
    };
    sweep_lines(
        &mut room.sweeper,
        deck,
        room.names.as_slice(),
        marks,
        &mut pending,
        room.words.as_mut_slice(),
        out,
        &mut sums,
        steps,
    )?;
    let rest = put_above(out, None, pending.last, marks, pending.next)?;
    put_sums(out, &sums)?;
    Ok(both(sums.whole, rest.whole))
}

/// Cuts power in each device write of each line of a deck for which the deck arms no stop, and in each write
/// of the recovery after it, with eight bytes 00 and with eight bytes FF, and writes the observed state of
/// the card: a line of text for each swept line, when it is done, and a last one with their sums. A line that is
/// the statement of one of the marks must be whole: if one of its words is `between`, its text says so. A mark that is of
/// no swept line has a line of text of its own. The marks are in the order of their lines. Returns whether each line
/// that must be whole is, and each mark is of a swept line.
///
/// Its plays run on a device of 8,192 words. The deck is played twice, line by line: once to measure the room, once to
/// sweep; each trial goes on from the card before its line. All memory that the sweep needs is allocated before the first
/// byte is written, as measured by one play of each line that may be swept and one more each time that the room is
/// doubled; for a line of more than 4,294,967,294 device writes the sweep is out of memory. If there is none to keep the
/// card after a line, the next trials play more lines.
///
/// # Errors
///
/// Returns `NoMemory` if it is out of memory, and nothing was written then, or `WriteFault` if the sink
/// fails; the first bytes of the text were written then.
pub fn sweep<T: Sink, L: Ledger>(
    alloc: Global,
    deck: &Deck,
    marks: &[Remark<'_>],
    out: &mut T,
    steps: &mut Steps<L>,
) -> Result<bool, JobFault>
    ensures reported { ReportsSweep (sunk T.Sink out.old)
        (sweep_text (remark_values marks.now) deck.now) result
        (sunk T.Sink out.new) }
    ensures whole { IfOk result (λ whole. whole ≡ is_whole (remark_values marks.now) deck.now) }
{
    let mut room = room_for(alloc, deck, steps)?;
    Ok(sweep_in(&mut room, deck, marks, out, steps)?)
}

// Lines of a sweep that must be whole, and marks that are of no swept line.
ghost use Rattle.std.specs.Prelude.{◌≡◌, ◌&&◌, [], drop, IfOk};
ghost use Rattle.mc_text.specs.Texts.{sunk, Puts};
ghost use Rattle.mc_lab.specs.Judged.{done_of};
ghost use Rattle.mc_lab.specs.Sweeps.{are_fine, is_above, is_guarded, left_behind, rows_above, rows_text, row_unless};
ghost use Rattle.mc_lab.specs.Remarked.{remark_value};
ghost use Rattle.mc_lab.specs.Sweeps.{has_between, has_mark, is_between, is_broken_at};
ghost use Rattle.mc_lab.specs.Remarked.{remark_values};

use crate::remark::Remark;
use crate::sweep_text::put_mark;
use crate::sweep_word::SweepWord;
use crate::truth::both;
use mc_streams::{Sink, WriteFault};

// Whether a remark is about the line with a number.
fn has_mark(marks: &[Remark<'_>], number: u32) -> bool
    ensures { result ≡ has_mark number (remark_values marks.now) }
{
    for mark in marks {
        if mark.above.number == number {
            return true;
        }
    }
    false
}

// Whether a word is `between`.
fn is_between(word: SweepWord) -> bool
    ensures { result ≡ is_between word }
{
    matches!(word, SweepWord::Between)
}

// Whether one of the words is `between`.
fn has_between(words: &[SweepWord]) -> bool
    ensures { result ≡ has_between words.now }
{
    for word in words {
        if is_between(*word) {
            return true;
        }
    }
    false
}

/// Returns whether a line must be whole, by the marks of a deck, and one of its words is `between`.
pub fn is_broken(marks: &[Remark<'_>], number: u32, words: &[SweepWord]) -> bool
    ensures { result ≡ is_broken_at (remark_values marks.now) number words.now }
{
    has_mark(marks, number) && has_between(words)
}

/// The marks that are left of a deck, from a place on, and the number of the last swept line above them.
#[derive(Clone, Copy)]
pub struct Pending {
    pub next: usize,
    pub last: Option<u32>,
}

/// The place of the first mark after a line, and whether those above it are all of swept lines.
#[derive(Clone, Copy)]
pub struct Passed {
    pub next: usize,
    pub whole: bool,
}

// Whether a mark is of a swept line, by the last of them above it.
fn is_guarded(last: Option<u32>, mark: &Remark<'_>) -> bool
    ensures { result ≡ is_guarded last (remark_value mark.now) }
{
    match last {
        None => false,
        Some(number) => mark.above.number == number,
    }
}

// Whether a mark is above a line, or the end of a deck.
fn is_above(number: Option<u32>, mark: &Remark<'_>) -> bool
    ensures { result ≡ is_above number (remark_value mark.now) }
{
    match number {
        None => true,
        Some(number) => mark.number < number,
    }
}

// Writes the line of a mark, unless it is of a swept line.
fn put_unless<T: Sink>(out: &mut T, guarded: bool, number: u32) -> Result<(), WriteFault>
    ensures { Puts (sunk T.Sink out.old) (rows_text [] (row_unless guarded number [])) result
        (sunk T.Sink out.new) }
{
    if guarded {
        return Ok(());
    }
    put_mark(out, number)
}

/// Writes the lines of the marks from a place on that are above a line, or the end of a deck, and of no swept line, by
/// the last swept line above them.
///
/// # Errors
///
/// Returns `WriteFault` if the sink fails.
pub fn put_above<T: Sink>(
    out: &mut T,
    number: Option<u32>,
    last: Option<u32>,
    marks: &[Remark<'_>],
    from: usize,
) -> Result<Passed, WriteFault>
    ensures reported { Puts (sunk T.Sink out.old)
        (rows_text [] (rows_above number last (drop from (remark_values marks.now)))) (done_of result)
        (sunk T.Sink out.new) }
    ensures left { IfOk result (λ p. drop p.next (remark_values marks.now)
        ≡ left_behind number (drop from (remark_values marks.now))) }
    ensures whole { IfOk result (λ p. p.whole
        ≡ are_fine [] (rows_above number last (drop from (remark_values marks.now)))) }
{
    let mut next = from;
    let mut whole = true;
    while next < marks.len() {
        let mark = &marks[next];
        if !is_above(number, mark) {
            return Ok(Passed { next, whole });
        }
        let guarded = is_guarded(last, mark);
        put_unless(out, guarded, mark.number)?;
        whole = both(whole, guarded);
        next += 1;
    }
    Ok(Passed { next, whole })
}

// The text of an exploration.
ghost use Rattle.std.specs.Prelude.{◌≡◌, ◌++◌, codes, decimal, slice_index_or, true};
ghost use Rattle.law_explore_text.specs.model_text.specs.Listing.{hex_text};
ghost use Rattle.law_explore_text.specs.Report.{sums_text};
ghost use Rattle.mc_text.specs.Texts.{sunk, Puts};
ghost use Rattle.lab_search.specs.Tallies.{silent_from, silent_if, silent_line};
ghost use Rattle.lab_search.specs.Reports.{broken_line, count_of_lines, cut_line, depth_line, how_text, move_lines, statement_line};

use crate::journey::Manner;
use arrayvec::ArrayVec;
use itoa::Buffer;
use lab_rules::OnRule;
use mc_streams::{Sink, WriteFault};
use mc_text::{add_hex, put};

// Writes a number in decimal.
fn put_count<T: Sink>(out: &mut T, number: u64) -> Result<(), WriteFault>
    ensures { Puts (sunk T.Sink out.old) (decimal number) result (sunk T.Sink out.new) }
{
    let mut buffer = Buffer::new();
    put(out, buffer.format(number).as_bytes())
}

/// Writes the line of a depth: its number, and the number of its new states.
///
/// # Errors
///
/// Returns `WriteFault` if the sink fails.
pub fn put_depth<T: Sink>(out: &mut T, depth: u32, states: usize) -> Result<(), WriteFault>
    ensures { Puts (sunk T.Sink out.old) (depth_line depth states) result
        (sunk T.Sink out.new) }
{
    put(out, b"depth ")?;
    put_count(out, depth as u64)?;
    put(out, b" states ")?;
    put_count(out, states as u64)?;
    put(out, b"\n")
}

// Writes a depth after a word.
fn put_depth_word<T: Sink>(out: &mut T, depth: u32) -> Result<(), WriteFault>
    ensures { Puts (sunk T.Sink out.old) (codes " depth " ++ decimal depth) result
        (sunk T.Sink out.new) }
{
    put(out, b" depth ")?;
    put_count(out, depth as u64)
}

// Writes how an exploration ended: `all` if no state is left, or the depth.
fn put_how<T: Sink>(out: &mut T, depth: Option<u32>) -> Result<(), WriteFault>
    ensures { Puts (sunk T.Sink out.old) (how_text depth) result (sunk T.Sink out.new) }
{
    match depth {
        None => put(out, b" all"),
        Some(depth) => put_depth_word(out, depth),
    }
}

/// Writes the line of the sums: the number of states and of tries, and the depth at which the exploration
/// ended, or `None` if no state is left.
///
/// # Errors
///
/// Returns `WriteFault` if the sink fails.
pub fn put_sums<T: Sink>(
    out: &mut T,
    states: usize,
    tries: u64,
    depth: Option<u32>,
) -> Result<(), WriteFault>
    ensures { Puts (sunk T.Sink out.old) (sums_text states tries (how_text depth)) result
        (sunk T.Sink out.new) }
{
    put(out, b"explored states ")?;
    put_count(out, states as u64)?;
    put(out, b" tries ")?;
    put_count(out, tries)?;
    put_how(out, depth)?;
    put(out, b"\n")
}

/// Writes the line of a rule that applied to no try, unless it applied to one.
///
/// # Errors
///
/// Returns `WriteFault` if the sink fails.
pub fn put_unheard<T: Sink>(out: &mut T, line: u32, heard: bool) -> Result<(), WriteFault>
    ensures { Puts (sunk T.Sink out.old) (silent_if heard line) result (sunk T.Sink out.new) }
{
    if heard {
        return Ok(());
    }
    put_silent_line(out, line)
}

// Writes the line of a rule that applied to no try.
fn put_silent_line<T: Sink>(out: &mut T, line: u32) -> Result<(), WriteFault>
    ensures { Puts (sunk T.Sink out.old) (silent_line line) result (sunk T.Sink out.new) }
{
    put(out, b"silent line ")?;
    put_count(out, line as u64)?;
    put(out, b"\n")
}

// Whether the `on` line with an index applied to a try. One that was not counted did.
fn is_heard(heard: &[bool], i: usize) -> bool
    ensures { result ≡ slice_index_or heard.now i true }
{
    if i < heard.len() { heard[i] } else { true }
}

/// Writes the lines of the `on` lines that applied to no try, by whether each did.
///
/// # Errors
///
/// Returns `WriteFault` if the sink fails.
pub fn put_silent<T: Sink>(out: &mut T, ons: &[OnRule], heard: &[bool]) -> Result<(), WriteFault>
    ensures { Puts (sunk T.Sink out.old) (silent_from 0 ons.now heard.now) result (sunk T.Sink out.new) }
{
    for (i, on) in ons.iter().enumerate() {
        put_unheard(out, on.line, is_heard(heard, i))?;
    }
    Ok(())
}

/// Writes the line of a broken rule: the name of its allowance, and the number of statements that follow.
///
/// # Errors
///
/// Returns `WriteFault` if the sink fails.
pub fn put_broken<T: Sink>(out: &mut T, name: &[u8], lines: u64) -> Result<(), WriteFault>
    ensures { Puts (sunk T.Sink out.old) (broken_line name.now lines) result
        (sunk T.Sink out.new) }
{
    put(out, b"broken ")?;
    put(out, name)?;
    put(out, b" after ")?;
    put_count(out, lines)?;
    put(out, b" lines\n")
}

/// Returns the number of statements of a move.
pub fn count_of_lines(manner: Manner) -> u64
    ensures { result ≡ count_of_lines manner }
{
    match manner {
        Manner::Whole => 1,
        Manner::Cut { made: _, fill: _ } => 3,
    }
}

/// Writes a statement.
///
/// # Errors
///
/// Returns `WriteFault` if the sink fails.
pub fn put_statement<T: Sink>(out: &mut T, statement: &[u8]) -> Result<(), WriteFault>
    ensures { Puts (sunk T.Sink out.old) (statement_line statement.now) result
        (sunk T.Sink out.new) }
{
    put(out, statement)?;
    put(out, b"\n")
}

// Writes the hexadecimal digits of a word.
fn put_hex<T: Sink>(out: &mut T, word: &[u8; 8]) -> Result<(), WriteFault>
    ensures { Puts (sunk T.Sink out.old) (hex_text word.now) result (sunk T.Sink out.new) }
{
    let mut digits = ArrayVec::<u8, 16>::new();
    add_hex(&mut digits, word);
    put(out, digits.as_slice())
}

// Writes the statement that arms a cut of the write after the first `made` ones.
fn put_cut<T: Sink>(out: &mut T, made: u32, fill: &[u8; 8]) -> Result<(), WriteFault>
    ensures { Puts (sunk T.Sink out.old) (cut_line made fill.now) result
        (sunk T.Sink out.new) }
{
    put(out, b"cut ")?;
    put_count(out, made as u64 + 1)?;
    put(out, b" ")?;
    put_hex(out, fill)?;
    put(out, b"\n")
}

// Writes the statements of a move that is cut at the write after the first `made` ones.
fn put_cut_move<T: Sink>(
    out: &mut T,
    text: &[u8],
    made: u32,
    fill: &[u8; 8],
) -> Result<(), WriteFault>
    ensures { Puts (sunk T.Sink out.old)
        (cut_line made fill.now ++ statement_line text.now ++ statement_line (codes "power")) result
        (sunk T.Sink out.new) }
{
    put_cut(out, made, fill)?;
    put_statement(out, text)?;
    put_statement(out, b"power")
}

/// Writes the statements of a move: its own, and before it the one that arms its cut and after it a `power`, if
/// it is cut.
///
/// # Errors
///
/// Returns `WriteFault` if the sink fails.
pub fn put_move<T: Sink>(out: &mut T, text: &[u8], manner: Manner) -> Result<(), WriteFault>
    ensures { Puts (sunk T.Sink out.old) (move_lines text.now manner) result
        (sunk T.Sink out.new) }
{
    match manner {
        Manner::Whole => put_statement(out, text),
        Manner::Cut { made, fill } => put_cut_move(out, text, made, &fill.word()),
    }
}

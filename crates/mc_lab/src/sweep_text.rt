// The text of a sweep.
ghost use Rattle.std.specs.Prelude.{◌≡◌, ◌++◌, ◌+◌, ◌-◌, ◌<◌, ◌≤◌, ℕ, ◌∷◌, codes, decimal, drop, get_or, length};
ghost use Rattle.mc_lab.specs.Sweeps.{is_word, line_end, mark_text, run_text, runs, runs_text, sums_text};
ghost use Rattle.mc_lab.specs.declared.sweep_word.SweepWord.TheVariants.{Before};
ghost use Rattle.mc_text.specs.Texts.{sunk, Puts};

use crate::sweep_word::SweepWord;
use itoa::Buffer;
use mc_streams::{Sink, WriteFault};
use mc_text::{put, put_decimal};

/// The sums of a sweep: its lines, their writes, and the plays that determine their words; and whether all that must be
/// whole is.
#[derive(Clone, Copy, Debug)]
pub struct Sums {
    pub lines: u128,
    pub writes: u128,
    pub plays: u128,
    pub whole: bool,
}

// Writes a sum.
fn put_sum<T: Sink>(out: &mut T, number: u128) -> Result<(), WriteFault>
    ensures { Puts (sunk T.Sink out.old) (decimal number) result (sunk T.Sink out.new) }
{
    let mut buffer = Buffer::new();
    put(out, buffer.format(number).as_bytes())
}

// Writes a run of writes of one word, by its first and its last write.
fn put_run<T: Sink>(out: &mut T, word: SweepWord, first: u32, last: u32) -> Result<(), WriteFault>
    ensures { Puts (sunk T.Sink out.old)
        (run_text (record { first = first; last = last; word = word })) result (sunk T.Sink out.new) }
{
    put(out, b" ")?;
    put(out, word.text().as_bytes())?;
    put(out, b" ")?;
    put_decimal(out, first)?;
    put(out, b"-")?;
    put_decimal(out, last)
}

// Whether two words are equal.
fn is_word(a: SweepWord, b: SweepWord) -> bool
    ensures { result ≡ is_word a b }
{
    a.text() == b.text()
}

// The length of the first run of words.
fn run_len(words: &[SweepWord]) -> usize
    requires { 0 < length words.now }
    ensures low { 1 ≤ result }
    ensures high { result ≤ length words.now }
    ensures run { (k : ℕ) → runs k words.now
        ≡ record { first = k; last = k + result - 1; word = get_or words.now 0 Before }
        ∷ runs (k + result) (drop result words.now) }
{
    let mut len = 1;
    while len < words.len() {
        if !is_word(words[0], words[len]) {
            return len;
        }
        len += 1;
    }
    len
}

// Writes the longest runs of the words of a line's writes.
fn put_runs<T: Sink>(out: &mut T, words: &[SweepWord]) -> Result<(), WriteFault>
    requires { length words.now ≤ 4294967295 }
    ensures { Puts (sunk T.Sink out.old) (runs_text (runs 1 words.now)) result
        (sunk T.Sink out.new) }
{
    let mut at = 0;
    while at < words.len() {
        let len = run_len(&words[at..]);
        put_run(out, words[at], at as u32 + 1, (at + len) as u32)?;
        at += len;
    }
    Ok(())
}

// Writes the end of a swept line: that it is not whole, if it is broken, and a line feed.
fn put_end<T: Sink>(out: &mut T, broken: bool) -> Result<(), WriteFault>
    ensures { Puts (sunk T.Sink out.old) (line_end broken) result (sunk T.Sink out.new) }
{
    if broken {
        put(out, b" not whole\n")
    } else {
        put(out, b"\n")
    }
}

/// Writes the text of a swept line: its number, the runs of its writes, and that it is not whole, if it is broken.
///
/// # Errors
///
/// Returns `WriteFault` if the sink fails.
pub fn put_swept<T: Sink>(
    out: &mut T,
    number: u32,
    words: &[SweepWord],
    broken: bool,
) -> Result<(), WriteFault>
    requires { length words.now ≤ 4294967295 }
    ensures { Puts (sunk T.Sink out.old) (codes "line " ++ decimal number ++ codes " writes "
        ++ decimal (length words.now) ++ codes ":" ++ runs_text (runs 1 words.now)
        ++ line_end broken) result (sunk T.Sink out.new) }
{
    put(out, b"line ")?;
    put_decimal(out, number)?;
    put(out, b" writes ")?;
    put_decimal(out, words.len() as u32)?;
    put(out, b":")?;
    put_runs(out, words)?;
    put_end(out, broken)
}

/// Writes the line of a mark that is of no swept line, by the number of its line.
///
/// # Errors
///
/// Returns `WriteFault` if the sink fails.
pub fn put_mark<T: Sink>(out: &mut T, number: u32) -> Result<(), WriteFault>
    ensures { Puts (sunk T.Sink out.old) (mark_text number) result (sunk T.Sink out.new) }
{
    put(out, b"line ")?;
    put_decimal(out, number)?;
    put(out, b" not swept\n")
}

/// Writes the sums of a sweep.
///
/// # Errors
///
/// Returns `WriteFault` if the sink fails.
pub fn put_sums<T: Sink>(out: &mut T, sums: &Sums) -> Result<(), WriteFault>
    ensures { Puts (sunk T.Sink out.old) (sums_text sums.now.lines sums.now.writes sums.now.plays) result
        (sunk T.Sink out.new) }
{
    put(out, b"swept ")?;
    put_sum(out, sums.lines)?;
    put(out, b" writes ")?;
    put_sum(out, sums.writes)?;
    put(out, b" plays ")?;
    put_sum(out, sums.plays)?;
    put(out, b"\n")
}

// The record of LCOV (geninfo, "tracefile") of lines of code with their counts.
ghost use Rattle.std.specs.Prelude.{◌≡◌, ◌+◌, ◌-◌, ◌≤◌, ◌++◌};
ghost use Rattle.std.specs.Prelude.{codes, cond, decimal, filter, length, nat_lt};
ghost use Rattle.arrayvec.specs.ArrayVec.{array_vec_len};
ghost use Rattle.mc_text.specs.Texts.{sunk, Puts};
ghost use Rattle.desk_cover.specs.Records.{branch_text, branches_text, count_gone, count_run, count_text, count_ways};
ghost use Rattle.desk_cover.specs.Records.{end_text, head_text, line_sums, line_text, lines_text, number_text};
ghost use Rattle.desk_cover.specs.Records.{record_text, rest_text, way_sums, way_text, ways_of};

use arrayvec::ArrayVec;
use itoa::Buffer;
use mc_streams::{Sink, WriteFault};
use mc_text::put;

/// A line of code with its counts: its number, the index of its section and its place there, the condition of its
/// branch, if it has one, the number of its turns, and the number of those in which the condition held.
#[derive(Clone, Copy, Debug)]
pub struct LineCount {
    pub number: u32,
    pub section: usize,
    pub place: u16,
    pub condition: Option<u8>,
    pub turns: u64,
    pub taken: u64,
}

/// A line of the record, which is gathered before it is written.
type Record = ArrayVec<u8, 96>;

// Adds a text.
fn add(gathered: &mut Record, text: &[u8])
    requires { array_vec_len gathered.old + length text.now ≤ 96 }
    ensures { gathered.new.items ≡ gathered.old.items ++ text.now }
{
    gathered.try_extend_from_slice(text).unwrap()
}

// Adds a number in decimal.
fn add_number(gathered: &mut Record, number: u64)
    requires { array_vec_len gathered.old + 20 ≤ 96 }
    ensures text { gathered.new.items ≡ gathered.old.items ++ decimal number }
    ensures short { array_vec_len gathered.new ≤ array_vec_len gathered.old + 20 }
{
    let mut buffer = Buffer::new();
    add(gathered, buffer.format(number).as_bytes());
}

// Writes the line of a line of code.
fn put_line<T: Sink>(out: &mut T, line: &LineCount) -> Result<(), WriteFault>
    ensures { Puts (sunk T.Sink out.old) (line_text line.now) result (sunk T.Sink out.new) }
{
    let mut gathered = ArrayVec::new();
    add(&mut gathered, b"DA:");
    add_number(&mut gathered, line.number as u64);
    add(&mut gathered, b",");
    add_number(&mut gathered, line.turns);
    add(&mut gathered, b"\n");
    put(out, gathered.as_slice())
}

// Adds a count, `-` where the line never ran.
fn add_count(gathered: &mut Record, turns: u64, count: u64)
    requires { array_vec_len gathered.old + 20 ≤ 96 }
    ensures text { gathered.new.items ≡ gathered.old.items ++ count_text turns count }
    ensures short { array_vec_len gathered.new ≤ array_vec_len gathered.old + 20 }
{
    if turns == 0 {
        add(gathered, b"-");
    } else {
        add_number(gathered, count);
    }
}

// Writes the line of one way of a branch.
fn put_way<T: Sink>(out: &mut T, line: &LineCount, way: u64, count: u64) -> Result<(), WriteFault>
    ensures { Puts (sunk T.Sink out.old) (way_text line.now way count) result
        (sunk T.Sink out.new) }
{
    let mut gathered = ArrayVec::new();
    add(&mut gathered, b"BRDA:");
    add_number(&mut gathered, line.number as u64);
    add(&mut gathered, b",0,");
    add_number(&mut gathered, way);
    add(&mut gathered, b",");
    add_count(&mut gathered, line.turns, count);
    add(&mut gathered, b"\n");
    put(out, gathered.as_slice())
}

// Writes the line of the way on which the condition did not hold.
fn put_passed<T: Sink>(out: &mut T, line: &LineCount) -> Result<(), WriteFault>
    ensures { Puts (sunk T.Sink out.old) (way_text line.now 1 (line.now.turns - line.now.taken)) result
        (sunk T.Sink out.new) }
{
    put_way(out, line, 1, line.turns.saturating_sub(line.taken))
}

// Writes the two lines of a branch.
fn put_ways<T: Sink>(out: &mut T, line: &LineCount) -> Result<(), WriteFault>
    ensures { Puts (sunk T.Sink out.old)
        (way_text line.now 0 line.now.taken ++ way_text line.now 1 (line.now.turns - line.now.taken)) result
        (sunk T.Sink out.new) }
{
    put_way(out, line, 0, line.taken)?;
    put_passed(out, line)
}

// Writes the two lines of a line's branch, if it has one.
#[tactic(auto, using(mc_text::proofs::TextLemmas::writes_none))]
fn put_branch<T: Sink>(out: &mut T, line: &LineCount) -> Result<(), WriteFault>
    ensures { Puts (sunk T.Sink out.old) (branch_text line.now) result (sunk T.Sink out.new) }
{
    match line.condition {
        None => Ok(()),
        Some(_) => put_ways(out, line),
    }
}

// Writes the lines of lines of code.
fn put_lines<T: Sink>(out: &mut T, lines: &[LineCount]) -> Result<(), WriteFault>
    ensures { Puts (sunk T.Sink out.old) (lines_text lines.now) result (sunk T.Sink out.new) }
{
    for line in lines {
        put_line(out, line)?;
    }
    Ok(())
}

// Writes the lines of their branches.
fn put_branches<T: Sink>(out: &mut T, lines: &[LineCount]) -> Result<(), WriteFault>
    ensures { Puts (sunk T.Sink out.old) (branches_text lines.now) result
        (sunk T.Sink out.new) }
{
    for line in lines {
        put_branch(out, line)?;
    }
    Ok(())
}

// Writes a word and a number.
fn put_count<T: Sink>(out: &mut T, word: &[u8], number: u64) -> Result<(), WriteFault>
    requires { length word.now ≤ 20 }
    ensures { Puts (sunk T.Sink out.old) (number_text word.now number) result
        (sunk T.Sink out.new) }
{
    let mut gathered = ArrayVec::new();
    add(&mut gathered, word);
    add_number(&mut gathered, number);
    add(&mut gathered, b"\n");
    put(out, gathered.as_slice())
}

// The number of ways of a line.
fn ways(line: &LineCount) -> u64
    ensures count { result ≡ length (ways_of line.now) }
    ensures most { result ≤ 2 }
{
    match line.condition {
        None => 0,
        Some(_) => 2,
    }
}

// 1 for a number above 0, and 0 for 0.
fn one_above(number: u64) -> u64
    ensures { result ≡ cond (nat_lt 0 number) 1 0 }
{
    if number > 0 { 1 } else { 0 }
}

// The number of ways of a line that were gone.
fn gone_ways(line: &LineCount) -> u64
    ensures count { result ≡ length (filter (nat_lt 0) (ways_of line.now)) }
    ensures most { result ≤ 2 }
{
    match line.condition {
        None => 0,
        Some(_) => one_above(line.taken) + one_above(line.turns.saturating_sub(line.taken)),
    }
}

// The number of ways of lines.
fn count_ways(lines: &[LineCount]) -> u64
    ensures { result ≡ count_ways lines.now }
{
    let mut count = 0;
    for line in lines {
        count += ways(line);
    }
    count
}

// The number of ways of lines that were gone.
fn count_gone(lines: &[LineCount]) -> u64
    ensures { result ≡ count_gone lines.now }
{
    let mut count = 0;
    for line in lines {
        count += gone_ways(line);
    }
    count
}

// The number of lines that ran.
fn count_run(lines: &[LineCount]) -> u64
    ensures { result ≡ count_run lines.now }
{
    let mut count = 0;
    for line in lines {
        count += one_above(line.turns);
    }
    count
}

// Writes the name of a file, and a line feed.
fn put_name<T: Sink>(out: &mut T, name: &[u8]) -> Result<(), WriteFault>
    ensures { Puts (sunk T.Sink out.old) (name.now ++ codes "\n") result
        (sunk T.Sink out.new) }
{
    put(out, name)?;
    put(out, b"\n")
}

// Writes the head of a record.
fn put_head<T: Sink>(out: &mut T, name: &[u8]) -> Result<(), WriteFault>
    ensures { Puts (sunk T.Sink out.old) (head_text name.now) result (sunk T.Sink out.new) }
{
    put(out, b"TN:\nSF:")?;
    put_name(out, name)
}

// Writes the number of ways.
fn put_all_ways<T: Sink>(out: &mut T, lines: &[LineCount]) -> Result<(), WriteFault>
    ensures { Puts (sunk T.Sink out.old) (number_text (codes "BRF:") (count_ways lines.now)) result
        (sunk T.Sink out.new) }
{
    put_count(out, b"BRF:", count_ways(lines))
}

// Writes the number of ways that were gone.
fn put_gone_ways<T: Sink>(out: &mut T, lines: &[LineCount]) -> Result<(), WriteFault>
    ensures { Puts (sunk T.Sink out.old) (number_text (codes "BRH:") (count_gone lines.now)) result
        (sunk T.Sink out.new) }
{
    put_count(out, b"BRH:", count_gone(lines))
}

// Writes the number of lines that ran.
fn put_run_lines<T: Sink>(out: &mut T, lines: &[LineCount]) -> Result<(), WriteFault>
    ensures { Puts (sunk T.Sink out.old) (number_text (codes "LH:") (count_run lines.now)) result
        (sunk T.Sink out.new) }
{
    put_count(out, b"LH:", count_run(lines))
}

// Writes the number of ways, and of those that were gone.
fn put_way_sums<T: Sink>(out: &mut T, lines: &[LineCount]) -> Result<(), WriteFault>
    ensures { Puts (sunk T.Sink out.old) (way_sums lines.now) result (sunk T.Sink out.new) }
{
    put_all_ways(out, lines)?;
    put_gone_ways(out, lines)
}

// Writes the number of lines, and of those that ran.
fn put_line_sums<T: Sink>(out: &mut T, lines: &[LineCount]) -> Result<(), WriteFault>
    ensures { Puts (sunk T.Sink out.old) (line_sums lines.now) result (sunk T.Sink out.new) }
{
    put_count(out, b"LF:", lines.len() as u64)?;
    put_run_lines(out, lines)
}

// Writes all numbers.
fn put_sums<T: Sink>(out: &mut T, lines: &[LineCount]) -> Result<(), WriteFault>
    ensures { Puts (sunk T.Sink out.old) (way_sums lines.now ++ line_sums lines.now) result
        (sunk T.Sink out.new) }
{
    put_way_sums(out, lines)?;
    put_line_sums(out, lines)
}

// Writes all numbers, and the end of the record.
fn put_end<T: Sink>(out: &mut T, lines: &[LineCount]) -> Result<(), WriteFault>
    ensures { Puts (sunk T.Sink out.old) (end_text lines.now) result (sunk T.Sink out.new) }
{
    put_sums(out, lines)?;
    put(out, b"end_of_record\n")
}

// Writes the lines of lines of code and of their branches.
fn put_body<T: Sink>(out: &mut T, lines: &[LineCount]) -> Result<(), WriteFault>
    ensures { Puts (sunk T.Sink out.old) (lines_text lines.now ++ branches_text lines.now) result
        (sunk T.Sink out.new) }
{
    put_lines(out, lines)?;
    put_branches(out, lines)
}

// Writes a record after its head.
fn put_rest<T: Sink>(out: &mut T, lines: &[LineCount]) -> Result<(), WriteFault>
    ensures { Puts (sunk T.Sink out.old) (rest_text lines.now) result (sunk T.Sink out.new) }
{
    put_body(out, lines)?;
    put_end(out, lines)
}

/// Writes the record of lines of code, for the file `name`.
///
/// # Errors
///
/// Returns the fault of the sink if it failed; a proper prefix of the record was written then.
pub fn put_record<T: Sink>(out: &mut T, name: &[u8], lines: &[LineCount]) -> Result<(), WriteFault>
    ensures { Puts (sunk T.Sink out.old) (record_text name.now lines.now) result
        (sunk T.Sink out.new) }
{
    put_head(out, name)?;
    put_rest(out, lines)
}

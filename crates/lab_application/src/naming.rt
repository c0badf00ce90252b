// The names of what is broken, as a text has them.
ghost use Rattle.std.specs.Prelude.{◌≡◌, slice_get};
ghost use Rattle.mc_text.specs.Texts.{sunk, Puts};
ghost use Rattle.lab_search.specs.Reports.{broken_line};
ghost use Rattle.lab_history.specs.declared.standing.Break.TheVariants as Break;
ghost use Rattle.lab_application.specs.Names.{allowance_name, block_text, broken_name, name_of, range_text};

use arrayvec::ArrayVec;
use lab_app_rules::{Always, Balance, Named, Rules};
use lab_history::Break;
use lab_search::put_broken;
use mc_streams::{Sink, WriteFault};
use mc_text::{add, add_decimal};

/// The name of some static bytes: at most 26 characters.
type Name = ArrayVec<u8, 32>;

// The name of the allowance with a number.
fn name_of<'a>(allowances: &[Named<'a>], i: usize) -> &'a [u8]
    ensures { result.now ≡ name_of (slice_get allowances.now i) }
{
    if i >= allowances.len() {
        return b"";
    }
    allowances[i].name
}

// The name of the allowance of the `on` line with a number.
fn allowance_name<'a>(rules: &Rules<'a>, line: usize) -> &'a [u8]
    ensures { result.now ≡ allowance_name rules.now line }
{
    let ons = rules.ons.as_slice();
    if line >= ons.len() {
        return b"";
    }
    name_of(rules.allowances.as_slice(), ons[line].name)
}

// The name of the byte of a range.
fn range_name(range: &Always) -> Name
    ensures { result.items ≡ range_text range.now }
{
    let mut name = ArrayVec::new();
    add(&mut name, b"SB[");
    add_decimal(&mut name, range.at as u32);
    add(&mut name, b"]");
    name
}

// The name of the bytes of a block that sums bind.
fn block_name(block: &Balance) -> Name
    ensures { result.items ≡ block_text block.now }
{
    let end = block.at as u32 + block.n as u32;
    let mut name = ArrayVec::new();
    add(&mut name, b"SB[");
    add_decimal(&mut name, block.at as u32);
    add(&mut name, b"..");
    add_decimal(&mut name, end.saturating_sub(1));
    add(&mut name, b"]");
    name
}

// Writes the line of a broken range.
fn put_range<T: Sink>(
    out: &mut T,
    rules: &Rules<'_>,
    i: usize,
    lines: u64,
) -> Result<(), WriteFault>
    ensures { Puts (sunk T.Sink out.old) (broken_line (broken_name rules.now (Break.Range i)) lines) result
        (sunk T.Sink out.new) }
{
    let ranges = rules.always.as_slice();
    if i >= ranges.len() {
        return put_broken(out, b"", lines);
    }
    put_broken(out, range_name(&ranges[i]).as_slice(), lines)
}

// Writes the line of a broken block that sums bind.
fn put_block<T: Sink>(
    out: &mut T,
    rules: &Rules<'_>,
    i: usize,
    lines: u64,
) -> Result<(), WriteFault>
    ensures { Puts (sunk T.Sink out.old) (broken_line (broken_name rules.now (Break.Block i)) lines) result
        (sunk T.Sink out.new) }
{
    let blocks = rules.balances.as_slice();
    if i >= blocks.len() {
        return put_broken(out, b"", lines);
    }
    put_broken(out, block_name(&blocks[i]).as_slice(), lines)
}

/// Writes the line of a broken rule: its name, and the number of statements that follow.
///
/// # Errors
///
/// Returns `WriteFault` if the sink fails.
pub fn put_break<T: Sink>(
    out: &mut T,
    rules: &Rules<'_>,
    broken: Break,
    lines: u64,
) -> Result<(), WriteFault>
    ensures { Puts (sunk T.Sink out.old) (broken_line (broken_name rules.now broken) lines) result
        (sunk T.Sink out.new) }
{
    match broken {
        Break::On(line) => put_broken(out, allowance_name(rules, line), lines),
        Break::Abend => put_broken(out, b"abend", lines),
        Break::Range(i) => put_range(out, rules, i, lines),
        Break::Block(i) => put_block(out, rules, i, lines),
    }
}

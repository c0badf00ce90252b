// Expectations compared with results, and the report of them.
ghost use Rattle.std.specs.Prelude.{◌≡◌, decimal, IfOk};
ghost use Rattle.mc_text.specs.Texts.{sunk, Puts};
ghost use Rattle.law_explore.specs.model_events.specs.Matching.{fits};
ghost use Rattle.mc_lab.specs.Expectations.{above_text, count_text, failed_line, expectation_line};
ghost use Rattle.mc_lab.specs.Judged.{done_of};
ghost use Rattle.mc_lab.specs.Remarked.{line_value, remark_value};

use crate::laying::put_laid_out;
use crate::remark::Remark;
use itoa::Buffer;
use lab_match::fits;
use mc_asm::NumberedLine;
use mc_script::Text;
use mc_streams::{Sink, WriteFault};
use mc_text::{put, put_number};

// Writes the statement of an expectation that failed, with the number of its line.
fn put_above<T: Sink>(out: &mut T, statement: &NumberedLine<'_>) -> Result<(), WriteFault>
    ensures { Puts (sunk T.Sink out.old) (above_text (line_value statement.now)) result
        (sunk T.Sink out.new) }
{
    put_number(out, b" (line ", statement.number)?;
    put(out, b" ")?;
    put(out, statement.text)?;
    put(out, b")\n")
}

// Writes the line of an expectation that failed at a result.
fn put_failed<T: Sink>(out: &mut T, expectation: &Remark<'_>, text: &Text) -> Result<(), WriteFault>
    ensures { Puts (sunk T.Sink out.old) (failed_line (remark_value expectation.now) text.now.items) result
        (sunk T.Sink out.new) }
{
    put_number(out, b"line ", expectation.number)?;
    put(out, b" expected ")?;
    put(out, expectation.text)?;
    put(out, b" was ")?;
    put_laid_out(out, expectation.text, text)?;
    put_above(out, &expectation.above)
}

/// Returns whether an expectation holds for the text of a result, and writes the line of one that does not.
///
/// # Errors
///
/// Returns `WriteFault` if the sink fails.
pub fn judge<T: Sink>(
    out: &mut T,
    expectation: &Remark<'_>,
    text: &Text,
) -> Result<bool, WriteFault>
    ensures value { IfOk result (λ b. b ≡ fits expectation.now.text.now text.now.items) }
    ensures reported { Puts (sunk T.Sink out.old)
        (expectation_line (fits expectation.now.text.now text.now.items) (remark_value expectation.now) text.now.items)
        (done_of result) (sunk T.Sink out.new) }
{
    if fits(expectation.text, text.as_slice()) {
        return Ok(true);
    }
    put_failed(out, expectation, text)?;
    Ok(false)
}

// Writes a number in decimal.
fn put_count<T: Sink>(out: &mut T, count: usize) -> Result<(), WriteFault>
    ensures { Puts (sunk T.Sink out.old) (decimal count) result (sunk T.Sink out.new) }
{
    let mut buffer = Buffer::new();
    put(out, buffer.format(count).as_bytes())
}

/// Writes the number of expectations and the number that failed.
///
/// # Errors
///
/// Returns `WriteFault` if the sink fails.
pub fn put_counts<T: Sink>(out: &mut T, expected: usize, failed: usize) -> Result<(), WriteFault>
    ensures { Puts (sunk T.Sink out.old) (count_text expected failed) result
        (sunk T.Sink out.new) }
{
    put(out, b"expected ")?;
    put_count(out, expected)?;
    put(out, b" failed ")?;
    put_count(out, failed)?;
    put(out, b"\n")
}

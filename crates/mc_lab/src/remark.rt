// Remarks: comment lines of a deck that the laboratory reads.
ghost use Rattle.std.specs.Prelude.{◌≡◌, ◌<◌, ◌&&◌, option_map};
ghost use Rattle.law_explore.specs.model_text.specs.Text.{fields, trim_front};
ghost use Rattle.mc_lab.specs.Remarks.{above_after, begins_statement, is_only, is_whole_mark};
ghost use Rattle.mc_lab.specs.Remarks.{pattern_in, remark_at, text_in};
ghost use Rattle.mc_lab.specs.Remarked.{line_value, some_value};

use lab_match::first_field;
use mc_asm::NumberedLine;
use mc_text::{trim, trim_front};

/// What a remark says, by the mark that its line begins with.
#[derive(Clone, Copy, Debug, PartialEq, Eq)]
pub enum Mark {
    /// `#>`, and after it a pattern for the result of the statement above.
    Expectation,
    /// `#! whole`: no power cut leaves the statement above half done.
    Whole,
}

/// A comment line of a deck that the laboratory reads: the number of its line, its text after the mark, and the last
/// statement above it with the number of its line, which is 0 if there is none.
#[derive(Clone, Copy, Debug, PartialEq, Eq)]
pub struct Remark<'a> {
    pub number: u32,
    pub text: &'a [u8],
    pub above: NumberedLine<'a>,
}

// Whether a line has one field, which is this word.
fn is_only(line: &[u8], word: &[u8]) -> bool
    ensures { result ≡ is_only word.now (fields line.now) }
{
    match first_field(line) {
        Some((field, rest)) => field == word && first_field(rest).is_none(),
        None => false,
    }
}

// Whether a line has the fields `#!` and `whole`.
fn is_whole_mark(line: &[u8]) -> bool
    ensures { result ≡ is_whole_mark (fields line.now) }
{
    match first_field(line) {
        Some((field, rest)) => field == b"#!".as_slice() && is_only(rest, b"whole"),
        None => false,
    }
}

// The pattern of a line, if its first field begins with `#>`.
fn pattern_in(line: &[u8]) -> Option<&[u8]>
    ensures { option_map (λ t. t.now) result ≡ pattern_in line.now }
{
    match trim_front(line) {
        [b'#', b'>', behind @ ..] => Some(trim(behind)),
        _ => None,
    }
}

// The text of a line with a mark, which is empty for `#! whole`.
fn text_in(mark: Mark, line: &[u8]) -> Option<&[u8]>
    ensures { option_map (λ t. t.now) result ≡ text_in mark line.now }
{
    match mark {
        Mark::Expectation => pattern_in(line),
        Mark::Whole => { if is_whole_mark(line) { Some(&[]) } else { None } }
    }
}

/// Returns the remark of a line that is in a section or not, or `None` if it is none.
pub fn remark_at<'a>(
    mark: Mark,
    inside: bool,
    line: NumberedLine<'a>,
    above: NumberedLine<'a>,
) -> Option<Remark<'a>>
    ensures { some_value result
        ≡ remark_at inside (text_in mark line.entry.text.now) line.entry.number (line_value above.entry) }
{
    if inside {
        return None;
    }
    match text_in(mark, line.text) {
        Some(text) => Some(Remark {
            number: line.number,
            text,
            above,
        }),
        None => None,
    }
}

// Whether a line is a statement: it is not empty, and no comment.
fn is_statement(line: &[u8]) -> bool
    ensures { result ≡ begins_statement (trim_front line.now) }
{
    match trim_front(line) {
        [] => false,
        [first, ..] => *first != b'#',
    }
}

/// Returns the last statement after a line, with the number of its line and without the blanks around it.
pub fn above_after<'a>(line: NumberedLine<'a>, above: NumberedLine<'a>) -> NumberedLine<'a>
    ensures { line_value result ≡ above_after (line_value line.entry) (line_value above.entry) }
{
    if is_statement(line.text) {
        NumberedLine {
            number: line.number,
            text: trim(line.text),
        }
    } else {
        above
    }
}

// All refusals of a draft: a line that is refused is left out, and the rest is read again.
ghost use Rattle.std.specs.Prelude.{◌≡◌, Err, IfOk, MatchOption, Ok};
ghost use Rattle.desk_draft.specs.Listings.{desk_read, Desk};

use crate::kind::{Kind, first_of_section, kind_at};
use crate::lines::lines_of;
use crate::part::{field_at, label_part};
use desk_draft::read_desk;
use mc_asm::{AsmCause, is_label};
use mc_deck::model_card::UnitRefusal;
use mc_deck::{DeckCause, DeckRefusal};
use mc_text::{push, push_decimal};
use std::alloc::{AllocError, Global};

/// A line that is refused, counted from 1, its kind and the cause.
#[derive(Clone, Copy, Debug, PartialEq, Eq)]
pub struct Refused {
    pub number: u32,
    pub kind: Kind,
    pub cause: DeckCause,
}

/// A draft that was read to its end: its lines without those that are refused, whether they are a draft now, and the
/// refusals in the order in which they were found.
#[derive(Drop)]
pub struct Reading {
    pub text: Vec<u8>,
    pub is_read: bool,
    pub refusals: Vec<Refused>,
}

// The lines that are read on, and the names of the sections that are left out.
#[derive(Drop)]
struct Rest {
    lines: Vec<Vec<u8>>,
    gone: Vec<Vec<u8>>,
}

// The lines of a text, to be replaced.
fn own_lines(alloc: Global, text: &[u8]) -> Result<Vec<Vec<u8>>, AllocError> {
    let mut lines = Vec::new(alloc);
    for line in &lines_of(alloc, text)? {
        lines.push(Vec::from_slice(alloc, line)?)?;
    }
    Ok(lines)
}

// The text of lines.
fn text_of(alloc: Global, lines: &[Vec<u8>]) -> Result<Vec<u8>, AllocError> {
    let mut text = Vec::new(alloc);
    for line in lines {
        push(&mut text, line.as_slice())?;
        push(&mut text, b"\n")?;
    }
    Ok(text)
}

// The line and the cause for which a draft or its deck is refused first, or `None` if it is read.
fn first_refusal(alloc: Global, draft: &[u8]) -> Result<Option<(u32, DeckCause)>, AllocError>
    ensures { IfOk result (λ o. MatchOption o ((d : Desk) × (desk_read draft.now ≡ Ok d))
        (λ r. desk_read draft.now ≡ Err r)) }
{
    match read_desk(alloc, draft) {
        Ok(_) => Ok(None),
        Err(DeckRefusal::At(number, cause)) => Ok(Some((number, cause))),
        Err(DeckRefusal::NoMemory) => Err(AllocError),
    }
}

// The index of the line with a number.
fn index_of(number: u32) -> usize {
    number.saturating_sub(1) as usize
}

// Takes another text for the line at an index.
fn replace(lines: &mut Vec<Vec<u8>>, index: usize, text: Vec<u8>) {
    if let Some(line) = lines.get_mut(index) {
        *line = text;
    }
}

// Leaves lines out, which are empty then.
fn clear(lines: &mut Vec<Vec<u8>>, from: usize, to: usize) {
    for index in from..to {
        if let Some(line) = lines.get_mut(index) {
            line.clear();
        }
    }
}

// A field of the line at an index, or another text if the line has it not.
fn field_or(
    alloc: Global,
    lines: &[Vec<u8>],
    index: usize,
    field: usize,
    other: &[u8],
) -> Result<Vec<u8>, AllocError> {
    match lines.get(index) {
        Some(line) => match field_at(line.as_slice(), field) {
            Some(part) => Vec::from_slice(alloc, part.text),
            None => Vec::from_slice(alloc, other),
        },
        None => Vec::from_slice(alloc, other),
    }
}

// A name in place of one that is refused.
fn other_name(alloc: Global, number: u32) -> Result<Vec<u8>, AllocError> {
    let mut name = Vec::from_slice(alloc, b"left_out_")?;
    push_decimal(&mut name, number as usize)?;
    Ok(name)
}

// The name of a section whose first line is refused, or one in its place if the name is the cause.
fn name_after(
    alloc: Global,
    lines: &[Vec<u8>],
    number: u32,
    cause: DeckCause,
) -> Result<Vec<u8>, AllocError> {
    let other = other_name(alloc, number)?;
    match cause {
        DeckCause::BadName | DeckCause::NameTwice => Ok(other),
        _ => field_or(alloc, lines, index_of(number), 1, other.as_slice()),
    }
}

// An AID in place of one that is refused.
const OTHER_AID: &[u8] = b"A000000000";

// The AID of a section whose first line is refused, or one in its place if the AID is the cause.
fn aid_after(
    alloc: Global,
    lines: &[Vec<u8>],
    number: u32,
    cause: DeckCause,
) -> Result<Vec<u8>, AllocError> {
    match cause {
        DeckCause::BadHex | DeckCause::OutOfRange => Vec::from_slice(alloc, OTHER_AID),
        _ => field_or(alloc, lines, index_of(number), 2, OTHER_AID),
    }
}

// Mends the first line of a section, so that its lines are read as a section.
fn mend_app(
    alloc: Global,
    lines: &mut Vec<Vec<u8>>,
    number: u32,
    cause: DeckCause,
) -> Result<(), AllocError> {
    let name = name_after(alloc, lines.as_slice(), number, cause)?;
    let aid = aid_after(alloc, lines.as_slice(), number, cause)?;
    let mut line = Vec::from_slice(alloc, b"app ")?;
    push(&mut line, name.as_slice())?;
    push(&mut line, b" ")?;
    push(&mut line, aid.as_slice())?;
    replace(lines, index_of(number), line);
    Ok(())
}

// Leaves a section out whose end is refused, and keeps its name.
fn leave_section(alloc: Global, rest: &mut Rest, number: u32) -> Result<(), AllocError> {
    let index = index_of(number);
    let first = first_of_section(rest.lines.as_slice(), index);
    let name = field_or(alloc, rest.lines.as_slice(), first, 1, b"")?;
    rest.gone.push(name)?;
    clear(&mut rest.lines, first, index.saturating_add(1));
    Ok(())
}

// Leaves a statement out. One that defines a unit keeps its name.
fn leave_statement(alloc: Global, rest: &mut Rest, number: u32) -> Result<(), AllocError> {
    let index = index_of(number);
    let word = field_or(alloc, rest.lines.as_slice(), index, 0, b"")?;
    if word.as_slice() == b"unit".as_slice() {
        let name = field_or(alloc, rest.lines.as_slice(), index, 1, b"")?;
        rest.gone.push(name)?;
    }
    clear(&mut rest.lines, index, index.saturating_add(1));
    Ok(())
}

// The label of a line with its colon, which is empty if the line has none that goes with any other line.
fn label_of(alloc: Global, lines: &[Vec<u8>], index: usize) -> Result<Vec<u8>, AllocError> {
    let mut label = Vec::new(alloc);
    if let Some(line) = lines.get(index) {
        if let Some(part) = label_part(line.as_slice()) {
            if is_label(part.text) {
                push(&mut label, part.text)?;
                push(&mut label, b":")?;
            }
        }
    }
    Ok(label)
}

// Leaves an instruction out, but keeps its label, unless the label is the cause.
fn leave_instruction(
    alloc: Global,
    lines: &mut Vec<Vec<u8>>,
    refused: Refused,
) -> Result<(), AllocError> {
    let index = index_of(refused.number);
    let label = label_of(alloc, lines.as_slice(), index)?;
    clear(lines, index, index.saturating_add(1));
    if refused.cause != DeckCause::Asm(AsmCause::LabelTwice) {
        replace(lines, index, label);
    }
    Ok(())
}

// Leaves out what is refused: a line, or a section if its end is refused.
fn leave_out(alloc: Global, rest: &mut Rest, refused: Refused) -> Result<(), AllocError> {
    match refused.kind {
        Kind::App => mend_app(alloc, &mut rest.lines, refused.number, refused.cause),
        Kind::End => leave_section(alloc, rest, refused.number),
        Kind::Statement => leave_statement(alloc, rest, refused.number),
        Kind::Instruction => leave_instruction(alloc, &mut rest.lines, refused),
        _ => {
            let index = index_of(refused.number);
            clear(&mut rest.lines, index, index.saturating_add(1));
            Ok(())
        }
    }
}

// Whether nothing is read on after a refusal: the whole text is refused, or a section has no end.
fn is_last(cause: DeckCause) -> bool {
    matches!(cause, DeckCause::NoEnd | DeckCause::TooManyLines)
}

// Whether a text is one of some.
fn is_among(texts: &[Vec<u8>], text: &[u8]) -> bool {
    for one in texts {
        if one.as_slice() == text {
            return true;
        }
    }
    false
}

// Whether a line of the section whose end is refused is refused: its code is gone with that line.
fn has_refused_line(rest: &Rest, refusals: &[Refused], number: u32) -> bool {
    let first = first_of_section(rest.lines.as_slice(), index_of(number));
    for refused in refusals {
        if first <= index_of(refused.number) && refused.number < number {
            return true;
        }
    }
    false
}

// The index of the field of a line that may name a section or unit: of a statement or of a move.
fn naming_field(kind: Kind) -> Option<usize> {
    match kind {
        Kind::Statement => Some(1),
        Kind::Rule => Some(3),
        _ => None,
    }
}

// Whether the field of a line names a section or unit that is left out.
fn field_is_gone(rest: &Rest, index: usize, field: usize) -> bool {
    match rest.lines.get(index) {
        Some(line) => match field_at(line.as_slice(), field) {
            Some(part) => is_among(rest.gone.as_slice(), part.text),
            None => false,
        },
        None => false,
    }
}

// Whether the line of a refusal names a section or unit that is left out.
fn names_gone(rest: &Rest, refused: Refused) -> bool {
    match naming_field(refused.kind) {
        Some(field) => field_is_gone(rest, index_of(refused.number), field),
        None => false,
    }
}

// Whether a refusal follows from one before it, so that nothing is said of it: it is of a statement that names what is
// left out, or of a section without code, a line of which is left out.
fn follows(rest: &Rest, refusals: &[Refused], refused: Refused) -> bool {
    if refused.cause == DeckCause::Unit(UnitRefusal::NoCode) {
        return has_refused_line(rest, refusals, refused.number);
    }
    names_gone(rest, refused)
}

// A refusal with the kind of its line.
fn refused_in(rest: &Rest, number: u32, cause: DeckCause) -> Refused {
    Refused {
        number,
        kind: kind_at(rest.lines.as_slice(), index_of(number)),
        cause,
    }
}

// Takes a refusal, and returns whether the rest is read on.
fn take(
    alloc: Global,
    rest: &mut Rest,
    refusals: &mut Vec<Refused>,
    number: u32,
    cause: DeckCause,
) -> Result<bool, AllocError> {
    let refused = refused_in(rest, number, cause);
    if !follows(rest, refusals.as_slice(), refused) {
        refusals.push(refused)?;
    }
    if is_last(cause) {
        return Ok(false);
    }
    leave_out(alloc, rest, refused)?;
    Ok(true)
}

// Reads on after a refusal, at most as many times as each line can be refused.
fn read_on(
    alloc: Global,
    rest: &mut Rest,
    refusals: &mut Vec<Refused>,
) -> Result<bool, AllocError> {
    let most = rest.lines.len().saturating_mul(4);
    for _ in 0..most {
        let text = text_of(alloc, rest.lines.as_slice())?;
        let Some((number, cause)) = first_refusal(alloc, text.as_slice())? else {
            return Ok(true);
        };
        if !take(alloc, rest, refusals, number, cause)? {
            return Ok(false);
        }
    }
    Ok(false)
}

/// Reads a draft to its end that is refused first at a line for a cause.
///
/// # Errors
///
/// Returns `AllocError` if out of memory.
pub fn read_all(
    alloc: Global,
    draft: &[u8],
    number: u32,
    cause: DeckCause,
) -> Result<Reading, AllocError> {
    let mut rest = Rest {
        lines: own_lines(alloc, draft)?,
        gone: Vec::new(alloc),
    };
    let mut refusals = Vec::new(alloc);
    let goes_on = take(alloc, &mut rest, &mut refusals, number, cause)?;
    let is_read = goes_on && read_on(alloc, &mut rest, &mut refusals)?;
    Ok(Reading {
        text: text_of(alloc, rest.lines.as_slice())?,
        is_read,
        refusals,
    })
}

// Parts of a line: its fields, the label, the word and the operands of an instruction.

use mc_text::{cut, cut_blank, trim, trim_front};

/// A part of a line: the bytes of the line before it, and its own.
#[derive(Clone, Copy, Debug, PartialEq, Eq)]
pub struct Part<'a> {
    pub at: usize,
    pub text: &'a [u8],
}

/// Returns a line without its comment.
pub fn without_comment(line: &[u8]) -> &[u8] {
    cut(line, b';').0
}

// The number of bytes of a text before its rest.
fn before(text: &[u8], rest: &[u8]) -> usize {
    text.len().saturating_sub(rest.len())
}

/// Returns the field of a line at an index from 0 on, or `None` if it has fewer.
pub fn field_at(line: &[u8], index: usize) -> Option<Part<'_>> {
    let mut rest = trim_front(line);
    for _ in 0..index {
        rest = trim_front(cut_blank(rest).1.unwrap_or(b""));
    }
    if rest.is_empty() {
        return None;
    }
    Some(Part {
        at: before(line, rest),
        text: cut_blank(rest).0,
    })
}

/// Returns the first field of a line, or its end if it has none.
pub fn first_field(line: &[u8]) -> Part<'_> {
    match field_at(line, 0) {
        Some(part) => part,
        None => Part {
            at: line.len(),
            text: b"",
        },
    }
}

/// Returns the field of a line at an index, or the first one if it has fewer.
pub fn field_or_first(line: &[u8], index: usize) -> Part<'_> {
    match field_at(line, index) {
        Some(part) => part,
        None => first_field(line),
    }
}

// The part of a line of assembly after its label, without its comment.
fn body_of(line: &[u8]) -> &[u8] {
    let (front, behind) = cut(without_comment(line), b':');
    match behind {
        Some(body) => body,
        None => front,
    }
}

/// Returns the label of a line of assembly, or `None` if it has none.
pub fn label_part(line: &[u8]) -> Option<Part<'_>> {
    let (front, behind) = cut(without_comment(line), b':');
    behind?;
    Some(Part {
        at: before(front, trim_front(front)),
        text: trim(front),
    })
}

/// Returns the word of a line of assembly, which is empty if it has none.
pub fn word_part(line: &[u8]) -> Part<'_> {
    let begun = trim_front(body_of(line));
    Part {
        at: before(without_comment(line), begun),
        text: cut_blank(begun).0,
    }
}

/// Returns the text after the word of a line of assembly.
pub fn operands_of(line: &[u8]) -> &[u8] {
    cut_blank(trim_front(body_of(line))).1.unwrap_or(b"")
}

// What is left of operands after a number of commas, or `None` if they have fewer.
fn after_commas(operands: &[u8], count: usize) -> Option<&[u8]> {
    let mut rest = Some(operands);
    for _ in 0..count {
        rest = cut(rest?, b',').1;
    }
    rest
}

/// Returns the operand of a line of assembly at an index from 0 on, or `None` if it has fewer.
pub fn operand_at(line: &[u8], index: usize) -> Option<Part<'_>> {
    let rest = after_commas(operands_of(line), index)?;
    let piece = cut(rest, b',').0;
    let text = trim(piece);
    if text.is_empty() {
        return None;
    }
    let blanks = before(piece, trim_front(piece));
    Some(Part {
        at: before(without_comment(line), rest).saturating_add(blanks),
        text,
    })
}

/// Returns the last operand of a line of assembly, or its word if it has none.
pub fn last_operand(line: &[u8]) -> Part<'_> {
    for index in [2, 1, 0] {
        if let Some(part) = operand_at(line, index) {
            return part;
        }
    }
    word_part(line)
}

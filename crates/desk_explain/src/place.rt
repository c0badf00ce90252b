// The part of a refused line that its cause is about.

use crate::kind::Kind;
use crate::part::{
    Part, field_at, field_or_first, first_field, label_part, last_operand, operand_at,
    without_comment, word_part,
};
use mc_asm::{AsmCause, is_label, natural};
use mc_deck::DeckCause;
use mc_text::{decimal_number, hex_value};

// Whether a text is whole bytes in hexadecimal.
fn is_hex(text: &[u8]) -> bool {
    for digit in text {
        if hex_value(*digit).is_none() {
            return false;
        }
    }
    !text.is_empty() && text.len() % 2 == 0
}

// The text in the round brackets of a field, or the field if it has none.
fn without_brackets(field: &[u8]) -> &[u8] {
    match field {
        [b'(', inner @ .., b')'] => inner,
        _ => field,
    }
}

// The first of the fields of a line from an index on that is no bytes, or the first field.
fn first_no_hex(line: &[u8], from: usize) -> Part<'_> {
    for index in from..line.len() {
        match field_at(line, index) {
            Some(part) if is_hex(without_brackets(part.text)) => {}
            Some(part) => return part,
            None => return field_or_first(line, from),
        }
    }
    field_or_first(line, from)
}

// The first of the fields of a line from an index on that is no decimal number, or the field at the index.
fn first_no_number(line: &[u8], from: usize) -> Part<'_> {
    for index in from..from.saturating_add(3) {
        match field_at(line, index) {
            Some(part) if decimal_number(part.text).is_some() => {}
            Some(part) => return part,
            None => return field_or_first(line, from),
        }
    }
    field_or_first(line, from)
}

// The index of the first field of bytes of a statement.
fn bytes_from(word: &[u8]) -> usize {
    match word {
        b"unit" | b"app" | b"cut" | b"poke" => 2,
        _ => 1,
    }
}

// The index of the first number of a statement.
fn numbers_from(word: &[u8]) -> usize {
    match word {
        b"load" => 2,
        _ => 1,
    }
}

// Whether the field of a line at an index is bytes, and their number is not the given one.
fn has_other_size(line: &[u8], index: usize, size: u64) -> bool {
    match field_at(line, index) {
        Some(part) => is_hex(part.text) && part.text.len() as u64 / 2 != size,
        None => false,
    }
}

/// Returns the number of the field of a line at an index, 0 if it is none.
pub fn number_at(line: &[u8], index: usize) -> u64 {
    match field_at(line, index) {
        Some(part) => decimal_number(part.text).unwrap_or(0),
        None => 0,
    }
}

// The field of a statement that is out of range.
fn out_of_range<'a>(line: &'a [u8], word: &[u8]) -> Part<'a> {
    match word {
        b"app" => field_or_first(line, 2),
        b"cut" | b"poke" if has_other_size(line, 2, 8) => field_or_first(line, 2),
        b"load" if number_at(line, 2) <= 65535 => field_or_first(line, 3),
        b"load" => field_or_first(line, 2),
        _ => field_or_first(line, 1),
    }
}

// The field of a declaration that is out of range: its bytes if they are not as many as its size says, or the size or
// number.
fn range_of_declaration(line: &[u8]) -> Part<'_> {
    let size = number_at(line, 2);
    if 0 < size && size <= 4096 && has_other_size(line, 3, size) {
        return field_or_first(line, 3);
    }
    field_or_first(line, 2)
}

/// Returns the part of a statement that a cause is about.
pub fn statement_part<'a>(line: &'a [u8], cause: DeckCause) -> Part<'a> {
    let word = first_field(line).text;
    match cause {
        DeckCause::BadName | DeckCause::NameTwice | DeckCause::UnknownName => {
            field_or_first(line, 1)
        }
        DeckCause::BadHex => first_no_hex(line, bytes_from(word)),
        DeckCause::BadNumber => first_no_number(line, numbers_from(word)),
        DeckCause::OutOfRange => out_of_range(line, word),
        DeckCause::Unit(_) => field_or_first(line, 2),
        _ => first_field(line),
    }
}

// The part of a declaration that a cause is about.
fn in_declaration<'a>(line: &'a [u8], cause: DeckCause) -> Part<'a> {
    match cause {
        DeckCause::BadName | DeckCause::NameTwice => field_or_first(line, 1),
        DeckCause::BadHex => field_or_first(line, 3),
        DeckCause::BadNumber => first_no_number(line, 2),
        DeckCause::OutOfRange => range_of_declaration(line),
        _ => first_field(line),
    }
}

// The first operand with a plus sign, or the last operand.
fn shifted_operand(line: &[u8]) -> Part<'_> {
    for index in 0..3 {
        match operand_at(line, index) {
            Some(part) if part.text.contains(&b'+') => return part,
            _ => {}
        }
    }
    last_operand(line)
}

// The first operand that is no number, or the last one.
fn no_number_operand(line: &[u8]) -> Part<'_> {
    for index in 1..3 {
        match operand_at(line, index) {
            Some(part) if natural(part.text).is_none() => return part,
            _ => {}
        }
    }
    last_operand(line)
}

// The first operand, or the word if there is none.
fn first_operand(line: &[u8]) -> Part<'_> {
    match operand_at(line, 0) {
        Some(part) => part,
        None => word_part(line),
    }
}

// The label of a line that has one, or its word.
fn label_or_word(line: &[u8]) -> Part<'_> {
    match label_part(line) {
        Some(part) => part,
        None => word_part(line),
    }
}

// The label of a line if it has no label's form, or the word.
fn unknown_part(line: &[u8]) -> Part<'_> {
    match label_part(line) {
        Some(part) if !is_label(part.text) => part,
        _ => word_part(line),
    }
}

// The part of an instruction that a cause of the assembler is about.
fn in_code<'a>(line: &'a [u8], cause: AsmCause) -> Part<'a> {
    match cause {
        AsmCause::UnknownWord => unknown_part(line),
        AsmCause::BadOperands => first_operand(line),
        AsmCause::BadNumber => no_number_operand(line),
        AsmCause::OutOfRange | AsmCause::UnknownLabel | AsmCause::FarBranch => last_operand(line),
        AsmCause::LabelTwice => label_or_word(line),
        AsmCause::TooLong => word_part(line),
    }
}

// The part of an instruction that a cause is about.
fn in_instruction<'a>(line: &'a [u8], cause: DeckCause) -> Part<'a> {
    match cause {
        DeckCause::Asm(cause) => in_code(line, cause),
        DeckCause::OutOfRange => shifted_operand(line),
        _ => word_part(line),
    }
}

// The part of a line of bytes that a cause is about.
fn in_data<'a>(line: &'a [u8], cause: DeckCause) -> Part<'a> {
    match cause {
        DeckCause::BadHex | DeckCause::Unit(_) => field_or_first(line, 1),
        _ => first_field(line),
    }
}

/// Returns the part of a line that its cause is about, which is the first field of a rule.
pub fn part_of<'a>(line: &'a [u8], kind: Kind, cause: DeckCause) -> Part<'a> {
    match kind {
        Kind::Statement | Kind::App => statement_part(line, cause),
        Kind::Rule | Kind::End => first_field(line),
        Kind::Declaration => in_declaration(without_comment(line), cause),
        Kind::Data => in_data(line, cause),
        Kind::Instruction => in_instruction(line, cause),
    }
}

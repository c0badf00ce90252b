// What a line of a section declares, and its label.

use desk_draft::{CodeLine, Source};
use mc_asm::is_label;
use mc_deck::fields;
use mc_text::{cut, decimal_number, trim};

/// What a name stands for: bytes from an offset of a register on, or a number as it was written.
#[derive(Clone, Copy, Debug, PartialEq, Eq)]
pub enum Meaning<'a> {
    Bytes {
        register: &'static [u8],
        at: u16,
        size: u16,
    },
    Number(&'a [u8]),
}

/// A name with what it stands for.
#[derive(Clone, Copy, Debug, PartialEq, Eq)]
pub struct Named<'a> {
    pub name: &'a [u8],
    pub meaning: Meaning<'a>,
}

/// The numbers of static and of session bytes that the lines of a section before one declare.
#[derive(Clone, Copy, Debug, PartialEq, Eq)]
pub struct Declared {
    fixed: u16,
    session: u16,
}

impl Declared {
    /// Returns the numbers before the first line of a section.
    pub fn none() -> Declared {
        Declared {
            fixed: 0,
            session: 0,
        }
    }
}

// A number of a declaration that was read.
fn number(field: &[u8]) -> u16 {
    decimal_number(field).unwrap_or(0).min(65535) as u16
}

// Bytes of a register under a name.
fn bytes<'a>(name: &'a [u8], register: &'static [u8], at: u16, size: u16) -> Option<Named<'a>> {
    Some(Named {
        name,
        meaning: Meaning::Bytes { register, at, size },
    })
}

// The name of static bytes, which come after those that were declared.
fn static_name<'a>(declared: &mut Declared, name: &'a [u8], size: &[u8]) -> Option<Named<'a>> {
    let at = declared.fixed;
    let size = number(size);
    declared.fixed = at.saturating_add(size);
    bytes(name, b"SB", at, size)
}

// The name of session bytes, which come after those that were declared.
fn session_name<'a>(declared: &mut Declared, name: &'a [u8], size: &[u8]) -> Option<Named<'a>> {
    let at = declared.session;
    let size = number(size);
    declared.session = at.saturating_add(size);
    bytes(name, b"DB", at, size)
}

// A line without its comment.
fn without_comment(line: &[u8]) -> &[u8] {
    cut(line, b';').0
}

/// Returns the name that a line of a section declares after others, or `None` if it declares none.
pub fn named_in<'a>(declared: &mut Declared, line: &'a [u8]) -> Option<Named<'a>> {
    match fields(without_comment(line)).as_slice() {
        [_, [b':', ..], ..] => None,
        [b"STATIC", name, size] => static_name(declared, name, size),
        [b"STATIC", name, size, _] => static_name(declared, name, size),
        [b"SESSION", name, size] => session_name(declared, name, size),
        [b"PUBLIC", name, at, size] => bytes(name, b"PB", number(at), number(size)),
        [b"CONST", name, number] => Some(Named {
            name,
            meaning: Meaning::Number(number),
        }),
        _ => None,
    }
}

/// Returns the label of a line of a section, or `None` if it has none.
pub fn label_in(line: &[u8]) -> Option<&[u8]> {
    let (front, behind) = cut(without_comment(line), b':');
    if behind.is_none() {
        return None;
    }
    let label = trim(front);
    if !is_label(label) {
        return None;
    }
    Some(label)
}

// Whether the code of a line begins at a line's label.
fn is_from(line: &CodeLine<'_>, number: u32) -> bool {
    line.number >= number
}

/// Returns the place of a label: that of the first code from its line on, or the end of the code.
pub fn place_of(source: &Source<'_>, number: u32) -> u16 {
    for line in &source.lines {
        if is_from(line, number) {
            return line.place;
        }
    }
    source.code.len().min(65535) as u16
}

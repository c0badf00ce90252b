// The kind of a line of a draft.

use crate::part::{first_field, without_comment};
use mc_deck::{ends_section, fields, has_data};

/// What a line of a draft is: a statement or a rule between sections, the `app` of a section, its `end`, or a
/// declaration, bytes or an instruction in it.
#[derive(Clone, Copy, Debug, PartialEq, Eq)]
pub enum Kind {
    Statement,
    Rule,
    App,
    End,
    Declaration,
    Data,
    Instruction,
}

// Whether a line opens a section.
fn opens(line: &[u8]) -> bool {
    matches!(fields(line).as_slice(), [b"app", _, _])
}

// Whether a line of a section declares a name.
fn declares(line: &[u8]) -> bool {
    matches!(
        first_field(without_comment(line)).text,
        b"STATIC" | b"SESSION" | b"PUBLIC" | b"CONST"
    )
}

// The kind of a line between sections.
fn outside(line: &[u8]) -> Kind {
    match first_field(line).text {
        b"app" => Kind::App,
        b"#@" => Kind::Rule,
        _ => Kind::Statement,
    }
}

/// Returns the kind of a line of a section.
pub fn kind_in_section(line: &[u8]) -> Kind {
    if ends_section(line) {
        return Kind::End;
    }
    if has_data(line) {
        return Kind::Data;
    }
    if declares(line) {
        return Kind::Declaration;
    }
    Kind::Instruction
}

// Whether a section is open after a line, if one was open before it or not.
fn is_open_after(open: bool, line: &[u8]) -> bool {
    if open {
        !ends_section(line)
    } else {
        opens(line)
    }
}

/// Returns the kind of the line at an index.
pub fn kind_at(lines: &[Vec<u8>], index: usize) -> Kind {
    let mut open = false;
    for line in lines.iter().take(index) {
        open = is_open_after(open, line.as_slice());
    }
    match lines.get(index) {
        Some(line) if open => kind_in_section(line.as_slice()),
        Some(line) => outside(line.as_slice()),
        None => Kind::Statement,
    }
}

/// Returns the index of the first line of the section that is open before the line at an index.
pub fn first_of_section(lines: &[Vec<u8>], index: usize) -> usize {
    let mut open = false;
    let mut first = index;
    for (i, line) in lines.iter().take(index).enumerate() {
        if !open {
            first = i;
        }
        open = is_open_after(open, line.as_slice());
    }
    first
}

// The part of a refused rule that its cause is about.

use crate::kind::{Kind, kind_in_section};
use crate::lines::line_numbered;
use crate::part::{Part, field_at, field_or_first, first_field};
use crate::place::{number_at, statement_part};
use mc_deck::{DeckCause, ends_section, fields};
use mc_text::{cut, decimal_number};

/// Returns whether a line between sections is a rule.
pub fn is_rule(line: &[u8]) -> bool {
    first_field(line).text == b"#@".as_slice()
}

// Whether a rule is a move.
fn is_move(line: &[u8]) -> bool {
    field_or_first(line, 1).text == b"move".as_slice()
}

// The part of a statement, as a part of the line whose end it is.
fn within<'a>(line: &[u8], statement: &[u8], part: Part<'a>) -> Part<'a> {
    Part {
        at: line
            .len()
            .saturating_sub(statement.len())
            .saturating_add(part.at),
        text: part.text,
    }
}

// The part of a move that a cause is about.
fn moved_part(line: &[u8], cause: DeckCause) -> Part<'_> {
    match field_at(line, 2) {
        Some(word) => {
            let statement = line.split_at(word.at.min(line.len())).1;
            within(line, statement, statement_part(statement, cause))
        }
        None => first_field(line),
    }
}

// The brace of a rule at an index from 0 on: what stands after it, up to the next brace of either kind.
fn brace_at(line: &[u8], index: usize) -> Option<Part<'_>> {
    let mut rest = cut(line, b'{').1?;
    for _ in 0..index {
        rest = cut(rest, b'{').1?;
    }
    let open = cut(rest, b'{').0;
    Some(Part {
        at: line.len().saturating_sub(rest.len()),
        text: cut(open, b'}').0,
    })
}

// Whether the brace of a rule at an index is closed.
fn is_closed(line: &[u8], part: Part<'_>) -> bool {
    line.get(part.at.saturating_add(part.text.len())) == Some(&b'}')
}

// A text in braces: a name, and what follows its point or plus sign.
#[derive(Clone, Copy)]
struct Brace<'a> {
    name: &'a [u8],
    field: Option<&'a [u8]>,
    place: Option<&'a [u8]>,
}

// The name in a brace and what follows it.
fn brace_of(text: &[u8]) -> Brace<'_> {
    let (front, place) = cut(text, b'+');
    let (name, field) = cut(front, b'.');
    Brace { name, field, place }
}

// The section that a line opens.
fn opened<'a>(line: &'a [u8]) -> Option<&'a [u8]> {
    match fields(line).as_slice() {
        [b"app", name, _] => Some(name),
        _ => None,
    }
}

// Whether a line of a section declares a name.
fn declares(line: &[u8], name: &[u8]) -> bool {
    kind_in_section(line) == Kind::Declaration && field_or_first(line, 1).text == name
}

// The number of bytes of a declaration, 0 if it is of a number.
fn declared_size(line: &[u8]) -> u64 {
    match first_field(line).text {
        b"CONST" => 0,
        b"PUBLIC" => number_at(line, 3),
        _ => number_at(line, 2),
    }
}

// The number of bytes of a name of the command's header.
fn header_size(name: &[u8]) -> Option<u64> {
    match name {
        b"CLA" | b"INS" | b"P1" | b"P2" | b"P3" => Some(1),
        b"Lc" | b"Le" | b"La" | b"SW" => Some(2),
        _ => None,
    }
}

// The number of bytes of a name, 0 of a number, where the section of an application declares it.
fn size_of(lines: &[&[u8]], app: &[u8], name: &[u8]) -> Option<u64> {
    let mut inside = false;
    for line in lines {
        if let Some(section) = opened(line) {
            inside = section == app;
        }
        if ends_section(line) {
            inside = false;
        }
        if inside && declares(line, name) {
            return Some(declared_size(line));
        }
    }
    header_size(name)
}

// Whether a name of `size` bytes, 0 of a number, goes with what follows it in braces.
fn goes_with(size: u64, brace: Brace<'_>) -> bool {
    match (brace.field, brace.place) {
        (None, None) => true,
        (Some(field), None) => size > 0 && field == b"size".as_slice(),
        (None, Some(place)) => size > 0 && decimal_number(place).is_some(),
        (Some(_), Some(_)) => false,
    }
}

// Whether the place in braces is none of the bytes of its name.
fn is_beyond(size: u64, brace: Brace<'_>) -> bool {
    match brace.place {
        Some(place) => decimal_number(place).unwrap_or(0) >= size,
        None => false,
    }
}

// The application of which the rule with a number speaks, which is empty if none is named.
fn app_of<'a>(lines: &[&'a [u8]], number: u32) -> &'a [u8] {
    let mut app: &'a [u8] = b"";
    for line in lines.iter().take(number as usize) {
        if is_rule(line) && field_or_first(line, 1).text == b"app".as_slice() {
            app = field_or_first(line, 2).text;
        }
    }
    app
}

// Whether a brace of a rule is what its cause is about.
fn is_meant(lines: &[&[u8]], line: &[u8], app: &[u8], part: Part<'_>, cause: DeckCause) -> bool {
    if cause == DeckCause::BadLine {
        return !is_closed(line, part);
    }
    let brace = brace_of(part.text);
    match size_of(lines, app, brace.name) {
        Some(size) if cause == DeckCause::OutOfRange => is_beyond(size, brace),
        Some(size) => !goes_with(size, brace),
        None => cause == DeckCause::UnknownName,
    }
}

// The brace of a rule that a cause is about, or its first one.
fn braced_part<'a>(lines: &[&[u8]], line: &'a [u8], app: &[u8], cause: DeckCause) -> Part<'a> {
    for index in 0..line.len() {
        match brace_at(line, index) {
            Some(part) if is_meant(lines, line, app, part, cause) => return part,
            Some(_) => {}
            None => break,
        }
    }
    match brace_at(line, 0) {
        Some(part) => part,
        None => first_field(line),
    }
}

/// Returns the part of the rule with a number that its cause is about.
pub fn rule_part<'a>(lines: &[&'a [u8]], number: u32, cause: DeckCause) -> Part<'a> {
    let line = line_numbered(lines, number);
    if is_move(line) {
        return moved_part(line, cause);
    }
    braced_part(lines, line, app_of(lines, number), cause)
}

// The lines of an application's code.
use lab_app_rules::CodeLine;
use lab_match::{first_field, stays_inside};
use mc_asm::size_of_line;
use mc_deck::{ends_section, has_data};
use mc_text::next_line;
use mc_words::NoMemory;
use prove_facts::push;
use std::alloc::Global;

/// The section of a name as its lines are read: whether the next line is one of it, and the place of its code.
#[derive(Clone, Copy)]
struct Section {
    is_open: bool,
    place: u16,
}

// Whether a line begins the section of a name.
fn begins_section(line: &[u8], name: &[u8]) -> bool {
    let Some((word, rest)) = first_field(line) else {
        return false;
    };
    match first_field(rest) {
        Some((field, _)) => word == b"app".as_slice() && field == name,
        None => false,
    }
}

// The size of a line's code.
fn code_size(line: &[u8]) -> u16 {
    if has_data(line) {
        return 0;
    }
    match size_of_line(line) {
        Ok(size) => size,
        Err(_) => 0,
    }
}

// Takes a line of the section.
fn take_line(
    lines: &mut Vec<CodeLine>,
    section: &mut Section,
    line: &[u8],
    number: u32,
) -> Result<(), NoMemory> {
    if ends_section(line) {
        section.is_open = false;
        return Ok(());
    }
    let size = code_size(line);
    if size == 0 {
        return Ok(());
    }
    let place = section.place;
    section.place = place.saturating_add(size);
    push(
        lines,
        CodeLine {
            place,
            line: number,
        },
    )
}

/// Returns the lines of the section of a name that have code, in the order of their places; none if no section has the name.
///
/// # Errors
///
/// Returns `NoMemory` if it is out of memory.
pub fn code_lines(alloc: Global, text: &[u8], name: &[u8]) -> Result<Vec<CodeLine>, NoMemory> {
    let mut lines = Vec::new(alloc);
    let mut section = Section {
        is_open: false,
        place: 0,
    };
    let mut inside = false;
    let mut number: u32 = 0;
    let mut rest = text;
    while let Some((line, after)) = next_line(rest) {
        number = number.saturating_add(1);
        if section.is_open {
            take_line(&mut lines, &mut section, line, number)?;
        } else if !inside && begins_section(line, name) {
            section.is_open = true;
        }
        inside = stays_inside(inside, line);
        rest = after;
    }
    Ok(lines)
}

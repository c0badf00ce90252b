// The names and labels of sections as JSON Lines.

use crate::entry::{Declared, Meaning, Named, label_in, named_in, place_of};
use crate::text::push_upper;
use desk_draft::{Section, Source};
use mc_text::{push, push_signed};
use std::alloc::{AllocError, Global};

// Adds the keys of a section: its name and its AID.
fn push_section_keys(text: &mut Vec<u8>, section: &Section<'_>) -> Result<(), AllocError> {
    push(text, b"{\"section\":\"")?;
    push(text, section.name)?;
    push(text, b"\",\"aid\":\"")?;
    push_upper(text, section.sizes.aid)
}

// Adds a key, as it is written, and a number.
fn push_key(text: &mut Vec<u8>, key: &[u8], number: i32) -> Result<(), AllocError> {
    push(text, key)?;
    push_signed(text, number)
}

// Adds the key of a line, and ends the line of JSON.
fn push_line_key(text: &mut Vec<u8>, number: u32) -> Result<(), AllocError> {
    push_key(text, b",\"line\":", number.min(i32::MAX as u32) as i32)?;
    push(text, b"}\n")
}

// Adds what a name stands for.
fn push_meaning(text: &mut Vec<u8>, meaning: &Meaning<'_>) -> Result<(), AllocError> {
    match meaning {
        Meaning::Bytes { register, at, size } => {
            push(text, b"\",\"register\":\"")?;
            push(text, register)?;
            push_key(text, b"\",\"offset\":", *at as i32)?;
            push_key(text, b",\"size\":", *size as i32)
        }
        Meaning::Number(number) => {
            push(text, b"\",\"number\":\"")?;
            push(text, number)?;
            push(text, b"\"")
        }
    }
}

// Adds the line of a name.
fn push_named(
    text: &mut Vec<u8>,
    section: &Section<'_>,
    named: &Named<'_>,
    number: u32,
) -> Result<(), AllocError> {
    push_section_keys(text, section)?;
    push(text, b"\",\"name\":\"")?;
    push(text, named.name)?;
    push_meaning(text, &named.meaning)?;
    push_line_key(text, number)
}

// Adds the line of a label.
fn push_label(
    text: &mut Vec<u8>,
    section: &Section<'_>,
    label: &[u8],
    place: u16,
    number: u32,
) -> Result<(), AllocError> {
    push_section_keys(text, section)?;
    push(text, b"\",\"label\":\"")?;
    push(text, label)?;
    push_key(text, b"\",\"place\":", place as i32)?;
    push_line_key(text, number)
}

// Adds the line of what a line of a section declares, or of its label, if it has one.
fn push_entry(
    text: &mut Vec<u8>,
    section: &Section<'_>,
    source: &Source<'_>,
    declared: &mut Declared,
    line: &[u8],
    number: u32,
) -> Result<(), AllocError> {
    if let Some(named) = named_in(declared, line) {
        return push_named(text, section, &named, number);
    }
    match label_in(line) {
        Some(label) => push_label(text, section, label, place_of(source, number), number),
        None => Ok(()),
    }
}

// Adds the lines of a section.
fn push_section(
    text: &mut Vec<u8>,
    section: &Section<'_>,
    source: &Source<'_>,
) -> Result<(), AllocError> {
    let mut declared = Declared::none();
    for line in &section.lines {
        push_entry(
            text,
            section,
            source,
            &mut declared,
            line.draft,
            line.number,
        )?;
    }
    Ok(())
}

/// Returns the names and labels of a draft's sections as JSON Lines, for each section in order and each of its lines
/// in order: of a name of bytes its register, offset and size, of a name of a number the number as it was written, of
/// a label its place. `sources` are the sections with their code, in the same order.
///
/// # Errors
///
/// Returns `AllocError` if out of memory.
pub fn names_of(
    alloc: Global,
    sections: &[Section<'_>],
    sources: &[Source<'_>],
) -> Result<Vec<u8>, AllocError> {
    let mut text = Vec::new(alloc);
    for i in 0..sections.len().min(sources.len()) {
        push_section(&mut text, &sections[i], &sources[i])?;
    }
    Ok(text)
}

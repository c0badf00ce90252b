// What a draft is warned of, section by section.
ghost use Rattle.std.specs.Prelude.{◌≡◌, OnOk};
ghost use Rattle.desk_explain.specs.Explained.{causes};

use crate::entry::{Entry, warn};
use crate::lines::line_numbered;
use crate::part::{Part, field_or_first, label_part, operand_at, word_part};
use crate::reach::{Reach, reach_of};
use crate::refusals::Refused;
use crate::uses::Uses;
use crate::verdicts::MOST_CODE;
use crate::warning::Warning;
use desk_draft::{CodeLine, Section, Source, SourceLine};
use desk_names::{Declared, Meaning, label_in, named_in};
use mc_check::always_abends;
use mc_isa::decode;
use mc_text::{cut, decimal_number};
use std::alloc::{AllocError, Global};
use std::collections::BTreeMap;

// The sizes of the names of bytes of a section.
type Sizes<'a> = BTreeMap<&'a [u8], u16>;

// The size of a name of bytes of the command's header.
fn header_size(name: &[u8]) -> Option<u16> {
    match name {
        b"CLA" | b"INS" | b"P1" | b"P2" | b"P3" => Some(1),
        b"Lc" | b"Le" | b"La" | b"SW" => Some(2),
        _ => None,
    }
}

// The size of a name of bytes.
fn size_of<'a>(sizes: &Sizes<'a>, name: &'a [u8]) -> Option<u16> {
    match sizes.get(&name).copied() {
        Some(size) => Some(size),
        None => header_size(name),
    }
}

// Whether the word at an operand that is a name is not all of the name's bytes, or not among them.
fn misses_word<'a>(sizes: &Sizes<'a>, operand: &'a [u8]) -> bool {
    let (name, places) = cut(operand, b'+');
    let Some(size) = size_of(sizes, name) else {
        return false;
    };
    match places {
        None => size != 2,
        Some(places) => match decimal_number(places) {
            Some(count) => count.saturating_add(2) > size as u64,
            None => false,
        },
    }
}

// Whether an instruction takes a word at its first operand.
fn takes_word(word: &[u8]) -> bool {
    matches!(word, b"SETW" | b"CMPW" | b"ADDW" | b"SUBW")
}

// The operand of a line with a name of bytes that is no word, though its instruction takes one.
fn missed_word<'a>(sizes: &Sizes<'a>, line: &'a [u8]) -> Option<Part<'a>> {
    if !takes_word(word_part(line).text) {
        return None;
    }
    let part = operand_at(line, 0)?;
    if misses_word(sizes, part.text) {
        Some(part)
    } else {
        None
    }
}

// Warns of an instruction that takes a word at a name of another size.
fn warn_of_word<'a>(
    alloc: Global,
    entries: &mut Vec<Entry>,
    sizes: &Sizes<'a>,
    line: &SourceLine<'a>,
) -> Result<(), AllocError>
    ensures { OnOk result (causes entries.new.items ≡ causes entries.old.items) }
{
    match missed_word(sizes, line.draft) {
        Some(part) => warn(
            alloc,
            entries,
            line.number,
            line.draft,
            part,
            Warning::WordSize,
        ),
        None => Ok(()),
    }
}

// Warns of a name that nothing uses.
fn warn_of_name<'a>(
    alloc: Global,
    entries: &mut Vec<Entry>,
    uses: &Uses<'a>,
    line: &SourceLine<'a>,
    name: &'a [u8],
) -> Result<(), AllocError>
    ensures { OnOk result (causes entries.new.items ≡ causes entries.old.items) }
{
    if uses.has_name(name) {
        return Ok(());
    }
    let part = field_or_first(line.draft, 1);
    warn(
        alloc,
        entries,
        line.number,
        line.draft,
        part,
        Warning::UnusedName,
    )
}

// Warns of a label that nothing goes to.
fn warn_of_label<'a>(
    alloc: Global,
    entries: &mut Vec<Entry>,
    uses: &Uses<'a>,
    line: &SourceLine<'a>,
) -> Result<(), AllocError>
    ensures { OnOk result (causes entries.new.items ≡ causes entries.old.items) }
{
    let Some(label) = label_in(line.draft) else {
        return Ok(());
    };
    if uses.has_label(label) {
        return Ok(());
    }
    match label_part(line.draft) {
        Some(part) => warn(
            alloc,
            entries,
            line.number,
            line.draft,
            part,
            Warning::UnusedLabel,
        ),
        None => Ok(()),
    }
}

// Keeps the size of a name of bytes.
fn keep_size<'a>(
    sizes: &mut Sizes<'a>,
    name: &'a [u8],
    meaning: Meaning<'a>,
) -> Result<(), AllocError> {
    if let Meaning::Bytes { size, .. } = meaning {
        sizes.insert(name, size)?;
    }
    Ok(())
}

// Warns of a line of a section: of the name that it declares, or of its label and its instruction.
fn warn_of_line<'a>(
    alloc: Global,
    entries: &mut Vec<Entry>,
    uses: &Uses<'a>,
    declared: &mut Declared,
    sizes: &mut Sizes<'a>,
    line: &SourceLine<'a>,
) -> Result<(), AllocError>
    ensures { OnOk result (causes entries.new.items ≡ causes entries.old.items) }
{
    if let Some(named) = named_in(declared, line.draft) {
        keep_size(sizes, named.name, named.meaning)?;
        return warn_of_name(alloc, entries, uses, line, named.name);
    }
    warn_of_label(alloc, entries, uses, line)?;
    warn_of_word(alloc, entries, sizes, line)
}

// Whether the code of a line always abends.
fn abends(code: &[u8], line: &CodeLine<'_>) -> bool {
    if code.len() > MOST_CODE {
        return false;
    }
    match decode(code, line.place) {
        Ok((ins, _)) => always_abends(ins),
        Err(_) => false,
    }
}

// Warns of instructions that always abend.
fn warn_of_abends(
    alloc: Global,
    entries: &mut Vec<Entry>,
    lines: &[&[u8]],
    source: &Source<'_>,
) -> Result<(), AllocError>
    ensures { OnOk result (causes entries.new.items ≡ causes entries.old.items) }
{
    for line in &source.lines {
        if abends(source.code.as_slice(), line) {
            let text = line_numbered(lines, line.number);
            warn(
                alloc,
                entries,
                line.number,
                text,
                word_part(text),
                Warning::Abends,
            )?;
        }
    }
    Ok(())
}

// Warns of code that nothing reaches, at the first line of each stretch.
fn warn_of_stretches(
    alloc: Global,
    entries: &mut Vec<Entry>,
    lines: &[&[u8]],
    source: &Source<'_>,
    reach: &Reach,
) -> Result<(), AllocError>
    ensures { OnOk result (causes entries.new.items ≡ causes entries.old.items) }
{
    let mut reached = true;
    for line in &source.lines {
        let now = reach.has(line.place);
        if reached && !now {
            let text = line_numbered(lines, line.number);
            warn(
                alloc,
                entries,
                line.number,
                text,
                word_part(text),
                Warning::Unreached,
            )?;
        }
        reached = now;
    }
    Ok(())
}

// Whether a line of a section is refused.
fn has_refusal(section: &Section<'_>, refusals: &[Refused]) -> bool {
    let (Some(first), Some(last)) = (section.lines.first(), section.lines.last()) else {
        return false;
    };
    for refused in refusals {
        if first.number <= refused.number && refused.number <= last.number {
            return true;
        }
    }
    false
}

// Warns of code that nothing reaches, if it is known to which places the code goes.
fn warn_of_reach(
    alloc: Global,
    entries: &mut Vec<Entry>,
    lines: &[&[u8]],
    source: &Source<'_>,
) -> Result<(), AllocError>
    ensures { OnOk result (causes entries.new.items ≡ causes entries.old.items) }
{
    if source.code.len() > MOST_CODE {
        return Ok(());
    }
    let reach = reach_of(alloc, source.code.as_slice())?;
    if reach.anywhere {
        return Ok(());
    }
    warn_of_stretches(alloc, entries, lines, source, &reach)
}

/// Adds the warnings of a section. `lines` are those of the draft, of which some may be refused: in such a section
/// nothing is said of code that nothing reaches.
///
/// # Errors
///
/// Returns `AllocError` if out of memory.
pub fn warn_of_section<'a>(
    alloc: Global,
    entries: &mut Vec<Entry>,
    lines: &[&'a [u8]],
    section: &Section<'a>,
    source: &Source<'a>,
    uses: &Uses<'a>,
    refusals: &[Refused],
) -> Result<(), AllocError>
    ensures { OnOk result (causes entries.new.items ≡ causes entries.old.items) }
{
    let mut declared = Declared::none();
    let mut sizes: Sizes<'a> = BTreeMap::new(alloc);
    for line in &section.lines {
        warn_of_line(alloc, entries, uses, &mut declared, &mut sizes, line)?;
    }
    warn_of_abends(alloc, entries, lines, source)?;
    if has_refusal(section, refusals) {
        return Ok(());
    }
    warn_of_reach(alloc, entries, lines, source)
}

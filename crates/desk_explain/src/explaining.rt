// All that is wrong with a draft.
ghost use Rattle.std.specs.Prelude.{◌≡◌, ◌++◌, [], ℕ, List, codes, decimal, true, IfOk, OnOk};
ghost use Rattle.std.specs.List.Sorted.{IsNonDecreasingBy, IsPermutation};
ghost use Rattle.mc_deck.specs.model_play.specs.Words.{deck_word};
ghost use Rattle.desk_draft.specs.Listings.{desk_read};
ghost use Rattle.desk_draft.specs.Loads.{desk_value};
ghost use Rattle.desk_explain.specs.Explained.{causes, entry_lines, explained_line, Explains, ExplainsRead, ExplainsRefused, JudgesCodes, ShowsEntries};

use crate::entry::{Entry, entry_of};
use crate::kind::{Kind, kind_in_section};
use crate::lines::{line_numbered, lines_of};
use crate::part::Part;
use crate::place::part_of;
use crate::refusals::{Reading, Refused, read_all};
use crate::rule::rule_part;
use crate::sentence::refusal_sentence;
use crate::uses::Uses;
use crate::verdicts::judge_codes;
use crate::warnings::warn_of_section;
use desk_draft::{Desk, Section, Source, read_desk, read_draft};
use mc_deck::{DeckCause, DeckRefusal};
use mc_text::{push, push_decimal};
use std::alloc::{AllocError, Global};

/// What is explained of a draft, and whether it passes: nothing of it is refused, though it may be warned of something.
#[derive(Drop)]
pub struct Explained {
    pub text: Vec<u8>,
    pub passes: bool,
}

// Adds the place of a line, as `NAME:LINE:COLUMN: `.
fn push_place(text: &mut Vec<u8>, name: &[u8], number: u32, column: u32) -> Result<(), AllocError>
    ensures { OnOk result (text.new.items ≡ text.old.items
        ++ (name.now ++ codes ":" ++ decimal number ++ codes ":" ++ decimal column ++ codes ": ")) }
{
    push(text, name)?;
    push(text, b":")?;
    push_decimal(text, number as usize)?;
    push(text, b":")?;
    push_decimal(text, column as usize)?;
    push(text, b": ")
}

// Adds a line.
fn push_line(text: &mut Vec<u8>, name: &[u8], entry: &Entry) -> Result<(), AllocError>
    ensures { OnOk result (text.new.items ≡ text.old.items ++ explained_line name.now entry.now.number entry.now.column
        entry.now.word.now entry.now.text.items) }
{
    push_place(text, name, entry.number, entry.column)?;
    push(text, entry.word.as_bytes())?;
    push(text, b": ")?;
    push(text, entry.text.as_slice())?;
    push(text, b"\n")
}

// The part of a refused line that its cause is about.
fn refused_part<'a>(lines: &[&'a [u8]], refused: Refused) -> Part<'a> {
    if refused.kind == Kind::Rule {
        return rule_part(lines, refused.number, refused.cause);
    }
    part_of(
        line_numbered(lines, refused.number),
        refused.kind,
        refused.cause,
    )
}

// The entry of a line that is refused.
fn refusal_entry(alloc: Global, lines: &[&[u8]], refused: Refused) -> Result<Entry, AllocError>
    ensures number { IfOk result (λ e. e.number ≡ refused.number) }
    ensures word { IfOk result (λ e. e.word.now ≡ deck_word refused.cause) }
{
    let line = line_numbered(lines, refused.number);
    let part = refused_part(lines, refused);
    let sentence = refusal_sentence(refused.kind, refused.cause);
    entry_of(
        alloc,
        refused.number,
        line,
        part,
        refused.cause.word(),
        sentence,
    )
}

// Adds the entries of refusals but the first.
fn add_later(
    alloc: Global,
    entries: &mut Vec<Entry>,
    lines: &[&[u8]],
    refusals: &[Refused],
) -> Result<(), AllocError> {
    for (index, refused) in refusals.iter().enumerate() {
        if index > 0 {
            entries.push(refusal_entry(alloc, lines, *refused)?)?;
        }
    }
    Ok(())
}

// The uses of a section: of its lines in the draft, and of all rules.
fn uses_of<'a>(
    alloc: Global,
    lines: &[&'a [u8]],
    section: &Section<'a>,
) -> Result<Uses<'a>, AllocError> {
    let mut uses = Uses::none(alloc);
    for line in &section.lines {
        let text = line_numbered(lines, line.number);
        uses.take_line(kind_in_section(text), text)?;
    }
    for line in lines {
        uses.take_rule(line)?;
    }
    Ok(uses)
}

// Adds the warnings of all sections.
fn warn_of_sections<'a>(
    alloc: Global,
    entries: &mut Vec<Entry>,
    lines: &[&'a [u8]],
    sections: &[Section<'a>],
    sources: &[Source<'a>],
    refusals: &[Refused],
) -> Result<(), AllocError>
    ensures { OnOk result (causes entries.new.items ≡ causes entries.old.items) }
{
    for i in 0..sections.len().min(sources.len()) {
        let uses = uses_of(alloc, lines, &sections[i])?;
        warn_of_section(
            alloc,
            entries,
            lines,
            &sections[i],
            &sources[i],
            &uses,
            refusals,
        )?;
    }
    Ok(())
}

// Adds the warnings of a text, nothing if it is no draft.
fn warn_of_draft<'a>(
    alloc: Global,
    entries: &mut Vec<Entry>,
    lines: &[&'a [u8]],
    text: &'a [u8],
    sources: &[Source<'a>],
    refusals: &[Refused],
) -> Result<(), AllocError>
    ensures { OnOk result (causes entries.new.items ≡ causes entries.old.items) }
{
    match read_draft(alloc, text) {
        Ok(draft) => {
            let sections = draft.sections.as_slice();
            warn_of_sections(alloc, entries, lines, sections, sources, refusals)
        }
        Err(DeckRefusal::At(..)) => Ok(()),
        Err(DeckRefusal::NoMemory) => Err(AllocError),
    }
}

// Adds what is said of a text that is read, which is a draft or what is left of it without its refused lines: its
// refused code, and what it is warned of. Returns whether all its code is accepted.
fn judge_desk<'a>(
    alloc: Global,
    entries: &mut Vec<Entry>,
    draft: &'a [u8],
    text: &'a [u8],
    desk: &Desk<'a>,
    refusals: &[Refused],
) -> Result<bool, AllocError>
    ensures { IfOk result (λ passes. JudgesCodes (desk_value desk.now) desk.now.deck
        (true, causes entries.old.items) (passes, causes entries.new.items)) }
{
    let lines = lines_of(alloc, draft)?;
    let passes = judge_codes(alloc, entries, lines.as_slice(), desk)?;
    let sources = desk.sources.as_slice();
    warn_of_draft(alloc, entries, lines.as_slice(), text, sources, refusals)?;
    Ok(passes)
}

// Adds what is said of what is left of a draft without its refused lines, nothing if it is not read.
fn judge_rest(
    alloc: Global,
    entries: &mut Vec<Entry>,
    draft: &[u8],
    reading: &Reading,
) -> Result<(), AllocError> {
    let text = reading.text.as_slice();
    match read_desk(alloc, text) {
        Ok(desk) => {
            let refusals = reading.refusals.as_slice();
            judge_desk(alloc, entries, draft, text, &desk, refusals)?;
            Ok(())
        }
        Err(DeckRefusal::At(..)) => Ok(()),
        Err(DeckRefusal::NoMemory) => Err(AllocError),
    }
}

// Adds the lines of entries.
fn push_entries(text: &mut Vec<u8>, name: &[u8], entries: &[Entry]) -> Result<(), AllocError>
    ensures { OnOk result (text.new.items ≡ text.old.items ++ entry_lines name.now entries.now) }
{
    for entry in entries {
        push_line(text, name, entry)?;
    }
    Ok(())
}

// Sorts entries by the numbers of their lines.
fn sort_entries(entries: &mut Vec<Entry>) -> Result<(), AllocError>
    ensures same { IsPermutation entries.old.items entries.new.items }
    ensures order { OnOk result (IsNonDecreasingBy (λ (e : Entry). e.number) entries.new.items) }
{
    entries.sort_by_key(|entry| entry.number)?;
    Ok(())
}

// Adds the lines of entries in the order of their numbers.
fn push_sorted(text: &mut Vec<u8>, name: &[u8], entries: Vec<Entry>) -> Result<(), AllocError>
    ensures { OnOk result ((rest : List ℕ) × (text.new.items ≡ text.old.items ++ rest)
        × ShowsEntries name.now entries.items rest) }
{
    let mut entries = entries;
    sort_entries(&mut entries)?;
    push_entries(text, name, entries.as_slice())
}

// What is explained of a draft that is read.
fn explain_read<'a>(
    alloc: Global,
    name: &[u8],
    draft: &'a [u8],
    desk: &Desk<'a>,
) -> Result<Explained, AllocError>
    ensures { IfOk result (λ e. ExplainsRead name.now (desk_value desk.now) e.passes e.text.items) }
{
    let mut entries = Vec::new(alloc);
    let passes = judge_desk(alloc, &mut entries, draft, draft, desk, &[])?;
    let mut text = Vec::new(alloc);
    push_sorted(&mut text, name, entries)?;
    Ok(Explained { text, passes })
}

// The entries of a draft after its first refusal.
fn later_entries(alloc: Global, draft: &[u8], reading: &Reading) -> Result<Vec<Entry>, AllocError> {
    let mut entries = Vec::new(alloc);
    let lines = lines_of(alloc, draft)?;
    let refusals = reading.refusals.as_slice();
    add_later(alloc, &mut entries, lines.as_slice(), refusals)?;
    if reading.is_read {
        judge_rest(alloc, &mut entries, draft, reading)?;
    }
    Ok(entries)
}

// The kind of the line that is refused first.
fn kind_of_first(reading: &Reading) -> Kind {
    match reading.refusals.first() {
        Some(refused) => refused.kind,
        None => Kind::Statement,
    }
}

// The text of a draft that is refused first at a line for a cause.
fn refused_text(
    alloc: Global,
    name: &[u8],
    draft: &[u8],
    number: u32,
    cause: DeckCause,
) -> Result<Vec<u8>, AllocError>
    ensures { IfOk result (λ t. ExplainsRefused name.now (number, cause) t.items) }
{
    let lines = lines_of(alloc, draft)?;
    let reading = read_all(alloc, draft, number, cause)?;
    let mut text = Vec::new(alloc);
    let kind = kind_of_first(&reading);
    let first = refusal_entry(
        alloc,
        lines.as_slice(),
        Refused {
            number,
            kind,
            cause,
        },
    )?;
    push_line(&mut text, name, &first)?;
    push_sorted(&mut text, name, later_entries(alloc, draft, &reading)?)?;
    Ok(text)
}

/// Returns all that is wrong with a draft, as lines `NAME:LINE:COLUMN: CAUSE: TEXT`. If the draft is refused, the first
/// line is that of its first refusal; the rest are in the order of their lines, and `warning` is the cause of what
/// refuses nothing. Of a draft that is read, the lines of other causes are those of the code that the stack checker
/// refuses.
///
/// # Errors
///
/// Returns `AllocError` if out of memory.
#[tactic(auto, using(crate::proofs::ExplainLemmas::explained_read, crate::proofs::ExplainLemmas::explained_refused))]
pub fn explain(alloc: Global, name: &[u8], draft: &[u8]) -> Result<Explained, AllocError>
    ensures { IfOk result (λ e. Explains name.now (desk_read draft.now) e.passes e.text.items) }
{
    match read_desk(alloc, draft) {
        Ok(desk) => explain_read(alloc, name, draft, &desk),
        Err(DeckRefusal::At(number, cause)) => Ok(Explained {
            text: refused_text(alloc, name, draft, number, cause)?,
            passes: false,
        }),
        Err(DeckRefusal::NoMemory) => Err(AllocError),
    }
}

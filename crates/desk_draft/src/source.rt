// The code of the sections of a draft, line by line.
ghost use Rattle.std.specs.Prelude.{◌≡◌, ◌++◌, ◌∷◌, [], drop, length, map, take, IfOk, OnOk, option_map};
ghost use Rattle.mc_text.specs.model_text.specs.Assembly.{assembled_lines};
ghost use Rattle.mc_deck.specs.model_play.specs.DeckGrammar.{section_program};
ghost use Rattle.mc_asm.specs.Passes.{numbered_lines};
ghost use Rattle.desk_draft.specs.Listings.{has_byte_at, source_of};
ghost use Rattle.desk_draft.specs.Sources.{code_line_value, line_size, one_span, size_in_section, source_value, sources_value, span_of, spans_from, Assembles};
ghost use Rattle.desk_draft.specs.Views.{loadable_of};
ghost use Rattle.desk_draft.specs.Written.{line_value, section_value};

use crate::draft::{Section, SourceLine};
use crate::part::without_comment;
use crate::statement::Sizes;
use mc_asm::{AsmRefusal, NumberedLine, assemble_lines, size_of_line};
use mc_deck::has_data;
use mc_text::trim;
use std::alloc::{AllocError, Global};

/// A line of a section that has code: its number, the place of its code in that of the section, the number of its
/// bytes, and its text without its comment and without blanks at both ends.
#[derive(Clone, Copy, Debug, PartialEq, Eq)]
pub struct CodeLine<'a> {
    pub number: u32,
    pub place: u16,
    pub size: u16,
    pub text: &'a [u8],
}

/// A section with its code: its name, what a `load` of it stands for, the code, and the lines that have some of it, in
/// order.
#[derive(Drop)]
pub struct Source<'a> {
    pub name: &'a [u8],
    pub sizes: Sizes<'a>,
    pub code: Vec<u8>,
    pub lines: Vec<CodeLine<'a>>,
}

// The bytes from a place on, as many as there are up to a number.
#[tactic(auto, using(crate::proofs::SourceLemmas::bytes_there))]
fn bytes_at(bytes: &[u8], place: usize, count: usize) -> &[u8]
    ensures { result.now ≡ take count (drop place bytes.now) }
{
    let rest = bytes.split_at(place.min(bytes.len())).1;
    rest.split_at(count.min(rest.len())).0
}

// The text of a line in the deck.
fn deck_text<'d>(deck: &'d [u8], line: &SourceLine<'_>) -> &'d [u8]
    ensures { result.now ≡ (line_value deck.now line.now).deck }
{
    bytes_at(deck, line.start, line.end.saturating_sub(line.start))
}

// Adds a line of a section, if it goes to the assembler.
fn push_program_line<'d>(
    program: &mut Vec<NumberedLine<'d>>,
    number: u32,
    text: &'d [u8],
) -> Result<(), AllocError>
    ensures { OnOk result (numbered_lines program.new.items
        ≡ numbered_lines program.old.items ++ section_program ((number, text.now) ∷ [])) }
{
    if has_data(text) {
        return Ok(());
    }
    program.push(NumberedLine { number, text })?;
    Ok(())
}

// The lines of a section that go to the assembler.
fn program_of<'d>(
    alloc: Global,
    deck: &'d [u8],
    lines: &[SourceLine<'_>],
) -> Result<Vec<NumberedLine<'d>>, AllocError>
    ensures { IfOk result (λ v. numbered_lines v.items
        ≡ section_program (map (λ l. (l.number, l.deck)) (map (line_value deck.now) lines.now))) }
{
    let mut program = Vec::new(alloc);
    for line in lines {
        push_program_line(&mut program, line.number, deck_text(deck, line))?;
    }
    Ok(program)
}

// The code of the lines of a section, or `None` if the assembler refuses it.
fn code_of(
    alloc: Global,
    deck: &[u8],
    lines: &[SourceLine<'_>],
) -> Result<Option<Vec<u8>>, AllocError>
    ensures { IfOk result (λ o. Assembles o
        (assembled_lines (section_program (map (λ l. (l.number, l.deck)) (map (line_value deck.now) lines.now))))) }
{
    let program = program_of(alloc, deck, lines)?;
    match assemble_lines(alloc, program.as_slice()) {
        Ok(code) => Ok(Some(code)),
        Err(AsmRefusal::At(..)) => Ok(None),
        Err(AsmRefusal::NoMemory) => Err(AllocError),
    }
}

// The number of bytes of a line for the assembler, 0 if it refuses the line.
fn line_size(text: &[u8]) -> u16
    ensures { result ≡ line_size text.now }
{
    match size_of_line(text) {
        Ok(size) => size,
        Err(_) => 0,
    }
}

// The number of bytes that a line of a section puts into the code.
fn size_of(text: &[u8]) -> u16
    ensures { result ≡ size_in_section text.now }
{
    if has_data(text) {
        return 0;
    }
    line_size(text)
}

// Adds a line that has code.
fn push_code_line<'a>(
    code_lines: &mut Vec<CodeLine<'a>>,
    line: &SourceLine<'a>,
    place: u16,
    size: u16,
) -> Result<(), AllocError>
    ensures { OnOk result (map span_of code_lines.new.items
        ≡ map span_of code_lines.old.items ++ one_span line.now.number place line.now.draft.now size) }
{
    if size == 0 {
        return Ok(());
    }
    code_lines.push(CodeLine {
        number: line.number,
        place,
        size,
        text: trim(without_comment(line.draft)),
    })?;
    Ok(())
}

// The lines of a section that have code.
fn code_lines<'a>(
    alloc: Global,
    deck: &[u8],
    lines: &[SourceLine<'a>],
) -> Result<Vec<CodeLine<'a>>, AllocError>
    ensures { IfOk result (λ v. map span_of v.items ≡ spans_from 0 (map (line_value deck.now) lines.now)) }
{
    let mut code_lines = Vec::new(alloc);
    let mut place: u16 = 0;
    for line in lines {
        let size = size_of(deck_text(deck, line));
        push_code_line(&mut code_lines, line, place, size)?;
        place = place.saturating_add(size);
    }
    Ok(code_lines)
}

/// Returns a section of a draft that has this deck, with its code; without code if the assembler refuses it.
pub fn source_of<'a>(
    alloc: Global,
    deck: &[u8],
    section: &Section<'a>,
) -> Result<Source<'a>, AllocError>
    ensures { IfOk result (λ s. source_value s ≡ source_of (section_value deck.now section.now)) }
{
    let name = section.name;
    let sizes = section.sizes;
    match code_of(alloc, deck, section.lines.as_slice())? {
        Some(code) => {
            let lines = code_lines(alloc, deck, section.lines.as_slice())?;
            Ok(Source {
                name,
                sizes,
                code,
                lines,
            })
        }
        None => Ok(Source {
            name,
            sizes,
            code: Vec::new(alloc),
            lines: Vec::new(alloc),
        }),
    }
}

/// Returns the sections of a draft with their code, in order.
pub fn sources_of<'a>(
    alloc: Global,
    deck: &[u8],
    sections: &[Section<'a>],
) -> Result<Vec<Source<'a>>, AllocError>
    ensures { IfOk result (λ v. sources_value v.items ≡ map source_of (map (section_value deck.now) sections.now)) }
{
    let mut sources = Vec::new(alloc);
    for section in sections {
        sources.push(source_of(alloc, deck, section)?)?;
    }
    Ok(sources)
}

// Whether the code of a line has the byte at a place.
fn has_place(line: &CodeLine<'_>, code: &[u8], place: u16) -> bool
    ensures { result ≡ has_byte_at (code_line_value code.now line.now) place }
{
    line.place <= place && (place as usize) < line.place as usize + line.bytes(code).len()
}

impl<'a> CodeLine<'a> {
    ghost use Rattle.std.specs.Prelude.{◌≡◌, drop, take};

    /// Returns the bytes of the line in the code of its section.
    pub fn bytes<'c>(&self, code: &'c [u8]) -> &'c [u8]
        ensures { result.now ≡ take self.now.size (drop self.now.place code.now) }
    {
        bytes_at(code, self.place as usize, self.size as usize)
    }
}

impl<'a> Source<'a> {
    ghost use Rattle.std.specs.Prelude.{◌≡◌, option_map};
    ghost use Rattle.desk_draft.specs.Listings.{line_at};
    ghost use Rattle.desk_draft.specs.Sources.{code_line_value, source_value};

    /// Returns the line whose code has the byte at a place, or `None` if none has it.
    pub fn line_at(&self, place: u16) -> Option<CodeLine<'a>>
        ensures { option_map (code_line_value self.now.code.items) result
            ≡ line_at (source_value self.now).lines place }
    {
        for line in &self.lines {
            if has_place(line, self.code.as_slice(), place) {
                return Some(*line);
            }
        }
        None
    }
}

// Sections: an application in assembly, up to its line `end`.
ghost use Rattle.std.specs.Prelude.{◌≡◌, ◌<◌, ◌≤◌, length, vec_len, Ok, Err, IfOk, IfErr, MatchResult};
ghost use Rattle.model_play.specs.model_device.specs.Limits.{most_code};
ghost use Rattle.model_play.specs.model_text.specs.Text.{fields};
ghost use Rattle.model_play.specs.DeckGrammar.{data_hex, data_of_line, is_data, made_unit, section_data, section_program, section_unit};
ghost use Rattle.model_play.specs.model_text.specs.Text.{is_end};
ghost use Rattle.mc_asm.specs.Items.{texts};
ghost use Rattle.mc_asm.specs.Passes.{numbered_lines};
ghost use Rattle.mc_deck.specs.Refused.{Faulty, DeckRefuses};
ghost use Rattle.mc_deck.specs.declared.refusal.DeckRefusal.TheVariants.{NoMemory};
ghost use Rattle.mc_deck.specs.Lines.{owned_parts, GoodUnit};
ghost use Rattle.mc_deck.specs.Sections.{section_code, section_of, unit_judged};

use crate::field::hex_field;
use crate::refusal::{DeckRefusal, Fault};
use crate::text::fields;
use crate::unit::{OwnedUnit, made};
use mc_asm::{AsmRefusal, NumberedLine, assemble_lines};
use mc_words::Aid;
use model_play::DeckCause;
use model_play::model_card::UnitRefusal;
use std::alloc::Global;

/// A section that is open: the number of its first line, its name and AID, and its other lines so far.
#[derive(Drop)]
pub struct Section<'a> {
    pub first: u32,
    pub name: &'a [u8],
    pub aid: Aid,
    pub lines: Vec<NumberedLine<'a>>,
}

// Returns whether the fields are those of the end of a section.
fn is_end(fields: &[&[u8]]) -> bool
    ensures { result ≡ is_end (texts fields.now) }
{
    match fields {
        [word] => *word == b"end".as_slice(),
        _ => false,
    }
}

// Returns whether the fields are those of a DATA line.
fn is_data(fields: &[&[u8]]) -> bool
    ensures { result ≡ is_data (texts fields.now) }
{
    match fields {
        [word, ..] => *word == b"DATA".as_slice(),
        _ => false,
    }
}

/// Returns whether a line ends a section.
#[tactic(auto, using(crate::proofs::SectionLemmas::end_five))]
pub fn ends_section(line: &[u8]) -> bool
    ensures { result ≡ is_end (fields line.now) }
{
    is_end(fields(line).as_slice())
}

/// Returns whether a line of a section is a DATA line.
#[tactic(auto, using(crate::proofs::SectionLemmas::data_five))]
pub fn has_data(line: &[u8]) -> bool
    ensures { result ≡ is_data (fields line.now) }
{
    is_data(fields(line).as_slice())
}

// Returns the bytes of a line `DATA HEX`.
fn data_hex(alloc: Global, fields: &[&[u8]]) -> Result<Vec<u8>, Fault>
    ensures { MatchResult result (λ v. data_hex (texts fields.now) ≡ Ok v.items)
        (λ e. Faulty (data_hex (texts fields.now)) e) }
{
    match fields {
        [_, hex] => hex_field(alloc, hex),
        _ => Err(Fault::Cause(DeckCause::BadLine)),
    }
}

// Returns the data of a line of a section, which is empty for a line that goes to the assembler.
#[tactic(auto, using(crate::proofs::SectionLemmas::data_five, crate::proofs::SectionLemmas::hex_five))]
fn data_of_line(alloc: Global, line: &[u8]) -> Result<Vec<u8>, Fault>
    ensures { MatchResult result (λ v. data_of_line (fields line.now) ≡ Ok v.items)
        (λ e. Faulty (data_of_line (fields line.now)) e) }
{
    let fields = fields(line);
    if !is_data(fields.as_slice()) {
        return Ok(Vec::new(alloc));
    }
    data_hex(alloc, fields.as_slice())
}

// Returns the data of a section.
fn section_data(alloc: Global, lines: &[NumberedLine<'_>]) -> Result<Vec<u8>, DeckRefusal>
    ensures { MatchResult result (λ v. section_data (numbered_lines lines.now) ≡ Ok v.items)
        (λ e. DeckRefuses (section_data (numbered_lines lines.now)) e) }
{
    let mut bytes = Vec::new(alloc);
    for line in lines {
        match data_of_line(alloc, line.text) {
            Ok(more) => bytes.extend_from_slice(more.as_slice())?,
            Err(Fault::Cause(cause)) => return Err(DeckRefusal::At(line.number, cause)),
            Err(Fault::NoMemory) => return Err(DeckRefusal::NoMemory),
        }
    }
    Ok(bytes)
}

// Returns the lines of a section that go to the assembler.
fn section_program<'a>(
    alloc: Global,
    lines: &[NumberedLine<'a>],
) -> Result<Vec<NumberedLine<'a>>, DeckRefusal>
    ensures lines { IfOk result (λ v. numbered_lines v.items ≡ section_program (numbered_lines lines.now)) }
    ensures memory { IfErr result (λ e. e ≡ NoMemory) }
{
    let mut program = Vec::new(alloc);
    for line in lines {
        if !has_data(line.text) {
            if program.push(*line).is_err() {
                return Err(DeckRefusal::NoMemory);
            }
        }
    }
    Ok(program)
}

// Returns the code of the lines of a section.
fn section_code(alloc: Global, lines: &[NumberedLine<'_>]) -> Result<Vec<u8>, DeckRefusal>
    ensures value { MatchResult result (λ v. section_code (numbered_lines lines.now) ≡ Ok v.items)
        (λ e. DeckRefuses (section_code (numbered_lines lines.now)) e) }
    ensures short { IfOk result (λ v. vec_len v ≤ most_code) }
{
    let program = section_program(alloc, lines)?;
    match assemble_lines(alloc, program.as_slice()) {
        Ok(code) => Ok(code),
        Err(AsmRefusal::At(number, cause)) => Err(DeckRefusal::At(number, DeckCause::Asm(cause))),
        Err(AsmRefusal::NoMemory) => Err(DeckRefusal::NoMemory),
    }
}

// Returns the unit of code and data, or its refusal at the line of this number.
#[tactic(auto, using(mc_unit::proofs::Made::made_name))]
fn judged(
    alloc: Global,
    aid: &Aid,
    code: Vec<u8>,
    init: Vec<u8>,
    number: u32,
) -> Result<OwnedUnit, DeckRefusal>
    requires { vec_len code ≤ most_code }
    ensures value { MatchResult result (λ u. unit_judged number (made_unit aid.now code.items init.items)
        ≡ Ok (owned_parts u)) (λ e. DeckRefuses (unit_judged number (made_unit aid.now code.items init.items)) e) }
    ensures good { IfOk result (λ u. GoodUnit (owned_parts u)) }
{
    if code.is_empty() {
        return Err(DeckRefusal::At(number, DeckCause::Unit(UnitRefusal::NoCode)));
    }
    if init.len() > 4096 {
        return Err(DeckRefusal::At(number, DeckCause::Unit(UnitRefusal::TooLarge)));
    }
    Ok(made(alloc, aid, code, init)?)
}

/// Returns the unit of a section that ends at the line of this number.
#[tactic(auto, using(crate::proofs::SectionLemmas::unit_steps))]
pub fn section_unit(
    alloc: Global,
    section: &Section<'_>,
    number: u32,
) -> Result<OwnedUnit, DeckRefusal>
    ensures value { MatchResult result (λ u. section_unit (section_of section.now) number ≡ Ok (owned_parts u))
        (λ e. DeckRefuses (section_unit (section_of section.now) number) e) }
    ensures good { IfOk result (λ u. GoodUnit (owned_parts u)) }
{
    let init = section_data(alloc, section.lines.as_slice())?;
    let code = section_code(alloc, section.lines.as_slice())?;
    judged(alloc, &section.aid, code, init, number)
}

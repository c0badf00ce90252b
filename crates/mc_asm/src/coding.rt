// The second pass, which makes the code, and the whole assembler.
ghost use Rattle.std.specs.Prelude.{◌≡◌, ◌+◌, ◌≤◌, ℕ, pos, ◌-ℤ◌, List, [], ◌∷◌, ◌++◌, length, Some, None, Ok, Err, IfOk, IfErr, MatchResult, OnOk, vec_len};
ghost use Rattle.model_text.specs.model_device.specs.Limits.{most_code};
ghost use Rattle.model_text.specs.Text.{lines, with_numbers};
ghost use Rattle.model_text.specs.Assembly.{bytes_of_item, size, assembly_of, assembled_lines};
ghost use Rattle.mc_asm.specs.Items.{item_of, Ready};
ghost use Rattle.mc_asm.specs.Passes.{AreLabels, AssemblyRefuses, code_and_end, code_of_lines, near, numbered_lines};
ghost use Rattle.mc_asm.specs.declared.refusal.AsmRefusal.TheVariants.{NoMemory};
ghost use Rattle.arrayvec.specs.ArrayVec.{array_vec_len};

use crate::item::Item;
use crate::labels::{Labels, end_of, labels_of, place_of};
use crate::line::{NumberedLine, read_line};
use crate::refusal::AsmRefusal;
use arrayvec::ArrayVec;
use mc_isa::encode;
use mc_text::next_line;
use model_text::AsmCause;
use model_text::model_machine::Ins;
use std::alloc::Global;

// The displacement of a branch at a place: the distance from the place after the branch.
fn distance(to: u16, place: u16) -> Option<i8>
    requires { place ≤ most_code }
    ensures { result ≡ near (pos to -ℤ pos (place + 2)) }
{
    let d = to as i32 - (place as i32 + 2);
    if d < -128 || d > 127 {
        return None;
    }
    Some(d as i8)
}

// The bytes of an item at a place.
fn emitted<'a>(
    item: &Item<'a>,
    place: u16,
    labels: &Labels<'a>,
) -> Result<ArrayVec<u8, 6>, AsmCause>
    requires ready { Ready item.now }
    requires place { place ≤ most_code }
    ensures size { IfOk result (λ v. array_vec_len v ≡ size (item_of item.now)) }
    ensures code { (l : List (List ℕ × ℕ)) → AreLabels labels.now l
        → MatchResult result (λ v. bytes_of_item l place (item_of item.now) ≡ Ok v.items)
        (λ e. bytes_of_item l place (item_of item.now) ≡ Err e) }
{
    match *item {
        Item::Nothing => Ok(ArrayVec::new()),
        Item::Raw(byte) => {
            let mut bytes = ArrayVec::new();
            bytes.push(byte);
            Ok(bytes)
        }
        Item::Plain(ins) => Ok(encode(&ins)),
        Item::ToPlace(name, cond, label) => {
            let Some(to) = place_of(labels, label) else {
                return Err(AsmCause::UnknownLabel);
            };
            Ok(encode(&name.with(cond, to)))
        }
        Item::ToDistance(cond, label) => {
            let Some(to) = place_of(labels, label) else {
                return Err(AsmCause::UnknownLabel);
            };
            let Some(d) = distance(to, place) else {
                return Err(AsmCause::FarBranch);
            };
            Ok(encode(&Ins::Branch { cond, d }))
        }
    }
}

// The code of a line at a place, and the place after the line.
fn code_and_end<'a>(
    line: &'a [u8],
    place: u16,
    labels: &Labels<'a>,
) -> Result<(ArrayVec<u8, 6>, u16), AsmCause>
    requires { place ≤ most_code }
    ensures value { (l : List (List ℕ × ℕ)) → AreLabels labels.now l
        → MatchResult result (λ p. code_and_end l place line.now ≡ Ok (p.0.items, p.1))
        (λ e. code_and_end l place line.now ≡ Err e) }
    ensures size { IfOk result (λ p. p.1 ≡ place + array_vec_len p.0) }
    ensures bound { IfOk result (λ p. p.1 ≤ most_code) }
{
    let line = read_line(line)?;
    let end = end_of(&line.item, place)?;
    Ok((emitted(&line.item, place, labels)?, end))
}

// The code of lines whose labels are known.
fn code_of<'a>(
    alloc: Global,
    lines: &[NumberedLine<'a>],
    labels: &Labels<'a>,
) -> Result<Vec<u8>, AsmRefusal>
    ensures code { (l : List (List ℕ × ℕ)) → AreLabels labels.now l
        → MatchResult result (λ v. code_of_lines l 0 (numbered_lines lines.now) ≡ Ok v.items)
        (λ e. AssemblyRefuses (code_of_lines l 0 (numbered_lines lines.now)) e) }
    ensures short { IfOk result (λ v. vec_len v ≤ most_code) }
{
    let mut code = Vec::new(alloc);
    let mut place = 0;
    for line in lines {
        match code_and_end(line.text, place, labels) {
            Err(cause) => return Err(AsmRefusal::At(line.number, cause)),
            Ok((bytes, end)) => {
                code.extend_from_slice(bytes.as_slice())?;
                place = end;
            }
        }
    }
    Ok(code)
}

/// Returns the code of lines with given numbers.
///
/// # Errors
///
/// Returns the refusals of [`assemble`], with these numbers.
#[tactic(auto, using(crate::proofs::PassLemmas::refuses_first))]
pub fn assemble_lines(alloc: Global, lines: &[NumberedLine<'_>]) -> Result<Vec<u8>, AsmRefusal>
    ensures code { IfOk result (λ v. assembled_lines (numbered_lines lines.now) ≡ Ok v.items) }
    ensures refused { IfErr result (λ e. AssemblyRefuses (assembled_lines (numbered_lines lines.now)) e) }
    ensures short { IfOk result (λ v. vec_len v ≤ most_code) }
{
    let labels = labels_of(alloc, lines)?;
    code_of(alloc, lines, &labels)
}

// Appends a line with its number. A number that does not fit in four bytes, for which a text has to be over
// four thousand million bytes long, counts as out of memory.
#[tactic(auto, using(crate::proofs::PassLemmas::line_more))]
fn push_line<'a>(lines: &mut Vec<NumberedLine<'a>>, text: &'a [u8]) -> Result<(), AsmRefusal>
    ensures pushed { OnOk result (numbered_lines lines.new.items
        ≡ numbered_lines lines.old.items ++ (vec_len lines.old + 1, text.now) ∷ []) }
    ensures len { OnOk result (vec_len lines.new ≡ vec_len lines.old + 1) }
    ensures memory { IfErr result (λ e. e ≡ NoMemory) }
{
    if lines.len() >= u32::MAX as usize {
        return Err(AsmRefusal::NoMemory);
    }
    let number = lines.len() as u32 + 1;
    match lines.push(NumberedLine { number, text }) {
        Ok(()) => Ok(()),
        Err(_) => Err(AsmRefusal::NoMemory),
    }
}

// The lines of a text with their numbers.
fn lines_of(alloc: Global, text: &[u8]) -> Result<Vec<NumberedLine<'_>>, AsmRefusal>
    ensures lines { IfOk result (λ v. numbered_lines v.items ≡ with_numbers 1 (lines text.now)) }
    ensures memory { IfErr result (λ e. e ≡ NoMemory) }
{
    let mut lines = Vec::new(alloc);
    let mut rest = text;
    while let Some((line, behind)) = next_line(rest) {
        push_line(&mut lines, line)?;
        rest = behind;
    }
    Ok(lines)
}

/// Returns the code of an assembly text. A line is `[LABEL:] [WORD [OPERANDS]] [; comment]`, and ends with a
/// line feed, which the last line may lack; the code has at most 8,192 bytes. The words and the forms of
/// their operands are this project's own.
///
/// # Errors
///
/// Returns `At` with the first refused line, counted from 1, and its cause: the first line with a cause of
/// its own, and if there is none, the first whose label is unknown or too far for a branch. Returns
/// `NoMemory` if out of memory.
#[tactic(auto, unfolding(model_text::specs::Assembly::assembly_of))]
pub fn assemble(alloc: Global, text: &[u8]) -> Result<Vec<u8>, AsmRefusal>
    ensures code { IfOk result (λ v. assembly_of text.now ≡ Ok v.items) }
    ensures refused { IfErr result (λ e. AssemblyRefuses (assembly_of text.now) e) }
    ensures short { IfOk result (λ v. vec_len v ≤ most_code) }
{
    let lines = lines_of(alloc, text)?;
    assemble_lines(alloc, lines.as_slice())
}

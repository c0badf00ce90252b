// Labels and their places: the first pass.
ghost use Rattle.std.specs.Prelude.{◌≡◌, ◌+◌, ◌≤◌, ℕ, List, [], length, option_map, Some, None, Ok, Err, IfOk, IfErr, OnOk, MatchResult};
ghost use Rattle.model_text.specs.model_device.specs.Limits.{most_code};
ghost use Rattle.model_text.specs.model_device.specs.Bytes.{lookup};
ghost use Rattle.model_text.specs.Text.{ok_as, only_if};
ghost use Rattle.model_text.specs.Assembly.{is_new, line_laid, line_read, size, with_label};
ghost use Rattle.model_text.specs.declared.assembler.AsmCause.TheVariants.{TooLong};
ghost use Rattle.mc_asm.specs.Items.{item_of, Ready};
ghost use Rattle.mc_asm.specs.declared.refusal.AsmRefusal.TheVariants.{NoMemory};
ghost use Rattle.mc_asm.specs.Passes.{AreLabels, AssemblyRefuses, label_and_end, end_of, numbered_lines, places};

use crate::item::Item;
use crate::line::{NumberedLine, read_line};
use crate::refusal::AsmRefusal;
use mc_isa::encode;
use model_text::AsmCause;
use std::alloc::Global;
use std::collections::BTreeMap;

/// The labels of a text with their places.
pub type Labels<'a> = BTreeMap<&'a [u8], u16>;

/// Returns the place of a label, or `None` if no line has it.
pub fn place_of<'a>(labels: &Labels<'a>, label: &'a [u8]) -> Option<u16>
    ensures { (l : List (List ℕ × ℕ)) → AreLabels labels.now l → result ≡ lookup l label.now }
{
    labels.get(&label).copied()
}

// Whether no line before has the label.
fn is_new<'a>(labels: &Labels<'a>, label: Option<&'a [u8]>) -> bool
    ensures { (l : List (List ℕ × ℕ)) → AreLabels labels.now l
        → result ≡ is_new l (option_map (λ t. t.now) label.entry) }
{
    match label {
        None => true,
        Some(label) => place_of(labels, label).is_none(),
    }
}

// Adds the label of a line, if it has one.
fn put_label<'a>(
    labels: &mut Labels<'a>,
    label: Option<&'a [u8]>,
    place: u16,
) -> Result<(), AsmRefusal>
    ensures put { OnOk result ((l : List (List ℕ × ℕ)) → AreLabels labels.old l
        → AreLabels labels.new (with_label l (option_map (λ t. t.now) label.entry) place)) }
    ensures memory { IfErr result (λ e. e ≡ NoMemory) }
{
    let Some(label) = label else {
        return Ok(());
    };
    match labels.insert(label, place) {
        Ok(_) => Ok(()),
        Err(_) => Err(AsmRefusal::NoMemory),
    }
}

// The number of bytes of an item.
fn size(item: &Item<'_>) -> u16
    requires { Ready item.now }
    ensures value { result ≡ size (item_of item.now) }
    ensures bound { result ≤ 6 }
{
    match item {
        Item::Nothing => 0,
        Item::Raw(_) => 1,
        Item::Plain(ins) => encode(ins).len() as u16,
        Item::ToPlace(..) => 3,
        Item::ToDistance(..) => 2,
    }
}

/// Returns the number of bytes of a line's code, 0 to 6.
///
/// # Errors
///
/// Returns the cause why the line is refused by itself, whatever labels there are.
pub fn size_of_line(line: &[u8]) -> Result<u16, AsmCause>
    ensures value { result ≡ ok_as (λ l. size l.item) (line_read line.now) }
    ensures bound { IfOk result (λ n. n ≤ 6) }
{
    let read = read_line(line)?;
    Ok(size(&read.item))
}

/// Returns the place after an item at a place.
///
/// # Errors
///
/// Returns `TooLong` if it is above 8,192.
pub fn end_of(item: &Item<'_>, place: u16) -> Result<u16, AsmCause>
    requires ready { Ready item.now }
    requires place { place ≤ most_code }
    ensures value { result ≡ end_of (item_of item.now) place }
    ensures bound { IfOk result (λ end. end ≤ most_code) }
{
    let end = place + size(item);
    if end > 8192 {
        return Err(AsmCause::TooLong);
    }
    Ok(end)
}

// A line's label, and the place after the line.
#[tactic(auto, unfolding(model_text::specs::Assembly::line_laid))]
fn label_and_end<'a>(
    line: &'a [u8],
    place: u16,
    labels: &Labels<'a>,
) -> Result<(Option<&'a [u8]>, u16), AsmCause>
    requires { place ≤ most_code }
    ensures value { (l : List (List ℕ × ℕ)) → AreLabels labels.now l
        → ok_as (λ p. (option_map (λ t. t.now) p.0, p.1)) result ≡ label_and_end l place line.now }
    ensures bound { IfOk result (λ p. p.1 ≤ most_code) }
{
    let line = read_line(line)?;
    if !is_new(labels, line.label) {
        return Err(AsmCause::LabelTwice);
    }
    Ok((line.label, end_of(&line.item, place)?))
}

/// Returns the labels of lines.
///
/// # Errors
///
/// Returns the first line with a cause of its own, which is each cause but an unknown label and a far branch,
/// or `NoMemory` if out of memory.
pub fn labels_of<'a>(alloc: Global, lines: &[NumberedLine<'a>]) -> Result<Labels<'a>, AsmRefusal>
    ensures found { IfOk result (λ m. (l : List (List ℕ × ℕ)) × (places [] 0 (numbered_lines lines.now) ≡ Ok l)
        × AreLabels m l) }
    ensures refused { IfErr result (λ e. AssemblyRefuses (places [] 0 (numbered_lines lines.now)) e) }
{
    let mut labels = BTreeMap::new(alloc);
    let mut place = 0;
    for line in lines {
        match label_and_end(line.text, place, &labels) {
            Err(cause) => return Err(AsmRefusal::At(line.number, cause)),
            Ok((label, end)) => {
                put_label(&mut labels, label, place)?;
                place = end;
            }
        }
    }
    Ok(labels)
}

// Facts if besides bytes have values of some sets.
ghost use Rattle.std.specs.Prelude.{◌≡◌, ◌+◌, ◌≤◌, length, cond, Some, IfOk, IfSome};
ghost use Rattle.prove_facts.specs.model_prove.specs.Facts as known;
ghost use Rattle.prove_facts.specs.model_prove.specs.Steps as steps;
ghost use Rattle.prove_facts.specs.Sets.{set_of};
ghost use Rattle.prove_scenes.specs.Works.{digitwise_value, operand_value};
ghost use Rattle.prove_works.specs.Narrowing.{left_if, sets_narrowed};
ghost use Rattle.prove_works.specs.Searches.{sets_of};

use model_device::NoMemory;
use prove_facts::{Facts, Values};
use prove_scenes::{Digitwise, Operand};

/// Narrows what a byte may be to values of a set, and returns whether one is left; if not, the facts stay.
///
/// # Errors
///
/// Returns `NoMemory` if it is out of memory.
pub fn narrow(facts: &mut Facts, at: u16, values: &Values) -> Result<bool, NoMemory>
    ensures { IfOk result (λ left. left_if left facts.new ≡ known.narrow at (set_of values.now) facts.old) }
{
    let both = facts.at(at).and(values);
    if both.is_empty() {
        return Ok(false);
    }
    facts.set(at, both)?;
    Ok(true)
}

// Narrows what bytes from an address on may be to values of some sets, and returns whether each has one left.
fn narrow_all(facts: &mut Facts, at: u16, list: &[Values]) -> Result<bool, NoMemory>
    requires { at + length list.now ≤ 65536 }
    ensures { IfOk result (λ left. left_if left facts.new ≡
        known.narrow_all at (sets_of list.now) (Some facts.old)) }
{
    for (index, values) in list.iter().enumerate() {
        if !narrow(facts, at + index as u16, values)? {
            return Ok(false);
        }
    }
    Ok(true)
}

// Narrows what bytes from an address on may be to values of some sets, and returns whether each has one left. It
// gives up if they go past the last address.
fn narrow_at(facts: &mut Facts, at: u16, list: &[Values]) -> Result<Option<bool>, NoMemory>
    ensures { IfOk result (λ found. IfSome found (λ left. left_if left facts.new ≡
        known.narrow_all at (sets_of list.now) (Some facts.old))) }
{
    if list.len() > 65536 - at as usize {
        return Ok(None);
    }
    Ok(Some(narrow_all(facts, at, list)?))
}

// Narrows what the bytes of a second operand may be, if it is at an address.
fn second_narrowed(
    facts: &mut Facts,
    operand: &Operand,
    list: &[Values],
) -> Result<Option<bool>, NoMemory>
    ensures { IfOk result (λ found. IfSome found (λ left. left_if left facts.new ≡
        steps.operand_narrowed (operand_value operand.now) (sets_of list.now) (Some facts.old))) }
{
    match operand {
        Operand::AtAddress(at) => narrow_at(facts, *at, list),
        Operand::These(_) => Ok(Some(true)),
    }
}

// Narrows what the bytes of the first operand may be, if values are left of the second and the result is not written.
fn first_narrowed(
    facts: &mut Facts,
    is_left: bool,
    written: bool,
    at: u16,
    list: &[Values],
) -> Result<Option<bool>, NoMemory>
    ensures { IfOk result (λ found. IfSome found (λ left. left_if left facts.new ≡
        cond written (left_if is_left facts.old)
        (known.narrow_all at (sets_of list.now) (left_if is_left facts.old)))) }
{
    if written || !is_left {
        return Ok(Some(is_left));
    }
    narrow_at(facts, at, list)
}

/// Narrows what the bytes of an operation's operands may be to those of a way, the first only if the result is not
/// written there, and returns whether each has a value left. It gives up if they go past the last address.
///
/// # Errors
///
/// Returns `NoMemory` if it is out of memory.
pub fn operands_narrowed(
    facts: &mut Facts,
    digitwise: &Digitwise,
    xs: &[Values],
    ys: &[Values],
) -> Result<Option<bool>, NoMemory>
    ensures { IfOk result (λ found. IfSome found (λ left. left_if left facts.new ≡
        sets_narrowed (digitwise_value digitwise.now) (sets_of xs.now) (sets_of ys.now) facts.old)) }
{
    match second_narrowed(facts, &digitwise.operand, ys)? {
        Some(is_left) => first_narrowed(facts, is_left, digitwise.written, digitwise.at, xs),
        None => Ok(None),
    }
}

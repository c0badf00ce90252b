// The second operand of an operation, and what the last compare has to do with it.
ghost use Rattle.std.specs.Prelude.{◌≡◌, ◌||◌, not, Some, IfSome, IfOk};
ghost use Rattle.model_device.specs.Bytes.{num};
ghost use Rattle.prove_facts.specs.model_prove.specs.Compares as compares;
ghost use Rattle.prove_facts.specs.model_prove.specs.Steps as steps;
ghost use Rattle.prove_keys.specs.Compares.{said};
ghost use Rattle.prove_scenes.specs.Works.{operation_value, digitwise_value, operand_value};
ghost use Rattle.prove_works.specs.Numbers.{flags_of};
ghost use Rattle.prove_works.specs.Searches.{sets_of};

use crate::numbers::{MOST, compare_left, is_ordered, span_of};
use model_device::NoMemory;
use prove_facts::{Facts, Values};
use prove_keys::LastSaid;
use prove_scenes::{Digitwise, Operand, Operation};
use prove_spots::{only_values, values_from};
use std::alloc::Global;

/// Returns what the bytes of a second operand may be, or `None` if they go past the last address.
///
/// # Errors
///
/// Returns `NoMemory` if it is out of memory.
pub fn operand_values(
    alloc: Global,
    facts: &Facts,
    operand: &Operand,
    n: u16,
) -> Result<Option<Vec<Values>>, NoMemory>
    ensures { IfOk result (λ found. IfSome found (λ list.
        sets_of list.items ≡ steps.operand_sets facts.now (operand_value operand.now) n)) }
{
    match operand {
        Operand::AtAddress(at) => values_from(alloc, facts, *at as u32, n),
        Operand::These(bytes) => Ok(Some(only_values(alloc, bytes.as_slice())?)),
    }
}

/// Returns whether a last compare allows that an operation ends with these flags. It gives up, if that depends on
/// numbers of more than 16 bytes.
pub fn allows(last: &LastSaid, digitwise: &Digitwise, c: bool, z: bool) -> Option<bool>
    ensures { IfSome result (λ allowed. allowed ≡ steps.allows (said last.now) (digitwise_value digitwise.now)
        (operand_value digitwise.now.operand) (flags_of c z)) }
{
    match &digitwise.operand {
        Operand::These(bytes) => allows_constant(last, digitwise, bytes.as_slice(), c, z),
        Operand::AtAddress(other) => Some(allows_blocks(last, digitwise, *other, c, z)),
    }
}

// Whether a last compare allows that an operation with a constant ends with these flags.
fn allows_constant(
    last: &LastSaid,
    digitwise: &Digitwise,
    bytes: &[u8],
    c: bool,
    z: bool,
) -> Option<bool>
    ensures { IfSome result (λ allowed. allowed ≡ (not (steps.is_ordered (digitwise_value digitwise.now))
        || compares.allows_span (said last.now) digitwise.now.at digitwise.now.n
        (steps.span_of (operation_value digitwise.now.op) digitwise.now.n (num bytes.now) (flags_of c z)))) }
{
    if !is_ordered(digitwise) {
        return Some(true);
    }
    allows_number(last, digitwise.op, digitwise.at, digitwise.n, bytes, c, z)
}

// Whether a last compare allows that an addition, a subtraction or a test with a constant ends with these flags.
fn allows_number(
    last: &LastSaid,
    op: Operation,
    at: u16,
    n: u16,
    bytes: &[u8],
    c: bool,
    z: bool,
) -> Option<bool>
    ensures { IfSome result (λ allowed. allowed ≡ compares.allows_span (said last.now) at n
        (steps.span_of (operation_value op) n (num bytes.now) (flags_of c z))) }
{
    if !last.speaks_of(at, n) {
        return Some(true);
    }
    if n > MOST || bytes.len() != n as usize {
        return None;
    }
    let (low, high) = span_of(op, bytes, c, z)?;
    last.allows_span(at, n, low, high)
}

// Whether a last compare allows that an operation on two blocks ends with these flags.
fn allows_blocks(last: &LastSaid, digitwise: &Digitwise, other: u16, c: bool, z: bool) -> bool
    ensures { result ≡ steps.allows_subtraction (said last.now) (digitwise_value digitwise.now) other (flags_of c z)
        (operation_value digitwise.now.op) }
{
    match digitwise.op {
        Operation::Minus => last.allows_orders(
            digitwise.at,
            digitwise.n,
            other,
            c,
            !c && z,
            !c && !z,
        ),
        _ => true,
    }
}

/// Returns the last compare after an operation that writes nothing: that of a comparison or a test, else the one
/// before. It gives up on numbers of more than 16 bytes, unless a test says whether they are zero.
pub fn last_after(last: &LastSaid, digitwise: &Digitwise, c: bool, z: bool) -> Option<LastSaid>
    ensures { IfSome result (λ after. said after
        ≡ steps.compare_after (digitwise_value digitwise.now) (flags_of c z) (said last.now)) }
{
    if is_ordered(digitwise) {
        return compare_left(digitwise, c, z);
    }
    Some(*last)
}

// Bit manipulations and shifts of the top of the stack.
use crate::compute::{Computation, compute};
use crate::shared::{any_bytes, top, with_flags};
use crate::splitting::split;
use crate::state::{Byte, Sizes, State, known_byte};
use crate::step::{Step, abend};
use model_device::NoMemory;
use prove_digits::Digit;
use prove_facts::{mask, push};
use std::alloc::Global;

type Grown = Result<(), NoMemory>;

// Each pair of flags, as the lowest bits of a number.
const FLAGS: [u8; 4] = [0, 1, 2, 3];

/// The outcomes of a bit manipulation.
///
/// # Errors
///
/// Returns `NoMemory` if it is out of memory.
pub fn bits(
    alloc: Global,
    sizes: &Sizes<'_>,
    state: &State,
    op: u8,
    mask: u16,
    n: u16,
    out: &mut Vec<Step>,
) -> Grown {
    if op > 3 {
        return abend(6, out);
    }
    if state.is_under(sizes, n) {
        return abend(4, out);
    }
    let (digit, constant) = match op {
        0 => (Digit::And, !mask),
        1 => (Digit::Or, mask),
        2 => (Digit::Xor, mask),
        _ => (Digit::And, mask),
    };
    let first = state.registers.dt.saturating_sub(n);
    let made = Computation {
        digit,
        first,
        n,
        second: None,
        constant: constant as u128,
        writes: op != 3,
        carries: false,
    };
    compute(alloc, sizes, state, Some(first), &made, out)
}

fn is_shift(n: u8, b: u8) -> bool {
    n >= 1 && n <= 16 && b >= 1 && (b as u16) < 8 * n as u16
}

/// The outcomes of a shift.
///
/// # Errors
///
/// Returns `NoMemory` if it is out of memory.
pub fn shift(
    alloc: Global,
    sizes: &Sizes<'_>,
    state: &State,
    left: bool,
    n: u8,
    b: u8,
    out: &mut Vec<Step>,
) -> Grown {
    if !is_shift(n, b) {
        return abend(6, out);
    }
    if state.is_under(sizes, n as u16) {
        return abend(4, out);
    }
    let sets = top(alloc, state, n as u16)?;
    match split(alloc, sets.as_slice())? {
        None => shift_any(alloc, sizes, state, n as u16, out),
        Some(rows) => shift_each(alloc, sizes, state, left, n, rows.as_slice(), b, out),
    }
}

// Each combination of n bytes by itself.
fn shift_each(
    alloc: Global,
    sizes: &Sizes<'_>,
    state: &State,
    left: bool,
    n: u8,
    rows: &[u8],
    b: u8,
    out: &mut Vec<Step>,
) -> Grown {
    for row in rows.chunks((n as usize).max(1)) {
        shift_one(alloc, sizes, state, left, row, b, out)?;
    }
    Ok(())
}

fn shift_any(
    alloc: Global,
    sizes: &Sizes<'_>,
    state: &State,
    n: u16,
    out: &mut Vec<Step>,
) -> Grown {
    let bytes = any_bytes(alloc, n)?;
    let at = state.registers.dt.saturating_sub(n);
    let mut next = state.copied(alloc)?;
    next.write(alloc, sizes, at, bytes.as_slice())?;
    for flags in FLAGS {
        with_flags(alloc, &next, flags >= 2, flags % 2 == 1, out)?;
    }
    Ok(())
}

// The number that at most 16 bytes are.
fn number_of(bytes: &[u8]) -> u128 {
    let mut number: u128 = 0;
    for byte in bytes {
        number = number.wrapping_shl(8) | *byte as u128;
    }
    number
}

// A number shifted by less than its bits, and the last bit that leaves it.
fn shifted(value: u128, n: u16, left: bool, b: u8) -> (u128, bool) {
    let bits = 8 * n as u32;
    let by = b as u32;
    if left {
        let last = value.wrapping_shr(bits.saturating_sub(by)) & 1 == 1;
        return (value.wrapping_shl(by) & mask(n), last);
    }
    (
        value.wrapping_shr(by),
        value.wrapping_shr(by.saturating_sub(1)) & 1 == 1,
    )
}

// The lowest n bytes of a number.
fn known_bytes(alloc: Global, number: u128, n: u16) -> Result<Vec<Byte>, NoMemory> {
    let mut bytes = Vec::new(alloc);
    for i in (0..n).rev() {
        let byte = number.wrapping_shr(8 * i as u32) & 255;
        push(&mut bytes, known_byte(byte as u8))?;
    }
    Ok(bytes)
}

fn shift_one(
    alloc: Global,
    sizes: &Sizes<'_>,
    state: &State,
    left: bool,
    row: &[u8],
    b: u8,
    out: &mut Vec<Step>,
) -> Grown {
    let n = row.len().min(16) as u16;
    let (result, last) = shifted(number_of(row), n, left, b);
    let bytes = known_bytes(alloc, result, n)?;
    let at = state.registers.dt.saturating_sub(n);
    let mut next = state.copied(alloc)?;
    next.write(alloc, sizes, at, bytes.as_slice())?;
    next.registers.c = last;
    next.registers.z = result == 0;
    push(out, Step::Goes(next))
}

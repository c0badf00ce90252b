// Primitives whose popped bytes are numbers: compares, copies, digests and ciphers.
use crate::coarse::{coarse_write, write_any};
use crate::compute::{Computation, compute_at};
use crate::shared::{after_pop, top, values_in, with_flags};
use crate::splitting::{number_at, split};
use crate::state::{Segment, Sizes, State, is_outside};
use crate::step::{Step, abend};
use model_device::NoMemory;
use prove_digits::Digit;
use prove_facts::Values;
use prove_keys::Last;
use std::alloc::Global;

type Grown = Result<(), NoMemory>;

fn is_length(n: u16) -> bool {
    n >= 1 && n <= 255
}

fn compare_any(alloc: Global, next: &State, out: &mut Vec<Step>) -> Grown {
    let mut next = next.copied(alloc)?;
    next.known.last = Last::Nothing;
    abend(3, out)?;
    say_any(alloc, &next, out)
}

// Less, equal, or greater.
fn say_any(alloc: Global, next: &State, out: &mut Vec<Step>) -> Grown {
    with_flags(alloc, next, true, false, out)?;
    with_flags(alloc, next, false, true, out)?;
    with_flags(alloc, next, false, false, out)
}

fn compare_at(
    alloc: Global,
    sizes: &Sizes<'_>,
    state: &State,
    first: u16,
    second: u16,
    n: u16,
    out: &mut Vec<Step>,
) -> Grown {
    let dt = state.registers.dt;
    if is_outside(sizes, dt, first, n) || is_outside(sizes, dt, second, n) {
        return abend(3, out);
    }
    let made = Computation {
        digit: Digit::Sub,
        first,
        n,
        second: Some(second),
        constant: 0,
        writes: false,
        carries: true,
    };
    compute_at(alloc, sizes, state, &made, Segment::Public, out)
}

/// A primitive whose popped bytes are numbers.
#[derive(Clone, Copy, PartialEq, Eq)]
pub enum NumberRow {
    /// Length, first, second.
    Compare,
    /// Length, to, from.
    Copy,
    /// Length, from, to.
    Digest,
    /// First, second.
    CompareFixed(u8),
    /// To, from.
    CopyFixed(u8),
    /// From, to, key: the length of the message and that of the key.
    Cipher(u8, u8),
    /// Start, from, to, key: the lengths of the message, a block and the key.
    Sign(u8, u8, u8),
}

fn numbers_len(row: NumberRow) -> u16 {
    match row {
        NumberRow::CompareFixed(_) | NumberRow::CopyFixed(_) => 4,
        NumberRow::Sign(_, _, _) => 8,
        _ => 6,
    }
}

/// The outcomes of a primitive whose popped bytes are numbers.
///
/// # Errors
///
/// Returns `NoMemory` if it is out of memory.
pub fn numbers(
    alloc: Global,
    sizes: &Sizes<'_>,
    state: &State,
    row: NumberRow,
    out: &mut Vec<Step>,
) -> Grown {
    let len = numbers_len(row);
    if state.is_under(sizes, len) {
        return abend(4, out);
    }
    let sets = top(alloc, state, len)?;
    let next = after_pop(alloc, sizes, state, len)?;
    match split(alloc, sets.as_slice())? {
        None => numbers_any(alloc, sizes, &next, row, sets.as_slice(), out),
        Some(rows) => numbers_each(alloc, sizes, &next, row, rows.as_slice(), out),
    }
}

// Each combination of the popped bytes by itself.
fn numbers_each(
    alloc: Global,
    sizes: &Sizes<'_>,
    next: &State,
    row: NumberRow,
    rows: &[u8],
    out: &mut Vec<Step>,
) -> Grown {
    for one in rows.chunks((numbers_len(row) as usize).max(1)) {
        numbers_at(alloc, sizes, next, row, one, out)?;
    }
    Ok(())
}

// The lengths from 1 to 255 that the two bytes of a length allow.
fn lengths_in(sets: &[Values]) -> Values {
    if values_in(sets, 0).has(0) {
        values_in(sets, 1).and(&Values::one(0).not())
    } else {
        Values::NONE
    }
}

// The lengths of what is written, where one of some lengths is good.
fn if_some(lengths: &Values, written: u8) -> Values {
    if lengths.is_empty() {
        Values::NONE
    } else {
        Values::one(written)
    }
}

/// Where a row writes: the place of the address among the popped bytes, and the lengths.
#[derive(Clone, Copy)]
struct Written {
    place: usize,
    lengths: Values,
}

// Where a row writes, or `None` if it compares.
fn written_of(row: NumberRow, sets: &[Values]) -> Option<Written> {
    match row {
        NumberRow::Compare => None,
        NumberRow::CompareFixed(_) => None,
        NumberRow::Copy => Some(Written {
            place: 2,
            lengths: lengths_in(sets),
        }),
        NumberRow::Digest => Some(Written {
            place: 4,
            lengths: if_some(&lengths_in(sets), 20),
        }),
        NumberRow::CopyFixed(n) => Some(Written {
            place: 0,
            lengths: Values::one(n),
        }),
        NumberRow::Cipher(n, _) => Some(Written {
            place: 2,
            lengths: Values::one(n),
        }),
        NumberRow::Sign(_, block, _) => Some(Written {
            place: 4,
            lengths: Values::one(block),
        }),
    }
}

// Whether a row reads a length.
fn has_length(row: NumberRow) -> bool {
    matches!(
        row,
        NumberRow::Compare | NumberRow::Copy | NumberRow::Digest
    )
}

fn numbers_any(
    alloc: Global,
    sizes: &Sizes<'_>,
    next: &State,
    row: NumberRow,
    sets: &[Values],
    out: &mut Vec<Step>,
) -> Grown {
    if has_length(row) {
        abend(6, out)?;
    }
    match written_of(row, sets) {
        Some(written) => {
            let highs = values_in(sets, written.place);
            let lows = values_in(sets, written.place.saturating_add(1));
            coarse_write(alloc, sizes, next, &highs, &lows, &written.lengths, out)
        }
        None if row == NumberRow::Compare && lengths_in(sets).is_empty() => Ok(()),
        None => compare_any(alloc, next, out),
    }
}

/// The four numbers that a row can have popped.
#[derive(Clone, Copy)]
struct Operands {
    a: u16,
    b: u16,
    c: u16,
    d: u16,
}

fn is_out(sizes: &Sizes<'_>, state: &State, at: u16, n: u8) -> bool {
    is_outside(sizes, state.registers.dt, at, n as u16)
}

// A row that reads a length.
fn measured_at(
    alloc: Global,
    sizes: &Sizes<'_>,
    next: &State,
    row: NumberRow,
    p: &Operands,
    out: &mut Vec<Step>,
) -> Grown {
    let good = is_length(p.a);
    let dt = next.registers.dt;
    match row {
        NumberRow::Compare if good => compare_at(alloc, sizes, next, p.b, p.c, p.a, out),
        NumberRow::Copy if good && is_outside(sizes, dt, p.c, p.a) => abend(3, out),
        NumberRow::Copy if good => write_any(alloc, sizes, next, p.b, p.a, out),
        NumberRow::Digest if good && is_outside(sizes, dt, p.b, p.a) => abend(3, out),
        NumberRow::Digest if is_outside(sizes, dt, p.c, 20) => abend(3, out),
        NumberRow::Digest if good => write_any(alloc, sizes, next, p.c, 20, out),
        _ => abend(6, out),
    }
}

fn numbers_at(
    alloc: Global,
    sizes: &Sizes<'_>,
    next: &State,
    row: NumberRow,
    one: &[u8],
    out: &mut Vec<Step>,
) -> Grown {
    let p = Operands {
        a: number_at(one, 0),
        b: number_at(one, 2),
        c: number_at(one, 4),
        d: number_at(one, 6),
    };
    match row {
        NumberRow::CompareFixed(n) => compare_at(alloc, sizes, next, p.a, p.b, n as u16, out),
        NumberRow::CopyFixed(n) if is_out(sizes, next, p.b, n) => abend(3, out),
        NumberRow::CopyFixed(n) => write_any(alloc, sizes, next, p.a, n as u16, out),
        NumberRow::Cipher(n, key) if is_out(sizes, next, p.a, n) || is_out(sizes, next, p.c, key) =>
            abend(3, out),
        NumberRow::Cipher(n, _) => write_any(alloc, sizes, next, p.b, n as u16, out),
        NumberRow::Sign(n, block, key)
            if is_out(sizes, next, p.a, block)
                || is_out(sizes, next, p.b, n)
                || is_out(sizes, next, p.d, key) => abend(3, out),
        NumberRow::Sign(_, block, _) => write_any(alloc, sizes, next, p.c, block as u16, out),
        _ => measured_at(alloc, sizes, next, row, &p, out),
    }
}

fn is_message(block: u8, n: u8) -> bool {
    block != 0 && n >= block && n % block == 0
}

/// The outcomes of a cipher over a block, a key, and a message of n bytes.
///
/// # Errors
///
/// Returns `NoMemory` if it is out of memory.
pub fn cipher(
    alloc: Global,
    sizes: &Sizes<'_>,
    state: &State,
    block: u8,
    key: u8,
    signs: bool,
    n: u8,
    out: &mut Vec<Step>,
) -> Grown {
    if !is_message(block, n) {
        return abend(6, out);
    }
    let row = if signs {
        NumberRow::Sign(n, block, key)
    } else {
        NumberRow::Cipher(n, key)
    };
    numbers(alloc, sizes, state, row, out)
}

/// The outcomes of a compare or a copy of n bytes.
///
/// # Errors
///
/// Returns `NoMemory` if it is out of memory.
pub fn fixed(
    alloc: Global,
    sizes: &Sizes<'_>,
    state: &State,
    copies: bool,
    n: u8,
    out: &mut Vec<Step>,
) -> Grown {
    if n == 0 {
        return abend(6, out);
    }
    numbers(
        alloc,
        sizes,
        state,
        if copies {
            NumberRow::CopyFixed(n)
        } else {
            NumberRow::CompareFixed(n)
        },
        out,
    )
}

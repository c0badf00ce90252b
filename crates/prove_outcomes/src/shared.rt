// Small parts of the rows: bytes on top of the stack, values of sets, flags.
use crate::state::{Byte, Sizes, State, known_byte, plain};
use crate::step::{Step, goes};
use model_device::{NoMemory, bytes_of};
use prove_facts::{Values, push};
use std::alloc::Global;

/// Returns a frame without the top n bytes of its stack.
///
/// # Errors
///
/// Returns `NoMemory` if it is out of memory.
pub fn after_pop(
    alloc: Global,
    sizes: &Sizes<'_>,
    state: &State,
    n: u16,
) -> Result<State, NoMemory> {
    let mut next = state.copied(alloc)?;
    next.pop(alloc, sizes, n)?;
    Ok(next)
}

/// Returns n bytes of which nothing is known.
///
/// # Errors
///
/// Returns `NoMemory` if it is out of memory.
pub fn any_bytes(alloc: Global, n: u16) -> Result<Vec<Byte>, NoMemory> {
    let mut bytes = Vec::new(alloc);
    for _ in 0..n {
        push(&mut bytes, plain(Values::ALL))?;
    }
    Ok(bytes)
}

/// Returns the values of the n bytes on top of the stack.
///
/// # Errors
///
/// Returns `NoMemory` if it is out of memory.
pub fn top(alloc: Global, state: &State, n: u16) -> Result<Vec<Values>, NoMemory> {
    state.values_of(alloc, state.registers.dt.saturating_sub(n), n)
}

/// Returns a set of a list, or all values if there is none.
pub fn values_in(sets: &[Values], i: usize) -> Values {
    match sets.get(i) {
        Some(set) => *set,
        None => Values::ALL,
    }
}

/// Returns the set of one byte of a row of bytes, or no value if there is none.
pub fn values_at(row: &[u8], i: usize) -> Values {
    match row.get(i) {
        Some(value) => Values::one(*value),
        None => Values::NONE,
    }
}

/// Returns the two bytes of a number, of which no origin is known.
pub fn known_word(word: u16) -> [Byte; 2] {
    let [high, low] = bytes_of(word);
    [known_byte(high), known_byte(low)]
}

/// A frame goes on with these flags.
///
/// # Errors
///
/// Returns `NoMemory` if it is out of memory.
pub fn with_flags(
    alloc: Global,
    state: &State,
    c: bool,
    z: bool,
    out: &mut Vec<Step>,
) -> Result<(), NoMemory> {
    let mut next = state.copied(alloc)?;
    next.registers.c = c;
    next.registers.z = z;
    goes(next, out)
}

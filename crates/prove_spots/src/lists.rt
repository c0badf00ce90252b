// Lists of values of bytes.
ghost use Rattle.std.specs.Prelude.{◌≡◌, ◌+◌, ◌≤◌, ◌<◌, map, length, OnOk, IfOk, IfSome};
ghost use Rattle.prove_facts.specs.model_prove.specs.Facts as known;
ghost use Rattle.prove_facts.specs.model_prove.specs.Steps.{sets, any_bytes, counted_sets, shaped_bytes, returned_sets};
ghost use Rattle.prove_facts.specs.Sets.{set_of};
ghost use Rattle.prove_scenes.specs.ShapeValues.{act_value};

use model_device::NoMemory;
use prove_facts::{Facts, Values, prepend, push};
use prove_scenes::Act;
use std::alloc::Global;

/// Returns the values of known bytes.
///
/// # Errors
///
/// Returns `NoMemory` if it is out of memory.
pub fn only_values(alloc: Global, bytes: &[u8]) -> Result<Vec<Values>, NoMemory>
    ensures { IfOk result (λ list. map set_of list.items ≡ sets bytes.now) }
{
    let mut list = Vec::with_capacity(alloc, bytes.len())?;
    for byte in bytes {
        push(&mut list, Values::one(*byte))?;
    }
    Ok(list)
}

/// Returns n times all values.
///
/// # Errors
///
/// Returns `NoMemory` if it is out of memory.
pub fn any_values(alloc: Global, n: u16) -> Result<Vec<Values>, NoMemory>
    ensures { IfOk result (λ list. map set_of list.items ≡ any_bytes n) }
{
    let mut list = Vec::with_capacity(alloc, n as usize)?;
    for _index in 0..n {
        push(&mut list, Values::ALL)?;
    }
    Ok(list)
}

/// Returns the values of bytes behind their number: that number, and for each of them all values.
///
/// # Errors
///
/// Returns `NoMemory` if it is out of memory.
pub fn counted_values(alloc: Global, bytes: &[u8]) -> Result<Vec<Values>, NoMemory>
    requires { length bytes.now < 65536 }
    ensures { IfOk result (λ list. map set_of list.items ≡ counted_sets bytes.now) }
{
    match bytes {
        [] => Ok(Vec::new(alloc)),
        [number, counted @ ..] => {
            let mut list = any_values(alloc, counted.len() as u16)?;
            prepend(&mut list, Values::one(*number))?;
            Ok(list)
        }
    }
}

/// Returns the values of n bytes from an address on, or `None` if they go past the last address.
///
/// # Errors
///
/// Returns `NoMemory` if it is out of memory.
pub fn values_from(
    alloc: Global,
    facts: &Facts,
    at: u32,
    n: u16,
) -> Result<Option<Vec<Values>>, NoMemory>
    ensures { IfOk result (λ found. IfSome found (λ list. map set_of list.items ≡ known.values_from facts.now at n)) }
{
    if at > 65536 || n as u32 > 65536 - at {
        return Ok(None);
    }
    Ok(Some(values_within(alloc, facts, at, n as u32)?))
}

// The values of n bytes from an address on.
fn values_within(alloc: Global, facts: &Facts, at: u32, n: u32) -> Result<Vec<Values>, NoMemory>
    requires { at + n ≤ 65536 }
    ensures { IfOk result (λ list. map set_of list.items ≡ known.values_from facts.now at n) }
{
    let mut list = Vec::with_capacity(alloc, n as usize)?;
    for index in 0..n {
        push(&mut list, facts.at((at + index) as u16))?;
    }
    Ok(list)
}

/// Makes values those of the bytes from an address on.
///
/// # Errors
///
/// Returns `NoMemory` if it is out of memory.
pub fn know_all(facts: &mut Facts, at: u16, list: &[Values]) -> Result<(), NoMemory>
    requires { at + length list.now ≤ 65536 }
    ensures { OnOk result (facts.new ≡ known.know_all at (map set_of list.now) facts.old) }
{
    for (index, values) in list.iter().enumerate() {
        facts.set((at as usize + index) as u16, *values)?;
    }
    Ok(())
}

/// Returns the bytes of an act that its shape says.
pub fn shaped_bytes(act: &Act) -> &[u8]
    ensures bytes { result.now ≡ shaped_bytes (act_value act.now) }
    ensures few { length result.now ≤ 255 }
{
    match act {
        Act::Pushes { bytes } => bytes.as_slice(),
        Act::Replaces { bytes } => bytes.as_slice(),
        Act::Writes { bytes, .. } => bytes.as_slice(),
        _ => &[],
    }
}

/// Returns the values of the bytes of an act that its shape says.
///
/// # Errors
///
/// Returns `NoMemory` if it is out of memory.
pub fn shaped_values(alloc: Global, act: &Act) -> Result<Vec<Values>, NoMemory>
    ensures { IfOk result (λ list. map set_of list.items ≡ sets (shaped_bytes (act_value act.now))) }
{
    only_values(alloc, shaped_bytes(act))
}

/// Returns the number of bytes of an act that its shape says.
pub fn shaped_len(act: &Act) -> u16
    ensures { result ≡ length (shaped_bytes (act_value act.now)) }
{
    shaped_bytes(act).len() as u16
}

/// Returns the values of the bytes that an act moves by itself, with the facts and DT of a place: those on top that a
/// return leaves, or those that its shape says. `None` is returned if they go past the last address.
///
/// # Errors
///
/// Returns `NoMemory` if it is out of memory.
pub fn returned_values(
    alloc: Global,
    act: &Act,
    facts: &Facts,
    dt: u16,
) -> Result<Option<Vec<Values>>, NoMemory>
    ensures { IfOk result (λ found. IfSome found (λ list.
        map set_of list.items ≡ returned_sets (act_value act.now) facts.now dt)) }
{
    match act {
        Act::Returns { more, .. } => {
            let from = dt.saturating_sub(*more as u16);
            values_from(alloc, facts, from as u32, *more as u16)
        }
        _ => Ok(Some(shaped_values(alloc, act)?)),
    }
}

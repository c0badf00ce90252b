// Sets of values, and their values in a list.
ghost use Rattle.std.specs.Prelude.{◌≡◌, ℕ, ◌<◌, false, cond, [], ◌∷◌, ◌++◌, IfOk, OnOk};
ghost use Rattle.prove_facts.specs.model_prove.specs.Sets.{is_in};
ghost use Rattle.prove_facts.specs.Sets.{set_of, has_value};

use model_device::NoMemory;
use prove_facts::{Values, push};
use std::alloc::Global;

/// Returns the values of a set, ascending.
///
/// # Errors
///
/// Returns `NoMemory` if it is out of memory.
pub fn list_of(alloc: Global, values: &Values) -> Result<Vec<u8>, NoMemory>
    ensures { IfOk result (λ list. list.items ≡ set_of values.now) }
{
    let mut list = Vec::new(alloc);
    for value in 0..256u16 {
        push_if(&mut list, value as u8, has(values, value as u8))?;
    }
    Ok(list)
}

// Appends a value, if something holds.
fn push_if(list: &mut Vec<u8>, value: u8, holds: bool) -> Result<(), NoMemory>
    ensures { OnOk result (list.new.items ≡ list.old.items ++ cond holds (value ∷ []) []) }
{
    if holds {
        return push(list, value);
    }
    Ok(())
}

/// Returns whether a value is in a set.
pub fn has(values: &Values, value: u8) -> bool
    ensures { result ≡ is_in value (set_of values.now) }
{
    values.has(value)
}

/// Returns the set of no values.
pub fn none() -> Values
    ensures set { set_of result ≡ [] }
    ensures values { (v : ℕ) → v < 256 → has_value result v ≡ false }
{
    Values::NONE
}

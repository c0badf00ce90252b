// The places after a search of a table.
ghost use Rattle.std.specs.Prelude.{◌≡◌, ◌++◌, [], ◌∷◌, ◌≤◌, true, false, cond, map, length, IfSome, IfOk};
ghost use Rattle.prove_facts.specs.model_rules.specs.Keeping.{Amounts};
ghost use Rattle.prove_facts.specs.model_prove.specs.Facts as known;
ghost use Rattle.prove_facts.specs.model_prove.specs.Keys.{Start};
ghost use Rattle.prove_facts.specs.model_prove.specs.Steps as steps;
ghost use Rattle.prove_facts.specs.Sets.{set_of};
ghost use Rattle.prove_spots.specs.Grounds.{spot_of};
ghost use Rattle.prove_works.specs.Searches.{sets_of};

use crate::lists::list_of;
use crate::searches::{each_index, some_pass};
use model_device::NoMemory;
use prove_facts::{Values, push};
use prove_spots::{Spot, values_from};
use std::alloc::Global;

// Adds the place after an index was pushed.
fn add_found(
    alloc: Global,
    z: bool,
    index: u8,
    spot: &Spot,
    spots: &mut Vec<Spot>,
) -> Result<bool, NoMemory>
    ensures { IfOk result (λ done. done ≡ true → (s : Start) (a : Amounts)
        → map (spot_of s a) spots.new.items
        ≡ map (spot_of s a) spots.old.items ++ steps.found z index (spot_of s a spot.now) ∷ []) }
{
    let mut after = spot.copied(alloc)?;
    if !after.pushed(&[Values::one(index)])? {
        return Ok(false);
    }
    after.flagged(false, false, z);
    push(spots, after)?;
    Ok(true)
}

// The places after each of some indices was pushed.
fn found_at_each(alloc: Global, list: &[u8], spot: &Spot) -> Result<Option<Vec<Spot>>, NoMemory>
    ensures { IfOk result (λ found. IfSome found (λ spots. (s : Start) (a : Amounts)
        → map (spot_of s a) spots.items ≡ map (λ i. steps.found true i (spot_of s a spot.now)) list.now)) }
{
    let mut spots = Vec::new(alloc);
    for index in list {
        if !add_found(alloc, true, *index, spot, &mut spots)? {
            return Ok(None);
        }
    }
    Ok(Some(spots))
}

// The places after a search, of which something says whether it may find nothing.
fn found_or_not(
    alloc: Global,
    list: &[u8],
    may_pass: bool,
    spot: &Spot,
) -> Result<Option<Vec<Spot>>, NoMemory>
    ensures { IfOk result (λ found. IfSome found (λ spots. (s : Start) (a : Amounts)
        → map (spot_of s a) spots.items ≡ map (λ i. steps.found true i (spot_of s a spot.now)) list.now
        ++ cond may_pass (steps.found false 0 (spot_of s a spot.now) ∷ []) [])) }
{
    match found_at_each(alloc, list, spot)? {
        Some(mut spots) => {
            if may_pass && !add_found(alloc, false, 0, spot, &mut spots)? {
                return Ok(None);
            }
            Ok(Some(spots))
        }
        None => Ok(None),
    }
}

// The places after a search of a table for a byte of a set.
fn searched_for(
    alloc: Global,
    values: &Values,
    table: &[Values],
    spot: &Spot,
) -> Result<Option<Vec<Spot>>, NoMemory>
    requires { length table.now ≤ 255 }
    ensures { IfOk result (λ found. IfSome found (λ spots. (s : Start) (a : Amounts)
        → map (spot_of s a) spots.items ≡ steps.searched (set_of values.now) (sets_of table.now)
        (spot_of s a spot.now))) }
{
    let list = list_of(alloc, values)?;
    let indices = list_of(alloc, &each_index(list.as_slice(), table))?;
    let may_pass = some_pass(list.as_slice(), table);
    found_or_not(alloc, indices.as_slice(), may_pass, spot)
}

/// Returns the place with DT at most a number.
///
/// # Errors
///
/// Returns `NoMemory` if it is out of memory.
pub fn lowered(alloc: Global, dt: u16, spot: &Spot) -> Result<Spot, NoMemory>
    ensures { IfOk result (λ after. (s : Start) (a : Amounts) → spot_of s a after ≡ steps.lowered dt
        (spot_of s a spot.now)) }
{
    let mut after = spot.copied(alloc)?;
    after.lowered(dt)?;
    Ok(after)
}

// The places after a search of a table for a byte of a set, with DT at most a number, if the table is short.
fn searched_in(
    alloc: Global,
    dt: u16,
    values: &Values,
    table: &[Values],
    spot: &Spot,
) -> Result<Option<Vec<Spot>>, NoMemory>
    ensures { IfOk result (λ found. IfSome found (λ spots. (s : Start) (a : Amounts) → map (spot_of s a) spots.items
        ≡ steps.searched (set_of values.now) (sets_of table.now) (steps.lowered dt (spot_of s a spot.now)))) }
{
    if table.len() > 255 {
        return Ok(None);
    }
    let below = lowered(alloc, dt, spot)?;
    match searched_for(alloc, values, table, &below)? {
        Some(spots) => Ok(Some(spots)),
        None => Ok(None),
    }
}

/// Returns the places after a search of the `n` bytes of a table for the byte at an address, with DT at most a
/// number. It gives up where the table goes past the last address.
///
/// # Errors
///
/// Returns `NoMemory` if it is out of memory.
pub fn searched(
    alloc: Global,
    dt: u16,
    value: u16,
    table: u32,
    n: u8,
    spot: &Spot,
) -> Result<Option<Vec<Spot>>, NoMemory>
    ensures { IfOk result (λ found. IfSome found (λ spots. (s : Start) (a : Amounts)
        → map (spot_of s a) spots.items ≡ steps.searched (known.values_at spot.now.bytes value)
        (known.values_from spot.now.bytes table n) (steps.lowered dt (spot_of s a spot.now)))) }
{
    let values = spot.bytes().at(value);
    match values_from(alloc, spot.bytes(), table, n as u16)? {
        Some(list) => match searched_in(alloc, dt, &values, list.as_slice(), spot)? {
            Some(spots) => Ok(Some(spots)),
            None => Ok(None),
        },
        None => Ok(None),
    }
}

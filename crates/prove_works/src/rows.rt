// The places that follow a row, by what it works on.
ghost use Rattle.std.specs.Prelude.{◌≡◌, ◌++◌, [], ◌∷◌, false, true, map, IfSome, IfOk, OnOk};
ghost use Rattle.prove_facts.specs.model_rules.specs.Keeping.{Amounts};
ghost use Rattle.prove_facts.specs.model_prove.specs.Arrivals.{Setting, static_size};
ghost use Rattle.prove_facts.specs.model_prove.specs.Keys.{Start};
ghost use Rattle.prove_facts.specs.model_prove.specs.Steps as steps;
ghost use Rattle.prove_facts.specs.model_prove.specs.Work as work;
ghost use Rattle.prove_facts.specs.Sets.{set_of};
ghost use Rattle.prove_scenes.specs.ShapeValues.{act_value, shape_value};
ghost use Rattle.prove_scenes.specs.Works.{work_value};
ghost use Rattle.prove_spots.specs.Grounds.{spot_of};
ghost use Rattle.prove_works.specs.Numbers.{flags_of};

use crate::searched::{lowered, searched};
use crate::worked::works_to;
use model_device::NoMemory;
use prove_facts::{Values, push};
use prove_scenes::{Shape, Work};
use prove_spots::{
    Spot, any_values, counted_values, returned_values, shaped_bytes, shaped_len, values_from,
};
use std::alloc::Global;

// The place after a row's act with these values of the bytes that it writes or pushes, and its flags.
fn shaped(
    alloc: Global,
    fixed: u16,
    shape: &Shape,
    values: &[Values],
    spot: &Spot,
) -> Result<Option<Vec<Spot>>, NoMemory>
    ensures { IfOk result (λ found. IfSome found (λ spots. (x : Setting) (s : Start) (a : Amounts)
        → static_size x ≡ fixed
        → map (spot_of s a) spots.items ≡ steps.with_flags shape.now.flags
        (steps.acted x (act_value shape.now.act) (map set_of values.now) (steps.lowered shape.now.dt
        (spot_of s a spot.now))) ∷ [])) }
{
    let mut after = lowered(alloc, shape.dt, spot)?;
    if !after.acted(alloc, fixed, &shape.act, values)? {
        return Ok(None);
    }
    after.with_flags(shape.flags);
    Ok(Some(one(alloc, after)?))
}

/// Returns a list of one place.
///
/// # Errors
///
/// Returns `NoMemory` if it is out of memory.
pub fn one(alloc: Global, spot: Spot) -> Result<Vec<Spot>, NoMemory>
    ensures { IfOk result (λ spots. spots.items ≡ spot ∷ []) }
{
    let mut spots = Vec::new(alloc);
    push(&mut spots, spot)?;
    Ok(spots)
}

// The place after a row that moves bytes by itself, or writes or pushes those of its shape.
fn as_shaped(
    alloc: Global,
    fixed: u16,
    shape: &Shape,
    spot: &Spot,
) -> Result<Option<Vec<Spot>>, NoMemory>
    ensures { IfOk result (λ found. IfSome found (λ spots. (x : Setting) (s : Start) (a : Amounts)
        → static_size x ≡ fixed
        → map (spot_of s a) spots.items ≡ steps.spots x (shape_value shape.now) work.AsShaped
        (spot_of s a spot.now))) }
{
    match returned_values(alloc, &shape.act, spot.bytes(), spot.dt())? {
        Some(list) => shaped(alloc, fixed, shape, list.as_slice(), spot),
        None => Ok(None),
    }
}

// The place after a row that copies bytes from an address on.
fn copying(
    alloc: Global,
    fixed: u16,
    shape: &Shape,
    from: u16,
    spot: &Spot,
) -> Result<Option<Vec<Spot>>, NoMemory>
    ensures { IfOk result (λ found. IfSome found (λ spots. (x : Setting) (s : Start) (a : Amounts)
        → static_size x ≡ fixed
        → map (spot_of s a) spots.items ≡ steps.spots x (shape_value shape.now) (work.Copies from)
        (spot_of s a spot.now))) }
{
    match values_from(alloc, spot.bytes(), from as u32, shaped_len(&shape.act))? {
        Some(list) => shaped(alloc, fixed, shape, list.as_slice(), spot),
        None => Ok(None),
    }
}

// The place after a row that writes or pushes bytes without a fact.
fn without_facts(
    alloc: Global,
    fixed: u16,
    shape: &Shape,
    spot: &Spot,
) -> Result<Option<Vec<Spot>>, NoMemory>
    ensures { IfOk result (λ found. IfSome found (λ spots. (x : Setting) (s : Start) (a : Amounts)
        → static_size x ≡ fixed
        → map (spot_of s a) spots.items ≡ steps.spots x (shape_value shape.now) work.NoFact (spot_of s a spot.now))) }
{
    let list = any_values(alloc, shaped_len(&shape.act))?;
    shaped(alloc, fixed, shape, list.as_slice(), spot)
}

// The place after a row that writes or pushes bytes without a fact behind a first one, their number, which is known.
fn counted(
    alloc: Global,
    fixed: u16,
    shape: &Shape,
    spot: &Spot,
) -> Result<Option<Vec<Spot>>, NoMemory>
    ensures { IfOk result (λ found. IfSome found (λ spots. (x : Setting) (s : Start) (a : Amounts)
        → static_size x ≡ fixed
        → map (spot_of s a) spots.items ≡ steps.spots x (shape_value shape.now) work.Counted (spot_of s a spot.now))) }
{
    let list = counted_values(alloc, shaped_bytes(&shape.act))?;
    shaped(alloc, fixed, shape, list.as_slice(), spot)
}

// The places after a row that sets Z any way.
fn with_any_z(alloc: Global, dt: u16, spot: &Spot) -> Result<Vec<Spot>, NoMemory>
    ensures { IfOk result (λ spots. (s : Start) (a : Amounts) → map (spot_of s a) spots.items
        ≡ steps.flagged false (flags_of false true) (steps.lowered dt (spot_of s a spot.now))
        ∷ steps.flagged false (flags_of false false) (steps.lowered dt (spot_of s a spot.now)) ∷ []) }
{
    let base = lowered(alloc, dt, spot)?;
    let mut spots = Vec::new(alloc);
    add_flagged(alloc, false, false, true, &base, &mut spots)?;
    add_flagged(alloc, false, false, false, &base, &mut spots)?;
    Ok(spots)
}

/// Adds a place with these flags; a row without a carry leaves C.
///
/// # Errors
///
/// Returns `NoMemory` if it is out of memory.
pub fn add_flagged(
    alloc: Global,
    carries: bool,
    c: bool,
    z: bool,
    spot: &Spot,
    spots: &mut Vec<Spot>,
) -> Result<(), NoMemory>
    ensures { OnOk result ((s : Start) (a : Amounts) → map (spot_of s a) spots.new.items
        ≡ map (spot_of s a) spots.old.items ++ steps.flagged carries (flags_of c z) (spot_of s a spot.now) ∷ []) }
{
    let mut after = spot.copied(alloc)?;
    after.flagged(carries, c, z);
    push(spots, after)
}

/// Returns the places that follow a row from a place, by its shape and what it works on. It gives up where bytes go
/// past the last address, or a number is too long for the last compare.
///
/// # Errors
///
/// Returns `NoMemory` if it is out of memory.
pub fn spots(
    alloc: Global,
    fixed: u16,
    shape: &Shape,
    work: &Work,
    spot: &Spot,
) -> Result<Option<Vec<Spot>>, NoMemory>
    ensures { IfOk result (λ found. IfSome found (λ spots. (x : Setting) (s : Start) (a : Amounts)
        → static_size x ≡ fixed
        → map (spot_of s a) spots.items ≡ steps.spots x (shape_value shape.now) (work_value work.now)
        (spot_of s a spot.now))) }
{
    match work {
        Work::AsShaped => as_shaped(alloc, fixed, shape, spot),
        Work::Copies { from } => copying(alloc, fixed, shape, *from, spot),
        Work::Works(digitwise) => works_to(alloc, digitwise, shape.dt, spot),
        Work::Searches { value, table, n } => {
            searched(alloc, shape.dt, *value, *table, *n, spot)
        }
        Work::AnyZ => Ok(Some(with_any_z(alloc, shape.dt, spot)?)),
        Work::Counted => counted(alloc, fixed, shape, spot),
        Work::NoFact => without_facts(alloc, fixed, shape, spot),
    }
}

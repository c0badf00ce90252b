// The places after an operation digit by digit, by its final flags.
ghost use Rattle.std.specs.Prelude.{◌≡◌, ◌&&◌, ◌++◌, [], ◌∷◌, true, not, map, flat_map, Some, IfSome, IfOk, OnOk};
ghost use Rattle.prove_facts.specs.model_rules.specs.Keeping.{Amounts};
ghost use Rattle.prove_facts.specs.model_prove.specs.Facts as known;
ghost use Rattle.prove_facts.specs.model_prove.specs.Keys.{Start};
ghost use Rattle.prove_facts.specs.model_prove.specs.Steps as steps;
ghost use Rattle.prove_digits.specs.Ways.{operation_of, way_value, ways_found};
ghost use Rattle.prove_keys.specs.Compares.{said};
ghost use Rattle.prove_scenes.specs.Works.{operation_value, digitwise_value};
ghost use Rattle.prove_spots.specs.Grounds.{spot_of};
ghost use Rattle.prove_works.specs.Numbers.{flags_of};
ghost use Rattle.prove_works.specs.Rows.{IsEven, narrowed_spot, worked_spot, sets_worked, way_spots};
ghost use Rattle.prove_works.specs.Searches.{sets_of};

use crate::narrowing::operands_narrowed;
use crate::operands::{allows, last_after, operand_values};
use model_device::NoMemory;
use prove_digits::{Digit, Way, ways};
use prove_facts::{Facts, Values, push};
use prove_keys::LastSaid;
use prove_scenes::{Digitwise, Operation};
use prove_spots::{Spot, values_from};
use std::alloc::Global;

// A place after bytes were written, with these facts before it, unless they go past the last address.
fn written_over(
    alloc: Global,
    at: u16,
    values: &[Values],
    facts: Facts,
    spot: &Spot,
) -> Result<Option<Spot>, NoMemory>
    ensures { IfOk result (λ found. IfSome found (λ after. (s : Start) (a : Amounts) → spot_of s a after
        ≡ steps.written at (sets_of values.now) (steps.with_facts (spot_of s a spot.now) facts))) }
{
    let mut after = spot.copied(alloc)?;
    after.set_bytes(facts);
    if !after.written(at, values)? {
        return Ok(None);
    }
    Ok(Some(after))
}

// A place with these facts and this last compare.
fn compared(alloc: Global, last: LastSaid, facts: Facts, spot: &Spot) -> Result<Spot, NoMemory>
    ensures { IfOk result (λ after. (s : Start) (a : Amounts)
        → spot_of s a after ≡ narrowed_spot facts (said last) (spot_of s a spot.now)) }
{
    let mut after = spot.copied(alloc)?;
    after.set_bytes(facts);
    after.set_last(last);
    Ok(after)
}

// The place after an operation that writes nothing. It gives up where a number is too long.
fn tested(
    alloc: Global,
    digitwise: &Digitwise,
    way: &Way,
    facts: Facts,
    spot: &Spot,
) -> Result<Option<Spot>, NoMemory>
    ensures { IfOk result (λ found. IfSome found (λ after. (s : Start) (a : Amounts) → spot_of s a after
        ≡ narrowed_spot facts (steps.compare_after (digitwise_value digitwise.now) (flags_of way.now.c way.now.z)
        spot.now.compare) (spot_of s a spot.now))) }
{
    match last_after(spot.last(), digitwise, way.c, way.z) {
        Some(last) => Ok(Some(compared(alloc, last, facts, spot)?)),
        None => Ok(None),
    }
}

// The place after an operation along a way, with these facts of its operands. It gives up where a number is too long,
// or bytes go past the last address.
fn worked_at(
    alloc: Global,
    digitwise: &Digitwise,
    way: &Way,
    facts: Facts,
    spot: &Spot,
) -> Result<Option<Spot>, NoMemory>
    ensures { IfOk result (λ found. IfSome found (λ after. (s : Start) (a : Amounts) → spot_of s a after
        ≡ worked_spot (digitwise_value digitwise.now) (flags_of way.now.c way.now.z) (sets_of way.now.r.items) facts
        (spot_of s a spot.now))) }
{
    if digitwise.written {
        return match written_over(alloc, digitwise.at, way.r.as_slice(), facts, spot)? {
            Some(after) => Ok(Some(after)),
            None => Ok(None),
        };
    }
    match tested(alloc, digitwise, way, facts, spot)? {
        Some(after) => Ok(Some(after)),
        None => Ok(None),
    }
}

// Adds a place with these flags and DT at most a number.
fn add_lowered(
    spot: Spot,
    carries: bool,
    c: bool,
    z: bool,
    dt: u16,
    spots: &mut Vec<Spot>,
) -> Result<(), NoMemory>
    ensures { OnOk result ((s : Start) (a : Amounts) → map (spot_of s a) spots.new.items ≡ map
        (spot_of s a) spots.old.items
        ++ steps.lowered dt (steps.flagged carries (flags_of c z) (spot_of s a spot)) ∷ []) }
{
    let mut after = spot;
    after.flagged(carries, c, z);
    after.lowered(dt)?;
    push(spots, after)?;
    Ok(())
}

// Adds the place after an operation along a way, whose flags the last compare allows, with these facts of its
// operands.
fn add_worked(
    alloc: Global,
    digitwise: &Digitwise,
    dt: u16,
    way: &Way,
    facts: Facts,
    spot: &Spot,
    spots: &mut Vec<Spot>,
) -> Result<bool, NoMemory>
    ensures { IfOk result (λ done. done ≡ true → (s : Start) (a : Amounts)
        → map (spot_of s a) spots.new.items ≡ map (spot_of s a) spots.old.items
        ++ steps.lowered dt (steps.flagged digitwise.now.carries (flags_of way.now.c way.now.z)
        (worked_spot (digitwise_value digitwise.now) (flags_of way.now.c way.now.z) (sets_of way.now.r.items) facts
        (spot_of s a spot.now))) ∷ []) }
{
    match worked_at(alloc, digitwise, way, facts, spot)? {
        Some(after) => {
            add_lowered(after, digitwise.carries, way.c, way.z, dt, spots)?;
            Ok(true)
        }
        None => Ok(false),
    }
}

// Adds the place after an operation along a way, whose flags the last compare allows, if its operands have values
// left.
fn add_narrowed(
    alloc: Global,
    digitwise: &Digitwise,
    dt: u16,
    way: &Way,
    spot: &Spot,
    spots: &mut Vec<Spot>,
) -> Result<bool, NoMemory>
    ensures { IfOk result (λ done. done ≡ true → (s : Start) (a : Amounts)
        → map (spot_of s a) spots.new.items ≡ map (spot_of s a) spots.old.items
        ++ map (steps.lowered dt) (map (steps.flagged digitwise.now.carries (flags_of way.now.c way.now.z))
        (sets_worked (digitwise_value digitwise.now) (flags_of way.now.c way.now.z) (sets_of way.now.x.items)
        (sets_of way.now.y.items) (sets_of way.now.r.items) (spot_of s a spot.now)))) }
{
    let mut facts = spot.bytes().copied(alloc)?;
    match operands_narrowed(&mut facts, digitwise, way.x.as_slice(), way.y.as_slice())? {
        Some(true) => {
            let done = add_worked(alloc, digitwise, dt, way, facts, spot, spots)?;
            Ok(done)
        }
        Some(false) => Ok(true),
        None => Ok(false),
    }
}

// Whether a way has as many bytes of each operand and of the result.
fn is_even(way: &Way) -> bool
    ensures { result ≡ true → IsEven way.now }
{
    way.x.len() == way.y.len() && way.x.len() == way.r.len()
}

// Whether a way ends with a carry that its row has not.
fn is_skipped(carries: bool, c: bool) -> bool
    ensures { result ≡ (not carries && c) }
{
    !carries && c
}

// Adds the place after an operation along a way, if there is one.
fn add_way(
    alloc: Global,
    digitwise: &Digitwise,
    dt: u16,
    way: &Way,
    spot: &Spot,
    spots: &mut Vec<Spot>,
) -> Result<bool, NoMemory>
    ensures { IfOk result (λ done. done ≡ true → (s : Start) (a : Amounts)
        → map (spot_of s a) spots.new.items ≡ map (spot_of s a) spots.old.items
        ++ way_spots (digitwise_value digitwise.now) dt (spot_of s a spot.now) (way_value way.now)) }
{
    if is_skipped(digitwise.carries, way.c) {
        return Ok(true);
    }
    if !is_even(way) {
        return Ok(false);
    }
    match allows(spot.last(), digitwise, way.c, way.z) {
        Some(true) => {
            let done = add_narrowed(alloc, digitwise, dt, way, spot, spots)?;
            Ok(done)
        }
        Some(false) => Ok(true),
        None => Ok(false),
    }
}

// The places after an operation along some ways.
fn along(
    alloc: Global,
    digitwise: &Digitwise,
    dt: u16,
    list: &[Way],
    spot: &Spot,
) -> Result<Option<Vec<Spot>>, NoMemory>
    ensures { IfOk result (λ found. IfSome found (λ spots. (s : Start) (a : Amounts)
        → map (spot_of s a) spots.items
        ≡ flat_map (way_spots (digitwise_value digitwise.now) dt (spot_of s a spot.now)) (map way_value list.now))) }
{
    let mut spots = Vec::new(alloc);
    for way in list {
        if !add_way(alloc, digitwise, dt, way, spot, &mut spots)? {
            return Ok(None);
        }
    }
    Ok(Some(spots))
}

// How an operation makes a byte of two.
fn digit_of(op: Operation) -> Digit
    ensures { operation_of result ≡ Some (operation_value op) }
{
    match op {
        Operation::Plus => Digit::Add,
        Operation::Minus => Digit::Sub,
        Operation::And => Digit::And,
        Operation::Or => Digit::Or,
        Operation::Xor => Digit::Xor,
    }
}

// The ways of an operation to final flags. It gives up where the operands have not as many bytes, or go past the last
// address.
fn ways_of(
    alloc: Global,
    digitwise: &Digitwise,
    facts: &Facts,
) -> Result<Option<Vec<Way>>, NoMemory>
    ensures { IfOk result (λ found. IfSome found (λ list. map way_value list.items
        ≡ ways_found (operation_value digitwise.now.op) (steps.pairs_of
        (known.values_from facts.now digitwise.now.at digitwise.now.n)
        (steps.operand_sets facts.now (digitwise_value digitwise.now).operand digitwise.now.n)))) }
{
    match values_from(alloc, facts, digitwise.at as u32, digitwise.n)? {
        Some(xs) => match operand_values(alloc, facts, &digitwise.operand, digitwise.n)? {
            Some(ys) => Ok(Some(ways(
                alloc,
                digit_of(digitwise.op),
                xs.as_slice(),
                ys.as_slice(),
            )?)),
            None => Ok(None),
        },
        None => Ok(None),
    }
}

/// Returns the places after an operation, with DT at most a number, by its final flags. It gives up where an operand
/// goes past the last address, or a number is too long for the last compare.
///
/// # Errors
///
/// Returns `NoMemory` if it is out of memory.
pub fn works_to(
    alloc: Global,
    digitwise: &Digitwise,
    dt: u16,
    spot: &Spot,
) -> Result<Option<Vec<Spot>>, NoMemory>
    ensures { IfOk result (λ found. IfSome found (λ spots. (s : Start) (a : Amounts)
        → map (spot_of s a) spots.items
        ≡ map (steps.lowered dt) (steps.works_to (digitwise_value digitwise.now) (spot_of s a spot.now)))) }
{
    match ways_of(alloc, digitwise, spot.bytes())? {
        Some(list) => match along(alloc, digitwise, dt, list.as_slice(), spot)? {
            Some(spots) => Ok(Some(spots)),
            None => Ok(None),
        },
        None => Ok(None),
    }
}

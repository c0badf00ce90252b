// The places that follow a row whose deciding bytes have too many combinations.
ghost use Rattle.std.specs.Prelude.{◌≡◌, ◌-◌, [], ◌∷◌, false, true, map, drop, IfSome, IfOk};
ghost use Rattle.prove_facts.specs.model_rules.specs.Keeping.{Amounts};
ghost use Rattle.prove_facts.specs.model_prove.specs.Arrivals.{Setting, static_size};
ghost use Rattle.prove_facts.specs.model_prove.specs.Keys.{Start};
ghost use Rattle.prove_facts.specs.model_prove.specs.Reach as known;
ghost use Rattle.prove_facts.specs.model_prove.specs.Steps as steps;
ghost use Rattle.prove_keys.specs.Keys.{calls_of};
ghost use Rattle.prove_scenes.specs.Coarse.{coarse_value};
ghost use Rattle.prove_scenes.specs.Scenes.{frame_to};
ghost use Rattle.prove_spots.specs.Grounds.{spot_of};
ghost use Rattle.prove_works.specs.Reaches.{reach_value};

use crate::hits::{calls_hit, facts_not_reached, last_not_reached};
use crate::reach::{Reach, reach_of, some_reached};
use crate::rows::{add_flagged, one};
use model_device::NoMemory;
use prove_facts::{Facts, push};
use prove_keys::Call;
use prove_scenes::{Coarse, Scene};
use prove_spots::{Spot, any_values};
use std::alloc::Global;

// The place after bytes without a fact were pushed.
fn any_pushed(alloc: Global, n: u8, spot: &Spot) -> Result<Option<Spot>, NoMemory>
    ensures { IfOk result (λ found. IfSome found (λ after. (s : Start) (a : Amounts)
        → spot_of s a after ≡ steps.pushed (steps.any_bytes n) (spot_of s a spot.now))) }
{
    let list = any_values(alloc, n as u16)?;
    let mut after = spot.copied(alloc)?;
    if !after.pushed(list.as_slice())? {
        return Ok(None);
    }
    Ok(Some(after))
}

// The place after the top bytes were replaced by others without a fact.
fn any_replaced(alloc: Global, n: u8, spot: &Spot) -> Result<Option<Spot>, NoMemory>
    ensures { IfOk result (λ found. IfSome found (λ after. (s : Start) (a : Amounts)
        → spot_of s a after ≡ steps.written (spot.now.dt - n) (steps.any_bytes n) (spot_of s a spot.now))) }
{
    let list = any_values(alloc, n as u16)?;
    let at = spot.dt().saturating_sub(n as u16);
    let mut after = spot.copied(alloc)?;
    if !after.written(at, list.as_slice())? {
        return Ok(None);
    }
    Ok(Some(after))
}

// The places after bytes without a fact were pushed.
fn pushing(alloc: Global, n: u8, spot: &Spot) -> Result<Option<Vec<Spot>>, NoMemory>
    ensures { IfOk result (λ found. IfSome found (λ spots. (s : Start) (a : Amounts)
        → map (spot_of s a) spots.items ≡ steps.pushed (steps.any_bytes n) (spot_of s a spot.now) ∷ [])) }
{
    match any_pushed(alloc, n, spot)? {
        Some(after) => Ok(Some(one(alloc, after)?)),
        None => Ok(None),
    }
}

// The places after a shift.
fn shifting(alloc: Global, n: u8, spot: &Spot) -> Result<Option<Vec<Spot>>, NoMemory>
    ensures { IfOk result (λ found. IfSome found (λ spots. (s : Start) (a : Amounts) → map (spot_of s a) spots.items
        ≡ map (λ g. steps.flagged true g (steps.written (spot.now.dt - n) (steps.any_bytes n) (spot_of s a spot.now)))
        (steps.final_flags true))) }
{
    match any_replaced(alloc, n, spot)? {
        Some(base) => Ok(Some(with_all_flags(alloc, &base)?)),
        None => Ok(None),
    }
}

// A place with all pairs of flags.
fn with_all_flags(alloc: Global, base: &Spot) -> Result<Vec<Spot>, NoMemory>
    ensures { IfOk result (λ spots. (s : Start) (a : Amounts) → map (spot_of s a) spots.items
        ≡ map (λ g. steps.flagged true g (spot_of s a base.now)) (steps.final_flags true)) }
{
    let mut spots = Vec::new(alloc);
    add_flagged(alloc, true, false, false, base, &mut spots)?;
    add_flagged(alloc, true, false, true, base, &mut spots)?;
    add_flagged(alloc, true, true, false, base, &mut spots)?;
    add_flagged(alloc, true, true, true, base, &mut spots)?;
    Ok(spots)
}

// The places after a comparison of bytes that are not known.
fn comparing(alloc: Global, spot: &Spot) -> Result<Vec<Spot>, NoMemory>
    ensures { IfOk result (λ spots. (s : Start) (a : Amounts) → map (spot_of s a) spots.items
        ≡ map (λ g. steps.uncompared (steps.flagged true g (spot_of s a spot.now))) steps.order_flags) }
{
    let mut base = spot.copied(alloc)?;
    base.uncompared();
    let mut spots = Vec::new(alloc);
    add_flagged(alloc, true, true, false, &base, &mut spots)?;
    add_flagged(alloc, true, false, true, &base, &mut spots)?;
    add_flagged(alloc, true, false, false, &base, &mut spots)?;
    Ok(spots)
}

// The places after a search.
fn searching(alloc: Global, spot: &Spot) -> Result<Option<Vec<Spot>>, NoMemory>
    ensures { IfOk result (λ found. IfSome found (λ spots. (s : Start) (a : Amounts) → map (spot_of s a) spots.items
        ≡ map (λ g. steps.flagged false g (steps.pushed (steps.any_bytes 1) (spot_of s a spot.now)))
        (steps.final_flags false))) }
{
    match any_pushed(alloc, 1, spot)? {
        Some(base) => Ok(Some(with_any_z(alloc, &base)?)),
        None => Ok(None),
    }
}

// A place with Z set or not.
fn with_any_z(alloc: Global, base: &Spot) -> Result<Vec<Spot>, NoMemory>
    ensures { IfOk result (λ spots. (s : Start) (a : Amounts) → map (spot_of s a) spots.items
        ≡ map (λ g. steps.flagged false g (spot_of s a base.now)) (steps.final_flags false)) }
{
    let mut spots = Vec::new(alloc);
    add_flagged(alloc, false, false, false, base, &mut spots)?;
    add_flagged(alloc, false, false, true, base, &mut spots)?;
    Ok(spots)
}

// The place after a write within a reach, with the open calls that are left.
fn reached(
    alloc: Global,
    scene: &Scene,
    dt: u16,
    flags: Option<(bool, bool)>,
    reach: &Reach,
    calls: &[Call],
    spot: &Spot,
) -> Result<Spot, NoMemory>
    ensures { IfOk result (λ after. (s : Start) (a : Amounts) → spot_of s a after ≡ steps.with_flags flags
        (steps.reached_spot (frame_to scene.now dt) (reach_value reach.now)
        (spot_of s a spot.now) (calls_of calls.now))) }
{
    let mut after = spot.copied(alloc)?;
    after.set_calls(Vec::from_slice(alloc, calls)?);
    after.set_bytes(facts_not_reached(alloc, scene, dt, reach, spot.bytes())?);
    after.set_last(last_not_reached(scene, dt, reach, spot.last()));
    after.with_flags(flags);
    Ok(after)
}

// The calls from a place of a list on.
fn calls_after(calls: &[Call], place: usize) -> &[Call]
    ensures { result.now ≡ drop place calls.now }
{
    &calls[place.min(calls.len())..]
}

// The places after a write within a reach, by the places of the open calls from which on they are left.
fn reached_each(
    alloc: Global,
    scene: &Scene,
    dt: u16,
    flags: Option<(bool, bool)>,
    reach: &Reach,
    calls: &[Call],
    list: &[usize],
    spot: &Spot,
) -> Result<Vec<Spot>, NoMemory>
    ensures { IfOk result (λ spots. (s : Start) (a : Amounts)
        → map (spot_of s a) spots.items ≡ map (λ i. steps.with_flags flags (steps.reached_spot (frame_to scene.now dt)
        (reach_value reach.now) (spot_of s a spot.now) (calls_of (drop i calls.now)))) list.now) }
{
    let mut spots = Vec::new(alloc);
    for place in list {
        let left = calls_after(calls, *place);
        let after = reached(alloc, scene, dt, flags, reach, left, spot)?;
        push(&mut spots, after)?;
    }
    Ok(spots)
}

// The places after a write within a reach.
fn writing(
    alloc: Global,
    scene: &Scene,
    dt: u16,
    flags: Option<(bool, bool)>,
    reach: &Reach,
    spot: &Spot,
) -> Result<Vec<Spot>, NoMemory>
    ensures { IfOk result (λ spots. (s : Start) (a : Amounts)
        → map (spot_of s a) spots.items ≡ map (λ ks. steps.with_flags flags
        (steps.reached_spot (frame_to scene.now dt) (reach_value reach.now) (spot_of s a spot.now) ks))
        (known.calls_hit (frame_to scene.now dt) (reach_value reach.now) spot.now.calls)) }
{
    let calls = spot.calls();
    let list = calls_hit(alloc, scene, dt, reach, calls)?;
    let spots = reached_each(alloc, scene, dt, flags, reach, calls, list.as_slice(), spot)?;
    Ok(spots)
}

// The place after a row that leads on.
fn leading(alloc: Global, flags: Option<(bool, bool)>, spot: &Spot) -> Result<Vec<Spot>, NoMemory>
    ensures { IfOk result (λ spots. (s : Start) (a : Amounts)
        → map (spot_of s a) spots.items ≡ steps.with_flags flags (spot_of s a spot.now) ∷ []) }
{
    let mut after = spot.copied(alloc)?;
    after.with_flags(flags);
    one(alloc, after)
}

/// Returns the places that follow a row of too many combinations from a place whose DT is already lowered, with this
/// DT of the scene; `facts` are those by which the row was found. It gives up where bytes go past the last address.
///
/// # Errors
///
/// Returns `NoMemory` if it is out of memory.
pub fn coarse_spots(
    alloc: Global,
    scene: &Scene,
    dt: u16,
    flags: Option<(bool, bool)>,
    coarse: Coarse,
    facts: &Facts,
    spot: &Spot,
) -> Result<Option<Vec<Spot>>, NoMemory>
    ensures { IfOk result (λ found. IfSome found (λ spots. (s : Start) (a : Amounts)
        → map (spot_of s a) spots.items ≡ steps.coarse_spots (frame_to scene.now dt) flags
        (coarse_value facts.now coarse) (spot_of s a spot.now))) }
{
    match coarse {
        Coarse::PushesAny(n) => pushing(alloc, n, spot),
        Coarse::Shifts(n) => shifting(alloc, n, spot),
        Coarse::Compares => Ok(Some(comparing(alloc, spot)?)),
        Coarse::Searches => searching(alloc, spot),
        Coarse::WritesWithin { at, lengths } => match reach_of(facts, at, lengths) {
            Some(reach) => Ok(Some(writing(alloc, scene, dt, flags, &reach, spot)?)),
            None => Ok(None),
        },
        Coarse::Leads => Ok(Some(leading(alloc, flags, spot)?)),
    }
}

/// Returns whether a row of too many combinations may reach static bytes, of which there are `fixed`, with this DT of
/// the scene. It gives up where bytes go past the last address.
pub fn reaches_static(
    scene: &Scene,
    dt: u16,
    coarse: Coarse,
    facts: &Facts,
    fixed: u16,
) -> Option<bool>
    ensures { IfSome result (λ reached. (x : Setting) → static_size x ≡ fixed
        → reached ≡ steps.reaches_static x (frame_to scene.now dt) (coarse_value facts.now coarse)) }
{
    match coarse {
        Coarse::WritesWithin { at, lengths } => match reach_of(facts, at, lengths) {
            Some(reach) => Some(some_reached(scene, dt, &reach, 0, fixed)),
            None => None,
        },
        _ => Some(false),
    }
}

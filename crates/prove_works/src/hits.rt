// What is left of facts, the last compare and the open calls after a write within a reach.
ghost use Rattle.std.specs.Prelude.{◌≡◌, ◌-◌, ◌||◌, ◌++◌, [], ◌∷◌, cond, IfOk, OnOk};
ghost use Rattle.prove_facts.specs.model_prove.specs.Facts.{without_byte};
ghost use Rattle.prove_facts.specs.model_prove.specs.Reach as known;
ghost use Rattle.prove_facts.specs.model_prove.specs.Sets.{all_bytes};
ghost use Rattle.prove_facts.specs.Sets.{set_of};
ghost use Rattle.prove_keys.specs.Compares.{said};
ghost use Rattle.prove_keys.specs.Keys.{calls_of, call_of};
ghost use Rattle.prove_scenes.specs.Scenes.{frame_to};
ghost use Rattle.prove_works.specs.Reaches.{reach_value, without_reached, calls_from};

use crate::reach::{Reach, is_reached, some_reached};
use model_device::NoMemory;
use prove_facts::{Facts, Values, push};
use prove_keys::{Call, Last, LastSaid, Order};
use prove_scenes::Scene;
use std::alloc::Global;

/// Returns the facts of bytes that are not reached, with this DT.
///
/// # Errors
///
/// Returns `NoMemory` if it is out of memory.
pub fn facts_not_reached(
    alloc: Global,
    scene: &Scene,
    dt: u16,
    reach: &Reach,
    facts: &Facts,
) -> Result<Facts, NoMemory>
    ensures { IfOk result (λ left. left ≡
        known.facts_not_reached (frame_to scene.now dt) (reach_value reach.now) facts.now) }
{
    let mut left = facts.copied(alloc)?;
    let list = facts.list();
    for fact in list {
        take_reached(&mut left, scene, dt, reach, fact.at)?;
    }
    Ok(left)
}

// Takes away the fact of a byte if it is reached.
fn take_reached(
    facts: &mut Facts,
    scene: &Scene,
    dt: u16,
    reach: &Reach,
    at: u16,
) -> Result<(), NoMemory>
    ensures { OnOk result (facts.new ≡
        without_reached (frame_to scene.now dt) (reach_value reach.now) at facts.old) }
{
    if is_reached(scene, dt, reach, at as u32) {
        return take(facts, at);
    }
    Ok(())
}

// Takes away the fact of a byte.
fn take(facts: &mut Facts, at: u16) -> Result<(), NoMemory>
    ensures { OnOk result (facts.new ≡ without_byte at facts.old) }
{
    facts.set(at, all())
}

// All values of a byte.
fn all() -> Values
    ensures { set_of result ≡ all_bytes }
{
    Values::ALL
}

/// Returns the last compare, unless one of its bytes is reached.
pub fn last_not_reached(scene: &Scene, dt: u16, reach: &Reach, last: &LastSaid) -> LastSaid
    ensures { said result ≡
        known.compare_not_reached (frame_to scene.now dt) (reach_value reach.now) (said last.now) }
{
    match last {
        LastSaid::Held(Last::Nothing) => *last,
        LastSaid::Held(Last::Bounds(bounds)) => unless(
            last,
            some_reached(scene, dt, reach, bounds.at, bounds.n),
        ),
        LastSaid::Held(Last::Order(order)) => unless(
            last,
            is_order_reached(scene, dt, reach, order),
        ),
        LastSaid::Tested { at, n, .. } => unless(last, some_reached(scene, dt, reach, *at, *n)),
    }
}

// A last compare, or nothing.
fn unless(last: &LastSaid, is_lost: bool) -> LastSaid
    ensures { result ≡ cond is_lost (LastSaid.Held Last.Nothing) last.now }
{
    if is_lost {
        return LastSaid::Held(Last::Nothing);
    }
    *last
}

// Whether a byte of one of two numbers is reached.
fn is_order_reached(scene: &Scene, dt: u16, reach: &Reach, order: &Order) -> bool
    ensures { result ≡ (known.some_reached (frame_to scene.now dt) (reach_value reach.now) order.now.first order.now.n
        || known.some_reached (frame_to scene.now dt) (reach_value reach.now) order.now.second order.now.n) }
{
    some_reached(scene, dt, reach, order.first, order.n)
        || some_reached(scene, dt, reach, order.second, order.n)
}

/// Returns the places of a list of open calls, the oldest first, from which on they are open after one was hit, or
/// none.
///
/// # Errors
///
/// Returns `NoMemory` if it is out of memory.
pub fn calls_hit(
    alloc: Global,
    scene: &Scene,
    dt: u16,
    reach: &Reach,
    calls: &[Call],
) -> Result<Vec<usize>, NoMemory>
    ensures { IfOk result (λ places. calls_from calls.now places.items ≡
        known.calls_hit (frame_to scene.now dt) (reach_value reach.now) (calls_of calls.now)) }
{
    let mut places = Vec::new(alloc);
    for passed in 0..calls.len() {
        let place = calls.len() - 1 - passed;
        push_if(
            &mut places,
            place + 1,
            is_hit(scene, dt, reach, &calls[place]),
        )?;
    }
    push(&mut places, 0)?;
    Ok(places)
}

// Appends a place, if something holds.
fn push_if(places: &mut Vec<usize>, place: usize, holds: bool) -> Result<(), NoMemory>
    ensures { OnOk result (places.new.items ≡ places.old.items ++ cond holds (place ∷ []) []) }
{
    if holds {
        return push(places, place);
    }
    Ok(())
}

// Whether a byte that a call saved is reached.
fn is_hit(scene: &Scene, dt: u16, reach: &Reach, call: &Call) -> bool
    ensures { result ≡
        known.some_reached (frame_to scene.now dt) (reach_value reach.now) ((call_of call.now).dt - 4) 4 }
{
    some_reached(scene, dt, reach, call.end.saturating_sub(4), 4)
}

// What an access can reach at one of the addresses that two bytes may be.
ghost use Rattle.std.specs.Prelude.{◌≡◌, ℕ, ◌+◌, ◌-◌, ◌/◌, ◌%◌, ◌<◌, nat_lt, nat_le, not, ◌&&◌, filter, [], IfSome};
ghost use Rattle.mc_arith.specs.model_machine.specs.Frame.{is_outside};
ghost use Rattle.prove_facts.specs.model_prove.specs.Sets.{is_in, is_empty, common};
ghost use Rattle.prove_facts.specs.model_prove.specs.Reach.{reach_at, is_reached, some_reached};
ghost use Rattle.prove_facts.specs.Sets.{set_of, has_value};
ghost use Rattle.prove_scenes.specs.Coarse.{lengths_value};
ghost use Rattle.prove_scenes.specs.Scenes.{frame_to};
ghost use Rattle.prove_works.specs.Reaches.{reach_value, has_length, reaches};

use crate::lists::{has, none};
use prove_facts::{Facts, Values};
use prove_keys::{DYNAMIC, PUBLIC, PUBLIC_END};
use prove_scenes::{Lengths, Scene};

/// The addresses that two bytes may be, and the lengths of an access there.
#[derive(Clone, Copy, Debug, PartialEq, Eq)]
pub struct Reach {
    pub high: Values,
    pub low: Values,
    pub lengths: Values,
}

/// Returns what an access can reach at the addresses that the two bytes at a place may be, or `None` if the second of
/// them has no address.
pub fn reach_of(facts: &Facts, at: u16, lengths: Lengths) -> Option<Reach>
    ensures { IfSome result (λ r. reach_value r ≡ reach_at facts.now at (lengths_value facts.now lengths)) }
{
    if at == u16::MAX {
        return None;
    }
    let lengths = lengths_of(facts, lengths)?;
    Some(Reach {
        high: facts.at(at),
        low: facts.at(at + 1),
        lengths,
    })
}

// The lengths of a write.
fn lengths_of(facts: &Facts, lengths: Lengths) -> Option<Values>
    ensures { IfSome result (λ r. set_of r ≡ lengths_value facts.now lengths) }
{
    match lengths {
        Lengths::One(n) => Some(Values::one(n)),
        Lengths::Names => Some(names()),
        Lengths::At(at) => lengths_at(facts, at),
    }
}

// The lengths of a name after its length.
fn names() -> Values
    ensures { set_of result ≡ lengths_value [] Lengths.Names }
{
    Values::range(6, 17)
}

// The lengths that the two bytes at a place may be.
fn lengths_at(facts: &Facts, at: u16) -> Option<Values>
    ensures { IfSome result (λ r. set_of r ≡ lengths_value facts.now (Lengths.At at)) }
{
    if at == u16::MAX {
        return None;
    }
    if !has(&facts.at(at), 0) {
        return Some(none());
    }
    Some(positive(&facts.at(at + 1)))
}

// The values above 0.
fn positive(values: &Values) -> Values
    ensures { set_of result ≡ filter (λ v. nat_lt 0 v) (set_of values.now) }
{
    values.and(&Values::range(1, 255))
}

// The address at which the segment with the byte at an address ends, or one that is not above it.
fn end_of(scene: &Scene, dt: u16, at: u32) -> u32
    ensures { (n : ℕ) → 0 < n → nat_le (at + n) result ≡ not (is_outside (frame_to scene.now dt) at n) }
{
    let fixed = scene.fixed_len() as u32;
    let dynamic = if at >= DYNAMIC as u32 { dt as u32 } else { 0 };
    let public = if at >= PUBLIC as u32 {
        PUBLIC_END as u32
    } else {
        0
    };
    fixed.max(dynamic).max(public)
}

// The lengths that have the byte some bytes after an address, and end by another.
fn long_lengths(at: u32, after: u8, end: u32) -> Values
    ensures { (v : ℕ) → v < 256 → has_value result v ≡ (nat_lt after v && nat_le (at + v) end) }
{
    let room = end.saturating_sub(at).min(255) as u8;
    if room <= after {
        return none();
    }
    Values::range(after + 1, room)
}

// Whether one of some lengths has the byte that lies some bytes after an address, and lies whole in a segment.
fn has_length(scene: &Scene, dt: u16, lengths: &Values, at: u32, after: u8) -> bool
    ensures { result ≡ has_length (frame_to scene.now dt) (set_of lengths.now) at after }
{
    let end = end_of(scene, dt, at);
    let long = long_lengths(at, after, end);
    !are_apart(lengths, &long)
}

// Whether two sets have no value in common.
fn are_apart(values: &Values, other: &Values) -> bool
    ensures { result ≡ is_empty (common (set_of values.now) (set_of other.now)) }
{
    values.and(other).is_empty()
}

// Whether the two bytes may be an address.
fn is_start(reach: &Reach, at: u32) -> bool
    ensures { result ≡ (is_in (at / 256) (set_of reach.now.high) && is_in (at % 256) (set_of reach.now.low)) }
{
    if at >= 65536 {
        return false;
    }
    has(&reach.high, (at / 256) as u8) && has(&reach.low, (at % 256) as u8)
}

// Whether an access reaches a byte from some bytes before it.
fn reaches(scene: &Scene, dt: u16, reach: &Reach, at: u32, before: u8) -> bool
    ensures { result ≡ reaches (frame_to scene.now dt) (reach_value reach.now) at before }
{
    if before as u32 > at {
        return false;
    }
    let start = at - before as u32;
    is_start(reach, start) && has_length(scene, dt, &reach.lengths, start, before)
}

/// Returns whether a byte may be reached, with this DT.
pub fn is_reached(scene: &Scene, dt: u16, reach: &Reach, at: u32) -> bool
    ensures { result ≡ is_reached (frame_to scene.now dt) (reach_value reach.now) at }
{
    for before in 0..255u8 {
        if reaches(scene, dt, reach, at, before) {
            return true;
        }
    }
    false
}

/// Returns whether one of some bytes may be reached, with this DT.
pub fn some_reached(scene: &Scene, dt: u16, reach: &Reach, at: u16, count: u16) -> bool
    ensures { result ≡ some_reached (frame_to scene.now dt) (reach_value reach.now) at count }
{
    for i in 0..count {
        if is_reached(scene, dt, reach, at as u32 + i as u32) {
            return true;
        }
    }
    false
}

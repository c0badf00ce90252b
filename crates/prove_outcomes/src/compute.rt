// Rows that compute on digits: their outcomes by final flags, narrowed operands, and the last compare.
use crate::state::{Segment, Sizes, State, plain, where_is};
use crate::step::{Step, goes_or_wrote, limit};
use model_device::NoMemory;
use prove_digits::{Digit, Way, ways};
use prove_facts::{Form, Origin, Values, form_of, mask, push};
use prove_keys::{Bounds, Last, Order};
use std::alloc::Global;

/// A computation on the n bytes at an address, with n bytes at a second one or with a constant.
#[derive(Clone, Copy)]
pub struct Computation {
    pub digit: Digit,
    pub first: u16,
    pub n: u16,
    pub second: Option<u16>,
    pub constant: u128,
    pub writes: bool,
    pub carries: bool,
}

// The byte of a constant i bytes above its end.
fn byte_of(constant: u128, i: u16) -> u8 {
    if i >= 16 {
        0
    } else {
        (constant >> (8 * i) & 255) as u8
    }
}

fn constant_values(alloc: Global, constant: u128, n: u16) -> Result<Vec<Values>, NoMemory> {
    let mut out = Vec::new(alloc);
    for i in 0..n {
        push(
            &mut out,
            Values::one(byte_of(constant, n.saturating_sub(1).saturating_sub(i))),
        )?;
    }
    Ok(out)
}

fn sum_is_possible(n: u16, k: u128, low: u128, high: u128, c: bool, z: bool) -> bool {
    let room = mask(n).saturating_sub(k);
    match (c, z) {
        (false, true) => k == 0 && low == 0,
        (false, false) => low.max(if k == 0 { 1 } else { 0 }) <= high.min(room),
        (true, true) => k != 0 && low <= room.saturating_add(1) && room < high,
        (true, false) => k > 1 && high > room.saturating_add(1),
    }
}

fn difference_is_possible(k: u128, low: u128, high: u128, c: bool, z: bool) -> bool {
    match (c, z) {
        (true, true) => false,
        (true, false) => low < k,
        (false, true) => low <= k && k <= high,
        (false, false) => high > k,
    }
}

// Whether bounds of the operand let a pair of flags come.
fn is_within(bounds: &Bounds, compute: &Computation, c: bool, z: bool) -> bool {
    if bounds.at != compute.first || bounds.n != compute.n || compute.second.is_some() {
        return true;
    }
    match compute.digit {
        Digit::First => if z { bounds.low == 0 } else { bounds.high > 0 },
        Digit::Sub => difference_is_possible(compute.constant, bounds.low, bounds.high, c, z),
        Digit::Add => sum_is_possible(bounds.n, compute.constant, bounds.low, bounds.high, c, z),
        _ => true,
    }
}

// Whether a known order of the operands lets a pair of flags come.
fn is_ordered(order: &Order, compute: &Computation, c: bool, z: bool) -> bool {
    let same = order.first == compute.first
        && order.n == compute.n
        && compute.second == Some(order.second);
    if !same || compute.digit != Digit::Sub {
        return true;
    }
    if c {
        order.less
    } else if z {
        order.equal
    } else {
        order.greater
    }
}

// Whether the last compare lets a pair of flags come.
fn is_possible(last: &Last, compute: &Computation, c: bool, z: bool) -> bool {
    match last {
        Last::Nothing => true,
        Last::Bounds(bounds) => is_within(bounds, compute, c, z),
        Last::Order(order) => is_ordered(order, compute, c, z),
    }
}

// The bounds that a compare with a constant gives, by its flags.
fn bounds_by_flags(compute: &Computation, c: bool, z: bool) -> Last {
    let (at, n, k) = (compute.first, compute.n, compute.constant);
    let (low, high) = if c {
        (0, k.saturating_sub(1))
    } else if z {
        (k, k)
    } else {
        (k.saturating_add(1), mask(n))
    };
    Last::Bounds(Bounds { at, n, low, high })
}

// What a compare or a test says of its bytes, by its flags.
fn said(compute: &Computation, c: bool, z: bool) -> Last {
    let (at, n) = (compute.first, compute.n);
    match compute.second {
        None if compute.digit == Digit::First => {
            let (low, high) = if z { (0, 0) } else { (1, mask(n)) };
            Last::Bounds(Bounds { at, n, low, high })
        }
        None => bounds_by_flags(compute, c, z),
        Some(second) => Last::Order(Order {
            first: at,
            second,
            n,
            less: c,
            equal: z && !c,
            greater: !c && !z,
        }),
    }
}

fn is_compare(compute: &Computation) -> bool {
    !compute.writes && (compute.digit == Digit::Sub || compute.digit == Digit::First)
}

// By what an operand moves a block.
fn form_moved(
    alloc: Global,
    state: &State,
    compute: &Computation,
) -> Result<(Option<Form>, u128), NoMemory> {
    let times = if compute.digit == Digit::Sub {
        u128::MAX
    } else {
        1
    };
    if state.known.sums.is_idle() || (compute.digit != Digit::Add && compute.digit != Digit::Sub) {
        return Ok((None, times));
    }
    let Some(second) = compute.second else {
        return Ok((Some(Form::constant(alloc, compute.constant)), times));
    };
    let origins = origins_of(alloc, state, second, compute.n)?;
    Ok((form_of(alloc, origins.as_slice())?, times))
}

// Where the n bytes at an address come from.
fn origins_of(alloc: Global, state: &State, at: u16, n: u16) -> Result<Vec<Origin>, NoMemory> {
    let mut origins = Vec::new(alloc);
    for i in 0..n {
        push(&mut origins, state.known.sums.origin(at.saturating_add(i)))?;
    }
    Ok(origins)
}

// The operands that are left as they are have only the values of a way.
fn narrow_operands(next: &mut State, compute: &Computation, way: &Way) -> Result<(), NoMemory> {
    if let Some(second) = compute.second {
        next.narrow_all(second, way.y.as_slice())?;
    }
    if compute.writes {
        Ok(())
    } else {
        next.narrow_all(compute.first, way.x.as_slice())
    }
}

fn write_result(
    alloc: Global,
    sizes: &Sizes<'_>,
    state: &State,
    compute: &Computation,
    way: &Way,
    next: &mut State,
) -> Result<(), NoMemory> {
    let (form, times) = form_moved(alloc, state, compute)?;
    let mut bytes = Vec::new(alloc);
    for values in &way.r {
        push(&mut bytes, plain(*values))?;
    }
    next.write_moved(alloc, sizes, compute.first, bytes.as_slice(), &form, times)
}

fn outcome(
    alloc: Global,
    sizes: &Sizes<'_>,
    state: &State,
    compute: &Computation,
    way: &Way,
    segment: Segment,
) -> Result<Option<Step>, NoMemory> {
    let mut next = state.copied(alloc)?;
    narrow_operands(&mut next, compute, way)?;
    if next.is_empty(compute.first, compute.n) {
        return Ok(None);
    }
    next.registers.z = way.z;
    if compute.carries {
        next.registers.c = way.c;
    }
    if is_compare(compute) {
        next.known.last = said(compute, way.c, way.z);
    }
    if !compute.writes {
        return Ok(Some(Step::Goes(next)));
    }
    write_result(alloc, sizes, state, compute, way, &mut next)?;
    Ok(Some(goes_or_wrote(next, segment)))
}

// The values of the second operand.
fn second_values(
    alloc: Global,
    state: &State,
    compute: &Computation,
) -> Result<Vec<Values>, NoMemory> {
    match compute.second {
        Some(second) => state.values_of(alloc, second, compute.n),
        None => constant_values(alloc, compute.constant, compute.n),
    }
}

/// The outcomes of a computation whose bytes are whole in a segment.
///
/// # Errors
///
/// Returns `NoMemory` if it is out of memory.
pub fn compute_at(
    alloc: Global,
    sizes: &Sizes<'_>,
    state: &State,
    compute: &Computation,
    segment: Segment,
    out: &mut Vec<Step>,
) -> Result<(), NoMemory> {
    let xs = state.values_of(alloc, compute.first, compute.n)?;
    let ys = second_values(alloc, state, compute)?;
    let found = ways(alloc, compute.digit, xs.as_slice(), ys.as_slice())?;
    go_by_ways(alloc, sizes, state, compute, found.as_slice(), segment, out)
}

fn go_by_ways(
    alloc: Global,
    sizes: &Sizes<'_>,
    state: &State,
    compute: &Computation,
    found: &[Way],
    segment: Segment,
    out: &mut Vec<Step>,
) -> Result<(), NoMemory> {
    for way in found {
        if is_possible(&state.known.last, compute, way.c, way.z) {
            if let Some(step) = outcome(alloc, sizes, state, compute, way, segment)? {
                push(out, step)?;
            }
        }
    }
    Ok(())
}

/// The outcomes of a computation at an address that may be none: abend 03 if its bytes are outside.
///
/// # Errors
///
/// Returns `NoMemory` if it is out of memory.
pub fn compute(
    alloc: Global,
    sizes: &Sizes<'_>,
    state: &State,
    first: Option<u16>,
    compute: &Computation,
    out: &mut Vec<Step>,
) -> Result<(), NoMemory> {
    let segment = match first {
        Some(at) => where_is(sizes, state.registers.dt, at, compute.n),
        None => None,
    };
    let Some(segment) = segment else {
        return push(out, Step::Abends(3));
    };
    if compute.writes {
        limit(sizes, state, segment, out)?;
    }
    compute_at(alloc, sizes, state, compute, segment, out)
}

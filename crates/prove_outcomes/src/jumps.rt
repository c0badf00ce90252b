// Where the code goes on: branches, jumps, calls and returns.
use crate::shared::known_word;
use crate::state::{Sizes, State};
use crate::step::{Step, abend, goes};
use model_device::NoMemory;
use prove_facts::{Values, push};
use prove_keys::Call;
use std::alloc::Global;

type Grown = Result<(), NoMemory>;

// Whether a condition holds.
fn holds(cond: u8, c: bool, z: bool) -> bool {
    match cond {
        1 => z,
        2 => c,
        3 => c || z,
        4 => !(c || z),
        5 => !c,
        6 => !z,
        _ => true,
    }
}

fn go_to(sizes: &Sizes<'_>, state: State, to: i32, out: &mut Vec<Step>) -> Grown {
    if to < 0 || to >= sizes.code as i32 {
        return abend(2, out);
    }
    let mut next = state;
    next.registers.at = to as u16;
    goes(next, out)
}

fn enter(alloc: Global, sizes: &Sizes<'_>, state: State, to: i32, out: &mut Vec<Step>) -> Grown {
    if to < 0 || to >= sizes.code as i32 {
        return abend(2, out);
    }
    if state.is_over(4) {
        return abend(5, out);
    }
    let mut next = state;
    open_call(alloc, &mut next)?;
    next.registers.at = to as u16;
    goes(next, out)
}

// Saves LB and the place on the stack, and begins the routine's own part of it.
fn open_call(alloc: Global, next: &mut State) -> Grown {
    let place = next.registers.at;
    let lb = next.registers.lb;
    next.push(&known_word(lb))?;
    next.push(&known_word(place))?;
    let end = next.registers.dt;
    next.calls = calls_with(alloc, next.calls.as_slice(), Call { end, lb, place })?;
    next.registers.lb = end;
    Ok(())
}

fn calls_with(alloc: Global, calls: &[Call], call: Call) -> Result<Vec<Call>, NoMemory> {
    let mut all = Vec::from_slice(alloc, calls)?;
    push(&mut all, call)?;
    Ok(all)
}

fn go_or_enter(
    alloc: Global,
    sizes: &Sizes<'_>,
    state: State,
    calls: bool,
    to: i32,
    out: &mut Vec<Step>,
) -> Grown {
    if calls {
        enter(alloc, sizes, state, to, out)
    } else {
        go_to(sizes, state, to, out)
    }
}

// To each place of the code that two sets allow; 02 where they allow another.
fn go_from_stack(
    alloc: Global,
    sizes: &Sizes<'_>,
    state: &State,
    calls: bool,
    out: &mut Vec<Step>,
) -> Grown {
    if state.is_under(sizes, 2) {
        return abend(4, out);
    }
    let at = state.registers.dt.saturating_sub(2);
    let highs = state.values(at);
    let lows = state.values(at.saturating_add(1));
    let mut popped = state.copied(alloc)?;
    popped.pop(alloc, sizes, 2)?;
    if go_high(alloc, sizes, &popped, calls, &highs, &lows, out)? {
        abend(2, out)
    } else {
        Ok(())
    }
}

// Whether some place is outside the code.
fn go_high(
    alloc: Global,
    sizes: &Sizes<'_>,
    popped: &State,
    calls: bool,
    highs: &Values,
    lows: &Values,
    out: &mut Vec<Step>,
) -> Result<bool, NoMemory> {
    let mut outside = false;
    for high in 0..=255u8 {
        if highs.has(high) {
            outside = go_low(alloc, sizes, popped, calls, high, lows, out)? || outside;
        }
    }
    Ok(outside)
}

fn go_low(
    alloc: Global,
    sizes: &Sizes<'_>,
    popped: &State,
    calls: bool,
    high: u8,
    lows: &Values,
    out: &mut Vec<Step>,
) -> Result<bool, NoMemory> {
    let mut outside = false;
    for low in 0..=255u8 {
        if lows.has(low) {
            let to = high as u16 * 256 + low as u16;
            if to < sizes.code {
                go_or_enter(alloc, sizes, popped.copied(alloc)?, calls, to as i32, out)?;
            } else {
                outside = true;
            }
        }
    }
    Ok(outside)
}

/// The outcomes of a jump or a call.
///
/// # Errors
///
/// Returns `NoMemory` if it is out of memory.
pub fn jump(
    alloc: Global,
    sizes: &Sizes<'_>,
    state: &State,
    calls: bool,
    cond: u8,
    to: u16,
    out: &mut Vec<Step>,
) -> Grown {
    if cond == 0 {
        return go_from_stack(alloc, sizes, state, calls, out);
    }
    let next = state.copied(alloc)?;
    if !holds(cond, state.registers.c, state.registers.z) {
        return goes(next, out);
    }
    go_or_enter(alloc, sizes, next, calls, to as i32, out)
}

/// The outcomes of a branch.
///
/// # Errors
///
/// Returns `NoMemory` if it is out of memory.
pub fn branch(
    alloc: Global,
    sizes: &Sizes<'_>,
    state: &State,
    cond: u8,
    d: i8,
    out: &mut Vec<Step>,
) -> Grown {
    let next = state.copied(alloc)?;
    if !holds(cond, state.registers.c, state.registers.z) {
        return goes(next, out);
    }
    let to = state.registers.at as i32 + d as i32;
    go_to(sizes, next, to, out)
}

/// The outcomes of a return.
///
/// # Errors
///
/// Returns `NoMemory` if it is out of memory.
pub fn come_back(
    alloc: Global,
    sizes: &Sizes<'_>,
    state: &State,
    i: u8,
    o: u8,
    out: &mut Vec<Step>,
) -> Grown {
    let lb = state.registers.lb;
    let needed = sizes.floor() as u32 + 4 + i as u32;
    if (lb as u32) < needed || lb as u32 + o as u32 > state.registers.dt as u32 {
        return abend(4, out);
    }
    match state.calls.get(state.calls.len().saturating_sub(1)) {
        Some(call) if call.end == lb => {
            if call.place >= sizes.code {
                return abend(2, out);
            }
            let base = lb.saturating_sub(4).saturating_sub(i as u16);
            let mut next = state.copied(alloc)?;
            close_call(alloc, sizes, &mut next, call, base, o as u16)?;
            goes(next, out)
        }
        _ => push(out, Step::Unknown),
    }
}

// Returns from the last call: the top n bytes go to an address of the stack, which ends after them.
fn close_call(
    alloc: Global,
    sizes: &Sizes<'_>,
    next: &mut State,
    call: &Call,
    base: u16,
    n: u16,
) -> Grown {
    let dt = next.registers.dt;
    let moved = next.bytes_of(alloc, dt.saturating_sub(n), n)?;
    next.registers.lb = call.lb;
    next.registers.at = call.place;
    let open = next.calls.len();
    next.calls.truncate(open.saturating_sub(1));
    next.pop(alloc, sizes, dt.saturating_sub(base))?;
    next.push(moved.as_slice())
}

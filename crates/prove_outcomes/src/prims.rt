// The outcomes of each primitive.
use crate::coarse::coarse_write;
use crate::numbers::{NumberRow, cipher, fixed, numbers};
use crate::shared::{after_pop, top, values_in, with_flags};
use crate::shifts::{bits, shift};
use crate::splitting::{MOST, number_at, split};
use crate::state::{Byte, Sizes, State, is_outside, known_byte, plain, where_is};
use crate::step::{Step, abend, goes, goes_or_wrote, limit};
use model_device::NoMemory;
use prove_facts::{Values, push};
use std::alloc::Global;

type Grown = Result<(), NoMemory>;

// ---- flags and small rows

fn check_case(alloc: Global, sizes: &Sizes<'_>, state: &State, out: &mut Vec<Step>) -> Grown {
    if state.is_under(sizes, 1) {
        return abend(4, out);
    }
    let values = top_byte(state);
    let cases = Values::range(1, 4);
    if !values.is_within(&cases) {
        abend(6, out)?;
    }
    if values.and(&cases).is_empty() {
        return Ok(());
    }
    say_either(alloc, &after_pop(alloc, sizes, state, 1)?, out)
}

// The values of the byte on top of the stack.
fn top_byte(state: &State) -> Values {
    state.values(state.registers.dt.saturating_sub(1))
}

// Zero is set or not.
fn say_either(alloc: Global, next: &State, out: &mut Vec<Step>) -> Grown {
    with_flags(alloc, next, next.registers.c, false, out)?;
    with_flags(alloc, next, next.registers.c, true, out)
}

fn load_flags(alloc: Global, state: &State, out: &mut Vec<Step>) -> Grown {
    if state.is_over(1) {
        return abend(5, out);
    }
    let value = match (state.registers.c, state.registers.z) {
        (false, false) => 0,
        (false, true) => 1,
        (true, false) => 2,
        (true, true) => 3,
    };
    let mut next = state.copied(alloc)?;
    next.push(&[known_byte(value)])?;
    goes(next, out)
}

const FLAGS: [u8; 4] = [0, 1, 2, 3];

fn store_flags(alloc: Global, sizes: &Sizes<'_>, state: &State, out: &mut Vec<Step>) -> Grown {
    if state.is_under(sizes, 1) {
        return abend(4, out);
    }
    let values = top_byte(state);
    set_flags(alloc, &after_pop(alloc, sizes, state, 1)?, &values, out)
}

// The flags that the lowest two bits of some values spell.
fn set_flags(alloc: Global, next: &State, values: &Values, out: &mut Vec<Step>) -> Grown {
    for flags in FLAGS {
        if has_flags(values, flags) {
            with_flags(alloc, next, flags >= 2, flags % 2 == 1, out)?;
        }
    }
    Ok(())
}

// Whether some value has these lowest two bits.
fn has_flags(values: &Values, flags: u8) -> bool {
    for k in 0..64u8 {
        if values.has((4 * k).saturating_add(flags)) {
            return true;
        }
    }
    false
}

// ---- lookup

fn lookup(alloc: Global, sizes: &Sizes<'_>, state: &State, out: &mut Vec<Step>) -> Grown {
    if state.is_under(sizes, 3) {
        return abend(4, out);
    }
    let value = state.values(state.registers.dt.saturating_sub(3));
    let address = top(alloc, state, 2)?;
    let next = after_pop(alloc, sizes, state, 3)?;
    match split(alloc, address.as_slice())? {
        None => lookup_any(alloc, &next, &value, out),
        Some(rows) => lookup_each(alloc, sizes, &next, &value, rows.as_slice(), out),
    }
}

// Each address by itself, if there are not too many counts at them.
fn lookup_each(
    alloc: Global,
    sizes: &Sizes<'_>,
    next: &State,
    value: &Values,
    rows: &[u8],
    out: &mut Vec<Step>,
) -> Grown {
    if counts_of(sizes, next, rows) > MOST {
        return lookup_any(alloc, next, value, out);
    }
    for row in rows.chunks(2) {
        lookup_at(alloc, sizes, next, value, number_at(row, 0), out)?;
    }
    Ok(())
}

// The number of combinations of addresses and of the counts at them.
fn counts_of(sizes: &Sizes<'_>, state: &State, rows: &[u8]) -> u32 {
    let mut count: u32 = 0;
    for row in rows.chunks(2) {
        let at = number_at(row, 0);
        let more = if is_outside(sizes, state.registers.dt, at, 1) {
            1
        } else {
            state.values(at).count()
        };
        count = count.saturating_add(more);
    }
    count
}

fn lookup_any(alloc: Global, next: &State, value: &Values, out: &mut Vec<Step>) -> Grown {
    abend(3, out)?;
    if value.is_empty() {
        return Ok(());
    }
    found(alloc, next, &Values::below(255), true, out)?;
    found(alloc, next, &Values::one(0), false, out)
}

fn found(alloc: Global, state: &State, index: &Values, z: bool, out: &mut Vec<Step>) -> Grown {
    let mut next = state.copied(alloc)?;
    next.push(&[plain(*index)])?;
    next.registers.z = z;
    goes(next, out)
}

fn lookup_at(
    alloc: Global,
    sizes: &Sizes<'_>,
    state: &State,
    value: &Values,
    at: u16,
    out: &mut Vec<Step>,
) -> Grown {
    if is_outside(sizes, state.registers.dt, at, 1) {
        return abend(3, out);
    }
    let counts = state.values(at);
    for count in 0..=255u8 {
        if counts.has(count) {
            lookup_in(alloc, sizes, state, value, at, count, out)?;
        }
    }
    Ok(())
}

fn lookup_in(
    alloc: Global,
    sizes: &Sizes<'_>,
    state: &State,
    value: &Values,
    at: u16,
    count: u8,
    out: &mut Vec<Step>,
) -> Grown {
    let from = at.saturating_add(1);
    if is_outside(sizes, state.registers.dt, from, count as u16) {
        return abend(3, out);
    }
    let mut next = state.copied(alloc)?;
    next.narrow(at, &Values::one(count))?;
    let (places, left) = places_of(&next, value, from, count);
    if !places.is_empty() {
        found(alloc, &next, &places, true, out)?;
    }
    if left.is_empty() {
        Ok(())
    } else {
        found(alloc, &next, &Values::one(0), false, out)
    }
}

// The places among the bytes from an address at which some value may be found first, and the values that may be found at
// none.
fn places_of(state: &State, value: &Values, from: u16, count: u8) -> (Values, Values) {
    let mut left = *value;
    let mut places = Values::NONE;
    for i in 0..count {
        let there = state.values(from.saturating_add(i as u16));
        if !left.and(&there).is_empty() {
            places = places.with(i);
        }
        if there.only().is_some() {
            left = left.and(&there.not());
        }
    }
    (places, left)
}

// ---- delegation

fn delegate(alloc: Global, sizes: &Sizes<'_>, state: &State, out: &mut Vec<Step>) -> Grown {
    if state.is_under(sizes, 2) {
        return abend(4, out);
    }
    let sets = top(alloc, state, 2)?;
    let next = after_pop(alloc, sizes, state, 2)?;
    match split(alloc, sets.as_slice())? {
        Some(rows) if counts_of(sizes, &next, rows.as_slice()) <= MOST => {
            delegate_each(alloc, sizes, &next, rows.as_slice(), out)
        }
        _ => delegate_any(next, out),
    }
}

fn delegate_any(next: State, out: &mut Vec<Step>) -> Grown {
    abend(3, out)?;
    abend(6, out)?;
    push(out, Step::Delegates(next))
}

fn delegate_each(
    alloc: Global,
    sizes: &Sizes<'_>,
    next: &State,
    rows: &[u8],
    out: &mut Vec<Step>,
) -> Grown {
    for row in rows.chunks(2) {
        delegate_at(alloc, sizes, next, number_at(row, 0), out)?;
    }
    Ok(())
}

fn delegate_at(
    alloc: Global,
    sizes: &Sizes<'_>,
    state: &State,
    at: u16,
    out: &mut Vec<Step>,
) -> Grown {
    if is_outside(sizes, state.registers.dt, at, 1) {
        return abend(3, out);
    }
    let counts = state.values(at);
    let named = Values::range(5, 16);
    if !counts.is_within(&named) {
        abend(6, out)?;
    }
    let whole = whole_names(sizes, state, at.saturating_add(1), &counts, out)?;
    if whole.is_empty() {
        return Ok(());
    }
    let mut next = state.copied(alloc)?;
    next.narrow(at, &whole)?;
    push(out, Step::Delegates(next))
}

// The lengths of names at an address that are whole in a segment; the others abend.
fn whole_names(
    sizes: &Sizes<'_>,
    state: &State,
    from: u16,
    counts: &Values,
    out: &mut Vec<Step>,
) -> Result<Values, NoMemory> {
    let mut whole = Values::NONE;
    for count in 5..=16u8 {
        if counts.has(count) {
            if is_outside(sizes, state.registers.dt, from, count as u16) {
                abend(3, out)?;
            } else {
                whole = whole.with(count);
            }
        }
    }
    Ok(whole)
}

fn delegator(
    alloc: Global,
    sizes: &Sizes<'_>,
    delegated: bool,
    state: &State,
    out: &mut Vec<Step>,
) -> Grown {
    if state.is_under(sizes, 2) {
        return abend(4, out);
    }
    let sets = top(alloc, state, 2)?;
    let mut next = after_pop(alloc, sizes, state, 2)?;
    next.registers.z = !delegated;
    if !delegated {
        return goes(next, out);
    }
    name_anywhere(alloc, sizes, &next, sets.as_slice(), out)
}

// The delegator's name, of each length, at each address that two bytes allow.
fn name_anywhere(
    alloc: Global,
    sizes: &Sizes<'_>,
    next: &State,
    sets: &[Values],
    out: &mut Vec<Step>,
) -> Grown {
    let (highs, lows) = (values_in(sets, 0), values_in(sets, 1));
    match split(alloc, sets)? {
        None => coarse_write(
            alloc,
            sizes,
            next,
            &highs,
            &lows,
            &Values::range(6, 17),
            out,
        ),
        Some(rows) => names_written(alloc, sizes, next, rows.as_slice(), out),
    }
}

fn names_written(
    alloc: Global,
    sizes: &Sizes<'_>,
    next: &State,
    rows: &[u8],
    out: &mut Vec<Step>,
) -> Grown {
    for row in rows.chunks(2) {
        for len in 5..=16u8 {
            name_written(alloc, sizes, next, number_at(row, 0), len, out)?;
        }
    }
    Ok(())
}

fn name_written(
    alloc: Global,
    sizes: &Sizes<'_>,
    state: &State,
    at: u16,
    len: u8,
    out: &mut Vec<Step>,
) -> Grown {
    let Some(segment) = where_is(sizes, state.registers.dt, at, len as u16 + 1) else {
        return abend(3, out);
    };
    limit(sizes, state, segment, out)?;
    let bytes = name_bytes(alloc, len)?;
    let mut next = state.copied(alloc)?;
    next.write(alloc, sizes, at, bytes.as_slice())?;
    push(out, goes_or_wrote(next, segment))
}

// A length, and a name of this length.
fn name_bytes(alloc: Global, len: u8) -> Result<Vec<Byte>, NoMemory> {
    let mut bytes = Vec::new(alloc);
    push(&mut bytes, known_byte(len))?;
    for _ in 0..len {
        push(&mut bytes, plain(Values::ALL))?;
    }
    Ok(bytes)
}

// ---- protection

fn protect(alloc: Global, state: &State, mode: u8, out: &mut Vec<Step>) -> Grown {
    if mode > 3 {
        return abend(6, out);
    }
    let commits = mode % 2 == 1;
    let mut next = state.copied(alloc)?;
    if !commits {
        next.drop_waiting(alloc)?;
    }
    next.protect(alloc, mode >= 2)?;
    if commits && state.registers.protected {
        return push(out, Step::Wrote(next));
    }
    push(out, Step::Goes(next))
}

// ---- the table

/// The outcomes of a primitive.
pub fn prim(
    alloc: Global,
    sizes: &Sizes<'_>,
    set: u8,
    number: u8,
    args: &[u8; 3],
    delegated: bool,
    s: &State,
    out: &mut Vec<Step>,
) -> Grown {
    let [first, second, third] = *args;
    let word = second as u16 * 256 + third as u16;
    match (set, number) {
        (0, _) => plain_prim(alloc, sizes, number, delegated, s, out),
        (1, _) => measured_prim(alloc, sizes, number, first, s, out),
        (2, 1) => bits(alloc, sizes, s, first, second as u16, 1, out),
        (2, 2) => shift(alloc, sizes, s, true, first, second, out),
        (2, 3) => shift(alloc, sizes, s, false, first, second, out),
        (3, 1) => bits(alloc, sizes, s, first, word, 2, out),
        _ => abend(6, out),
    }
}

// The primitives without an argument.
fn plain_prim(
    alloc: Global,
    sizes: &Sizes<'_>,
    number: u8,
    delegated: bool,
    s: &State,
    out: &mut Vec<Step>,
) -> Grown {
    match number {
        1 => check_case(alloc, sizes, s, out),
        2 => load_flags(alloc, s, out),
        3 => store_flags(alloc, sizes, s, out),
        4 => lookup(alloc, sizes, s, out),
        5 => numbers(alloc, sizes, s, NumberRow::Compare, out),
        6 => numbers(alloc, sizes, s, NumberRow::Copy, out),
        7 => delegate(alloc, sizes, s, out),
        8 => delegator(alloc, sizes, delegated, s, out),
        9 => numbers(alloc, sizes, s, NumberRow::Digest, out),
        _ => abend(6, out),
    }
}

// The primitives with one argument, which is a length or the mode of protection.
fn measured_prim(
    alloc: Global,
    sizes: &Sizes<'_>,
    number: u8,
    n: u8,
    s: &State,
    out: &mut Vec<Step>,
) -> Grown {
    match number {
        1 => fixed(alloc, sizes, s, false, n, out),
        2 => fixed(alloc, sizes, s, true, n, out),
        3 => protect(alloc, s, n, out),
        4 | 5 => cipher(alloc, sizes, s, 8, 8, false, n, out),
        6 | 7 => cipher(alloc, sizes, s, 8, 16, false, n, out),
        8 => cipher(alloc, sizes, s, 8, 8, true, n, out),
        9 => cipher(alloc, sizes, s, 8, 16, true, n, out),
        10 | 11 => cipher(alloc, sizes, s, 16, 16, false, n, out),
        12 => cipher(alloc, sizes, s, 16, 16, true, n, out),
        _ => abend(6, out),
    }
}

// The outcomes of each instruction, primitives apart.
use crate::coarse::coarse_write;
use crate::compute::{Computation, compute};
use crate::jumps::{branch, come_back, jump};
use crate::prims::prim;
use crate::shared::{any_bytes, known_word, top, values_at};
use crate::splitting::{number_at, split};
use crate::state::{Byte, Sizes, State, constant, is_outside, known_byte, plain, where_is};
use crate::step::{Step, abend, goes, goes_or_wrote, limit};
use model_device::{NoMemory, bytes_of};
use prove_digits::Digit;
use prove_facts::model_machine::Ins;
use prove_facts::{Block, Values, push};
use std::alloc::Global;

type Grown = Result<(), NoMemory>;

/// Writes a number to two bytes of the public segment.
fn set_public(alloc: Global, sizes: &Sizes<'_>, state: &mut State, at: u16, word: u16) -> Grown {
    state.write(alloc, sizes, at, &known_word(word))
}

const LA: u16 = 0xC40D;

const SW: u16 = 0xC40F;

fn status(
    alloc: Global,
    sizes: &Sizes<'_>,
    state: &State,
    sw: Option<u16>,
    la: Option<u16>,
) -> Result<State, NoMemory> {
    let mut next = state.copied(alloc)?;
    if let Some(sw) = sw {
        set_public(alloc, sizes, &mut next, SW, sw)?;
    }
    if let Some(la) = la {
        set_public(alloc, sizes, &mut next, LA, la)?;
    }
    Ok(next)
}

fn push_bytes(alloc: Global, state: &State, bytes: &[Byte], out: &mut Vec<Step>) -> Grown {
    if state.is_over(bytes.len().min(65535) as u16) {
        return abend(5, out);
    }
    let mut next = state.copied(alloc)?;
    next.push(bytes)?;
    goes(next, out)
}

fn push_byte(alloc: Global, state: &State, b: u8, out: &mut Vec<Step>) -> Grown {
    push_bytes(alloc, state, &[constant(b)], out)
}

fn push_word(alloc: Global, state: &State, w: u16, out: &mut Vec<Step>) -> Grown {
    let [high, low] = bytes_of(w);
    push_bytes(alloc, state, &[constant(high), constant(low)], out)
}

fn push_zeros(alloc: Global, state: &State, n: u8, out: &mut Vec<Step>) -> Grown {
    if n == 0 {
        return abend(6, out);
    }
    let mut bytes = Vec::new(alloc);
    for _ in 0..n {
        push(&mut bytes, constant(0))?;
    }
    push_bytes(alloc, state, bytes.as_slice(), out)
}

fn pop(alloc: Global, sizes: &Sizes<'_>, state: &State, n: u8, out: &mut Vec<Step>) -> Grown {
    if n == 0 {
        return abend(6, out);
    }
    if state.is_under(sizes, n as u16) {
        return abend(4, out);
    }
    let mut next = state.copied(alloc)?;
    next.pop(alloc, sizes, n as u16)?;
    goes(next, out)
}

// ---- loads and stores

fn load(
    alloc: Global,
    sizes: &Sizes<'_>,
    state: &State,
    tag: u8,
    off: i16,
    n: u8,
    out: &mut Vec<Step>,
) -> Grown {
    let n = n as u16;
    if n == 0 {
        return abend(6, out);
    }
    if tag == 0 && state.is_under(sizes, n) {
        return abend(4, out);
    }
    let Some(at) = operand_whole(sizes, state, tag, off, n) else {
        return abend(3, out);
    };
    if state.is_over(n) {
        return abend(5, out);
    }
    let mut next = state.copied(alloc)?;
    load_at(alloc, sizes, &mut next, at, n)?;
    goes(next, out)
}

// Pushes the n bytes at an address.
fn load_at(alloc: Global, sizes: &Sizes<'_>, next: &mut State, at: u16, n: u16) -> Grown {
    let to = next.registers.dt;
    push_from(alloc, next, at, n)?;
    if next.known.sums.is_idle() {
        return Ok(());
    }
    next.known
        .sums
        .load(alloc, sizes.blocks, &Block { at, n }, to)
}

// Pushes the n bytes at an address, without what is known of their sums.
fn push_from(alloc: Global, next: &mut State, at: u16, n: u16) -> Grown {
    let bytes = next.bytes_of(alloc, at, n)?;
    next.push(bytes.as_slice())
}

// The address of n bytes that are whole in a segment.
fn operand_whole(sizes: &Sizes<'_>, state: &State, tag: u8, off: i16, n: u16) -> Option<u16> {
    let at = state.operand(sizes, tag, off, n)?;
    if is_outside(sizes, state.registers.dt, at, n) {
        None
    } else {
        Some(at)
    }
}

fn store(
    alloc: Global,
    sizes: &Sizes<'_>,
    state: &State,
    tag: u8,
    off: i16,
    n: u8,
    out: &mut Vec<Step>,
) -> Grown {
    let n = n as u16;
    if n == 0 {
        return abend(6, out);
    }
    if state.is_under(sizes, if tag == 0 { n.saturating_mul(2) } else { n }) {
        return abend(4, out);
    }
    let Some(at) = state.operand(sizes, tag, off, n.saturating_mul(2)) else {
        return abend(3, out);
    };
    store_at(alloc, sizes, state, at, n, out)
}

// Pops n bytes and writes them at an address.
fn store_at(
    alloc: Global,
    sizes: &Sizes<'_>,
    state: &State,
    at: u16,
    n: u16,
    out: &mut Vec<Step>,
) -> Grown {
    let top = state.registers.dt.saturating_sub(n);
    let Some(segment) = where_is(sizes, top, at, n) else {
        return abend(3, out);
    };
    limit(sizes, state, segment, out)?;
    let mut next = state.copied(alloc)?;
    move_top(alloc, sizes, &mut next, at, n)?;
    push(out, goes_or_wrote(next, segment))
}

// Moves the top n bytes to an address that is whole in a segment.
fn move_top(alloc: Global, sizes: &Sizes<'_>, next: &mut State, at: u16, n: u16) -> Grown {
    let top = next.registers.dt.saturating_sub(n);
    let bytes = next.bytes_of(alloc, top, n)?;
    let more = next
        .known
        .sums
        .more_of(alloc, sizes.blocks, top, &Block { at, n })?;
    next.pop(alloc, sizes, n)?;
    next.write_moved(alloc, sizes, at, bytes.as_slice(), &more, 1)
}

fn load_far(
    alloc: Global,
    sizes: &Sizes<'_>,
    state: &State,
    tag: u8,
    off: i16,
    n: u8,
    out: &mut Vec<Step>,
) -> Grown {
    let n = n as u16;
    if n == 0 {
        return abend(6, out);
    }
    if tag == 0 && state.is_under(sizes, 2) {
        return abend(4, out);
    }
    let Some(at) = operand_whole(sizes, state, tag, off, 2) else {
        return abend(3, out);
    };
    let sets = state.values_of(alloc, at, 2)?;
    match split(alloc, sets.as_slice())? {
        None => load_any(alloc, state, n, out),
        Some(rows) => load_each(alloc, sizes, state, at, rows.as_slice(), n, out),
    }
}

// Each of the addresses that the bytes at a place spell.
fn load_each(
    alloc: Global,
    sizes: &Sizes<'_>,
    state: &State,
    at: u16,
    rows: &[u8],
    n: u16,
    out: &mut Vec<Step>,
) -> Grown {
    let mut outside = false;
    for row in rows.chunks(2) {
        outside = !load_one(alloc, sizes, state, at, row, n, out)? || outside;
    }
    if outside { abend(3, out) } else { Ok(()) }
}

fn load_any(alloc: Global, state: &State, n: u16, out: &mut Vec<Step>) -> Grown {
    abend(3, out)?;
    if state.is_over(n) {
        return abend(5, out);
    }
    let bytes = any_bytes(alloc, n)?;
    push_bytes(alloc, state, bytes.as_slice(), out)
}

// Whether the bytes at one address are whole; they are pushed then.
fn load_one(
    alloc: Global,
    sizes: &Sizes<'_>,
    state: &State,
    at: u16,
    row: &[u8],
    n: u16,
    out: &mut Vec<Step>,
) -> Result<bool, NoMemory> {
    let from = number_at(row, 0);
    if is_outside(sizes, state.registers.dt, from, n) {
        return Ok(false);
    }
    let mut next = state.copied(alloc)?;
    spell(&mut next, at, row)?;
    if next.is_empty(at, 2) {
        return Ok(true);
    }
    if next.is_over(n) {
        abend(5, out)?;
        return Ok(true);
    }
    push_from(alloc, &mut next, from, n)?;
    goes(next, out)?;
    Ok(true)
}

// The two bytes at a place have only these values.
fn spell(next: &mut State, at: u16, row: &[u8]) -> Grown {
    next.narrow_all(at, &[values_at(row, 0), values_at(row, 1)])
}

fn store_far(
    alloc: Global,
    sizes: &Sizes<'_>,
    state: &State,
    tag: u8,
    off: i16,
    n: u8,
    out: &mut Vec<Step>,
) -> Grown {
    let n = n as u16;
    if n == 0 {
        return abend(6, out);
    }
    if state.is_under(sizes, if tag == 0 { n.saturating_add(2) } else { n }) {
        return abend(4, out);
    }
    let at = match state.operand(sizes, tag, off, n.saturating_add(2)) {
        Some(at) if !is_outside(sizes, state.registers.dt, at, 2) => at,
        _ => return abend(3, out),
    };
    let sets = state.values_of(alloc, at, 2)?;
    match split(alloc, sets.as_slice())? {
        None => store_any(alloc, sizes, state, sets.as_slice(), n, out),
        Some(rows) => store_each(alloc, sizes, state, at, rows.as_slice(), n, out),
    }
}

// Each of the addresses that the bytes at a place spell.
fn store_each(
    alloc: Global,
    sizes: &Sizes<'_>,
    state: &State,
    at: u16,
    rows: &[u8],
    n: u16,
    out: &mut Vec<Step>,
) -> Grown {
    for row in rows.chunks(2) {
        let mut next = state.copied(alloc)?;
        spell(&mut next, at, row)?;
        store_at(alloc, sizes, &next, number_at(row, 0), n, out)?;
    }
    Ok(())
}

fn store_any(
    alloc: Global,
    sizes: &Sizes<'_>,
    state: &State,
    sets: &[Values],
    n: u16,
    out: &mut Vec<Step>,
) -> Grown {
    let mut next = state.copied(alloc)?;
    next.pop(alloc, sizes, n)?;
    match sets {
        [highs, lows] => {
            let lengths = Values::one((n % 256) as u8);
            coarse_write(alloc, sizes, &next, highs, lows, &lengths, out)
        }
        _ => Ok(()),
    }
}

fn push_address(
    alloc: Global,
    sizes: &Sizes<'_>,
    state: &State,
    tag: u8,
    off: i16,
    out: &mut Vec<Step>,
) -> Grown {
    match state.operand(sizes, tag, off, 0) {
        Some(at) => push_bytes(alloc, state, &known_word(at), out),
        None => abend(3, out),
    }
}

fn index(
    alloc: Global,
    sizes: &Sizes<'_>,
    state: &State,
    tag: u8,
    off: i16,
    size: u8,
    out: &mut Vec<Step>,
) -> Grown {
    let under = if tag == 0 { 3 } else { 1 };
    if state.is_under(sizes, under) {
        return abend(4, out);
    }
    let Some(base) = state.operand(sizes, tag, off, 0) else {
        return abend(3, out);
    };
    let (highs, lows, outside) = if tag == 0 {
        indexed(alloc, top(alloc, state, 3)?.as_slice(), size)?
    } else {
        indexed_from(alloc, base, top(alloc, state, 1)?.as_slice(), size)?
    };
    if outside {
        abend(3, out)?;
    }
    if highs.is_empty() {
        return Ok(());
    }
    let mut next = state.copied(alloc)?;
    next.pop(alloc, sizes, under)?;
    if next.is_over(2) {
        return abend(5, out);
    }
    next.push(&[plain(highs), plain(lows)])?;
    goes(next, out)
}

// The values of an indexed address whose base is known.
fn indexed_from(
    alloc: Global,
    base: u16,
    index: &[Values],
    size: u8,
) -> Result<(Values, Values, bool), NoMemory> {
    let [high, low] = bytes_of(base);
    let mut sets = Vec::from_slice(alloc, &[Values::one(high), Values::one(low)])?;
    sets.extend_from_slice(index)?;
    indexed(alloc, sets.as_slice(), size)
}

// The values of the two bytes of an indexed address, and whether some combination gives none.
fn indexed(alloc: Global, sets: &[Values], size: u8) -> Result<(Values, Values, bool), NoMemory> {
    match split(alloc, sets)? {
        None => Ok((Values::ALL, Values::ALL, true)),
        Some(rows) => Ok(indexed_in(rows.as_slice(), size)),
    }
}

fn indexed_in(rows: &[u8], size: u8) -> (Values, Values, bool) {
    let mut highs = Values::NONE;
    let mut lows = Values::NONE;
    let mut outside = false;
    for row in rows.chunks(3) {
        let i = match row.get(2) {
            Some(i) => *i as u32,
            None => 0,
        };
        let at = i
            .saturating_mul(size as u32)
            .saturating_add(number_at(row, 0) as u32);
        if at > 65535 {
            outside = true;
        } else {
            highs = highs.with((at / 256) as u8);
            lows = lows.with((at % 256) as u8);
        }
    }
    (highs, lows, outside)
}

// ---- bytes and words at a place

fn set(
    alloc: Global,
    sizes: &Sizes<'_>,
    state: &State,
    tag: u8,
    off: i16,
    bytes: &[Byte],
    out: &mut Vec<Step>,
) -> Grown {
    let n = bytes.len().min(65535) as u16;
    if tag == 0 && state.is_under(sizes, n) {
        return abend(4, out);
    }
    let Some(at) = state.operand(sizes, tag, off, n) else {
        return abend(3, out);
    };
    let Some(segment) = where_is(sizes, state.registers.dt, at, n) else {
        return abend(3, out);
    };
    limit(sizes, state, segment, out)?;
    let mut next = state.copied(alloc)?;
    next.write(alloc, sizes, at, bytes)?;
    push(out, goes_or_wrote(next, segment))
}

fn set_byte(
    alloc: Global,
    sizes: &Sizes<'_>,
    state: &State,
    tag: u8,
    off: i16,
    b: u8,
    out: &mut Vec<Step>,
) -> Grown {
    set(alloc, sizes, state, tag, off, &[known_byte(b)], out)
}

fn set_word(
    alloc: Global,
    sizes: &Sizes<'_>,
    state: &State,
    tag: u8,
    off: i16,
    w: u16,
    out: &mut Vec<Step>,
) -> Grown {
    set(alloc, sizes, state, tag, off, &known_word(w), out)
}

/// A computation of a row on the n bytes of its operand with a constant.
#[derive(Clone, Copy)]
struct Kind {
    digit: Digit,
    constant: u128,
    writes: bool,
    carries: bool,
}

fn one(
    alloc: Global,
    sizes: &Sizes<'_>,
    state: &State,
    tag: u8,
    off: i16,
    n: u16,
    row: Kind,
    out: &mut Vec<Step>,
) -> Grown {
    let most = if row.digit == Digit::Add || (row.digit == Digit::Sub && row.writes) {
        16
    } else {
        255
    };
    if n == 0 || n > most {
        return abend(6, out);
    }
    if tag == 0 && state.is_under(sizes, n) {
        return abend(4, out);
    }
    let first = state.operand(sizes, tag, off, n);
    let at = match first {
        Some(at) => at,
        None => 0,
    };
    let made = Computation {
        digit: row.digit,
        first: at,
        n,
        second: None,
        constant: row.constant,
        writes: row.writes,
        carries: row.carries,
    };
    compute(alloc, sizes, state, first, &made, out)
}

fn pair(
    alloc: Global,
    sizes: &Sizes<'_>,
    state: &State,
    tag: u8,
    off: i16,
    n: u8,
    digit: Digit,
    writes: bool,
    out: &mut Vec<Step>,
) -> Grown {
    let n = n as u16;
    let arithmetic = digit == Digit::Add || digit == Digit::Sub;
    if n == 0 || (arithmetic && writes && n > 16) {
        return abend(6, out);
    }
    if state.is_under(sizes, if tag == 0 { n.saturating_mul(2) } else { n }) {
        return abend(4, out);
    }
    let first = state.operand(sizes, tag, off, n.saturating_mul(2));
    let at = match first {
        Some(at) => at,
        None => 0,
    };
    let second = Some(state.registers.dt.saturating_sub(n));
    let made = Computation {
        digit,
        first: at,
        n,
        second,
        constant: 0,
        writes,
        carries: arithmetic,
    };
    compute(alloc, sizes, state, first, &made, out)
}

fn adds(constant: u128) -> Kind {
    Kind {
        digit: Digit::Add,
        constant,
        writes: true,
        carries: true,
    }
}

fn subtracts(constant: u128) -> Kind {
    Kind {
        digit: Digit::Sub,
        constant,
        writes: true,
        carries: true,
    }
}

fn compares(constant: u128) -> Kind {
    Kind {
        digit: Digit::Sub,
        constant,
        writes: false,
        carries: true,
    }
}

fn makes(digit: Digit, writes: bool) -> Kind {
    Kind {
        digit,
        constant: 0,
        writes,
        carries: false,
    }
}

fn go_on(alloc: Global, s: &State, out: &mut Vec<Step>) -> Grown {
    goes(s.copied(alloc)?, out)
}

fn exit(alloc: Global, s: &State, out: &mut Vec<Step>) -> Grown {
    push(out, Step::Exits(s.copied(alloc)?))
}

// The frame goes on with a status word and a length of its answer.
fn go_on_with(
    alloc: Global,
    sizes: &Sizes<'_>,
    s: &State,
    sw: Option<u16>,
    la: Option<u16>,
    out: &mut Vec<Step>,
) -> Grown {
    goes(status(alloc, sizes, s, sw, la)?, out)
}

// The frame exits with a status word and a length of its answer.
fn exit_with(
    alloc: Global,
    sizes: &Sizes<'_>,
    s: &State,
    sw: Option<u16>,
    la: Option<u16>,
    out: &mut Vec<Step>,
) -> Grown {
    push(out, Step::Exits(status(alloc, sizes, s, sw, la)?))
}

/// The outcomes of an instruction in a frame whose code address is already the place after it.
///
/// # Errors
///
/// Returns `NoMemory` if it is out of memory.
pub fn row(
    alloc: Global,
    sizes: &Sizes<'_>,
    ins: &Ins,
    delegated: bool,
    s: &State,
    out: &mut Vec<Step>,
) -> Grown {
    match *ins {
        Ins::Nop => go_on(alloc, s, out),
        Ins::Setsw { sw } => go_on_with(alloc, sizes, s, Some(sw), None, out),
        Ins::Setla { la } => go_on_with(alloc, sizes, s, None, Some(la), out),
        Ins::Setswla { sw, la } => go_on_with(alloc, sizes, s, Some(sw), Some(la), out),
        Ins::Exit => exit(alloc, s, out),
        Ins::Exitsw { sw } => exit_with(alloc, sizes, s, Some(sw), None, out),
        Ins::Exitla { la } => exit_with(alloc, sizes, s, None, Some(la), out),
        Ins::Exitswla { sw, la } => exit_with(alloc, sizes, s, Some(sw), Some(la), out),
        Ins::Branch { cond, d } => branch(alloc, sizes, s, cond, d, out),
        Ins::Jump { cond, to } => jump(alloc, sizes, s, false, cond, to, out),
        Ins::Call { cond, to } => jump(alloc, sizes, s, true, cond, to, out),
        Ins::Pushz { n } => push_zeros(alloc, s, n, out),
        Ins::Pushb { b } => push_byte(alloc, s, b, out),
        Ins::Pushw { w } => push_word(alloc, s, w, out),
        Ins::Popn { n } => pop(alloc, sizes, s, n, out),
        Ins::Popb => pop(alloc, sizes, s, 1, out),
        Ins::Popw => pop(alloc, sizes, s, 2, out),
        Ins::Prim { set, number, args } => prim(
            alloc, sizes, set, number, &args, delegated, s, out,
        ),
        Ins::Ret => come_back(alloc, sizes, s, 0, 0, out),
        Ins::Reti { i } => come_back(alloc, sizes, s, i, 0, out),
        Ins::Reto { o } => come_back(alloc, sizes, s, 0, o, out),
        Ins::Retio { i, o } => come_back(alloc, sizes, s, i, o, out),
        _ => operand_row(alloc, sizes, ins, s, out),
    }
}

// The outcomes of an instruction with an operand at a place.
fn operand_row(
    alloc: Global,
    sizes: &Sizes<'_>,
    ins: &Ins,
    s: &State,
    out: &mut Vec<Step>,
) -> Grown {
    match *ins {
        Ins::Load { tag, off, n } => load(alloc, sizes, s, tag, off, n, out),
        Ins::Store { tag, off, n } => store(alloc, sizes, s, tag, off, n, out),
        Ins::Loadi { tag, off, n } => load_far(alloc, sizes, s, tag, off, n, out),
        Ins::Storei { tag, off, n } => store_far(alloc, sizes, s, tag, off, n, out),
        Ins::Loada { tag, off } => push_address(alloc, sizes, s, tag, off, out),
        Ins::Index { tag, off, size } => index(alloc, sizes, s, tag, off, size, out),
        Ins::Setb { tag, off, b } => set_byte(alloc, sizes, s, tag, off, b, out),
        Ins::Setw { tag, off, w } => set_word(alloc, sizes, s, tag, off, w, out),
        Ins::Cmpb { tag, off, b } => one(alloc, sizes, s, tag, off, 1, compares(b as u128), out),
        Ins::Addb { tag, off, b } => one(alloc, sizes, s, tag, off, 1, adds(b as u128), out),
        Ins::Subb { tag, off, b } => one(alloc, sizes, s, tag, off, 1, subtracts(b as u128), out),
        Ins::Cmpw { tag, off, w } => one(alloc, sizes, s, tag, off, 2, compares(w as u128), out),
        Ins::Addw { tag, off, w } => one(alloc, sizes, s, tag, off, 2, adds(w as u128), out),
        Ins::Subw { tag, off, w } => one(alloc, sizes, s, tag, off, 2, subtracts(w as u128), out),
        _ => number_row(alloc, sizes, ins, s, out),
    }
}

// The outcomes of an instruction on n bytes at a place.
fn number_row(
    alloc: Global,
    sizes: &Sizes<'_>,
    ins: &Ins,
    s: &State,
    out: &mut Vec<Step>,
) -> Grown {
    match *ins {
        Ins::Clearn { tag, off, n } => one(
            alloc,
            sizes,
            s,
            tag,
            off,
            n as u16,
            makes(Digit::Zero, true),
            out,
        ),
        Ins::Testn { tag, off, n } => one(
            alloc,
            sizes,
            s,
            tag,
            off,
            n as u16,
            makes(Digit::First, false),
            out,
        ),
        Ins::Incn { tag, off, n } => one(alloc, sizes, s, tag, off, n as u16, adds(1), out),
        Ins::Decn { tag, off, n } => one(alloc, sizes, s, tag, off, n as u16, subtracts(1), out),
        Ins::Notn { tag, off, n } => one(
            alloc,
            sizes,
            s,
            tag,
            off,
            n as u16,
            makes(Digit::Not, true),
            out,
        ),
        Ins::Cmpn { tag, off, n } => pair(alloc, sizes, s, tag, off, n, Digit::Sub, false, out),
        Ins::Addn { tag, off, n } => pair(alloc, sizes, s, tag, off, n, Digit::Add, true, out),
        Ins::Subn { tag, off, n } => pair(alloc, sizes, s, tag, off, n, Digit::Sub, true, out),
        Ins::Andn { tag, off, n } => pair(alloc, sizes, s, tag, off, n, Digit::And, true, out),
        Ins::Orn { tag, off, n } => pair(alloc, sizes, s, tag, off, n, Digit::Or, true, out),
        Ins::Xorn { tag, off, n } => pair(alloc, sizes, s, tag, off, n, Digit::Xor, true, out),
        _ => Ok(()),
    }
}

// The static bytes that an executed instruction writes, and the device writes that they take.
ghost use Rattle.std.specs.Prelude.{◌≡◌, ◌≤◌, ◌+◌, ◌-◌, ◌||◌, ◌==◌, cond, length, nat_lt, option_map, []};
ghost use Rattle.mc_isa.specs.Primitives.{primitive_of};
ghost use Rattle.law_steps.specs.Registers.{mode_of};
ghost use Rattle.law_steps.specs.Spans.{below_top, pair_target, placed, pointed, pointer, prim_target, static_only, target};
ghost use Rattle.law_steps.specs.Writes.{now_by, now_of, span_now, span_waits, waits_by, waits_of, words_under, writes_of_words};
ghost use Rattle.desk_steps.specs.Shots.{look_of, name_seen, span_seen};
ghost use Rattle.desk_steps.specs.Turning.{end_of};

use crate::guard::Guard;
use crate::modes::{abend_of, mode_of};
use crate::shot::Shot;
use mc_card::BriefTurn;
use mc_isa::{Ins, Primitive};

// Bytes are a pair: the address of the first one, and their number.

// The bytes of an operand, `None` for one on the stack, which are no static bytes.
fn placed(before: &Shot, tag: u8, off: i16, count: u16) -> Option<(u16, u16)>
    ensures { result ≡ placed (look_of before.now) tag off count }
{
    if tag == 0 {
        return None;
    }
    let at = before.resolve(tag, off)?;
    Some((at, count))
}

// The place of a pointer over some bytes, which is an operand.
fn pointer(before: &Shot, tag: u8, off: i16, count: u8) -> Option<u16>
    ensures { result ≡ pointer (look_of before.now) tag off count }
{
    if tag == 0 {
        return Some(before.dt.saturating_sub(count as u16 + 2));
    }
    before.resolve(tag, off)
}

// The bytes of an indirect store.
fn pointed(before: &Shot, tag: u8, off: i16, count: u8) -> Option<(u16, u16)>
    ensures { result ≡ pointed (look_of before.now) tag off count }
{
    let place = pointer(before, tag, off, count)?;
    Some((before.number_at(place), count as u16))
}

// The bytes whose address begins some bytes below the top of the stack.
fn below_top(before: &Shot, under: u16, count: u16) -> Option<(u16, u16)>
    ensures { result ≡ below_top (look_of before.now) under count }
{
    Some((before.number_below_top(under), count))
}

// The bytes of the name of the application that delegated, if one did, with its length, which stands there after the
// turn.
fn named(before: &Shot, after: &Shot, deep: bool) -> Option<(u16, u16)>
    ensures { result ≡ option_map (λ n. ((look_of before.now).number (before.now.dt - 2), n + 1))
        (name_seen deep before.now after.now) }
{
    if !deep {
        return None;
    }
    let at = before.number_below_top(2);
    Some((at, after.count_at(at) + 1))
}

// The bytes that a primitive writes. `deep` is whether another application delegated to the one that runs.
fn primitive_target(
    primitive: Primitive,
    args: &[u8; 3],
    before: &Shot,
    after: &Shot,
    deep: bool,
) -> Option<(u16, u16)>
    ensures { result ≡ prim_target (primitive_of primitive) args.now (look_of before.now)
        (name_seen deep before.now after.now) }
{
    match primitive {
        Primitive::MemoryCopy => below_top(before, 4, before.number_below_top(6)),
        Primitive::CopyFixed => below_top(before, 4, args[0] as u16),
        Primitive::DelegatorAid => named(before, after, deep),
        Primitive::Digest => below_top(before, 2, 20),
        Primitive::Encipher(_) | Primitive::Decipher(_) => below_top(before, 4, args[0] as u16),
        Primitive::Sign(cipher) => below_top(before, 4, cipher.block_len() as u16),
        _ => None,
    }
}

// The bytes that a primitive writes, if there is one.
fn pair_target(
    primitive: Option<Primitive>,
    args: &[u8; 3],
    before: &Shot,
    after: &Shot,
    deep: bool,
) -> Option<(u16, u16)>
    ensures { result ≡ pair_target (option_map primitive_of primitive) args.now (look_of before.now)
        (name_seen deep before.now after.now) }
{
    match primitive {
        Some(primitive) => primitive_target(primitive, args, before, after, deep),
        None => None,
    }
}

// The bytes that an instruction writes which was executed, by the bytes of its frame before and after it.
fn target(ins: &Ins, before: &Shot, after: &Shot, deep: bool) -> Option<(u16, u16)>
    ensures { result ≡ target ins.now (look_of before.now) (name_seen deep before.now after.now) }
{
    match *ins {
        Ins::Store { tag, off, n } => placed(before, tag, off, n as u16),
        Ins::Storei { tag, off, n } => pointed(before, tag, off, n),
        Ins::Setb { tag, off, .. } => placed(before, tag, off, 1),
        Ins::Addb { tag, off, .. } => placed(before, tag, off, 1),
        Ins::Subb { tag, off, .. } => placed(before, tag, off, 1),
        Ins::Setw { tag, off, .. } => placed(before, tag, off, 2),
        Ins::Addw { tag, off, .. } => placed(before, tag, off, 2),
        Ins::Subw { tag, off, .. } => placed(before, tag, off, 2),
        Ins::Clearn { tag, off, n } => placed(before, tag, off, n as u16),
        Ins::Incn { tag, off, n } => placed(before, tag, off, n as u16),
        Ins::Decn { tag, off, n } => placed(before, tag, off, n as u16),
        Ins::Notn { tag, off, n } => placed(before, tag, off, n as u16),
        Ins::Addn { tag, off, n } => placed(before, tag, off, n as u16),
        Ins::Subn { tag, off, n } => placed(before, tag, off, n as u16),
        Ins::Andn { tag, off, n } => placed(before, tag, off, n as u16),
        Ins::Orn { tag, off, n } => placed(before, tag, off, n as u16),
        Ins::Xorn { tag, off, n } => placed(before, tag, off, n as u16),
        Ins::Prim { set, number, args } => {
            pair_target(Primitive::of(set, number), &args, before, after, deep)
        }
        _ => None,
    }
}

// Bytes, if they are static ones in a segment of this size, and some.
fn static_only(size: u16, span: Option<(u16, u16)>) -> Option<(u16, u16)>
    ensures { result ≡ static_only size span }
{
    let (at, count) = span?;
    if count == 0 || at as u32 + count as u32 > size as u32 {
        return None;
    }
    Some((at, count))
}

// The number of words in which bytes lie.
fn words_under(at: u16, count: u16) -> u32
    ensures value { result ≡ words_under (at, count) }
    ensures few { result ≤ 20000 }
{
    (at as u32 + count as u32).saturating_sub(1) / 8 + 1 - at as u32 / 8
}

// The number of words in which static bytes are written at once; under protection they wait.
fn take_span(guard: &mut Guard, is_on: bool, span: Option<(u16, u16)>) -> u32
    ensures now { result ≡ span_now is_on span }
    ensures waits { guard.new ≡ span_waits is_on span guard.old }
    ensures few { result ≤ 20000 }
{
    let Some((at, count)) = span else {
        return 0;
    };
    let words = words_under(at, count);
    if is_on {
        guard.keep(at as u32 / 8, words);
        return 0;
    }
    words
}

// The number of words that a change of the protection writes at once: modes 1 and 3 write those that wait.
fn take_mode(guard: &mut Guard, mode: u8) -> u32
    ensures now { result ≡ cond (mode == 1 || mode == 3) (length guard.old) 0 }
    ensures waits { guard.new ≡ [] }
    ensures few { result ≤ 20000 }
{
    let waited = guard.clear();
    if mode == 1 || mode == 3 {
        return waited;
    }
    0
}

// The static bytes that an instruction writes which was executed.
fn span_of(ins: &Ins, before: &Shot, after: &Shot, deep: bool) -> Option<(u16, u16)>
    ensures { result ≡ span_seen before.now after.now deep ins.now }
{
    static_only(before.fixed_len, target(ins, before, after, deep))
}

// The number of words of static bytes that an instruction which was executed wrote at once, by the bytes of its frame
// before and after it. Those that wait, if protection was on, are kept under the frame's guard.
fn words_written(
    guard: &mut Guard,
    is_on: bool,
    ins: &Ins,
    before: &Shot,
    after: &Shot,
    deep: bool,
) -> u32
    ensures now { result ≡ now_by (mode_of ins.now) is_on (span_seen before.now after.now deep ins.now) guard.old }
    ensures waits { guard.new
        ≡ waits_by (mode_of ins.now) is_on (span_seen before.now after.now deep ins.now) guard.old }
    ensures few { result ≤ 20000 }
{
    match mode_of(ins) {
        Some(mode) => take_mode(guard, mode),
        None => take_span(guard, is_on, span_of(ins, before, after, deep)),
    }
}

/// Returns the number of words of static bytes that a turn wrote at once, by the bytes of its frame before and after it,
/// and keeps those that wait, if protection was on, under the frame's guard.
pub fn turn_words(
    guard: &mut Guard,
    is_on: bool,
    turn: &BriefTurn,
    before: &Shot,
    after: &Shot,
) -> u32
    ensures now { result ≡ now_of (end_of turn.now.end) turn.now.ins
        (span_seen before.now after.now (nat_lt 1 turn.now.depth)) is_on guard.old }
    ensures waits { guard.new ≡ waits_of (end_of turn.now.end) turn.now.ins
        (span_seen before.now after.now (nat_lt 1 turn.now.depth)) is_on guard.old }
    ensures few { result ≤ 20000 }
{
    if abend_of(turn.end).is_some() {
        return 0;
    }
    match &turn.ins {
        Some(ins) => words_written(guard, is_on, ins, before, after, turn.depth > 1),
        None => 0,
    }
}

/// Returns the number of device writes of one atomic write of some words, 0 for none: a journal of four targets a
/// word, the words there and in their places, and three words of the gate.
pub fn device_writes(words: u32) -> u32
    requires { words ≤ 20000 }
    ensures { result ≡ writes_of_words words }
{
    if words == 0 {
        return 0;
    }
    (words + 3) / 4 + 2 * words + 3
}

// The places that an instruction goes to, and the rules that a fact may break by itself.
ghost use Rattle.std.specs.Prelude.{◌≡◌, ◌≤◌, ◌==◌, ◌&&◌, if◌then◌else◌, IfOk, is_some, length, option_map, option_and_then};
ghost use Rattle.law_family.specs.model_device.specs.Limits.{most_code};
ghost use Rattle.law_family.specs.model_machine.specs.Code.{Shaped};
ghost use Rattle.law_family.specs.model_machine.specs.Frame as frame;
ghost use Rattle.model_stack.specs.StackRows as shape;
ghost use Rattle.model_stack.specs.StackShape.{is_main, look, fact_look};
ghost use Rattle.mc_check.specs.Seen.{pair_of, cause_of, fact_look_of};
ghost use Rattle.mc_check.specs.Table.{fact_of, routine_of};

use crate::table::{Entry, Routine};
pub use crate::uses::height_after;
use crate::uses::{always_abends, need};
pub use crate::writing::is_plain;
use law_family::model_machine::{DecodeFault, Ins};
use law_family::model_text::CheckCause;
use mc_isa::decode;

// The condition of a jump or call that always goes.
const ALWAYS: u8 = 7;

/// The bytes that a return moves: `less` fewer below the call, and `more` more on top.
#[derive(Clone, Copy, Debug, PartialEq, Eq)]
pub struct Counts {
    pub less: u8,
    pub more: u8,
}

/// An instruction at a place, and the place after it.
#[derive(Clone, Copy, Debug)]
pub struct Seen {
    pub ins: Ins,
    pub next: u16,
}

// Returns whether an instruction is a jump or call whose address is on the stack.
fn is_indirect(ins: Ins) -> bool
    ensures { result ≡ shape.is_indirect ins }
{
    matches!(ins, Ins::Jump { cond: 0, .. } | Ins::Call { cond: 0, .. })
}

/// Returns the counts of a return, or `None` for any other instruction.
pub fn return_counts(ins: Ins) -> Option<Counts>
    ensures { option_map pair_of result ≡ shape.counts ins }
{
    match ins {
        Ins::Ret => Some(Counts { less: 0, more: 0 }),
        Ins::Reti { i } => Some(Counts { less: i, more: 0 }),
        Ins::Reto { o } => Some(Counts { less: 0, more: o }),
        Ins::Retio { i, o } => Some(Counts { less: i, more: o }),
        _ => None,
    }
}

/// Returns whether the code goes on at the next place after an instruction that is no call.
pub fn goes_on(ins: Ins) -> bool
    ensures { result ≡ shape.goes_on ins }
{
    match ins {
        Ins::Exit | Ins::Exitsw { .. } | Ins::Exitla { .. } | Ins::Exitswla { .. } => false,
        Ins::Branch { cond, .. } => cond != ALWAYS,
        Ins::Jump { cond, .. } => cond != ALWAYS && cond != 0,
        _ => !always_abends(ins) && return_counts(ins).is_none(),
    }
}

// Returns the place `d` bytes from `next`, or `None` if that is no address.
fn moved(next: u16, d: i8) -> Option<u16>
    ensures { result ≡ frame.moved_address next d }
{
    next.checked_add_signed(i16::from(d))
}

// Returns the address in a jump or call, which has one under each condition but 0.
fn stated(cond: u8, to: u16) -> Option<u16>
    ensures { result ≡ (if cond == 0 then None else Some to) }
{
    if cond == 0 { None } else { Some(to) }
}

/// Returns the target of a branch or jump; `None` also if it is no address.
pub fn jump_target(ins: Ins, next: u16) -> Option<u16>
    ensures { result ≡ option_and_then (λ target. target) (shape.jump_target ins next) }
{
    match ins {
        Ins::Branch { d, .. } => moved(next, d),
        Ins::Jump { cond, to } => stated(cond, to),
        _ => None,
    }
}

/// Returns the target of a call.
pub fn call_target(ins: Ins) -> Option<u16>
    ensures { result ≡ shape.call_target ins }
{
    match ins {
        Ins::Call { cond, to } => stated(cond, to),
        _ => None,
    }
}

/// Returns whether an instruction is a call.
pub fn is_call(ins: Ins) -> bool
    ensures { result ≡ shape.is_call ins }
{
    matches!(ins, Ins::Call { .. })
}

/// Returns whether an instruction is a call under a condition.
pub fn is_conditional(ins: Ins) -> bool
    ensures { result ≡ shape.is_conditional ins }
{
    match ins {
        Ins::Call { cond, .. } => cond != ALWAYS,
        _ => false,
    }
}

// Returns whether a place is in code of `len` bytes.
fn is_inside(len: usize, place: Option<u16>) -> bool
    ensures { result ≡ shape.is_inside len place }
{
    place.is_some_and(|place| usize::from(place) < len)
}

// Returns whether a branch or jump goes to a place in the code.
fn is_target_inside(len: usize, ins: Ins, next: u16) -> bool
    ensures { result ≡ shape.target_inside len (shape.jump_target ins next) }
{
    match ins {
        Ins::Branch { d, .. } => is_inside(len, moved(next, d)),
        Ins::Jump { cond, to } => cond == 0 || is_inside(len, Some(to)),
        _ => true,
    }
}

// Returns whether each place that an instruction may go to is in the code.
fn are_places_inside(len: usize, ins: Ins, next: u16) -> bool
    ensures { result ≡ shape.places_inside len ins next }
{
    (!goes_on(ins) || is_inside(len, Some(next)))
        && is_target_inside(len, ins, next)
        && call_target(ins).is_none_or(|to| usize::from(to) < len)
}

// Returns the cause in a fault of the decoder.
fn cause_of(fault: DecodeFault) -> CheckCause
    ensures { result ≡ cause_of fault }
{
    match fault {
        DecodeFault::Undefined => CheckCause::Undefined,
        DecodeFault::Past => CheckCause::Past,
    }
}

// Returns whether an instruction is a return in the main code.
fn is_return_in_main(routine: Routine, ins: Ins) -> bool
    ensures { result ≡ (is_main (routine_of routine) && is_some (shape.counts ins)) }
{
    routine == Routine::Main && return_counts(ins).is_some()
}

// Returns an instruction of code of `len` bytes, or the first rule that it breaks by its fact alone.
fn looked_at(len: usize, entry: Entry, ins: Ins, next: u16) -> Result<Seen, CheckCause>
    ensures seen { fact_look_of result ≡ fact_look len (fact_of 0 entry) (Ok (ins, next)) }
    ensures same { IfOk result (λ s. (s.ins ≡ ins) × (s.next ≡ next)) }
{
    if is_indirect(ins) {
        return Err(CheckCause::Indirect);
    }
    if is_return_in_main(entry.routine, ins) {
        return Err(CheckCause::Returns);
    }
    if entry.height < need(ins) {
        return Err(CheckCause::Under);
    }
    if !are_places_inside(len, ins, next) {
        return Err(CheckCause::Target);
    }
    Ok(Seen { ins, next })
}

/// Returns the instruction of a fact and the place after it, or the first rule that is broken there by the
/// fact alone.
#[tactic(auto, unfolding(model_stack::specs::StackShape::look))]
pub fn look(code: &[u8], place: u16, entry: Entry) -> Result<Seen, CheckCause>
    requires high { length code.now ≤ most_code }
    ensures seen { fact_look_of result ≡ look code.now (fact_of place entry) }
    ensures shaped { IfOk result (λ seen. Shaped seen.ins) }
    ensures inside { IfOk result (λ seen. seen.next ≤ most_code) }
{
    match decode(code, place) {
        Ok((ins, next)) => looked_at(code.len(), entry, ins, next),
        Err(fault) => Err(cause_of(fault)),
    }
}

// The last pass over the facts, when the bases of the routines are known: it finds the facts at which the
// stack grows too deep or a write may touch an open call, and the greatest depth of the stack.
ghost use Rattle.std.specs.Prelude.{◌≡◌, ◌≤◌, ◌<◌, ◌&&◌, not, length, IfOk, IfErr, MatchBool};
ghost use Rattle.law_family.specs.model_device.specs.Limits.{most_code};
ghost use Rattle.law_family.specs.model_machine.specs.Code.{instruction_at};
ghost use Rattle.model_stack.specs.StackShape.{Accepts};
ghost use Rattle.mc_check.specs.Judging.{calls_at, plain_at, depth_of, BeginsWithin, HasCall, HasNoCall};
ghost use Rattle.mc_check.specs.Verdicts.{IsVerdictOf};
ghost use Rattle.mc_check.specs.Table.{routine_of, base_in, IsWholeTable, AreBases, IsRefusalOf};

use crate::shape::{is_call, is_plain};
use crate::table::{Entry, Refusal, Routine};
use crate::verdict::Verdict;
use law_family::model_text::CheckCause;
use mc_isa::decode;

// The bytes of the dynamic segment that session data and the stack share.
const ROOM: u64 = 512;

// Returns whether the instruction at a place of code is a call.
fn calls(code: &[u8], place: u16) -> bool
    requires { length code.now ≤ most_code }
    ensures { result ≡ calls_at (instruction_at code.now place) }
{
    match decode(code, place) {
        Ok((ins, _)) => is_call(ins),
        Err(_) => false,
    }
}

// Returns whether the instruction at a place of code writes at no address that is not plain.
fn writes_plain(code: &[u8], session: u16, place: u16, height: u16) -> bool
    requires { length code.now ≤ most_code }
    ensures { result ≡ plain_at session height (instruction_at code.now place) }
{
    match decode(code, place) {
        Ok((ins, _)) => is_plain(session, height, ins),
        Err(_) => true,
    }
}

// Returns the base of a routine.
fn base_of(bases: &[u32], routine: Routine) -> u32
    requires { BeginsWithin (length bases.now) (routine_of routine) }
    ensures { result ≡ base_in bases.now (routine_of routine) }
{
    match routine {
        Routine::Main => 0,
        Routine::At(place) => bases[usize::from(place)],
    }
}

// Returns the height of the stack above its floor at a place, or the rule that is broken there; in code
// without calls, any write is allowed.
fn depth_at(
    code: &[u8],
    session: u16,
    place: u16,
    height: u16,
    base: u32,
    has_calls: bool,
) -> Result<u16, Refusal>
    requires { length code.now ≤ most_code }
    ensures { result ≡ depth_of session place base height (has_calls
        && not (plain_at session height (instruction_at code.now place))) }
{
    let depth = u64::from(base) + u64::from(height);
    if u64::from(session) + depth > ROOM {
        return Err(Refusal {
            place,
            cause: CheckCause::Deep,
        });
    }
    if has_calls && !writes_plain(code, session, place, height) {
        return Err(Refusal {
            place,
            cause: CheckCause::Wild,
        });
    }
    Ok(depth as u16)
}

// Returns whether some fact is a call.
fn has_call(code: &[u8], table: &[Option<Entry>]) -> bool
    requires high { length code.now ≤ most_code }
    requires size { length table.now ≡ length code.now }
    ensures { MatchBool result (HasCall code.now table.now) (HasNoCall code.now table.now (length table.now)) }
{
    for (place, entry) in table.iter().enumerate() {
        if entry.is_some() && calls(code, place as u16) {
            return true;
        }
    }
    false
}

// Returns the greatest depth of the stack over all facts, or a rule that one of them breaks.
fn greatest_depth(
    code: &[u8],
    session: u16,
    table: &[Option<Entry>],
    bases: &[u32],
) -> Result<u16, Refusal>
    requires high { length code.now ≤ most_code }
    requires whole { IsWholeTable code.now table.now }
    requires based { AreBases code.now bases.now }
    ensures accepts { IfOk result (λ most. Accepts code.now session most) }
    ensures refuses { IfErr result (λ refusal. IsRefusalOf code.now session refusal) }
{
    let has_calls = has_call(code, table);
    let mut most = 0;
    for (place, entry) in table.iter().enumerate() {
        if let Some(entry) = entry {
            let base = base_of(bases, entry.routine);
            let depth = depth_at(code, session, place as u16, entry.height, base, has_calls)?;
            most = most.max(depth);
        }
    }
    Ok(most)
}

/// Returns the verdict on code, from the whole table of its facts and the bases of its routines.
pub fn judge(code: &[u8], session: u16, table: &[Option<Entry>], bases: &[u32]) -> Verdict
    requires low { 1 ≤ length code.now }
    requires high { length code.now ≤ most_code }
    requires whole { IsWholeTable code.now table.now }
    requires bases { AreBases code.now bases.now }
    ensures { IsVerdictOf code.now session result }
{
    match greatest_depth(code, session, table, bases) {
        Ok(deepest) => Verdict::Accept { deepest },
        Err(refusal) => Verdict::Refuse {
            place: refusal.place,
            cause: refusal.cause,
        },
    }
}

// Which of the open calls are lost where bytes are.
ghost use Rattle.std.specs.Prelude.{◌≡◌, ◌≤◌, [], ◌∷◌, length, drop, OnOk, IfSome, IsNone};
ghost use Rattle.prove_facts.specs.model_prove.specs.Keys.{calls_before};
ghost use Rattle.prove_keys.specs.Keys.{call_of, calls_of};
ghost use Rattle.prove_spots.specs.Losses.{IsOrdered, is_lost};

use model_device::NoMemory;
use prove_facts::push;
use prove_keys::{Call, touches};

/// How bytes are lost: from one address to below another by a write, or above DT.
#[derive(Clone, Copy, PartialEq, Eq, Debug)]
pub enum Loss {
    Written { from: u32, to: u32 },
    Lowered { dt: u16 },
}

// Whether the saved bytes of a call are among those that are lost.
fn is_hit(loss: &Loss, call: &Call) -> bool
    requires { IsOrdered loss.now }
    ensures { result ≡ is_lost loss.now (call_of call.now) }
{
    match *loss {
        Loss::Written { from, to } => touches(call.end.saturating_sub(4), 4, from, to),
        Loss::Lowered { dt } => dt < call.end,
    }
}

// The number of calls that are lost: the newest that is hit, and all before it.
fn lost_calls(calls: &[Call], loss: &Loss) -> usize
    requires { IsOrdered loss.now }
    ensures bound { result ≤ length calls.now }
    ensures kept { calls_of (drop result calls.now) ≡ calls_before (is_lost loss.now) (calls_of calls.now) }
{
    let mut lost = 0;
    for (index, call) in calls.iter().enumerate() {
        if is_hit(loss, call) {
            lost = index + 1;
        }
    }
    lost
}

/// Takes away the calls that are lost.
///
/// # Errors
///
/// Returns `NoMemory` if it is out of memory.
pub fn lose_calls(calls: &mut Vec<Call>, loss: &Loss) -> Result<(), NoMemory>
    requires { IsOrdered loss.now }
    ensures { OnOk result (calls_of calls.new.items ≡ calls_before (is_lost loss.now) (calls_of calls.old.items)) }
{
    let lost = lost_calls(calls.as_slice(), loss);
    if lost == 0 {
        return Ok(());
    }
    *calls = Vec::from_slice(*calls.allocator(), &calls.as_slice()[lost..])?;
    Ok(())
}

/// Adds a call, which is then the newest.
///
/// # Errors
///
/// Returns `NoMemory` if it is out of memory.
#[tactic(auto, using(crate::proofs::CallLemmas::calls_push))]
pub fn push_call(calls: &mut Vec<Call>, call: Call) -> Result<(), NoMemory>
    ensures { OnOk result (calls_of calls.new.items ≡ call_of call ∷ calls_of calls.old.items) }
{
    push(calls, call)?;
    Ok(())
}

/// Takes the newest call off, if there is one.
pub fn pop_call(calls: &mut Vec<Call>) -> Option<Call>
    ensures none { IsNone result → (calls_of calls.old.items ≡ []) × (calls_of calls.new.items ≡ []) }
    ensures some { IfSome result (λ call. calls_of calls.old.items ≡ call_of call ∷ calls_of calls.new.items) }
{
    match calls.pop() {
        Some(call) => Some(call),
        None => None,
    }
}

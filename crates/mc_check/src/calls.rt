// The calls between the routines of code.
ghost use Rattle.std.specs.Prelude.{◌≡◌, ◌≤◌, length, option_map, IfSome, IfOk};
ghost use Rattle.law_family.specs.model_device.specs.Limits.{most_code};
ghost use Rattle.law_family.specs.model_machine.specs.Code.{instruction_at};
ghost use Rattle.mc_check.specs.Table.{IsWholeTable};
ghost use Rattle.mc_check.specs.CallList.{AreCalls, call_of, target_of};

use crate::shape::call_target;
use crate::table::{Entry, Routine};
use mc_isa::decode;
use std::alloc::{AllocError, Global};

/// A CALL that is reached: its place, the routine that has it, the number of bytes from LB to DT there, and
/// the place of the routine that it calls.
#[derive(Clone, Copy)]
pub struct Call {
    pub place: u16,
    pub caller: Routine,
    pub height: u16,
    pub target: u16,
}

// Returns the routine that is called by the instruction at a place.
fn called_at(code: &[u8], place: u16) -> Option<u16>
    requires { length code.now ≤ most_code }
    ensures { result ≡ target_of (instruction_at code.now place) }
{
    match decode(code, place) {
        Ok((ins, _)) => call_target(ins),
        Err(_) => None,
    }
}

// Returns the call at an entry, or `None` if its instruction is not one.
fn call_at(code: &[u8], place: u16, entry: Entry) -> Option<Call>
    requires { length code.now ≤ most_code }
    ensures call { result ≡ option_map (call_of place entry) (target_of (instruction_at code.now place)) }
    ensures height { IfSome result (λ call. call.height ≤ 65535) }
{
    let target = called_at(code, place)?;
    Some(Call {
        place,
        caller: entry.routine,
        height: entry.height,
        target,
    })
}

/// Returns the calls of all facts of a table.
pub fn list_calls(
    alloc: Global,
    code: &[u8],
    table: &[Option<Entry>],
) -> Result<Vec<Call>, AllocError>
    requires high { length code.now ≤ most_code }
    requires whole { IsWholeTable code.now table.now }
    ensures { IfOk result (λ calls. AreCalls code.now calls.items) }
{
    let mut calls = Vec::new(alloc);
    for (place, entry) in table.iter().enumerate() {
        if let Some(entry) = entry {
            if let Some(call) = call_at(code, place as u16, *entry) {
                calls.push(call)?;
            }
        }
    }
    Ok(calls)
}

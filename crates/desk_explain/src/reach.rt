// The places of code that a way from its first instruction reaches, whatever the stack holds.
ghost use Rattle.std.specs.Prelude.{◌≤◌, length};
ghost use Rattle.mc_isa.specs.model_device.specs.Limits.{most_code};

use mc_check::{call_target, goes_on, is_call, jump_target};
use mc_isa::{Ins, decode};
use std::alloc::{AllocError, Global};

/// The places that are reached, and whether an address from the stack may lead to others.
#[derive(Drop)]
pub struct Reach {
    pub reached: Vec<bool>,
    pub anywhere: bool,
}

// Whether an instruction goes to an address from the stack.
fn goes_anywhere(ins: Ins) -> bool {
    matches!(ins, Ins::Jump { cond: 0, .. } | Ins::Call { cond: 0, .. })
}

impl Reach {
    /// Whether a place is reached.
    pub fn has(&self, place: u16) -> bool {
        self.reached.get(place as usize).copied().unwrap_or(false)
    }

    // Adds a place, which is followed later if it is a new one.
    fn add(&mut self, work: &mut Vec<u16>, place: u16) -> Result<(), AllocError> {
        if let Some(known) = self.reached.get_mut(place as usize) {
            if !*known {
                *known = true;
                work.push(place)?;
            }
        }
        Ok(())
    }

    // Adds the places to which an instruction leads, the next place after it given.
    fn follow(&mut self, work: &mut Vec<u16>, ins: Ins, next: u16) -> Result<(), AllocError> {
        if goes_anywhere(ins) {
            self.anywhere = true;
        }
        if is_call(ins) || goes_on(ins) {
            self.add(work, next)?;
        }
        if let Some(to) = jump_target(ins, next) {
            self.add(work, to)?;
        }
        if let Some(to) = call_target(ins) {
            self.add(work, to)?;
        }
        Ok(())
    }
}

/// Returns the places that are reached in code of at most 8,192 bytes.
///
/// # Errors
///
/// Returns `AllocError` if out of memory.
pub fn reach_of(alloc: Global, code: &[u8]) -> Result<Reach, AllocError>
    requires { length code.now ≤ most_code }
{
    let mut reach = Reach {
        reached: vec![in alloc; false; code.len()]?,
        anywhere: false,
    };
    let mut work = Vec::new(alloc);
    reach.add(&mut work, 0)?;
    for _ in 0..code.len() {
        let Some(place) = work.pop() else {
            return Ok(reach);
        };
        if let Ok((ins, next)) = decode(code, place) {
            reach.follow(&mut work, ins, next)?;
        }
    }
    Ok(reach)
}

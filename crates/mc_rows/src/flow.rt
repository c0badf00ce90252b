// Rows that go to another place of the code, and calls and returns.
ghost use Rattle.std.specs.Prelude.{◌≡◌, ◌&&◌, ◌==◌, OnOk, OnErr, Some};
ghost use Rattle.model_machine.specs.declared.instruction.Ins.TheVariants.{Branch, Jump, Call, Retio};
ghost use Rattle.model_machine.specs.Frame.{is_under, moved_address};
ghost use Rattle.model_machine.specs.Row.{holds, no_place, target, without_target};
ghost use Rattle.mc_segs.specs.Ends.{GivesOrAbends, IfDue};
ghost use Rattle.mc_rows.specs.Rows.{Led};
ghost use Rattle.mc_rows.specs.FrameRows.{FrameActs};

use crate::bytes::number;
use mc_segs::{Abend, Frame, come_back, enter, pop, return_address};

/// Executes BRANCH: if the condition holds, goes to a place relative to the next instruction.
#[tactic(auto, unfolding(model_machine::specs::Row::row, model_machine::specs::Row::causes, model_machine::specs::Row::effect))]
pub fn branch(frame: &mut Frame, cond: u8, d: i8) -> Result<(), Abend>
    ensures { FrameActs (Branch cond d) frame.old frame.new result }
{
    if holds(frame, cond) {
        let to = moved(frame.at(), d)?;
        check_place(frame, to)?;
        frame.go(to);
    }
    Ok(())
}

/// Executes JUMP: goes to an address if the condition holds. Condition 0 always holds, and pops the address.
#[tactic(auto, unfolding(model_machine::specs::Row::row, model_machine::specs::Row::causes, model_machine::specs::Row::effect))]
pub fn jump(frame: &mut Frame, cond: u8, to: u16) -> Result<(), Abend>
    ensures { FrameActs (Jump cond to) frame.old frame.new result }
{
    let to = target(frame, cond, to)?;
    if holds(frame, cond) {
        check_place(frame, to)?;
        frame.go(to);
    }
    Ok(())
}

/// Executes CALL: if the condition holds, pushes LB and the next place, and goes to an address. Condition 0
/// always holds, and pops the address.
#[tactic(auto, unfolding(model_machine::specs::Row::row, model_machine::specs::Row::causes, model_machine::specs::Row::effect))]
pub fn call(frame: &mut Frame, cond: u8, to: u16) -> Result<(), Abend>
    ensures { FrameActs (Call cond to) frame.old frame.new result }
{
    let to = target(frame, cond, to)?;
    if holds(frame, cond) {
        check_place(frame, to)?;
        enter(frame, to)?;
    }
    Ok(())
}

/// Executes RETIO, and with no bytes RET, RETI or RETO: leaves a call, keeps its top `o` bytes, and drops the
/// `i` bytes below it.
#[tactic(auto, unfolding(model_machine::specs::Row::row, model_machine::specs::Row::causes, model_machine::specs::Row::effect))]
pub fn return_with(frame: &mut Frame, i: u8, o: u8) -> Result<(), Abend>
    ensures { FrameActs (Retio i o) frame.old frame.new result }
{
    let to = return_address(frame, i, o)?;
    check_place(frame, to)?;
    come_back(frame, i, o)
}

// Whether a condition holds: 1 to 7 are EQ, LT, LE, GT, GE, NE and ALL; 0 always holds.
fn holds(frame: &Frame, cond: u8) -> bool
    ensures { result ≡ holds cond frame.now.frame }
{
    match cond {
        1 => frame.z(),
        2 => frame.c(),
        3 => frame.c() || frame.z(),
        4 => !frame.c() && !frame.z(),
        5 => !frame.c(),
        6 => !frame.z(),
        _ => true,
    }
}

// Abend 02 if a place is not in the code.
fn check_place(frame: &Frame, to: u16) -> Result<(), Abend>
    ensures { IfDue result (no_place frame.now.frame (Some to)) Abend.A02 }
{
    if to >= frame.code_len() {
        return Err(Abend::A02);
    }
    Ok(())
}

// The target of a branch. Abend 02 if there is none.
fn moved(at: u16, d: i8) -> Result<u16, Abend>
    ensures { Led result (moved_address at d) }
{
    let to = at as i32 + d as i32;
    if to < 0 || to > 0xFFFF {
        return Err(Abend::A02);
    }
    Ok(to as u16)
}

// The address of a jump or a call, which condition 0 pops. Abend 04 if the stack has none.
fn target(frame: &mut Frame, cond: u8, to: u16) -> Result<u16, Abend>
    ensures due { GivesOrAbends result (cond == 0 && is_under frame.old.frame 2) Abend.A04
        (target frame.old.frame cond to) }
    ensures popped { OnOk result (frame.new ≡ record frame.old { frame = without_target frame.old.frame cond }) }
    ensures unchanged { OnErr result (frame.new ≡ frame.old) }
{
    if cond != 0 {
        return Ok(to);
    }
    let mut address = [0; 2];
    pop(frame, &mut address)?;
    Ok(number(address))
}

// How a turn ends, and the protection after it.
ghost use Rattle.std.specs.Prelude.{◌≡◌, option_map, Some};
ghost use Rattle.mc_isa.specs.Primitives.{primitive_of};
ghost use Rattle.law_steps.specs.Nexts.{open_by, open_on};
ghost use Rattle.law_steps.specs.Registers.{mode_of, pair_mode};
ghost use Rattle.law_steps.specs.Shown.{is_exit_of};
ghost use Rattle.desk_steps.specs.Turning.{abend_of, end_of, exit_in};

use mc_card::BriefTurn;
use mc_isa::{Ins, Primitive};
use mc_machine::End;
use mc_segs::Abend;

/// Returns the abend in the end of a turn, or `None` if the chain goes on or ends with a reply.
pub fn abend_of(end: Option<End>) -> Option<Abend>
    ensures { result ≡ abend_of end }
{
    match end {
        Some(End::Abend(abend)) => Some(abend),
        Some(End::Reply) => None,
        None => None,
    }
}

/// Returns whether an instruction exits its frame.
pub fn is_exit(ins: &Ins) -> bool
    ensures { result ≡ is_exit_of ins.now }
{
    match ins {
        Ins::Exit | Ins::Exitsw { .. } | Ins::Exitla { .. } | Ins::Exitswla { .. } => true,
        _ => false,
    }
}

/// Returns the instruction of a turn, if it exits its frame.
pub fn exit_of(turn: &BriefTurn) -> Option<Ins>
    ensures { result ≡ exit_in turn.now.ins }
{
    let ins = turn.ins?;
    if is_exit(&ins) {
        return Some(ins);
    }
    None
}

// The mode of a primitive, if it sets the protection.
fn pair_mode(primitive: Option<Primitive>, args: &[u8; 3]) -> Option<u8>
    ensures { result ≡ pair_mode (option_map primitive_of primitive) args.now }
{
    match primitive {
        Some(Primitive::SetProtection) => Some(args[0]),
        _ => None,
    }
}

/// Returns the mode of an instruction that sets the protection, `None` of any other.
pub fn mode_of(ins: &Ins) -> Option<u8>
    ensures { result ≡ mode_of ins.now }
{
    match *ins {
        Ins::Prim { set, number, args } => pair_mode(Primitive::of(set, number), &args),
        _ => None,
    }
}

// Protection after an instruction, by that before it.
fn open_on(ins: &Ins, is_on: bool) -> bool
    ensures { result ≡ open_on (Some ins.now) is_on }
{
    if is_exit(ins) {
        return false;
    }
    match mode_of(ins) {
        Some(mode) => mode >= 2,
        None => is_on,
    }
}

/// Returns whether protection is on after a turn in the frame that ran it, by that before the turn.
pub fn open_by(turn: &BriefTurn, is_on: bool) -> bool
    ensures { result ≡ open_by (end_of turn.now.end) turn.now.ins is_on }
{
    if abend_of(turn.end).is_some() {
        return is_on;
    }
    match &turn.ins {
        Some(ins) => open_on(ins, is_on),
        None => is_on,
    }
}

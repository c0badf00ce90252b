// Bitwise operations with a mask and shifts of the top of the stack.
ghost use Rattle.std.specs.Prelude.{◌≡◌, ◌≤◌, ◌<◌, ◌*◌, ◌==◌, cond, [], ◌∷◌, false, slice_index, length};
ghost use Rattle.model_machine.specs.declared.machine.Abend.TheVariants.{A04};
ghost use Rattle.model_machine.specs.Blocks.{and_blocks, is_zero};
ghost use Rattle.model_machine.specs.Frame.{is_under, top};
ghost use Rattle.model_machine.specs.Primitives as model;
ghost use Rattle.mc_segs.specs.HeldFrames.{frame_on_bank, CanRun};
ghost use Rattle.mc_segs.specs.Ends.{scene};
ghost use Rattle.mc_prims.specs.Acting.{CausesAct, PopsInto};
ghost use Rattle.mc_prims.specs.Table.{shift_block};

use crate::stack::pop_into;
use mc_arith::{Flags, and, not, or, shift_left, shift_right, xor};
use mc_bank::Bank;
use mc_segs::{Frame, Halt, Next, Public, push};

/// The direction of a shift.
#[derive(Clone, Copy, Debug, PartialEq, Eq)]
pub enum Side {
    Left,
    Right,
}

/// Changes or tests the top `N` bytes of the stack with a mask: op 0 clears its bits, 1 sets them, 2 inverts
/// them, 3 only tests them. Sets Z to whether the result is zero.
#[tactic(auto, using(crate::proofs::FrameLemmas::pushed_popped))]
pub fn manipulate_top<B: Bank, const N: usize>(
    bank: &mut B,
    frame: &mut Frame,
    public: &mut Public,
    op: u8,
    mask: &[u8; N],
) -> Result<Next, Halt>
    requires runs { CanRun B.Bank bank.old frame.old }
    requires op { op ≤ 3 }
    requires low { 1 ≤ N }
    requires high { N ≤ 255 }
    ensures { CausesAct B.Bank (scene bank.old bank.new frame.old frame.new public.old public.new)
        ((A04, is_under (frame_on_bank B.Bank bank.old frame.old) N)
        ∷ []) (model.effect_and_next
        (model.bits_done (frame_on_bank B.Bank bank.old frame.old) public.old op
        (top (frame_on_bank B.Bank bank.old frame.old) N) mask.now)) result }
{
    let mut value = [0; N];
    pop_into(frame, &mut value)?;
    let z = manipulate(op, &mut value, mask);
    push(frame, &value)?;
    frame.set_flags(frame.c(), z);
    Ok(Next::Go)
}

// Changes or tests a value with a mask, and returns whether the result is zero.
fn manipulate<const N: usize>(op: u8, value: &mut [u8; N], mask: &[u8; N]) -> bool
    requires op { op ≤ 3 }
    requires low { 1 ≤ N }
    requires high { N ≤ 255 }
    ensures value { value.new ≡ model.masked_bytes op value.old mask.now }
    ensures zero { result ≡ is_zero (cond (op == 3) (and_blocks value.old mask.now)
        (model.masked_bytes op value.old mask.now)) }
{
    match op {
        0 => {
            let mut kept = *mask;
            not(&mut kept);
            and(value, &kept)
        }
        1 => or(value, mask),
        2 => xor(value, mask),
        _ => {
            let mut tested = *value;
            and(&mut tested, mask)
        }
    }
}

/// Shifts the top `len` bytes of the stack by `by` bits, and sets both flags.
#[tactic(auto, using(crate::proofs::FrameLemmas::pushed_popped))]
pub fn shift_top<B: Bank>(
    bank: &mut B,
    frame: &mut Frame,
    public: &mut Public,
    side: Side,
    len: u8,
    by: u8,
) -> Result<Next, Halt>
    requires runs { CanRun B.Bank bank.old frame.old }
    requires low { 1 ≤ len }
    requires high { len ≤ 16 }
    requires some { 1 ≤ by }
    requires inside { by < 8 * len }
    ensures { CausesAct B.Bank (scene bank.old bank.new frame.old frame.new public.old public.new)
        ((A04, is_under (frame_on_bank B.Bank bank.old frame.old) len)
        ∷ []) (model.effect_and_next
        (model.shift_effect (frame_on_bank B.Bank bank.old frame.old) public.old
        (shift_block side (top (frame_on_bank B.Bank bank.old frame.old) len) by))) result }
{
    let mut bytes = [0; 16];
    let value = &mut bytes[..len as usize];
    pop_into(frame, value)?;
    let flags = shift(side, value, by);
    push(frame, value)?;
    frame.set_flags(flags.c, flags.z);
    Ok(Next::Go)
}

// Shifts a value left or right.
fn shift(side: Side, value: &mut [u8], by: u8) -> Flags
    requires low { 1 ≤ length value.old }
    requires high { length value.old ≤ 16 }
    requires some { 1 ≤ by }
    requires inside { by < 8 * length value.old }
    ensures { record { value = value.new; c = result.c; z = result.z } ≡ shift_block side value.old by }
{
    match side {
        Side::Left => shift_left(value, by),
        Side::Right => shift_right(value, by),
    }
}

// Rows of a block of n bytes at a place.
ghost use Rattle.std.specs.Prelude.{◌≡◌, ◌≤◌, false, length};
ghost use Rattle.model_machine.specs.declared.instruction.Ins.TheVariants.{Clearn, Testn};
ghost use Rattle.mc_segs.specs.HeldFrames.{frame_on_bank, CanRun};
ghost use Rattle.mc_segs.specs.Ends.{scene, EndActs, RowActs};
ghost use Rattle.mc_rows.specs.Rows.{alone, change_end, changed_end, most_unary, onward};

use crate::bytes::{is_zero, zeros};
use crate::operand::place;
use crate::operations::{Unary, change, check_block, check_unary};
use mc_bank::Bank;
use mc_segs::{Frame, Halt, Public, load, store};

/// Executes INCN, DECN or NOTN: replaces the operand by the result.
pub fn change_block<B: Bank>(
    bank: &mut B,
    frame: &mut Frame,
    public: &mut Public,
    kind: Unary,
    tag: u8,
    off: i16,
    n: u8,
) -> Result<(), Halt>
    requires runs { CanRun B.Bank bank.old frame.old }
    requires tag { tag ≤ 7 }
    ensures { EndActs B.Bank (scene bank.old bank.new frame.old frame.new public.old public.new)
        (change_end kind (frame_on_bank B.Bank bank.old frame.old) public.old tag off n)
        (onward result) }
{
    check_unary(kind, n)?;
    let count = n as usize;
    match kind {
        Unary::Inc | Unary::Dec => {
            change_in(bank, frame, public, &mut [0; 16][..count], kind, tag, off)
        }
        Unary::Not => change_in(bank, frame, public, &mut [0; 255][..count], kind, tag, off),
    }
}

// INCN, DECN and NOTN in a buffer of the operand's length, which is a good one.
fn change_in<B: Bank>(
    bank: &mut B,
    frame: &mut Frame,
    public: &mut Public,
    value: &mut [u8],
    kind: Unary,
    tag: u8,
    off: i16,
) -> Result<(), Halt>
    requires low { 1 ≤ length value.old }
    requires high { length value.old ≤ most_unary kind }
    requires runs { CanRun B.Bank bank.old frame.old }
    requires tag { tag ≤ 7 }
    ensures { EndActs B.Bank (scene bank.old bank.new frame.old frame.new public.old public.new)
        (changed_end kind (frame_on_bank B.Bank bank.old frame.old) public.old tag off
        (length value.old)) (onward result) }
{
    let at = place(frame, tag, off, value.len() as u16)?;
    load(bank, frame, public, at, value)?;
    let flags = change(kind, frame.c(), value);
    store(bank, frame, public, at, value)?;
    frame.set_flags(flags.c, flags.z);
    Ok(())
}

/// Executes CLEARN: sets the bytes at the operand's place to zero.
#[tactic(auto, unfolding(model_machine::specs::Row::row, model_machine::specs::Row::causes, model_machine::specs::Row::effect))]
pub fn clear_block<B: Bank>(
    bank: &mut B,
    frame: &mut Frame,
    public: &mut Public,
    tag: u8,
    off: i16,
    n: u8,
) -> Result<(), Halt>
    requires runs { CanRun B.Bank bank.old frame.old }
    requires tag { tag ≤ 7 }
    ensures { RowActs B.Bank (scene bank.old bank.new frame.old frame.new public.old public.new)
        (Clearn tag off n) alone (onward result) }
{
    check_block(n)?;
    let at = place(frame, tag, off, n as u16)?;
    let c = frame.c();
    store(bank, frame, public, at, zeros(n))?;
    frame.set_flags(c, true);
    Ok(())
}

/// Executes TESTN: sets Z to whether the operand is zero.
#[tactic(auto, unfolding(model_machine::specs::Row::row, model_machine::specs::Row::causes, model_machine::specs::Row::effect))]
pub fn test_block<B: Bank>(
    bank: &mut B,
    frame: &mut Frame,
    public: &mut Public,
    tag: u8,
    off: i16,
    n: u8,
) -> Result<(), Halt>
    requires runs { CanRun B.Bank bank.old frame.old }
    requires tag { tag ≤ 7 }
    ensures { RowActs B.Bank (scene bank.old bank.new frame.old frame.new public.old public.new)
        (Testn tag off n) alone (onward result) }
{
    check_block(n)?;
    let mut buffer = [0; 255];
    let value = &mut buffer[..n as usize];
    let at = place(frame, tag, off, n as u16)?;
    load(bank, frame, public, at, value)?;
    frame.set_flags(frame.c(), is_zero(value));
    Ok(())
}

// Rows of a byte or a word at a place with an immediate operand.
ghost use Rattle.std.specs.Prelude.{◌≡◌, ◌≤◌, false, length};
ghost use Rattle.mc_segs.specs.HeldFrames.{frame_on_bank, CanRun};
ghost use Rattle.mc_segs.specs.Ends.{scene, EndActs};
ghost use Rattle.mc_rows.specs.Rows.{set_end, compare_end, combine_end, onward};

use crate::operand::place;
use crate::operations::{Binary, combine};
use mc_arith::compare;
use mc_bank::Bank;
use mc_segs::{Frame, Halt, Public, load, store};

/// Executes SETB or SETW: sets the bytes at the operand's place to these, one or two.
pub fn set<B: Bank>(
    bank: &mut B,
    frame: &mut Frame,
    public: &mut Public,
    tag: u8,
    off: i16,
    bytes: &[u8],
) -> Result<(), Halt>
    requires runs { CanRun B.Bank bank.old frame.old }
    requires tag { tag ≤ 7 }
    requires low { 1 ≤ length bytes.now }
    requires high { length bytes.now ≤ 2 }
    ensures { EndActs B.Bank (scene bank.old bank.new frame.old frame.new public.old public.new)
        (set_end (frame_on_bank B.Bank bank.old frame.old) public.old tag off bytes.now)
        (onward result) }
{
    let at = place(frame, tag, off, bytes.len() as u16)?;
    store(bank, frame, public, at, bytes)?;
    Ok(())
}

/// Executes CMPB or CMPW: sets the flags of the operand minus these bytes, one or two.
pub fn compare_with<B: Bank>(
    bank: &mut B,
    frame: &mut Frame,
    public: &mut Public,
    tag: u8,
    off: i16,
    bytes: &[u8],
) -> Result<(), Halt>
    requires runs { CanRun B.Bank bank.old frame.old }
    requires tag { tag ≤ 7 }
    requires low { 1 ≤ length bytes.now }
    requires high { length bytes.now ≤ 2 }
    ensures { EndActs B.Bank (scene bank.old bank.new frame.old frame.new public.old public.new)
        (compare_end (frame_on_bank B.Bank bank.old frame.old) public.old tag off bytes.now)
        (onward result) }
{
    let mut buffer = [0; 2];
    let value = &mut buffer[..bytes.len()];
    let at = place(frame, tag, off, bytes.len() as u16)?;
    load(bank, frame, public, at, value)?;
    let flags = compare(value, bytes);
    frame.set_flags(flags.c, flags.z);
    Ok(())
}

/// Executes ADDB, ADDW, SUBB or SUBW: replaces the operand by the result with these bytes, one or two.
pub fn combine_with<B: Bank>(
    bank: &mut B,
    frame: &mut Frame,
    public: &mut Public,
    kind: Binary,
    tag: u8,
    off: i16,
    bytes: &[u8],
) -> Result<(), Halt>
    requires runs { CanRun B.Bank bank.old frame.old }
    requires tag { tag ≤ 7 }
    requires low { 1 ≤ length bytes.now }
    requires high { length bytes.now ≤ 2 }
    ensures { EndActs B.Bank (scene bank.old bank.new frame.old frame.new public.old public.new)
        (combine_end kind (frame_on_bank B.Bank bank.old frame.old) public.old tag off bytes.now)
        (onward result) }
{
    let mut buffer = [0; 2];
    let value = &mut buffer[..bytes.len()];
    let at = place(frame, tag, off, bytes.len() as u16)?;
    load(bank, frame, public, at, value)?;
    let flags = combine(kind, frame.c(), value, bytes);
    store(bank, frame, public, at, value)?;
    frame.set_flags(flags.c, flags.z);
    Ok(())
}

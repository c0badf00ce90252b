// Rows of n bytes at a place and the top n bytes of the stack.
ghost use Rattle.std.specs.Prelude.{◌≡◌, ◌≤◌, false, length};
ghost use Rattle.model_machine.specs.declared.instruction.Ins.TheVariants.{Cmpn};
ghost use Rattle.mc_segs.specs.HeldFrames.{frame_on_bank, CanRun};
ghost use Rattle.mc_segs.specs.Ends.{scene, EndActs, RowActs};
ghost use Rattle.mc_rows.specs.Rows.{alone, most_binary, pair_end, paired_end, onward};

use crate::operand::read_first;
use crate::operations::{Binary, check_binary, check_block, combine};
use mc_arith::compare;
use mc_bank::Bank;
use mc_segs::{Frame, Halt, Public, store, top};

/// Executes ADDN, SUBN, ANDN, ORN or XORN: replaces the first operand by the result with the second, which
/// stays on the stack.
pub fn combine_pair<B: Bank>(
    bank: &mut B,
    frame: &mut Frame,
    public: &mut Public,
    kind: Binary,
    tag: u8,
    off: i16,
    n: u8,
) -> Result<(), Halt>
    requires runs { CanRun B.Bank bank.old frame.old }
    requires tag { tag ≤ 7 }
    ensures { EndActs B.Bank (scene bank.old bank.new frame.old frame.new public.old public.new)
        (pair_end kind (frame_on_bank B.Bank bank.old frame.old) public.old tag off n)
        (onward result) }
{
    check_binary(kind, n)?;
    let count = n as usize;
    match kind {
        Binary::Add | Binary::Sub => {
            combine_in(bank, frame, public, &mut [0; 16][..count], kind, tag, off)
        }
        Binary::And | Binary::Or | Binary::Xor => {
            combine_in(bank, frame, public, &mut [0; 255][..count], kind, tag, off)
        }
    }
}

// ADDN, SUBN, ANDN, ORN and XORN in a buffer of the operands' length, which is a good one.
fn combine_in<B: Bank>(
    bank: &mut B,
    frame: &mut Frame,
    public: &mut Public,
    first: &mut [u8],
    kind: Binary,
    tag: u8,
    off: i16,
) -> Result<(), Halt>
    requires low { 1 ≤ length first.old }
    requires high { length first.old ≤ most_binary kind }
    requires runs { CanRun B.Bank bank.old frame.old }
    requires tag { tag ≤ 7 }
    ensures { EndActs B.Bank (scene bank.old bank.new frame.old frame.new public.old public.new)
        (paired_end kind (frame_on_bank B.Bank bank.old frame.old) public.old tag off
        (length first.old)) (onward result) }
{
    let at = read_first(bank, frame, public, tag, off, first)?;
    let second = top(frame, first.len() as u8);
    let flags = combine(kind, frame.c(), first, second);
    store(bank, frame, public, at, first)?;
    frame.set_flags(flags.c, flags.z);
    Ok(())
}

/// Executes CMPN: sets the flags of the first operand minus the second.
#[tactic(auto, unfolding(model_machine::specs::Row::row, model_machine::specs::Row::causes, model_machine::specs::Row::effect))]
pub fn compare_pair<B: Bank>(
    bank: &mut B,
    frame: &mut Frame,
    public: &mut Public,
    tag: u8,
    off: i16,
    n: u8,
) -> Result<(), Halt>
    requires runs { CanRun B.Bank bank.old frame.old }
    requires tag { tag ≤ 7 }
    ensures { RowActs B.Bank (scene bank.old bank.new frame.old frame.new public.old public.new)
        (Cmpn tag off n) alone (onward result) }
{
    check_block(n)?;
    let mut buffer = [0; 255];
    let first = &mut buffer[..n as usize];
    read_first(bank, frame, public, tag, off, first)?;
    let flags = compare(first, top(frame, n));
    frame.set_flags(flags.c, flags.z);
    Ok(())
}

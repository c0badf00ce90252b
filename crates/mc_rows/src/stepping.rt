// One instruction: its row, by families.
ghost use Rattle.std.specs.Prelude.{◌≡◌, false};
ghost use Rattle.model_machine.specs.Code.{Shaped};
ghost use Rattle.mc_segs.specs.HeldFrames.{CanRun};
ghost use Rattle.mc_segs.specs.Ends.{scene, RowActs};
ghost use Rattle.mc_rows.specs.Rows.{alone, row_result, onward};
ghost use Rattle.mc_rows.specs.FrameRows.{FrameActs};
ghost use Rattle.mc_rows.specs.Families.{HasOperand, IsFrameRow, IsImmediate, IsNoPrimitive};

use crate::blocks::{change_block, clear_block, test_block};
use crate::flow::{branch, call, jump, return_with};
use crate::immediates::{combine_with, compare_with, set};
use crate::operations::{Binary, Unary};
use crate::pairs::{combine_pair, compare_pair};
use crate::registers::{Flow, registers};
use crate::stack::{pop_byte, pop_bytes, pop_word, push_byte, push_word, push_zeros};
use crate::transfers::{
    index, load_address, load_block, load_indirect, store_block, store_indirect,
};
use mc_bank::Bank;
use mc_segs::{Abend, Frame, Halt, Public};
use mc_words::bytes_of;
use model_machine::Ins;

/// Executes one instruction other than PRIM whose fields are in their ranges; the frame's code address is
/// already that of the next instruction. Returns the continuation.
///
/// # Errors
///
/// Returns an abend exactly by the first cause of its row that holds; no byte at an address has changed then.
/// Returns the `Stop` of the bank if it stopped during the change of static bytes.
#[tactic(auto, unfolding(model_machine::specs::Row::row, model_machine::specs::Row::causes, model_machine::specs::Row::effect))]
#[inline(always)]
pub fn step<B: Bank>(
    bank: &mut B,
    frame: &mut Frame,
    public: &mut Public,
    ins: &Ins,
) -> Result<Flow, Halt>
    requires runs { CanRun B.Bank bank.old frame.old }
    requires shaped { Shaped ins.now }
    requires row { IsNoPrimitive ins.now }
    ensures { RowActs B.Bank
        (scene bank.old bank.new frame.old frame.new public.old public.new) ins.now alone (row_result result) }
{
    match *ins {
        Ins::Nop
        | Ins::Setsw { .. }
        | Ins::Setla { .. }
        | Ins::Setswla { .. }
        | Ins::Exit
        | Ins::Exitsw { .. }
        | Ins::Exitla { .. }
        | Ins::Exitswla { .. } => Ok(registers(public, ins)),
        Ins::Branch { .. }
        | Ins::Jump { .. }
        | Ins::Call { .. }
        | Ins::Ret
        | Ins::Reti { .. }
        | Ins::Reto { .. }
        | Ins::Retio { .. }
        | Ins::Pushz { .. }
        | Ins::Pushb { .. }
        | Ins::Pushw { .. }
        | Ins::Popn { .. }
        | Ins::Popb
        | Ins::Popw
        | Ins::Loada { .. }
        | Ins::Index { .. } => match step_frame(frame, ins) {
            Ok(()) => Ok(Flow::Go),
            Err(abend) => Err(Halt::Abend(abend)),
        },
        _ => match step_operand(bank, frame, public, ins) {
            Ok(()) => Ok(Flow::Go),
            Err(halt) => Err(halt),
        },
    }
}

// The rows that depend on their frame alone.
#[tactic(auto, unfolding(model_machine::specs::Row::row, model_machine::specs::Row::causes, model_machine::specs::Row::effect))]
#[inline(always)]
fn step_frame(frame: &mut Frame, ins: &Ins) -> Result<(), Abend>
    requires shaped { Shaped ins.now }
    requires family { IsFrameRow ins.now }
    ensures { FrameActs ins.now frame.old frame.new result }
{
    match *ins {
        Ins::Branch { cond, d } => branch(frame, cond, d),
        Ins::Jump { cond, to } => jump(frame, cond, to),
        Ins::Call { cond, to } => call(frame, cond, to),
        Ins::Ret => return_with(frame, 0, 0),
        Ins::Reti { i } => return_with(frame, i, 0),
        Ins::Reto { o } => return_with(frame, 0, o),
        Ins::Retio { i, o } => return_with(frame, i, o),
        Ins::Pushz { n } => push_zeros(frame, n),
        Ins::Pushb { b } => push_byte(frame, b),
        Ins::Pushw { w } => push_word(frame, w),
        Ins::Popn { n } => pop_bytes(frame, n),
        Ins::Popb => pop_byte(frame),
        Ins::Popw => pop_word(frame),
        Ins::Loada { tag, off } => load_address(frame, tag, off),
        Ins::Index { tag, off, size } => index(frame, tag, off, size),
        _ => unreachable!(),
    }
}

// The rows that read or write an operand with an address tag: those of blocks of n bytes, and then those of an
// immediate.
#[tactic(auto, unfolding(model_machine::specs::Row::row, model_machine::specs::Row::causes, model_machine::specs::Row::effect))]
#[inline(always)]
fn step_operand<B: Bank>(
    bank: &mut B,
    frame: &mut Frame,
    public: &mut Public,
    ins: &Ins,
) -> Result<(), Halt>
    requires runs { CanRun B.Bank bank.old frame.old }
    requires shaped { Shaped ins.now }
    requires family { HasOperand ins.now }
    ensures { RowActs B.Bank
        (scene bank.old bank.new frame.old frame.new public.old public.new) ins.now alone (onward result) }
{
    match *ins {
        Ins::Load { tag, off, n } => load_block(bank, frame, public, tag, off, n),
        Ins::Store { tag, off, n } => store_block(bank, frame, public, tag, off, n),
        Ins::Loadi { tag, off, n } => load_indirect(bank, frame, public, tag, off, n),
        Ins::Storei { tag, off, n } => store_indirect(bank, frame, public, tag, off, n),
        Ins::Clearn { tag, off, n } => clear_block(bank, frame, public, tag, off, n),
        Ins::Testn { tag, off, n } => test_block(bank, frame, public, tag, off, n),
        Ins::Incn { tag, off, n } => change_block(bank, frame, public, Unary::Inc, tag, off, n),
        Ins::Decn { tag, off, n } => change_block(bank, frame, public, Unary::Dec, tag, off, n),
        Ins::Notn { tag, off, n } => change_block(bank, frame, public, Unary::Not, tag, off, n),
        Ins::Cmpn { tag, off, n } => compare_pair(bank, frame, public, tag, off, n),
        Ins::Addn { tag, off, n } => combine_pair(bank, frame, public, Binary::Add, tag, off, n),
        Ins::Subn { tag, off, n } => combine_pair(bank, frame, public, Binary::Sub, tag, off, n),
        Ins::Andn { tag, off, n } => combine_pair(bank, frame, public, Binary::And, tag, off, n),
        Ins::Orn { tag, off, n } => combine_pair(bank, frame, public, Binary::Or, tag, off, n),
        Ins::Xorn { tag, off, n } => combine_pair(bank, frame, public, Binary::Xor, tag, off, n),
        _ => step_immediate(bank, frame, public, ins),
    }
}

// The rows of a byte or a word at a place with an immediate operand.
#[tactic(auto, unfolding(model_machine::specs::Row::row, model_machine::specs::Row::causes, model_machine::specs::Row::effect))]
#[inline(always)]
fn step_immediate<B: Bank>(
    bank: &mut B,
    frame: &mut Frame,
    public: &mut Public,
    ins: &Ins,
) -> Result<(), Halt>
    requires runs { CanRun B.Bank bank.old frame.old }
    requires shaped { Shaped ins.now }
    requires family { IsImmediate ins.now }
    ensures { RowActs B.Bank
        (scene bank.old bank.new frame.old frame.new public.old public.new) ins.now alone (onward result) }
{
    match *ins {
        Ins::Setb { tag, off, b } => set(bank, frame, public, tag, off, &[b]),
        Ins::Cmpb { tag, off, b } => compare_with(bank, frame, public, tag, off, &[b]),
        Ins::Addb { tag, off, b } => combine_with(bank, frame, public, Binary::Add, tag, off, &[b]),
        Ins::Subb { tag, off, b } => combine_with(bank, frame, public, Binary::Sub, tag, off, &[b]),
        Ins::Setw { tag, off, w } => set(bank, frame, public, tag, off, &bytes_of(w)),
        Ins::Cmpw { tag, off, w } => compare_with(bank, frame, public, tag, off, &bytes_of(w)),
        Ins::Addw { tag, off, w } => combine_with(
            bank,
            frame,
            public,
            Binary::Add,
            tag,
            off,
            &bytes_of(w),
        ),
        Ins::Subw { tag, off, w } => combine_with(
            bank,
            frame,
            public,
            Binary::Sub,
            tag,
            off,
            &bytes_of(w),
        ),
        _ => unreachable!(),
    }
}

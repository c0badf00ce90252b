// Rows that put bytes on the stack or take them from it.
ghost use Rattle.model_machine.specs.declared.instruction.Ins.TheVariants.{Pushz, Pushb, Pushw, Popn, Popb, Popw};
ghost use Rattle.mc_rows.specs.FrameRows.{FrameActs};

use crate::bytes::zeros;
use crate::operations::check_block;
use mc_segs::{Abend, Frame, discard, push};
use mc_words::bytes_of;

/// Executes PUSHZ: pushes n zero bytes.
#[tactic(auto, unfolding(model_machine::specs::Row::row, model_machine::specs::Row::causes, model_machine::specs::Row::effect))]
pub fn push_zeros(frame: &mut Frame, n: u8) -> Result<(), Abend>
    ensures { FrameActs (Pushz n) frame.old frame.new result }
{
    check_block(n)?;
    push(frame, zeros(n))
}

/// Executes PUSHB: pushes one byte.
#[tactic(auto, unfolding(model_machine::specs::Row::row, model_machine::specs::Row::causes, model_machine::specs::Row::effect))]
pub fn push_byte(frame: &mut Frame, b: u8) -> Result<(), Abend>
    ensures { FrameActs (Pushb b) frame.old frame.new result }
{
    push(frame, &[b])
}

/// Executes PUSHW: pushes two bytes.
#[tactic(auto, unfolding(model_machine::specs::Row::row, model_machine::specs::Row::causes, model_machine::specs::Row::effect))]
pub fn push_word(frame: &mut Frame, w: u16) -> Result<(), Abend>
    ensures { FrameActs (Pushw w) frame.old frame.new result }
{
    push(frame, &bytes_of(w))
}

/// Executes POPN: pops n bytes.
#[tactic(auto, unfolding(model_machine::specs::Row::row, model_machine::specs::Row::causes, model_machine::specs::Row::effect))]
pub fn pop_bytes(frame: &mut Frame, n: u8) -> Result<(), Abend>
    ensures { FrameActs (Popn n) frame.old frame.new result }
{
    check_block(n)?;
    discard(frame, n)
}

/// Executes POPB: pops one byte.
#[tactic(auto, unfolding(model_machine::specs::Row::row, model_machine::specs::Row::causes, model_machine::specs::Row::effect))]
pub fn pop_byte(frame: &mut Frame) -> Result<(), Abend>
    ensures { FrameActs Popb frame.old frame.new result }
{
    discard(frame, 1)
}

/// Executes POPW: pops two bytes.
#[tactic(auto, unfolding(model_machine::specs::Row::row, model_machine::specs::Row::causes, model_machine::specs::Row::effect))]
pub fn pop_word(frame: &mut Frame) -> Result<(), Abend>
    ensures { FrameActs Popw frame.old frame.new result }
{
    discard(frame, 2)
}

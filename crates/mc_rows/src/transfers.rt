// Rows that move bytes between the stack and an address.
ghost use Rattle.std.specs.Prelude.{◌≡◌, ◌≤◌, false, length};
ghost use Rattle.model_machine.specs.declared.instruction.Ins.TheVariants.{Load, Store, Loadi, Storei, Loada, Index};
ghost use Rattle.mc_segs.specs.HeldFrames.{frame_on_bank, CanRun};
ghost use Rattle.mc_segs.specs.Ends.{scene, RowActs};
ghost use Rattle.mc_rows.specs.Rows.{alone, AddressUnder, onward};
ghost use Rattle.mc_rows.specs.FrameRows.{FrameActs};

use crate::operand::{indexed, need, on_stack, operand, place, read_address};
use crate::operations::check_block;
use mc_bank::Bank;
use mc_segs::{Abend, Frame, Halt, Public, load, pop, push, store};
use mc_words::bytes_of;

/// The number of bytes for which a small buffer is enough: clearing a large one takes longer than most operands.
const FEW: usize = 16;

/// Executes LOAD: pushes the n bytes of the operand.
#[tactic(auto, unfolding(model_machine::specs::Row::row, model_machine::specs::Row::causes, model_machine::specs::Row::effect))]
pub fn load_block<B: Bank>(
    bank: &mut B,
    frame: &mut Frame,
    public: &mut Public,
    tag: u8,
    off: i16,
    n: u8,
) -> Result<(), Halt>
    requires runs { CanRun B.Bank bank.old frame.old }
    requires tag { tag ≤ 7 }
    ensures { RowActs B.Bank (scene bank.old bank.new frame.old frame.new public.old public.new)
        (Load tag off n) alone (onward result) }
{
    check_block(n)?;
    let count = n as usize;
    if count <= FEW {
        return load_in(bank, frame, public, &mut [0; FEW][..count], tag, off);
    }
    load_in(bank, frame, public, &mut [0; 255][..count], tag, off)
}

// LOAD in a buffer of the operand's length.
#[tactic(auto, unfolding(model_machine::specs::Row::row, model_machine::specs::Row::causes, model_machine::specs::Row::effect))]
#[inline(always)]
fn load_in<B: Bank>(
    bank: &mut B,
    frame: &mut Frame,
    public: &mut Public,
    bytes: &mut [u8],
    tag: u8,
    off: i16,
) -> Result<(), Halt>
    requires low { 1 ≤ length bytes.old }
    requires high { length bytes.old ≤ 255 }
    requires runs { CanRun B.Bank bank.old frame.old }
    requires tag { tag ≤ 7 }
    ensures { RowActs B.Bank (scene bank.old bank.new frame.old frame.new public.old public.new)
        (Load tag off (length bytes.old)) alone (onward result) }
{
    let at = place(frame, tag, off, bytes.len() as u16)?;
    load(bank, frame, public, at, bytes)?;
    push(frame, bytes)?;
    Ok(())
}

/// Executes STORE: pops n bytes, and writes them to the operand's place.
#[tactic(auto, unfolding(model_machine::specs::Row::row, model_machine::specs::Row::causes, model_machine::specs::Row::effect))]
pub fn store_block<B: Bank>(
    bank: &mut B,
    frame: &mut Frame,
    public: &mut Public,
    tag: u8,
    off: i16,
    n: u8,
) -> Result<(), Halt>
    requires runs { CanRun B.Bank bank.old frame.old }
    requires tag { tag ≤ 7 }
    ensures { RowActs B.Bank (scene bank.old bank.new frame.old frame.new public.old public.new)
        (Store tag off n) alone (onward result) }
{
    check_block(n)?;
    let count = n as usize;
    if count <= FEW {
        return store_in(bank, frame, public, &mut [0; FEW][..count], tag, off);
    }
    store_in(bank, frame, public, &mut [0; 255][..count], tag, off)
}

// STORE in a buffer of the operand's length.
#[tactic(auto, unfolding(model_machine::specs::Row::row, model_machine::specs::Row::causes, model_machine::specs::Row::effect))]
#[inline(always)]
fn store_in<B: Bank>(
    bank: &mut B,
    frame: &mut Frame,
    public: &mut Public,
    bytes: &mut [u8],
    tag: u8,
    off: i16,
) -> Result<(), Halt>
    requires low { 1 ≤ length bytes.old }
    requires high { length bytes.old ≤ 255 }
    requires runs { CanRun B.Bank bank.old frame.old }
    requires tag { tag ≤ 7 }
    ensures { RowActs B.Bank (scene bank.old bank.new frame.old frame.new public.old public.new)
        (Store tag off (length bytes.old)) alone (onward result) }
{
    let count = bytes.len() as u16;
    need(frame, on_stack(tag, 2 * count, count))?;
    let at = operand(frame, tag, off, 2 * count)?;
    pop(frame, bytes)?;
    store(bank, frame, public, at, bytes)?;
    Ok(())
}

/// Executes LOADI: pushes n bytes, of which the operand is the address.
#[tactic(auto, unfolding(model_machine::specs::Row::row, model_machine::specs::Row::causes, model_machine::specs::Row::effect))]
pub fn load_indirect<B: Bank>(
    bank: &mut B,
    frame: &mut Frame,
    public: &mut Public,
    tag: u8,
    off: i16,
    n: u8,
) -> Result<(), Halt>
    requires runs { CanRun B.Bank bank.old frame.old }
    requires tag { tag ≤ 7 }
    ensures { RowActs B.Bank (scene bank.old bank.new frame.old frame.new public.old public.new)
        (Loadi tag off n) alone (onward result) }
{
    check_block(n)?;
    let at = place(frame, tag, off, 2)?;
    let from = read_address(bank, frame, public, at)?;
    let mut buffer = [0; 255];
    let bytes = &mut buffer[..n as usize];
    load(bank, frame, public, from, bytes)?;
    push(frame, bytes)?;
    Ok(())
}

/// Executes STOREI: pops n bytes, and writes them to the address that the operand was before.
#[tactic(auto, unfolding(model_machine::specs::Row::row, model_machine::specs::Row::causes, model_machine::specs::Row::effect))]
pub fn store_indirect<B: Bank>(
    bank: &mut B,
    frame: &mut Frame,
    public: &mut Public,
    tag: u8,
    off: i16,
    n: u8,
) -> Result<(), Halt>
    requires runs { CanRun B.Bank bank.old frame.old }
    requires tag { tag ≤ 7 }
    ensures { RowActs B.Bank (scene bank.old bank.new frame.old frame.new public.old public.new)
        (Storei tag off n) alone (onward result) }
{
    check_block(n)?;
    let to = address_under(bank, frame, public, n, tag, off)?;
    let mut buffer = [0; 255];
    let bytes = &mut buffer[..n as usize];
    pop(frame, bytes)?;
    store(bank, frame, public, to, bytes)?;
    Ok(())
}

/// Executes LOADA: pushes the operand's address, if the tag is 0 that of the top of the stack.
#[tactic(auto, unfolding(model_machine::specs::Row::row, model_machine::specs::Row::causes, model_machine::specs::Row::effect))]
pub fn load_address(frame: &mut Frame, tag: u8, off: i16) -> Result<(), Abend>
    requires { tag ≤ 7 }
    ensures { FrameActs (Loada tag off) frame.old frame.new result }
{
    let at = operand(frame, tag, off, 0)?;
    push(frame, &bytes_of(at))
}

/// Executes INDEX: pushes the address of an element of a table; pops its number, and if the tag is 0 the
/// table's address too.
#[tactic(auto, unfolding(model_machine::specs::Row::row, model_machine::specs::Row::causes, model_machine::specs::Row::effect))]
pub fn index(frame: &mut Frame, tag: u8, off: i16, size: u8) -> Result<(), Abend>
    requires { tag ≤ 7 }
    ensures { FrameActs (Index tag off size) frame.old frame.new result }
{
    let at = indexed(frame, tag, off, size)?;
    push(frame, &bytes_of(at))
}

// The address to which STOREI writes the top n bytes of the stack.
fn address_under<B: Bank>(
    bank: &B,
    frame: &Frame,
    public: &Public,
    n: u8,
    tag: u8,
    off: i16,
) -> Result<u16, Abend>
    requires runs { CanRun B.Bank bank.now frame.now }
    requires tag { tag ≤ 7 }
    ensures { AddressUnder result (frame_on_bank B.Bank bank.now frame.now) public.now tag off n }
{
    let count = n as u16;
    need(frame, on_stack(tag, count + 2, count))?;
    let at = operand(frame, tag, off, count + 2)?;
    read_address(bank, frame, public, at)
}

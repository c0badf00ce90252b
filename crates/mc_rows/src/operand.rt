// The addresses of the operands of a row.
ghost use Rattle.std.specs.Prelude.{◌≡◌, ◌+◌, ◌*◌, ◌≤◌, ◌==◌, ◌&&◌, OnOk, length, false};
ghost use Rattle.model_machine.specs.model_device.specs.Bytes.{num};
ghost use Rattle.model_machine.specs.Frame.{address_at, in_two_bytes, is_outside, is_under, frame_after_pop};
ghost use Rattle.model_machine.specs.Row.{indexed_address, on_stack, operand};
ghost use Rattle.mc_segs.specs.HeldFrames.{frame_on_bank, CanRun};
ghost use Rattle.mc_segs.specs.Ends.{address_or_abend, GivesOrAbends, IfDue};
ghost use Rattle.mc_rows.specs.Rows.{FirstRead, OperandPlaced};

use crate::bytes::number;
use mc_bank::Bank;
use mc_segs::{Abend, Frame, Public, load, pop, resolve};

/// Tests that the stack has at least `count` bytes.
///
/// # Errors
///
/// Returns abend 04 if it has fewer.
#[inline(always)]
pub fn need(frame: &Frame, count: u16) -> Result<(), Abend>
    requires { count ≤ 512 }
    ensures { IfDue result (is_under frame.now.frame count) Abend.A04 }
{
    if frame.dt() < frame.floor() + count {
        return Err(Abend::A04);
    }
    Ok(())
}

/// Returns the number of bytes that operands take of the stack: `with` if the tag is 0, else `without`.
#[inline(always)]
pub fn on_stack(tag: u8, with: u16, without: u16) -> u16
    ensures { result ≡ on_stack tag with without }
{
    if tag == 0 { with } else { without }
}

/// Returns the address of an operand; if the tag is 0 it begins `below` bytes below the top of the stack.
///
/// # Errors
///
/// Returns abend 03 if there is no such address.
#[inline(always)]
pub fn operand(frame: &Frame, tag: u8, off: i16, below: u16) -> Result<u16, Abend>
    requires tag { tag ≤ 7 }
    requires below { below ≤ 512 }
    ensures { result ≡ address_or_abend (operand frame.now.frame tag off below) }
{
    if tag == 0 {
        return Ok(frame.dt() - below);
    }
    resolve(frame, tag, off)
}

/// Returns the address of an operand of `count` bytes; if the tag is 0 it is the top of the stack.
///
/// # Errors
///
/// Returns abend 04 if the stack has fewer bytes, and abend 03 if there is no such address.
#[inline(always)]
pub fn place(frame: &Frame, tag: u8, off: i16, count: u16) -> Result<u16, Abend>
    requires tag { tag ≤ 7 }
    requires count { count ≤ 255 }
    ensures { OperandPlaced result (tag == 0 && is_under frame.now.frame count)
        (operand frame.now.frame tag off count) }
{
    if tag == 0 {
        need(frame, count)?;
    }
    operand(frame, tag, off, count)
}

/// Reads the address in the two bytes at the address `at`.
///
/// # Errors
///
/// Returns abend 03 if they lie in no segment.
pub fn read_address<B: Bank>(
    bank: &B,
    frame: &Frame,
    public: &Public,
    at: u16,
) -> Result<u16, Abend>
    requires runs { CanRun B.Bank bank.now frame.now }
    ensures { GivesOrAbends result (is_outside (frame_on_bank B.Bank bank.now frame.now) at 2) Abend.A03
        (address_at (frame_on_bank B.Bank bank.now frame.now) public.now at) }
{
    let mut address = [0; 2];
    load(bank, frame, public, at, &mut address)?;
    Ok(number(address))
}

/// Reads the first of a pair of operands of one length into the slice, and returns its address. The second
/// operand is the top of the stack.
///
/// # Errors
///
/// Returns abend 04 if the stack has too few bytes, and abend 03 if the first operand lies in no segment.
#[inline(always)]
pub fn read_first<B: Bank>(
    bank: &B,
    frame: &Frame,
    public: &Public,
    tag: u8,
    off: i16,
    into: &mut [u8],
) -> Result<u16, Abend>
    requires runs { CanRun B.Bank bank.now frame.now }
    requires tag { tag ≤ 7 }
    requires low { 1 ≤ length into.old }
    requires high { length into.old ≤ 255 }
    ensures first { FirstRead result (frame_on_bank B.Bank bank.now frame.now) public.now tag off
        (length into.old) into.new }
    ensures second { OnOk result (is_under frame.now.frame (length into.old) ≡ false) }
{
    let count = into.len() as u16;
    need(frame, on_stack(tag, 2 * count, count))?;
    let at = operand(frame, tag, off, 2 * count)?;
    load(bank, frame, public, at, into)?;
    Ok(at)
}

/// Pops an index, and if the tag is 0 the base that lies under it; else the base is the address of the tag.
/// Returns the address of the element of `size` bytes with that index.
///
/// # Errors
///
/// Returns abend 04 if the stack has too few bytes, and abend 03 if there is no such address.
pub fn indexed(frame: &mut Frame, tag: u8, off: i16, size: u8) -> Result<u16, Abend>
    requires tag { tag ≤ 7 }
    ensures place { OperandPlaced result (is_under frame.old.frame (on_stack tag 3 1))
        (indexed_address frame.old.frame tag off size) }
    ensures popped { OnOk result (frame.new ≡ record frame.old {
      frame = frame_after_pop frame.old.frame
          (on_stack tag 3 1);
    }) }
    ensures dynamic { frame.new.frame.dyn ≡ frame.old.frame.dyn }
    ensures session { frame.new.frame.session ≡ frame.old.frame.session }
{
    need(frame, on_stack(tag, 3, 1))?;
    let mut index = [0];
    if tag == 0 {
        let mut base = [0; 2];
        pop(frame, &mut index)?;
        pop(frame, &mut base)?;
        return element(number(base), index, size);
    }
    let base = resolve(frame, tag, off)?;
    pop(frame, &mut index)?;
    element(base, index, size)
}

// The address of an element of a table at a base. Abend 03 if there is none.
fn element(base: u16, index: [u8; 1], size: u8) -> Result<u16, Abend>
    ensures { result ≡ address_or_abend (in_two_bytes (base + num index * size)) }
{
    let [index] = index;
    let at = base as u32 + index as u32 * size as u32;
    if at > 0xFFFF {
        return Err(Abend::A03);
    }
    Ok(at as u16)
}

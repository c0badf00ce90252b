// The stack of a frame: bytes on its top, and the saved registers of calls.
ghost use Rattle.std.specs.Prelude.{◌≡◌, ◌-◌, ◌+◌, ◌≤◌, false, length, not, OnOk, OnErr};
ghost use Rattle.mc_apdu.specs.model_machine.specs.Frame as model;
ghost use Rattle.mc_segs.specs.Ends.{GivesOrAbends, IfDue};

use crate::bytes::{move_bytes, read, word_at, words, write};
use crate::frame::{DYNAMIC, Frame};
use mc_apdu::model_machine::Abend;

/// Pushes bytes on the stack.
///
/// # Errors
///
/// Returns abend 05, and changes nothing, if they would pass the end of the stack.
#[inline]
pub fn push(frame: &mut Frame, bytes: &[u8]) -> Result<(), Abend>
    ensures abend { IfDue result (model.is_over frame.old.frame (length bytes.now)) Abend.A05 }
    ensures pushed { OnOk result
        (frame.new ≡ record frame.old { frame = model.frame_after_push frame.old.frame bytes.now }) }
    ensures unchanged { OnErr result (frame.new ≡ frame.old) }
{
    let from = (frame.dt - DYNAMIC) as usize;
    if bytes.len() > 512 - from {
        return Err(Abend::A05);
    }
    write(&mut frame.dynamic, from, bytes);
    frame.dt += bytes.len() as u16;
    Ok(())
}

/// Returns the top `count` bytes of the stack, all of which are above the floor.
#[inline]
pub fn top(frame: &Frame, count: u8) -> &[u8]
    requires { model.is_under frame.now.frame count ≡ false }
    ensures bytes { result.now ≡ model.top frame.now.frame count }
    ensures length { length result.now ≡ count }
{
    let to = (frame.dt - DYNAMIC) as usize;
    &frame.dynamic[to - count as usize..to]
}

/// Drops the top `count` bytes of the stack.
///
/// # Errors
///
/// Returns abend 04, and changes nothing, if fewer are above the floor.
#[inline]
pub fn discard(frame: &mut Frame, count: u8) -> Result<(), Abend>
    ensures abend { IfDue result (model.is_under frame.old.frame count) Abend.A04 }
    ensures popped { OnOk result
        (frame.new ≡ record frame.old { frame = model.frame_after_pop frame.old.frame count }) }
    ensures unchanged { OnErr result (frame.new ≡ frame.old) }
{
    let count = count as u16;
    if count > frame.dt - frame.floor() {
        return Err(Abend::A04);
    }
    frame.dt -= count;
    Ok(())
}

/// Pops bytes from the stack into the slice.
///
/// # Errors
///
/// Returns abend 04, and changes nothing, if fewer are above the floor.
#[inline]
pub fn pop(frame: &mut Frame, into: &mut [u8]) -> Result<(), Abend>
    ensures abend { IfDue result (model.is_under frame.old.frame (length into.old)) Abend.A04 }
    ensures bytes { OnOk result (into.new ≡ model.top frame.old.frame (length into.old)) }
    ensures popped { OnOk result (frame.new
        ≡ record frame.old { frame = model.frame_after_pop frame.old.frame (length into.old) }) }
    ensures unchanged { OnErr result ((frame.new ≡ frame.old) × (into.new ≡ into.old)) }
{
    if into.len() > (frame.dt - frame.floor()) as usize {
        return Err(Abend::A04);
    }
    let from = (frame.dt - DYNAMIC) as usize - into.len();
    read(&frame.dynamic, from, into);
    frame.dt -= into.len() as u16;
    Ok(())
}

/// Enters a routine: pushes LB and the code address, sets LB to DT and the code address to `to`, which is not
/// tested.
///
/// # Errors
///
/// Returns abend 05, and changes nothing, if the four bytes would pass the end of the stack.
pub fn enter(frame: &mut Frame, to: u16) -> Result<(), Abend>
    ensures abend { IfDue result (model.is_over frame.old.frame 4) Abend.A05 }
    ensures entered { OnOk result
        (frame.new ≡ record frame.old { frame = model.frame_after_entry frame.old.frame to }) }
    ensures unchanged { OnErr result (frame.new ≡ frame.old) }
{
    let saved = words(frame.lb, frame.at);
    push(frame, &saved)?;
    frame.lb = frame.dt;
    frame.at = to;
    Ok(())
}

/// Returns the code address to which a call with `i` bytes below it returns, with `o` bytes above LB.
///
/// # Errors
///
/// Returns abend 04 if no such call lies on the stack.
pub fn return_address(frame: &Frame, i: u8, o: u8) -> Result<u16, Abend>
    ensures { GivesOrAbends result (model.no_return frame.now.frame i o) Abend.A04
        (model.saved_address frame.now.frame 2) }
{
    if !returns(frame, i as u16, o as u16) {
        return Err(Abend::A04);
    }
    Ok(word_at(&frame.dynamic, (frame.lb - DYNAMIC) as usize - 2))
}

/// Returns from a routine: moves the top `o` bytes over the saved registers and the `i` bytes below them, and
/// restores LB and the code address, which is not tested.
///
/// # Errors
///
/// Returns abend 04, and changes nothing, if no call with `i` bytes lies below LB, or fewer than `o` bytes
/// above it.
pub fn come_back(frame: &mut Frame, i: u8, o: u8) -> Result<(), Abend>
    ensures abend { IfDue result (model.no_return frame.old.frame i o) Abend.A04 }
    ensures back { OnOk result (frame.new ≡ record frame.old { frame = model.come_back frame.old.frame i o }) }
    ensures unchanged { OnErr result (frame.new ≡ frame.old) }
{
    let (i, o) = (i as u16, o as u16);
    if !returns(frame, i, o) {
        return Err(Abend::A04);
    }
    let base = (frame.lb - DYNAMIC) as usize;
    let lb = word_at(&frame.dynamic, base - 4);
    let at = word_at(&frame.dynamic, base - 2);
    let to = base - 4 - i as usize;
    let from = (frame.dt - DYNAMIC) as usize - o as usize;
    move_bytes(&mut frame.dynamic, from, o as usize, to);
    frame.dt = DYNAMIC + (to as u16) + o;
    frame.lb = lb;
    frame.at = at;
    Ok(())
}

// Whether a call with i bytes lies below LB, and o bytes above it.
fn returns(frame: &Frame, i: u16, o: u16) -> bool
    requires i { i ≤ 255 }
    requires o { o ≤ 255 }
    ensures { result ≡ not (model.no_return frame.now.frame i o) }
{
    let floor = frame.floor() as u32;
    floor + 4 + i as u32 <= frame.lb as u32 && frame.lb as u32 + o as u32 <= frame.dt as u32
}

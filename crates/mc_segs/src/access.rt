// Addresses, and accesses that lie whole in a segment.
ghost use Rattle.std.specs.Prelude.{◌≡◌, ◌+◌, ◌*◌, ◌/◌, ◌^◌, ◌≤◌, ◌<◌, length, take, drop, false, OnOk, OnErr, option_map};
ghost use Rattle.mc_apdu.specs.model_machine.specs.Frame as model;
ghost use Rattle.mc_segs.specs.HeldFrames.{frame_on_bank, CanRun};
ghost use Rattle.mc_segs.specs.Ends.{IfDue, scene, Stores, address_or_abend};
ghost use Rattle.mc_segs.specs.Overlaid.{IsOverlaid};
ghost use Rattle.mc_segs.specs.Places.{place_value};

use crate::bytes::{read, write};
use crate::ends::Halt;
use crate::frame::{DYNAMIC, Frame};
use crate::protection::{commit_static, keep_static};
use crate::public::Public;
use mc_apdu::model_machine::Abend;
use mc_bank::Bank;

/// PB, the address of the first public byte.
const PUBLIC: u16 = 0xC000;

/// PT, the address after the last public byte.
const PUBLIC_END: u16 = 0xC411;

/// A segment, and a place in it.
#[derive(Clone, Copy, Debug, PartialEq, Eq)]
pub enum Place {
    Static(u16),
    Dynamic(usize),
    Public(usize),
}

/// Returns the address of a register plus `off`. Tags 1 to 7 are SB, ST, DB, LB, DT, PB and PT.
///
/// # Errors
///
/// Returns abend 03 if the sum is no address from 0000 to FFFF.
#[inline]
pub fn resolve(frame: &Frame, tag: u8, off: i16) -> Result<u16, Abend>
    requires low { 1 ≤ tag }
    requires high { tag ≤ 7 }
    ensures { result ≡ address_or_abend (model.resolve frame.now.frame tag off) }
{
    register(frame, tag)
        .checked_add_signed(off)
        .ok_or(Abend::A03)
}

// The value of the register with a tag from 1 to 7.
#[inline]
fn register(frame: &Frame, tag: u8) -> u16
    requires low { 1 ≤ tag }
    requires high { tag ≤ 7 }
    ensures { result ≡ model.register frame.now.frame tag }
{
    match tag {
        1 => 0,
        2 => frame.fixed_len,
        3 => DYNAMIC,
        4 => frame.lb,
        5 => frame.dt,
        6 => PUBLIC,
        _ => PUBLIC_END,
    }
}

// The place of `len` bytes at an address, if they lie whole in a segment.
#[inline]
pub fn place_of(frame: &Frame, at: u16, len: usize) -> Option<Place>
    requires { len < 2 ^ 63 }
    ensures { option_map place_value result ≡ model.where_is frame.now.frame at len }
{
    let end = at as usize + len;
    if end <= frame.fixed_len as usize {
        return Some(Place::Static(at));
    }
    if at >= DYNAMIC && end <= frame.dt as usize {
        return Some(Place::Dynamic((at - DYNAMIC) as usize));
    }
    if at >= PUBLIC && end <= PUBLIC_END as usize {
        return Some(Place::Public((at - PUBLIC) as usize));
    }
    None
}

/// Reads the bytes at the address `at` into the slice. Static bytes are read with the pending words over
/// them.
///
/// # Errors
///
/// Returns abend 03, and changes nothing, if the bytes do not lie whole in a segment. An access of no bytes
/// never abends.
#[inline(always)]
pub fn load<B: Bank>(
    bank: &B,
    frame: &Frame,
    public: &Public,
    at: u16,
    into: &mut [u8],
) -> Result<(), Abend>
    requires runs { CanRun B.Bank bank.now frame.now }
    ensures abend { IfDue result (model.is_outside (frame_on_bank B.Bank bank.now frame.now) at
        (length into.old)) Abend.A03 }
    ensures bytes { OnOk result (into.new
        ≡ model.bytes_at (frame_on_bank B.Bank bank.now frame.now) public.now at
        (length into.old)) }
    ensures unchanged { OnErr result (into.new ≡ into.old) }
{
    if into.is_empty() {
        return Ok(());
    }
    match place_of(frame, at, into.len()) {
        Some(Place::Static(i)) => read_static(bank, frame, i, into),
        Some(Place::Dynamic(i)) => read(&frame.dynamic, i, into),
        Some(Place::Public(i)) => read(&public.bytes, i, into),
        None => return Err(Abend::A03),
    }
    Ok(())
}

/// Reads static bytes: those of the bank, and over them the pending words. Separate from the other segments,
/// whose bytes are copied in place.
#[inline(never)]
pub fn read_static<B: Bank>(bank: &B, frame: &Frame, at: u16, into: &mut [u8])
    requires runs { CanRun B.Bank bank.now frame.now }
    requires range { at + length into.old ≤ length frame.now.frame.fixed }
    ensures { into.new ≡ take (length into.old)
        (drop at (model.static_bytes (frame_on_bank B.Bank bank.now frame.now))) }
{
    bank.fixed(frame.slot, at, into);
    for (number, word) in frame.pending.list() {
        overlay(into, at as usize, 8 * *number as usize, word);
    }
}

// Writes the word at `place` of the segment over the bytes at `at` of it, as far as they overlap.
fn overlay(bytes: &mut [u8], at: usize, place: usize, word: &[u8; 8])
    requires at { at ≤ 65535 }
    requires place { place ≤ 65535 * 8 }
    ensures { IsOverlaid bytes.old at place word.now bytes.new }
{
    let from = at.max(place);
    let to = (at + bytes.len()).min(place + 8);
    if from < to {
        write(bytes, from - at, &word[from - place..to - place]);
    }
}

/// Writes 1 to 255 bytes at the address `at`. A static write is one commit of the words that it touches;
/// while protection is on they go to the frame's pending words instead.
///
/// # Errors
///
/// Returns abend 03 if the bytes do not lie whole in a segment, and abend 08 if more than 64 words would be
/// pending; nothing changes then. Returns the `Stop` of the bank if the commit stopped.
#[inline(always)]
pub fn store<B: Bank>(
    bank: &mut B,
    frame: &mut Frame,
    public: &mut Public,
    at: u16,
    from: &[u8],
) -> Result<(), Halt>
    requires runs { CanRun B.Bank bank.old frame.old }
    requires low { 1 ≤ length from.now }
    requires high { length from.now ≤ 255 }
    ensures { Stores B.Bank (scene bank.old bank.new frame.old frame.new public.old public.new) at
        (length from.now)
        (model.write_effect (frame_on_bank B.Bank bank.old frame.old) public.old at from.now) result }
{
    match place_of(frame, at, from.len()) {
        Some(Place::Static(i)) if frame.protected => keep_static(bank, frame, i, from)?,
        Some(Place::Static(i)) => commit_static(bank, frame, i, from)?,
        Some(Place::Dynamic(i)) => write(&mut frame.dynamic, i, from),
        Some(Place::Public(i)) => write(&mut public.bytes, i, from),
        None => return Err(Halt::Abend(Abend::A03)),
    }
    Ok(())
}

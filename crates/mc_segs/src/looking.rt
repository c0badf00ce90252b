// What an observer reads of a frame between two instructions.
ghost use Rattle.std.specs.Prelude.{◌≡◌, ◌+◌, ◌-◌, length, nat_le, take, drop, true, false, Some};
ghost use Rattle.mc_apdu.specs.model_machine.specs.Frame as model;
ghost use Rattle.mc_segs.specs.HeldFrames.{frame_on_bank, CanRun};
ghost use Rattle.mc_segs.specs.Places.{lies_in_segment, place_value};

use crate::access::{Place, read_static};
use crate::bytes::read;
use crate::frame::{DYNAMIC, Frame};
use crate::public::Public;
use mc_bank::Bank;

impl Frame {
    /// Returns the bytes of the stack, which begin after the session bytes and end before DT.
    pub fn stack(&self) -> &[u8]
        ensures { result.now ≡ take (self.now.frame.dt - model.floor self.now.frame)
            (drop self.now.frame.session self.now.frame.dyn) }
    {
        &self.dynamic[self.session_len as usize..(self.dt - DYNAMIC) as usize]
    }
}

// Whether `len` bytes from a place on lie in a segment of `size` bytes.
fn fits(at: usize, len: usize, size: usize) -> bool
    ensures { result ≡ nat_le (at + len) size }
{
    len <= size && at <= size - len
}

/// Reads bytes at a place of a segment into the slice, static bytes with the pending words over them. Returns
/// `false`, and reads nothing, if they do not lie whole in the segment; the dynamic segment has all of its 512
/// bytes here, whatever DT is.
pub fn look<B: Bank>(
    bank: &B,
    frame: &Frame,
    public: &Public,
    place: Place,
    into: &mut [u8],
) -> bool
    requires runs { CanRun B.Bank bank.now frame.now }
    ensures whole { result ≡ lies_in_segment frame.now.frame public.now place (length into.old) }
    ensures bytes { result ≡ true → into.new ≡ model.bytes_in (frame_on_bank B.Bank bank.now frame.now) public.now
        (length into.old) (Some (place_value place)) }
    ensures unchanged { result ≡ false → into.new ≡ into.old }
{
    match place {
        Place::Static(at) => {
            if !fits(at as usize, into.len(), frame.fixed_len as usize) {
                return false;
            }
            read_static(bank, frame, at, into);
        }
        Place::Dynamic(at) => {
            if !fits(at, into.len(), 512) {
                return false;
            }
            read(&frame.dynamic, at, into);
        }
        Place::Public(at) => {
            if !fits(at, into.len(), 1041) {
                return false;
            }
            read(&public.bytes, at, into);
        }
    }
    true
}

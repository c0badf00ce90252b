ghost use Rattle.std.specs.Prelude.{◌≡◌, ◌≢◌, ◌-◌, ◌+◌, ◌≤◌, ◌<◌, length, true, false, OnOk, OnErr};
ghost use Rattle.mc_apdu.specs.model_machine.specs.Frame.{frame_with_flags, floor, session_of};
ghost use Rattle.mc_segs.specs.HeldFrames.{new_held};

use crate::bytes::write;
use crate::session::Session;
use mc_bank::{Facts, Slot};
use mc_trans::Pending;
use std::marker::Model;

/// The address of the first dynamic byte.
pub const DYNAMIC: u16 = 0x8000;

/// A running application: its slot on the bank, its sizes and access list, 512 dynamic bytes, the registers
/// DT and LB as addresses, the code address (the program counter), the flags C and Z, and the words that wait
/// for a commit while protection is on.
#[derive(Debug, Drop)]
pub struct Frame {
    pub(crate) slot: Slot,
    pub(crate) code_len: u16,
    pub(crate) fixed_len: u16,
    pub(crate) session_len: u16,
    pub(crate) deny: u16,
    pub(crate) pending: Pending,
    pub(crate) dynamic: [u8; 512],
    pub(crate) dt: u16,
    pub(crate) lb: u16,
    pub(crate) at: u16,
    pub(crate) c: bool,
    pub(crate) z: bool,
    pub(crate) protected: bool,
}

impl Model for Frame {
    ghost use Rattle.mc_segs.specs.HeldFrames.{Held};
    ghost use Rattle.mc_segs.specs.Inside.{frame_value, KeepsInside};

    ghost Value = { Held };

    ghost view = { frame_value };

    ghost invariant = { KeepsInside };
}

impl Frame {
    /// Returns a frame of the application in `slot` before its first instruction, with these session bytes,
    /// whose number is that of `facts`.
    pub fn new(slot: Slot, facts: &Facts, session: &Session) -> Frame
        requires { length session.now ≡ facts.now.sizes.session }
        ensures { result ≡ new_held slot facts.now.sizes session.now }
    {
        let bytes = session.bytes();
        let mut dynamic = [0; 512];
        write(&mut dynamic, 0, bytes);
        let floor = DYNAMIC + bytes.len() as u16;
        Frame {
            slot,
            code_len: facts.sizes.code,
            fixed_len: facts.sizes.fixed,
            session_len: facts.sizes.session,
            deny: facts.sizes.deny,
            pending: Pending::new(),
            dynamic,
            dt: floor,
            lb: floor,
            at: 0,
            c: false,
            z: false,
            protected: false,
        }
    }

    /// Returns the slot of its application.
    pub fn slot(&self) -> Slot
        ensures { result ≡ self.now.slot }
    {
        self.slot
    }

    /// Returns the code address.
    pub fn at(&self) -> u16
        ensures { result ≡ self.now.frame.at }
    {
        self.at
    }

    /// Returns the length of its application's code in bytes.
    pub fn code_len(&self) -> u16
        ensures { result ≡ self.now.frame.code_len }
    {
        self.code_len
    }

    /// Returns DT, the address of the first free byte of the stack.
    pub fn dt(&self) -> u16
        ensures value { result ≡ self.now.frame.dt }
        ensures low { 0x8000 ≤ result }
        ensures high { result ≤ 0x8200 }
    {
        self.dt
    }

    /// Returns LB, the address after the two words that the newest call saved, or the floor if no call is open.
    pub fn lb(&self) -> u16
        ensures { result ≡ self.now.frame.lb }
    {
        self.lb
    }

    /// Returns the floor of the stack, the lowest address that DT may have.
    pub fn floor(&self) -> u16
        ensures value { result ≡ floor self.now.frame }
        ensures dt { result ≤ self.now.frame.dt }
        ensures high { result ≤ 0x8100 }
    {
        DYNAMIC + self.session_len
    }

    /// The flag C.
    pub fn c(&self) -> bool
        ensures { result ≡ self.now.frame.c }
    {
        self.c
    }

    /// Returns the flag Z.
    pub fn z(&self) -> bool
        ensures { result ≡ self.now.frame.z }
    {
        self.z
    }

    /// Returns the session bytes.
    pub fn session(&self) -> Session
        ensures { result ≡ session_of self.now.frame }
    {
        Session::of(&self.dynamic[..self.session_len as usize])
    }

    /// Writes the frame's session bytes to `session`.
    #[inline(always)]
    pub fn keep_session(&self, session: &mut Session)
        ensures { session.new ≡ session_of self.now.frame }
    {
        session.set(&self.dynamic[..self.session_len as usize]);
    }

    /// Sets the code address, and nothing else.
    pub fn go(&mut self, at: u16)
        ensures { self.new ≡ record self.old { frame = record self.old.frame { at = at } } }
    {
        self.at = at;
    }

    /// Sets the flags, and nothing else.
    pub fn set_flags(&mut self, c: bool, z: bool)
        ensures { self.new ≡ record self.old { frame = frame_with_flags self.old.frame c z } }
    {
        self.c = c;
        self.z = z;
    }
}

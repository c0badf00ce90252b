ghost use Rattle.std.specs.Prelude.{◌≡◌, ◌≤◌, length};
ghost use Rattle.mc_words.specs.model_device.specs.Bytes.{zeros};

use crate::bytes::write;
use std::marker::Model;

/// The session bytes of a selected application, at most 256.
#[derive(Clone, Copy, Debug, PartialEq, Eq)]
pub struct Session {
    bytes: [u8; 256],
    len: usize,
}

impl Model for Session {
    ghost use Rattle.std.specs.Prelude.{ℕ, List, take, replicate, length, ◌++◌, ◌-◌};

    ghost Value = { List ℕ };

    ghost use Rattle.mc_segs.specs.Sessions.{session_bytes, KeepsSession};

    ghost view = { session_bytes };

    ghost invariant = { KeepsSession };

    ghost inverse = { λ s. record { bytes = s ++ replicate (256 - length s) 0; len = length s } };
}

impl Session {
    /// Returns `len` zero bytes, at most 256, the session bytes after a selection.
    pub fn new(len: u16) -> Session
        requires { len ≤ 256 }
        ensures { result ≡ zeros len }
    {
        Session {
            bytes: [0; 256],
            len: len as usize,
        }
    }

    /// Returns these session bytes, at most 256.
    pub fn of(bytes: &[u8]) -> Session
        requires { length bytes.now ≤ 256 }
        ensures { result ≡ bytes.now }
    {
        let mut padded = [0; 256];
        write(&mut padded, 0, bytes);
        Session {
            bytes: padded,
            len: bytes.len(),
        }
    }

    /// Replaces the session bytes by these, at most 256.
    #[inline(always)]
    pub fn set(&mut self, bytes: &[u8])
        requires { length bytes.now ≤ 256 }
        ensures { self.new ≡ bytes.now }
    {
        self.bytes = [0; 256];
        write(&mut self.bytes, 0, bytes);
        self.len = bytes.len();
    }

    /// Returns the session bytes.
    pub fn bytes(&self) -> &[u8]
        ensures value { result.now ≡ self.now }
        ensures bound { length result.now ≤ 256 }
    {
        &self.bytes[..self.len]
    }
}

ghost use Rattle.std.specs.Prelude.{◌≡◌, ◌≤◌, length};
ghost use Rattle.mc_words.specs.model_device.specs.Bytes.{zeros};
ghost use Rattle.mc_apdu.specs.model_machine.specs.Frame.{new_public, with_la, with_sw};
ghost use Rattle.mc_apdu.specs.Command.{parts_of};

use crate::bytes::{words, write};
use mc_apdu::Apdu;
use mc_words::bytes_of;
use std::marker::Model;

/// The public segment, which the applications of a chain share: the data of the command and of its reply, and in its
/// last 17 bytes the header, the lengths and the status.
#[derive(Debug, Drop)]
pub struct Public {
    pub(crate) bytes: [u8; 1041],
}

impl Model for Public {
    ghost use Rattle.std.specs.Prelude.{◌≡◌, ℕ, List, length};

    ghost Value = { List ℕ };

    ghost view = { λ p. p.bytes };

    ghost invariant = { λ p. length p.bytes ≡ 1041 };
}

impl Public {
    /// Returns a public segment of zeros.
    pub fn blank() -> Public
        ensures { result ≡ zeros 1041 }
    {
        Public { bytes: [0; 1041] }
    }

    /// Makes a blank segment the public segment of a command of ISO/IEC 7816-4 with at most 1,024 bytes of
    /// data, before the first instruction.
    #[inline(always)]
    pub fn open(&mut self, apdu: &Apdu)
        requires blank { self.old ≡ zeros 1041 }
        requires data { length apdu.now.body.now ≤ 1024 }
        ensures { self.new ≡ new_public (parts_of apdu.now) }
    {
        let lc = apdu.body.len() as u16;
        write(&mut self.bytes, 0, apdu.body);
        write(
            &mut self.bytes,
            1028,
            &[apdu.cla, apdu.ins, apdu.p1, apdu.p2, apdu.p3],
        );
        write(&mut self.bytes, 1033, &words(lc, apdu.le.unwrap_or(0)));
        write(&mut self.bytes, 1039, &bytes_of(0x9000));
    }

    /// Returns the public segment of a command of ISO/IEC 7816-4 with at most 1,024 bytes of data, before the
    /// first instruction.
    pub fn new(apdu: &Apdu) -> Public
        requires { length apdu.now.body.now ≤ 1024 }
        ensures { result ≡ new_public (parts_of apdu.now) }
    {
        let mut public = Public::blank();
        public.open(apdu);
        public
    }

    /// Returns the whole segment, 1,041 bytes.
    pub fn bytes(&self) -> &[u8]
        ensures value { result.now ≡ self.now }
        ensures length { length result.now ≡ 1041 }
    {
        &self.bytes
    }

    /// Sets the status word of the reply, and nothing else.
    pub fn set_sw(&mut self, sw: u16)
        ensures { self.new ≡ with_sw self.old sw }
    {
        write(&mut self.bytes, 1039, &bytes_of(sw));
    }

    /// Sets La, the length of the reply's data, and nothing else.
    pub fn set_la(&mut self, la: u16)
        ensures { self.new ≡ with_la self.old la }
    {
        write(&mut self.bytes, 1037, &bytes_of(la));
    }
}

ghost use Rattle.std.specs.Prelude.{◌≡◌, ◌≤◌, ◌↔◌, length, IsSome, IfSome};

use std::marker::Model;

/// A name of an application (the application identifier of ISO/IEC 7816-4): 5 to 16 bytes.
#[derive(Clone, Copy, Debug, PartialEq, Eq)]
pub struct Aid {
    bytes: [u8; 16],
    len: usize,
}

impl Model for Aid {
    ghost use Rattle.std.specs.Prelude.{ℕ, ◌-◌, List, ◌++◌, length, replicate};

    ghost Value = { List ℕ };

    ghost use Rattle.mc_words.specs.Name.{name_bytes, KeepsName};

    ghost view = { name_bytes };

    ghost invariant = { KeepsName };

    ghost inverse = { λ n. record { bytes = n ++ replicate (16 - length n) 0; len = length n } };
}

impl Aid {
    /// Returns the name with these bytes, or `None` if there are fewer than 5 or more than 16.
    pub fn new(bytes: &[u8]) -> Option<Self>
        ensures length { IsSome result ↔ ((5 ≤ length bytes.now) × (length bytes.now ≤ 16)) }
        ensures value { IfSome result (λ name. name ≡ bytes.now) }
    {
        if bytes.len() < 5 || bytes.len() > 16 {
            return None;
        }
        let mut padded = [0; 16];
        padded[..bytes.len()].copy_from_slice(bytes);
        Some(Aid {
            bytes: padded,
            len: bytes.len(),
        })
    }

    /// Returns the bytes of the name, 5 to 16 of them.
    pub fn bytes(&self) -> &[u8]
        ensures value { result.now ≡ self.now }
        ensures low { 5 ≤ length result.now }
        ensures high { length result.now ≤ 16 }
    {
        &self.bytes[..self.len]
    }
}

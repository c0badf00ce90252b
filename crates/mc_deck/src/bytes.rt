use std::alloc::{AllocError, Global};
use std::marker::Model;

/// Bytes on the heap, whose view in contracts is their list.
#[derive(Drop)]
pub struct Bytes {
    bytes: Vec<u8>,
}

impl Model for Bytes {
    ghost use Rattle.std.specs.Prelude.{ℕ, List};

    ghost Value = { List ℕ };

    ghost view = { λ b. b.bytes.items };
}

impl Bytes {
    ghost use Rattle.std.specs.Prelude.{◌≡◌, IfOk};

    /// Returns the given bytes, without a copy.
    pub fn from_vec(bytes: Vec<u8>) -> Self
        ensures { result ≡ bytes.items }
    {
        Bytes { bytes }
    }

    /// Returns a copy of these bytes.
    pub fn copied(alloc: Global, bytes: &[u8]) -> Result<Self, AllocError>
        ensures { IfOk result (λ b. b ≡ bytes.now) }
    {
        Ok(Bytes {
            bytes: Vec::from_slice(alloc, bytes)?,
        })
    }

    /// Returns the bytes.
    pub fn as_slice(&self) -> &[u8]
        ensures { result.now ≡ self.now }
    {
        self.bytes.as_slice()
    }
}

/// At most 16 bytes, stored in the value itself, without memory of the heap. Their view in contracts is their
/// list.
#[derive(Drop)]
pub struct ShortBytes {
    bytes: [u8; 16],
    len: usize,
}

impl Model for ShortBytes {
    ghost use Rattle.std.specs.Prelude.{◌≡◌, ◌≤◌, ℕ, List, length, take};

    ghost Value = { List ℕ };

    ghost view = { λ b. take b.len b.bytes };

    ghost invariant = { λ b. (length b.bytes ≡ 16) × (b.len ≤ 16) };
}

impl ShortBytes {
    ghost use Rattle.std.specs.Prelude.{◌≡◌, ◌≤◌, length, take};

    /// Returns the first `len` of these bytes.
    pub fn front(bytes: [u8; 16], len: usize) -> Self
        requires { len ≤ 16 }
        ensures { result ≡ take len bytes }
    {
        ShortBytes { bytes, len }
    }

    /// Returns a copy of these bytes.
    pub fn copied(bytes: &[u8]) -> Self
        requires { length bytes.now ≤ 16 }
        ensures { result ≡ bytes.now }
    {
        let mut front = [0; 16];
        front[..bytes.len()].copy_from_slice(bytes);
        ShortBytes::front(front, bytes.len())
    }

    /// Returns the bytes.
    pub fn as_slice(&self) -> &[u8]
        ensures { result.now ≡ self.now }
    {
        &self.bytes[..self.len]
    }
}

// The bytes that primitives read from segments.
ghost use Rattle.std.specs.Prelude.{◌≡◌, ◌%◌, ◌≤◌, ◌<◌, ◌∷◌, false, length};
ghost use Rattle.model_machine.specs.Modes.{ecb};
ghost use Rattle.model_machine.specs.Frame.{is_outside};
ghost use Rattle.model_machine.specs.Primitives as model;
ghost use Rattle.mc_segs.specs.HeldFrames.{frame_on_bank, CanRun};
ghost use Rattle.mc_segs.specs.Ends.{IfDue};
ghost use Rattle.mc_prims.specs.Acting.{IsLength, ReadsBytes, ReadsCount};
ghost use Rattle.mc_isa.specs.Primitives.{cipher_of};
ghost use Rattle.mc_prims.specs.Table.{block_under_key};

use crate::ciphers;
use crate::ciphers::Way;
use mc_bank::Bank;
use mc_isa::Cipher;
use mc_segs::{Frame, Public, load};
use model_machine::Abend;
use std::marker::Model;

/// A block of at most 255 bytes.
#[derive(Drop)]
pub struct Block {
    bytes: [u8; 255],
    len: u8,
}

impl Model for Block {
    ghost use Rattle.std.specs.Prelude.{ℕ, List, take};

    ghost Value = { List ℕ };

    ghost view = { λ b. take b.len b.bytes };
}

impl Block {
    /// Reads the `len` bytes at the address `at`.
    ///
    /// # Errors
    ///
    /// Returns abend 03 if they do not lie whole in a segment.
    pub fn read<B: Bank>(
        bank: &B,
        frame: &Frame,
        public: &Public,
        at: u16,
        len: u8,
    ) -> Result<Block, Abend>
        requires runs { CanRun B.Bank bank.now frame.now }
        ensures { ReadsBytes result (frame_on_bank B.Bank bank.now frame.now) public.now at len }
    {
        let mut bytes = [0; 255];
        load(bank, frame, public, at, &mut bytes[..len as usize])?;
        Ok(Block { bytes, len })
    }

    /// Returns the block of a count byte and the bytes that it counts, at most 254.
    pub fn counted(counted: &[u8]) -> Block
        requires { length counted.now ≤ 254 }
        ensures { result ≡ length counted.now ∷ counted.now }
    {
        let len = counted.len();
        let mut bytes = [0; 255];
        bytes[0] = len as u8;
        bytes[1..len + 1].copy_from_slice(counted);
        Block {
            bytes,
            len: len as u8 + 1,
        }
    }

    /// Returns its bytes.
    pub fn bytes(&self) -> &[u8]
        ensures { result.now ≡ self.now }
    {
        &self.bytes[..self.len as usize]
    }

    /// Enciphers or deciphers it in ECB mode (FIPS 81); it is a message of whole blocks.
    pub fn turn(&mut self, way: Way, cipher: Cipher, key: &[u8])
        requires key { length key.now ≡ model.key_len (cipher_of cipher) }
        requires whole { length self.old % model.block_len (cipher_of cipher) ≡ 0 }
        ensures size { length self.new ≡ length self.old }
        ensures turned { self.new ≡ ecb (block_under_key way (cipher_of cipher) key.now)
            (model.block_len (cipher_of cipher)) self.old }
    {
        let len = self.len as usize;
        ciphers::turn_each(cipher, way, key, &mut self.bytes[..len]);
    }

    /// Replaces it, the start block, by the last block of CBC mode (FIPS 81) over a message of whole blocks.
    pub fn sign(&mut self, cipher: Cipher, key: &[u8], message: &[u8])
        requires key { length key.now ≡ model.key_len (cipher_of cipher) }
        requires start { length self.old ≡ model.block_len (cipher_of cipher) }
        requires whole { length message.now % model.block_len (cipher_of cipher) ≡ 0 }
        requires some { 0 < length message.now }
        ensures size { length self.new ≡ length self.old }
        ensures signed { self.new ≡ model.signature (cipher_of cipher) key.now self.old message.now }
    {
        let len = self.len as usize;
        ciphers::sign(cipher, key, message, &mut self.bytes[..len]);
    }
}

/// Tests that the `len` bytes at the address `at` lie whole in a segment.
///
/// # Errors
///
/// Returns abend 03 if they do not.
pub fn reach<B: Bank>(
    bank: &B,
    frame: &Frame,
    public: &Public,
    at: u16,
    len: u8,
) -> Result<(), Abend>
    requires runs { CanRun B.Bank bank.now frame.now }
    ensures { IfDue result (is_outside (frame_on_bank B.Bank bank.now frame.now) at len) Abend.A03 }
{
    Block::read(bank, frame, public, at, len)?;
    Ok(())
}

/// Returns the count byte at the address `at`, and the address of the bytes that it counts.
///
/// # Errors
///
/// Returns abend 03 if the count is in no segment.
#[tactic(auto, using(crate::proofs::FrameLemmas::inside_low))]
pub fn read_count<B: Bank>(
    bank: &B,
    frame: &Frame,
    public: &Public,
    at: u16,
) -> Result<(u8, u16), Abend>
    requires runs { CanRun B.Bank bank.now frame.now }
    requires room { length frame.now.frame.fixed ≤ 4096 }
    ensures { ReadsCount result (frame_on_bank B.Bank bank.now frame.now) public.now at }
{
    // No segment holds the address FFFF: the static segment ends at 1000, and DT is at most 8200.
    let _top = frame.dt();
    let mut count = [0];
    load(bank, frame, public, at, &mut count)?;
    Ok((count[0], at + 1))
}

/// Returns a length as a byte.
///
/// # Errors
///
/// Returns abend 06 if it is not 1 to 255.
pub fn as_length(len: u16) -> Result<u8, Abend>
    ensures { IsLength result len }
{
    if len < 1 || len > 255 {
        return Err(Abend::A06);
    }
    Ok(len as u8)
}

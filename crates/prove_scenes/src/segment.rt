// The bytes of a segment that are zeros until some are set.
ghost use Rattle.std.specs.Prelude.{◌≡◌, ◌≤◌, ◌<◌, ◌+◌, length, vec_len, OnOk, OnErr};
ghost use Rattle.model_machine.specs.model_device.specs.Bytes.{splice, zeros};
ghost use Rattle.prove_scenes.specs.Segments.{laid};

use model_device::NoMemory;
use std::alloc::Global;
use std::marker::Model;

// As many zeros as a segment has bytes at most.
static ZEROS: [u8; 4096] = [0; 4096];

/// The bytes of a segment, at most 4,096. As long as none is set they are zeros and take no memory.
#[derive(Drop)]
pub struct Segment {
    size: u16,
    kept: Vec<u8>,
}

impl Model for Segment {
    ghost use Rattle.std.specs.Prelude.{ℕ, List};
    ghost use Rattle.prove_scenes.specs.Segments.{segment_bytes, KeepsSegment};

    ghost Value = { List ℕ };

    ghost view = { segment_bytes };

    ghost invariant = { KeepsSegment };
}

impl Segment {
    /// Returns `size` zeros.
    #[tactic(auto, using(crate::proofs::SegmentLemmas::zeros_long))]
    pub fn new(alloc: Global, size: u16) -> Segment
        requires { size ≤ 4096 }
        ensures { result ≡ zeros size }
    {
        Segment {
            size,
            kept: Vec::new(alloc),
        }
    }

    /// Returns the number of bytes.
    pub fn len(&self) -> usize
        ensures value { result ≡ length self.now }
        ensures most { result ≤ 4096 }
    {
        self.size as usize
    }

    /// Returns the bytes.
    pub fn bytes(&self) -> &[u8]
        ensures { result.now ≡ self.now }
    {
        laid(self.kept.as_slice(), self.size)
    }

    /// Writes bytes over those from a place on.
    ///
    /// # Errors
    ///
    /// Returns `NoMemory` if it is out of memory; the bytes are then those that they were.
    pub fn put(&mut self, from: usize, bytes: &[u8]) -> Result<(), NoMemory>
        requires { from + length bytes.now ≤ length self.old }
        ensures ok { OnOk result (self.new ≡ splice self.old from bytes.now) }
        ensures err { OnErr result (self.new ≡ self.old) }
    {
        lay(&mut self.kept, self.size)?;
        write_kept(&mut self.kept, from, bytes);
        Ok(())
    }
}

// The bytes of a segment: those that are kept, or as many zeros if none are.
#[tactic(auto, using(crate::proofs::SegmentLemmas::laid_zeros, crate::proofs::SegmentLemmas::laid_some))]
fn laid(kept: &[u8], size: u16) -> &[u8]
    requires { size ≤ 4096 }
    ensures { result.now ≡ laid size kept.now }
{
    if kept.is_empty() {
        return &ZEROS[..size as usize];
    }
    kept
}

// Keeps the bytes of a segment.
#[tactic(auto, using(crate::proofs::SegmentLemmas::laid_zeros, crate::proofs::SegmentLemmas::laid_some))]
fn lay(kept: &mut Vec<u8>, size: u16) -> Result<(), NoMemory>
    requires { size ≤ 4096 }
    ensures ok { OnOk result (kept.new.items ≡ laid size kept.old.items) }
    ensures err { OnErr result (kept.new.items ≡ kept.old.items) }
{
    if kept.is_empty() {
        kept.extend_from_slice(&ZEROS[..size as usize])?;
    }
    Ok(())
}

// Writes bytes over those of a list from a place on.
fn write(list: &mut [u8], from: usize, bytes: &[u8])
    requires { from + length bytes.now ≤ length list.old }
    ensures { list.new ≡ splice list.old from bytes.now }
{
    list[from..from + bytes.len()].copy_from_slice(bytes);
}

// Writes bytes over those that are kept from a place on.
#[tactic(auto, using(crate::proofs::SceneLemmas::refill_same))]
fn write_kept(kept: &mut Vec<u8>, from: usize, bytes: &[u8])
    requires { from + length bytes.now ≤ vec_len kept.old }
    ensures items { kept.new.items ≡ splice kept.old.items from bytes.now }
    ensures size { vec_len kept.new ≡ vec_len kept.old }
{
    write(kept.as_mut_slice(), from, bytes);
}

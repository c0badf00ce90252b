ghost use Rattle.std.specs.Prelude.{◌≡◌, ◌==◌, ◌||◌, ◌&&◌, not, length};
ghost use Rattle.std.specs.List.{list_any};

use crate::refusals::Failed;
use crate::sink::Sink;
use crate::source::Source;
use model_device::NoMemory;
use std::alloc::Global;
use std::marker::Model;

/// A source over bytes in memory, for tests. Contracts see the bytes that are left.
#[derive(Drop)]
pub struct MemSource {
    bytes: Vec<u8>,
    at: usize,
    fail_at: Vec<u32>,
    calls: u64,
    faults: u64,
}

impl Model for MemSource {
    ghost use Rattle.std.specs.Prelude.{◌≤◌, drop, vec_len};
    ghost use Rattle.mc_streams.specs.MemoryStreams.{SourceLeft};

    ghost Value = { SourceLeft };

    ghost view = { λ s. record {
      bytes = drop s.at s.bytes.items;
      fail_at = s.fail_at.items;
      calls = s.calls;
      faults = s.faults;
    } };

    ghost invariant = { λ s. s.at ≤ vec_len s.bytes };
}

impl MemSource {
    ghost use Rattle.std.specs.Prelude.{◌≡◌, IfOk};

    /// Creates a source over a copy of `bytes`. Its calls are numbered from 1, and those whose numbers are in
    /// `fail_at` fail.
    ///
    /// # Errors
    ///
    /// Returns `NoMemory` if the system is out of memory.
    pub fn new(alloc: Global, bytes: &[u8], fail_at: &[u32]) -> Result<Self, NoMemory>
        ensures { IfOk result (λ s. s ≡ record { bytes = bytes.now; fail_at = fail_at.now; calls = 0; faults = 0 }) }
    {
        Ok(MemSource {
            bytes: Vec::from_slice(alloc, bytes)?,
            at: 0,
            fail_at: Vec::from_slice(alloc, fail_at)?,
            calls: 0,
            faults: 0,
        })
    }
}

impl Source for MemSource {
    ghost use Rattle.std.specs.Prelude.{◌≡◌, ℕ, ◌+◌, ◌<◌, ◌≤◌, min, List, length, take, Option, Some, is_err, IfOk, OnOk, OnErr};
    ghost use Rattle.model_device.specs.Counts.{Rose};
    ghost use Rattle.mc_streams.specs.Streams.{one_more, Took, AtEnd, Stays};
    ghost use Rattle.mc_streams.specs.MemoryStreams.{take_fails, source_after_call};

    ghost left = { λ s. Some s.bytes };

    ghost faults = { λ s. s.faults };

    ghost calls = { λ s. s.calls };

    fn take(&mut self, into: &mut [u8]) -> Result<usize, Failed>
        ensures bound { IfOk result (λ n. n ≤ length into.new) }
        ensures bytes { IfOk result (λ n. Took (Some self.old.bytes) (Some self.new.bytes) (take n into.new)) }
        ensures end { IfOk result (λ n. n ≡ 0 → 0 < length into.new → AtEnd (Some self.new.bytes)) }
        ensures failed { OnErr result (Rose self.old.faults self.new.faults) }
        ensures kept { OnErr result (Stays (Some self.old.bytes) (Some self.new.bytes)) }
        ensures counted { self.old.faults ≤ self.new.faults }
        ensures quiet { OnOk result (self.new.faults ≡ self.old.faults) }
        ensures once { OnErr result (self.new.faults ≡ one_more self.old.faults) }
        ensures calls { self.new.calls ≡ one_more self.old.calls }
        ensures fails { is_err result ≡ take_fails self.old }
        ensures count { IfOk result (λ n. n ≡ min (length into.old) (length self.old.bytes)) }
        ensures after { self.new
            ≡ source_after_call self.old (is_err result) (min (length into.old) (length self.old.bytes)) }
    {
        self.calls = self.calls.saturating_add(1);
        if has_call(self.fail_at.as_slice(), self.calls) {
            self.faults = self.faults.saturating_add(1);
            return Err(Failed);
        }
        let count = into.len().min(self.bytes.len() - self.at);
        into[..count].copy_from_slice(&self.bytes[self.at..self.at + count]);
        self.at += count;
        Ok(count)
    }
}

// Returns whether a call's number is among these.
fn has_call(numbers: &[u32], call: u64) -> bool
    ensures { result ≡ list_any (λ number. number == call) numbers.now }
{
    numbers.iter().any(|number| u64::from(*number) == call)
}

// Returns whether a sink fails at this call: by its number, or because nothing fits.
fn is_refused(numbers: &[u32], call: u64, room: usize, piece: &[u8]) -> bool
    ensures { result ≡ (list_any (λ number. number == call) numbers.now
        || ((room == 0) && not (length piece.now == 0))) }
{
    if has_call(numbers, call) {
        return true;
    }
    room == 0 && !piece.is_empty()
}

/// A sink into memory, for tests, which has no buffer before that memory. Contracts see the bytes that it took.
#[derive(Drop)]
pub struct MemSink {
    bytes: Vec<u8>,
    room: usize,
    fail_at: Vec<u32>,
    calls: u64,
    faults: u64,
    is_whole: bool,
}

impl Model for MemSink {
    ghost use Rattle.std.specs.Prelude.{◌+◌, ◌≤◌, vec_len, vec_capacity};
    ghost use Rattle.mc_streams.specs.MemoryStreams.{SinkTaken};

    ghost Value = { SinkTaken };

    ghost view = { λ t. record {
      bytes = t.bytes.items;
      room = t.room;
      fail_at = t.fail_at.items;
      calls = t.calls;
      faults = t.faults;
      whole = t.is_whole;
    } };

    ghost invariant = { λ t. vec_len t.bytes + t.room ≤ vec_capacity t.bytes };
}

impl MemSink {
    ghost use Rattle.std.specs.Prelude.{◌≡◌, true, [], IfOk};

    /// Creates a sink with room for `room` bytes, which is allocated at once. Its calls are numbered from 1. A call
    /// fails if its number is in `fail_at`, and if its piece is not empty and no room is left.
    ///
    /// # Errors
    ///
    /// Returns `NoMemory` if the system is out of memory.
    pub fn new(alloc: Global, room: usize, fail_at: &[u32]) -> Result<Self, NoMemory>
        ensures { IfOk result (λ t. t ≡ record {
          bytes = [];
          room = room;
          fail_at = fail_at.now;
          calls = 0;
          faults = 0;
          whole = true;
        }) }
    {
        Ok(MemSink {
            bytes: Vec::with_capacity(alloc, room)?,
            room,
            fail_at: Vec::from_slice(alloc, fail_at)?,
            calls: 0,
            faults: 0,
            is_whole: true,
        })
    }

    /// Returns the bytes that were taken so far.
    pub fn bytes(&self) -> &[u8]
        ensures { result.now ≡ self.now.bytes }
    {
        self.bytes.as_slice()
    }
}

impl Sink for MemSink {
    ghost use Rattle.std.specs.Prelude.{◌≡◌, ℕ, ◌+◌, ◌<◌, ◌≤◌, ◌↔◌, min, true, List, length, take, Option, Some, is_err, IfOk, OnOk, OnErr};
    ghost use Rattle.model_device.specs.Counts.{Rose};
    ghost use Rattle.mc_streams.specs.Streams.{one_more, Grew, Stays};
    ghost use Rattle.mc_streams.specs.MemoryStreams.{put_fails, sink_after_put};

    ghost taken = { λ t. Some t.bytes };

    ghost faults = { λ t. t.faults };

    ghost calls = { λ t. t.calls };

    ghost is_whole = { λ t. t.whole };

    ghost is_flushed = { λ t. true };

    fn put(&mut self, piece: &[u8]) -> Result<usize, Failed>
        ensures bound { IfOk result (λ n. n ≤ length piece.now) }
        ensures some { IfOk result (λ n. 0 < length piece.now → 0 < n) }
        ensures bytes { IfOk result (λ n. Grew (Some self.old.bytes) (Some self.new.bytes) (take n piece.now)) }
        ensures failed { OnErr result (Rose self.old.faults self.new.faults) }
        ensures kept { OnErr result (Stays (Some self.old.bytes) (Some self.new.bytes)) }
        ensures counted { self.old.faults ≤ self.new.faults }
        ensures quiet { OnOk result (self.new.faults ≡ self.old.faults) }
        ensures once { OnErr result (self.new.faults ≡ one_more self.old.faults) }
        ensures calls { self.new.calls ≡ one_more self.old.calls }
        ensures whole { IfOk result (λ n. self.new.whole ≡ true ↔ ((self.old.whole ≡ true)
            × (n ≡ length piece.now))) }
        ensures flushed { IfOk result (λ n. 0 < n → true ≡ true) }
        ensures fails { is_err result ≡ put_fails self.old piece.now }
        ensures count { IfOk result (λ n. n ≡ min (length piece.now) self.old.room) }
        ensures after { self.new ≡ sink_after_put self.old (is_err result) piece.now }
    {
        self.calls = self.calls.saturating_add(1);
        if is_refused(self.fail_at.as_slice(), self.calls, self.room, piece) {
            self.faults = self.faults.saturating_add(1);
            return Err(Failed);
        }
        let count = piece.len().min(self.room);
        self.bytes.extend_from_slice(&piece[..count]).unwrap();
        self.room -= count;
        self.is_whole = self.is_whole && count == piece.len();
        Ok(count)
    }
}

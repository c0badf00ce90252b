ghost use Rattle.std.specs.Prelude.{◌≡◌, ℕ, ◌+◌, ◌<◌, ◌≤◌, List, length, take, Option, IfOk, OnOk, OnErr, IsErrOf, vec_len};
ghost use Rattle.model_device.specs.Counts.{Rose};
ghost use Rattle.mc_streams.specs.Streams.{one_more, Took, AtEnd, Stays, TookAtMost, TookMore};

use crate::refusals::{Failed, ReadAll};
use std::alloc::Global;

/// Where bytes come from. A source may state the bytes that it has left. It counts its calls and those that failed, up
/// to the last value of a count.
pub trait Source {
    /// The bytes that are left, if the source states them.
    ghost left: { Self → Option (List ℕ) };

    /// The number of calls that failed.
    ghost faults: { Self → ℕ };

    /// The number of calls.
    ghost calls: { Self → ℕ };

    /// Takes the next bytes into a front of `into` and returns their number. If `into` is not empty, 0 is the end of
    /// the input.
    ///
    /// # Errors
    ///
    /// Returns `Failed` if the call fails; it has taken nothing then.
    fn take(&mut self, into: &mut [u8]) -> Result<usize, Failed>
        ensures bound { IfOk result (λ n. n ≤ length into.new) }
        ensures bytes { IfOk result (λ n. Took (left self.old) (left self.new) (take n into.new)) }
        ensures end { IfOk result (λ n. n ≡ 0 → 0 < length into.new → AtEnd (left self.new)) }
        ensures failed { OnErr result (Rose (faults self.old) (faults self.new)) }
        ensures kept { OnErr result (Stays (left self.old) (left self.new)) }
        ensures counted { faults self.old ≤ faults self.new }
        ensures quiet { OnOk result (faults self.new ≡ faults self.old) }
        ensures once { OnErr result (faults self.new ≡ one_more (faults self.old)) }
        ensures calls { calls self.new ≡ one_more (calls self.old) };
}

// The greatest number of bytes of one call.
const CHUNK: usize = 4096;

/// Reads a source to its end and returns its bytes, at most `limit` of them, by at most one call more than it returns
/// bytes.
///
/// # Errors
///
/// Returns `TooLong` as soon as more than `limit` bytes have come, `ReadFault` if the source fails, and `NoMemory` if
/// the system is out of memory. A call that failed is not tried again, and `ReadFault` alone comes after one.
pub fn read_all<S: Source>(alloc: Global, source: &mut S, limit: usize) -> Result<Vec<u8>, ReadAll>
    ensures bytes { IfOk result (λ v. Took (S.left source.old) (S.left source.new) v.items) }
    ensures end { OnOk result (AtEnd (S.left source.new)) }
    ensures fits { IfOk result (λ v. vec_len v ≤ limit) }
    ensures fault { IsErrOf result ReadAll.ReadFault → Rose (S.faults source.old) (S.faults source.new) }
    ensures long { IsErrOf result ReadAll.TooLong → TookMore (S.left source.old) (S.left source.new) limit }
    ensures ends { TookAtMost (S.left source.old) (S.left source.new) (limit + 1) }
    ensures counted { S.faults source.old ≤ S.faults source.new }
    ensures quiet { OnOk result (S.faults source.new ≡ S.faults source.old) }
    ensures once { IsErrOf result ReadAll.ReadFault → S.faults source.new ≡ one_more (S.faults source.old) }
    ensures long_quiet { IsErrOf result ReadAll.TooLong → S.faults source.new ≡ S.faults source.old }
    ensures memory_quiet { IsErrOf result ReadAll.NoMemory → S.faults source.new ≡ S.faults source.old }
    ensures calls { IfOk result (λ v. S.calls source.new ≤ S.calls source.old + vec_len v + 1) }
    ensures most_calls { S.calls source.new ≤ S.calls source.old + limit + 1 }
{
    let mut bytes = Vec::new(alloc);
    let mut chunk = [0; CHUNK];
    // Each turn but the last takes at least one byte, and no `Vec` holds as many bytes as there are turns.
    for _turn in 0..usize::MAX {
        let wanted = (limit - bytes.len()).min(CHUNK - 1) + 1;
        let count = source.take(&mut chunk[..wanted])?;
        if count == 0 {
            return Ok(bytes);
        }
        if count > limit - bytes.len() {
            return Err(ReadAll::TooLong);
        }
        bytes.extend_from_slice(&chunk[..count])?;
    }
    Err(ReadAll::NoMemory)
}

ghost use Rattle.std.specs.Prelude.{◌≡◌, ℕ, ◌+◌, ◌<◌, ◌≤◌, ◌↔◌, Bool, true, List, length, take, Option, IfOk, OnOk, OnErr};
ghost use Rattle.model_device.specs.Counts.{Rose};
ghost use Rattle.mc_streams.specs.Streams.{one_more, Grew, GrewByPart, Stays};

use crate::refusals::{Failed, WriteFault};

/// Where bytes go. A sink may state the bytes that it has taken. It counts its calls and those that failed, up to the
/// last value of a count. What a call took was passed on when the call returns: nothing waits in a buffer.
pub trait Sink {
    /// The bytes that were taken, if the sink states them.
    ghost taken: { Self → Option (List ℕ) };

    /// The number of calls that failed.
    ghost faults: { Self → ℕ };

    /// The number of calls.
    ghost calls: { Self → ℕ };

    /// Whether each call so far that did not fail took its whole piece.
    ghost is_whole: { Self → Bool };

    /// Whether all that was taken has been passed on, so that nothing waits in a buffer of the program.
    ghost is_flushed: { Self → Bool };

    /// Takes a front of `piece`, passes it on, and returns its number of bytes, at least one if the piece is not
    /// empty.
    ///
    /// # Errors
    ///
    /// Returns `Failed` if the call fails; it has taken nothing then.
    fn put(&mut self, piece: &[u8]) -> Result<usize, Failed>
        ensures bound { IfOk result (λ n. n ≤ length piece.now) }
        ensures some { IfOk result (λ n. 0 < length piece.now → 0 < n) }
        ensures bytes { IfOk result (λ n. Grew (taken self.old) (taken self.new) (take n piece.now)) }
        ensures failed { OnErr result (Rose (faults self.old) (faults self.new)) }
        ensures kept { OnErr result (Stays (taken self.old) (taken self.new)) }
        ensures counted { faults self.old ≤ faults self.new }
        ensures quiet { OnOk result (faults self.new ≡ faults self.old) }
        ensures once { OnErr result (faults self.new ≡ one_more (faults self.old)) }
        ensures calls { calls self.new ≡ one_more (calls self.old) }
        ensures whole { IfOk result (λ n. is_whole self.new ≡ true ↔ ((is_whole self.old ≡ true)
            × (n ≡ length piece.now))) }
        ensures flushed { IfOk result (λ n. 0 < n → is_flushed self.new ≡ true) };
}

/// Writes the whole piece and passes it on: by one call if the sink takes it whole, and by none if it is empty.
///
/// # Errors
///
/// Returns `WriteFault` if the sink fails; a front of the piece, not all of it, was written then. A call that failed is
/// not tried again.
pub fn put_all<T: Sink>(sink: &mut T, piece: &[u8]) -> Result<(), WriteFault>
    ensures bytes { OnOk result (Grew (T.taken sink.old) (T.taken sink.new) piece.now) }
    ensures fault { OnErr result (Rose (T.faults sink.old) (T.faults sink.new)) }
    ensures part { OnErr result (GrewByPart (T.taken sink.old) (T.taken sink.new) piece.now) }
    ensures counted { T.faults sink.old ≤ T.faults sink.new }
    ensures quiet { OnOk result (T.faults sink.new ≡ T.faults sink.old) }
    ensures once { OnErr result (T.faults sink.new ≡ one_more (T.faults sink.old)) }
    ensures calls { T.calls sink.new ≤ T.calls sink.old + length piece.now }
    ensures one_call { OnOk result (T.is_whole sink.new ≡ true → 0 < length piece.now
        → T.calls sink.new ≡ one_more (T.calls sink.old)) }
    ensures empty { length piece.now ≡ 0 → sink.new ≡ sink.old }
    ensures flushed { OnOk result (0 < length piece.now → T.is_flushed sink.new ≡ true) }
{
    let mut done = 0;
    while done < piece.len() {
        done += sink.put(&piece[done..])?;
    }
    Ok(())
}

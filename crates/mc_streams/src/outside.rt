ghost use Rattle.std.specs.Prelude.{◌≡◌, ◌≤◌, length, take, true, false};
ghost use Rattle.std.specs.Io.KnownBytes.{Appends, Keeps};

use crate::refusals::Failed;
use crate::sink::Sink;
use crate::source::Source;
use std::io::{Read, Write};

/// A source over a reader of the standard library. Contracts see the bytes that the reader has left if the reader
/// states them, as one over memory does; the standard input does not. A read that fails is an error, and not the end
/// of input.
#[derive(Drop)]
pub struct StdSource<R> {
    reader: R,
    calls: u64,
    faults: u64,
}

impl<R: Read> StdSource<R> {
    /// Creates a source over this reader, which has seen no call.
    pub fn new(reader: R) -> Self
        ensures calls { ⟦<StdSource<R> as Source>⟧.calls result ≡ 0 }
        ensures faults { ⟦<StdSource<R> as Source>⟧.faults result ≡ 0 }
        ensures left { ⟦<StdSource<R> as Source>⟧.left result ≡ R.remaining reader }
    {
        StdSource {
            reader,
            calls: 0,
            faults: 0,
        }
    }
}

impl<R: Read> Source for StdSource<R> {
    ghost left = { λ s. R.remaining s.reader };

    ghost faults = { λ s. s.faults };

    ghost calls = { λ s. s.calls };

    fn take(&mut self, into: &mut [u8]) -> Result<usize, Failed> {
        self.calls = self.calls.saturating_add(1);
        match self.reader.read(into) {
            Ok(count) => Ok(count),
            Err(_) => {
                self.faults = self.faults.saturating_add(1);
                Err(Failed)
            }
        }
    }
}

/// A sink over a writer of the standard library, which is flushed after each write. Contracts see the bytes that the
/// writer holds if the writer states them, as one into memory does; the standard output does not. A short write takes
/// what was written, and no more. After a flush that failed each call fails, since bytes of no call wait in the writer.
#[derive(Drop)]
pub struct StdSink<W> {
    writer: W,
    // The number of bytes at the end of the writer's that were not passed on.
    waiting: usize,
    calls: u64,
    faults: u64,
    is_whole: bool,
}

impl<W: Write> StdSink<W> {
    /// Creates a sink over this writer, which has seen no call.
    pub fn new(writer: W) -> Self
        ensures calls { ⟦<StdSink<W> as Sink>⟧.calls result ≡ 0 }
        ensures faults { ⟦<StdSink<W> as Sink>⟧.faults result ≡ 0 }
        ensures whole { ⟦<StdSink<W> as Sink>⟧.is_whole result ≡ true }
        ensures flushed { ⟦<StdSink<W> as Sink>⟧.is_flushed result ≡ true }
        ensures taken { ⟦<StdSink<W> as Sink>⟧.taken result ≡ W.contents writer }
    {
        StdSink {
            writer,
            waiting: 0,
            calls: 0,
            faults: 0,
            is_whole: true,
        }
    }

    // Passes on what waits in the writer, and returns whether it did. No contract of a writer states that a flush
    // empties a buffer: it is trusted here.
    fn pass_on(&mut self) -> bool
        ensures passed { result ≡ true → self.new.waiting ≡ 0 }
        ensures stuck { result ≡ false → self.new.waiting ≡ self.old.waiting }
        ensures held { Keeps (W.contents self.old.writer) (W.contents self.new.writer) }
        ensures calls { self.new.calls ≡ self.old.calls }
        ensures faults { self.new.faults ≡ self.old.faults }
        ensures whole { self.new.is_whole ≡ self.old.is_whole }
    {
        if self.writer.flush().is_err() {
            return false;
        }
        self.waiting = 0;
        true
    }

    // Writes a front of a piece, which waits to be passed on then, and returns its number of bytes: 0 if the writer
    // took none.
    fn write(&mut self, piece: &[u8]) -> usize
        requires { self.old.waiting ≡ 0 }
        ensures bound { result ≤ length piece.now }
        ensures waits { self.new.waiting ≡ result }
        ensures held { Appends (W.contents self.old.writer) (W.contents self.new.writer) (take result piece.now) }
        ensures calls { self.new.calls ≡ self.old.calls }
        ensures faults { self.new.faults ≡ self.old.faults }
        ensures whole { self.new.is_whole ≡ self.old.is_whole }
    {
        self.waiting = self.writer.write(piece).unwrap_or(0);
        self.waiting
    }
}

impl<W: Write> Sink for StdSink<W> {
    ghost use Rattle.std.specs.Prelude.{◌==◌};
    ghost use Rattle.mc_streams.specs.Streams.{without_last};

    ghost taken = { λ s. without_last s.waiting (W.contents s.writer) };

    ghost faults = { λ s. s.faults };

    ghost calls = { λ s. s.calls };

    ghost is_whole = { λ s. s.is_whole };

    ghost is_flushed = { λ s. s.waiting == 0 };

    fn put(&mut self, piece: &[u8]) -> Result<usize, Failed> {
        self.calls = self.calls.saturating_add(1);
        if piece.is_empty() {
            return Ok(0);
        }
        if self.waiting > 0 {
            self.faults = self.faults.saturating_add(1);
            return Err(Failed);
        }
        let written = self.write(piece);
        if written == 0 || !self.pass_on() {
            self.faults = self.faults.saturating_add(1);
            return Err(Failed);
        }
        self.is_whole = self.is_whole && written == piece.len();
        Ok(written)
    }
}

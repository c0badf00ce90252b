use crate::memory::{MemSink, MemSource};
use crate::outside::StdSink;
use crate::refusals::{ReadAll, WriteFault};
use crate::sink::put_all;
use crate::source::read_all;
use model_device::NoMemory;
use std::alloc::Global;
use std::io;
use std::io::{ErrorKind, Write};
use std::test::Fail;

// An input that fills one chunk and begins another.
const INPUT: [u8; 5000] = [7; 5000];

// Reads the input from a source whose calls of these numbers fail, and returns the number of bytes that came.
fn read_with(alloc: Global, fail_at: &[u32]) -> Result<Result<usize, ReadAll>, NoMemory> {
    let mut source = MemSource::new(alloc, &INPUT, fail_at)?;
    match read_all(alloc, &mut source, 10_000) {
        Ok(bytes) => Ok(Ok(bytes.len())),
        Err(error) => Ok(Err(error)),
    }
}

// The input is read by three calls: a full chunk, the rest, and the end, which is asked for once.
#[test]
fn end_is_asked_for_once(rt: HostRuntime) -> Result<(), Fail> {
    let alloc = rt.alloc();
    assert_eq!(rt; read_with(alloc, &[3])?, Err(ReadAll::ReadFault));
    assert_eq!(rt; read_with(alloc, &[4])?, Ok(5000));
    Ok(())
}

// A read that failed is not tried again, although the next one would not fail.
#[test]
fn failed_read_is_the_last(rt: HostRuntime) -> Result<(), Fail> {
    let alloc = rt.alloc();
    assert_eq!(rt; read_with(alloc, &[1])?, Err(ReadAll::ReadFault));
    assert_eq!(rt; read_with(alloc, &[2])?, Err(ReadAll::ReadFault));
    Ok(())
}

// A write that failed is not tried again, although the next one would not fail.
#[test]
fn failed_write_is_the_last(rt: HostRuntime) -> Result<(), Fail> {
    let mut sink = MemSink::new(rt.alloc(), 10, &[1])?;
    assert_eq!(rt; put_all(&mut sink, b"one"), Err(WriteFault));
    assert_eq!(rt; sink.bytes(), b"".as_slice());
    assert_eq!(rt; put_all(&mut sink, b"two"), Ok(()));
    assert_eq!(rt; sink.bytes(), b"two".as_slice());
    Ok(())
}

// A piece that the sink takes whole is one call, and an empty piece is none.
#[test]
fn piece_is_one_call(rt: HostRuntime) -> Result<(), Fail> {
    let mut sink = MemSink::new(rt.alloc(), 10, &[2])?;
    assert_eq!(rt; put_all(&mut sink, b""), Ok(()));
    assert_eq!(rt; put_all(&mut sink, b"one"), Ok(()));
    assert_eq!(rt; put_all(&mut sink, b"two"), Err(WriteFault));
    assert_eq!(rt; sink.bytes(), b"one".as_slice());
    Ok(())
}

// A writer that counts the bytes that it was given, and those of them that a flush passed on. It may refuse to flush.
#[derive(Drop)]
struct Counted<'a> {
    given: usize,
    passed: &'a mut usize,
    is_stuck: bool,
}

impl Write for Counted<'_> {
    fn write(&mut self, piece: &[u8]) -> io::Result<usize> {
        self.given = self.given.saturating_add(piece.len());
        Ok(piece.len())
    }

    fn flush(&mut self) -> io::Result<()> {
        if self.is_stuck {
            return Err(io::Error::from(ErrorKind::Other));
        }
        *self.passed = self.given;
        Ok(())
    }
}

// What a sink over a writer took has been passed on by the writer, without another call.
#[test]
fn written_bytes_are_passed_on(rt: HostRuntime) -> Result<(), Fail> {
    let mut passed = 0;
    let mut sink = StdSink::new(Counted {
        given: 0,
        passed: &mut passed,
        is_stuck: false,
    });
    assert_eq!(rt; put_all(&mut sink, b"one"), Ok(()));
    assert_eq!(rt; passed, 3);
    Ok(())
}

// A flush that fails is a failed call, and the sink takes nothing after it.
#[test]
fn failed_flush_is_a_fault(rt: HostRuntime) -> Result<(), Fail> {
    let mut passed = 0;
    let mut sink = StdSink::new(Counted {
        given: 0,
        passed: &mut passed,
        is_stuck: true,
    });
    assert_eq!(rt; put_all(&mut sink, b"one"), Err(WriteFault));
    assert_eq!(rt; put_all(&mut sink, b"two"), Err(WriteFault));
    assert_eq!(rt; passed, 0);
    Ok(())
}

// The input, read whole.
ghost use Rattle.std.specs.Prelude.{◌≡◌, ◌≢◌, ◌+◌, ◌≤◌, vec_len, vec_capacity, IfErr, IfOk, IsErrOf, OnOk};
ghost use Rattle.mc_streams.specs.Streams.{one_more, AtEnd, Took, TookAtMost, TookMore};
ghost use Rattle.mc_filter.specs.declared.rejection.Rejection.TheVariants.{NoMemory};
ghost use Rattle.mc_filter.specs.Inputs.{stream, ReadWhole, RejectsRead};

use crate::lines::{append, too_long_line};
use crate::rejection::Rejection;
use mc_streams::Source;
use std::alloc::Global;

/// The greatest number of bytes of an input.
pub const INPUT_LIMIT: usize = 1_048_576;

// The greatest number of bytes of one call.
const CHUNK: usize = 4096;

// Why an input was not read.
#[derive(Clone, Copy, PartialEq, Eq)]
enum Unread {
    // It is too long.
    TooLong,
    // A fault of the source.
    Fault,
}

// Reads an input to its end into bytes that have room for the longest, and takes no memory.
fn fill<S: Source>(bytes: &mut Vec<u8>, input: &mut S) -> Result<(), Unread>
    requires empty { vec_len bytes.old ≡ 0 }
    requires room { INPUT_LIMIT ≤ vec_capacity bytes.old }
    ensures bytes { OnOk result (Took (S.left input.old) (S.left input.new) bytes.new.items) }
    ensures end { OnOk result (AtEnd (S.left input.new)) }
    ensures fits { vec_len bytes.new ≤ INPUT_LIMIT }
    ensures room { INPUT_LIMIT ≤ vec_capacity bytes.new }
    ensures long { IsErrOf result Unread.TooLong → TookMore (S.left input.old) (S.left input.new) INPUT_LIMIT }
    ensures ends { TookAtMost (S.left input.old) (S.left input.new) (INPUT_LIMIT + 1) }
    ensures quiet { OnOk result (S.faults input.new ≡ S.faults input.old) }
    ensures once { IsErrOf result Unread.Fault → S.faults input.new ≡ one_more (S.faults input.old) }
    ensures long_quiet { IsErrOf result Unread.TooLong → S.faults input.new ≡ S.faults input.old }
    ensures calls { OnOk result (S.calls input.new ≤ S.calls input.old + vec_len bytes.new + 1) }
{
    let mut chunk = [0; CHUNK];
    loop {
        let wanted = (INPUT_LIMIT - bytes.len()).min(CHUNK - 1) + 1;
        let Ok(count) = input.take(&mut chunk[..wanted]) else {
            return Err(Unread::Fault);
        };
        if count == 0 {
            return Ok(());
        }
        if count > INPUT_LIMIT - bytes.len() {
            return Err(Unread::TooLong);
        }
        append(bytes, &chunk[..count]);
    }
}

// Reads an input to its end in bytes that have room for the longest, and takes no memory.
fn read_within<S: Source>(room: Vec<u8>, input: &mut S) -> Result<Vec<u8>, Rejection>
    requires empty { vec_len room ≡ 0 }
    requires room { INPUT_LIMIT ≤ vec_capacity room }
    ensures read { IfOk result (λ t. ReadWhole (stream S.Source input.old) (stream S.Source input.new) t.items) }
    ensures rejected { IfErr result (RejectsRead (stream S.Source input.old) (stream S.Source input.new)) }
    ensures memory { IfErr result (λ e. e ≢ NoMemory) }
{
    let mut bytes = room;
    match fill(&mut bytes, input) {
        Ok(()) => Ok(bytes),
        Err(Unread::TooLong) => Err(Rejection::Refusal(too_long_line(bytes))),
        Err(Unread::Fault) => Err(Rejection::ReadFault),
    }
}

/// Reads an input to its end.
///
/// # Errors
///
/// Returns the line `line 0 TooLong` as soon as one byte more than `INPUT_LIMIT` was read, `ReadFault` if the
/// source failed, and `NoMemory` if out of memory before the source was called.
pub fn read_input<S: Source>(alloc: Global, input: &mut S) -> Result<Vec<u8>, Rejection>
    ensures read { IfOk result (λ t. ReadWhole (stream S.Source input.old) (stream S.Source input.new) t.items) }
    ensures rejected { IfErr result (RejectsRead (stream S.Source input.old) (stream S.Source input.new)) }
    ensures memory { IfErr result (λ e. e ≡ NoMemory → input.new ≡ input.old) }
{
    let room = Vec::with_capacity(alloc, INPUT_LIMIT)?;
    read_within(room, input)
}

// The lines that refuse an input.
ghost use Rattle.std.specs.Prelude.{◌≡◌, ◌+◌, ◌++◌, ◌≤◌, codes, length, vec_len, vec_capacity};
ghost use Rattle.mc_filter.specs.Lines.{refusal_line, too_long};
ghost use Rattle.mc_filter.specs.Inputs.{Rejects};

use crate::rejection::Rejection;
use itoa::Buffer;
use std::alloc::Global;

/// Appends a piece to bytes that have room for it, which takes no memory.
pub fn append(bytes: &mut Vec<u8>, piece: &[u8])
    requires { vec_len bytes.old + length piece.now ≤ vec_capacity bytes.old }
    ensures items { bytes.new.items ≡ bytes.old.items ++ piece.now }
    ensures room { vec_capacity bytes.old ≤ vec_capacity bytes.new }
{
    let _appended = bytes.extend_from_slice(piece);
}

/// Returns the line that refuses a line or a place of an input, in a text that has room for it: its kind, as `line`, its
/// number and the cause.
pub fn refusal_line(room: Vec<u8>, kind: &str, number: u32, cause: &str) -> Vec<u8>
    requires { length kind.now + length cause.now + 43 ≤ vec_capacity room }
    ensures { result.items ≡ refusal_line kind.now number cause.now }
{
    let mut text = room;
    let mut buffer = Buffer::new();
    text.clear();
    append(&mut text, kind.as_bytes());
    append(&mut text, b" ");
    append(&mut text, buffer.format(number).as_bytes());
    append(&mut text, b" ");
    append(&mut text, cause.as_bytes());
    append(&mut text, b"\n");
    text
}

/// Returns the line that refuses an input that is too long, or whose code is, in a text that has room for it.
pub fn too_long_line(room: Vec<u8>) -> Vec<u8>
    requires { 15 ≤ vec_capacity room }
    ensures { result.items ≡ too_long }
{
    let mut text = room;
    text.clear();
    append(&mut text, b"line 0 TooLong\n");
    text
}

/// Returns the rejection of a line or a place of an input: its kind, as `line`, its number and the cause.
pub fn refused(alloc: Global, kind: &str, number: u32, cause: &str) -> Rejection
    ensures { Rejects (λ line. line ≡ refusal_line kind.now number cause.now) result }
{
    let Some(size) = (kind.len() + 43).checked_add(cause.len()) else {
        return Rejection::NoMemory;
    };
    match Vec::with_capacity(alloc, size) {
        Ok(room) => Rejection::Refusal(refusal_line(room, kind, number, cause)),
        Err(_) => Rejection::NoMemory,
    }
}

/// Returns the rejection of an input that is too long, or whose code is.
pub fn too_long(alloc: Global) -> Rejection
    ensures { Rejects (λ line. line ≡ too_long) result }
{
    match Vec::with_capacity(alloc, 15) {
        Ok(room) => Rejection::Refusal(too_long_line(room)),
        Err(_) => Rejection::NoMemory,
    }
}

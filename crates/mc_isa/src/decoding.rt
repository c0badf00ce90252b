// From bytes to instructions: the table of machine rows, by op and tag. A row returns the instruction and its
// length.
ghost use Rattle.std.specs.Prelude.{◌≡◌, ℕ, ◌+◌, ◌*◌, ◌/◌, ◌%◌, ◌<◌, ◌≤◌, length, take, drop, ◌++◌};
ghost use Rattle.model_text.specs.model_machine.specs.declared.instruction.Ins.TheVariants.{Branch, Jump, Call};
ghost use Rattle.model_text.specs.model_device.specs.Limits.{most_code};
ghost use Rattle.model_text.specs.model_machine.specs.Code.{made_of, row_at, row_of, register_rows, stack_rows, call_rows, near_row, target_row, form, front, instruction_at, DecodesTo};
ghost use Rattle.mc_isa.specs.Operations.{TakesByte, TakesWord};

use crate::reading::{
    arguments, byte, byte_and_offset, bytes, displacement, offset, offset_size, target,
    target_size, word, word_and_offset, words,
};
use model_text::model_machine::{DecodeFault, Ins};

// Op 00: the status registers and exits.
#[inline(always)]
fn register_row(tag: u8, rest: &[u8]) -> Result<(Ins, u16), DecodeFault>
    ensures { result ≡ made_of (row_at tag register_rows) rest.now }
{
    match tag {
        0 => Ok((Ins::Nop, 1)),
        1 => Ok((Ins::Setsw { sw: word(rest)? }, 3)),
        2 => Ok((Ins::Setla { la: word(rest)? }, 3)),
        3 => {
            let (sw, la) = words(rest)?;
            Ok((Ins::Setswla { sw, la }, 5))
        }
        4 => Ok((Ins::Exit, 1)),
        5 => Ok((Ins::Exitsw { sw: word(rest)? }, 3)),
        6 => Ok((Ins::Exitla { la: word(rest)? }, 3)),
        7 => {
            let (sw, la) = words(rest)?;
            Ok((Ins::Exitswla { sw, la }, 5))
        }
        _ => Err(DecodeFault::Undefined),
    }
}

// Op 01: a branch, which has no condition 0.
#[inline(always)]
fn branch_row(cond: u8, rest: &[u8]) -> Result<(Ins, u16), DecodeFault>
    ensures { result ≡ made_of (near_row (λ c d. Branch c d) cond) rest.now }
{
    if cond == 0 {
        return Err(DecodeFault::Undefined);
    }
    Ok((
        Ins::Branch {
            cond,
            d: displacement(rest)?,
        },
        2,
    ))
}

// Op 02: a jump.
#[inline(always)]
fn jump_row(cond: u8, rest: &[u8]) -> Result<(Ins, u16), DecodeFault>
    ensures { result ≡ made_of (target_row (λ c to. Jump c to) cond) rest.now }
{
    Ok((
        Ins::Jump {
            cond,
            to: target(cond, rest)?,
        },
        1 + target_size(cond),
    ))
}

// Op 03: a call.
#[inline(always)]
fn call_row(cond: u8, rest: &[u8]) -> Result<(Ins, u16), DecodeFault>
    ensures { result ≡ made_of (target_row (λ c to. Call c to) cond) rest.now }
{
    Ok((
        Ins::Call {
            cond,
            to: target(cond, rest)?,
        },
        1 + target_size(cond),
    ))
}

// Op 04: pushes and pops.
#[inline(always)]
fn stack_row(tag: u8, rest: &[u8]) -> Result<(Ins, u16), DecodeFault>
    ensures { result ≡ made_of (row_at tag stack_rows) rest.now }
{
    match tag {
        0 => Ok((Ins::Pushz { n: byte(rest)? }, 2)),
        1 => Ok((Ins::Pushb { b: byte(rest)? }, 2)),
        2 => Ok((Ins::Pushw { w: word(rest)? }, 3)),
        4 => Ok((Ins::Popn { n: byte(rest)? }, 2)),
        5 => Ok((Ins::Popb, 1)),
        6 => Ok((Ins::Popw, 1)),
        _ => Err(DecodeFault::Undefined),
    }
}

// Op 05: primitives and returns.
#[inline(always)]
fn return_row(tag: u8, rest: &[u8]) -> Result<(Ins, u16), DecodeFault>
    requires { tag < 8 }
    ensures { result ≡ made_of (row_at tag call_rows) rest.now }
{
    match tag {
        4 => Ok((Ins::Ret, 1)),
        5 => Ok((Ins::Reti { i: byte(rest)? }, 2)),
        6 => Ok((Ins::Reto { o: byte(rest)? }, 2)),
        7 => {
            let (i, o) = bytes(rest)?;
            Ok((Ins::Retio { i, o }, 3))
        }
        set => {
            let (number, args) = arguments(set, rest)?;
            Ok((Ins::Prim { set, number, args }, 2 + set as u16))
        }
    }
}

// Ops 07 to 10 and 15 to 1F without 0B: an instruction with a byte before its offset.
#[inline(always)]
fn byte_row(op: u8, tag: u8, rest: &[u8]) -> Result<(Ins, u16), DecodeFault>
    requires { TakesByte op }
    ensures { result ≡ made_of (row_of op tag) rest.now }
{
    let (n, off) = byte_and_offset(tag, rest)?;
    let size = 2 + offset_size(tag);
    match op {
        0x07 => Ok((Ins::Load { tag, off, n }, size)),
        0x08 => Ok((Ins::Store { tag, off, n }, size)),
        0x09 => Ok((Ins::Loadi { tag, off, n }, size)),
        0x0A => Ok((Ins::Storei { tag, off, n }, size)),
        0x0C => Ok((Ins::Index { tag, off, size: n }, size)),
        0x0D => Ok((Ins::Setb { tag, off, b: n }, size)),
        0x0E => Ok((Ins::Cmpb { tag, off, b: n }, size)),
        0x0F => Ok((Ins::Addb { tag, off, b: n }, size)),
        0x10 => Ok((Ins::Subb { tag, off, b: n }, size)),
        0x15 => Ok((Ins::Clearn { tag, off, n }, size)),
        0x16 => Ok((Ins::Testn { tag, off, n }, size)),
        0x17 => Ok((Ins::Incn { tag, off, n }, size)),
        0x18 => Ok((Ins::Decn { tag, off, n }, size)),
        0x19 => Ok((Ins::Notn { tag, off, n }, size)),
        0x1A => Ok((Ins::Cmpn { tag, off, n }, size)),
        0x1B => Ok((Ins::Addn { tag, off, n }, size)),
        0x1C => Ok((Ins::Subn { tag, off, n }, size)),
        0x1D => Ok((Ins::Andn { tag, off, n }, size)),
        0x1E => Ok((Ins::Orn { tag, off, n }, size)),
        0x1F => Ok((Ins::Xorn { tag, off, n }, size)),
        _ => unreachable!(),
    }
}

// Ops 11 to 14: an instruction with a word before its offset.
#[inline(always)]
fn word_row(op: u8, tag: u8, rest: &[u8]) -> Result<(Ins, u16), DecodeFault>
    requires { TakesWord op }
    ensures { result ≡ made_of (row_of op tag) rest.now }
{
    let (w, off) = word_and_offset(tag, rest)?;
    let size = 3 + offset_size(tag);
    match op {
        0x11 => Ok((Ins::Setw { tag, off, w }, size)),
        0x12 => Ok((Ins::Cmpw { tag, off, w }, size)),
        0x13 => Ok((Ins::Addw { tag, off, w }, size)),
        0x14 => Ok((Ins::Subw { tag, off, w }, size)),
        _ => unreachable!(),
    }
}

// Op 0B: an instruction with an address alone.
#[inline(always)]
fn address_row(tag: u8, rest: &[u8]) -> Result<(Ins, u16), DecodeFault>
    ensures { result ≡ made_of (row_of 0x0B tag) rest.now }
{
    let off = offset(tag, rest)?;
    Ok((Ins::Loada { tag, off }, 1 + offset_size(tag)))
}

// Ops 07 to 1F: the rows with an address. The operand is read before the row is looked for, since most rows have the
// same one.
#[inline(always)]
fn addressed_row(op: u8, tag: u8, rest: &[u8]) -> Result<(Ins, u16), DecodeFault>
    requires { 6 ≤ op }
    ensures { result ≡ made_of (row_of op tag) rest.now }
{
    match op {
        0x0B => address_row(tag, rest),
        0x11..=0x14 => word_row(op, tag, rest),
        0x07..=0x1F => byte_row(op, tag, rest),
        _ => Err(DecodeFault::Undefined),
    }
}

// The instruction of an opcode byte and the bytes after it, with its length.
#[inline(always)]
fn instruction(byte: u8, rest: &[u8]) -> Result<(Ins, u16), DecodeFault>
    ensures { result ≡ made_of (form byte) rest.now }
{
    let (op, tag) = (byte / 8, byte % 8);
    match op {
        0x00 => register_row(tag, rest),
        0x01 => branch_row(tag, rest),
        0x02 => jump_row(tag, rest),
        0x03 => call_row(tag, rest),
        0x04 => stack_row(tag, rest),
        0x05 => return_row(tag, rest),
        _ => addressed_row(op, tag, rest),
    }
}

/// Returns the instruction at `at` in `code`, and the place after it. The code has at most 8,192 bytes; the
/// place may be any.
///
/// # Errors
///
/// Returns `Undefined` if the byte at the place begins no instruction, and `Past` if the place is not in the
/// code or the instruction ends after the code's end.
#[inline(always)]
pub fn decode(code: &[u8], at: u16) -> Result<(Ins, u16), DecodeFault>
    requires { length code.now ≤ most_code }
    ensures exact { result ≡ instruction_at code.now at }
    ensures stands { DecodesTo code.now at result }
{
    if at as usize >= code.len() {
        return Err(DecodeFault::Past);
    }
    let (ins, size) = instruction(code[at as usize], &code[at as usize + 1..])?;
    Ok((ins, at + size))
}

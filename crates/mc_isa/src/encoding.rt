// From rows to bytes.
ghost use Rattle.std.specs.Prelude.{◌≡◌, ◌+◌, ◌<◌, ◌≤◌, ◌++◌, take};
ghost use Rattle.arrayvec.specs.ArrayVec.{array_vec_len};
ghost use Rattle.model_text.specs.model_device.specs.Bytes.{bytes2};
ghost use Rattle.model_text.specs.model_machine.specs.Code.{Shaped, spell, target, offset};
ghost use Rattle.mc_isa.specs.Rows.{operand_bytes, OperandsInRange};

use crate::rows::{Operands, row_of};
use arrayvec::ArrayVec;
use model_text::model_machine::Ins;

// Appends a word, high byte first.
fn put_word(bytes: &mut ArrayVec<u8, 6>, word: u16)
    requires { array_vec_len bytes.old + 2 ≤ 6 }
    ensures { bytes.new.items ≡ bytes.old.items ++ bytes2 word }
{
    bytes.push((word / 256) as u8);
    bytes.push((word % 256) as u8);
}

// Appends the address of a jump or call.
fn put_target(bytes: &mut ArrayVec<u8, 6>, cond: u8, to: u16)
    requires { array_vec_len bytes.old + 2 ≤ 6 }
    ensures { bytes.new.items ≡ bytes.old.items ++ target cond to }
{
    if cond != 0 {
        put_word(bytes, to);
    }
}

// Appends the offset of an address.
fn put_offset(bytes: &mut ArrayVec<u8, 6>, tag: u8, off: i16)
    requires { array_vec_len bytes.old + 2 ≤ 6 }
    ensures { bytes.new.items ≡ bytes.old.items ++ offset tag off }
{
    if tag != 0 {
        put_word(bytes, off.cast_unsigned());
    }
}

// Appends the arguments of a primitive.
fn put_arguments(bytes: &mut ArrayVec<u8, 6>, set: u8, args: [u8; 3])
    requires room { array_vec_len bytes.old + 3 ≤ 6 }
    requires set { set < 4 }
    ensures { bytes.new.items ≡ bytes.old.items ++ take set args }
{
    bytes.try_extend_from_slice(&args[..set as usize]).unwrap()
}

// Appends the operands, in their order.
fn put_operands(bytes: &mut ArrayVec<u8, 6>, operands: Operands)
    requires room { array_vec_len bytes.old ≤ 1 }
    requires range { OperandsInRange operands }
    ensures { bytes.new.items ≡ bytes.old.items ++ operand_bytes operands }
{
    match operands {
        Operands::Plain => {}
        Operands::Byte(n) => bytes.push(n),
        Operands::Bytes(a, b) => {
            bytes.push(a);
            bytes.push(b);
        }
        Operands::Word(word) => put_word(bytes, word),
        Operands::Words(v, w) => {
            put_word(bytes, v);
            put_word(bytes, w);
        }
        Operands::Near { cond: _, d } => bytes.push(d.cast_unsigned()),
        Operands::Target { cond, to } => put_target(bytes, cond, to),
        Operands::Primitive { set, number, args } => {
            bytes.push(number);
            put_arguments(bytes, set, args);
        }
        Operands::Address { tag, off } => put_offset(bytes, tag, off),
        Operands::WithByte(tag, off, byte) => {
            bytes.push(byte);
            put_offset(bytes, tag, off);
        }
        Operands::WithWord(tag, off, word) => {
            put_word(bytes, word);
            put_offset(bytes, tag, off);
        }
    }
}

/// Returns the only spelling of an instruction whose fields are in their ranges: its byte, then its operands,
/// words high byte first.
pub fn encode(ins: &Ins) -> ArrayVec<u8, 6>
    requires { Shaped ins.now }
    ensures { result.items ≡ spell ins.now }
{
    let row = row_of(ins);
    let mut bytes = ArrayVec::new();
    bytes.push(row.byte);
    put_operands(&mut bytes, row.operands);
    bytes
}

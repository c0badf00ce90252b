// From rows to text.
ghost use Rattle.std.specs.Prelude.{◌≡◌, ◌+◌, ◌<◌, ◌≤◌, ◌++◌, ◌∷◌, [], length, take, drop, codes, decimal, cond, ◌==◌, ◌*◌};
ghost use Rattle.std.specs.Fmt.{signed_decimal};
ghost use Rattle.arrayvec.specs.ArrayVec.{array_vec_len};
ghost use Rattle.model_text.specs.model_machine.specs.Code.{Shaped};
ghost use Rattle.model_text.specs.Listing.{text_of, hex_digit, hex_word, condition_name, register_name, address_text, address_line, arguments_text, byte_line, target_line, words_line};
ghost use Rattle.mc_isa.specs.Rows.{line_of, OperandsInRange};

use crate::rows::{Operands, row_of};
use arrayvec::ArrayVec;
use itoa::Buffer;
use model_text::model_machine::Ins;

type Line = ArrayVec<u8, 40>;

// Appends text to the line.
fn put(line: &mut Line, text: &[u8])
    requires { array_vec_len line.old + length text.now ≤ 40 }
    ensures { line.new.items ≡ line.old.items ++ text.now }
{
    line.try_extend_from_slice(text).unwrap()
}

// Appends a byte in decimal.
fn put_byte(line: &mut Line, n: u8)
    requires { array_vec_len line.old + 3 ≤ 40 }
    ensures text { line.new.items ≡ line.old.items ++ decimal n }
    ensures short { array_vec_len line.new ≤ array_vec_len line.old + 3 }
{
    let mut buffer = Buffer::new();
    put(line, buffer.format(n).as_bytes());
}

// Appends a signed number in decimal.
fn put_signed(line: &mut Line, n: i16)
    requires { array_vec_len line.old + 6 ≤ 40 }
    ensures text { line.new.items ≡ line.old.items ++ signed_decimal n }
    ensures short { array_vec_len line.new ≤ array_vec_len line.old + 6 }
{
    let mut buffer = Buffer::new();
    put(line, buffer.format(n).as_bytes());
}

// One hexadecimal digit.
fn digit(d: u16) -> u8
    requires { d < 16 }
    ensures { result ≡ hex_digit d }
{
    if d < 10 { 48 + d as u8 } else { 55 + d as u8 }
}

// Appends a word as 0x and four hexadecimal digits.
fn put_word(line: &mut Line, word: u16)
    requires { array_vec_len line.old + 6 ≤ 40 }
    ensures { line.new.items ≡ line.old.items ++ hex_word word }
{
    put(
        line,
        &[
            b'0',
            b'x',
            digit(word / 4096 % 16),
            digit(word / 256 % 16),
            digit(word / 16 % 16),
            digit(word % 16),
        ],
    );
}

// The name of a condition.
fn condition(cond: u8) -> &'static [u8]
    requires low { 0 < cond }
    requires high { cond < 8 }
    ensures name { result.now ≡ condition_name cond }
    ensures short { length result.now ≤ 3 }
{
    match cond {
        1 => b"EQ",
        2 => b"LT",
        3 => b"LE",
        4 => b"GT",
        5 => b"GE",
        6 => b"NE",
        _ => b"ALL",
    }
}

// The name of a register.
fn register(tag: u8) -> &'static [u8]
    requires low { 0 < tag }
    requires high { tag < 8 }
    ensures name { result.now ≡ register_name tag }
    ensures short { length result.now ≤ 2 }
{
    match tag {
        1 => b"SB",
        2 => b"ST",
        3 => b"DB",
        4 => b"LB",
        5 => b"DT",
        6 => b"PB",
        _ => b"PT",
    }
}

// Appends a register with its offset.
fn put_address(line: &mut Line, tag: u8, off: i16)
    requires room { array_vec_len line.old + 10 ≤ 40 }
    requires low { 0 < tag }
    requires high { tag < 8 }
    ensures text { line.new.items ≡ line.old.items ++ address_text tag off }
    ensures short { array_vec_len line.new ≤ array_vec_len line.old + 10 }
{
    put(line, register(tag));
    put(line, b"[");
    put_signed(line, off);
    put(line, b"]");
}

// Appends an address and a comma, nothing if the tag is 0.
fn put_address_before(line: &mut Line, tag: u8, off: i16)
    requires room { array_vec_len line.old + 11 ≤ 40 }
    requires high { tag < 8 }
    ensures text { line.new.items ≡ line.old.items ++ cond (tag == 0) [] (address_text tag off ++ codes ",") }
    ensures short { array_vec_len line.new ≤ array_vec_len line.old + 11 }
{
    if tag == 0 {
        return;
    }
    put_address(line, tag, off);
    put(line, b",");
}

// Appends the arguments of a primitive, each after a comma.
fn put_arguments(line: &mut Line, args: &[u8])
    requires { array_vec_len line.old + 4 * length args.now ≤ 40 }
    ensures { line.new.items ≡ line.old.items ++ arguments_text args.now }
{
    for b in args {
        put(line, b",");
        put_byte(line, *b);
    }
}

// Appends the operands to the name in the line.
fn put_operands(line: &mut Line, operands: Operands)
    requires room { array_vec_len line.old ≤ 8 }
    requires range { OperandsInRange operands }
    ensures { line.new.items ≡ line_of line.old.items operands }
{
    match operands {
        Operands::Plain => {}
        Operands::Byte(n) => {
            put(line, b" ");
            put_byte(line, n);
        }
        Operands::Bytes(a, b) => put_bytes(line, a, b),
        Operands::Word(word) => {
            put(line, b" ");
            put_word(line, word);
        }
        Operands::Words(v, w) => put_words(line, v, w),
        Operands::Near { cond, d } => {
            put(line, b" ");
            put(line, condition(cond));
            put(line, b",");
            put_signed(line, d as i16);
        }
        Operands::Target { cond, to } => put_target(line, cond, to),
        Operands::Primitive { set, number, args } => {
            put(line, b" ");
            put_byte(line, number);
            put_arguments(line, &args[..set as usize]);
        }
        Operands::Address { tag, off } => put_address_alone(line, tag, off),
        Operands::WithByte(tag, off, byte) => {
            put(line, b" ");
            put_address_before(line, tag, off);
            put_byte(line, byte);
        }
        Operands::WithWord(tag, off, word) => {
            put(line, b" ");
            put_address_before(line, tag, off);
            put_word(line, word);
        }
    }
}

// Appends two bytes.
fn put_bytes(line: &mut Line, a: u8, b: u8)
    requires { array_vec_len line.old ≤ 8 }
    ensures { line.new.items ≡ byte_line line.old.items a ++ codes "," ++ decimal b }
{
    put(line, b" ");
    put_byte(line, a);
    put(line, b",");
    put_byte(line, b);
}

// Appends two words.
fn put_words(line: &mut Line, v: u16, w: u16)
    requires { array_vec_len line.old ≤ 8 }
    ensures { line.new.items ≡ words_line line.old.items v w }
{
    put(line, b" ");
    put_word(line, v);
    put(line, b",");
    put_word(line, w);
}

// Appends a condition and an address of code, nothing if the condition is 0.
fn put_target(line: &mut Line, cond: u8, to: u16)
    requires room { array_vec_len line.old ≤ 8 }
    requires high { cond < 8 }
    ensures { line.new.items ≡ target_line line.old.items cond to }
{
    if cond == 0 {
        return;
    }
    put(line, b" ");
    put(line, condition(cond));
    put(line, b",");
    put_word(line, to);
}

// Appends an address alone, nothing if the tag is 0.
fn put_address_alone(line: &mut Line, tag: u8, off: i16)
    requires room { array_vec_len line.old ≤ 8 }
    requires high { tag < 8 }
    ensures { line.new.items ≡ address_line line.old.items tag off }
{
    if tag == 0 {
        return;
    }
    put(line, b" ");
    put_address(line, tag, off);
}

/// Returns the line of a listing for an instruction whose fields are in their ranges, without its line feed.
///
/// Bytes, lengths, offsets and displacements are decimal; words and addresses of code are `0x` and four
/// hexadecimal digits.
pub fn text_of(ins: &Ins) -> ArrayVec<u8, 40>
    requires { Shaped ins.now }
    ensures { result.items ≡ text_of ins.now }
{
    let row = row_of(ins);
    let mut line = ArrayVec::new();
    put(&mut line, row.name.as_bytes());
    put_operands(&mut line, row.operands);
    line
}

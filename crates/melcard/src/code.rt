// Code given as hexadecimal digits.
ghost use Rattle.std.specs.Prelude.{◌≡◌, ◌≤◌, ◌<◌, ◌+◌, ◌*◌, ◌++◌, ◌∷◌, [], length, vec_len, vec_capacity, option_map, Ok, IfOk, IfErr, OnOk};
ghost use Rattle.mc_base.specs.mc_words.specs.model_device.specs.Limits.{most_code};
ghost use Rattle.mc_text.specs.model_text.specs.Text.{hex_bytes, lines, with_numbers, ok_as, code_text_read};
ghost use Rattle.mc_filter.specs.Inputs.{input_limit};
ghost use Rattle.melcard.specs.Judging.{line_digits, text_digits, RefusesCode};

use mc_base::MOST_CODE;
use mc_text::{hex_value, is_blank, next_line};

/// Why a text is not code.
#[derive(Clone, Copy, Debug, PartialEq, Eq)]
pub enum CodeRefusal {
    /// The first line, counted from 1, with a character that is neither a digit nor a blank; the last line if
    /// the number of digits is odd.
    BadHex(u32),
    /// The digits spell more bytes than the code of an application may have.
    TooLarge,
}

// Adds one character of a line, and nothing for a blank.
fn push_digit(digits: &mut Vec<u8>, number: u32, character: u8) -> Result<(), CodeRefusal>
    requires { vec_len digits.old < vec_capacity digits.old }
    ensures ok { OnOk result (ok_as (λ vs. digits.old.items ++ vs) (line_digits number (character ∷ []))
        ≡ Ok digits.new.items) }
    ensures refused { IfErr result (λ e. RefusesCode (line_digits number (character ∷ [])) e) }
    ensures len { vec_len digits.new ≤ vec_len digits.old + 1 }
    ensures room { vec_capacity digits.old ≤ vec_capacity digits.new }
{
    if is_blank(character) {
        return Ok(());
    }
    if hex_value(character).is_none() {
        return Err(CodeRefusal::BadHex(number));
    }
    digits.push_reserved(character);
    Ok(())
}

// Adds the digits of a line.
fn push_line(digits: &mut Vec<u8>, number: u32, line: &[u8]) -> Result<(), CodeRefusal>
    requires { vec_len digits.old + length line.now ≤ vec_capacity digits.old }
    ensures ok { OnOk result (ok_as (λ vs. digits.old.items ++ vs) (line_digits number line.now)
        ≡ Ok digits.new.items) }
    ensures refused { IfErr result (λ e. RefusesCode (line_digits number line.now) e) }
    ensures len { vec_len digits.new ≤ vec_len digits.old + length line.now }
    ensures room { vec_capacity digits.old ≤ vec_capacity digits.new }
{
    for character in line {
        push_digit(digits, number, *character)?;
    }
    Ok(())
}

// The digits of all lines, in bytes that have room for the text, and the number of lines.
fn digits_of(room: Vec<u8>, text: &[u8]) -> Result<(Vec<u8>, u32), CodeRefusal>
    requires text { length text.now ≤ input_limit }
    requires empty { vec_len room ≡ 0 }
    requires room { length text.now ≤ vec_capacity room }
    ensures digits { IfOk result (λ r. text_digits (with_numbers 1 (lines text.now)) ≡ Ok r.0.items) }
    ensures lines { IfOk result (λ r. r.1 ≡ length (lines text.now)) }
    ensures refused { IfErr result (λ e. RefusesCode (text_digits (with_numbers 1 (lines text.now))) e) }
    ensures len { IfOk result (λ r. vec_len r.0 ≤ length text.now) }
{
    let mut digits = room;
    let mut count: u32 = 0;
    let mut rest = text;
    while let Some((line, behind)) = next_line(rest) {
        count += 1;
        push_line(&mut digits, count, line)?;
        rest = behind;
    }
    Ok((digits, count))
}

// Bytes that have room for it at this length.
fn sized(room: Vec<u8>, size: usize) -> Vec<u8>
    requires { size ≤ vec_capacity room }
    ensures { vec_len result ≡ size }
{
    let mut bytes = room;
    let _sized = bytes.resize(size, 0);
    bytes
}

// The bytes that hexadecimal digits spell, in bytes that have room for them, or `None` if the number of digits is odd.
fn bytes_of(room: Vec<u8>, digits: &[u8]) -> Option<Vec<u8>>
    requires { length digits.now ≤ 2 * vec_capacity room }
    ensures { option_map (λ code. code.items) result ≡ hex_bytes digits.now }
{
    let mut code = sized(room, digits.len() / 2);
    match hex::decode_to_slice(digits, code.as_mut_slice()) {
        Ok(()) => Some(code),
        Err(_) => None,
    }
}

/// Returns the code that hexadecimal digits in either case spell, with blanks and line ends anywhere: at most
/// 8,192 bytes. It takes no memory: `digits` has room for a digit for each byte of an input, and `code` for half as many
/// bytes.
///
/// # Errors
///
/// Returns the first of these that applies: a bad character, an odd number of digits, too many bytes.
pub fn read_code(digits: Vec<u8>, code: Vec<u8>, text: &[u8]) -> Result<Vec<u8>, CodeRefusal>
    requires text { length text.now ≤ input_limit }
    requires empty { vec_len digits ≡ 0 }
    requires digits { input_limit ≤ vec_capacity digits }
    requires code { input_limit ≤ 2 * vec_capacity code }
    ensures code { IfOk result (λ v. code_text_read text.now ≡ Ok v.items) }
    ensures refused { IfErr result (λ e. RefusesCode (code_text_read text.now) e) }
    ensures short { IfOk result (λ v. vec_len v ≤ most_code) }
{
    let (digits, lines) = digits_of(digits, text)?;
    let Some(code) = bytes_of(code, digits.as_slice()) else {
        return Err(CodeRefusal::BadHex(lines));
    };
    if code.len() > MOST_CODE {
        return Err(CodeRefusal::TooLarge);
    }
    Ok(code)
}

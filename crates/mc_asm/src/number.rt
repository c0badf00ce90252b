// Numbers of operands.
ghost use Rattle.std.specs.Prelude.{◌≡◌, ◌+◌, ◌*◌, ◌<◌, ◌≤◌, ◌^◌, ℕ, Ok, Err, OnOk, IfOk, IfSome, MatchResult, option_map};
ghost use Rattle.model_text.specs.Assembly.{byte, word, hex_number, natural, number_operand, signed_operand};
ghost use Rattle.mc_asm.specs.Numbers.{FitsHalf};
ghost use Rattle.mc_text.specs.Reading.{capped_number};

use mc_text::{decimal_number, hex_value};
use model_text::AsmCause;

// The number of 1 to 4 hexadecimal digits.
fn hex_number(digits: &[u8]) -> Option<u32>
    ensures value { result ≡ hex_number digits.now }
    ensures bound { IfSome result (λ n. n < 65536) }
{
    if digits.is_empty() || digits.len() > 4 {
        return None;
    }
    let mut number: u32 = 0;
    for digit in digits {
        number = number * 16 + hex_value(*digit)? as u32;
    }
    Some(number)
}

/// Returns the number of a text without a sign, which is decimal digits, or `0x` and 1 to 4 hexadecimal ones;
/// 4,294,967,296 if it is greater. Returns `None` if the text has neither form.
pub fn natural(text: &[u8]) -> Option<u64>
    ensures { result ≡ option_map capped_number (natural text.now) }
{
    match text {
        [b'0', b'x', digits @ ..] => Some(hex_number(digits)? as u64),
        _ => decimal_number(text),
    }
}

// A number without a sign that is not above `high`.
fn number_operand(text: &[u8], high: u32) -> Result<u32, AsmCause>
    requires { high < 65536 }
    ensures value { result ≡ number_operand high text.now }
    ensures bound { IfOk result (λ n. n ≤ high) }
{
    let Some(number) = natural(text) else {
        return Err(AsmCause::BadNumber);
    };
    if number > high as u64 {
        return Err(AsmCause::OutOfRange);
    }
    Ok(number as u32)
}

/// Reads an operand of one byte.
pub fn byte(text: &[u8]) -> Result<u8, AsmCause>
    ensures { result ≡ byte text.now }
{
    Ok(number_operand(text, 0xFF)? as u8)
}

/// Reads an operand of two bytes.
pub fn word(text: &[u8]) -> Result<u16, AsmCause>
    ensures { result ≡ word text.now }
{
    Ok(number_operand(text, 0xFFFF)? as u16)
}

// A signed number from `-half` to `half - 1`.
fn signed_operand(text: &[u8], half: u32) -> Result<i32, AsmCause>
    requires low { 0 < half }
    requires high { half ≤ 32768 }
    ensures value { result ≡ signed_operand half text.now }
    ensures bound { IfOk result (λ z. FitsHalf half z) }
{
    if let [b'-', digits @ ..] = text {
        let Some(number) = decimal_number(digits) else {
            return Err(AsmCause::BadNumber);
        };
        if number > half as u64 {
            return Err(AsmCause::OutOfRange);
        }
        return Ok(-(number as i32));
    }
    let Some(number) = natural(text) else {
        return Err(AsmCause::BadNumber);
    };
    if number >= half as u64 {
        return Err(AsmCause::OutOfRange);
    }
    Ok(number as i32)
}

/// Reads an offset, a signed number of two bytes.
pub fn offset(text: &[u8]) -> Result<i16, AsmCause>
    ensures { result ≡ signed_operand 32768 text.now }
{
    Ok(signed_operand(text, 0x8000)? as i16)
}

/// Reads a displacement, a signed number of one byte.
pub fn displacement(text: &[u8]) -> Result<i8, AsmCause>
    ensures { result ≡ signed_operand 128 text.now }
{
    Ok(signed_operand(text, 0x80)? as i8)
}

// Words and numbers, and the digits of bytes.
ghost use Rattle.std.specs.Prelude.{◌≡◌, ◌<◌, ◌++◌, decimal};
ghost use Rattle.model_text.specs.Listing.{hex_digit};
ghost use Rattle.mc_text.specs.Texts.{sunk, Puts};

use itoa::Buffer;
use mc_streams::{Sink, WriteFault, put_all};

// The upper case hexadecimal digits.
const DIGITS: [u8; 16] = *b"0123456789ABCDEF";

/// Writes a piece, by one call if the sink takes it whole.
///
/// # Errors
///
/// Returns the fault of the sink if it failed; a proper prefix of the piece was written then.
pub fn put<T: Sink>(out: &mut T, text: &[u8]) -> Result<(), WriteFault>
    ensures { Puts (sunk T.Sink out.old) text.now result (sunk T.Sink out.new) }
{
    put_all(out, text)
}

/// Writes a number in decimal.
///
/// # Errors
///
/// Returns the fault of the sink if it failed; a proper prefix of the text was written then.
pub fn put_decimal<T: Sink>(out: &mut T, number: u32) -> Result<(), WriteFault>
    ensures { Puts (sunk T.Sink out.old) (decimal number) result (sunk T.Sink out.new) }
{
    let mut buffer = Buffer::new();
    put(out, buffer.format(number).as_bytes())
}

/// Writes a word and after it a number in decimal.
///
/// # Errors
///
/// Returns the fault of the sink if it failed; a proper prefix of the text was written then.
pub fn put_number<T: Sink>(out: &mut T, word: &[u8], number: u32) -> Result<(), WriteFault>
    ensures { Puts (sunk T.Sink out.old) (word.now
        ++ decimal number) result (sunk T.Sink out.new) }
{
    put(out, word)?;
    put_decimal(out, number)
}

/// Returns the upper case hexadecimal digit of a number below 16.
pub fn digit(value: u8) -> u8
    requires { value < 16 }
    ensures { result ≡ hex_digit value }
{
    DIGITS[value as usize]
}

// Appends words, numbers and bytes to a text without allocation.
ghost use Rattle.std.specs.Prelude.{◌≡◌, ◌+◌, ◌*◌, ◌≤◌, ◌++◌, length, decimal};
ghost use Rattle.arrayvec.specs.ArrayVec.{array_vec_len};
ghost use Rattle.model_text.specs.Listing.{hex_text};

use crate::pieces::digit;
use arrayvec::ArrayVec;
use itoa::Buffer;

/// Appends `piece`.
pub fn add<const N: usize>(text: &mut ArrayVec<u8, N>, piece: &[u8])
    requires { array_vec_len text.old + length piece.now ≤ N }
    ensures text { text.new.items ≡ text.old.items ++ piece.now }
    ensures length { array_vec_len text.new ≡ array_vec_len text.old + length piece.now }
{
    text.try_extend_from_slice(piece).unwrap()
}

/// Appends a number in decimal, at most ten digits.
pub fn add_decimal<const N: usize>(text: &mut ArrayVec<u8, N>, number: u32)
    requires { array_vec_len text.old + 10 ≤ N }
    ensures text { text.new.items ≡ text.old.items ++ decimal number }
    ensures short { array_vec_len text.new ≤ array_vec_len text.old + 10 }
{
    let mut buffer = Buffer::new();
    add(text, buffer.format(number).as_bytes());
}

/// Appends bytes in upper case hexadecimal.
pub fn add_hex<const N: usize>(text: &mut ArrayVec<u8, N>, bytes: &[u8])
    requires { array_vec_len text.old + 2 * length bytes.now ≤ N }
    ensures text { text.new.items ≡ text.old.items ++ hex_text bytes.now }
    ensures length { array_vec_len text.new ≡ array_vec_len text.old + 2 * length bytes.now }
{
    for byte in bytes {
        text.push(digit(*byte / 16 % 16));
        text.push(digit(*byte % 16));
    }
}

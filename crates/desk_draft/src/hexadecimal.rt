// Hexadecimal digits that are counted.
ghost use Rattle.std.specs.Prelude.{◌≡◌, length, option_map};
ghost use Rattle.mc_text.specs.model_text.specs.Text.{every, hex_bytes};
ghost use Rattle.desk_draft.specs.Views.{is_hex};

use mc_text::hex_value;

// Whether a character is a hexadecimal digit in either case.
fn is_hex(character: u8) -> bool
    ensures { result ≡ is_hex character }
{
    hex_value(character).is_some()
}

/// Whether a text has hexadecimal digits alone.
pub fn has_digits(text: &[u8]) -> bool
    ensures { result ≡ every is_hex text.now }
{
    for character in text {
        if !is_hex(*character) {
            return false;
        }
    }
    true
}

/// Returns the number of bytes that hexadecimal digits spell, or `None` if they spell none.
#[tactic(auto, using(crate::proofs::HexLemmas::count_whole, crate::proofs::HexLemmas::count_odd, crate::proofs::HexLemmas::count_bad))]
pub fn byte_count(digits: &[u8]) -> Option<usize>
    ensures { result ≡ option_map length (hex_bytes digits.now) }
{
    if !has_digits(digits) {
        return None;
    }
    if digits.len() % 2 != 0 {
        return None;
    }
    Some(digits.len() / 2)
}

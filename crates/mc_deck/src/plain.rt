// Commands as nearly all decks write them.
ghost use Rattle.std.specs.Prelude.{◌≡◌, ◌<◌, ◌∷◌, ℕ, length, Ok, Some, IfSome};
ghost use Rattle.model_play.specs.model_text.specs.Text.{fields};
ghost use Rattle.model_play.specs.DeckGrammar.{Sent, Apdu, Context, Says};
ghost use Rattle.mc_deck.specs.Readers.{line_stated};

use crate::bytes::ShortBytes;
use crate::field::{SHORT_DIGITS, short_hex_field};

// Returns the text after `apdu` and one blank, or `None` if the line does not begin so.
fn behind_word(text: &[u8]) -> Option<&[u8]>
    ensures { IfSome result (λ hex. text.now ≡ 97 ∷ 112 ∷ 100 ∷ 117 ∷ 32 ∷ hex.now) }
{
    match text {
        [b'a', b'p', b'd', b'u', b' ', hex @ ..] => Some(hex),
        _ => None,
    }
}

/// Returns the command of a line that is `apdu`, one blank and the digits of at most 16 bytes, which needs no
/// search for fields. Returns `None` for any other line, which may be a command too, or a refused one.
#[tactic(auto, using(crate::proofs::PlainLemmas::plain_stated))]
pub fn plain_command(text: &[u8]) -> Option<ShortBytes>
    ensures some { IfSome result (λ b. 0 < length b) }
    ensures value { (c : Context) (n : ℕ)
        → IfSome result (λ b. line_stated c n (fields text.now) ≡ Ok (Some (Says (Sent (Apdu b)) c))) }
{
    let hex = behind_word(text)?;
    if hex.is_empty() || hex.len() > SHORT_DIGITS {
        return None;
    }
    match short_hex_field(hex) {
        Ok(bytes) => Some(bytes),
        Err(_) => None,
    }
}

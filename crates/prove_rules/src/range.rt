// What stands between brackets, and the ends of ranges.
ghost use Rattle.std.specs.Prelude.{◌≡◌, ◌==◌, Ok, Err, option_map, MatchOption};
ghost use Rattle.mc_text.specs.model_text.specs.Text.{pieces};
ghost use Rattle.model_rule_text.specs.model_play.specs.declared.deck.DeckCause.TheVariants.{BadLine};
ghost use Rattle.model_rule_text.specs.Reading.{ends_of, register_field, static_field, Deck};
ghost use Rattle.prove_rules.specs.Fields.{two_of};

use mc_text::cut;

// The texts before and after the only character of its kind in a text, or `None` if it is not there, or twice.
#[tactic(auto, using(crate::proofs::FieldLemmas::no_cut))]
fn two_pieces(text: &[u8], character: u8) -> Option<(&[u8], &[u8])>
    ensures { option_map (λ p. (p.0.now, p.1.now)) result ≡ two_of (pieces (λ c. c == character) text.now) }
{
    let (first, rest) = cut(text, character);
    let second = rest?;
    let (_, third) = cut(second, character);
    if third.is_some() {
        return None;
    }
    Some((first, second))
}

/// Returns the register and the text in the brackets of `REG[..]`, or `None` if a text has another form.
pub fn register_field(text: &[u8]) -> Option<(&[u8], &[u8])>
    ensures { MatchOption result (register_field text.now ≡ Err (Deck BadLine))
        (λ p. register_field text.now ≡ Ok (p.0.now, p.1.now)) }
{
    let (register, rest) = two_pieces(text, b'[')?;
    let (within, after) = two_pieces(rest, b']')?;
    if !after.is_empty() {
        return None;
    }
    Some((register, within))
}

/// Returns the text in the brackets of `SB[..]`, or `None` if a text has another form.
pub fn static_field(text: &[u8]) -> Option<&[u8]>
    ensures { MatchOption result (static_field text.now ≡ Err (Deck BadLine)) (λ t. static_field text.now ≡ Ok t.now) }
{
    let (register, within) = register_field(text)?;
    if register != b"SB".as_slice() {
        return None;
    }
    Some(within)
}

/// Returns the two ends of a range `P..Q`, or `P` twice if it has no full stop; `None` if it has another form.
pub fn range_ends(text: &[u8]) -> Option<(&[u8], &[u8])>
    ensures { MatchOption result (ends_of text.now ≡ Err (Deck BadLine))
        (λ p. ends_of text.now ≡ Ok (p.0.now, p.1.now)) }
{
    let (from, rest) = cut(text, b'.');
    let Some(rest) = rest else {
        return Some((from, from));
    };
    let (middle, to) = two_pieces(rest, b'.')?;
    if !middle.is_empty() {
        return None;
    }
    Some((from, to))
}

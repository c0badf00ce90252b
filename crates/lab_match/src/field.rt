// The first field of a line, and whether a line is in a section.
ghost use Rattle.std.specs.Prelude.{◌≡◌, ◌<◌, ◌∷◌, [], false, length, IfSome, MatchOption};
ghost use Rattle.mc_text.specs.model_text.specs.Text.{fields, is_empty};
ghost use Rattle.mc_text.specs.model_text.specs.Text.{is_end};
ghost use Rattle.model_events.specs.Matching.{plain};
ghost use Rattle.mc_text.specs.model_text.specs.Text.{begins_with, stays_inside};
ghost use Rattle.lab_match.specs.Fields.{first_field, rest_of};

use mc_text::{cut_blank, trim_front};

// Returns the first field of a line, which is empty if the line has none, and the text after it.
#[tactic(auto, using(crate::proofs::FieldLemmas::trim_front_short, crate::proofs::FieldLemmas::cut_short))]
fn field_and_rest(line: &[u8]) -> (&[u8], &[u8])
    ensures field { result.0.now ≡ (first_field line.now).0 }
    ensures rest { result.1.now ≡ rest_of line.now }
    ensures shorter { 0 < length result.0.now → length result.1.now < length line.now }
{
    match cut_blank(trim_front(line)) {
        (field, Some(rest)) => (field, rest),
        (field, None) => (field, &[]),
    }
}

/// Returns the first field of a line and the text after it, or `None` if the line has no field.
#[tactic(auto, using(crate::proofs::FieldLemmas::fields_none, crate::proofs::FieldLemmas::fields_some, crate::proofs::FieldLemmas::field_bare))]
pub fn first_field(line: &[u8]) -> Option<(&[u8], &[u8])>
    ensures parts { MatchOption result (fields line.now ≡ []) (λ p. fields line.now ≡ p.0.now ∷ fields p.1.now) }
    ensures rest { IfSome result (λ p. p.1.now ≡ rest_of line.now) }
    ensures bare { IfSome result (λ p. is_empty (plain p.0.now) ≡ false) }
    ensures shorter { IfSome result (λ p. length p.1.now < length line.now) }
{
    let (field, rest) = field_and_rest(line);
    if field.is_empty() {
        return None;
    }
    Some((field, rest))
}

/// Returns whether the first field of a line is this word.
pub fn begins_with(line: &[u8], word: &[u8]) -> bool
    ensures { result ≡ begins_with word.now (fields line.now) }
{
    match first_field(line) {
        Some((field, _)) => field == word,
        None => false,
    }
}

// Whether a line ends a section.
fn is_end(line: &[u8]) -> bool
    ensures { result ≡ is_end (fields line.now) }
{
    match first_field(line) {
        Some((field, rest)) => field == b"end".as_slice() && first_field(rest).is_none(),
        None => false,
    }
}

/// Returns whether the next line is in a section, if this one is or is not.
pub fn stays_inside(inside: bool, line: &[u8]) -> bool
    ensures { result ≡ stays_inside inside (fields line.now) }
{
    if inside {
        !is_end(line)
    } else {
        begins_with(line, b"app")
    }
}

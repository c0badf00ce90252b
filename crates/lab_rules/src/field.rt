// Names and numbers in the lines of rules.
ghost use Rattle.std.specs.Prelude.{◌≡◌, Ok, Err, MatchResult};
ghost use Rattle.mc_text.specs.model_text.specs.Text.{fields};
ghost use Rattle.law_explore.specs.model_play.specs.RuleLines.{name_and_amount};
ghost use Rattle.law_explore.specs.model_play.specs.DeckGrammar.{name_field};

use lab_match::first_field;
use mc_deck::{DeckCause, number_field};
use mc_text::has_name_characters;

// Returns a name: 1 to 32 letters, digits and underscores.
fn name_field(text: &[u8]) -> Result<&[u8], DeckCause>
    ensures { MatchResult result (λ t. name_field text.now ≡ Ok t.now) (λ e. name_field text.now ≡ Err e) }
{
    if text.is_empty() || text.len() > 32 || !has_name_characters(text) {
        return Err(DeckCause::BadName);
    }
    Ok(text)
}

/// Returns the name and the amount, a decimal number up to 4,294,967,295, that are the two fields of a text.
///
/// # Errors
///
/// Returns `BadLine` if the text has another number of fields, and otherwise the cause of the first field that
/// is refused.
pub fn name_and_amount(text: &[u8]) -> Result<(&[u8], u32), DeckCause>
    ensures { MatchResult result (λ p. name_and_amount (fields text.now) ≡ Ok (p.0.now, p.1))
        (λ e. name_and_amount (fields text.now) ≡ Err e) }
{
    let Some((name, rest)) = first_field(text) else {
        return Err(DeckCause::BadLine);
    };
    let Some((amount, rest)) = first_field(rest) else {
        return Err(DeckCause::BadLine);
    };
    if first_field(rest).is_some() {
        return Err(DeckCause::BadLine);
    }
    let name = name_field(name)?;
    let amount = number_field(amount, 0, 4_294_967_295)?;
    Ok((name, amount))
}

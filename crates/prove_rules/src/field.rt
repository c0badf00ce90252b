// Names and numbers in the fields of rules.
ghost use Rattle.std.specs.Prelude.{◌≡◌, ◌∷◌, [], Ok, Err, None, IfErr, IfOk, MatchResult};
ghost use Rattle.mc_text.specs.model_text.specs.Text.{fields};
ghost use Rattle.mc_text.specs.model_text.specs.Assembly.{natural};
ghost use Rattle.model_rule_text.specs.model_play.specs.declared.deck.DeckCause.TheVariants.{BadLine, BadNumber};
ghost use Rattle.model_rule_text.specs.model_play.specs.DeckGrammar.{name_field, number_field};
ghost use Rattle.model_rule_text.specs.model_play.specs.RuleLines.{name_and_amount};
ghost use Rattle.prove_rules.specs.Fields.{two_of, IsNumber};

use lab_match::first_field;
use mc_asm::natural;
use mc_deck::{DeckCause, number_field};
use mc_text::has_name_characters;

/// Returns a name: 1 to 32 letters, digits and underscores.
///
/// # Errors
///
/// Returns `BadName` if it is none.
pub fn name_field(text: &[u8]) -> Result<&[u8], DeckCause>
    ensures value { MatchResult result (λ t. name_field text.now ≡ Ok t.now) (λ e. name_field text.now ≡ Err e) }
    ensures same { IfOk result (λ t. t.now ≡ text.now) }
{
    if text.is_empty() || text.len() > 32 || !has_name_characters(text) {
        return Err(DeckCause::BadName);
    }
    Ok(text)
}

/// Returns a decimal number up to 4,294,967,295.
///
/// # Errors
///
/// Returns `BadNumber` or `OutOfRange` if it is none.
pub fn amount_field(text: &[u8]) -> Result<u32, DeckCause>
    ensures { result ≡ number_field 0 4294967295 text.now }
{
    number_field(text, 0, 4_294_967_295)
}

/// Returns the two fields of a text.
///
/// # Errors
///
/// Returns `BadLine` if it has another number of fields.
pub fn two_fields(text: &[u8]) -> Result<(&[u8], &[u8]), DeckCause>
    ensures parts { IfOk result (λ p. fields text.now ≡ p.0.now ∷ p.1.now ∷ []) }
    ensures refused { IfErr result (λ e. name_and_amount (fields text.now) ≡ Err e) }
    ensures none { IfErr result (λ e. (e ≡ BadLine) × (two_of (fields text.now) ≡ None)) }
{
    let Some((first, rest)) = first_field(text) else {
        return Err(DeckCause::BadLine);
    };
    let Some((second, rest)) = first_field(rest) else {
        return Err(DeckCause::BadLine);
    };
    if first_field(rest).is_some() {
        return Err(DeckCause::BadLine);
    }
    Ok((first, second))
}

/// Returns the name and the amount, a decimal number up to 4,294,967,295, that are the two fields of a text.
///
/// # Errors
///
/// Returns `BadLine` if the text has another number of fields, and otherwise the cause of the first field that is refused.
pub fn name_and_amount(text: &[u8]) -> Result<(&[u8], u32), DeckCause>
    ensures { MatchResult result (λ p. name_and_amount (fields text.now) ≡ Ok (p.0.now, p.1))
        (λ e. name_and_amount (fields text.now) ≡ Err e) }
{
    let (name, amount) = two_fields(text)?;
    let name = name_field(name)?;
    let amount = amount_field(amount)?;
    Ok((name, amount))
}

/// Returns a number as assembly writes it: decimal digits, or `0x` and 1 to 4 hexadecimal ones. One above 4,294,967,296
/// counts as that.
///
/// # Errors
///
/// Returns `BadNumber` if it is none.
#[tactic(auto, using(crate::proofs::FieldLemmas::number_is, crate::proofs::FieldLemmas::no_number))]
pub fn assembly_number(text: &[u8]) -> Result<u64, DeckCause>
    ensures number { IfOk result (λ n. IsNumber (natural text.now) n) }
    ensures refused { IfErr result (λ e. (e ≡ BadNumber) × (natural text.now ≡ None)) }
{
    match natural(text) {
        Some(number) => Ok(number),
        None => Err(DeckCause::BadNumber),
    }
}

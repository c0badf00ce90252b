// The amounts of sums.
ghost use Rattle.std.specs.Prelude.{◌≡◌, ◌||◌, ℕ, Err, IfErr, IfOk, MatchOption, MatchResult, None, Ok, Option, bytes_eq, codes, drop, false, not, option_map, pos, true};
ghost use Rattle.mc_text.specs.Reading.{capped_number};
ghost use Rattle.mc_text.specs.model_text.specs.Assembly.{minus, signed_number};
ghost use Rattle.mc_text.specs.model_text.specs.Text.{begins};
ghost use Rattle.model_rule_text.specs.model_play.specs.declared.deck.DeckCause.TheVariants.{BadLine, BadNumber};
ghost use Rattle.model_rule_text.specs.Reading as reading;
ghost use Rattle.model_rule_text.specs.Reading.{amount_of_read, amount_read, form_of_amount, has_no_bracket, place_from, public_amount, Deck};
ghost use Rattle.lab_app_rules.specs.Sums.{amount_value};
ghost use Rattle.prove_rules.specs.Fields.{form_value, IsAmountRead, IsPlace, IsReadOf};

use crate::field::{amount_field, assembly_number};
use crate::range::{range_ends, register_field};
use lab_app_rules::Amount;
use mc_deck::DeckCause;
use mc_text::{cut, decimal_number};

/// The address of the public segment.
const PUBLIC: u16 = 0xC000;

/// The number of its bytes.
const PUBLIC_BYTES: u64 = 1041;

/// The form of an amount: the text of a number, or the texts of two offsets, from the beginning of the public segment or
/// from its end.
#[derive(Clone, Copy)]
pub enum AmountForm<'a> {
    Number(&'a [u8]),
    Bytes {
        beginning: bool,
        from: &'a [u8],
        to: &'a [u8],
    },
}

/// An amount whose numbers were read: a number, or two places, counted from the beginning of the public segment, `None`
/// if an offset leads to none. A place above 4,294,967,296 counts as that.
#[derive(Clone, Copy)]
pub enum AmountRead {
    Number(u32),
    Places { from: Option<u64>, to: Option<u64> },
}

// The place that is n bytes after one of the ends of the public segment: its beginning, or else its end, after which there
// is none.
fn place_after(beginning: bool, n: u64) -> Option<u64>
    ensures { (m : ℕ) → n ≡ capped_number m → result ≡ option_map capped_number (place_from beginning (pos m)) }
{
    if beginning { Some(n) } else { None }
}

// The place in the public segment that is n bytes before one of its ends.
#[tactic(auto, using(crate::proofs::PublicLemmas::before_beginning, crate::proofs::PublicLemmas::before_end))]
fn place_before(beginning: bool, n: u64) -> Option<u64>
    ensures { (m : ℕ) → n ≡ capped_number m → result ≡ option_map capped_number (place_from beginning (minus m)) }
{
    if beginning {
        return if n == 0 { Some(0) } else { None };
    }
    if n == 0 || n > PUBLIC_BYTES {
        return None;
    }
    Some(PUBLIC_BYTES - n)
}

// The text after a sign minus, or `None` if a text does not begin with it.
fn after_minus(text: &[u8]) -> Option<&[u8]>
    ensures { MatchOption result (begins 45 text.now ≡ false)
        (λ t. (begins 45 text.now ≡ true) × (t.now ≡ drop 1 text.now)) }
{
    match text {
        [b'-', digits @ ..] => Some(digits),
        _ => None,
    }
}

// The place that an offset from one of the ends of the public segment has, or `None` if it has none.
fn public_place(beginning: bool, offset: &[u8]) -> Result<Option<u64>, DeckCause>
    ensures place { IfOk result (IsPlace beginning offset.now) }
    ensures refused { IfErr result (λ e. (e ≡ BadNumber) × (signed_number offset.now ≡ None)) }
{
    match after_minus(offset) {
        Some(digits) => match decimal_number(digits) {
            Some(number) => Ok(place_before(beginning, number)),
            None => Err(DeckCause::BadNumber),
        },
        None => Ok(place_after(beginning, assembly_number(offset)?)),
    }
}

// Whether a text has an opening bracket.
fn has_bracket(text: &[u8]) -> bool
    ensures { has_no_bracket text.now ≡ not result }
{
    let (_, rest) = cut(text, b'[');
    rest.is_some()
}

// Whether offsets from a register are from the beginning of the public segment, or `None` if it is no end of it.
fn beginning_of(register: &[u8]) -> Option<bool>
    ensures { MatchOption result
        ((bytes_eq register.now (codes "PB") || bytes_eq register.now (codes "PT")) ≡ false)
        (λ b. ((bytes_eq register.now (codes "PB") || bytes_eq register.now (codes "PT")) ≡ true)
        × (bytes_eq register.now (codes "PB") ≡ b)) }
{
    match register {
        b"PB" => Some(true),
        b"PT" => Some(false),
        _ => None,
    }
}

// The form of public bytes, or `None` if a text has another form.
fn bytes_form(text: &[u8]) -> Option<AmountForm<'_>>
    ensures { MatchOption result (form_of_amount false text.now ≡ Err (Deck BadLine))
        (λ f. form_of_amount false text.now ≡ Ok (form_value f)) }
{
    let (register, within) = register_field(text)?;
    let beginning = beginning_of(register)?;
    let (from, to) = range_ends(within)?;
    Some(AmountForm::Bytes {
        beginning,
        from,
        to,
    })
}

/// Returns the form of the amount of a sum.
///
/// # Errors
///
/// Returns `BadLine` if a text has brackets and is no range of public bytes.
pub fn amount_form(text: &[u8]) -> Result<AmountForm<'_>, DeckCause>
    ensures { MatchResult result (λ f. form_of_amount (has_no_bracket text.now) text.now ≡ Ok (form_value f))
        (λ e. form_of_amount (has_no_bracket text.now) text.now ≡ Err (Deck e)) }
{
    if !has_bracket(text) {
        return Ok(AmountForm::Number(text));
    }
    match bytes_form(text) {
        Some(form) => Ok(form),
        None => Err(DeckCause::BadLine),
    }
}

/// Reads the numbers of an amount.
///
/// # Errors
///
/// Returns `BadNumber` if an offset is no number, or the cause of the number that is refused.
pub fn amount_read(form: AmountForm<'_>) -> Result<AmountRead, DeckCause>
    ensures { MatchResult result (λ r. IsAmountRead (amount_read (form_value form.entry)) r)
        (λ e. amount_read (form_value form.entry) ≡ Err (Deck e)) }
{
    match form {
        AmountForm::Number(text) => Ok(AmountRead::Number(amount_field(text)?)),
        AmountForm::Bytes {
            beginning,
            from,
            to,
        } => {
            let from = public_place(beginning, from)?;
            let to = public_place(beginning, to)?;
            Ok(AmountRead::Places { from, to })
        }
    }
}

// The amount in the public bytes from one place to another.
fn public_amount(from: Option<u64>, to: Option<u64>) -> Result<Amount, DeckCause>
    ensures { (o p : Option ℕ) → from ≡ option_map capped_number o → to ≡ option_map capped_number p
        → MatchResult result (λ m. public_amount o p ≡ Ok (amount_value m)) (λ e. public_amount o p ≡ Err (Deck e)) }
{
    let (Some(from), Some(to)) = (from, to) else {
        return Err(DeckCause::OutOfRange);
    };
    if from > to || to >= PUBLIC_BYTES {
        return Err(DeckCause::OutOfRange);
    }
    Ok(Amount::Public {
        at: PUBLIC + from as u16,
        n: (to - from + 1) as u16,
    })
}

/// Returns the amount whose numbers were read.
///
/// # Errors
///
/// Returns `OutOfRange` if its bytes are not in the public segment.
pub fn amount_of(read: AmountRead) -> Result<Amount, DeckCause>
    ensures { (r : reading.AmountRead) → IsReadOf r read
        → MatchResult result (λ m. amount_of_read r ≡ Ok (amount_value m)) (λ e. amount_of_read r ≡ Err (Deck e)) }
{
    match read {
        AmountRead::Number(number) => Ok(Amount::Number(number)),
        AmountRead::Places { from, to } => public_amount(from, to),
    }
}

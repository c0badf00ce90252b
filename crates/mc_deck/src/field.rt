// The kinds of fields.
ghost use Rattle.std.specs.Prelude.{◌≡◌, ◌+◌, ◌*◌, ◌<◌, ◌≤◌, ◌/◌, ◌^◌, length, Ok, Err, IfOk, IfErr, OnOk, MatchResult, option_map};
ghost use Rattle.model_play.specs.DeckGrammar.{aid_field, bytes_field, fill_field, hex_field, name_field, number_field};
ghost use Rattle.mc_deck.specs.Refused.{Faulty};

use crate::bytes::ShortBytes;
use crate::refusal::Fault;
use hex::FromHexError;
use mc_text::{decimal_number, has_name_characters};
use mc_words::{Aid, Word};
use model_play::DeckCause;
use std::alloc::Global;

/// The most digits of a short command.
pub const SHORT_DIGITS: usize = 32;

/// Returns a name: 1 to 32 letters, digits and underscores.
pub fn name_field(text: &[u8]) -> Result<&[u8], DeckCause>
    ensures value { MatchResult result (λ t. name_field text.now ≡ Ok t.now) (λ e. name_field text.now ≡ Err e) }
    ensures same { IfOk result (λ t. t.now ≡ text.now) }
{
    if text.is_empty() || text.len() > 32 || !has_name_characters(text) {
        return Err(DeckCause::BadName);
    }
    Ok(text)
}

/// Returns the bytes of hexadecimal digits in either case.
#[tactic(auto, using(crate::proofs::HexLemmas::spelled, crate::proofs::HexLemmas::misspelled, crate::proofs::HexLemmas::some_bytes))]
pub fn hex_field(alloc: Global, text: &[u8]) -> Result<Vec<u8>, Fault>
    ensures some { IfOk result (λ v. 0 < length text.now → 0 < length v.items) }
    ensures value { MatchResult result (λ v. hex_field text.now ≡ Ok v.items) (λ e. Faulty (hex_field text.now) e) }
{
    match hex::decode(alloc, text) {
        Ok(bytes) => Ok(bytes),
        Err(FromHexError::OutOfMemory) => Err(Fault::NoMemory),
        Err(_) => Err(Fault::Cause(DeckCause::BadHex)),
    }
}

// Writes the bytes of hexadecimal digits to `into`, which has one byte for every two digits.
fn spell(text: &[u8], into: &mut [u8]) -> Result<(), DeckCause>
    requires { length into.old ≡ length text.now / 2 }
    ensures value { MatchResult result (λ _. hex_field text.now ≡ Ok into.new) (λ e. hex_field text.now ≡ Err e) }
    ensures some { OnOk result (0 < length text.now → 0 < length into.new) }
    ensures length { length into.new ≡ length into.old }
{
    match hex::decode_to_slice(text, into) {
        Ok(()) => Ok(()),
        Err(_) => Err(DeckCause::BadHex),
    }
}

/// Returns the bytes of at most 32 hexadecimal digits in either case, without memory of the heap.
pub fn short_hex_field(text: &[u8]) -> Result<ShortBytes, DeckCause>
    requires { length text.now ≤ 32 }
    ensures some { IfOk result (λ b. 0 < length text.now → 0 < length b) }
    ensures value { MatchResult result (λ b. hex_field text.now ≡ Ok b) (λ e. hex_field text.now ≡ Err e) }
{
    let mut bytes = [0; 16];
    let len = text.len() / 2;
    spell(text, &mut bytes[..len])?;
    Ok(ShortBytes::front(bytes, len))
}

/// Returns the name of an application: 5 to 16 bytes.
pub fn aid_field(alloc: Global, text: &[u8]) -> Result<Aid, Fault>
    ensures value { MatchResult result (λ a. aid_field text.now ≡ Ok a) (λ e. Faulty (aid_field text.now) e) }
    ensures low { IfOk result (λ a. 5 ≤ length a) }
    ensures high { IfOk result (λ a. length a ≤ 16) }
{
    let bytes = hex_field(alloc, text)?;
    match Aid::new(bytes.as_slice()) {
        Some(aid) => Ok(aid),
        None => Err(Fault::Cause(DeckCause::OutOfRange)),
    }
}

/// Returns a word of eight bytes.
pub fn fill_field(alloc: Global, text: &[u8]) -> Result<Word, Fault>
    ensures { MatchResult result (λ w. fill_field text.now ≡ Ok w) (λ e. Faulty (fill_field text.now) e) }
{
    let bytes = hex_field(alloc, text)?;
    match bytes.as_slice() {
        [a, b, c, d, e, f, g, h] => Ok([*a, *b, *c, *d, *e, *f, *g, *h]),
        _ => Err(Fault::Cause(DeckCause::OutOfRange)),
    }
}

/// Returns a decimal number from `low` to `high`; leading zeros are accepted.
pub fn number_field(text: &[u8], low: u32, high: u32) -> Result<u32, DeckCause>
    ensures value { result ≡ number_field low high text.now }
    ensures low { IfOk result (λ n. low ≤ n) }
    ensures high { IfOk result (λ n. n ≤ high) }
{
    let Some(number) = decimal_number(text) else {
        return Err(DeckCause::BadNumber);
    };
    if number < low as u64 || number > high as u64 {
        return Err(DeckCause::OutOfRange);
    }
    Ok(number as u32)
}

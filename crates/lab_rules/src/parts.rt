// The parts of an `on` line: a pattern, and the word after it.
ghost use Rattle.std.specs.Prelude.{◌≡◌, option_map, MatchResult};
ghost use Rattle.model_device.specs.Bytes.{lookup};
ghost use Rattle.mc_text.specs.model_text.specs.Text.{fields};
ghost use Rattle.law_explore.specs.Rules.{effect_words, occasion_words};
ghost use Rattle.law_explore.specs.model_play.specs.RuleLines.{full_parts, parts_of};
ghost use Rattle.mc_deck.specs.Refused.{Faulty};
ghost use Rattle.lab_rules.specs.Meanings.{effect_value, occasion_value};
ghost use Rattle.lab_rules.specs.Parts.{AreFullParts};

use crate::pattern::add_plain;
use crate::rules::{Effect, Occasion};
use lab_match::first_field;
use mc_deck::{DeckCause, Fault};
use std::alloc::Global;

// Returns the occasion that a word names.
fn occasion_named(word: &[u8]) -> Option<Occasion>
    ensures { option_map occasion_value result ≡ lookup occasion_words word.now }
{
    match word {
        b"gives" => Some(Occasion::Result),
        b"turns" => Some(Occasion::Turn),
        _ => None,
    }
}

// Returns the effect that a word names.
fn effect_named(word: &[u8]) -> Option<Effect>
    ensures { option_map effect_value result ≡ lookup effect_words word.now }
{
    match word {
        b"allow" => Some(Effect::Allow),
        b"spend" => Some(Effect::Spend),
        _ => None,
    }
}

/// Returns the plain pattern before the first word that names an occasion, that occasion, and the text after
/// it.
///
/// # Errors
///
/// Returns `BadLine` if no field is such a word, or the first one is.
pub fn occasion_parts(alloc: Global, text: &[u8]) -> Result<(Vec<u8>, Occasion, &[u8]), Fault>
    ensures { MatchResult result
        (λ p. AreFullParts p.0.items (occasion_value p.1) p.2.now (full_parts (parts_of occasion_words (fields text.now))))
        (λ e. Faulty (full_parts (parts_of occasion_words (fields text.now))) e) }
{
    let mut pattern = Vec::new(alloc);
    let mut rest = text;
    while let Some((field, behind)) = first_field(rest) {
        if let Some(occasion) = occasion_named(field) {
            if pattern.is_empty() {
                return Err(Fault::Cause(DeckCause::BadLine));
            }
            return Ok((pattern, occasion, behind));
        }
        add_plain(&mut pattern, field)?;
        rest = behind;
    }
    Err(Fault::Cause(DeckCause::BadLine))
}

/// Returns the plain pattern before the first word that names an effect, that effect, and the text after it.
///
/// # Errors
///
/// Returns `BadLine` if no field is such a word, or the first one is.
pub fn effect_parts(alloc: Global, text: &[u8]) -> Result<(Vec<u8>, Effect, &[u8]), Fault>
    ensures { MatchResult result
        (λ p. AreFullParts p.0.items (effect_value p.1) p.2.now (full_parts (parts_of effect_words (fields text.now))))
        (λ e. Faulty (full_parts (parts_of effect_words (fields text.now))) e) }
{
    let mut pattern = Vec::new(alloc);
    let mut rest = text;
    while let Some((field, behind)) = first_field(rest) {
        if let Some(effect) = effect_named(field) {
            if pattern.is_empty() {
                return Err(Fault::Cause(DeckCause::BadLine));
            }
            return Ok((pattern, effect, behind));
        }
        add_plain(&mut pattern, field)?;
        rest = behind;
    }
    Err(Fault::Cause(DeckCause::BadLine))
}

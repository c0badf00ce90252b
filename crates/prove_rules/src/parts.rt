// The parts of an `on` line: a pattern, and the word after it.
ghost use Rattle.std.specs.Prelude.{◌≡◌, ◌++◌, None, Some, cond, true, option_map, IfErr, IfOk, OnOk};
ghost use Rattle.mc_words.specs.model_device.specs.Bytes.{lookup};
ghost use Rattle.mc_text.specs.model_text.specs.Text.{fields};
ghost use Rattle.model_rule_text.specs.model_events.specs.Matching.{plain};
ghost use Rattle.model_rule_text.specs.model_play.specs.RuleLines.{parts_of};
ghost use Rattle.model_rule_text.specs.Reading.{action_words, event_words, gives_words, turn_words};
ghost use Rattle.prove_rules.specs.Parts.{action_deeds, deeds_value, effect_words, event_value, HasNoParts, HasParts};

use crate::fault::{Fault, bad_line};
use lab_app_rules::Event;
use lab_match::{first_field, small};
use mc_text::is_blank;
use mc_words::NoMemory;
use prove_facts::push;
use std::alloc::Global;

/// What is done to an allowance.
#[derive(Clone, Copy, Debug, PartialEq, Eq)]
pub enum Action {
    Allow,
    Spend,
    Need,
}

/// What the word of an `on` line does: to an allowance, or to a sum, which it adds to or takes from.
#[derive(Clone, Copy, Debug, PartialEq, Eq)]
pub enum Deeds {
    OnAllowance(Action),
    OnSum(bool),
}

/// Returns the event that a word names.
pub fn event_named(word: &[u8]) -> Option<Event>
    ensures { option_map event_value result ≡ lookup event_words word.now }
{
    match word {
        b"turn" => Some(Event::Turn),
        b"command" => Some(Event::Command),
        b"answer" => Some(Event::Answer),
        b"session" => Some(Event::Session),
        _ => None,
    }
}

// What a word does to an allowance.
fn action_named(word: &[u8]) -> Option<Action>
    ensures { option_map action_deeds result ≡ lookup action_words word.now }
{
    match word {
        b"allow" => Some(Action::Allow),
        b"spend" => Some(Action::Spend),
        b"need" => Some(Action::Need),
        _ => None,
    }
}

// What a word does after a turn.
fn turn_deeds(word: &[u8]) -> Option<Deeds>
    ensures { option_map deeds_value result ≡ lookup turn_words word.now }
{
    match word {
        b"add" => Some(Deeds::OnSum(true)),
        b"take" => Some(Deeds::OnSum(false)),
        b"allow" => Some(Deeds::OnAllowance(Action::Allow)),
        b"spend" => Some(Deeds::OnAllowance(Action::Spend)),
        b"need" => Some(Deeds::OnAllowance(Action::Need)),
        _ => None,
    }
}

// What a word does, by whether it is after a turn: else none is about a sum.
fn deeds_named(of_turn: bool, word: &[u8]) -> Option<Deeds>
    ensures { option_map deeds_value result ≡ lookup (effect_words of_turn) word.now }
{
    if of_turn {
        return turn_deeds(word);
    }
    Some(Deeds::OnAllowance(action_named(word)?))
}

// Whether a word is before a result.
fn is_gives(word: &[u8]) -> bool
    ensures { cond result (Some true) None ≡ lookup gives_words word.now }
{
    matches!(word, b"gives")
}

// Appends a field, capital letters as small ones.
fn add_plain(into: &mut Vec<u8>, field: &[u8]) -> Result<(), NoMemory>
    ensures { OnOk result (into.new.items ≡ into.old.items ++ plain field.now) }
{
    for character in field {
        if !is_blank(*character) {
            push(into, small(*character))?;
        }
    }
    Ok(())
}

/// Returns the plain pattern before the first word that does something, what it does, and the text after it. Words about
/// sums do something after a turn alone.
///
/// # Errors
///
/// Returns `BadLine` if no field is such a word.
#[tactic(auto, using(crate::proofs::PartLemmas::parts_start, crate::proofs::PartLemmas::parts_found))]
pub fn effect_parts(
    alloc: Global,
    of_turn: bool,
    text: &[u8],
) -> Result<(Vec<u8>, Deeds, &[u8]), Fault>
    ensures parts { IfOk result (λ p. HasParts (parts_of (effect_words of_turn) (fields text.now)) p.0.items
        (deeds_value p.1) p.2.now) }
    ensures refused { IfErr result (HasNoParts (parts_of (effect_words of_turn) (fields text.now))) }
{
    let mut pattern = Vec::new(alloc);
    let mut rest = text;
    while let Some((field, after)) = first_field(rest) {
        if let Some(deeds) = deeds_named(of_turn, field) {
            return Ok((pattern, deeds, after));
        }
        add_plain(&mut pattern, field)?;
        rest = after;
    }
    Err(bad_line())
}

/// Returns the plain pattern before the first word `gives`, and the text after it.
///
/// # Errors
///
/// Returns `BadLine` if no field is that word.
pub fn answer_parts(alloc: Global, text: &[u8]) -> Result<(Vec<u8>, &[u8]), Fault>
    ensures parts { IfOk result (λ p. HasParts (parts_of gives_words (fields text.now)) p.0.items true p.1.now) }
    ensures refused { IfErr result (HasNoParts (parts_of gives_words (fields text.now))) }
{
    let mut pattern = Vec::new(alloc);
    let mut rest = text;
    while let Some((field, after)) = first_field(rest) {
        if is_gives(field) {
            return Ok((pattern, after));
        }
        add_plain(&mut pattern, field)?;
        rest = after;
    }
    Err(bad_line())
}

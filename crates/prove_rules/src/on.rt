// `on` lines.
ghost use Rattle.std.specs.Prelude.{◌≡◌, ℕ, List, false, true, map, IfErr, IfOk, OnOk, Some};
ghost use Rattle.mc_text.specs.model_text.specs.Text.{fields, is_empty};
ghost use Rattle.model_rule_text.specs.model_play.specs.RuleLines.{full_parts, parts_of};
ghost use Rattle.prove_facts.specs.model_rules.specs.Rules.{AppRules, AtTurn, Trigger};
ghost use Rattle.model_rule_text.specs.Reading.{bare_parts, of_deck, on_line, with_deed, with_event_line, OnAllowance, OnSum};
ghost use Rattle.lab_app_rules.specs.Rules.{deed_of, name_of};
ghost use Rattle.prove_rules.specs.Parts.{action_value, deeds_value, effect_words, event_value, HasNoParts};
ghost use Rattle.prove_rules.specs.Partials.{ArePart, ArePartRead};
ghost use Rattle.prove_rules.specs.Refused.{Faulty};
ghost use Rattle.prove_rules.specs.Ons.{result_parts, HasResult, HasWord, IsAllowanceEffect, IsEffect, IsHead, IsOnRead, IsSumEffect, IsTimely};

use crate::fault::{Fault, bad_line, refused};
use crate::field::{name_and_amount, name_field, two_fields};
use crate::partial::{Partial, named_load, place_of};
use crate::parts::{Action, Deeds, answer_parts, effect_parts, event_named};
use crate::public::{amount_form, amount_of, amount_read};
use lab_app_rules::{Effect, Event, On};
use lab_match::first_field;
use mc_deck::DeckCause;
use prove_facts::push;
use std::alloc::Global;

/// An `on` line up to its name: the pattern of the turn or the command, that of the result, what the word after it does,
/// and the rest.
#[derive(Drop)]
pub struct Head<'a> {
    pub pattern: Vec<u8>,
    pub result: Vec<u8>,
    pub deeds: Deeds,
    pub after: &'a [u8],
}

// The head of a line whose event has a result.
fn answer_head(alloc: Global, text: &[u8]) -> Result<Head<'_>, Fault>
    ensures head { IfOk result (HasResult (fields text.now)) }
    ensures refused { IfErr result (Faulty (result_parts (fields text.now))) }
{
    let (pattern, after) = answer_parts(alloc, text)?;
    if pattern.is_empty() {
        return Err(bad_line());
    }
    let (result, deeds, after) = effect_parts(alloc, false, after)?;
    if result.is_empty() {
        return Err(bad_line());
    }
    Ok(Head {
        pattern,
        result,
        deeds,
        after,
    })
}

// The head of a line whose event has no result, by whether it is a turn.
fn plain_head(alloc: Global, of_turn: bool, text: &[u8]) -> Result<Head<'_>, Fault>
    ensures head { IfOk result (HasWord of_turn (fields text.now)) }
    ensures refused { IfErr result (HasNoParts (parts_of (effect_words of_turn) (fields text.now))) }
{
    let (pattern, deeds, after) = effect_parts(alloc, of_turn, text)?;
    Ok(Head {
        pattern,
        result: Vec::new(alloc),
        deeds,
        after,
    })
}

// The head of a line about turns or commands, by which of them it is.
fn full_head(alloc: Global, of_turn: bool, text: &[u8]) -> Result<Head<'_>, Fault>
    ensures word { IfOk result (HasWord of_turn (fields text.now)) }
    ensures some { IfOk result (λ h. is_empty h.pattern.items ≡ false) }
    ensures refused { IfErr result (Faulty (of_deck (full_parts (parts_of (effect_words of_turn) (fields text.now))))) }
{
    let head = plain_head(alloc, of_turn, text)?;
    if head.pattern.is_empty() {
        return Err(bad_line());
    }
    Ok(head)
}

// The head of a line about sessions.
fn bare_head(alloc: Global, text: &[u8]) -> Result<Head<'_>, Fault>
    ensures word { IfOk result (HasWord false (fields text.now)) }
    ensures none { IfOk result (λ h. is_empty h.pattern.items ≡ true) }
    ensures refused { IfErr result (Faulty (of_deck (bare_parts (parts_of (effect_words false) (fields text.now))))) }
{
    let head = plain_head(alloc, false, text)?;
    if !head.pattern.is_empty() {
        return Err(bad_line());
    }
    Ok(head)
}

// The head of a line about an event.
#[tactic(auto, using(crate::proofs::OnLemmas::head_turn, crate::proofs::OnLemmas::head_command, crate::proofs::OnLemmas::head_answer, crate::proofs::OnLemmas::head_session))]
fn head_of(alloc: Global, event: Event, text: &[u8]) -> Result<Head<'_>, Fault>
    ensures head { IfOk result (IsHead event (fields text.now)) }
    ensures refused { IfErr result (λ e. (a : AppRules) (n : ℕ)
        → Faulty (with_event_line a n (event_value event) (fields text.now)) e) }
{
    match event {
        Event::Turn => full_head(alloc, true, text),
        Event::Command => full_head(alloc, false, text),
        Event::Answer => answer_head(alloc, text),
        Event::Session => bare_head(alloc, text),
    }
}

// What an action does with an amount.
fn with_amount(action: Action, amount: u32) -> Effect
    ensures { deed_of result ≡ Some (action_value action, amount) }
{
    match action {
        Action::Allow => Effect::Allow(amount),
        Action::Spend => Effect::Spend(amount),
        Action::Need => Effect::Need(amount),
    }
}

// The effect on an allowance, and the place of this.
fn allowance_effect(
    rules: &Partial<'_>,
    action: Action,
    text: &[u8],
) -> Result<(Effect, usize), Fault>
    ensures effect { IfOk result (λ p. IsAllowanceEffect rules.now (fields text.now) (action_value action) p.0 p.1) }
    ensures refused { IfErr result (λ e. (a : AppRules) (n : ℕ) (t : Trigger) → ArePart a rules.now
        → Faulty (with_deed a n t (OnAllowance (action_value action)) (fields text.now)) e) }
{
    let (name, amount) = name_and_amount(text)?;
    let _load = named_load(rules)?;
    let Some(place) = place_of(rules.allowances.as_slice(), name) else {
        return Err(refused(DeckCause::UnknownName));
    };
    Ok((with_amount(action, amount), place))
}

// The effect on a sum, and the place of this.
fn sum_effect(rules: &Partial<'_>, adds: bool, text: &[u8]) -> Result<(Effect, usize), Fault>
    ensures effect { IfOk result (λ p. IsSumEffect rules.now (fields text.now) adds p.0 p.1) }
    ensures refused { IfErr result (λ e. (a : AppRules) (n : ℕ) (pattern : List ℕ) → ArePart a rules.now
        → Faulty (with_deed a n (AtTurn pattern) (OnSum adds) (fields text.now)) e) }
{
    let (field, amount) = two_fields(text)?;
    let form = amount_form(amount)?;
    let name = name_field(field)?;
    let read = amount_read(form)?;
    let _load = named_load(rules)?;
    let Some(place) = place_of(rules.sums.as_slice(), name) else {
        return Err(refused(DeckCause::UnknownName));
    };
    let amount = amount_of(read)?;
    if adds {
        return Ok((Effect::Add(amount), place));
    }
    Ok((Effect::Take(amount), place))
}

// The effect of a line, and the place of its allowance or of its sum.
fn effect_of(rules: &Partial<'_>, deeds: Deeds, text: &[u8]) -> Result<(Effect, usize), Fault>
    ensures effect { IfOk result (λ p. IsEffect rules.now (fields text.now) deeds p.0 p.1) }
    ensures refused { IfErr result (λ e. (a : AppRules) (n : ℕ) (t : Trigger) → ArePart a rules.now → IsTimely t deeds
        → Faulty (with_deed a n t (deeds_value deeds) (fields text.now)) e) }
{
    match deeds {
        Deeds::OnAllowance(action) => allowance_effect(rules, action, text),
        Deeds::OnSum(adds) => sum_effect(rules, adds, text),
    }
}

// Reads an `on` line, by its number and the text after that word.
fn read_on(alloc: Global, rules: &Partial<'_>, line: u32, text: &[u8]) -> Result<On, Fault>
    ensures read { IfOk result (λ on. (a : AppRules) → ArePart a rules.now
        → IsOnRead (map name_of rules.now.allowances.items) (map name_of rules.now.sums.items) a
        (on_line a line (fields text.now)) on) }
    ensures refused { IfErr result (λ e. (a : AppRules) → ArePart a rules.now
        → Faulty (on_line a line (fields text.now)) e) }
{
    let Some((word, after)) = first_field(text) else {
        return Err(bad_line());
    };
    let Some(event) = event_named(word) else {
        return Err(bad_line());
    };
    let head = head_of(alloc, event, after)?;
    let (effect, name) = effect_of(rules, head.deeds, head.after)?;
    Ok(On {
        line,
        event,
        pattern: head.pattern,
        result: head.result,
        effect,
        name,
    })
}

/// Adds the rule of an `on` line, by its number and the text after that word.
///
/// # Errors
///
/// Returns why the line is no rule, or `NoMemory` if it is out of memory.
pub fn add_on(alloc: Global, rules: &mut Partial<'_>, line: u32, text: &[u8]) -> Result<(), Fault>
    ensures added { OnOk result ((a : AppRules) → ArePart a rules.old
        → ArePartRead (on_line a line (fields text.now)) rules.new) }
    ensures refused { IfErr result (λ e. (a : AppRules) → ArePart a rules.old
        → Faulty (on_line a line (fields text.now)) e) }
{
    let on = read_on(alloc, rules, line, text)?;
    push(&mut rules.ons, on)?;
    Ok(())
}

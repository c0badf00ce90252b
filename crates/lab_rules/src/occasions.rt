// How often the `on` lines of a deck apply to a move, and what they then do to the allowances.
ghost use Rattle.std.specs.Prelude.{◌≡◌, ◌≤◌, ◌==◌, ℕ, List, true, false, length, map, slice_index_or, IfOk};
ghost use Rattle.mc_text.specs.model_machine.specs.Chain.{Turn};
ghost use Rattle.mc_text.specs.model_text.specs.TurnText.{turn_line};
ghost use Rattle.law_explore.specs.model_play.specs.Play.{Step};
ghost use Rattle.law_explore.specs.Rules as model;
ghost use Rattle.law_explore.specs.Rules.{AtTurn};
ghost use Rattle.law_explore.specs.model_events.specs.Matching.{plain};
ghost use Rattle.law_explore.specs.Tries.{allowances_after};
ghost use Rattle.law_explore.specs.model_events.specs.Amounts.{turn_text};
ghost use Rattle.lab_rules.specs.Meanings.{effect_value, occasion_value, AlikeLists, AreRules};
ghost use Rattle.lab_rules.specs.Occasions.{amount_once, amount_times, amounts_after_rule, amounts_from, capped, counts_after, counts_with, has_turns, is_counted, is_same_occasion, row_of, AmountsAre, AreSpent, CountsMove, IsRow};

use crate::pattern::{plain, plain_into};
use crate::rules::{Effect, Move, Occasion, OnRule, Rules};
use arrayvec::ArrayVec;
use lab_match::fits;
use mc_text::cut;
use model_device::NoMemory;
use std::alloc::{AllocError, Global};

// Returns for each `on` line whether it applies to a move whose plain text is `plain`.
fn row(alloc: Global, ons: &[OnRule], plain: &[u8]) -> Result<Vec<bool>, AllocError>
    ensures { IfOk result (λ v. v.items ≡ row_of ons.now plain.now) }
{
    let mut row = Vec::new(alloc);
    for on in ons {
        row.push(fits(on.moves.as_slice(), plain))?;
    }
    Ok(row)
}

// Returns the row of each move.
fn rows(alloc: Global, moves: &[Move<'_>], ons: &[OnRule]) -> Result<Vec<Vec<bool>>, AllocError>
    ensures { IfOk result (λ v. map (λ r. r.items) v.items ≡ map (λ m. row_of ons.now (plain m.text.now)) moves.now) }
{
    let mut rows = Vec::new(alloc);
    for chosen in moves {
        let text = plain(alloc, chosen.text)?;
        let row = row(alloc, ons, text.as_slice())?;
        rows.push(row)?;
    }
    Ok(rows)
}

/// Returns for each move of rules a row: for each of their `on` lines whether it applies to the move.
///
/// # Errors
///
/// Returns `NoMemory` if it is out of memory.
pub fn applications(alloc: Global, rules: &Rules<'_>) -> Result<Vec<Vec<bool>>, NoMemory>
    ensures { IfOk result (λ v. (r : model.Rules) → AreRules rules.now r
        → AlikeLists (IsRow r.ons) v.items r.moves) }
{
    Ok(rows(alloc, rules.moves.as_slice(), rules.ons.as_slice())?)
}

// Whether the `on` line with an index applies.
fn applies_at(applies: &[bool], i: usize) -> bool
    ensures { result ≡ slice_index_or applies.now i false }
{
    i < applies.len() && applies[i]
}

// Whether an `on` line is about an occasion.
fn is_about(on: &OnRule, occasion: Occasion) -> bool
    ensures { result ≡ is_same_occasion (occasion_value on.now.occasion) (occasion_value occasion) }
{
    on.occasion == occasion
}

// Whether an `on` line counts an occasion whose plain text is `plain`, by whether the line applies.
fn is_counted(on: &OnRule, applies: bool, occasion: Occasion, plain: &[u8]) -> bool
    ensures { result ≡ is_counted (occasion_value occasion) plain.now on.now applies }
{
    applies && is_about(on, occasion) && fits(on.pattern.as_slice(), plain)
}

// Adds one to the count with an index if an occasion counts. Without such a count nothing is added.
fn count_at(counts: &mut [u64], i: usize, counted: bool)
    ensures { counts.new ≡ counts_with counted i counts.old }
{
    if counted && i < counts.len() {
        counts[i] = counts[i].saturating_add(1);
    }
}

/// Counts an occasion whose plain text is `plain` for each `on` line that applies and whose pattern fits it.
pub fn count(ons: &[OnRule], applies: &[bool], occasion: Occasion, plain: &[u8], counts: &mut [u64])
    ensures { counts.new ≡ counts_after (occasion_value occasion) plain.now ons.now applies.now counts.old }
{
    for (i, on) in ons.iter().enumerate() {
        let counted = is_counted(on, applies_at(applies, i), occasion, plain);
        count_at(counts, i, counted);
    }
}

// Returns the text of an executed instruction: its line without the `>` and without the line feed.
#[tactic(auto, using(lab_match::proofs::FieldLemmas::cut_short))]
fn turn_text(line: &[u8]) -> &[u8]
    ensures text { (t : Turn) → line.now ≡ turn_line t → result.now ≡ turn_text t }
    ensures short { length result.now ≤ length line.now }
{
    match cut(line, b'\n').0 {
        [_, text @ ..] => text,
        [] => &[],
    }
}

/// Counts an executed instruction, by its line of a trace with its line feed, which has at most 96 characters,
/// for each `on` line that applies, counts instructions and has a pattern that fits it.
pub fn count_turn(ons: &[OnRule], applies: &[bool], line: &[u8], counts: &mut [u64])
    requires { length line.now ≤ 96 }
    ensures { (t : Turn) → line.now ≡ turn_line t
        → counts.new ≡ counts_after AtTurn (plain (turn_text t)) ons.now applies.now counts.old }
{
    let mut plain = ArrayVec::<u8, 96>::new();
    plain_into(&mut plain, turn_text(line));
    count(ons, applies, Occasion::Turn, plain.as_slice(), counts);
}

/// Returns whether an `on` line that applies counts executed instructions.
pub fn has_turns(ons: &[OnRule], applies: &[bool]) -> bool
    ensures { result ≡ has_turns ons.now applies.now }
{
    for (i, on) in ons.iter().enumerate() {
        if applies_at(applies, i) && is_about(on, Occasion::Turn) {
            return true;
        }
    }
    false
}

// Returns an amount after the effect of an `on` line, or `None` if it is spent below zero.
fn amount_once(on: &OnRule, amount: u32) -> Option<u32>
    ensures { result ≡ amount_once (effect_value on.now.effect) on.now.amount amount }
{
    match on.effect {
        Effect::Allow => Some(on.amount),
        Effect::Spend => amount.checked_sub(on.amount),
    }
}

// Returns an amount after the effect of an `on` line `count` times, or `None` if it is spent below zero. A count at its
// last value is any number from that value on.
fn amount_times(on: &OnRule, count: u64, amount: u32) -> Option<u32>
    ensures { (n : ℕ) → count ≡ capped n → result ≡ amount_times n (effect_value on.now.effect) on.now.amount amount }
{
    let mut left = amount;
    for _time in 0..count {
        match amount_once(on, left) {
            Some(next) => left = next,
            None => return None,
        }
    }
    Some(left)
}

// Does to the amount of the allowance of an `on` line what the line says, `count` times. Returns the place of the
// allowance if it is spent below zero, or else `None`.
fn apply(on: &OnRule, count: u64, amounts: &mut [u32]) -> Option<usize>
    ensures { (n : ℕ) → count ≡ capped n → AmountsAre result amounts.new (amounts_after_rule n on.now amounts.old) }
{
    let place = on.allowance;
    if place >= amounts.len() {
        return None;
    }
    match amount_times(on, count, amounts[place]) {
        Some(left) => {
            amounts[place] = left;
            None
        }
        None => Some(place),
    }
}

// The count with an index, 0 if there is none.
fn count_of(counts: &[u64], i: usize) -> u64
    ensures { result ≡ slice_index_or counts.now i 0 }
{
    if i < counts.len() { counts[i] } else { 0 }
}

// Does to the amounts of the allowances what the `on` lines say, each as many times as it was counted, in order.
// Returns the place of the allowance that is spent below zero, or `None` if none is.
fn apply_each(ons: &[OnRule], counts: &[u64], amounts: &mut [u32]) -> Option<usize>
    ensures { (ns : List ℕ) → counts.now ≡ map capped ns
        → AmountsAre result amounts.new (amounts_from 0 ons.now ns amounts.old) }
{
    for (i, on) in ons.iter().enumerate() {
        if let Some(place) = apply(on, count_of(counts, i), amounts) {
            return Some(place);
        }
    }
    None
}

/// Does to the amounts of the allowances what the `on` lines say, each as many times as it was counted, in order.
/// Returns the place of the allowance that is spent below zero, or `None` if none is. In the first case the amounts
/// are unspecified.
pub fn apply_all(ons: &[OnRule], counts: &[u64], amounts: &mut [u32]) -> Option<usize>
    ensures { (held a : List (List ℕ × ℕ)) (rules : List model.OnRule) (m : model.Move) (t : Step)
        → CountsMove held a rules m t ons.now counts.now amounts.old
        → AreSpent held result amounts.new (allowances_after rules m t a) }
{
    apply_each(ons, counts, amounts)
}

// The line that names the application, and the lines of allowances, sums and abends.
ghost use Rattle.std.specs.Prelude.{◌≡◌, ◌≤◌, ◌∷◌, [], ℕ, List, None, Ok, length, IfErr, IfOk, MatchOption, OnOk};
ghost use Rattle.mc_text.specs.model_text.specs.Text.{fields, lines};
ghost use Rattle.model_rule_text.specs.model_play.specs.DeckGrammar.{deck_read};
ghost use Rattle.prove_facts.specs.model_rules.specs.Rules.{AppRules};
ghost use Rattle.model_rule_text.specs.Reading.{app_rule, AllowLine, AppLine, LoadLine, NeverLine, SumWord};
ghost use Rattle.prove_rules.specs.Loads.{is_accepted, loads_in};
ghost use Rattle.prove_rules.specs.Apps.{one_of, IsAppRead};
ghost use Rattle.prove_rules.specs.Partials.{ArePart, ArePartRead, HasFault, IsMoreNamed};
ghost use Rattle.prove_rules.specs.Refused.{Faulty};

use crate::fault::{Fault, bad_line, refused};
use crate::field::{name_and_amount, name_field};
use crate::lines::code_lines;
use crate::load::{Found, load_of};
use crate::partial::{Partial, named_load, place_of};
use lab_app_rules::{Load, Named};
use lab_match::first_field;
use mc_deck::{Deck, DeckCause};
use prove_facts::push;
use std::alloc::Global;

/// A deck and its text.
#[derive(Clone, Copy)]
pub struct Source<'a> {
    pub deck: &'a Deck,
    pub text: &'a [u8],
}

// Whether the card accepts the sizes of an application.
fn is_accepted(load: &Load<'_>) -> bool
    ensures { result ≡ is_accepted load.now }
{
    load.fixed <= 4096 && load.data.len() <= load.fixed as usize && load.session <= 256
}

// The only field of a text.
fn one_field(text: &[u8]) -> Option<&[u8]>
    ensures { MatchOption result (one_of (fields text.now) ≡ None) (λ t. fields text.now ≡ t.now ∷ []) }
{
    let (field, rest) = first_field(text)?;
    if first_field(rest).is_some() {
        return None;
    }
    Some(field)
}

// The application that an `app` line names, by the text after that word.
fn read_app<'a, 't>(
    source: &Source<'a>,
    rules: &Partial<'a>,
    text: &'t [u8],
) -> Result<(&'t [u8], Found<'a>), Fault>
    requires few { length (lines source.now.text.now) ≤ 20000 }
    requires deck { deck_read source.now.text.now ≡ Ok source.now.deck.now }
    ensures read { IfOk result (λ p. IsAppRead (loads_in source.now.text.now source.now.deck.now) rules.now
        (fields text.now) p.1) }
    ensures refused { IfErr result (λ e. (a : AppRules) (n : ℕ) → ArePart a rules.now
        → Faulty (app_rule (loads_in source.now.text.now source.now.deck.now) a n AppLine (fields text.now)) e) }
{
    let Some(field) = one_field(text) else {
        return Err(bad_line());
    };
    let name = name_field(field)?;
    if rules.load.is_some() {
        return Err(refused(DeckCause::NameTwice));
    }
    let Some(found) = load_of(source.deck, source.text, name) else {
        return Err(refused(DeckCause::UnknownName));
    };
    if !is_accepted(&found.load) {
        return Err(refused(DeckCause::OutOfRange));
    }
    Ok((name, found))
}

/// Adds the application that an `app` line names, by the text after that word.
///
/// # Errors
///
/// Returns why the line is no rule, or `NoMemory` if it is out of memory.
pub fn add_app<'a>(
    alloc: Global,
    source: &Source<'a>,
    rules: &mut Partial<'a>,
    text: &[u8],
) -> Result<(), Fault>
    requires few { length (lines source.now.text.now) ≤ 20000 }
    requires deck { deck_read source.now.text.now ≡ Ok source.now.deck.now }
    ensures added { OnOk result ((a : AppRules) (n : ℕ) → ArePart a rules.old
        → ArePartRead (app_rule (loads_in source.now.text.now source.now.deck.now) a n AppLine (fields text.now))
        rules.new) }
    ensures refused { IfErr result (λ e. (a : AppRules) (n : ℕ) → ArePart a rules.old
        → Faulty (app_rule (loads_in source.now.text.now source.now.deck.now) a n AppLine (fields text.now)) e) }
{
    match read_app(source, rules, text) {
        Ok((name, found)) => {
            rules.code_lines = code_lines(alloc, source.text, name)?;
            rules.load = Some(found);
            Ok(())
        }
        Err(fault) => Err(fault),
    }
}

// Adds an allowance or a sum.
fn add_named<'a>(list: &mut Vec<Named<'a>>, text: &'a [u8]) -> Result<(), Fault>
    ensures more { OnOk result (IsMoreNamed list.old.items (fields text.now) list.new.items) }
    ensures refused { IfErr result (HasFault list.old.items (fields text.now)) }
{
    let (name, amount) = name_and_amount(text)?;
    if place_of(list.as_slice(), name).is_some() {
        return Err(refused(DeckCause::NameTwice));
    }
    push(list, Named { name, amount })?;
    Ok(())
}

/// Adds the allowance of an `allow` line, by the text after that word.
///
/// # Errors
///
/// Returns why the line is no rule, or `NoMemory` if it is out of memory.
pub fn add_allowance<'a>(rules: &mut Partial<'a>, text: &'a [u8]) -> Result<(), Fault>
    ensures added { OnOk result ((loads : List (List ℕ × LoadLine)) (a : AppRules) (n : ℕ) → ArePart a rules.old
        → ArePartRead (app_rule loads a n AllowLine (fields text.now)) rules.new) }
    ensures refused { IfErr result (λ e. (loads : List (List ℕ × LoadLine)) (a : AppRules) (n : ℕ)
        → ArePart a rules.old → Faulty (app_rule loads a n AllowLine (fields text.now)) e) }
{
    add_named(&mut rules.allowances, text)
}

/// Adds the sum of a `sum` line, by the text after that word.
///
/// # Errors
///
/// Returns why the line is no rule, or `NoMemory` if it is out of memory.
pub fn add_sum<'a>(rules: &mut Partial<'a>, text: &'a [u8]) -> Result<(), Fault>
    ensures added { OnOk result ((loads : List (List ℕ × LoadLine)) (a : AppRules) (n : ℕ) → ArePart a rules.old
        → ArePartRead (app_rule loads a n SumWord (fields text.now)) rules.new) }
    ensures refused { IfErr result (λ e. (loads : List (List ℕ × LoadLine)) (a : AppRules) (n : ℕ)
        → ArePart a rules.old → Faulty (app_rule loads a n SumWord (fields text.now)) e) }
{
    add_named(&mut rules.sums, text)
}

/// Adds the rule of a `never` line, by its number and the text after that word.
///
/// # Errors
///
/// Returns why the line is no rule.
pub fn add_never(rules: &mut Partial<'_>, line: u32, text: &[u8]) -> Result<(), Fault>
    ensures added { OnOk result ((loads : List (List ℕ × LoadLine)) (a : AppRules) → ArePart a rules.old
        → ArePartRead (app_rule loads a line NeverLine (fields text.now)) rules.new) }
    ensures refused { IfErr result (λ e. (loads : List (List ℕ × LoadLine)) (a : AppRules) → ArePart a rules.old
        → Faulty (app_rule loads a line NeverLine (fields text.now)) e) }
{
    let Some(word) = one_field(text) else {
        return Err(bad_line());
    };
    if word != b"abend".as_slice() {
        return Err(bad_line());
    }
    let _load = named_load(rules)?;
    if rules.never.is_none() {
        rules.never = Some(line);
    }
    Ok(())
}

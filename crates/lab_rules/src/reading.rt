// The rules of a deck, read from its comments that begin with `#@`.
ghost use Rattle.std.specs.Prelude.{◌≡◌, ◌≤◌, ℕ, List, false, true, is_some, length, option_map, Ok, IfErr, IfOk, MatchResult, OnOk};
ghost use Rattle.model_device.specs.Bytes.{lookup};
ghost use Rattle.mc_text.specs.model_text.specs.Text.{fields, lines, trim};
ghost use Rattle.law_explore.specs.Rules as model;
ghost use Rattle.law_explore.specs.Rules.{exploration_read, move_line, move_words, rule_words, rules_read, with_rule, AllowWord, MoveWord, OnWord};
ghost use Rattle.law_explore.specs.model_play.specs.RuleLines.{is_marked};
ghost use Rattle.law_explore.specs.model_play.specs.declared.deck.DeckCause.TheVariants.{BadLine};
ghost use Rattle.mc_deck.specs.declared.refusal.Fault.TheVariants.{Cause};
ghost use Rattle.mc_deck.specs.Refused.{DeckRefuses, Faulty};
ghost use Rattle.lab_rules.specs.Fields.{is_move, IsOneLine};
ghost use Rattle.lab_rules.specs.Meanings.{allowance_values, is_plain_mark, kind_value, on_of, refusal_at, rule_of, rules_with};
ghost use Rattle.lab_rules.specs.Moves.{IsMoveDeck};
ghost use Rattle.lab_rules.specs.Meanings.{AreRules, AreRulesRead, IsExplorationRead, IsOnRead, IsRuleText, RefusesExploration};

use crate::field::name_and_amount;
use crate::parts::{effect_parts, occasion_parts};
use crate::refusal::{ExplorationRefusal, line_refusal};
use crate::rules::{Allowance, Move, OnRule, Rules};
use lab_match::{first_field, stays_inside};
use mc_deck::{Deck, DeckCause, DeckRefusal, Fault, read_deck};
use mc_text::{next_line, trim};
use std::alloc::Global;

/// A deck and its rules.
#[derive(Drop)]
pub struct Exploration<'a> {
    pub deck: Deck,
    pub rules: Rules<'a>,
}

/// What the word of a rule makes of its line: a move, an allowance, or what a move does to an allowance.
#[derive(Clone, Copy, Debug, PartialEq, Eq)]
pub enum Kind {
    Move,
    Allow,
    On,
}

// Whether a word begins a statement that can be a move.
fn is_move_word(word: &[u8]) -> bool
    ensures { result ≡ is_some (lookup move_words word.now) }
{
    matches!(word, b"power" | b"select" | b"delete" | b"apdu")
}

// Whether a statement can be a move.
fn is_move(statement: &[u8]) -> bool
    ensures { result ≡ is_move (fields statement.now) }
{
    match first_field(statement) {
        Some((word, _)) => is_move_word(word),
        None => false,
    }
}

// Reads the deck of a `power` line and a statement that can be a move, which is a line without a line feed.
fn move_deck(alloc: Global, statement: &[u8]) -> Result<Deck, Fault>
    requires line { IsOneLine statement.now }
    requires word { is_move (fields statement.now) ≡ true }
    ensures { (n : ℕ) → MatchResult result (λ d. IsMoveDeck d (move_line n (fields statement.now)))
        (λ e. Faulty (move_line n (fields statement.now)) e) }
{
    let mut text = Vec::from_slice(alloc, b"power\n")?;
    text.extend_from_slice(statement)?;
    match read_deck(alloc, text.as_slice()) {
        Ok(deck) => Ok(deck),
        Err(DeckRefusal::At(_, cause)) => Err(Fault::Cause(cause)),
        Err(DeckRefusal::NoMemory) => Err(Fault::NoMemory),
    }
}

// Adds the move of a statement.
fn add_move<'a>(alloc: Global, rules: &mut Rules<'a>, statement: &'a [u8]) -> Result<(), Fault>
    requires { IsOneLine statement.now }
    ensures added { OnOk result ((r : model.Rules) (n : ℕ) → AreRules rules.old r
        → AreRulesRead rules.new (with_rule r n statement.now MoveWord (fields statement.now))) }
    ensures refused { IfErr result (λ e. (r : model.Rules) (n : ℕ) → AreRules rules.old r
        → Faulty (with_rule r n statement.now MoveWord (fields statement.now)) e) }
{
    if !is_move(statement) {
        return Err(Fault::Cause(DeckCause::BadLine));
    }
    let deck = match move_deck(alloc, statement) {
        Ok(deck) => deck,
        Err(fault) => return Err(fault),
    };
    let added = Move {
        text: statement,
        deck,
    };
    let Ok(()) = rules.moves.push(added) else {
        return Err(Fault::NoMemory);
    };
    Ok(())
}

// Adds the allowance of an `allow` line, by the text after that word.
fn add_allowance<'a>(rules: &mut Rules<'a>, text: &'a [u8]) -> Result<(), Fault>
    ensures added { OnOk result ((r : model.Rules) (n : ℕ) (statement : List ℕ) → AreRules rules.old r
        → AreRulesRead rules.new (with_rule r n statement AllowWord (fields text.now))) }
    ensures refused { IfErr result (λ e. (r : model.Rules) (n : ℕ) (statement : List ℕ) → AreRules rules.old r
        → Faulty (with_rule r n statement AllowWord (fields text.now)) e) }
{
    let (name, amount) = match name_and_amount(text) {
        Ok(fields) => fields,
        Err(cause) => return Err(Fault::Cause(cause)),
    };
    if rules.allowance_named(name).is_some() {
        return Err(Fault::Cause(DeckCause::NameTwice));
    }
    let Ok(()) = rules.allowances.push(Allowance { name, amount }) else {
        return Err(Fault::NoMemory);
    };
    Ok(())
}

// Reads an `on` line, by its number and the text after that word.
fn on_rule(alloc: Global, rules: &Rules<'_>, number: u32, text: &[u8]) -> Result<OnRule, Fault>
    ensures { MatchResult result
        (λ o. IsOnRead (allowance_values rules.now.allowances.items) o
        (on_of number (allowance_values rules.now.allowances.items) (fields text.now)))
        (λ e. Faulty (on_of number (allowance_values rules.now.allowances.items) (fields text.now)) e) }
{
    let (moves, occasion, behind) = match occasion_parts(alloc, text) {
        Ok(parts) => parts,
        Err(fault) => return Err(fault),
    };
    let (pattern, effect, behind) = match effect_parts(alloc, behind) {
        Ok(parts) => parts,
        Err(fault) => return Err(fault),
    };
    let (name, amount) = match name_and_amount(behind) {
        Ok(fields) => fields,
        Err(cause) => return Err(Fault::Cause(cause)),
    };
    let Some(allowance) = rules.allowance_named(name) else {
        return Err(Fault::Cause(DeckCause::UnknownName));
    };
    Ok(OnRule {
        line: number,
        moves,
        occasion,
        pattern,
        effect,
        allowance,
        amount,
    })
}

// Adds the rule of an `on` line, by its number and the text after that word.
fn add_on(alloc: Global, rules: &mut Rules<'_>, number: u32, text: &[u8]) -> Result<(), Fault>
    ensures added { OnOk result ((r : model.Rules) (statement : List ℕ) → AreRules rules.old r
        → AreRulesRead rules.new (with_rule r number statement OnWord (fields text.now))) }
    ensures refused { IfErr result (λ e. (r : model.Rules) (statement : List ℕ) → AreRules rules.old r
        → Faulty (with_rule r number statement OnWord (fields text.now)) e) }
{
    let rule = match on_rule(alloc, rules, number, text) {
        Ok(rule) => rule,
        Err(fault) => return Err(fault),
    };
    let Ok(()) = rules.ons.push(rule) else {
        return Err(Fault::NoMemory);
    };
    Ok(())
}

// Returns what a word makes of a rule.
fn kind_named(word: &[u8]) -> Option<Kind>
    ensures { option_map kind_value result ≡ lookup rule_words word.now }
{
    match word {
        b"move" => Some(Kind::Move),
        b"allow" => Some(Kind::Allow),
        b"on" => Some(Kind::On),
        _ => None,
    }
}

// Adds a rule of this kind, by the number of its line and the text after its word.
#[tactic(auto, using(crate::proofs::FieldLemmas::one_line_trim, lab_match::proofs::FieldLemmas::fields_trimmed))]
fn add_kind<'a>(
    alloc: Global,
    rules: &mut Rules<'a>,
    kind: Kind,
    number: u32,
    text: &'a [u8],
) -> Result<(), Fault>
    requires { IsOneLine text.now }
    ensures added { OnOk result ((r : model.Rules) → AreRules rules.old r
        → AreRulesRead rules.new (with_rule r number (trim text.now) (kind_value kind) (fields text.now))) }
    ensures refused { IfErr result (λ e. (r : model.Rules) → AreRules rules.old r
        → Faulty (with_rule r number (trim text.now) (kind_value kind) (fields text.now)) e) }
{
    match kind {
        Kind::Move => add_move(alloc, rules, trim(text)),
        Kind::Allow => add_allowance(rules, text),
        Kind::On => add_on(alloc, rules, number, text),
    }
}

// Adds the rule of a line, by its number and the text after `#@`.
fn add_rule<'a>(
    alloc: Global,
    rules: &mut Rules<'a>,
    number: u32,
    text: &'a [u8],
) -> Result<(), Fault>
    requires { IsOneLine text.now }
    ensures added { OnOk result ((r : model.Rules) → AreRules rules.old r
        → AreRulesRead rules.new (rule_of r number text.now (fields text.now))) }
    ensures refused { IfErr result (λ e. (r : model.Rules) → AreRules rules.old r
        → Faulty (rule_of r number text.now (fields text.now)) e) }
{
    let Some((word, behind)) = first_field(text) else {
        return Err(Fault::Cause(DeckCause::BadLine));
    };
    let Some(kind) = kind_named(word) else {
        return Err(Fault::Cause(DeckCause::BadLine));
    };
    add_kind(alloc, rules, kind, number, behind)
}

// Whether a line begins with `#@`, after the blanks in front of it.
fn is_marked(line: &[u8]) -> bool
    ensures { result ≡ is_marked (fields line.now) }
{
    match first_field(line) {
        Some(([b'#', b'@', ..], _)) => true,
        _ => false,
    }
}

// Returns the text of a rule, after the `#@` of its line and without the blanks around it.
//
// # Errors
//
// Returns `BadLine` if the first field of the line is longer.
fn rule_text(line: &[u8]) -> Result<&[u8], Fault>
    requires one { IsOneLine line.now }
    requires marked { is_marked (fields line.now) ≡ true }
    ensures text { IfOk result (λ t. IsRuleText false line.now t.now) }
    ensures refused { IfErr result (λ e. (e ≡ Cause BadLine) × (is_plain_mark (fields line.now) ≡ false)) }
{
    let Some((mark, behind)) = first_field(line) else {
        return Err(Fault::Cause(DeckCause::BadLine));
    };
    if mark != b"#@".as_slice() {
        return Err(Fault::Cause(DeckCause::BadLine));
    }
    Ok(trim(behind))
}

/// Adds the rule of a line of a deck, if it is one, by whether it is in a section.
///
/// # Errors
///
/// Returns why the line is no rule, or `NoMemory` if it is out of memory.
pub fn add_line<'a>(
    alloc: Global,
    rules: &mut Rules<'a>,
    inside: bool,
    number: u32,
    line: &'a [u8],
) -> Result<(), Fault>
    requires { IsOneLine line.now }
    ensures added { OnOk result ((r : model.Rules) → AreRules rules.old r
        → AreRulesRead rules.new (rules_with inside (number, line.now) r)) }
    ensures refused { IfErr result (λ e. (r : model.Rules) → AreRules rules.old r
        → Faulty (rules_with inside (number, line.now) r) e) }
{
    if inside || !is_marked(line) {
        return Ok(());
    }
    let text = match rule_text(line) {
        Ok(text) => text,
        Err(fault) => return Err(fault),
    };
    add_rule(alloc, rules, number, text)
}

/// Returns the refusal of a line that is no rule.
pub fn refusal_at(number: u32, fault: Fault) -> DeckRefusal
    ensures { result ≡ refusal_at number fault }
{
    match fault {
        Fault::Cause(cause) => DeckRefusal::At(number, cause),
        Fault::NoMemory => DeckRefusal::NoMemory,
    }
}

// Reads the rules of a text of at most 20,000 lines.
fn read_rules(alloc: Global, text: &[u8]) -> Result<Rules<'_>, DeckRefusal>
    requires { length (lines text.now) ≤ 20000 }
    ensures read { IfOk result (λ c. AreRulesRead c (rules_read text.now)) }
    ensures refused { IfErr result (λ e. DeckRefuses (rules_read text.now) e) }
{
    let mut rules = Rules {
        moves: Vec::new(alloc),
        allowances: Vec::new(alloc),
        ons: Vec::new(alloc),
    };
    let mut inside = false;
    let mut number: u32 = 0;
    let mut rest = text;
    while let Some((line, behind)) = next_line(rest) {
        number += 1;
        match add_line(alloc, &mut rules, inside, number, line) {
            Ok(()) => {}
            Err(fault) => return Err(refusal_at(number, fault)),
        }
        inside = stays_inside(inside, line);
        rest = behind;
    }
    Ok(rules)
}

/// Reads a deck and its rules: its comments whose first field is `#@`. A line inside a section is assembly.
///
/// # Errors
///
/// Returns the refusal of the deck, or else that of the first line that is no rule; or else `NoMove` if no line is a
/// move, and `NoRule` if none is an `on` line; or `NoMemory` if it is out of memory.
pub fn read_exploration(alloc: Global, text: &[u8]) -> Result<Exploration<'_>, ExplorationRefusal>
    ensures read { IfOk result (λ x. IsExplorationRead x (exploration_read text.now)) }
    ensures refused { IfErr result (λ e. RefusesExploration (exploration_read text.now) e) }
{
    let deck = match read_deck(alloc, text) {
        Ok(deck) => deck,
        Err(refusal) => return Err(line_refusal(refusal)),
    };
    let rules = match read_rules(alloc, text) {
        Ok(rules) => rules,
        Err(refusal) => return Err(line_refusal(refusal)),
    };
    if rules.moves.is_empty() {
        return Err(ExplorationRefusal::NoMove);
    }
    if rules.ons.is_empty() {
        return Err(ExplorationRefusal::NoRule);
    }
    Ok(Exploration { deck, rules })
}

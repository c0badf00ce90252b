// The rules of a deck for one application, line by line.
ghost use Rattle.std.specs.Prelude.{◌≡◌, ◌≤◌, ◌∷◌, codes, false, length, option_map, true, IfErr, IfOk, MatchOption, None, Ok, OnOk};
ghost use Rattle.mc_words.specs.model_device.specs.Bytes.{lookup};
ghost use Rattle.mc_text.specs.model_text.specs.Text.{fields, lines};
ghost use Rattle.model_rule_text.specs.model_play.specs.DeckGrammar.{deck_read};
ghost use Rattle.model_rule_text.specs.model_play.specs.RuleLines.{is_marked};
ghost use Rattle.prove_facts.specs.model_rules.specs.Rules.{no_app_rules, AppRules, Target};
ghost use Rattle.model_rule_text.specs.Reading.{app_rule, app_rules_read, app_words};
ghost use Rattle.lab_app_rules.specs.Rules.{AreRules};
ghost use Rattle.prove_rules.specs.declared.fault.RuleCause.TheVariants.{NoApplication};
ghost use Rattle.prove_rules.specs.declared.fault.RuleRefusal.TheVariants.{At};
ghost use Rattle.prove_rules.specs.Lines.{is_plain_mark, kind_value, lines_read, rule_of, rules_with};
ghost use Rattle.prove_rules.specs.Loads.{loads_in};
ghost use Rattle.prove_rules.specs.Partials.{ArePart, ArePartRead, IsFinished};
ghost use Rattle.prove_rules.specs.Refused.{refusal_at, Faulty, RefusesRules};
ghost use Rattle.lab_app_rules.specs.Sums.{AreSums};

use crate::always::add_always;
use crate::app::{Source, add_allowance, add_app, add_never, add_sum};
use crate::fault::{Fault, RuleCause, RuleRefusal, bad_line};
use crate::on::add_on;
use crate::partial::Partial;
use lab_app_rules::Rules;
use lab_match::{first_field, stays_inside};
use mc_deck::Deck;
use mc_text::next_line;
use mc_words::Aid;
use std::alloc::Global;

/// What the word of a rule makes of its line.
#[derive(Clone, Copy, Debug, PartialEq, Eq)]
pub enum Kind {
    App,
    Allow,
    Sum,
    On,
    Never,
    Always,
    Move,
}

// What a word makes of a rule.
fn kind_named(word: &[u8]) -> Option<Kind>
    ensures { option_map kind_value result ≡ lookup app_words word.now }
{
    match word {
        b"app" => Some(Kind::App),
        b"allow" => Some(Kind::Allow),
        b"sum" => Some(Kind::Sum),
        b"on" => Some(Kind::On),
        b"never" => Some(Kind::Never),
        b"always" => Some(Kind::Always),
        b"move" => Some(Kind::Move),
        _ => None,
    }
}

// Adds a rule of this kind, by the number of its line and the text after its word.
fn add_kind<'a>(
    alloc: Global,
    source: &Source<'a>,
    rules: &mut Partial<'a>,
    kind: Kind,
    line: u32,
    text: &'a [u8],
) -> Result<(), Fault>
    requires few { length (lines source.now.text.now) ≤ 20000 }
    requires deck { deck_read source.now.text.now ≡ Ok source.now.deck.now }
    ensures added { OnOk result ((a : AppRules) → ArePart a rules.old
        → ArePartRead (app_rule (loads_in source.now.text.now source.now.deck.now) a line (kind_value kind)
        (fields text.now)) rules.new) }
    ensures refused { IfErr result (λ e. (a : AppRules) → ArePart a rules.old
        → Faulty (app_rule (loads_in source.now.text.now source.now.deck.now) a line (kind_value kind)
        (fields text.now)) e) }
{
    match kind {
        Kind::App => add_app(alloc, source, rules, text),
        Kind::Allow => add_allowance(rules, text),
        Kind::Sum => add_sum(rules, text),
        Kind::On => add_on(alloc, rules, line, text),
        Kind::Never => add_never(rules, line, text),
        Kind::Always => add_always(alloc, rules, line, text),
        Kind::Move => Ok(()),
    }
}

// Adds the rule of a line, by its number and the text after its mark.
fn add_rule<'a>(
    alloc: Global,
    source: &Source<'a>,
    rules: &mut Partial<'a>,
    line: u32,
    text: &'a [u8],
) -> Result<(), Fault>
    requires few { length (lines source.now.text.now) ≤ 20000 }
    requires deck { deck_read source.now.text.now ≡ Ok source.now.deck.now }
    ensures added { OnOk result ((a : AppRules) → ArePart a rules.old
        → ArePartRead (rule_of (loads_in source.now.text.now source.now.deck.now) a line (fields text.now)) rules.new) }
    ensures refused { IfErr result (λ e. (a : AppRules) → ArePart a rules.old
        → Faulty (rule_of (loads_in source.now.text.now source.now.deck.now) a line (fields text.now)) e) }
{
    let Some((word, after)) = first_field(text) else {
        return Err(bad_line());
    };
    let Some(kind) = kind_named(word) else {
        return Err(bad_line());
    };
    add_kind(alloc, source, rules, kind, line, after)
}

// Whether a line begins with `#@`, after the blanks in front of it.
fn is_marked(line: &[u8]) -> bool
    ensures { result ≡ is_marked (fields line.now) }
{
    match first_field(line) {
        Some(([b'#', b'@', ..], _)) => true,
        _ => false,
    }
}

// The text of a rule, after its mark, or `None` if the mark is longer.
fn rule_text(line: &[u8]) -> Option<&[u8]>
    ensures { MatchOption result (is_plain_mark (fields line.now) ≡ false)
        (λ t. fields line.now ≡ codes "#@" ∷ fields t.now) }
{
    let (mark, after) = first_field(line)?;
    if mark == b"#@".as_slice() {
        return Some(after);
    }
    None
}

// Adds the rule of a line of a deck, if it is one, by whether it is in a section.
fn add_line<'a>(
    alloc: Global,
    source: &Source<'a>,
    rules: &mut Partial<'a>,
    inside: bool,
    number: u32,
    line: &'a [u8],
) -> Result<(), Fault>
    requires few { length (lines source.now.text.now) ≤ 20000 }
    requires deck { deck_read source.now.text.now ≡ Ok source.now.deck.now }
    ensures added { OnOk result ((a : AppRules) → ArePart a rules.old
        → ArePartRead (rules_with (loads_in source.now.text.now source.now.deck.now) inside (number, line.now) a)
        rules.new) }
    ensures refused { IfErr result (λ e. (a : AppRules) → ArePart a rules.old
        → Faulty (rules_with (loads_in source.now.text.now source.now.deck.now) inside (number, line.now) a) e) }
{
    if inside || !is_marked(line) {
        return Ok(());
    }
    let Some(text) = rule_text(line) else {
        return Err(bad_line());
    };
    add_rule(alloc, source, rules, number, text)
}

// The refusal of a line that is no rule.
fn refusal_at(number: u32, fault: Fault) -> RuleRefusal
    ensures { result ≡ refusal_at number fault }
{
    match fault {
        Fault::Cause(cause) => RuleRefusal::At(number, cause),
        Fault::NoMemory => RuleRefusal::NoMemory,
    }
}

// No rules yet.
fn no_rules<'a>(alloc: Global) -> Partial<'a>
    ensures { ArePart no_app_rules result }
{
    Partial {
        load: None,
        code_lines: Vec::new(alloc),
        allowances: Vec::new(alloc),
        sums: Vec::new(alloc),
        ons: Vec::new(alloc),
        always: Vec::new(alloc),
        balances: Vec::new(alloc),
        never: None,
    }
}

// Reads the rules of the lines of a text.
#[tactic(auto, using(crate::proofs::ReadLemmas::rules_start))]
fn read_lines<'a>(alloc: Global, source: &Source<'a>) -> Result<Partial<'a>, RuleRefusal>
    requires few { length (lines source.now.text.now) ≤ 20000 }
    requires deck { deck_read source.now.text.now ≡ Ok source.now.deck.now }
    ensures read { IfOk result (ArePartRead (lines_read source.now.text.now source.now.deck.now)) }
    ensures refused { IfErr result (RefusesRules (lines_read source.now.text.now source.now.deck.now)) }
{
    let mut rules = no_rules(alloc);
    let mut inside = false;
    let mut number: u32 = 0;
    let mut rest = source.text;
    while let Some((line, after)) = next_line(rest) {
        number += 1;
        match add_line(alloc, source, &mut rules, inside, number, line) {
            Ok(()) => {}
            Err(fault) => return Err(refusal_at(number, fault)),
        }
        inside = stays_inside(inside, line);
        rest = after;
    }
    Ok(rules)
}

// The rules of all lines with the name of their application, if these name one.
fn finished(rules: Partial<'_>) -> Result<(Rules<'_>, Aid), RuleRefusal>
    ensures finished { IfOk result (λ p. IsFinished rules.entry p.0 p.1) }
    ensures refused { IfErr result (λ e. (e ≡ At 0 NoApplication) × (rules.entry.load ≡ None)) }
{
    let Partial {
        load,
        code_lines,
        allowances,
        sums,
        ons,
        always,
        balances,
        never,
    } = rules;
    match load {
        Some(found) => Ok((
            Rules {
                load: found.load,
                code_lines,
                allowances,
                sums,
                ons,
                always,
                balances,
                never,
            },
            found.aid,
        )),
        None => Err(RuleRefusal::At(0, RuleCause::NoApplication)),
    }
}

/// Reads the rules of a deck for one application, with the application's AID: the deck's comments whose first field is
/// `#@`. A line inside a section is assembly.
///
/// # Errors
///
/// Returns the refusal of the first line that is no rule, or of line 0 if none names the application; or `NoMemory` if it
/// is out of memory.
pub fn read_named_rules<'a>(
    alloc: Global,
    deck: &'a Deck,
    text: &'a [u8],
) -> Result<(Rules<'a>, Aid), RuleRefusal>
    requires { deck_read text.now ≡ Ok deck.now }
    ensures read { IfOk result (λ p. (a : AppRules) × (g : Target) × (app_rules_read text.now ≡ Ok a) × AreRules a g p.0
        × AreSums a p.0 × (g.name ≡ p.1)) }
    ensures refused { IfErr result (RefusesRules (app_rules_read text.now)) }
{
    let source = Source { deck, text };
    match read_lines(alloc, &source) {
        Ok(rules) => finished(rules),
        Err(refusal) => Err(refusal),
    }
}

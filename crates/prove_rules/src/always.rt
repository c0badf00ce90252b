// `always` lines.
ghost use Rattle.std.specs.Prelude.{◌≡◌, ◌≤◌, ◌&&◌, nat_le, ◌∷◌, ℕ, List, false, map, codes, not, Err, IfErr, IfOk, MatchOption, Ok, OnOk, true};
ghost use Rattle.mc_text.specs.model_text.specs.Text.{fields};
ghost use Rattle.model_rule_text.specs.model_text.specs.Text.{begins_with};
ghost use Rattle.prove_facts.specs.model_rules.specs.Rules.{AppRules};
ghost use Rattle.model_rule_text.specs.model_play.specs.declared.deck.DeckCause.TheVariants.{BadLine};
ghost use Rattle.model_rule_text.specs.Reading.{always_line, are_names, are_sums, sign_of, static_field, terms_of, with_total, Deck};
ghost use Rattle.lab_app_rules.specs.Rules.{allowance_of, name_of};
ghost use Rattle.prove_rules.specs.Always.{term_of, AreNoSums, IsRangeRead, IsTotalForm, IsTotalRead};
ghost use Rattle.prove_rules.specs.Partials.{ArePart, ArePartRead};
ghost use Rattle.prove_rules.specs.Refused.{Faulty};
ghost use Rattle.lab_app_rules.specs.Sums.{AreTerms};

use crate::fault::{Fault, bad_line, refused};
use crate::field::{amount_field, assembly_number, name_field, two_fields};
use crate::partial::{Partial, named_load, place_of};
use crate::range::{range_ends, static_field};
use lab_app_rules::{Always, Balance, Named, SignedSum};
use lab_match::first_field;
use mc_deck::DeckCause;
use prove_facts::push;
use std::alloc::Global;

/// A sum in a line, by its name.
#[derive(Clone, Copy)]
pub struct SignedName<'a> {
    pub minus: bool,
    pub name: &'a [u8],
}

/// A total by its fields: the texts of the ends of its block and of its constant, and its terms.
#[derive(Drop)]
struct TotalForm<'a> {
    from: &'a [u8],
    to: &'a [u8],
    constant: &'a [u8],
    names: Vec<SignedName<'a>>,
}

// Whether a sign takes away.
fn sign_of(sign: &[u8]) -> Option<bool>
    ensures { MatchOption result (sign_of sign.now ≡ Err (Deck BadLine)) (λ minus. sign_of sign.now ≡ Ok (not minus)) }
{
    match sign {
        b"+" => Some(false),
        b"-" => Some(true),
        _ => None,
    }
}

// The sums of a line, each with its sign.
fn signed_names(alloc: Global, text: &[u8]) -> Result<Vec<SignedName<'_>>, Fault>
    ensures terms { IfOk result (λ names. terms_of (fields text.now) ≡ Ok (map term_of names.items)) }
    ensures refused { IfErr result (Faulty (terms_of (fields text.now))) }
{
    let mut names = Vec::new(alloc);
    let mut rest = text;
    while let Some((sign, after)) = first_field(rest) {
        let Some(minus) = sign_of(sign) else {
            return Err(bad_line());
        };
        let Some((name, after)) = first_field(after) else {
            return Err(bad_line());
        };
        push(&mut names, SignedName { minus, name })?;
        rest = after;
    }
    Ok(names)
}

// Refuses a term that is no name.
fn check_names(names: &[SignedName<'_>]) -> Result<(), DeckCause>
    ensures named { OnOk result (are_names (map term_of names.now) ≡ Ok (map term_of names.now)) }
    ensures refused { IfErr result (λ e. are_names (map term_of names.now) ≡ Err (Deck e)) }
{
    for signed in names {
        name_field(signed.name)?;
    }
    Ok(())
}

// The sums that the terms name.
#[tactic(auto, using(crate::proofs::SumLemmas::terms_start, crate::proofs::SumLemmas::terms_end))]
fn sums_of(
    alloc: Global,
    sums: &[Named<'_>],
    names: &[SignedName<'_>],
) -> Result<Vec<SignedSum>, Fault>
    ensures sums { OnOk result (are_sums (map allowance_of sums.now) (map term_of names.now) ≡ true) }
    ensures terms { IfOk result (λ list. AreTerms (map name_of sums.now) (map term_of names.now) list.items) }
    ensures refused { IfErr result (AreNoSums (are_sums (map allowance_of sums.now) (map term_of names.now))) }
{
    let mut list = Vec::new(alloc);
    for signed in names {
        let Some(sum) = place_of(sums, signed.name) else {
            return Err(refused(DeckCause::UnknownName));
        };
        push(
            &mut list,
            SignedSum {
                minus: signed.minus,
                sum,
            },
        )?;
    }
    Ok(list)
}

// The fields of a total, by the text in the brackets and the text after the sign.
fn total_form<'a>(alloc: Global, range: &'a [u8], text: &'a [u8]) -> Result<TotalForm<'a>, Fault>
    ensures form { IfOk result (IsTotalForm range.now (fields text.now)) }
    ensures refused { IfErr result (λ e. (a : AppRules) (n : ℕ) (block : List ℕ) → static_field block ≡ Ok range.now
        → Faulty (always_line a n (block ∷ codes "=" ∷ fields text.now)) e) }
{
    let Some((constant, rest)) = first_field(text) else {
        return Err(bad_line());
    };
    let Some((from, to)) = range_ends(range) else {
        return Err(bad_line());
    };
    let names = signed_names(alloc, rest)?;
    Ok(TotalForm {
        from,
        to,
        constant,
        names,
    })
}

// Reads a total, by the number of its line and its fields.
fn read_total(
    alloc: Global,
    rules: &Partial<'_>,
    line: u32,
    form: &TotalForm<'_>,
) -> Result<Balance, Fault>
    ensures read { IfOk result (IsTotalRead rules.now form.now) }
    ensures line { IfOk result (λ total. total.line ≡ line) }
    ensures refused { IfErr result (λ e. (a : AppRules) (n : ℕ) → ArePart a rules.now
        → Faulty (with_total a n (form.now.from.now, form.now.to.now) form.now.constant.now
        (map term_of form.now.names.items)) e) }
{
    let from = assembly_number(form.from)?;
    let to = assembly_number(form.to)?;
    let constant = amount_field(form.constant)?;
    check_names(form.names.as_slice())?;
    let load = named_load(rules)?;
    let sums = sums_of(alloc, rules.sums.as_slice(), form.names.as_slice())?;
    if from > to || to >= load.fixed as u64 {
        return Err(refused(DeckCause::OutOfRange));
    }
    Ok(Balance {
        line,
        at: from as u16,
        n: (to - from + 1) as u16,
        constant,
        sums,
    })
}

// Whether two numbers are the lowest and the highest value of a byte.
fn are_in_order(lowest: u64, highest: u64) -> bool
    ensures yes { result ≡ true → (lowest ≤ highest) × (highest ≤ 255) }
    ensures is { result ≡ (nat_le lowest highest && nat_le highest 255) }
{
    lowest <= highest && highest <= 255
}

// Reads the range of a static byte, by the number of its line, the text in the brackets and the text after them.
fn read_range(rules: &Partial<'_>, line: u32, at: &[u8], text: &[u8]) -> Result<Always, Fault>
    requires { begins_with (codes "=") (fields text.now) ≡ false }
    ensures range { IfOk result (IsRangeRead rules.now at.now (fields text.now)) }
    ensures line { IfOk result (λ w. w.line ≡ line) }
    ensures refused { IfErr result (λ e. (a : AppRules) (n : ℕ) (block : List ℕ) → ArePart a rules.now
        → static_field block ≡ Ok at.now → Faulty (always_line a n (block ∷ fields text.now)) e) }
{
    let (low, high) = two_fields(text)?;
    let place = assembly_number(at)?;
    let lowest = assembly_number(low)?;
    let highest = assembly_number(high)?;
    let load = named_load(rules)?;
    if place >= load.fixed as u64 {
        return Err(refused(DeckCause::OutOfRange));
    }
    if !are_in_order(lowest, highest) {
        return Err(refused(DeckCause::OutOfRange));
    }
    Ok(Always {
        line,
        at: place as u16,
        low: lowest as u8,
        high: highest as u8,
    })
}

// Adds the total of a line.
fn add_total(
    alloc: Global,
    rules: &mut Partial<'_>,
    line: u32,
    range: &[u8],
    text: &[u8],
) -> Result<(), Fault>
    ensures added { OnOk result ((a : AppRules) (block : List ℕ) → ArePart a rules.old
        → static_field block ≡ Ok range.now
        → ArePartRead (always_line a line (block ∷ codes "=" ∷ fields text.now)) rules.new) }
    ensures refused { IfErr result (λ e. (a : AppRules) (block : List ℕ) → ArePart a rules.old
        → static_field block ≡ Ok range.now
        → Faulty (always_line a line (block ∷ codes "=" ∷ fields text.now)) e) }
{
    let form = total_form(alloc, range, text)?;
    let total = read_total(alloc, rules, line, &form)?;
    push(&mut rules.balances, total)?;
    Ok(())
}

// Adds the range of a line.
fn add_range(rules: &mut Partial<'_>, line: u32, at: &[u8], text: &[u8]) -> Result<(), Fault>
    requires { begins_with (codes "=") (fields text.now) ≡ false }
    ensures added { OnOk result ((a : AppRules) (block : List ℕ) → ArePart a rules.old
        → static_field block ≡ Ok at.now → ArePartRead (always_line a line (block ∷ fields text.now)) rules.new) }
    ensures refused { IfErr result (λ e. (a : AppRules) (block : List ℕ) → ArePart a rules.old
        → static_field block ≡ Ok at.now → Faulty (always_line a line (block ∷ fields text.now)) e) }
{
    let range = read_range(rules, line, at, text)?;
    push(&mut rules.always, range)?;
    Ok(())
}

// The text after a sign of equality, or `None` if a text begins with another field.
fn total_text(text: &[u8]) -> Option<&[u8]>
    ensures { MatchOption result (begins_with (codes "=") (fields text.now) ≡ false)
        (λ t. fields text.now ≡ codes "=" ∷ fields t.now) }
{
    let (sign, rest) = first_field(text)?;
    if sign == b"=".as_slice() {
        return Some(rest);
    }
    None
}

/// Adds the rule of an `always` line, by its number and the text after that word.
///
/// # Errors
///
/// Returns why the line is no rule, or `NoMemory` if it is out of memory.
pub fn add_always(
    alloc: Global,
    rules: &mut Partial<'_>,
    line: u32,
    text: &[u8],
) -> Result<(), Fault>
    ensures added { OnOk result ((a : AppRules) → ArePart a rules.old
        → ArePartRead (always_line a line (fields text.now)) rules.new) }
    ensures refused { IfErr result (λ e. (a : AppRules) → ArePart a rules.old
        → Faulty (always_line a line (fields text.now)) e) }
{
    let Some((block, after)) = first_field(text) else {
        return Err(bad_line());
    };
    let Some(within) = static_field(block) else {
        return Err(bad_line());
    };
    match total_text(after) {
        Some(rest) => add_total(alloc, rules, line, within, rest),
        None => add_range(rules, line, within, after),
    }
}

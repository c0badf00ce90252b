// How the event of an instruction counts.
ghost use Rattle.std.specs.Prelude.{◌≡◌, ℕ, Bool, List, Option, Some, slice_get, map, bytes_eq, IfOk};
ghost use Rattle.prove_facts.specs.model_rules.specs.Rules.{AppRules, SumLine, Total};
ghost use Rattle.prove_forms.specs.model_sums.specs.Events as events;
ghost use Rattle.prove_forms.specs.model_sums.specs.Forms as forms;
ghost use Rattle.prove_forms.specs.model_sums.specs.Sums as sums;
ghost use Rattle.lab_app_rules.specs.declared.rules.Amount.TheVariants as amount;
ghost use Rattle.lab_app_rules.specs.Rules.{name_of};
ghost use Rattle.prove_forms.specs.Forms.{OptionalIs, OptionalsAre};
ghost use Rattle.prove_forms.specs.Origins.{origins_value};
ghost use Rattle.lab_app_rules.specs.Sums.{amount_value};
ghost use Rattle.lab_app_rules.specs.Sums.{AreSumLines, AreSums, AreTerms, AreTotals, IsTotal, move_of};
ghost use Rattle.prove_sums.specs.Lines.{IsLineOf, IsMove, IsTerm, off_by, offs_by};
ghost use Rattle.prove_sums.specs.Values.{SumsAre};

use crate::acts::origins_from;
use crate::optional::{copied_if, negative_if, plus_if};
use crate::values::{Sums, add_off, copied_mores, copied_offs, first_off};
use lab_app_rules::{Amount, Balance, Effect, Named, On, Rules, SignedSum};
use lab_match::fits;
use model_device::NoMemory;
use prove_forms::{Form, Origins, form_of};
use prove_keys::{PUBLIC, PUBLIC_END};
use std::alloc::Global;

/// What a line does to a sum: whether it adds or takes, and by how much, if that is known; and the number of the sum.
#[derive(Drop)]
pub struct Move {
    pub name: usize,
    pub adds: bool,
    pub by: Option<Form>,
}

// The number in n public bytes at an address, if it is known.
fn form_in_public(
    alloc: Global,
    origins: &Origins,
    at: u16,
    n: u16,
) -> Result<Option<Form>, NoMemory>
    ensures { IfOk result (λ form. OptionalIs form
        (events.form_of_amount (origins_value origins.now) (amount_value (amount.Public at n)))) }
{
    let from = at.max(PUBLIC);
    if from as u32 + n as u32 > PUBLIC_END as u32 {
        return Ok(None);
    }
    let bytes = origins_from(alloc, origins, from, n)?;
    form_of(alloc, bytes.as_slice())
}

// The number that an amount is, by the origins before the instruction, if it is known.
fn form_of_amount(
    alloc: Global,
    origins: &Origins,
    amount: &Amount,
) -> Result<Option<Form>, NoMemory>
    ensures { IfOk result (λ form. OptionalIs form
        (events.form_of_amount (origins_value origins.now) (amount_value amount.now))) }
{
    match amount {
        Amount::Number(k) => Ok(Some(Form::number(alloc, *k as u128))),
        Amount::Public { at, n } => form_in_public(alloc, origins, *at, *n),
    }
}

// Whether two sums have one name.
fn is_same_sum(named: &[Named<'_>], sum: usize, other: usize) -> bool
    ensures { (x y : List ℕ) → slice_get (map name_of named.now) sum ≡ Some x
        → slice_get (map name_of named.now) other ≡ Some y → result ≡ bytes_eq x y }
{
    match (named.get(sum), named.get(other)) {
        (Some(a), Some(b)) => a.name == b.name,
        _ => false,
    }
}

// By how much a total is off after a sum that one of its terms names became more by a form.
fn off_after_term(
    alloc: Global,
    n: u16,
    adds: bool,
    by: &Option<Form>,
    off: &Option<Form>,
) -> Result<Option<Form>, NoMemory>
    ensures { IfOk result (λ after. (f g : Option forms.Form) → OptionalIs by.now g → OptionalIs off.now f
        → OptionalIs after (events.off_after_term n adds g f)) }
{
    if !adds {
        return plus_if(alloc, off, by);
    }
    let less = negative_if(alloc, n, by)?;
    plus_if(alloc, off, &less)
}

// By how much it is off after a line about a sum, by one of its terms.
fn off_after_sum(
    alloc: Global,
    named: &[Named<'_>],
    n: u16,
    moved: &Move,
    term: &SignedSum,
    off: Option<Form>,
) -> Result<Option<Form>, NoMemory>
    ensures { IfOk result (λ after. (t : Bool × List ℕ) (l : SumLine) (f g : Option forms.Form)
        → IsTerm (map name_of named.now) t term.now → IsMove (map name_of named.now) l g moved.now → OptionalIs off f
        → OptionalIs after (off_by n l g t f)) }
{
    if !is_same_sum(named, term.sum, moved.name) {
        return Ok(off);
    }
    off_after_term(alloc, n, term.minus != moved.adds, &moved.by, &off)
}

// By how much it is off after a line about a sum, by its terms.
fn off_after_terms(
    alloc: Global,
    named: &[Named<'_>],
    n: u16,
    moved: &Move,
    terms: &[SignedSum],
    off: &Option<Form>,
) -> Result<Option<Form>, NoMemory>
    ensures { IfOk result (λ after. (ts : List (Bool × List ℕ)) (l : SumLine) (f g : Option forms.Form)
        → AreTerms (map name_of named.now) ts terms.now → IsMove (map name_of named.now) l g moved.now
        → OptionalIs off.now f → OptionalIs after (events.off_after_line n l g ts f)) }
{
    let mut after = copied_if(alloc, off)?;
    for term in terms {
        after = off_after_sum(alloc, named, n, moved, term, after)?;
    }
    Ok(after)
}

// By how much a total is off after a line about a sum.
fn off_after_line(
    alloc: Global,
    named: &[Named<'_>],
    moved: &Move,
    balance: &Balance,
    off: &Option<Form>,
) -> Result<Option<Form>, NoMemory>
    ensures { IfOk result (λ after. (t : Total) (l : SumLine) (f g : Option forms.Form)
        → IsTotal (map name_of named.now) t balance.now → IsMove (map name_of named.now) l g moved.now
        → OptionalIs off.now f → OptionalIs after (events.off_after_line t.n l g t.terms f)) }
{
    let terms = balance.sums.as_slice();
    let after = off_after_terms(alloc, named, balance.n, moved, terms, off)?;
    Ok(after)
}

// By how much each total is.
fn offs_after_line(
    alloc: Global,
    named: &[Named<'_>],
    balances: &[Balance],
    moved: &Move,
    offs: &[Option<Form>],
) -> Result<Vec<Option<Form>>, NoMemory>
    ensures { IfOk result (λ after. (ts : List Total) (l : SumLine) (fs : List (Option forms.Form))
        (g : Option forms.Form) → AreTotals (map name_of named.now) ts balances.now
        → IsMove (map name_of named.now) l g moved.now → OptionalsAre offs.now fs
        → OptionalsAre after.items (events.offs_after_line l g ts fs)) }
{
    let mut after = Vec::new(alloc);
    let mut rest = offs;
    for balance in balances {
        let Some((off, left)) = first_off(rest) else {
            return Ok(after);
        };
        let next = off_after_line(alloc, named, moved, balance, off)?;
        add_off(&mut after, next)?;
        rest = left;
    }
    Ok(after)
}

// What a line does to a sum: whether it adds, and the amount, or `None` if it is about an allowance.
fn move_of(effect: &Effect) -> Option<(bool, Amount)>
    ensures { result ≡ move_of effect.now }
{
    match effect {
        Effect::Add(amount) => Some((true, *amount)),
        Effect::Take(amount) => Some((false, *amount)),
        _ => None,
    }
}

// By how much each total is off after an `on` line, if it is about a sum and fits the line of the instruction.
fn offs_after_on(
    alloc: Global,
    rules: &Rules<'_>,
    on: &On,
    line: &[u8],
    origins: &Origins,
    offs: Vec<Option<Form>>,
) -> Result<Vec<Option<Form>>, NoMemory>
    ensures { IfOk result (λ after. (ts : List Total) (l : Option SumLine) (fs : List (Option forms.Form))
        → AreTotals (map name_of rules.now.sums.items) ts rules.now.balances.items
        → IsLineOf (map name_of rules.now.sums.items) l on.now → OptionalsAre offs.items fs
        → OptionalsAre after.items (offs_by ts l line.now (origins_value origins.now) fs)) }
{
    let Some((adds, amount)) = move_of(&on.effect) else {
        return Ok(offs);
    };
    let is = fits(on.pattern.as_slice(), line);
    if !is {
        return Ok(offs);
    }
    let by = form_of_amount(alloc, origins, &amount)?;
    let moved = Move {
        name: on.name,
        adds,
        by,
    };
    let after = offs_after_line(
        alloc,
        rules.sums.as_slice(),
        rules.balances.as_slice(),
        &moved,
        offs.as_slice(),
    )?;
    Ok(after)
}

// By how much each total is off after some lines, with the origins before the instruction.
fn offs_after_ons(
    alloc: Global,
    rules: &Rules<'_>,
    ons: &[On],
    line: &[u8],
    origins: &Origins,
    offs: &[Option<Form>],
) -> Result<Vec<Option<Form>>, NoMemory>
    ensures { IfOk result (λ after. (ts : List Total) (ls : List SumLine) (fs : List (Option forms.Form))
        → AreTotals (map name_of rules.now.sums.items) ts rules.now.balances.items
        → AreSumLines (map name_of rules.now.sums.items) ls ons.now → OptionalsAre offs.now fs
        → OptionalsAre after.items (events.offs_after_event ts ls line.now (origins_value origins.now) fs)) }
{
    let mut after = copied_offs(alloc, offs)?;
    for on in ons {
        after = offs_after_on(alloc, rules, on, line, origins, after)?;
    }
    Ok(after)
}

// By how much each is after the event of an instruction with this line.
fn offs_after_event(
    alloc: Global,
    rules: &Rules<'_>,
    line: &[u8],
    origins: &Origins,
    offs: &[Option<Form>],
) -> Result<Vec<Option<Form>>, NoMemory>
    ensures { IfOk result (λ after. (a : AppRules) (fs : List (Option forms.Form)) → AreSums a rules.now
        → OptionalsAre offs.now fs → OptionalsAre after.items
        (events.offs_after_event a.totals a.moves line.now (origins_value origins.now) fs)) }
{
    let ons = rules.ons.as_slice();
    let after = offs_after_ons(alloc, rules, ons, line, origins, offs)?;
    Ok(after)
}

/// Returns what is known after an instruction's event, from what is known after its row, with its line and the origins
/// before it, unless the event is dropped with what waits.
///
/// # Errors
///
/// Returns `NoMemory` if it is out of memory.
pub fn counted(
    alloc: Global,
    rules: &Rules<'_>,
    drops: bool,
    line: &[u8],
    origins: &Origins,
    known: &Sums,
) -> Result<Sums, NoMemory>
    ensures { IfOk result (λ after. (a : AppRules) (u : sums.Sums) → AreSums a rules.now → SumsAre known.now u
        → SumsAre after (events.counted drops a.totals a.moves line.now (origins_value origins.now) u)) }
{
    if drops {
        return known.copied(alloc);
    }
    Ok(Sums {
        origins: known.origins.copied(alloc)?,
        mores: copied_mores(alloc, known.mores.as_slice())?,
        offs: offs_after_event(alloc, rules, line, origins, known.offs.as_slice())?,
    })
}

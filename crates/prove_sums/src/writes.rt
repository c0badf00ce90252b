// What is known for sums after bytes were written.
ghost use Rattle.std.specs.Prelude.{◌≡◌, ◌≤◌, ℕ, List, Option, length, vec_len, flat_map, IfOk};
ghost use Rattle.prove_facts.specs.model_prove.specs.Compares as compares;
ghost use Rattle.prove_facts.specs.model_rules.specs.Rules.{Total};
ghost use Rattle.prove_forms.specs.model_sums.specs.Forms as forms;
ghost use Rattle.prove_forms.specs.model_sums.specs.Origins as model;
ghost use Rattle.prove_forms.specs.model_sums.specs.Sums as sums;
ghost use Rattle.prove_forms.specs.model_sums.specs.Writes as writes;
ghost use Rattle.prove_forms.specs.Forms.{OptionalIs, OptionalsAre};
ghost use Rattle.prove_forms.specs.Origins.{origin_values};
ghost use Rattle.lab_app_rules.specs.Sums.{AreTotals, IsTotal};
ghost use Rattle.prove_sums.specs.Values.{MoreIs, MoresAre, SumsAre, if_any};

use crate::optional::{copied_if, negative_if, plus_if};
use crate::values::{More, Sums, add_any, add_off, first_off};
use lab_app_rules::Balance;
use model_device::NoMemory;
use prove_facts::push;
use prove_forms::{Form, Origin};
use std::alloc::Global;

// Whether n bytes at one address and m at another have one in common.
pub fn meet(a: u16, n: u16, b: u16, m: u16) -> bool
    ensures { result ≡ compares.meet a n b m }
{
    (a as u32) < b as u32 + m as u32 && (b as u32) < a as u32 + n as u32
}

// Whether n bytes at one address are just the m at another.
pub fn is_block(a: u16, n: u16, b: u16, m: u16) -> bool
    ensures { result ≡ writes.is_block a n b m }
{
    a == b && n == m
}

// By how much a total is off after n bytes at an address were written, by which their number became more by a form.
fn off_after(
    alloc: Global,
    at: u16,
    n: u16,
    by: &Option<Form>,
    balance: &Balance,
    off: &Option<Form>,
) -> Result<Option<Form>, NoMemory>
    ensures { IfOk result (λ after. (names : List (List ℕ)) (t : Total) (f g : Option forms.Form)
        → IsTotal names t balance.now → OptionalIs off.now f → OptionalIs by.now g
        → OptionalIs after (writes.off_after at n g t f)) }
{
    if !meet(at, n, balance.at, balance.n) {
        return copied_if(alloc, off);
    }
    if is_block(at, n, balance.at, balance.n) {
        return plus_if(alloc, off, by);
    }
    Ok(None)
}

// By how much each is.
fn offs_after(
    alloc: Global,
    balances: &[Balance],
    at: u16,
    n: u16,
    by: &Option<Form>,
    offs: &[Option<Form>],
) -> Result<Vec<Option<Form>>, NoMemory>
    ensures { IfOk result (λ after. (names : List (List ℕ)) (ts : List Total) (fs : List (Option forms.Form))
        (g : Option forms.Form) → AreTotals names ts balances.now → OptionalsAre offs.now fs → OptionalIs by.now g
        → OptionalsAre after.items (writes.offs_after at n g ts fs)) }
{
    let mut after = Vec::new(alloc);
    let mut rest = offs;
    for balance in balances {
        let Some((off, left)) = first_off(rest) else {
            return Ok(after);
        };
        let next = off_after(alloc, at, n, by, balance, off)?;
        add_off(&mut after, next)?;
        rest = left;
    }
    Ok(after)
}

// A loaded block with another form, if it is known.
fn with_form(more: &More, form: Option<Form>) -> Option<More>
    ensures { (r : sums.More) (f : Option forms.Form) → MoreIs more.now r → OptionalIs form f
        → MoresAre (if_any result) (writes.with_form r f) }
{
    match form {
        Some(form) => Some(More {
            at: more.at,
            from: more.from,
            n: more.n,
            form,
        }),
        None => None,
    }
}

// A loaded block that became more by a form, if it is known.
fn raised(alloc: Global, more: &More, by: &Option<Form>) -> Result<Option<More>, NoMemory>
    ensures { IfOk result (λ after. (r : sums.More) (g : Option forms.Form) → MoreIs more.now r → OptionalIs by.now g
        → MoresAre (if_any after) (writes.with_form r (writes.plus_if (Some r.form) g))) }
{
    match by {
        Some(by) => Ok(with_form(more, Some(more.form.plus(alloc, by)?))),
        None => Ok(None),
    }
}

// A loaded block after n bytes at an address were written, by which their number became more by a form.
fn more_after(
    alloc: Global,
    at: u16,
    n: u16,
    by: &Option<Form>,
    more: &More,
) -> Result<Option<More>, NoMemory>
    ensures { IfOk result (λ after. (r : sums.More) (g : Option forms.Form) → MoreIs more.now r → OptionalIs by.now g
        → MoresAre (if_any after) (writes.more_after at n g r)) }
{
    let hits = meet(at, n, more.at, more.n);
    if meet(at, n, more.from, more.n) {
        if is_block(at, n, more.from, more.n) && !hits {
            let less = negative_if(alloc, n, by)?;
            return raised(alloc, more, &less);
        }
        return Ok(None);
    }
    if !hits {
        return Ok(Some(more.copied(alloc)?));
    }
    if is_block(at, n, more.at, more.n) {
        return raised(alloc, more, by);
    }
    Ok(None)
}

// The loaded blocks after that write.
fn mores_after(
    alloc: Global,
    at: u16,
    n: u16,
    by: &Option<Form>,
    mores: &[More],
) -> Result<Vec<More>, NoMemory>
    ensures { IfOk result (λ after. (rs : List sums.More) (g : Option forms.Form) → MoresAre mores.now rs
        → OptionalIs by.now g → MoresAre after.items (flat_map (writes.more_after at n g) rs)) }
{
    let mut after = Vec::new(alloc);
    for more in mores {
        let next = more_after(alloc, at, n, by, more)?;
        add_any(&mut after, next)?;
    }
    Ok(after)
}

// Origins of n bytes that come from nowhere.
pub fn unknowns(alloc: Global, n: u16) -> Result<Vec<Origin>, NoMemory>
    ensures values { IfOk result (λ bytes. origin_values bytes.items ≡ model.unknowns n) }
    ensures length { IfOk result (λ bytes. vec_len bytes ≡ n) }
{
    let mut bytes = Vec::new(alloc);
    for _i in 0..n {
        push(&mut bytes, Origin::Unknown)?;
    }
    Ok(bytes)
}

impl Sums {
    /// Returns what is known after bytes that come from these origins were written at an address, by which their number
    /// became more by a form, if that is known.
    ///
    /// # Errors
    ///
    /// Returns `NoMemory` if it is out of memory.
    pub fn written(
        &self,
        alloc: Global,
        balances: &[Balance],
        at: u16,
        bytes: &[Origin],
        by: &Option<Form>,
    ) -> Result<Sums, NoMemory>
        requires { length bytes.now ≤ 65535 }
        ensures { IfOk result (λ after. (names : List (List ℕ)) (ts : List Total) (gs : List model.Origin)
            (g : Option forms.Form) (u : sums.Sums) → AreTotals names ts balances.now → origin_values bytes.now ≡ gs
            → OptionalIs by.now g → SumsAre self.now u → SumsAre after (writes.wrote ts at gs g u)) }
    {
        let n = bytes.len() as u16;
        Ok(Sums {
            origins: self.origins.with(alloc, at as u32, bytes)?,
            mores: mores_after(alloc, at, n, by, self.mores.as_slice())?,
            offs: offs_after(alloc, balances, at, n, by, self.offs.as_slice())?,
        })
    }

    /// Returns what is known after n bytes at an address were written that are not known.
    ///
    /// # Errors
    ///
    /// Returns `NoMemory` if it is out of memory.
    pub fn lost(
        &self,
        alloc: Global,
        balances: &[Balance],
        at: u16,
        n: u16,
    ) -> Result<Sums, NoMemory>
        ensures { IfOk result (λ after. (names : List (List ℕ)) (ts : List Total) (u : sums.Sums)
            → AreTotals names ts balances.now → SumsAre self.now u
            → SumsAre after (writes.wrote_any ts at n u)) }
    {
        let bytes = unknowns(alloc, n)?;
        let after = self.written(alloc, balances, at, bytes.as_slice(), &None)?;
        Ok(after)
    }
}

// What follows from what is known for sums, and whether totals are off.
ghost use Rattle.std.specs.Prelude.{◌≡◌, ◌==◌, ◌&&◌, true, ℕ, List, Option, IfOk};
ghost use Rattle.prove_facts.specs.model_rules.specs.Rules.{Total};
ghost use Rattle.prove_forms.specs.model_sums.specs.Forms as forms;
ghost use Rattle.prove_forms.specs.model_sums.specs.Sums as sums;
ghost use Rattle.prove_forms.specs.Forms.{OptionalIs, OptionalsAre};
ghost use Rattle.lab_app_rules.specs.Sums.{AreTotals, IsTotal};
ghost use Rattle.prove_sums.specs.Values.{MoreIs, MoresAre, SumsAre};

use crate::values::{More, Sums, first_off};
use lab_app_rules::Balance;
use model_device::NoMemory;
use prove_forms::Form;
use std::alloc::Global;

// Whether a total is not off.
fn is_even(balance: &Balance, off: &Option<Form>) -> bool
    ensures { result ≡ true → (names : List (List ℕ)) (t : Total) (f : Option forms.Form) → IsTotal names t balance.now
        → OptionalIs off.now f → sums.is_even t f ≡ true }
{
    match off {
        Some(form) => form.is_zero(balance.n),
        None => false,
    }
}

// Whether no total is.
fn offs_even(balances: &[Balance], offs: &[Option<Form>]) -> bool
    ensures { result ≡ true → (names : List (List ℕ)) (ts : List Total) (fs : List (Option forms.Form))
        → AreTotals names ts balances.now → OptionalsAre offs.now fs → sums.are_even ts fs ≡ true }
{
    let mut rest = offs;
    for balance in balances {
        let Some((off, left)) = first_off(rest) else {
            return false;
        };
        if !is_even(balance, off) {
            return false;
        }
        rest = left;
    }
    true
}

// Whether a loaded block is another, or as good as that.
fn is_more(alloc: Global, more: &More, other: &More) -> Result<bool, NoMemory>
    ensures { IfOk result (λ is. is ≡ true → (r q : sums.More) → MoreIs more.now r → MoreIs other.now q
        → (r.at == q.at && r.from == q.from && r.n == q.n && forms.same_forms q.n r.form q.form) ≡ true) }
{
    if more.at != other.at || more.from != other.from || more.n != other.n {
        return Ok(false);
    }
    more.form.same(alloc, other.n, &other.form)
}

// Whether one of some loaded blocks is another.
fn has_more(alloc: Global, mores: &[More], other: &More) -> Result<bool, NoMemory>
    ensures { IfOk result (λ has. has ≡ true → (rs : List sums.More) (q : sums.More) → MoresAre mores.now rs
        → MoreIs other.now q → sums.has_more rs q ≡ true) }
{
    for more in mores {
        if is_more(alloc, more, other)? {
            return Ok(true);
        }
    }
    Ok(false)
}

// Whether each of the second list is in the first.
fn mores_follow(alloc: Global, mores: &[More], others: &[More]) -> Result<bool, NoMemory>
    ensures { IfOk result (λ holds. holds ≡ true → (rs qs : List sums.More) → MoresAre mores.now rs
        → MoresAre others.now qs → sums.mores_follow rs qs ≡ true) }
{
    for other in others {
        if !has_more(alloc, mores, other)? {
            return Ok(false);
        }
    }
    Ok(true)
}

// Whether by how much a total is off follows.
fn off_follows(
    alloc: Global,
    balance: &Balance,
    off: &Option<Form>,
    other: &Option<Form>,
) -> Result<bool, NoMemory>
    ensures { IfOk result (λ holds. holds ≡ true → (names : List (List ℕ)) (t : Total) (f g : Option forms.Form)
        → IsTotal names t balance.now → OptionalIs off.now f → OptionalIs other.now g
        → sums.off_follows t f g ≡ true) }
{
    match (off, other) {
        (_, None) => Ok(true),
        (Some(off), Some(other)) => off.same(alloc, balance.n, other),
        _ => Ok(false),
    }
}

// Whether it does for each total.
fn offs_follow(
    alloc: Global,
    balances: &[Balance],
    offs: &[Option<Form>],
    others: &[Option<Form>],
) -> Result<bool, NoMemory>
    ensures { IfOk result (λ holds. holds ≡ true → (names : List (List ℕ)) (ts : List Total)
        (fs gs : List (Option forms.Form)) → AreTotals names ts balances.now → OptionalsAre offs.now fs
        → OptionalsAre others.now gs → sums.offs_follow ts fs gs ≡ true) }
{
    let mut rest = offs;
    let mut left = others;
    for balance in balances {
        let Some((other, most)) = first_off(left) else {
            return Ok(true);
        };
        let Some((off, more)) = first_off(rest) else {
            return Ok(false);
        };
        if !off_follows(alloc, balance, off, other)? {
            return Ok(false);
        }
        rest = more;
        left = most;
    }
    Ok(true)
}

impl Sums {
    /// Returns whether no total is off.
    pub fn are_even(&self, balances: &[Balance]) -> bool
        ensures { result ≡ true → (names : List (List ℕ)) (ts : List Total) (u : sums.Sums)
            → AreTotals names ts balances.now → SumsAre self.now u → sums.are_even ts u.offs ≡ true }
    {
        offs_even(balances, self.offs.as_slice())
    }

    /// Returns whether what is known otherwise follows from this.
    ///
    /// # Errors
    ///
    /// Returns `NoMemory` if it is out of memory.
    pub fn follows(
        &self,
        alloc: Global,
        balances: &[Balance],
        other: &Sums,
    ) -> Result<bool, NoMemory>
        ensures { IfOk result (λ holds. holds ≡ true → (names : List (List ℕ)) (ts : List Total) (u v : sums.Sums)
            → AreTotals names ts balances.now → SumsAre self.now u → SumsAre other.now v
            → sums.sums_follow ts u v ≡ true) }
    {
        if !self.origins.follows(&other.origins) {
            return Ok(false);
        }
        if !mores_follow(alloc, self.mores.as_slice(), other.mores.as_slice())? {
            return Ok(false);
        }
        offs_follow(alloc, balances, self.offs.as_slice(), other.offs.as_slice())
    }
}

// What is known for sums after bytes were popped or loaded, and after what waits was dropped.
ghost use Rattle.std.specs.Prelude.{◌≡◌, ◌==◌, ◌&&◌, ◌∷◌, ℕ, List, Option, IfOk, OnOk};
ghost use Rattle.prove_facts.specs.model_rules.specs.Rules.{Total};
ghost use Rattle.prove_forms.specs.model_sums.specs.Forms as forms;
ghost use Rattle.prove_forms.specs.model_sums.specs.Sums as sums;
ghost use Rattle.prove_forms.specs.model_sums.specs.Writes as writes;
ghost use Rattle.prove_forms.specs.Forms.{OptionalIs};
ghost use Rattle.lab_app_rules.specs.Sums.{AreTotals};
ghost use Rattle.prove_sums.specs.Values.{MoresAre, SumsAre};

use crate::kept::{Kept, kept_mores};
use crate::values::{More, Sums, copied_offs, evens};
use crate::writes::is_block;
use lab_app_rules::Balance;
use model_device::NoMemory;
use prove_facts::prepend;
use prove_forms::Form;
use std::alloc::Global;

// Whether n bytes at an address are the block of a total.
pub fn is_total_block(balances: &[Balance], at: u16, n: u16) -> bool
    ensures { (names : List (List ℕ)) (ts : List Total) → AreTotals names ts balances.now
        → result ≡ writes.is_total_block ts at n }
{
    for balance in balances {
        if is_block(at, n, balance.at, balance.n) {
            return true;
        }
    }
    false
}

// Whether a loaded block is of n bytes at an address that were those at another.
fn is_of(more: &More, at: u16, from: u16, n: u16) -> bool
    ensures { result ≡ (more.now.at == at && more.now.from == from && more.now.n == n) }
{
    more.at == at && more.from == from && more.n == n
}

// How much more the n bytes at an address are than those at another, if that is known.
pub fn more_of(
    alloc: Global,
    mores: &[More],
    at: u16,
    from: u16,
    n: u16,
) -> Result<Option<Form>, NoMemory>
    ensures { IfOk result (λ form. (rs : List sums.More) → MoresAre mores.now rs
        → OptionalIs form (writes.more_of rs at from n)) }
{
    for more in mores {
        if is_of(more, at, from, n) {
            return Ok(Some(more.form.copied(alloc)?));
        }
    }
    Ok(None)
}

// Adds a loaded block before others.
fn load(alloc: Global, mores: &mut Vec<More>, to: u16, from: u16, n: u16) -> Result<(), NoMemory>
    ensures { OnOk result ((rs : List sums.More) → MoresAre mores.old.items rs → MoresAre mores.new.items
        (record { at = to; from = from; n = n; form = forms.number 0 } ∷ rs)) }
{
    let more = More {
        at: to,
        from,
        n,
        form: Form::number(alloc, 0),
    };
    prepend(mores, more)?;
    Ok(())
}

impl Sums {
    /// Returns what is known if DT is at most this: what lies above it is forgotten.
    ///
    /// # Errors
    ///
    /// Returns `NoMemory` if it is out of memory.
    pub fn popped(&self, alloc: Global, dt: u16) -> Result<Sums, NoMemory>
        ensures { IfOk result (λ after. (u : sums.Sums) → SumsAre self.now u → SumsAre after (writes.popped dt u)) }
    {
        Ok(Sums {
            origins: self.origins.below(alloc, dt)?,
            mores: kept_mores(alloc, self.mores.as_slice(), &Kept::Below(dt))?,
            offs: copied_offs(alloc, self.offs.as_slice())?,
        })
    }

    /// Returns what is known with a block of a total that was loaded, if it is one.
    ///
    /// # Errors
    ///
    /// Returns `NoMemory` if it is out of memory.
    pub fn loaded(
        self,
        alloc: Global,
        is: bool,
        to: u16,
        from: u16,
        n: u16,
    ) -> Result<Sums, NoMemory>
        ensures { IfOk result (λ after. (u : sums.Sums) → SumsAre self u
            → SumsAre after (writes.loaded is to from n u)) }
    {
        if !is {
            return Ok(self);
        }
        let mut mores = self.mores;
        load(alloc, &mut mores, to, from, n)?;
        Ok(Sums {
            origins: self.origins,
            mores,
            offs: self.offs,
        })
    }

    /// Returns what is known after what waits was dropped, if it was.
    ///
    /// # Errors
    ///
    /// Returns `NoMemory` if it is out of memory.
    pub fn dropped(
        &self,
        alloc: Global,
        balances: &[Balance],
        drops: bool,
    ) -> Result<Sums, NoMemory>
        ensures { IfOk result (λ after. (names : List (List ℕ)) (ts : List Total) (u : sums.Sums)
            → AreTotals names ts balances.now → SumsAre self.now u → SumsAre after (writes.dropped drops ts u)) }
    {
        if !drops {
            return self.copied(alloc);
        }
        Ok(Sums {
            origins: self.origins.copied(alloc)?,
            mores: Vec::new(alloc),
            offs: evens(alloc, balances)?,
        })
    }

    /// Returns what is known after a delegation: public bytes are any.
    ///
    /// # Errors
    ///
    /// Returns `NoMemory` if it is out of memory.
    pub fn delegated(&self, alloc: Global) -> Result<Sums, NoMemory>
        ensures { IfOk result (λ after. (u : sums.Sums) → SumsAre self.now u → SumsAre after (writes.delegated u)) }
    {
        Ok(Sums {
            origins: self.origins.without_public(alloc)?,
            mores: kept_mores(alloc, self.mores.as_slice(), &Kept::NotPublic)?,
            offs: copied_offs(alloc, self.offs.as_slice())?,
        })
    }
}

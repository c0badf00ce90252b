// What is known for sums at a place.
ghost use Rattle.std.specs.Prelude.{◌≡◌, ℕ, List, [], ◌∷◌, ◌++◌, Option, IfOk, MatchOption, OnOk};
ghost use Rattle.prove_facts.specs.model_rules.specs.Rules.{Total};
ghost use Rattle.prove_forms.specs.model_sums.specs.Forms as forms;
ghost use Rattle.prove_forms.specs.model_sums.specs.Sums as sums;
ghost use Rattle.prove_forms.specs.Forms.{OptionalIs, OptionalsAre};
ghost use Rattle.lab_app_rules.specs.Sums.{AreTotals};
ghost use Rattle.prove_sums.specs.Values.{MoreIs, MoresAre, SumsAre, if_any, sums_value};

use crate::optional::copied_if;
use lab_app_rules::Balance;
use model_device::NoMemory;
use prove_facts::push;
use prove_forms::{Form, Origins};
use std::alloc::Global;

/// The `n` bytes at an address are those at another, as the application reads them, and a form more, modulo 256 ^ n.
#[derive(Drop)]
pub struct More {
    pub at: u16,
    pub from: u16,
    pub n: u16,
    pub form: Form,
}

/// What is known: where bytes come from, the blocks that were loaded, the newest first, and for each total by how much
/// its block is more than what it is to be.
#[derive(Drop)]
pub struct Sums {
    pub origins: Origins,
    pub mores: Vec<More>,
    pub offs: Vec<Option<Form>>,
}

/// The registers of a place that matter to what is known for sums, before an instruction.
#[derive(Clone, Copy, Debug, PartialEq, Eq)]
pub struct Before {
    pub dt: u16,
    pub lb: u16,
    pub protected: bool,
}

// Appends by how much a total is off.
pub fn add_off(offs: &mut Vec<Option<Form>>, off: Option<Form>) -> Result<(), NoMemory>
    ensures { OnOk result ((fs : List (Option forms.Form)) (f : Option forms.Form) → OptionalsAre offs.old.items fs
        → OptionalIs off f → OptionalsAre offs.new.items (fs ++ f ∷ [])) }
{
    push(offs, off)?;
    Ok(())
}

// Appends a loaded block.
pub fn add_more(mores: &mut Vec<More>, more: More) -> Result<(), NoMemory>
    ensures { OnOk result ((rs : List sums.More) (r : sums.More) → MoresAre mores.old.items rs → MoreIs more r
        → MoresAre mores.new.items (rs ++ r ∷ [])) }
{
    push(mores, more)?;
    Ok(())
}

// Appends a loaded block, if there is one.
pub fn add_any(mores: &mut Vec<More>, more: Option<More>) -> Result<(), NoMemory>
    ensures { OnOk result ((rs qs : List sums.More) → MoresAre mores.old.items rs → MoresAre (if_any more) qs
        → MoresAre mores.new.items (rs ++ qs)) }
{
    let Some(one) = more else {
        return Ok(());
    };
    push(mores, one)?;
    Ok(())
}

// The first of by how much totals are off, and the others, or `None` if there is none.
pub fn first_off(offs: &[Option<Form>]) -> Option<(&Option<Form>, &[Option<Form>])>
    ensures { MatchOption result (offs.now ≡ []) (λ p. offs.now ≡ p.0.now ∷ p.1.now) }
{
    match offs {
        [off, rest @ ..] => Some((off, rest)),
        [] => None,
    }
}

// That no total is off.
pub fn evens(alloc: Global, balances: &[Balance]) -> Result<Vec<Option<Form>>, NoMemory>
    ensures { IfOk result (λ offs. (names : List (List ℕ)) (ts : List Total) → AreTotals names ts balances.now
        → OptionalsAre offs.items (sums.evens ts)) }
{
    let mut offs = Vec::new(alloc);
    for _balance in balances {
        add_off(&mut offs, Some(Form::number(alloc, 0)))?;
    }
    Ok(offs)
}

// Copies by how much each total is off.
pub fn copied_offs(alloc: Global, offs: &[Option<Form>]) -> Result<Vec<Option<Form>>, NoMemory>
    ensures { IfOk result (λ copies. (fs : List (Option forms.Form)) → OptionalsAre offs.now fs
        → OptionalsAre copies.items fs) }
{
    let mut copies = Vec::new(alloc);
    for off in offs {
        let copy = copied_if(alloc, off)?;
        add_off(&mut copies, copy)?;
    }
    Ok(copies)
}

// Copies loaded blocks.
pub fn copied_mores(alloc: Global, mores: &[More]) -> Result<Vec<More>, NoMemory>
    ensures { IfOk result (λ copies. (rs : List sums.More) → MoresAre mores.now rs → MoresAre copies.items rs) }
{
    let mut copies = Vec::new(alloc);
    for more in mores {
        let copy = more.copied(alloc)?;
        add_more(&mut copies, copy)?;
    }
    Ok(copies)
}

impl More {
    /// Returns a copy.
    ///
    /// # Errors
    ///
    /// Returns `NoMemory` if it is out of memory.
    pub fn copied(&self, alloc: Global) -> Result<More, NoMemory>
        ensures { IfOk result (λ copy. (r : sums.More) → MoreIs self.now r → MoreIs copy r) }
    {
        Ok(More {
            at: self.at,
            from: self.from,
            n: self.n,
            form: self.form.copied(alloc)?,
        })
    }
}

impl Sums {
    /// Returns what is known as a frame begins.
    ///
    /// # Errors
    ///
    /// Returns `NoMemory` if it is out of memory.
    pub fn first(alloc: Global, balances: &[Balance]) -> Result<Sums, NoMemory>
        ensures { IfOk result (λ known. (names : List (List ℕ)) (ts : List Total) → AreTotals names ts balances.now
            → SumsAre known (sums.first_known ts)) }
    {
        Ok(Sums {
            origins: Origins::own(alloc),
            mores: Vec::new(alloc),
            offs: evens(alloc, balances)?,
        })
    }

    /// Returns a copy.
    ///
    /// # Errors
    ///
    /// Returns `NoMemory` if it is out of memory.
    pub fn copied(&self, alloc: Global) -> Result<Sums, NoMemory>
        ensures { IfOk result (λ copy. (u : sums.Sums) → SumsAre self.now u → SumsAre copy u) }
    {
        Ok(Sums {
            origins: self.origins.copied(alloc)?,
            mores: copied_mores(alloc, self.mores.as_slice())?,
            offs: copied_offs(alloc, self.offs.as_slice())?,
        })
    }

    /// What is known is what its forms are as they are written.
    pub fn fits(&self)
        ensures { SumsAre self.now (sums_value self.now) }
    {}
}

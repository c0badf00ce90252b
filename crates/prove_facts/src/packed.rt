// Facts in little room: most are of one value.
ghost use Rattle.std.specs.Prelude.{◌≡◌, ◌⊎◌, ℕ, List, [], ◌∷◌, ◌++◌, OnOk, IfOk};
ghost use Rattle.model_prove.specs.Sets.{is_subset};
ghost use Rattle.model_prove.specs.Facts.{values_at, follow};
ghost use Rattle.prove_facts.specs.Facts.{fact_of, facts_of, AreSparse};
ghost use Rattle.prove_facts.specs.Packed.{ones_of, among, AreApart};

use crate::facts::{Fact, Facts, are_covered, from_address, is_covered, passed, rest_from};
use crate::growth::push;
use crate::values::Values;
use model_device::NoMemory;
use std::alloc::Global;
use std::marker::Model;

/// The fact that the byte at an address has one value.
#[derive(Clone, Copy, PartialEq, Eq, Debug)]
struct One {
    at: u16,
    value: u8,
}

/// Facts, those of one value apart from the others, each in the order of their addresses.
#[derive(Drop)]
pub struct PackedFacts {
    ones: Vec<One>,
    sets: Vec<Fact>,
}

impl Model for PackedFacts {
    ghost use Rattle.std.specs.Prelude.{ℕ, List};
    ghost use Rattle.prove_facts.specs.Facts.{facts_of, AreSparse};
    ghost use Rattle.prove_facts.specs.Packed.{ones_of, among, AreApart};

    ghost Value = { List (ℕ × List ℕ) };

    ghost view = { λ p. among (ones_of p.ones.items) (facts_of p.sets.items) };

    ghost invariant = { λ p. AreSparse 0 (ones_of p.ones.items) × AreSparse 0 (facts_of p.sets.items)
        × AreApart (ones_of p.ones.items) (facts_of p.sets.items) };
}

// Adds a fact to one of two lists.
fn add_fact(ones: &mut Vec<One>, sets: &mut Vec<Fact>, fact: &Fact) -> Result<(), NoMemory>
    ensures { OnOk result (((ones_of ones.new.items ≡ ones_of ones.old.items ++ fact_of fact.now ∷ [])
        × (facts_of sets.new.items ≡ facts_of sets.old.items))
        ⊎ ((ones_of ones.new.items ≡ ones_of ones.old.items)
        × (facts_of sets.new.items ≡ facts_of sets.old.items ++ fact_of fact.now ∷ []))) }
{
    match fact.values.only() {
        Some(value) => push(ones, One { at: fact.at, value }),
        None => push(sets, *fact),
    }
}

// The fact that a byte has one value.
fn fact_of_one(one: &One) -> Fact
    ensures { fact_of result ≡ (one.now.at, one.now.value ∷ []) }
{
    Fact {
        at: one.at,
        values: Values::one(one.value),
    }
}

// Whether a byte of which the first facts of a list are has only one value.
fn is_one_covered(rest: &[Fact], one: &One) -> bool
    ensures { AreSparse one.now.at (facts_of rest.now)
        → result ≡ is_subset (values_at (facts_of rest.now) one.now.at) (one.now.value ∷ []) }
{
    is_covered(rest, one.at, &Values::one(one.value))
}

// Whether each fact of one value follows from those of a list.
fn cover_ones(ones: &[One], list: &[Fact]) -> bool
    ensures { AreSparse 0 (ones_of ones.now) → AreSparse 0 (facts_of list.now)
        → result ≡ follow (facts_of list.now) (ones_of ones.now) }
{
    let mut rest = list;
    for one in ones {
        rest = from_address(rest, one.at);
        if !is_one_covered(rest, one) {
            return false;
        }
    }
    true
}

// All facts in the order of their addresses.
fn merged(alloc: Global, ones: &[One], sets: &[Fact]) -> Result<Vec<Fact>, NoMemory>
    ensures { AreSparse 0 (ones_of ones.now) → AreSparse 0 (facts_of sets.now)
        → AreApart (ones_of ones.now) (facts_of sets.now)
        → IfOk result (λ list. facts_of list.items ≡ among (ones_of ones.now) (facts_of sets.now)) }
{
    let mut list = Vec::with_capacity(alloc, ones.len().saturating_add(sets.len()))?;
    let mut rest = sets;
    for one in ones {
        let before = passed(rest, one.at);
        list.extend_from_slice(&rest[..before])?;
        push(&mut list, fact_of_one(one))?;
        rest = rest_from(rest, before);
    }
    list.extend_from_slice(rest)?;
    Ok(list)
}

impl PackedFacts {
    /// Packs facts.
    ///
    /// # Errors
    ///
    /// Returns `NoMemory` if it is out of memory.
    pub fn new(alloc: Global, facts: &Facts) -> Result<PackedFacts, NoMemory>
        ensures { IfOk result (λ packed. packed ≡ facts.now) }
    {
        let mut ones = Vec::new(alloc);
        let mut sets = Vec::new(alloc);
        let list = facts.list();
        for fact in list {
            add_fact(&mut ones, &mut sets, fact)?;
        }
        ones.shrink_to_fit();
        sets.shrink_to_fit();
        Ok(PackedFacts { ones, sets })
    }

    /// Returns the facts.
    ///
    /// # Errors
    ///
    /// Returns `NoMemory` if it is out of memory.
    pub fn facts(&self, alloc: Global) -> Result<Facts, NoMemory>
        ensures { IfOk result (λ facts. facts ≡ self.now) }
    {
        let list = merged(alloc, self.ones.as_slice(), self.sets.as_slice())?;
        Ok(Facts { list })
    }

    /// Returns whether what other facts allow, these allow.
    pub fn covers(&self, other: &Facts) -> bool
        ensures { result ≡ follow other.now self.now }
    {
        let ones = cover_ones(self.ones.as_slice(), other.list());
        ones && are_covered(self.sets.as_slice(), other.list())
    }
}

// Facts: which values bytes at addresses may have.
ghost use Rattle.std.specs.Prelude.{◌≡◌, ℕ, suc, ◌+◌, ◌-◌, ◌<◌, ◌≤◌, true, false, List, [], ◌∷◌, ◌++◌, length, take, drop, OnOk, OnErr, IfOk};
ghost use Rattle.model_prove.specs.Sets.{is_full, is_subset};
ghost use Rattle.model_prove.specs.Facts.{values_at, fact_at, know, within, without_bytes, joined_fact, join, follow};
ghost use Rattle.prove_facts.specs.Sets.{set_of};
ghost use Rattle.prove_facts.specs.Facts.{fact_of, facts_of, AreSparse, AreBelow, starts_at, fact_alone};

use crate::growth::push;
use crate::values::Values;
use model_device::NoMemory;
use std::alloc::Global;
use std::marker::Model;

#[derive(Clone, Copy, PartialEq, Eq, Debug)]
pub struct Fact {
    pub at: u16,
    pub values: Values,
}

/// Facts in the order of their addresses, none of which allows every value; a byte without a fact has any value.
#[derive(Drop)]
pub struct Facts {
    pub(crate) list: Vec<Fact>,
}

impl Model for Facts {
    ghost use Rattle.std.specs.Prelude.{ℕ, List};
    ghost use Rattle.prove_facts.specs.Facts.{facts_of, AreSparse};

    ghost Value = { List (ℕ × List ℕ) };

    ghost view = { λ f. facts_of f.list.items };

    ghost invariant = { λ f. AreSparse 0 (facts_of f.list.items) };
}

// The number of facts at addresses below one.
fn place_of(list: &[Fact], at: u32) -> usize
    ensures bound { result ≤ length list.now }
    ensures below { AreSparse 0 (facts_of list.now) → AreBelow at (take result (facts_of list.now)) }
    ensures above { AreSparse 0 (facts_of list.now) → AreSparse at (drop result (facts_of list.now)) }
{
    let mut low = 0;
    let mut high = list.len();
    while low < high {
        let middle = low + (high - low) / 2;
        if (list[middle].at as u32) < at {
            low = middle + 1;
        } else {
            high = middle;
        }
    }
    low
}

// Whether the fact at a place is one of an address.
fn is_at(list: &[Fact], place: usize, at: u16) -> bool
    ensures { result ≡ starts_at at (drop place (facts_of list.now)) }
{
    place < list.len() && list[place].at == at
}

// The values of a byte as a fact allows them.
fn values_of_fact(fact: &Fact, at: u16) -> Values
    ensures { set_of result ≡ values_at (fact_of fact.now ∷ []) at }
{
    if fact.at == at {
        return fact.values;
    }
    Values::ALL
}

// The values that a byte may have.
fn values_in(list: &[Fact], at: u16) -> Values
    ensures { AreSparse 0 (facts_of list.now) → set_of result ≡ values_at (facts_of list.now) at }
{
    let place = place_of(list, at as u32);
    if place >= list.len() {
        return Values::ALL;
    }
    let fact = list[place];
    values_of_fact(&fact, at)
}

// Replaces the fact at a place by another, which is left out if it allows every value.
fn replace(list: &mut Vec<Fact>, place: usize, fact: Fact)
    ensures { place < length list.old.items → facts_of list.new.items ≡ take place (facts_of list.old.items)
        ++ (fact_alone (fact_of fact) ++ drop (suc place) (facts_of list.old.items)) }
{
    if place >= list.len() {
        return;
    }
    if fact.values.is_all() {
        list.remove(place);
    } else {
        list[place] = fact;
    }
}

// Puts a fact in at a place, unless it allows every value.
fn insert(list: &mut Vec<Fact>, place: usize, fact: Fact) -> Result<(), NoMemory>
    ensures ok { place ≤ length list.old.items → OnOk result (facts_of list.new.items ≡
        take place (facts_of list.old.items)
        ++ (fact_alone (fact_of fact) ++ drop place (facts_of list.old.items))) }
    ensures err { OnErr result (list.new.items ≡ list.old.items) }
{
    if fact.values.is_all() || place > list.len() {
        return Ok(());
    }
    match list.insert(place, fact) {
        Ok(()) => Ok(()),
        Err(_) => Err(NoMemory),
    }
}

// Makes a fact the one of its byte.
fn put(list: &mut Vec<Fact>, fact: Fact) -> Result<(), NoMemory>
    ensures ok { AreSparse 0 (facts_of list.old.items) → OnOk result (facts_of list.new.items ≡
        know fact.at (set_of fact.values) (facts_of list.old.items)) }
    ensures err { OnErr result (list.new.items ≡ list.old.items) }
    ensures sparse { AreSparse 0 (facts_of list.old.items) → AreSparse 0 (facts_of list.new.items) }
{
    let place = place_of(list.as_slice(), fact.at as u32);
    let there = is_at(list.as_slice(), place, fact.at);
    if there {
        replace(list, place, fact);
        return Ok(());
    }
    insert(list, place, fact)
}

// The facts of addresses from one to below another.
fn part_of(list: &[Fact], from: u32, to: u32) -> &[Fact]
    ensures { AreSparse 0 (facts_of list.now) → facts_of result.now ≡ within from to (facts_of list.now) }
{
    let low = place_of(list, from);
    let high = place_of(list, to);
    if low >= high {
        return &[];
    }
    &list[low..high]
}

// Takes away the facts of addresses from one to below another.
fn remove_part(list: &mut Vec<Fact>, from: u32, to: u32) -> Result<(), NoMemory>
    ensures ok { AreSparse 0 (facts_of list.old.items) → OnOk result (facts_of list.new.items ≡
        without_bytes from (to - from) (facts_of list.old.items)) }
    ensures sparse { AreSparse 0 (facts_of list.old.items) → AreSparse 0 (facts_of list.new.items) }
{
    let low = place_of(list.as_slice(), from);
    let high = place_of(list.as_slice(), to);
    if low >= high {
        return Ok(());
    }
    let after = Vec::from_slice(*list.allocator(), &list.as_slice()[high..])?;
    list.truncate(low);
    list.extend_from_slice(after.as_slice())?;
    Ok(())
}

// Keeps the facts below an address, and adds others of addresses from there to below another.
fn extend_part(list: &mut Vec<Fact>, more: &[Fact], from: u32, to: u32) -> Result<(), NoMemory>
    ensures ok { AreSparse 0 (facts_of list.old.items) → AreSparse 0 (facts_of more.now) → OnOk result
        (facts_of list.new.items ≡ within 0 from (facts_of list.old.items) ++ within from to (facts_of more.now)) }
    ensures sparse { AreSparse 0 (facts_of list.old.items) → AreSparse 0 (facts_of more.now)
        → AreSparse 0 (facts_of list.new.items) }
{
    let low = place_of(list.as_slice(), from);
    list.truncate(low);
    list.extend_from_slice(part_of(more, from, to))?;
    Ok(())
}

impl Facts {
    /// Returns no facts: every byte has any value.
    pub fn new(alloc: Global) -> Facts
        ensures { result ≡ [] }
    {
        Facts {
            list: Vec::new(alloc),
        }
    }

    /// Returns the facts in the order of their addresses.
    pub fn list(&self) -> &[Fact]
        ensures facts { facts_of result.now ≡ self.now }
        ensures sparse { AreSparse 0 self.now }
    {
        self.list.as_slice()
    }

    /// Returns a copy.
    ///
    /// # Errors
    ///
    /// Returns `NoMemory` if it is out of memory.
    pub fn copied(&self, alloc: Global) -> Result<Facts, NoMemory>
        ensures { IfOk result (λ copy. copy ≡ self.now) }
    {
        Ok(Facts {
            list: Vec::from_slice(alloc, self.list.as_slice())?,
        })
    }

    /// Returns the values that the byte at an address may have.
    pub fn at(&self, at: u16) -> Values
        ensures { set_of result ≡ values_at self.now at }
    {
        values_in(self.list.as_slice(), at)
    }

    /// Makes these the values that the byte at an address may have.
    ///
    /// # Errors
    ///
    /// Returns `NoMemory` if it is out of memory; the facts are then those that they were.
    pub fn set(&mut self, at: u16, values: Values) -> Result<(), NoMemory>
        ensures known { OnOk result (self.new ≡ know at (set_of values) self.old) }
        ensures full { OnErr result (self.new ≡ self.old) }
    {
        put(&mut self.list, Fact { at, values })
    }

    /// Takes away the facts of addresses from one to below another.
    ///
    /// # Errors
    ///
    /// Returns `NoMemory` if it is out of memory.
    pub fn forget(&mut self, from: u32, to: u32) -> Result<(), NoMemory>
        ensures { OnOk result (self.new ≡ without_bytes from (to - from) self.old) }
    {
        remove_part(&mut self.list, from, to)
    }

    /// Returns the facts of addresses from one to below another.
    ///
    /// # Errors
    ///
    /// Returns `NoMemory` if it is out of memory.
    pub fn part(&self, alloc: Global, from: u32, to: u32) -> Result<Facts, NoMemory>
        ensures { IfOk result (λ part. part ≡ within from to self.now) }
    {
        Ok(Facts {
            list: Vec::from_slice(alloc, part_of(self.list.as_slice(), from, to))?,
        })
    }

    /// Keeps the facts below an address, and adds those of others from there to below another address.
    ///
    /// # Errors
    ///
    /// Returns `NoMemory` if it is out of memory.
    pub fn append_part(&mut self, other: &Facts, from: u32, to: u32) -> Result<(), NoMemory>
        ensures { OnOk result (self.new ≡ within 0 from self.old ++ within from to other.now) }
    {
        extend_part(&mut self.list, other.list(), from, to)
    }

    /// Whether what the other allows, these facts allow.
    pub fn covers(&self, other: &Facts) -> bool
        ensures { result ≡ follow other.now self.now }
    {
        are_covered(self.list.as_slice(), other.list())
    }

    /// Joins facts with others.
    ///
    /// # Errors
    ///
    /// Returns `NoMemory` if it is out of memory.
    pub fn joined(&self, alloc: Global, other: &Facts) -> Result<Facts, NoMemory>
        ensures { IfOk result (λ both. both ≡ join self.now other.now) }
    {
        let list = joined_lists(alloc, self.list.as_slice(), other.list())?;
        Ok(Facts { list })
    }
}

/// Returns whether each fact of one list follows from those of another.
pub fn are_covered(facts: &[Fact], list: &[Fact]) -> bool
    ensures { AreSparse 0 (facts_of facts.now) → AreSparse 0 (facts_of list.now)
        → result ≡ follow (facts_of list.now) (facts_of facts.now) }
{
    let mut rest = list;
    for fact in facts {
        rest = from_address(rest, fact.at);
        if !is_covered(rest, fact.at, &fact.values) {
            return false;
        }
    }
    true
}

// The facts of two lists joined.
fn joined_lists(alloc: Global, list: &[Fact], other: &[Fact]) -> Result<Vec<Fact>, NoMemory>
    ensures { AreSparse 0 (facts_of list.now) → AreSparse 0 (facts_of other.now)
        → IfOk result (λ both. facts_of both.items ≡ join (facts_of list.now) (facts_of other.now)) }
{
    let mut both = Vec::with_capacity(alloc, list.len())?;
    let mut rest = other;
    for fact in list {
        rest = from_address(rest, fact.at);
        add_union(&mut both, fact, rest)?;
    }
    Ok(both)
}

// Adds the union of a fact and the first of some, if both are of one byte.
fn add_union(list: &mut Vec<Fact>, fact: &Fact, rest: &[Fact]) -> Result<(), NoMemory>
    ensures { AreSparse fact.now.at (facts_of rest.now) → OnOk result (facts_of list.new.items ≡
        facts_of list.old.items
        ++ joined_fact (fact_of fact.now) (fact_at (facts_of rest.now) fact.now.at) []) }
{
    match rest {
        [first, ..] => add_both(list, fact, first),
        [] => Ok(()),
    }
}

// Adds the union of two facts, if both are of one byte and it leaves out a value.
fn add_both(list: &mut Vec<Fact>, fact: &Fact, first: &Fact) -> Result<(), NoMemory>
    ensures { OnOk result (facts_of list.new.items ≡ facts_of list.old.items
        ++ joined_fact (fact_of fact.now) (fact_at (fact_of first.now ∷ []) fact.now.at) []) }
{
    if first.at != fact.at {
        return Ok(());
    }
    let values = fact.values.or(&first.values);
    if values.is_all() {
        return Ok(());
    }
    push(
        list,
        Fact {
            at: fact.at,
            values,
        },
    )
}

// Whether the values of a byte as a fact allows them are among some.
fn is_fact_within(fact: &Fact, at: u16, values: &Values) -> bool
    ensures { is_full (set_of values.now) ≡ false
        → result ≡ is_subset (values_at (fact_of fact.now ∷ []) at) (set_of values.now) }
{
    fact.at == at && fact.values.is_within(values)
}

/// Returns whether a byte of which the first facts of a list are has only some values.
pub fn is_covered(rest: &[Fact], at: u16, values: &Values) -> bool
    ensures { AreSparse at (facts_of rest.now) → is_full (set_of values.now) ≡ false
        → result ≡ is_subset (values_at (facts_of rest.now) at) (set_of values.now) }
{
    match rest {
        [first, ..] => is_fact_within(first, at, values),
        [] => false,
    }
}

/// Returns the number of facts before the first one of an address or above it.
pub fn passed(list: &[Fact], at: u16) -> usize
    ensures bound { result ≤ length list.now }
    ensures below { AreBelow at (take result (facts_of list.now)) }
    ensures above { (k : ℕ) → AreSparse k (facts_of list.now) → AreSparse at (drop result (facts_of list.now)) }
{
    for (index, fact) in list.iter().enumerate() {
        if fact.at >= at {
            return index;
        }
    }
    list.len()
}

/// Returns the facts from a place on.
pub fn rest_from(list: &[Fact], place: usize) -> &[Fact]
    requires { place ≤ length list.now }
    ensures { facts_of result.now ≡ drop place (facts_of list.now) }
{
    &list[place..]
}

/// Returns the facts from an address on.
pub fn from_address(list: &[Fact], at: u16) -> &[Fact]
    ensures same { (a : ℕ) → at ≤ a → fact_at (facts_of result.now) a ≡ fact_at (facts_of list.now) a }
    ensures sparse { (k : ℕ) → AreSparse k (facts_of list.now) → AreSparse at (facts_of result.now) }
{
    &list[passed(list, at)..]
}

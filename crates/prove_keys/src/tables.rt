// The two tables: the moments between commands, and the places of the code.
ghost use Rattle.std.specs.Prelude.{◌≡◌, ℕ, ◌<◌, Bool, true, false, List, length, get_or, IfOk, IfSome};
ghost use Rattle.std.specs.List.{AllByRecursion};
ghost use Rattle.prove_facts.specs.model_prove.specs.Tables.{includes, moment_at, place_at};
ghost use Rattle.prove_facts.specs.model_prove.specs.Arrivals.{AtMoment, AtPlace};
ghost use Rattle.prove_keys.specs.Compares.{said};
ghost use Rattle.prove_keys.specs.Keys.{moment_of, place_of};
ghost use Rattle.prove_keys.specs.Known.{known_of, settled_of};
ghost use Rattle.prove_keys.specs.Tables.{tables_of, AreWhole, AreDistinct, IsWholeMoment, IsWholePlace, IsOneOf};

use crate::compares::LastSaid;
use crate::keys::{Begun, MomentKey, PlaceKey};
use crate::known::PackedKnown;
use indexmap::IndexSet;
use model_device::NoMemory;
use prove_facts::Facts;
use std::alloc::Global;

/// What is known at each key, by its number.
#[derive(Drop)]
pub struct Tables {
    pub moments: IndexSet<MomentKey>,
    /// The facts of each moment.
    pub facts: Vec<Facts>,
    pub places: IndexSet<PlaceKey>,
    /// What is known at each place.
    pub known: Vec<PackedKnown>,
}

impl Tables {
    /// Returns tables without keys.
    pub fn new(alloc: Global) -> Tables {
        Tables {
            moments: IndexSet::new(alloc),
            facts: Vec::new(alloc),
            places: IndexSet::new(alloc),
            known: Vec::new(alloc),
        }
    }

    /// Returns the number of keys of both tables.
    pub fn keys(&self) -> usize {
        self.facts.len().saturating_add(self.known.len())
    }

    /// Returns whether each key has an amount for each of `names` allowances, and each place is of one of `classes`
    /// classes of commands or of a delegation.
    pub fn are_whole(&self, names: usize, classes: usize) -> bool
        ensures { result ≡ true → AreWhole names classes self.now }
    {
        are_whole_moments(self.moments.as_slice(), names)
            && are_whole_places(self.places.as_slice(), names, classes)
    }

    // The facts of a moment, if the table has it.
    fn facts_at(&self, key: &MomentKey) -> Option<&Facts>
        ensures { (names : List (List ℕ)) (classes : List (List Bool)) (fixed : ℕ)
            → AreWhole (length names) (length classes) self.now → IfSome result (λ facts.
            moment_at (tables_of names classes fixed self.now).moments (moment_of names key.now) ≡ Some facts.now) }
    {
        let index = self.moments.get_index_of(key)?;
        item(self.facts.as_slice(), index)
    }

    // What is known at a place, if the table has it.
    fn known_at(&self, key: &PlaceKey) -> Option<&PackedKnown>
        ensures { (names : List (List ℕ)) (classes : List (List Bool)) (fixed : ℕ)
            → AreWhole (length names) (length classes) self.now → AreDistinct classes → IfSome result (λ known.
            place_at (tables_of names classes fixed self.now).places (place_of names classes key.now)
            ≡ Some (known_of key.now.registers.protected fixed known.now)) }
    {
        let index = self.places.get_index_of(key)?;
        item(self.known.as_slice(), index)
    }

    /// Returns whether the tables have a moment, with facts that follow from these.
    pub fn holds_moment(&self, key: &MomentKey, facts: &Facts) -> bool
        ensures { (names : List (List ℕ)) (classes : List (List Bool)) (fixed : ℕ)
            → AreWhole (length names) (length classes) self.now → result ≡ true
            → includes (tables_of names classes fixed self.now) (AtMoment (moment_of names key.now) facts.now) ≡ true }
    {
        match self.facts_at(key) {
            Some(held) => held.covers(facts),
            None => false,
        }
    }

    /// Returns whether the tables have a place, at which what is known follows from facts of all bytes, facts of the
    /// static bytes as power would leave them, and a last compare; `fixed` is the number of static bytes.
    ///
    /// # Errors
    ///
    /// Returns `NoMemory` if it is out of memory.
    pub fn holds_place(
        &self,
        alloc: Global,
        key: &PlaceKey,
        fixed: u16,
        bytes: &Facts,
        kept: &Facts,
        last: &LastSaid,
    ) -> Result<bool, NoMemory>
        ensures { (names : List (List ℕ)) (classes : List (List Bool))
            → AreWhole (length names) (length classes) self.now → AreDistinct classes
            → IfOk result (λ holds. holds ≡ true
            → includes (tables_of names classes fixed self.now) (AtPlace (place_of names classes key.now)
            (record { bytes = bytes.now; kept = kept.now; compare = said last.now })) ≡ true) }
    {
        match self.known_at(key) {
            Some(held) => { held.follows(alloc, key.registers.protected, fixed, bytes, kept, last) }
            None => Ok(false),
        }
    }

    /// Returns whether the tables have a place without protection, at which what is known follows from facts of all
    /// bytes, which power would leave, and a last compare.
    pub fn holds_settled(&self, key: &PlaceKey, bytes: &Facts, last: &LastSaid) -> bool
        ensures { (names : List (List ℕ)) (classes : List (List Bool)) (fixed : ℕ)
            → AreWhole (length names) (length classes) self.now → AreDistinct classes → result ≡ true
            → includes (tables_of names classes fixed self.now) (AtPlace (place_of names classes key.now)
            (settled_of fixed bytes.now (said last.now))) ≡ true }
    {
        if key.registers.protected {
            return false;
        }
        match self.known_at(key) {
            Some(held) => held.follows_settled(bytes, last),
            None => false,
        }
    }
}

// The element with a number, if the list has it.
fn item<T>(list: &[T], number: usize) -> Option<&T>
    ensures { IfSome result (λ x. (number < length list.now) × (x.now ≡ get_or list.now number x.now)) }
{
    if number < list.len() {
        Some(&list[number])
    } else {
        None
    }
}

// Whether a moment has an amount for each of some allowances.
fn is_whole_moment(key: &MomentKey, names: usize) -> bool
    ensures { result ≡ true → IsWholeMoment names key.now }
{
    key.amounts.len() == names
}

// Whether each moment has.
fn are_whole_moments(keys: &[MomentKey], names: usize) -> bool
    ensures { result ≡ true → AllByRecursion (IsWholeMoment names) keys.now }
{
    for key in keys {
        if !is_whole_moment(key, names) {
            return false;
        }
    }
    true
}

// Whether a place has an amount for each of some allowances, and is of one of some classes or of a delegation.
fn is_whole_place(key: &PlaceKey, names: usize, classes: usize) -> bool
    ensures { result ≡ true → IsWholePlace names classes key.now }
{
    key.amounts.len() == names && is_one_of(&key.begun, classes)
}

// Whether each place has and is.
fn are_whole_places(keys: &[PlaceKey], names: usize, classes: usize) -> bool
    ensures { result ≡ true → AllByRecursion (IsWholePlace names classes) keys.now }
{
    for key in keys {
        if !is_whole_place(key, names, classes) {
            return false;
        }
    }
    true
}

// Whether a frame began by a delegation or by a command of one of some classes.
fn is_one_of(begun: &Begun, classes: usize) -> bool
    ensures { result ≡ true → IsOneOf classes begun.now }
{
    match begun {
        Begun::Delegated => true,
        Begun::Class(class) => *class < classes,
    }
}

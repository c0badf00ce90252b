// What is known at a place, as it is worked with and as the tables keep it.
ghost use Rattle.std.specs.Prelude.{◌≡◌, ℕ, true, false, IfOk};
ghost use Rattle.prove_facts.specs.model_prove.specs.Facts.{within, join, follow};
ghost use Rattle.prove_facts.specs.model_prove.specs.Keys.{known_follows};
ghost use Rattle.prove_facts.specs.model_prove.specs.Compares.{join_compare};
ghost use Rattle.prove_keys.specs.Compares.{compare_of, said};
ghost use Rattle.prove_keys.specs.Known.{HoldsAlike, kept_of, known_of, settled_of};

use crate::compares::{Last, LastSaid};
use model_device::NoMemory;
use prove_facts::{Facts, PackedFacts, Sums};
use std::alloc::Global;

/// What is known at a place.
#[derive(Drop)]
pub struct Known {
    /// The bytes as the application reads them.
    pub read: Facts,
    /// The static bytes as power would leave them, where protection is on.
    pub kept: Facts,
    pub last: Last,
    pub sums: Sums,
}

impl Known {
    /// Returns a copy.
    ///
    /// # Errors
    ///
    /// Returns `NoMemory` if it is out of memory.
    pub fn copied(&self, alloc: Global) -> Result<Known, NoMemory>
        ensures read { IfOk result (λ copy. copy.read ≡ self.now.read) }
        ensures kept { IfOk result (λ copy. copy.kept ≡ self.now.kept) }
        ensures last { IfOk result (λ copy. copy.last ≡ self.now.last) }
    {
        Ok(Known {
            read: self.read.copied(alloc)?,
            kept: self.kept.copied(alloc)?,
            last: self.last,
            sums: self.sums.copied(alloc)?,
        })
    }

    /// Returns what holds whichever of two it is.
    ///
    /// # Errors
    ///
    /// Returns `NoMemory` if it is out of memory.
    pub fn joined(&self, alloc: Global, other: &Known) -> Result<Known, NoMemory>
        ensures read { IfOk result (λ both. both.read ≡ join self.now.read other.now.read) }
        ensures kept { IfOk result (λ both. both.kept ≡ join self.now.kept other.now.kept) }
        ensures last { IfOk result (λ both. compare_of both.last ≡ join_compare (compare_of self.now.last)
            (compare_of other.now.last)) }
    {
        Ok(Known {
            read: self.read.joined(alloc, &other.read)?,
            kept: self.kept.joined(alloc, &other.kept)?,
            last: self.last.joined(&other.last),
            sums: self.sums.joined(alloc, &other.sums)?,
        })
    }
}

/// What is known at a place, in little room.
#[derive(Drop)]
pub struct PackedKnown {
    read: PackedFacts,
    kept: PackedFacts,
    last: Last,
    sums: Sums,
}

impl PackedKnown {
    /// Packs what is known.
    ///
    /// # Errors
    ///
    /// Returns `NoMemory` if it is out of memory.
    pub fn new(alloc: Global, known: &Known) -> Result<PackedKnown, NoMemory>
        ensures { IfOk result (λ packed. HoldsAlike packed known.now) }
    {
        Ok(PackedKnown {
            read: PackedFacts::new(alloc, &known.read)?,
            kept: PackedFacts::new(alloc, &known.kept)?,
            last: known.last,
            sums: known.sums.copied(alloc)?,
        })
    }

    /// Returns what is known.
    ///
    /// # Errors
    ///
    /// Returns `NoMemory` if it is out of memory.
    pub fn known(&self, alloc: Global) -> Result<Known, NoMemory>
        ensures { IfOk result (λ known. HoldsAlike self.now known) }
    {
        Ok(Known {
            read: self.read.facts(alloc)?,
            kept: self.kept.facts(alloc)?,
            last: self.last,
            sums: self.sums.copied(alloc)?,
        })
    }

    /// Returns whether joining the other changes nothing.
    ///
    /// # Errors
    ///
    /// Returns `NoMemory` if it is out of memory.
    pub fn covers(&self, alloc: Global, other: &Known) -> Result<bool, NoMemory> {
        if !self.read.covers(&other.read)
            || !self.kept.covers(&other.kept)
            || self.last.joined(&other.last) != self.last
        {
            return Ok(false);
        }
        if self.sums.is_idle() {
            return Ok(true);
        }
        Ok(self.sums.joined(alloc, &other.sums)? == self.sums)
    }

    /// Returns whether what is known here, at a place under protection or not, follows from facts of all bytes, facts
    /// of the static bytes as power would leave them, and a last compare; `fixed` is the number of static bytes.
    ///
    /// # Errors
    ///
    /// Returns `NoMemory` if it is out of memory.
    pub fn follows(
        &self,
        alloc: Global,
        protected: bool,
        fixed: u16,
        bytes: &Facts,
        kept: &Facts,
        last: &LastSaid,
    ) -> Result<bool, NoMemory>
        ensures { IfOk result (λ follows. follows ≡ true → known_follows (record {
          bytes = bytes.now;
          kept = kept.now;
          compare = said last.now;
        }) (known_of protected fixed self.now) ≡ true) }
    {
        if !last.follows(&self.last) || !self.read.covers(bytes) {
            return Ok(false);
        }
        self.keeps(alloc, protected, fixed, kept)
    }

    // Whether the facts that are kept here follow from others.
    fn keeps(
        &self,
        alloc: Global,
        protected: bool,
        fixed: u16,
        kept: &Facts,
    ) -> Result<bool, NoMemory>
        ensures { IfOk result (λ follow_here. follow_here ≡ true
            → follow kept.now (kept_of protected fixed self.now.read self.now.kept) ≡ true) }
    {
        if protected {
            return Ok(self.kept.covers(kept));
        }
        let part = self.read.facts(alloc)?.part(alloc, 0, fixed as u32)?;
        Ok(part.covers(kept))
    }

    /// Returns whether what is known here, at a place without protection, follows from facts of all bytes and a last
    /// compare: power would leave the static bytes as they are read.
    pub fn follows_settled(&self, bytes: &Facts, last: &LastSaid) -> bool
        ensures { (fixed : ℕ) → result ≡ true → known_follows (settled_of fixed bytes.now (said last.now))
            (known_of false fixed self.now) ≡ true }
    {
        last.follows(&self.last) && self.read.covers(bytes)
    }
}

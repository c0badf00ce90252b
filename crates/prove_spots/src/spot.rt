// A place with what is known there.
ghost use Rattle.std.specs.Prelude.{◌≡◌, ℕ, Bool, List, [], ◌∷◌, IfOk, OnOk};
ghost use Rattle.prove_facts.specs.model_rules.specs.Keeping.{Amounts};
ghost use Rattle.prove_facts.specs.model_prove.specs.Digits.{Flags};
ghost use Rattle.prove_facts.specs.model_prove.specs.Facts.{know};
ghost use Rattle.prove_facts.specs.model_prove.specs.Keys.{Start};
ghost use Rattle.prove_facts.specs.model_prove.specs.Steps as steps;
ghost use Rattle.prove_facts.specs.model_prove.specs.Steps.{with_facts};
ghost use Rattle.prove_keys.specs.Compares.{compare_of, said};
ghost use Rattle.prove_keys.specs.Keys.{amounts_of, calls_of, place_of, start_of};
ghost use Rattle.prove_spots.specs.Grounds.{Ground, HasRegisters, ground_of, spot_of, with_at, with_bytes, with_calls, with_compare, with_dt};

use model_device::NoMemory;
use prove_facts::{Facts, Values};
use prove_keys::{Begun, Call, Last, LastSaid, PlaceKey, Registers};
use std::alloc::Global;
use std::marker::Model;

/// A place with what is known there: its registers, the open calls with the oldest first, the facts of the bytes as the
/// application reads them, those of the static bytes as power would leave them, and the last compare.
#[derive(Drop)]
pub struct Spot {
    pub(crate) registers: Registers,
    pub(crate) calls: Vec<Call>,
    pub(crate) bytes: Facts,
    pub(crate) kept: Facts,
    pub(crate) last: LastSaid,
}

impl Model for Spot {
    ghost use Rattle.prove_spots.specs.Grounds.{Ground, ground_of};

    ghost Value = { Ground };

    ghost view = { ground_of };
}

impl Spot {
    /// Returns a place with what is known there.
    pub fn new(
        registers: Registers,
        calls: Vec<Call>,
        bytes: Facts,
        kept: Facts,
        last: Last,
    ) -> Spot
        ensures { let there : Ground = record {
          at = registers.at;
          c = registers.c;
          z = registers.z;
          dt = registers.dt;
          lb = registers.lb;
          protected = registers.protected;
          calls = calls_of calls.items;
          bytes = bytes;
          kept =
              kept;
          compare = compare_of last;
        } in result ≡ there }
    {
        Spot {
            registers,
            calls,
            bytes,
            kept,
            last: LastSaid::Held(last),
        }
    }

    /// Returns a copy.
    ///
    /// # Errors
    ///
    /// Returns `NoMemory` if it is out of memory.
    pub fn copied(&self, alloc: Global) -> Result<Spot, NoMemory>
        ensures { IfOk result (λ copy. copy ≡ self.now) }
    {
        Ok(Spot {
            registers: self.registers,
            calls: Vec::from_slice(alloc, self.calls.as_slice())?,
            bytes: self.bytes.copied(alloc)?,
            kept: self.kept.copied(alloc)?,
            last: self.last,
        })
    }

    /// Returns the registers.
    pub fn registers(&self) -> Registers
        ensures { HasRegisters self.now result }
    {
        self.registers
    }

    /// Returns DT.
    pub fn dt(&self) -> u16
        ensures { result ≡ self.now.dt }
    {
        self.registers.dt
    }

    /// Returns LB.
    pub fn lb(&self) -> u16
        ensures { result ≡ self.now.lb }
    {
        self.registers.lb
    }

    /// Returns the place.
    pub fn at(&self) -> u16
        ensures { result ≡ self.now.at }
    {
        self.registers.at
    }

    /// Returns the flag C.
    pub fn c(&self) -> bool
        ensures { result ≡ self.now.c }
    {
        self.registers.c
    }

    /// Returns the flag Z.
    pub fn z(&self) -> bool
        ensures { result ≡ self.now.z }
    {
        self.registers.z
    }

    /// Returns whether the protection is on.
    pub fn protected(&self) -> bool
        ensures { result ≡ self.now.protected }
    {
        self.registers.protected
    }

    /// Returns the open calls, the oldest first.
    pub fn calls(&self) -> &[Call]
        ensures { calls_of result.now ≡ self.now.calls }
    {
        self.calls.as_slice()
    }

    /// Returns the facts of the bytes as the application reads them.
    pub fn bytes(&self) -> &Facts
        ensures { result.now ≡ self.now.bytes }
    {
        &self.bytes
    }

    /// Returns the facts of the static bytes as power would leave them.
    pub fn kept(&self) -> &Facts
        ensures { result.now ≡ self.now.kept }
    {
        &self.kept
    }

    /// Returns the last compare.
    pub fn last(&self) -> &LastSaid
        ensures { said result.now ≡ self.now.compare }
    {
        &self.last
    }

    /// Returns the key of the place in a frame that began so, with these amounts of the allowances.
    ///
    /// # Errors
    ///
    /// Returns `NoMemory` if it is out of memory.
    pub fn key(&self, alloc: Global, begun: Begun, amounts: &[u32]) -> Result<PlaceKey, NoMemory>
        ensures { IfOk result (λ key. (names : List (List ℕ)) (classes : List (List Bool)) → place_of names classes key
            ≡ (spot_of (start_of classes begun) (amounts_of names amounts.now) self.now).key) }
    {
        Ok(PlaceKey {
            begun,
            amounts: Vec::from_slice(alloc, amounts)?,
            registers: self.registers,
            calls: Vec::from_slice(alloc, self.calls.as_slice())?,
        })
    }

    /// Sets the place.
    pub fn go(&mut self, at: u16)
        ensures { self.new ≡ with_at at self.old }
    {
        self.registers.at = at;
    }

    /// Sets DT.
    pub fn set_dt(&mut self, dt: u16)
        ensures { self.new ≡ with_dt dt self.old }
    {
        self.registers.dt = dt;
    }

    /// Sets the open calls, the oldest first.
    pub fn set_calls(&mut self, calls: Vec<Call>)
        ensures { self.new ≡ with_calls (calls_of calls.items) self.old }
    {
        self.calls = calls;
    }

    /// Sets the facts of the bytes as the application reads them.
    pub fn set_bytes(&mut self, bytes: Facts)
        ensures ground { self.new ≡ with_bytes bytes self.old }
        ensures spot { (s : Start) (a : Amounts) → spot_of s a self.new ≡ with_facts (spot_of s a self.old) bytes }
    {
        self.bytes = bytes;
    }

    /// Sets the last compare.
    pub fn set_last(&mut self, last: LastSaid)
        ensures { self.new ≡ with_compare (said last) self.old }
    {
        self.last = last;
    }

    /// Makes a value the one that the byte at an address has.
    ///
    /// # Errors
    ///
    /// Returns `NoMemory` if it is out of memory.
    pub fn known(&mut self, at: u16, value: u8) -> Result<(), NoMemory>
        ensures ground { OnOk result (self.new ≡ with_bytes (know at (value ∷ []) self.old.bytes) self.old) }
        ensures spot { OnOk result ((s : Start) (a : Amounts) → spot_of s a self.new
            ≡ with_facts (spot_of s a self.old) (know at (value ∷ []) self.old.bytes)) }
    {
        self.bytes.set(at, Values::one(value))
    }

    /// Sets the flags, if a row sets them.
    pub fn with_flags(&mut self, flags: Option<(bool, bool)>)
        ensures { (s : Start) (a : Amounts) → spot_of s a self.new ≡ steps.with_flags flags (spot_of s a self.old) }
    {
        if let Some((c, z)) = flags {
            self.registers.c = c;
            self.registers.z = z;
        }
    }

    /// Sets Z, and C if the row has a carry.
    pub fn flagged(&mut self, carries: bool, c: bool, z: bool)
        ensures { let flags : Flags = record { c = c; z = z } in
            (s : Start) (a : Amounts) → spot_of s a self.new ≡ steps.flagged carries flags (spot_of s a self.old) }
    {
        if carries {
            self.registers.c = c;
        }
        self.registers.z = z;
    }

    /// Forgets the last compare.
    pub fn uncompared(&mut self)
        ensures { (s : Start) (a : Amounts) → spot_of s a self.new ≡ steps.uncompared (spot_of s a self.old) }
    {
        self.last = LastSaid::Held(Last::Nothing);
    }
}

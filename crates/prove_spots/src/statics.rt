// What of the static bytes is read, and what power would leave of them.
ghost use Rattle.std.specs.Prelude.{◌≡◌, ◌++◌, true, cond, IfOk, OnOk};
ghost use Rattle.prove_facts.specs.model_rules.specs.Keeping.{Amounts};
ghost use Rattle.prove_facts.specs.model_prove.specs.Arrivals.{Setting, static_size};
ghost use Rattle.prove_facts.specs.model_prove.specs.Compares.{touched};
ghost use Rattle.prove_facts.specs.model_prove.specs.Facts.{within};
ghost use Rattle.prove_facts.specs.model_prove.specs.Keys.{Start};
ghost use Rattle.prove_facts.specs.model_prove.specs.Steps as steps;
ghost use Rattle.prove_spots.specs.Grounds.{spot_of, with_kept, with_bytes, with_compare, with_protection};

use crate::parts::with_part;
use crate::spot::Spot;
use model_device::NoMemory;
use std::alloc::Global;

impl Spot {
    /// Sets the protection, of an application with this number of static bytes: a commit keeps what is read of them,
    /// and otherwise what is kept is read. Returns whether nothing else is kept.
    ///
    /// # Errors
    ///
    /// Returns `NoMemory` if it is out of memory.
    pub fn protection_set(&mut self, alloc: Global, fixed: u16, mode: u8) -> Result<bool, NoMemory>
        ensures { IfOk result (λ done. done ≡ true → (x : Setting) (s : Start) (a : Amounts) → static_size x ≡ fixed
            → spot_of s a self.new ≡ steps.protection_set x mode (spot_of s a self.old)) }
    {
        if mode == 1 || mode == 3 {
            self.keep_read(alloc, fixed)?;
            self.protect(mode >= 2);
            return Ok(true);
        }
        if !self.read_kept(alloc, fixed)? {
            return Ok(false);
        }
        self.protect(mode >= 2);
        Ok(true)
    }

    // Sets whether the protection is on.
    fn protect(&mut self, on: bool)
        ensures { self.new ≡ with_protection on self.old }
    {
        self.registers.protected = on;
    }

    // Keeps what is read of the static bytes.
    fn keep_read(&mut self, alloc: Global, fixed: u16) -> Result<(), NoMemory>
        ensures { OnOk result (self.new ≡ with_kept (within 0 fixed self.old.bytes) self.old) }
    {
        self.kept = self.bytes.part(alloc, 0, fixed as u32)?;
        Ok(())
    }

    // Reads what is kept of the static bytes. Returns whether nothing else is kept.
    fn read_kept(&mut self, alloc: Global, fixed: u16) -> Result<bool, NoMemory>
        ensures { IfOk result (λ done. done ≡ true → self.new
            ≡ with_bytes (self.old.kept ++ within fixed 65536 self.old.bytes)
            (with_compare (cond self.old.protected (touched 0 fixed self.old.compare) self.old.compare) self.old)) }
    {
        let Some(bytes) = with_part(alloc, &self.kept, &self.bytes, fixed, 65536)? else {
            return Ok(false);
        };
        self.bytes = bytes;
        if self.registers.protected {
            self.last = self.last.without(0, fixed as u32);
        }
        Ok(true)
    }

    /// Makes what power would leave of this number of static bytes what is read, unless writes wait under protection.
    ///
    /// # Errors
    ///
    /// Returns `NoMemory` if it is out of memory.
    pub fn settled(&mut self, alloc: Global, fixed: u16) -> Result<(), NoMemory>
        ensures { OnOk result ((x : Setting) (s : Start) (a : Amounts) → static_size x ≡ fixed
            → spot_of s a self.new ≡ steps.settled_spot x (spot_of s a self.old)) }
    {
        if self.registers.protected {
            return Ok(());
        }
        self.keep_read(alloc, fixed)
    }

    /// Takes away what a delegation may change: the public bytes, and what lies above them.
    ///
    /// # Errors
    ///
    /// Returns `NoMemory` if it is out of memory.
    pub fn after_delegation(&mut self, alloc: Global) -> Result<(), NoMemory>
        ensures { OnOk result ((s : Start) (a : Amounts)
            → spot_of s a self.new ≡ steps.after_delegation (spot_of s a self.old)) }
    {
        self.bytes = self.bytes.part(alloc, 0, 0xC000)?;
        self.last = self.last.below(0xC000);
        Ok(())
    }
}

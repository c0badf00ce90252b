ghost use Rattle.std.specs.Prelude.{◌≡◌, [], IfOk};
ghost use Rattle.mc_bank.specs.Memory.{apps_from};

use crate::bank::{Bank, Facts, Site, Slot};
use crate::changes;
use crate::entries::{Entry, count_used, entry_of, free_entry, read, slot_of, used_entry};
use mc_words::{Aid, NoMemory, Steps, Stop, Word};
use model_card::{OpenRefusal, Part, Sizes};
use std::alloc::Global;
use std::marker::Model;
use std::sync::ledger::Ledger;

/// The greatest number of applications of a card.
const APPS: usize = 32;

/// A bank in memory, which has room for 32 largest applications and never stops.
#[derive(Drop)]
pub struct MemBank {
    entries: Vec<Entry>,
}

impl Model for MemBank {
    ghost use Rattle.std.specs.Prelude.{List};
    ghost use Rattle.mc_bank.specs.declared.entries.Entry.{Entry};
    ghost use Rattle.mc_bank.specs.Memory.{IsMemory};

    ghost Value = { List Entry };

    ghost view = { λ b. b.entries.items };

    ghost invariant = { λ b. IsMemory b.entries.items };
}

impl MemBank {
    /// Creates a bank without applications. All memory that it ever needs is allocated here.
    ///
    /// # Errors
    ///
    /// Returns `NoMemory` if the system is out of memory.
    pub fn new(alloc: Global) -> Result<MemBank, NoMemory>
        ensures { IfOk result (λ bank. apps_from 0 bank ≡ []) }
    {
        let free = Entry {
            facts: None,
            code: [0; 8192],
            fixed: [0; 4096],
            dir: [0; 128],
            fci: [0; 128],
        };
        Ok(MemBank {
            entries: vec![in alloc; free; APPS]?,
        })
    }
}

impl Bank for MemBank {
    ghost use Rattle.mc_bank.specs.Memory.{memory_state, memory_named, memory_room, memory_site_bytes, MemoryDid};
    ghost use Rattle.mc_bank.specs.Memory.{facts_in, name_of_entry};
    ghost use Rattle.mc_bank.specs.Slots.{slot_place};
    ghost use Rattle.mc_bank.specs.SlotLaws.{slot_sized};
    ghost use Rattle.mc_bank.specs.MemoryLaws.{memory_obeys, memory_keeps, memory_spares, memory_leaves};

    ghost state = { memory_state };

    ghost named = { memory_named };

    ghost room = { memory_room };

    ghost site_bytes = { memory_site_bytes };

    ghost did = { MemoryDid };

    ghost sized = { λ b k there. slot_sized (apps_from 0 b) k (name_of_entry (facts_in b) (slot_place k)) there };

    ghost obeys = { memory_obeys };

    ghost keeps = { memory_keeps };

    ghost spares = { memory_spares };

    ghost leaves = { memory_leaves };

    fn find(&self, aid: &Aid) -> Option<Slot> {
        match entry_of(&self.entries, aid) {
            Some(index) => Some(slot_of(&self.entries, index)),
            None => None,
        }
    }

    fn count(&self) -> u16 {
        count_used(&self.entries)
    }

    fn facts(&self, slot: Slot) -> Facts {
        used_entry(&self.entries, slot).facts.unwrap()
    }

    fn code(&self, slot: Slot, at: u16, into: &mut [u8]) {
        read(&used_entry(&self.entries, slot).code, at as usize, into);
    }

    fn fixed(&self, slot: Slot, at: u16, into: &mut [u8]) {
        read(&used_entry(&self.entries, slot).fixed, at as usize, into);
    }

    fn fci(&self, slot: Slot, at: u16, into: &mut [u8]) {
        read(&used_entry(&self.entries, slot).fci, at as usize, into);
    }

    fn commit(&mut self, slot: Slot, list: &[(u16, Word)]) -> Result<(), Stop> {
        changes::commit(&mut self.entries, slot, list);
        Ok(())
    }

    fn open<L: Ledger>(&self, sizes: &Sizes, _steps: &mut Steps<L>) -> Result<Site, OpenRefusal> {
        if count_used(&self.entries) as usize >= APPS {
            return Err(OpenRefusal::Apps);
        }
        Ok(Site {
            sizes: *sizes,
            place: free_entry(&self.entries),
        })
    }

    fn fill(&mut self, site: &Site, part: Part, at: u16, piece: &[u8]) -> Result<(), Stop> {
        changes::fill(&mut self.entries, site, part, at, piece);
        Ok(())
    }

    fn create(&mut self, site: &Site, aid: &Aid) -> Result<(), Stop> {
        changes::create(&mut self.entries, site, aid);
        Ok(())
    }

    fn delete(&mut self, slot: Slot) -> Result<(), Stop> {
        changes::delete(&mut self.entries, slot);
        Ok(())
    }
}

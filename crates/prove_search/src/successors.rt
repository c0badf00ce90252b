// Which places follow which, as a search saw it.
use model_device::NoMemory;
use prove_facts::push;
use std::alloc::Global;
use std::collections::BTreeSet;

/// The places that follow each place, and those at which frames begin, by their numbers in the tables.
#[derive(Drop)]
pub struct Successors {
    /// The places to which the outcomes of each place lead.
    pub near: Vec<Vec<usize>>,
    /// The places at which frames begin.
    pub begun: BTreeSet<usize>,
}

impl Successors {
    /// Returns that nothing follows anything.
    pub fn new(alloc: Global) -> Successors {
        Successors {
            near: Vec::new(alloc),
            begun: BTreeSet::new(alloc),
        }
    }

    /// Notes that frames begin at some places.
    ///
    /// # Errors
    ///
    /// Returns `NoMemory` if it is out of memory.
    pub fn begin(&mut self, places: Vec<usize>) -> Result<(), NoMemory> {
        for place in places {
            if self.begun.insert(place).is_err() {
                return Err(NoMemory);
            }
        }
        Ok(())
    }

    /// Notes which places follow a place, in the stead of what was noted before.
    ///
    /// # Errors
    ///
    /// Returns `NoMemory` if it is out of memory.
    pub fn follow(
        &mut self,
        alloc: Global,
        place: usize,
        places: Vec<usize>,
    ) -> Result<(), NoMemory> {
        for _ in self.near.len()..place.saturating_add(1) {
            push(&mut self.near, Vec::new(alloc))?;
        }
        if let Some(there) = self.near.get_mut(place) {
            *there = places;
        }
        Ok(())
    }
}

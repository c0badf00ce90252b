// What tries came to so far.
ghost use Rattle.std.specs.Prelude.{◌≡◌, ◌+◌, ◌^◌, ◌≤◌, false, replicate, IfOk, OnErr, OnOk};
ghost use Rattle.lab_search.specs.Tallies.{heard_at, heard_from, tally_value};

use mc_words::NoMemory;
use std::alloc::Global;

/// What tries came to so far: their number, and for each `on` line whether it applied to one of them.
#[derive(Drop)]
pub struct Tally {
    pub tries: u64,
    pub heard: Vec<bool>,
}

/// Returns the sum of two counts.
///
/// # Errors
///
/// Returns `NoMemory` if there is no room for it.
pub fn sum_of(count: u64, more: u64) -> Result<u64, NoMemory>
    ensures sum { IfOk result (λ sum. sum ≡ count + more) }
    ensures none { OnErr result (2 ^ 64 ≤ count + more) }
{
    match count.checked_add(more) {
        Some(sum) => Ok(sum),
        None => Err(NoMemory),
    }
}

// Notes that the `on` line with an index applies. Without such a line nothing changes.
fn hear(heard: &mut [bool], i: usize, applies: bool)
    ensures { heard.new ≡ heard_at applies i heard.old }
{
    if applies && i < heard.len() {
        heard[i] = true;
    }
}

// Notes which `on` lines apply to a try, by how many times each does.
fn hear_all(heard: &mut [bool], counts: &[u64])
    ensures { heard.new ≡ heard_from 0 counts.now heard.old }
{
    for (i, count) in counts.iter().enumerate() {
        hear(heard, i, *count > 0);
    }
}

impl Tally {
    /// Returns what no tries came to, for a number of `on` lines.
    ///
    /// # Errors
    ///
    /// Returns `NoMemory` if it is out of memory.
    pub fn new(alloc: Global, ons: usize) -> Result<Tally, NoMemory>
        ensures { IfOk result (λ a. tally_value a ≡ record { tries = 0; heard = replicate ons false }) }
    {
        Ok(Tally {
            tries: 0,
            heard: vec![in alloc; false; ons]?,
        })
    }

    /// Counts one more try, by how many times each `on` line applies to it.
    ///
    /// # Errors
    ///
    /// Returns `NoMemory` if there is no room for the number of tries.
    pub fn count(&mut self, counts: &Vec<u64>) -> Result<(), NoMemory>
        ensures tries { OnOk result (self.new.tries ≡ self.old.tries + 1) }
        ensures heard { OnOk result (self.new.heard.items ≡ heard_from 0 counts.now.items self.old.heard.items) }
        ensures none { OnErr result (2 ^ 64 ≤ self.old.tries + 1) }
    {
        self.tries = sum_of(self.tries, 1)?;
        hear_all(self.heard.as_mut_slice(), counts.as_slice());
        Ok(())
    }
}

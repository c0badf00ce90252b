ghost use Rattle.std.specs.Prelude.{◌≡◌, [], Some, None, MatchOption, IfOk, map};
ghost use Rattle.mc_nvm.specs.Tape.{ReportedTape, entry_of, more};

use mc_words::{NoMemory, Stop, Word};
use std::alloc::Global;
use std::marker::Model;

/// One write that was tried: its place, the word that is there afterwards, and the stop if there was one.
#[derive(Clone, Copy, Debug, PartialEq, Eq, Drop)]
pub struct Entry {
    pub at: u32,
    pub left: Word,
    pub end: Option<Stop>,
}

/// The entries of all writes so far, up to a number of them; once there were more it returns none.
#[derive(Drop)]
pub struct Tape {
    entries: Vec<Entry>,
    room: usize,
    over: bool,
}

impl Model for Tape {
    ghost use Rattle.mc_nvm.specs.Tape.{ReportedTape, tape_view, KeepsRoom};

    ghost Value = { ReportedTape };

    ghost view = { tape_view };

    ghost invariant = { KeepsRoom };
}

impl Tape {
    /// Creates an empty tape with room for `room` entries.
    ///
    /// # Errors
    ///
    /// Returns `NoMemory` if the system is out of memory.
    pub fn new(alloc: Global, room: usize) -> Result<Tape, NoMemory>
        ensures { IfOk result (λ tape. tape ≡ record { room = room; reported = Some [] }) }
    {
        Ok(Tape {
            entries: Vec::with_capacity(alloc, room)?,
            room,
            over: false,
        })
    }

    /// Adds an entry; if there is no room for it, the tape returns no entries from now on.
    pub fn add(&mut self, entry: Entry)
        ensures { self.new ≡ record self.old { reported = more self.old.room self.old.reported (entry_of entry) } }
    {
        if self.over || self.entries.len() >= self.room {
            self.over = true;
            return;
        }
        let _pushed = self.entries.push(entry);
    }

    /// Returns all entries in order, or `None` if there were more than there is room for.
    pub fn entries(&self) -> Option<&[Entry]>
        ensures { MatchOption result (self.now.reported ≡ None)
            (λ entries. self.now.reported ≡ Some (map entry_of entries.now)) }
    {
        if self.over {
            return None;
        }
        Some(self.entries.as_slice())
    }
}

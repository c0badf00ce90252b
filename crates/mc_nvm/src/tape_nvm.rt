ghost use Rattle.std.specs.Prelude.{◌≡◌, ◌<◌, ◌≤◌, length, Some, None, MatchOption, IfOk, map};
ghost use Rattle.mc_nvm.specs.Sim.{blank_sim};
ghost use Rattle.mc_nvm.specs.Tape.{entry_of};
ghost use Rattle.mc_nvm.specs.Taped.{blank_taped, is_listed, taped_state, TapedWrote};

use crate::device::{Bench, Nvm};
use crate::sim::SimNvm;
use crate::tape::{Entry, Tape};
use mc_words::{NoMemory, Stop, Word};
use std::alloc::Global;
use std::marker::Model;

/// A device in memory for tests: besides its fuses the writes of a list fail, and it records its tape.
#[derive(Drop)]
pub struct TapeNvm {
    device: SimNvm,
    tape: Tape,
    worn: Vec<u32>,
    tried: u64,
}

impl Model for TapeNvm {
    ghost use Rattle.mc_nvm.specs.Taped.{Taped, taped_inside};

    ghost Value = { Taped };

    ghost view = { taped_inside };
}

impl TapeNvm {
    /// Creates a blank device of 256 to 16,384 words with an empty tape with room for `room` entries. The writes whose
    /// numbers are in `worn`, counted from 1 over all that are tried, fail with `Stop::Worn` and leave eight zero
    /// bytes, unless the fuse of `arm` stops them.
    ///
    /// # Errors
    ///
    /// Returns `NoMemory` if the system is out of memory.
    pub fn new(alloc: Global, words: u32, room: usize, worn: &[u32]) -> Result<TapeNvm, NoMemory>
        requires low { 256 ≤ words }
        requires high { words ≤ 16384 }
        ensures { IfOk result (λ device. device ≡ blank_taped words room worn.now) }
    {
        let device = SimNvm::new(alloc, words)?;
        let tape = Tape::new(alloc, room)?;
        Ok(TapeNvm {
            device,
            tape,
            worn: worn.to_vec(alloc)?,
            tried: 0,
        })
    }

    /// Returns all writes that were tried, or `None` if there were more than the tape has room for.
    pub fn tape(&self) -> Option<&[Entry]>
        ensures { MatchOption result (self.now.tape.reported ≡ None)
            (λ entries. self.now.tape.reported ≡ Some (map entry_of entries.now)) }
    {
        self.tape.entries()
    }

    // Writes one word, and adds the write to the tape with the word that it left.
    fn try_write(&mut self, at: u32, word: Word) -> Result<(), Stop>
        requires { at < length (taped_state self.old).words }
        ensures { TapedWrote self.old at word result self.new }
    {
        let number = self.tried.saturating_add(1);
        let refused = is_in(self.worn.as_slice(), number);
        self.tried = number;
        let end = match self.device.try_write(at, word, refused) {
            Ok(()) => None,
            Err(stop) => Some(stop),
        };
        let left = self.device.read(at);
        self.tape.add(Entry { at, left, end });
        match end {
            None => Ok(()),
            Some(stop) => Err(stop),
        }
    }
}

impl Nvm for TapeNvm {
    ghost use Rattle.mc_nvm.specs.Taped.{taped_state, TapedWrote, taped_obeys};

    ghost state = { taped_state };

    ghost wrote = { TapedWrote };

    ghost same = { λ d e. Unit {0} };

    ghost obeys = { taped_obeys };

    ghost fits = { λ d at w a e r. (r.place, r.size) };

    ghost keeps = { λ d at w a e r. tt };

    ghost itself = { λ d. tt };

    ghost onward = { λ d e f r s. tt };

    fn len(&self) -> u32 {
        self.device.len()
    }

    fn read(&self, at: u32) -> Word {
        self.device.read(at)
    }

    fn write(&mut self, at: u32, word: Word) -> Result<(), Stop> {
        self.try_write(at, word)
    }
}

impl Bench for TapeNvm {
    ghost use Rattle.mc_nvm.specs.Taped.{taped_bench, taped_burns};

    ghost bench = { taped_bench };

    ghost burns = { taped_burns };

    fn arm(&mut self, k: u32, fill: Word) {
        self.device.arm(k, fill);
    }

    fn disarm(&mut self) {
        self.device.disarm();
    }

    fn power(&mut self) {
        self.device.power();
    }

    fn poke(&mut self, at: u32, word: Word) {
        self.device.poke(at, word);
    }

    fn wear(&mut self, k: u32, fill: Word) {
        self.device.wear(k, fill);
    }
}

// Returns whether the number is in the list.
fn is_in(worn: &[u32], number: u64) -> bool
    ensures { result ≡ is_listed worn.now number }
{
    for n in worn {
        if *n as u64 == number {
            return true;
        }
    }
    false
}

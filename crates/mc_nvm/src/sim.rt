ghost use Rattle.std.specs.Prelude.{◌≡◌, ◌<◌, ◌≤◌, ℕ, [], length, slice_index_or, IfOk};
ghost use Rattle.mc_words.specs.model_device.specs.Bytes.{AreBytes};
ghost use Rattle.mc_nvm.specs.Sim.{blank_sim, Sound, answer_to, next_due, after_write};

use crate::device::{Bench, Nvm};
use crate::fuse::{Due, Fuse, nearer, next};
use mc_words::{NoMemory, Stop, Word};
use std::alloc::Global;
use std::marker::Model;

/// The word that a blank device holds in every place.
const BLANK: Word = [0xFF; 8];

/// A device in memory, with a fuse of either kind. No write fails but by a fuse, and no tape is recorded.
#[derive(Drop)]
pub struct SimNvm {
    words: Vec<Word>,
    on: bool,
    cuts: u64,
    faults: u64,
    cut: Option<Fuse>,
    worn: Option<Fuse>,
    powers: u64,
    pokes: u64,
    poked: u64,
    arms: u64,
    wears: u64,
}

impl Model for SimNvm {
    ghost use Rattle.mc_nvm.specs.Sim.{Sim, sim_of, Sound};

    ghost Value = { Sim };

    ghost view = { sim_of };

    ghost invariant = { λ a. Sound (sim_of a) };
}

impl SimNvm {
    /// Creates a blank device of 256 to 16,384 words: every byte is FF, power is off, there is no fuse, and every
    /// count is 0.
    ///
    /// # Errors
    ///
    /// Returns `NoMemory` if the system is out of memory.
    pub fn new(alloc: Global, words: u32) -> Result<SimNvm, NoMemory>
        requires low { 256 ≤ words }
        requires high { words ≤ 16384 }
        ensures { IfOk result (λ device. device ≡ blank_sim words) }
    {
        Ok(SimNvm {
            words: vec![in alloc; BLANK; words as usize]?,
            on: false,
            cuts: 0,
            faults: 0,
            cut: None,
            worn: None,
            powers: 0,
            pokes: 0,
            poked: 0,
            arms: 0,
            wears: 0,
        })
    }

    /// Makes this device blank again, as `new` made it: every byte FF, power off, no fuse, every count 0. Its length
    /// stays, and it allocates nothing.
    pub fn erase(&mut self)
        ensures { self.new ≡ blank_sim (length self.old.words) }
    {
        self.words.as_mut_slice().fill(BLANK);
        self.on = false;
        self.cuts = 0;
        self.faults = 0;
        self.cut = None;
        self.worn = None;
        self.powers = 0;
        self.pokes = 0;
        self.poked = 0;
        self.arms = 0;
        self.wears = 0;
    }

    /// Writes one word. With `refused` the write fails by itself and leaves eight zero bytes, but the fuse of `arm`
    /// goes before that, and that before the fuse of `wear`.
    ///
    /// # Errors
    ///
    /// Returns `Stop::Off` if power went during the write, and `Stop::Worn` if the write failed.
    pub(crate) fn try_write(&mut self, at: u32, word: Word, refused: bool) -> Result<(), Stop>
        requires { at < length self.old.words }
        ensures sound { Sound self.old }
        ensures answer { result ≡ answer_to (next_due refused self.old) }
        ensures after { self.new ≡ after_write self.old at word (next_due refused self.old) }
    {
        // Nearly all writes meet no fuse, and copying two of them takes longer than a write.
        match (&self.cut, &self.worn) {
            (None, None) if !refused => {
                self.words[at as usize] = word;
                Ok(())
            }
            _ => self.write_by_fuses(at, word, refused),
        }
    }

    // Writes one word as `try_write` does, by the fuses.
    #[inline(never)]
    fn write_by_fuses(&mut self, at: u32, word: Word, refused: bool) -> Result<(), Stop>
        requires { at < length self.old.words }
        ensures sound { Sound self.old }
        ensures answer { result ≡ answer_to (next_due refused self.old) }
        ensures after { self.new ≡ after_write self.old at word (next_due refused self.old) }
    {
        let due = next(self.cut, self.worn, refused);
        self.cut = nearer(self.cut);
        self.worn = nearer(self.worn);
        match due {
            Due::Cut(fill) => {
                self.words[at as usize] = fill;
                self.on = false;
                self.cuts = self.cuts.saturating_add(1);
                Err(Stop::Off)
            }
            Due::Worn(fill) => {
                self.words[at as usize] = fill;
                self.faults = self.faults.saturating_add(1);
                Err(Stop::Worn)
            }
            Due::Not => {
                self.words[at as usize] = word;
                Ok(())
            }
        }
    }
}

impl Nvm for SimNvm {
    ghost use Rattle.mc_nvm.specs.Sim.{sim_state, SimWrote, sim_obeys};

    ghost state = { sim_state };

    ghost wrote = { SimWrote };

    ghost same = { λ d e. Unit {0} };

    ghost obeys = { sim_obeys };

    ghost fits = { λ d at w a e r. (r.place, r.size) };

    ghost keeps = { λ d at w a e r. tt };

    ghost itself = { λ d. tt };

    ghost onward = { λ d e f r s. tt };

    fn len(&self) -> u32 {
        bytes_by_eight(self.words.as_slice());
        self.words.len() as u32
    }

    fn read(&self, at: u32) -> Word {
        self.words[at as usize]
    }

    fn write(&mut self, at: u32, word: Word) -> Result<(), Stop> {
        self.try_write(at, word, false)
    }
}

impl Bench for SimNvm {
    ghost use Rattle.mc_nvm.specs.Sim.{sim_bench, sim_burns};

    ghost bench = { sim_bench };

    ghost burns = { sim_burns };

    fn arm(&mut self, k: u32, fill: Word) {
        self.cut = Some(Fuse { writes: k, fill });
        self.arms = self.arms.saturating_add(1);
    }

    fn disarm(&mut self) {
        self.cut = None;
        self.worn = None;
    }

    fn power(&mut self) {
        self.on = true;
        self.powers = self.powers.saturating_add(1);
    }

    fn poke(&mut self, at: u32, word: Word) {
        self.words[at as usize] = word;
        self.pokes = self.pokes.saturating_add(1);
        self.poked = self.powers;
    }

    fn wear(&mut self, k: u32, fill: Word) {
        self.worn = Some(Fuse { writes: k, fill });
        self.wears = self.wears.saturating_add(1);
    }
}

// A word of a slice has eight bytes by its type, and a byte is below 256; a caller learns it here of each.
fn bytes_by_eight(words: &[Word])
    ensures long { (i : ℕ) → i < length words.now → length (slice_index_or words.now i []) ≡ 8 }
    ensures bytes { (i : ℕ) → AreBytes (slice_index_or words.now i []) }
{
    each_byte(words.as_flattened());
}

// A byte is below 256; a caller learns it here of a slice.
fn each_byte(bytes: &[u8])
    ensures { AreBytes bytes.now }
{}

// A device in memory that counts its reads.
use mc_nvm::{Nvm, SimNvm};
use mc_words::{Stop, Word};
use std::cell::Cell;

/// A device that counts its reads in a cell.
#[derive(Drop)]
pub struct Counting<'a> {
    pub device: SimNvm,
    pub reads: &'a Cell<u32>,
}

impl<'a> Nvm for Counting<'a> {
    ghost use Rattle.mc_nvm.specs.Sim.{sim_state, SimWrote, sim_obeys};

    ghost state = { λ d. sim_state d.device };

    ghost wrote = { λ d at w a e. SimWrote d.device at w a e.device };

    ghost same = { λ d e. Unit {0} };

    ghost obeys = { λ d at w a e on r. sim_obeys d.device at w a e.device on r };

    ghost fits = { λ d at w a e r. (r.place, r.size) };

    ghost keeps = { λ d at w a e r. tt };

    ghost itself = { λ d. tt };

    ghost onward = { λ d e f r s. tt };

    fn len(&self) -> u32 {
        self.device.len()
    }

    fn read(&self, at: u32) -> Word {
        self.reads.set(self.reads.get().saturating_add(1));
        self.device.read(at)
    }

    fn write(&mut self, at: u32, word: Word) -> Result<(), Stop> {
        self.device.write(at, word)
    }
}

ghost use Rattle.std.specs.Prelude.{◌≡◌, ◌+◌, ◌<◌, length, slice_index_or, []};
ghost use Rattle.mc_words.specs.model_device.specs.Device.{IsImage};
ghost use Rattle.mc_nvm.specs.Probe.{device_of_probe};

use crate::device::Nvm;
use mc_words::{Steps, Word};
use std::marker::PhantomData;
use std::sync::ledger::Ledger;

/// A view of a device that reads only by ticking: a body that is generic in `L` and holds no more than a probe reads
/// no word without a step.
#[derive(Drop)]
pub struct Probe<'a, N: Nvm, L: Ledger> {
    device: &'a N,
    ledger: PhantomData<L>,
}

impl<'a, N: Nvm, L: Ledger> Probe<'a, N, L> {
    /// Creates a probe of this device.
    pub fn new(device: &'a N) -> Probe<'a, N, L>
        ensures { device_of_probe result ≡ device.now }
    {
        Probe {
            device,
            ledger: PhantomData,
        }
    }

    /// Returns the device's number of words.
    pub fn len(&self) -> u32
        ensures len { result ≡ length (N.state (device_of_probe self.now)).words }
        ensures image { IsImage (N.state (device_of_probe self.now)).words }
    {
        self.device.len()
    }

    /// Returns the word at a place below the length, and counts one step.
    pub fn read(&self, at: u32, steps: &mut Steps<L>) -> Word
        requires { at < length (N.state (device_of_probe self.now)).words }
        ensures word { result ≡ slice_index_or (N.state (device_of_probe self.now)).words at [] }
        ensures ticks { steps.new ≡ steps.old + 1 }
    {
        steps.tick();
        self.device.read(at)
    }
}

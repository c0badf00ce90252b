// The device of a program.
ghost use Rattle.std.specs.Prelude.{◌≡◌, IfOk};
ghost use Rattle.mc_nvm.specs.Sim.{blank_sim};
ghost use Rattle.model_device.specs.Device.{device_words};

use mc_nvm::{DEVICE_WORDS, SimNvm};
use model_device::NoMemory;
use std::alloc::Global;

/// Returns a blank device in memory, of [`DEVICE_WORDS`] words, on which a program plays.
///
/// # Errors
///
/// `NoMemory` if its words cannot be allocated.
pub fn blank_device(alloc: Global) -> Result<SimNvm, NoMemory>
    ensures { IfOk result (λ device. device ≡ blank_sim device_words) }
{
    SimNvm::new(alloc, DEVICE_WORDS)
}

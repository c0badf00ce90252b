ghost use Rattle.std.specs.Prelude.{◌≡◌, ◌≤◌, true, false, length};
ghost use Rattle.mc_words.specs.model_device.specs.Device.{Makes};
ghost use Rattle.mc_words.specs.model_device.specs.Image.{is_open};
ghost use Rattle.mc_words.specs.model_device.specs.Stopped.{IsAtomic, writes, WriteEnds};
ghost use Rattle.mc_gate.specs.Layouts.{journal_of};

use crate::journals::Journal;
use crate::put::{open_gate, replay_all};
use mc_nvm::Nvm;
use mc_words::{Stop, Word};

/// Writes 1 to 64 words atomically: wherever it is stopped, all of them are durable or none is. The targets ascend,
/// each word 0 or a word of the heap, and the gate is not open.
///
/// # Errors
///
/// Returns the `Stop` of the device write that stopped. One comes only if the cuts or the faults of the device rose.
pub fn write_words<J: Journal, N: Nvm>(device: &mut N, list: &[(u16, Word)]) -> Result<(), Stop>
    requires power { (N.state device.old).on ≡ true }
    requires list { IsAtomic (length (N.state device.old).words) list.now }
    requires gate { is_open (journal_of J.LAYOUT) (N.state device.old).words ≡ false }
    ensures makes { Makes N.wrote device.old (writes (journal_of J.LAYOUT) list.now) result device.new }
    ensures ends { WriteEnds (journal_of J.LAYOUT) (N.state device.old) list.now result (N.state device.new) }
    ensures keeps_device { N.same device.old device.new }
{
    make_writes::<J, N>(device, list)
}

// Makes the device writes of an atomic write, in order.
fn make_writes<J: Journal, N: Nvm>(device: &mut N, list: &[(u16, Word)]) -> Result<(), Stop>
    requires power { (N.state device.old).on ≡ true }
    requires list { IsAtomic (length (N.state device.old).words) list.now }
    ensures makes { Makes N.wrote device.old (writes (journal_of J.LAYOUT) list.now) result device.new }
    ensures low { 256 ≤ length (N.state device.old).words }
    ensures high { length (N.state device.old).words ≤ 16384 }
{
    let _size = device.len();
    J::put_entries(device, list)?;
    open_gate(device, J::LAYOUT, list.len())?;
    replay_all(device, J::LAYOUT, list)
}

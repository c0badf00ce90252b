ghost use Rattle.std.specs.Prelude.{◌≡◌, true, false, length};
ghost use Rattle.mc_words.specs.model_device.specs.Device.{Makes};
ghost use Rattle.mc_words.specs.model_device.specs.Image.{One, is_open, look_j};
ghost use Rattle.mc_words.specs.model_device.specs.Stopped.{IsAtomic, writes, WriteEnds, owed_writes, outcome_answer, RecoverEnds};
ghost use Rattle.mc_gate.specs.Recovery.{outcome_of};

use crate::look::read_targets;
use crate::put::put_entries;
use mc_gate::{Journal, Layout, Recover, Targets};
use mc_nvm::Nvm;
use mc_words::{Stop, Word};

// The journal of layout 1: the target word of each pair, and its value after it.
struct JournalV1;

impl Journal for JournalV1 {
    ghost use Rattle.mc_gate.specs.declared.layouts.Layout.TheVariants.{V1};

    const LAYOUT: Layout = Layout::V1;

    ghost LAYOUT = { V1 };

    fn put_entries<N: Nvm>(device: &mut N, list: &[(u16, Word)]) -> Result<(), Stop> {
        put_entries(device, list)
    }

    fn read_targets<N: Nvm>(device: &N, count: usize) -> Result<Targets, u16> {
        read_targets(device, count)
    }
}

/// Writes 1 to 64 words atomically: wherever it is stopped, all of them are durable or none is. The targets ascend,
/// each word 0 or a word of the heap, and the gate is not open.
///
/// # Errors
///
/// Returns the `Stop` of the device write that stopped. One comes only if the cuts or the faults of the device rose.
pub fn write_words<N: Nvm>(device: &mut N, list: &[(u16, Word)]) -> Result<(), Stop>
    requires power { (N.state device.old).on ≡ true }
    requires list { IsAtomic (length (N.state device.old).words) list.now }
    requires gate { is_open One (N.state device.old).words ≡ false }
    ensures makes { Makes N.wrote device.old (writes One list.now) result device.new }
    ensures ends { WriteEnds One (N.state device.old) list.now result (N.state device.new) }
    ensures keeps_device { N.same device.old device.new }
{
    mc_gate::write_words::<JournalV1, N>(device, list)
}

/// Makes the writes that recovery still has to make for the journal of layout 1, and returns their number, 0 to 65:
/// all targets, then the gate is shut. A recovery that is stopped before its last write leaves all of them to be made
/// again.
///
/// # Errors
///
/// Returns `Recover::Stop` if a device write stopped, and `Recover::BadJournal` with the place of the first bad word if
/// the journal is open and bad; nothing was written then.
pub fn recover<N: Nvm>(device: &mut N) -> Result<u16, Recover>
    requires power { (N.state device.old).on ≡ true }
    ensures makes { Makes N.wrote device.old (owed_writes (look_j One (N.state device.old).words))
        (outcome_answer (outcome_of result)) device.new }
    ensures ends { RecoverEnds One (look_j One (N.state device.old).words) (N.state device.old) (outcome_of result)
        (N.state device.new) }
    ensures keeps_device { N.same device.old device.new }
{
    mc_gate::recover::<JournalV1, N>(device)
}

ghost use Rattle.std.specs.Prelude.{◌≡◌, ◌≤◌, true, length};
ghost use Rattle.mc_words.specs.model_device.specs.Device.{Makes};
ghost use Rattle.mc_words.specs.model_device.specs.Image.{look_j};
ghost use Rattle.mc_words.specs.model_device.specs.Stopped.{owed_writes, outcome_answer, LookAllows, RecoverEnds};
ghost use Rattle.mc_gate.specs.Layouts.{journal_of};
ghost use Rattle.mc_gate.specs.Look.{look_of};
ghost use Rattle.mc_gate.specs.Recovery.{outcome_of};

use crate::failures::Recover;
use crate::journals::Journal;
use crate::layouts::Layout;
use crate::look::{Found, look};
use crate::put::replay_all;
use mc_nvm::Nvm;

/// Makes the writes that recovery still has to make for the journal `J`, and returns their number, 0 to 65: all
/// targets, then the gate is shut. A recovery that is stopped before its last write leaves all of them to be made
/// again.
///
/// # Errors
///
/// Returns `Recover::Stop` if a device write stopped, and `Recover::BadJournal` with the place of the first bad word if
/// the journal is open and bad; nothing was written then.
pub fn recover<J: Journal, N: Nvm>(device: &mut N) -> Result<u16, Recover>
    requires power { (N.state device.old).on ≡ true }
    ensures makes { Makes N.wrote device.old (owed_writes (look_j (journal_of J.LAYOUT) (N.state device.old).words))
        (outcome_answer (outcome_of result)) device.new }
    ensures ends { RecoverEnds (journal_of J.LAYOUT) (look_j (journal_of J.LAYOUT) (N.state device.old).words)
        (N.state device.old) (outcome_of result) (N.state device.new) }
    ensures keeps_device { N.same device.old device.new }
{
    let found = look::<J, N>(device);
    make_replay(device, J::LAYOUT, found)
}

// Makes the writes that are left by what a look at the journal found.
fn make_replay<N: Nvm>(device: &mut N, layout: Layout, found: Found) -> Result<u16, Recover>
    requires power { (N.state device.old).on ≡ true }
    requires found { look_of (journal_of layout) found ≡ look_j (journal_of layout) (N.state device.old).words }
    ensures makes { Makes N.wrote device.old (owed_writes (look_j (journal_of layout) (N.state device.old).words))
        (outcome_answer (outcome_of result)) device.new }
    ensures follows { LookAllows (look_j (journal_of layout) (N.state device.old).words) (outcome_of result) }
    ensures low { 256 ≤ length (N.state device.old).words }
{
    let _size = device.len();
    match found {
        Found::Closed => Ok(0),
        Found::Bad(place) => Err(Recover::BadJournal(place)),
        Found::Pending(list) => match replay_all(device, layout, list.as_slice()) {
            Ok(()) => Ok(list.len() as u16 + 1),
            Err(stop) => Err(Recover::Stop(stop)),
        },
    }
}

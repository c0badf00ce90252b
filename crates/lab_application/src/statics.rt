// The static bytes of an application on the card of a state.
ghost use Rattle.std.specs.Prelude.{◌≡◌, length, None, OnOk};
ghost use Rattle.law_histories.specs.model_device.specs.Layout.{words_fault};
ghost use Rattle.lab_key.specs.Keys.{IsReadable};
ghost use Rattle.mc_script.specs.Players.{device_of};
ghost use Rattle.lab_search.specs.Kept.{root_of};
ghost use Rattle.lab_application.specs.Finding.{IsKept};

use lab_branch::{BranchNvm, read_applications, static_bytes};
use lab_key::{CardState, Rosters};
use lab_search::{Laboratory, put_card};
use mc_script::{Live, Player};
use mc_words::{Aid, NoMemory};
use std::alloc::Global;

// The static bytes of the application with a name on a device, or `None` if it is not there.
fn statics_on(alloc: Global, device: &BranchNvm, aid: &Aid) -> Result<Option<Vec<u8>>, NoMemory>
    requires { words_fault device.now.device.words ≡ None }
{
    let applications = read_applications(alloc, device)?;
    for i in 0..applications.len() {
        if applications[i].name() == aid.bytes() {
            let fixed = static_bytes(alloc, &applications.as_slice()[i..i + 1])?;
            return Ok(Some(fixed));
        }
    }
    Ok(None)
}

// The static bytes of the application with a name on a device, or `None` if no card runs there or it is not there.
fn statics_of(
    alloc: Global,
    device: &BranchNvm,
    live: &Live,
    aid: &Aid,
) -> Result<Option<Vec<u8>>, NoMemory>
    requires { IsReadable device.now.device.words live.now }
{
    match live {
        Live::Running(_) => statics_on(alloc, device, aid),
        Live::Unpowered => Ok(None),
        Live::Muted => Ok(None),
    }
}

// The static bytes of the application with a name on the device of a player, or `None` if no card runs there or it is not
// there.
fn statics_at(
    alloc: Global,
    player: &mut Player<BranchNvm>,
    live: &Live,
    aid: &Aid,
) -> Result<Option<Vec<u8>>, NoMemory>
    requires { IsReadable (device_of player.old).device.words live.now }
    ensures { (device_of player.new).root ≡ (device_of player.old).root }
{
    statics_of(alloc, player.device_mut(), live, aid)
}

/// Puts the card of a state on the device of a laboratory, and returns the static bytes of the application with a name, or
/// `None` if no card runs or it is not there.
///
/// # Errors
///
/// Returns `NoMemory` if it is out of memory.
pub fn statics_in(
    alloc: Global,
    laboratory: &mut Laboratory,
    rosters: &Rosters,
    state: &CardState,
    aid: &Aid,
) -> Result<Option<Vec<u8>>, NoMemory>
    requires { IsKept laboratory.old rosters.now state.now }
    ensures root { OnOk result (root_of laboratory.new ≡ root_of laboratory.old) }
    ensures budget { OnOk result (laboratory.new.budget ≡ laboratory.old.budget) }
    ensures counts { OnOk result (length laboratory.new.counts.items ≡ length laboratory.old.counts.items) }
{
    let Some(saved) = rosters.saved(state.card) else {
        unreachable!()
    };
    put_card(&mut *laboratory.player, saved);
    statics_at(alloc, &mut *laboratory.player, saved.live, aid)
}

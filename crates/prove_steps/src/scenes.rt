// The scene after the fetch at a place, with a choice of the bytes that decide.
ghost use Rattle.std.specs.Prelude.{◌≡◌, IfOk, IfSome};
ghost use Rattle.model_device.specs.Card.{App};
ghost use Rattle.prove_facts.specs.model_prove.specs.Keys.{Start};
ghost use Rattle.prove_facts.specs.model_prove.specs.Splits.{with_values};
ghost use Rattle.prove_facts.specs.model_rules.specs.Keeping.{Amounts};
ghost use Rattle.prove_keys.specs.Keys.{calls_of};
ghost use Rattle.prove_scenes.specs.Scenes as scenes;
ghost use Rattle.prove_scenes.specs.Scenes.{HasRegisters, IsSized};
ghost use Rattle.prove_spots.specs.Grounds.{spot_of};
ghost use Rattle.prove_steps.specs.Scenes.{scene_after};

use model_device::NoMemory;
use prove_keys::Call;
use prove_scenes::{OpenCall, Registers, Scene, Sizes};
use prove_spots::Spot;
use std::alloc::Global;

// The newest of some calls, the oldest of which is the first.
fn newest_of(calls: &[Call]) -> Option<OpenCall>
    ensures { scenes.newest (calls_of calls.now) ≡ scenes.call_of result }
{
    match calls {
        [.., last] => Some(OpenCall {
            dt: last.end,
            lb: last.lb,
            at: last.place,
        }),
        [] => None,
    }
}

// The registers of a place.
fn registers_of(spot: &Spot) -> Registers
    ensures { (s : Start) (a : Amounts) → HasRegisters (spot_of s a spot.now).key result }
{
    let registers = spot.registers();
    Registers {
        at: registers.at,
        c: registers.c,
        z: registers.z,
        dt: registers.dt,
        lb: registers.lb,
        protected: registers.protected,
        newest: newest_of(spot.calls()),
    }
}

/// Returns the scene of a place after a fetch that ended at `next`, with a choice of the bytes that decide; or `None`
/// if it has no such scene.
///
/// # Errors
///
/// Returns `NoMemory` if it is out of memory.
pub fn scene_with(
    alloc: Global,
    sizes: &Sizes,
    spot: &Spot,
    next: u16,
    choice: &[(u16, u8)],
) -> Result<Option<Scene>, NoMemory>
    ensures { IfOk result (λ r. IfSome r (λ e. (app : App) (s : Start) (a : Amounts) → IsSized app sizes.now
        → e ≡ with_values (scene_after app (spot_of s a spot.now).key next) choice.now)) }
{
    let Some(mut scene) = Scene::stand_in(alloc, sizes, &registers_of(spot))? else {
        return Ok(None);
    };
    scene.go(next);
    if !scene.set_bytes(choice)? {
        return Ok(None);
    }
    Ok(Some(scene))
}

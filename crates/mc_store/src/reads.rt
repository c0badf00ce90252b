// Bytes of the sections of an application.
ghost use Rattle.std.specs.Prelude.{◌≡◌, ◌+◌, ◌≤◌, length, take, drop, false, IsSome};
ghost use Rattle.mc_bank.specs.Bank.{app_of};
ghost use Rattle.mc_store.specs.Store.{store_state, store_named};
ghost use Rattle.mc_store.specs.Slots.{part_of_app};

use crate::place::part_place;
use crate::section::{read_bytes, read_window};
use crate::store::Store;
use mc_bank::{Part, Slot};
use mc_nvm::Nvm;

/// Copies bytes of a section of the application of a slot, from a byte of the section on. They lie in the section.
pub fn read_section<N: Nvm>(store: &Store<N>, slot: Slot, part: Part, at: u16, into: &mut [u8])
    requires going { (store_state (N.state store.now.device) store.now.count).stopped ≡ false }
    requires there { IsSome (store_named (N.state store.now.device) slot) }
    requires range { at + length into.old
        ≤ length (part_of_app part
        (app_of (store_state (N.state store.now.device) store.now.count).apps
        (store_named (N.state store.now.device) slot))) }
    ensures { into.new ≡ take (length into.old)
        (drop at (part_of_app part
        (app_of (store_state (N.state store.now.device) store.now.count).apps
        (store_named (N.state store.now.device) slot)))) }
{
    let _size = store.device.len();
    let from = part_place(part, &slot.sizes(), slot.index());
    read_bytes(&store.device, from, at, into);
}

/// Copies bytes of the code of the application of a slot, from a byte of it on. They lie in the code. This fetches
/// instructions.
#[inline(always)]
pub fn read_code<N: Nvm>(store: &Store<N>, slot: Slot, at: u16, into: &mut [u8])
    requires going { (store_state (N.state store.now.device) store.now.count).stopped ≡ false }
    requires there { IsSome (store_named (N.state store.now.device) slot) }
    requires range { at + length into.old
        ≤ length (part_of_app Part.Code
        (app_of (store_state (N.state store.now.device) store.now.count).apps
        (store_named (N.state store.now.device) slot))) }
    ensures { into.new ≡ take (length into.old)
        (drop at (part_of_app Part.Code
        (app_of (store_state (N.state store.now.device) store.now.count).apps
        (store_named (N.state store.now.device) slot)))) }
{
    let _size = store.device.len();
    let from = part_place(Part::Code, &slot.sizes(), slot.index());
    read_window(&store.device, from, at, into);
}

// Changes of the applications of a store: a commit of static words and a deletion, one atomic write each.
ghost use Rattle.std.specs.Prelude.{◌≡◌, ◌+◌, ◌≤◌, true, false, length, IsSome};
ghost use Rattle.std.specs.List.{AllByRecursion};
ghost use Rattle.mc_words.specs.model_device.specs.Device.{Makes};
ghost use Rattle.mc_words.specs.model_device.specs.Image.{Two, is_open};
ghost use Rattle.mc_words.specs.model_device.specs.Stopped.{IsAtomic, writes};
ghost use Rattle.mc_bank.specs.model_card.specs.Items.{Commit, Remove};
ghost use Rattle.mc_bank.specs.Bank.{CanCommit, app_of, name_or};
ghost use Rattle.mc_store.specs.Store.{is_going, apps_in, store_named};
ghost use Rattle.mc_store.specs.CommitLaws.{placed_words};
ghost use Rattle.mc_store.specs.StoreItems.{store_did};

use crate::place::part_place;
use crate::store::Store;
use arrayvec::ArrayVec;
use mc_bank::{Part, Slot};
use mc_blocks::free_plan;
use mc_nvm::Nvm;
use mc_packed::write_words;
use mc_words::{Stop, Word};

/// Sets 1 to 64 words of the static bytes of the application of a slot by one atomic write.
///
/// # Errors
///
/// Returns the stop of a write; the static bytes are the old or the new ones then.
pub fn commit<N: Nvm>(store: &mut Store<N>, slot: Slot, list: &[(u16, Word)]) -> Result<(), Stop>
    requires going { is_going (N.state store.old.device) store.old.count ≡ true }
    requires there { IsSome (store_named (N.state store.old.device) slot) }
    requires list { CanCommit (app_of (apps_in (N.state store.old.device).words)
        (store_named (N.state store.old.device) slot)).fixed list.now }
    ensures did { store_did N.state N.wrote store.old
        (Commit (name_or (store_named (N.state store.old.device) slot)) list.now) result store.new }
{
    let _size = store.device.len();
    let first = part_place(Part::Data, &slot.sizes(), slot.index());
    write_shifted(&mut store.device, first as u16, list)
}

// Writes words at once, with `first` added to each number. One word, the most common case, needs no array of 64.
fn write_shifted<N: Nvm>(device: &mut N, first: u16, list: &[(u16, Word)]) -> Result<(), Stop>
    requires power { (N.state device.old).on ≡ true }
    requires few { length list.now ≤ 64 }
    requires within { AllByRecursion (λ w. first + w.0 ≤ 65535) list.now }
    requires list { IsAtomic (length (N.state device.old).words) (placed_words first list.now) }
    requires gate { is_open Two (N.state device.old).words ≡ false }
    ensures { Makes N.wrote device.old (writes Two (placed_words first list.now)) result device.new }
{
    if list.len() == 1 {
        let (number, word) = list[0];
        return write_words(device, &[(first + number, word)]);
    }
    write_list(device, first, list)
}

// Writes words as `write_shifted` does, by an array of their places.
fn write_list<N: Nvm>(device: &mut N, first: u16, list: &[(u16, Word)]) -> Result<(), Stop>
    requires power { (N.state device.old).on ≡ true }
    requires few { length list.now ≤ 64 }
    requires within { AllByRecursion (λ w. first + w.0 ≤ 65535) list.now }
    requires list { IsAtomic (length (N.state device.old).words) (placed_words first list.now) }
    requires gate { is_open Two (N.state device.old).words ≡ false }
    ensures { Makes N.wrote device.old (writes Two (placed_words first list.now)) result device.new }
{
    let targets = shifted(first, list);
    write_words(device, targets.as_slice())
}

// Returns the words with `first` added to each number.
fn shifted(first: u16, list: &[(u16, Word)]) -> ArrayVec<(u16, Word), 64>
    requires few { length list.now ≤ 64 }
    requires within { AllByRecursion (λ w. first + w.0 ≤ 65535) list.now }
    ensures { result.items ≡ placed_words first list.now }
{
    let mut targets = ArrayVec::new();
    for (number, word) in list {
        targets.push((first + *number, *word));
    }
    targets
}

/// Removes the application of a slot by one atomic write.
///
/// # Errors
///
/// Returns the stop of a write; the application is there or not then.
pub fn delete<N: Nvm>(store: &mut Store<N>, slot: Slot) -> Result<(), Stop>
    requires going { is_going (N.state store.old.device) store.old.count ≡ true }
    requires there { IsSome (store_named (N.state store.old.device) slot) }
    ensures did { store_did N.state N.wrote store.old
        (Remove (name_or (store_named (N.state store.old.device) slot))) result store.new }
{
    let _size = store.device.len();
    let plan = free_plan(&store.device, slot.index());
    write_words(&mut store.device, plan.as_slice())?;
    store.count -= 1;
    Ok(())
}

// The search for room for a load.
ghost use Rattle.std.specs.Prelude.{◌≡◌, ◌+◌, ◌≤◌, ◌-◌, false, nat_le};
ghost use Rattle.mc_words.specs.model_device.specs.Image.{Closed, look};
ghost use Rattle.mc_words.specs.model_device.specs.Card.{means};
ghost use Rattle.mc_words.specs.model_device.specs.Layout.{gaps, IsWellLaid};
ghost use Rattle.mc_words.specs.model_device.specs.Device.{IsImage};
ghost use Rattle.mc_bank.specs.Bank.{FitsLimits, search_result};
ghost use Rattle.mc_blocks.specs.Chains.{count_of_searched_gaps};
ghost use Rattle.mc_store.specs.Store.{store_state, store_room, words_of_sizes, search_steps};

use crate::place::needed_words;
use mc_bank::{OpenRefusal, Site, Sizes};
use mc_blocks::first_fit;
use mc_nvm::{Nvm, Probe};
use mc_words::Steps;
use std::sync::ledger::Ledger;

/// The greatest number of applications of a card.
const APPS: u16 = 32;

/// Looks for a hole with the words that a load of these sizes takes, on a card with `count` applications. It reads the
/// root and the holes up to the one that it finds, and nothing if 32 applications are there.
///
/// # Errors
///
/// Returns `Apps` if 32 applications are there, else `NoRoom` if no hole is long enough.
pub fn find_room<N: Nvm, L: Ledger>(
    device: &N,
    count: u16,
    sizes: &Sizes,
    steps: &mut Steps<L>,
) -> Result<Site, OpenRefusal>
    requires going { (store_state (N.state device.now) count).stopped ≡ false }
    requires limits { FitsLimits sizes.now }
    ensures answer { result ≡ search_result sizes.now (nat_le 32 count) (store_room (N.state device.now) sizes.now) }
    ensures image { IsImage (N.state device.now).words }
    ensures ticks { steps.new ≡ steps.old
        + search_steps count (words_of_sizes sizes.now) (gaps (means (N.state device.now).words)) }
{
    let _size = device.len();
    if count >= APPS {
        return Err(OpenRefusal::Apps);
    }
    first_room(device, sizes, steps)
}

// Looks for a hole if fewer than 32 applications are there.
fn first_room<N: Nvm, L: Ledger>(
    device: &N,
    sizes: &Sizes,
    steps: &mut Steps<L>,
) -> Result<Site, OpenRefusal>
    requires image { IsImage (N.state device.now).words }
    requires closed { look (N.state device.now).words ≡ Closed }
    requires laid { IsWellLaid (N.state device.now).words }
    requires limits { FitsLimits sizes.now }
    ensures answer { result ≡ search_result sizes.now false (store_room (N.state device.now) sizes.now) }
    ensures ticks { steps.new ≡ steps.old
        + (1 + count_of_searched_gaps (words_of_sizes sizes.now) (gaps (means (N.state device.now).words))) }
{
    match first_fit(&Probe::new(device), needed_words(sizes), steps) {
        Some(place) => Ok(Site::new(*sizes, place)),
        None => Err(OpenRefusal::NoRoom),
    }
}

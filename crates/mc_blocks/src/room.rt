ghost use Rattle.std.specs.Prelude.{◌≡◌, ◌+◌, ◌≤◌, nat_le};
ghost use Rattle.mc_words.specs.model_device.specs.Image.{Closed, look};
ghost use Rattle.mc_words.specs.model_device.specs.Card.{means};
ghost use Rattle.mc_words.specs.model_device.specs.Layout.{first_fitting, gaps, IsWellLaid};
ghost use Rattle.mc_nvm.specs.Probe.{device_of_probe};
ghost use Rattle.mc_blocks.specs.Chains.{count_of_searched_gaps};

use crate::link::{Link, link_of};
use mc_nvm::{Nvm, Probe};
use mc_words::{Steps, number_of};
use std::sync::ledger::Ledger;

/// Returns the place of the first hole of at least `need` words, 1 or more, or `None` if there is none. The
/// image is well laid, and no journal is open. Follows the chain of holes and reads only through the probe,
/// one step for each read: the root, and the holes up to the one that it finds.
pub fn first_fit<N: Nvm, L: Ledger>(
    device: &Probe<'_, N, L>,
    need: u16,
    steps: &mut Steps<L>,
) -> Option<u16>
    requires closed { look (N.state (device_of_probe device.now)).words ≡ Closed }
    requires laid { IsWellLaid (N.state (device_of_probe device.now)).words }
    requires some { 1 ≤ need }
    ensures found { result ≡ first_fitting need (gaps (means (N.state (device_of_probe device.now)).words)) }
    ensures ticks { steps.new ≡ steps.old + (1 + count_of_searched_gaps need
        (gaps (means (N.state (device_of_probe device.now)).words))) }
{
    // The contract of `len` states the size of the words, which the proof needs.
    let _size = device.len();
    let root = device.read(0, steps);
    let mut place = number_of(root[6], root[7]);
    while place != 0 {
        let header = device.read(place as u32, steps);
        let hole = link_of(place, header);
        if is_long_enough(&hole, need) {
            return Some(place);
        }
        place = hole.next;
    }
    None
}

// Whether a hole has at least `need` words.
fn is_long_enough(hole: &Link, need: u16) -> bool
    ensures { result ≡ nat_le need hole.now.words }
{
    hole.words >= need
}

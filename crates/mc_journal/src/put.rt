ghost use Rattle.std.specs.Prelude.{◌≡◌, ◌+◌, ◌*◌, ◌<◌, ◌≤◌, true, [], ◌∷◌, length, OnOk};
ghost use Rattle.mc_words.specs.model_device.specs.Device.{Makes};
ghost use Rattle.mc_words.specs.model_device.specs.Image.{One};
ghost use Rattle.mc_words.specs.model_device.specs.Stopped.{entries, word_of_number};

use mc_gate::{Layout, number_word};
use mc_nvm::Nvm;
use mc_words::{Stop, Word};

/// Writes the target word and the value of each of at most 64 pairs.
///
/// # Errors
///
/// Returns the `Stop` of the first device write that stopped; no write is tried after it.
pub fn put_entries<N: Nvm>(device: &mut N, list: &[(u16, Word)]) -> Result<(), Stop>
    requires power { (N.state device.old).on ≡ true }
    requires size { 256 ≤ length (N.state device.old).words }
    requires few { length list.now ≤ 64 }
    ensures makes { Makes N.wrote device.old (entries One list.now) result device.new }
    ensures on { OnOk result ((N.state device.new).on ≡ true) }
    ensures size { length (N.state device.new).words ≡ length (N.state device.old).words }
{
    for (i, (target, word)) in list.iter().enumerate() {
        put_pair(device, i, *target, *word)?;
    }
    Ok(())
}

// Writes the target word and the value of pair i.
fn put_pair<N: Nvm>(device: &mut N, i: usize, target: u16, word: Word) -> Result<(), Stop>
    requires power { (N.state device.old).on ≡ true }
    requires size { 256 ≤ length (N.state device.old).words }
    requires few { i < 64 }
    ensures makes { Makes N.wrote device.old ((3 + 2 * i, word_of_number target) ∷ (4 + 2 * i, word)
        ∷ []) result device.new }
    ensures on { OnOk result ((N.state device.new).on ≡ true) }
    ensures size { length (N.state device.new).words ≡ length (N.state device.old).words }
{
    device.write(3 + 2 * i as u32, number_word(target))?;
    device.write(Layout::V1.place_of_value(i), word)
}

ghost use Rattle.std.specs.Prelude.{◌≡◌, ◌≤◌, true, length, take, drop, map, get_or, OnOk};
ghost use Rattle.mc_words.specs.model_device.specs.Bytes.{up, bytes2};
ghost use Rattle.mc_words.specs.model_device.specs.Device.{Makes};
ghost use Rattle.mc_words.specs.model_device.specs.Image.{Two};
ghost use Rattle.mc_words.specs.model_device.specs.Stopped.{four_targets, target_words, values_2, entries};

use mc_gate::Layout;
use mc_nvm::Nvm;
use mc_words::{Stop, Word, bytes_of};

/// The place of the first target word.
pub const TARGETS: u32 = 3;

/// Writes the target words of at most 64 pairs, and then their values.
///
/// # Errors
///
/// Returns the `Stop` of the first device write that stopped; no write is tried after it.
pub fn put_entries<N: Nvm>(device: &mut N, list: &[(u16, Word)]) -> Result<(), Stop>
    requires power { (N.state device.old).on ≡ true }
    requires size { 256 ≤ length (N.state device.old).words }
    requires few { length list.now ≤ 64 }
    ensures makes { Makes N.wrote device.old (entries Two list.now) result device.new }
    ensures on { OnOk result ((N.state device.new).on ≡ true) }
    ensures size { length (N.state device.new).words ≡ length (N.state device.old).words }
{
    put_targets(device, list)?;
    put_values(device, list)
}

// Writes the target words, four targets in each.
fn put_targets<N: Nvm>(device: &mut N, list: &[(u16, Word)]) -> Result<(), Stop>
    requires power { (N.state device.old).on ≡ true }
    requires size { 256 ≤ length (N.state device.old).words }
    requires few { length list.now ≤ 64 }
    ensures makes { Makes N.wrote device.old
        (target_words 0 (up (length list.now) 4) (map (λ p. p.0) list.now)) result device.new }
    ensures on { OnOk result ((N.state device.new).on ≡ true) }
    ensures size { length (N.state device.new).words ≡ length (N.state device.old).words }
{
    for i in 0..(list.len() + 3) / 4 {
        device.write(TARGETS + i as u32, target_word(list, 4 * i))?;
    }
    Ok(())
}

// Returns the word of the four targets from this one on, padded with zeros if there are fewer.
fn target_word(list: &[(u16, Word)], first: usize) -> Word
    requires { first ≤ 64 }
    ensures { result ≡ four_targets (take 4 (drop first (map (λ p. p.0) list.now))) }
{
    let [a, b] = target_bytes(list, first);
    let [c, d] = target_bytes(list, first + 1);
    let [e, f] = target_bytes(list, first + 2);
    let [g, h] = target_bytes(list, first + 3);
    [a, b, c, d, e, f, g, h]
}

// Returns the two bytes of a target, or zeros past the last.
fn target_bytes(list: &[(u16, Word)], i: usize) -> [u8; 2]
    ensures { result ≡ bytes2 (get_or (map (λ p. p.0) list.now) i 0) }
{
    if i < list.len() {
        bytes_of(list[i].0)
    } else {
        [0, 0]
    }
}

// Writes the values, a word each.
fn put_values<N: Nvm>(device: &mut N, list: &[(u16, Word)]) -> Result<(), Stop>
    requires power { (N.state device.old).on ≡ true }
    requires size { 256 ≤ length (N.state device.old).words }
    requires few { length list.now ≤ 64 }
    ensures makes { Makes N.wrote device.old (values_2 0 list.now) result device.new }
    ensures on { OnOk result ((N.state device.new).on ≡ true) }
    ensures size { length (N.state device.new).words ≡ length (N.state device.old).words }
{
    for (i, (_, word)) in list.iter().enumerate() {
        device.write(Layout::V2.place_of_value(i), *word)?;
    }
    Ok(())
}

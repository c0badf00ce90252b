ghost use Rattle.std.specs.Prelude.{◌≡◌, ◌≤◌, true, [], ◌∷◌, length, OnOk};
ghost use Rattle.std.specs.List.{AllByRecursion};
ghost use Rattle.mc_words.specs.model_device.specs.Device.{Makes};
ghost use Rattle.mc_words.specs.model_device.specs.Image.{within, gate, opening};
ghost use Rattle.mc_words.specs.model_device.specs.Stopped.{word_of_number, replay};
ghost use Rattle.mc_gate.specs.Layouts.{journal_of};

use crate::layouts::{HEAD, Layout, SHUT};
use crate::numbers::number_word;
use mc_nvm::Nvm;
use mc_words::{Stop, Word};

/// Writes the head, which holds the number of pairs, and opens the gate.
///
/// # Errors
///
/// Returns the `Stop` of the device write that stopped; no write is tried after it.
pub fn open_gate<N: Nvm>(device: &mut N, layout: Layout, count: usize) -> Result<(), Stop>
    requires power { (N.state device.old).on ≡ true }
    requires size { 256 ≤ length (N.state device.old).words }
    requires few { count ≤ 64 }
    ensures makes { Makes N.wrote device.old
        ((2, word_of_number count) ∷ (gate (journal_of layout), opening (journal_of layout)) ∷ []) result device.new }
    ensures on { OnOk result ((N.state device.new).on ≡ true) }
    ensures size { length (N.state device.new).words ≡ length (N.state device.old).words }
{
    device.write(HEAD, number_word(count as u16))?;
    device.write(layout.gate(), layout.opening())
}

/// Writes each word to its target, and shuts the gate.
///
/// # Errors
///
/// Returns the `Stop` of the device write that stopped; no write is tried after it.
pub fn replay_all<N: Nvm>(device: &mut N, layout: Layout, list: &[(u16, Word)]) -> Result<(), Stop>
    requires power { (N.state device.old).on ≡ true }
    requires size { 256 ≤ length (N.state device.old).words }
    requires targets { AllByRecursion (λ p. within (length (N.state device.old).words) p.0 ≡ true) list.now }
    ensures makes { Makes N.wrote device.old (replay (journal_of layout) list.now) result device.new }
{
    put_words(device, list)?;
    device.write(layout.gate(), SHUT)
}

// Writes each word to its target.
fn put_words<N: Nvm>(device: &mut N, list: &[(u16, Word)]) -> Result<(), Stop>
    requires power { (N.state device.old).on ≡ true }
    requires size { 256 ≤ length (N.state device.old).words }
    requires targets { AllByRecursion (λ p. within (length (N.state device.old).words) p.0 ≡ true) list.now }
    ensures makes { Makes N.wrote device.old list.now result device.new }
    ensures on { OnOk result ((N.state device.new).on ≡ true) }
    ensures size { length (N.state device.new).words ≡ length (N.state device.old).words }
{
    for (target, word) in list {
        device.write(*target as u32, *word)?;
    }
    Ok(())
}

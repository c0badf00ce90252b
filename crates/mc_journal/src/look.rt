ghost use Rattle.std.specs.Prelude.{◌≡◌, ◌≤◌, length};
ghost use Rattle.mc_words.specs.model_device.specs.Image.{One, within, targets, number};
ghost use Rattle.mc_gate.specs.Look.{target_list};

use arrayvec::ArrayVec;
use mc_gate::{Targets, is_within};
use mc_nvm::Nvm;
use mc_words::{Word, number_of};

/// Returns the targets of the first `count` pairs, at most 64, as the journal holds them.
///
/// # Errors
///
/// Returns the place of the first bad target word: it is not six zero bytes and a number, or the number is neither word
/// 0 nor a word of the heap.
pub fn read_targets<N: Nvm>(device: &N, count: usize) -> Result<Targets, u16>
    requires size { 256 ≤ length (N.state device.now).words }
    requires few { count ≤ 64 }
    ensures { targets One (N.state device.now).words count ≡ target_list result }
{
    let size = device.len();
    let mut found = ArrayVec::new();
    for i in 0..count {
        let place = 3 + 2 * i as u32;
        match target_of(device.read(place), size) {
            Some(target) => found.push(target),
            None => return Err(place as u16),
        }
    }
    Ok(found)
}

// Returns the target of a target word, which is six zero bytes and a number, or `None` if the front is not zero or the
// number is neither word 0 nor a word of the heap.
fn target_of(word: Word, size: u32) -> Option<u16>
    ensures { result ≡ number (within size) word }
{
    let [a, b, c, d, e, f, high, low] = word;
    if [a, b, c, d, e, f] != [0; 6] {
        return None;
    }
    let target = number_of(high, low);
    if is_within(target, size) {
        Some(target)
    } else {
        None
    }
}

ghost use Rattle.std.specs.Prelude.{◌≡◌, ◌+◌, ◌≤◌, true, false, ◌++◌, length, min, MatchOption};
ghost use Rattle.mc_words.specs.model_device.specs.Image.{Two, within, four, all_zero, ascend, after_all, targets};
ghost use Rattle.mc_gate.specs.Look.{target_list};
ghost use Rattle.arrayvec.specs.ArrayVec.{array_vec_len};

use crate::put::TARGETS;
use arrayvec::ArrayVec;
use mc_gate::{Targets, is_within};
use mc_nvm::Nvm;
use mc_words::{Word, number_of};

/// Returns the targets of the first `count` pairs, at most 64, as the journal holds them.
///
/// # Errors
///
/// Returns the place of the first bad target word: the targets do not ascend up to its last, one of its targets is
/// neither word 0 nor a word of the heap, or it is not zero past its last target.
pub fn read_targets<N: Nvm>(device: &N, count: usize) -> Result<Targets, u16>
    requires size { 256 ≤ length (N.state device.now).words }
    requires few { count ≤ 64 }
    ensures { targets Two (N.state device.now).words count ≡ target_list result }
{
    let size = device.len();
    let mut found = ArrayVec::new();
    let mut least = 0;
    for i in 0..(count + 3) / 4 {
        let place = TARGETS + i as u32;
        let all = numbers(device.read(place));
        let (now, past) = all.split_at(up_to_four(count - 4 * i));
        if !are_zero(past) {
            return Err(place as u16);
        }
        match ascending(now, least, size) {
            Some(next) => least = next,
            None => return Err(place as u16),
        }
        push_all(&mut found, now);
    }
    Ok(found)
}

// Appends these targets, for which there is room.
fn push_all(found: &mut Targets, now: &[u16])
    requires { array_vec_len found.old + length now.now ≤ 64 }
    ensures { found.new.items ≡ found.old.items ++ now.now }
{
    let _room = found.try_extend_from_slice(now);
}

// Returns `left`, but at most 4.
fn up_to_four(left: usize) -> usize
    ensures { result ≡ min left 4 }
{
    if left < 4 { left } else { 4 }
}

// Returns the four numbers of a target word.
fn numbers(word: Word) -> [u16; 4]
    ensures { result ≡ four word }
{
    let [a, b, c, d, e, f, g, h] = word;
    [
        number_of(a, b),
        number_of(c, d),
        number_of(e, f),
        number_of(g, h),
    ]
}

// Returns the least target that may come after these, or `None` if they do not ascend from `least` on or one of them is
// neither word 0 nor a word of the heap.
fn ascending(targets: &[u16], least: u32, size: u32) -> Option<u32>
    requires { size ≤ 16384 }
    ensures { MatchOption result (ascend size least targets.now ≡ false)
        (λ next. (ascend size least targets.now ≡ true) × (next ≡ after_all least targets.now)) }
{
    let mut next = least;
    for target in targets {
        if (*target as u32) < next || !is_within(*target, size) {
            return None;
        }
        next = *target as u32 + 1;
    }
    Some(next)
}

// Returns whether all are zero.
fn are_zero(numbers: &[u16]) -> bool
    ensures { result ≡ all_zero numbers.now }
{
    for number in numbers {
        if *number != 0 {
            return false;
        }
    }
    true
}

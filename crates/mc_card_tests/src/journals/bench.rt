ghost use Rattle.std.specs.Prelude.{◌≡◌, ◌≤◌, true, length, map};
ghost use Rattle.model_device.specs.Image.{ascend};
ghost use Rattle.model_device.specs.Stopped.{IsAtomic};

use crate::journals::rule::{Journal, ZERO, old_word, target, value, word_after};
use arrayvec::ArrayVec;
use mc_gate::{Recover, is_gate_open, is_within};
use mc_nvm::Bench;
use mc_words::{Stop, Word};

/// The answer of a call of a journal.
#[derive(Clone, Copy, Debug, PartialEq, Eq, Drop)]
pub enum Answer {
    Written,
    Recovered(u16),
    Stopped(Stop),
    BadJournal(u16),
    NotTried,
}

/// Sets each place to its old word, and disarms all stops.
pub fn prepare<N: Bench>(device: &mut N) {
    device.disarm();
    for at in 0..device.len() {
        set(device, at, old_word(at));
    }
}

fn set<N: Bench>(device: &mut N, at: u32, word: Word) {
    if at < device.len() {
        device.poke(at, word);
    }
}

/// Returns the word at a place, or zeros past the last place.
pub fn word_of<N: Bench>(device: &N, at: u32) -> Word {
    if at < device.len() {
        device.read(at)
    } else {
        ZERO
    }
}

/// Stops the `k`-th write from now, by a power cut or as a failed write; if `k` is 0, none.
pub fn stop_at<N: Bench>(device: &mut N, stop: Stop, k: u16, fill: Word) {
    if k < 1 {
        return;
    }
    match stop {
        Stop::Off => device.arm(k as u32, fill),
        Stop::Worn => device.wear(k as u32, fill),
    }
}

/// Does an atomic write of `w` words on a device with power.
pub fn write<N: Bench>(device: &mut N, journal: Journal, w: u8) -> Answer {
    let list = list_of(w);
    match journal {
        Journal::One => write_one(device, list.as_slice()),
        Journal::Two => write_two(device, list.as_slice()),
    }
}

/// Turns power on and recovers the device.
pub fn recover<N: Bench>(device: &mut N, journal: Journal) -> Answer {
    device.power();
    let recovered = match journal {
        Journal::One => mc_journal::recover(device),
        Journal::Two => mc_packed::recover(device),
    };
    match recovered {
        Ok(writes) => Answer::Recovered(writes),
        Err(Recover::Stop(stop)) => Answer::Stopped(stop),
        Err(Recover::BadJournal(place)) => Answer::BadJournal(place),
    }
}

/// Returns the first place outside the journal that does not hold the word due there, or `None` if there is
/// none.
pub fn wrong_place<N: Bench>(device: &N, journal: Journal, w: u8, stands: bool) -> Option<u32> {
    for at in 0..device.len() {
        if !journal.has(at) && word_of(device, at) != word_after(at, w, stands) {
            return Some(at);
        }
    }
    None
}

// The first w pairs of target and value.
fn list_of(w: u8) -> ArrayVec<(u16, Word), 64> {
    let mut list = ArrayVec::new();
    for i in 0..w {
        let _room = list.try_push((target(i), value(i)));
    }
    list
}

fn write_one<N: Bench>(device: &mut N, list: &[(u16, Word)]) -> Answer {
    device.power();
    if !is_atomic(device, list) || is_gate_open(device, mc_gate::Layout::V1) {
        return Answer::NotTried;
    }
    match mc_journal::write_words(device, list) {
        Ok(()) => Answer::Written,
        Err(stop) => Answer::Stopped(stop),
    }
}

fn write_two<N: Bench>(device: &mut N, list: &[(u16, Word)]) -> Answer {
    device.power();
    if !is_atomic(device, list) || is_gate_open(device, mc_gate::Layout::V2) {
        return Answer::NotTried;
    }
    match mc_packed::write_words(device, list) {
        Ok(()) => Answer::Written,
        Err(stop) => Answer::Stopped(stop),
    }
}

// Whether the list is an atomic write that the device can make.
fn is_atomic<N: Bench>(device: &N, list: &[(u16, Word)]) -> bool
    ensures atomic { result ≡ true → IsAtomic (length (N.state device.now).words) list.now }
    ensures low { 256 ≤ length (N.state device.now).words }
{
    let size = device.len();
    if list.len() < 1 || list.len() > 64 {
        return false;
    }
    ascends(list, size)
}

// Whether the targets ascend, each of them word 0 or in the heap.
fn ascends(list: &[(u16, Word)], size: u32) -> bool
    ensures { result ≡ ascend size 0 (map (λ p. p.0) list.now) }
{
    let mut least = 0;
    for (target, _) in list {
        if (*target as u32) < least || !is_within(*target, size) {
            return false;
        }
        least = *target as u32 + 1;
    }
    true
}

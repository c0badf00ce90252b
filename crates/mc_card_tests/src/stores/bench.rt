// Devices with words set by hand, and their power-ups.
ghost use Rattle.std.specs.Prelude.{◌≡◌};

use mc_blocks::{Cause, Unusable};
use mc_nvm::Bench;
use mc_store::{Store, Up};
use mc_words::{Stop, Word};

/// The result of a power-up: a card and the number of its writes, a stop, or no card.
#[derive(Clone, Copy, Debug, PartialEq, Eq, Drop)]
pub enum Power {
    Ready(u16),
    Stopped(Stop),
    Unusable(Cause, u16),
}

/// Stops the `k`-th write from now, by a power cut or as a failed write; if `k` is 0, none.
pub fn stop_at<N: Bench>(device: &mut N, stop: Stop, k: u16, fill: Word) {
    if k < 1 {
        return;
    }
    match stop {
        Stop::Off => device.arm(k as u32, fill),
        Stop::Worn => device.wear(k as u32, fill),
    }
}

/// Sets a word, if the device has its place.
pub fn set<N: Bench>(device: &mut N, at: u16, word: Word) {
    if (at as u32) < device.len() {
        device.poke(at as u32, word);
    }
}

/// Sets the word with this number.
pub fn set_number<N: Bench>(device: &mut N, at: u16, number: u64) {
    set(device, at, number.to_be_bytes());
}

/// Returns the word at a place as a number, or 0 past the last place.
pub fn number_at<N: Bench>(device: &N, at: u16) -> u64 {
    if (at as u32) < device.len() {
        u64::from_be_bytes(device.read(at as u32))
    } else {
        0
    }
}

/// Sets the words of an empty card.
pub fn format<N: Bench>(device: &mut N) {
    for (at, word) in mc_blocks::format_words(device.len()) {
        set(device, at, word);
    }
}

/// Turns power on, and returns the result of the power-up.
pub fn power_up<N: Bench>(device: &mut N) -> Power {
    device.power();
    match Store::power_up(device) {
        Ok((store, writes)) => {
            let _device = store.into_dev();
            Power::Ready(writes)
        }
        Err((_, up)) => power_of(up),
    }
}

/// Returns the result of a power-up that found no card or was stopped.
pub fn power_of(up: Up) -> Power {
    match up {
        Up::Stop(stop) => Power::Stopped(stop),
        Up::Unusable(Unusable { cause, place }) => Power::Unusable(cause, place),
    }
}

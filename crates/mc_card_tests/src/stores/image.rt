// The words of a device of 256 words, saved and restored, and the writes on a tape.
use crate::stores::bench::set;
use mc_nvm::{Bench, Nvm, TapeNvm};
use mc_words::Word;

/// The words of a device of 256 words.
pub type Image = [Word; 256];

/// Returns the words of the device.
pub fn image_of<N: Nvm>(device: &N) -> Image {
    let size = device.len();
    let mut image = [[0; 8]; 256];
    for at in 0..256 {
        if at < size {
            image[at as usize] = device.read(at);
        }
    }
    image
}

/// Restores the words, and disarms all stops.
pub fn restore<N: Bench>(device: &mut N, image: &Image) {
    device.disarm();
    for (at, word) in (0..256).zip(image) {
        set(device, at, *word);
    }
}

/// Returns the number of writes on a tape.
pub fn writes_of(device: &TapeNvm) -> u16 {
    match device.tape() {
        Some(entries) => entries.len().min(1000) as u16,
        None => 0,
    }
}

/// Returns the word that write `k`, counted from 1, left.
pub fn due_word(device: &TapeNvm, k: u16) -> Word {
    let Some(entries) = device.tape() else {
        return [0; 8];
    };
    match entries.get((k as usize).saturating_sub(1)) {
        Some(entry) => entry.left,
        None => [0; 8],
    }
}

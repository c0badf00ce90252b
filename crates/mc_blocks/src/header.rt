ghost use Rattle.std.specs.Prelude.{◌≡◌, ◌<◌, ◌==◌, length, slice_index};
ghost use Rattle.mc_words.specs.model_device.specs.Bytes.{be2};
ghost use Rattle.mc_words.specs.model_device.specs.Card.{word, used_tag};
ghost use Rattle.mc_words.specs.model_device.specs.Layout.{hole_header, used_header, root};

use mc_nvm::Nvm;
use mc_words::{Word, bytes_of};

/// The first byte of the header of a used block.
pub const USED: u8 = 0x55;

/// The first byte of the header of a hole.
pub const HOLE: u8 = 0x48;

/// The first word of the heap. The root is word 0, and the journals are the words between.
pub const HEAP: u32 = 131;

/// The header of a block: whether the block is used, and its number of words with the header.
#[derive(Clone, Copy, Debug, PartialEq, Eq)]
pub struct Header {
    pub used: bool,
    pub words: u16,
}

/// Returns the header at a place, where a block begins. Nothing of it is tested.
pub fn read_header<N: Nvm>(device: &N, place: u32) -> Header
    requires { place < length (N.state device.now).words }
    ensures used { result.used ≡ (slice_index (word (N.state device.now).words place) 0 == used_tag) }
    ensures words { result.words ≡ be2 (word (N.state device.now).words place) 2 }
{
    let word = device.read(place);
    Header {
        used: word[0] == USED,
        words: u16::from_be_bytes([word[2], word[3]]),
    }
}

/// Returns the header of a hole of `words` words, with the place of the next hole or 0.
pub fn hole_word(words: u16, link: u16) -> Word
    ensures { result ≡ hole_header words link }
{
    let [words_high, words_low] = bytes_of(words);
    let [link_high, link_low] = bytes_of(link);
    [HOLE, 0, words_high, words_low, link_high, link_low, 0, 0]
}

/// Returns the header of a used block of `words` words.
pub fn used_word(words: u16) -> Word
    ensures { result ≡ used_header words }
{
    let [high, low] = bytes_of(words);
    [USED, 0, high, low, 0, 0, 0, 0]
}

/// Returns the root with the version of the layout, the size of the device in words, and the place of the
/// first hole or 0.
pub fn root_word(version: u8, size: u16, first: u16) -> Word
    ensures { result ≡ root version size first }
{
    let [size_high, size_low] = bytes_of(size);
    let [first_high, first_low] = bytes_of(first);
    [
        b'M', b'E', b'L', version, size_high, size_low, first_high, first_low,
    ]
}

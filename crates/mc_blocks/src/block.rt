ghost use Rattle.std.specs.Prelude.{◌≡◌, ◌+◌, ◌≤◌, length, MatchOption, true, false};
ghost use Rattle.mc_words.specs.model_device.specs.Card.{header, word};
ghost use Rattle.mc_words.specs.model_device.specs.Layout.{bad_header};
ghost use Rattle.mc_blocks.specs.Blocks.{block_of, read_block, block_within};

use crate::header::{HOLE, USED};
use mc_nvm::Nvm;
use mc_words::{Word, number_of};

/// A block of the heap: the place of its header, whether it is used or a hole, its number of words with the
/// header, and its link.
#[derive(Clone, Copy, Debug, PartialEq, Eq)]
pub struct Block {
    pub place: u16,
    pub used: bool,
    pub words: u16,
    pub link: u16,
}

impl Block {
    /// Returns the place after it.
    pub fn end(&self) -> u32
        ensures { result ≡ self.now.place + self.now.words }
    {
        self.place as u32 + self.words as u32
    }
}

/// Returns the block whose header is `word`, or `None` if that is no header. Its link is not tested.
pub fn decode(place: u16, word: Word) -> Option<Block>
    ensures { read_block result ≡ header place word }
{
    let [
        tag,
        second,
        words_high,
        words_low,
        link_high,
        link_low,
        seventh,
        eighth,
    ] = word;
    let words = number_of(words_high, words_low);
    if (tag != USED && tag != HOLE) || second != 0 || words == 0 || seventh != 0 || eighth != 0 {
        return None;
    }
    Some(Block {
        place,
        used: tag == USED,
        words,
        link: number_of(link_high, link_low),
    })
}

/// Returns the block whose header is at a place, or `None` if there is no header or the block ends after the
/// device.
pub fn block_at<N: Nvm>(device: &N, place: u32) -> Option<Block>
    ensures { read_block result ≡ block_within (length (N.state device.now).words)
        (header place (word (N.state device.now).words place)) }
{
    let size = device.len();
    if place >= size {
        return None;
    }
    let block = decode(place as u16, device.read(place))?;
    if block.end() > size {
        return None;
    }
    Some(block)
}

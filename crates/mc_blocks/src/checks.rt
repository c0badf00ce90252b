// The checks of an image, each over the whole image before the next: the root, the headers, the records.
ghost use Rattle.std.specs.Prelude.{◌≡◌, ◌+◌, ◌≤◌, [], length, map, true, false, MatchOption};
ghost use Rattle.mc_words.specs.model_device.specs.Bytes.{has_name};
ghost use Rattle.mc_words.specs.model_device.specs.Card.{heap_start, word, header, blocks, name_in};
ghost use Rattle.mc_words.specs.model_device.specs.Layout.{no_root, bad_header, bad_block, bad_record};
ghost use Rattle.mc_blocks.specs.Blocks.{block_of, is_root_word, FollowsBlock, Admits};

use crate::block::{Block, block_at};
use crate::header::{HEAP, root_word};
use crate::record::{Record, is_good, name_of, read_record};
use arrayvec::ArrayVec;
use mc_nvm::Nvm;
use mc_words::Word;

/// Returns the place of the root if word 0 is no root of layout 1 or 2 for this size, else `None`.
pub fn missing_root<N: Nvm>(device: &N) -> Option<u16>
    ensures { result ≡ no_root (N.state device.now).words }
{
    let size = device.len();
    if is_root(device.read(0), size as u16) {
        None
    } else {
        Some(0)
    }
}

// Whether a word is a root of layout 1 or 2 for this size, whichever hole it names.
fn is_root(word: Word, size: u16) -> bool
    ensures { result ≡ is_root_word word size }
{
    let version = word[3];
    (version == 1 || version == 2) && word[..6] == root_word(version, size, 0)[..6]
}

/// Returns the place of the first bad header of a walk by lengths: it is no header, its block passes the end,
/// or a hole follows a hole.
#[tactic(auto, using(crate::proofs::Headers::bad_all, crate::proofs::Headers::bad_here, crate::proofs::Headers::bad_behind, crate::proofs::Headers::bad_end, crate::proofs::Headers::good_end))]
pub fn first_bad_header<N: Nvm>(device: &N) -> Option<u16>
    ensures { result ≡ bad_block (length (N.state device.now).words) (N.state device.now).words heap_start false }
{
    let size = device.len();
    let mut place = HEAP;
    let mut after_hole = false;
    while place < size {
        let Some(block) = good_block(device, place, after_hole) else {
            return Some(place as u16);
        };
        place = block.end();
        after_hole = !block.used;
    }
    None
}

// The block at a place, if its header is good there.
#[tactic(auto, using(crate::proofs::Headers::unfit_is_bad, crate::proofs::Headers::second_is_bad, crate::proofs::Headers::next_is_good))]
fn good_block<N: Nvm>(device: &N, place: u32, after_hole: bool) -> Option<Block>
    ensures { MatchOption result (bad_header (length (N.state device.now).words) after_hole
        (header place (word (N.state device.now).words place)) ≡ true)
        (λ b. FollowsBlock (length (N.state device.now).words) after_hole
        (header place (word (N.state device.now).words place)) (block_of b)) }
{
    let block = block_at(device, place)?;
    if after_hole && !block.used {
        return None;
    }
    Some(block)
}

/// Returns the place of the first used block whose record is bad: its fields are out of their ranges, its
/// sections do not fill the block, a block before it has its name, or it is the 33rd.
#[tactic(auto, using(crate::proofs::Entries::begun, crate::proofs::Entries::ended, crate::proofs::Entries::refused, crate::proofs::Entries::admits, crate::proofs::Steps::block_ends))]
pub fn first_bad_record<N: Nvm>(device: &N) -> Option<u16>
    ensures { result ≡ bad_record (N.state device.now).words (blocks (N.state device.now).words) [] 0 }
{
    let mut seen = ArrayVec::new();
    let mut place = HEAP;
    while let Some(block) = block_at(device, place) {
        if !admit(device, &block, &mut seen) {
            return Some(block.place);
        }
        place = block.end();
    }
    None
}

// Adds the record of a used block to those before it, if it is good after them, and returns whether the block
// is good. A hole is good.
#[tactic(auto, using(crate::proofs::Entries::short_is_none))]
fn admit<N: Nvm>(device: &N, block: &Block, seen: &mut ArrayVec<Record, 32>) -> bool
    requires { block.now.place + block.now.words ≤ length (N.state device.now).words }
    ensures { Admits (N.state device.now).words (block_of block.now) seen.old.items result seen.new.items }
{
    if !block.used {
        return true;
    }
    if block.words < 6 {
        return false;
    }
    let entry = read_record(device, block.place as u32);
    if !is_good(&entry, block.words) || is_seen(seen.as_slice(), &entry) || seen.is_full() {
        return false;
    }
    seen.push(entry);
    true
}

// Whether the name of a record is that of one of these.
fn is_seen(seen: &[Record], entry: &Record) -> bool
    ensures { result ≡ has_name (name_in entry.now) (map name_in seen.now) }
{
    for known in seen {
        if name_of(known) == name_of(entry) {
            return true;
        }
    }
    false
}

// The links of an image, tested by the blocks: the root and each hole name the next hole, used headers name
// none.
ghost use Rattle.std.specs.Prelude.{◌≡◌, ◌+◌, ◌≤◌, length, cond};
ghost use Rattle.mc_words.specs.model_device.specs.Card.{blocks};
ghost use Rattle.mc_words.specs.model_device.specs.Layout.{bad_chain, bad_link, first_hole};
ghost use Rattle.mc_blocks.specs.Blocks.{blocks_at, used_spans, hole_spans};

use crate::block::{Block, block_at};
use crate::header::HEAP;
use mc_nvm::Nvm;
use mc_words::number_of;

/// Returns the first place whose link is wrong, that of the root first, or `None`.
pub fn first_bad_place<N: Nvm>(device: &N) -> Option<u16>
    ensures { result ≡ bad_chain (N.state device.now).words (blocks (N.state device.now).words) }
{
    let _size = device.len();
    let root = device.read(0);
    if number_of(root[6], root[7]) != next_hole(device, HEAP) {
        return Some(0);
    }
    first_bad_link(device)
}

// The first block whose link is wrong.
#[tactic(auto, using(crate::proofs::Steps::blocks_step, crate::proofs::Steps::blocks_stop, crate::proofs::Steps::block_ends, crate::proofs::Steps::blocks_all))]
fn first_bad_link<N: Nvm>(device: &N) -> Option<u16>
    ensures { result ≡ bad_link (blocks (N.state device.now).words) }
{
    let mut place = HEAP;
    while let Some(block) = block_at(device, place) {
        if block.link != due_link(device, &block) {
            return Some(block.place);
        }
        place = block.end();
    }
    None
}

// The link that a block must have: 0 for a used one, the next hole for a hole.
fn due_link<N: Nvm>(device: &N, block: &Block) -> u16
    ensures { result ≡ cond block.now.used 0
        (first_hole (blocks_at (N.state device.now).words (block.now.place + block.now.words))) }
{
    if block.used {
        0
    } else {
        next_hole(device, block.end())
    }
}

// The place of the first hole from a place on, or 0.
#[tactic(auto, using(crate::proofs::Steps::blocks_step, crate::proofs::Steps::blocks_stop, crate::proofs::Steps::block_ends, crate::proofs::Steps::blocks_all))]
fn next_hole<N: Nvm>(device: &N, from: u32) -> u16
    ensures { result ≡ first_hole (blocks_at (N.state device.now).words from) }
{
    let mut place = from;
    while let Some(block) = block_at(device, place) {
        if !block.used {
            return block.place;
        }
        place = block.end();
    }
    0
}

/// Returns the number of used blocks and the number of holes.
#[tactic(auto, using(crate::proofs::Steps::blocks_step, crate::proofs::Steps::blocks_stop, crate::proofs::Steps::block_ends, crate::proofs::Steps::blocks_all))]
pub fn count_blocks<N: Nvm>(device: &N) -> (u16, u16)
    ensures used { result.0 ≡ length (used_spans (blocks (N.state device.now).words)) }
    ensures holes { result.1 ≡ length (hole_spans (blocks (N.state device.now).words)) }
{
    let _size = device.len();
    let mut used = 0;
    let mut holes = 0;
    let mut place = HEAP;
    while let Some(block) = block_at(device, place) {
        if block.used {
            used += 1;
        } else {
            holes += 1;
        }
        place = block.end();
    }
    (used, holes)
}

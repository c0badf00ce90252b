// Links of the chain of holes.
ghost use Rattle.std.specs.Prelude.{◌≡◌, ◌+◌, ◌<◌, ◌≤◌, length, slice_index};
ghost use Rattle.mc_words.specs.model_device.specs.Bytes.{be2};
ghost use Rattle.mc_words.specs.model_device.specs.Image.{Closed, look};
ghost use Rattle.mc_words.specs.model_device.specs.Card.{means, word};
ghost use Rattle.mc_words.specs.model_device.specs.Layout.{first_place, gaps, IsWellLaid};
ghost use Rattle.mc_blocks.specs.Plans.{link_word, names_before, gap_before, gaps_behind, joined_words, joined_next};

use crate::header::{hole_word, root_word};
use mc_nvm::Nvm;
use mc_words::{Word, number_of};

/// A link of the chain: the root, at place 0, or a hole of `words` words; and the place of the hole that it
/// names, or 0.
#[derive(Clone, Copy, Debug, PartialEq, Eq)]
pub struct Link {
    pub place: u16,
    pub words: u16,
    pub next: u16,
}

/// Returns the header at a place as a link.
pub fn link_at<N: Nvm>(device: &N, place: u16) -> Link
    requires { place < length (N.state device.now).words }
    ensures place { result.place ≡ place }
    ensures words { result.words ≡ be2 (word (N.state device.now).words place) 2 }
    ensures next { result.next ≡ be2 (word (N.state device.now).words place) 4 }
{
    link_of(place, device.read(place as u32))
}

/// Returns a header with its place as a link.
pub fn link_of(place: u16, header: Word) -> Link
    ensures place { result.place ≡ place }
    ensures words { result.words ≡ be2 header 2 }
    ensures next { result.next ≡ be2 header 4 }
{
    Link {
        place,
        words: number_of(header[2], header[3]),
        next: number_of(header[4], header[5]),
    }
}

/// Returns the last link of the chain before a place.
pub fn link_before<N: Nvm>(device: &N, place: u16) -> Link
    requires closed { look (N.state device.now).words ≡ Closed }
    requires laid { IsWellLaid (N.state device.now).words }
    ensures gap { (result.place, result.words) ≡ gap_before place (0, 0) (gaps (means (N.state device.now).words)) }
    ensures next { result.next ≡ first_place (gaps_behind place (gaps (means (N.state device.now).words))) }
{
    let _size = device.len();
    let root = device.read(0);
    let mut link = Link {
        place: 0,
        words: 0,
        next: number_of(root[6], root[7]),
    };
    while is_before(link.next, place) {
        link = link_at(device, link.next);
    }
    link
}

// Whether a link names a hole before a place.
fn is_before(next: u16, place: u16) -> bool
    ensures { result ≡ names_before next place }
{
    next != 0 && next < place
}

/// Returns the write by which a link names another hole, or 0: its place and its new word.
pub fn relinked<N: Nvm>(device: &N, link: &Link, next: u16) -> (u16, Word)
    ensures { result ≡ link_word (slice_index (word (N.state device.now).words 0) 3)
        (length (N.state device.now).words) (link.now.place, link.now.words) next }
{
    let size = device.len();
    if link.place == 0 {
        let root = device.read(0);
        return (0, root_word(root[3], size as u16, next));
    }
    (link.place, hole_word(link.words, next))
}

/// Returns a hole that names the next gap, joined with that gap if they touch.
pub fn joined<N: Nvm>(device: &N, hole: &Link) -> Link
    requires closed { look (N.state device.now).words ≡ Closed }
    requires laid { IsWellLaid (N.state device.now).words }
    requires low { 1 ≤ hole.now.place }
    requires high { hole.now.place + hole.now.words ≤ length (N.state device.now).words }
    requires next { hole.now.next ≡ first_place (gaps_behind hole.now.place (gaps (means (N.state device.now).words))) }
    ensures place { result.place ≡ hole.now.place }
    ensures words { result.words ≡ joined_words hole.now.place hole.now.words
        (gaps_behind hole.now.place (gaps (means (N.state device.now).words))) }
    ensures next { result.next ≡ joined_next hole.now.place hole.now.words
        (gaps_behind hole.now.place (gaps (means (N.state device.now).words))) }
{
    let _size = device.len();
    if hole.next != hole.place + hole.words {
        return *hole;
    }
    let behind = link_at(device, hole.next);
    Link {
        place: hole.place,
        words: hole.words + behind.words,
        next: behind.next,
    }
}

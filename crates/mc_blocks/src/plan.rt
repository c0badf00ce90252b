ghost use Rattle.std.specs.Prelude.{◌≡◌, ◌+◌, ◌≤◌, true, length, slice_index};
ghost use Rattle.mc_words.specs.model_device.specs.Image.{Closed, look};
ghost use Rattle.mc_words.specs.model_device.specs.Stopped.{IsAtomic};
ghost use Rattle.mc_words.specs.model_device.specs.Card.{means, word};
ghost use Rattle.mc_words.specs.model_device.specs.Layout.{spans, gaps, put_at, IsWellLaid};
ghost use Rattle.mc_blocks.specs.Plans.{plan, without, has_room, has_span, take_front, put_hole};

use crate::header::{hole_word, used_word};
use crate::link::{Link, joined, link_at, link_before, relinked};
use arrayvec::ArrayVec;
use mc_nvm::Nvm;
use mc_words::Word;

/// Returns the header words that change when `need` words, 1 or more, are taken from the front of the hole at
/// a place that has them: the link before it, the used header, and the header of the rest of the hole. They
/// ascend and are at most three. The image is well laid, and no journal is open.
pub fn take_plan<N: Nvm>(device: &N, place: u16, need: u16) -> ArrayVec<(u16, Word), 4>
    requires closed { look (N.state device.now).words ≡ Closed }
    requires laid { IsWellLaid (N.state device.now).words }
    requires some { 1 ≤ need }
    requires hole { has_room place need (gaps (means (N.state device.now).words)) ≡ true }
    ensures plan { result.items ≡ plan (means (N.state device.now).words)
        (put_at place need (spans (means (N.state device.now).words))) }
    ensures atomic { IsAtomic (length (N.state device.now).words) result.items }
    ensures few { length result.items ≤ 3 }
{
    let _size = device.len();
    let before = link_before(device, place);
    let hole = link_at(device, place);
    take_words(device, &before, &hole, need)
}

/// Returns the header words that change when the used block at a place is freed: a hole there, joined with
/// the holes that it touches, and the link before it. They ascend and are at most three. The image is well
/// laid, and no journal is open.
pub fn free_plan<N: Nvm>(device: &N, place: u16) -> ArrayVec<(u16, Word), 4>
    requires closed { look (N.state device.now).words ≡ Closed }
    requires laid { IsWellLaid (N.state device.now).words }
    requires block { has_span place (spans (means (N.state device.now).words)) ≡ true }
    ensures plan { result.items ≡ plan (means (N.state device.now).words)
        (without place (spans (means (N.state device.now).words))) }
    ensures atomic { IsAtomic (length (N.state device.now).words) result.items }
    ensures few { length result.items ≤ 3 }
{
    let _size = device.len();
    let before = link_before(device, place);
    let block = link_at(device, place);
    let hole = joined(
        device,
        &Link {
            place,
            words: block.words,
            next: before.next,
        },
    );
    free_words(device, &before, &hole)
}

// The writes by which words are taken from the front of a hole.
fn take_words<N: Nvm>(device: &N, before: &Link, hole: &Link, need: u16) -> ArrayVec<(u16, Word), 4>
    requires { hole.now.place + hole.now.words ≤ 65535 }
    ensures { result.items ≡ take_front (slice_index (word (N.state device.now).words 0) 3)
        (length (N.state device.now).words)
        (before.now.place, before.now.words) hole.now.place hole.now.words hole.now.next need }
{
    let mut list = ArrayVec::new();
    if need >= hole.words {
        list.push(relinked(device, before, hole.next));
        list.push((hole.place, used_word(need)));
        return list;
    }
    let rest = hole.place + need;
    list.push(relinked(device, before, rest));
    list.push((hole.place, used_word(need)));
    list.push((rest, hole_word(hole.words - need, hole.next)));
    list
}

// The writes by which a hole takes the place of a block.
fn free_words<N: Nvm>(device: &N, before: &Link, hole: &Link) -> ArrayVec<(u16, Word), 4>
    requires place { before.now.place + before.now.words ≤ 65535 }
    requires words { before.now.words + hole.now.words ≤ 65535 }
    ensures { result.items ≡ put_hole (slice_index (word (N.state device.now).words 0) 3)
        (length (N.state device.now).words)
        (before.now.place, before.now.words) hole.now.place hole.now.words hole.now.next }
{
    let mut list = ArrayVec::new();
    if before.place != 0 && before.place + before.words == hole.place {
        list.push((
            before.place,
            hole_word(before.words + hole.words, hole.next),
        ));
        return list;
    }
    list.push(relinked(device, before, hole.place));
    list.push((hole.place, hole_word(hole.words, hole.next)));
    list
}

// The used blocks of a card and their records, read by their places.
ghost use Rattle.std.specs.Prelude.{◌≡◌, ◌+◌, ◌<◌, ◌≤◌, ◌&&◌, ◌==◌, None, IfSome, is_some, option_map, length, take, bytes_eq, true};
ghost use Rattle.mc_words.specs.model_device.specs.Device.{IsImage};
ghost use Rattle.mc_words.specs.model_device.specs.Card.{blocks, record_at, name_at};
ghost use Rattle.mc_words.specs.model_device.specs.Layout.{words_fault};
ghost use Rattle.mc_bank.specs.Slots.{slot_place, slot_sizes};
ghost use Rattle.mc_store.specs.Slots.{first_named, record_sizes, IsUsedBlock};

use mc_bank::{Sizes, Slot};
use mc_blocks::{HEAP, Header, Record, name_of, read_header, read_record, record_from};
use mc_nvm::Nvm;
use mc_words::{Aid, Word, number_of};

/// Returns the slot of the used block that has this name, or `None` if there is none, on words without a fault.
pub fn find_block<N: Nvm>(device: &N, aid: &Aid) -> Option<Slot>
    requires laid { words_fault (N.state device.now).words ≡ None }
    ensures place { option_map slot_place result
        ≡ first_named (N.state device.now).words (blocks (N.state device.now).words) aid.now }
    ensures sizes { IfSome result (λ slot. slot_sizes slot
        ≡ record_sizes (record_at (N.state device.now).words (slot_place slot))) }
    ensures image { IsImage (N.state device.now).words }
{
    let size = device.len();
    let head = head_of(aid);
    let mut place = HEAP;
    while place < size {
        let header = read_header(device, place);
        if let Some(sizes) = sizes_of_name(device, place, &header, aid, &head) {
            return Some(Slot::new(place as u16, sizes));
        }
        place += header.words as u32;
    }
    None
}

// Returns the sizes of a block if it is used and has this name, whose first five bytes are `head`.
fn sizes_of_name<N: Nvm>(
    device: &N,
    place: u32,
    header: &Header,
    aid: &Aid,
    head: &[u8; 5],
) -> Option<Sizes>
    requires fits { header.now.used ≡ true → place + 5 ≤ length (N.state device.now).words }
    requires head { head.now ≡ take 5 aid.now }
    requires name { 5 ≤ length aid.now }
    ensures name { is_some result ≡ (header.now.used && bytes_eq (name_at (N.state device.now).words place) aid.now) }
    ensures sizes { IfSome result (λ sizes. sizes ≡ record_sizes (record_at (N.state device.now).words place)) }
{
    if !header.used {
        return None;
    }
    let _size = device.len();
    let first = device.read(place + 1);
    if !begins(&first, head) {
        return None;
    }
    let entry = record_from(device, place, first);
    if name_of(&entry) == aid.bytes() {
        Some(sizes_of(&entry))
    } else {
        None
    }
}

// Returns the first five bytes of a name, which has five or more.
fn head_of(aid: &Aid) -> [u8; 5]
    ensures head { result ≡ take 5 aid.now }
    ensures name { 5 ≤ length aid.now }
{
    match aid.bytes() {
        [a, b, c, d, e, ..] => [*a, *b, *c, *d, *e],
        _ => [0; 5],
    }
}

// Returns whether a word begins with these bytes.
fn begins(first: &Word, head: &[u8; 5]) -> bool
    ensures { result ≡ bytes_eq (take 5 first.now) head.now }
{
    // Five bytes are compared sooner than two slices, and names that differ mostly do so in the last of them.
    let [a, b, c, d, e, ..] = first;
    let [f, g, h, i, j] = head;
    e == j && a == f && b == g && c == h && d == i
}

/// Returns the name in the record of the used block at a place.
pub fn name_of_block<N: Nvm>(device: &N, place: u16) -> Aid
    requires { IsUsedBlock (N.state device.now).words place }
    ensures { result ≡ name_at (N.state device.now).words place }
{
    let _size = device.len();
    let entry = read_record(device, place as u32);
    Aid::new(name_of(&entry)).unwrap()
}

// Returns the sizes in a record; its data are its whole static segment.
fn sizes_of(entry: &Record) -> Sizes
    ensures { result ≡ record_sizes entry.now }
{
    let fixed = number_of(entry[22], entry[23]);
    Sizes {
        code: number_of(entry[20], entry[21]),
        fixed,
        init: fixed,
        session: number_of(entry[24], entry[25]),
        dir: entry[17] as u16,
        fci: entry[18] as u16,
        deny: number_of(entry[26], entry[27]),
    }
}

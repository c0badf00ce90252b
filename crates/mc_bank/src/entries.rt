ghost use Rattle.std.specs.Prelude.{◌≡◌, ◌+◌, ◌-◌, ◌*◌, ◌<◌, ◌≤◌, length, take, drop, slice_set, Some, None, is_some, IsSome, IfSome};
ghost use Rattle.std.specs.List.{AllByRecursion};
ghost use Rattle.model_card.specs.model_device.specs.Bytes.{splice, zeros};
ghost use Rattle.model_card.specs.model_device.specs.Pieces.{laid_pieces, word_pieces};
ghost use Rattle.mc_bank.specs.Memory.{facts_in, name_of_entry, memory_named, first_free, count_of_used, has, is_named, part_of, with_piece, with_list, with_app, IsMemory};
ghost use Rattle.mc_bank.specs.Shown.{EntryShows};

use crate::bank::{Facts, Slot};
use mc_words::{Aid, Word};
use model_card::{Part, Sizes};

/// The memory of one application, and its facts while it is there.
#[derive(Clone, Copy, Drop)]
pub struct Entry {
    pub facts: Option<Facts>,
    pub code: [u8; 8192],
    pub fixed: [u8; 4096],
    pub dir: [u8; 128],
    pub fci: [u8; 128],
}

// Returns whether an entry is used under this name.
fn is_of(entry: &Entry, aid: &Aid) -> bool
    ensures { result ≡ has entry.now.facts aid.now }
{
    match &entry.facts {
        Some(facts) => facts.aid.bytes() == aid.bytes(),
        None => false,
    }
}

/// Returns the number of the entry of a name, or `None` if no entry has it.
pub fn entry_of(entries: &[Entry], aid: &Aid) -> Option<u16>
    requires few { length entries.now ≤ 32 }
    ensures there { is_some result ≡ is_named (facts_in entries.now) aid.now }
    ensures named { IfSome result (λ k. name_of_entry (facts_in entries.now) k ≡ Some aid.now) }
{
    for (i, entry) in entries.iter().enumerate() {
        if is_of(entry, aid) {
            return Some(i as u16);
        }
    }
    None
}

/// Returns the number of the first free entry, or the number of entries if none is free.
pub fn free_entry(entries: &[Entry]) -> u16
    requires few { length entries.now ≤ 32 }
    ensures { result ≡ first_free (facts_in entries.now) }
{
    for (i, entry) in entries.iter().enumerate() {
        if entry.facts.is_none() {
            return i as u16;
        }
    }
    entries.len() as u16
}

/// Returns the number of used entries.
pub fn count_used(entries: &[Entry]) -> u16
    requires few { length entries.now ≤ 32 }
    ensures { result ≡ count_of_used (facts_in entries.now) }
{
    let mut count = 0;
    for entry in entries {
        if entry.facts.is_some() {
            count += 1;
        }
    }
    count
}

/// Copies bytes from a place on.
pub fn read(bytes: &[u8], at: usize, into: &mut [u8])
    requires { at + length into.old ≤ length bytes.now }
    ensures { into.new ≡ take (length into.old) (drop at bytes.now) }
{
    into.copy_from_slice(&bytes[at..at + into.len()]);
}

// Sets bytes from a place on.
fn write(into: &mut [u8], at: usize, piece: &[u8])
    requires { at + length piece.now ≤ length into.old }
    ensures { into.new ≡ splice into.old at piece.now }
{
    into[at..at + piece.len()].copy_from_slice(piece);
}

// Sets zeros from one place up to another.
fn clear(into: &mut [u8], from: usize, to: usize)
    requires order { from ≤ to }
    requires range { to ≤ length into.old }
    ensures { into.new ≡ splice into.old from (zeros (to - from)) }
{
    into[from..to].fill(0);
}

// Sets whole words, each from eight times its number on.
fn write_words(into: &mut [u8], list: &[(u16, Word)])
    requires { AllByRecursion (λ w. 8 * w.0 + 8 ≤ length into.old) list.now }
    ensures { into.new ≡ laid_pieces into.old (word_pieces list.now) }
{
    for (number, word) in list {
        write(into, 8 * *number as usize, word);
    }
}

/// Sets bytes of a section of an entry.
pub fn put_piece(entry: &mut Entry, part: Part, at: usize, piece: &[u8])
    requires { at + length piece.now ≤ length (part_of part entry.old) }
    ensures { entry.new ≡ with_piece part at piece.now entry.old }
{
    match part {
        Part::Code => write(&mut entry.code, at, piece),
        Part::Data => write(&mut entry.fixed, at, piece),
        Part::Dir => write(&mut entry.dir, at, piece),
        Part::Fci => write(&mut entry.fci, at, piece),
    }
}

/// Sets whole words of the static bytes of an entry.
pub fn put_words(entry: &mut Entry, list: &[(u16, Word)])
    requires { AllByRecursion (λ w. 8 * w.0 + 8 ≤ length entry.old.fixed) list.now }
    ensures { entry.new ≡ with_list list.now entry.old }
{
    write_words(&mut entry.fixed, list);
}

/// Makes an application of the bytes in an entry: the static bytes after its data become zeros.
pub fn put_app(entry: &mut Entry, sizes: &Sizes, aid: &Aid)
    requires data { sizes.now.init ≤ sizes.now.fixed }
    requires room { sizes.now.fixed ≤ length entry.old.fixed }
    ensures { entry.new ≡ with_app sizes.now aid.now entry.old }
{
    clear(&mut entry.fixed, sizes.init as usize, sizes.fixed as usize);
    entry.facts = Some(Facts {
        aid: *aid,
        sizes: Sizes {
            init: sizes.fixed,
            ..*sizes
        },
    });
}

/// Returns the slot of the application in an entry that is used.
pub fn slot_of(entries: &[Entry], index: u16) -> Slot
    requires memory { IsMemory entries.now }
    requires there { IsSome (name_of_entry (facts_in entries.now) index) }
    ensures { memory_named entries.now result ≡ name_of_entry (facts_in entries.now) index }
{
    let entry = &entries[index as usize];
    Slot::new(index, entry.facts.unwrap().sizes)
}

/// Returns the entry of an application.
pub fn used_entry(entries: &[Entry], slot: Slot) -> &Entry
    requires memory { IsMemory entries.now }
    requires there { IsSome (memory_named entries.now slot) }
    ensures { EntryShows entries.now slot result.now }
{
    &entries[slot.index() as usize]
}

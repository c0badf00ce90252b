// What a load writes into a hole: bytes of its sections, each word of them in one write.
ghost use Rattle.std.specs.Prelude.{◌≡◌, ◌+◌, ◌*◌, ◌/◌, ◌%◌, ◌<◌, ◌≤◌, ◌⊎◌, true, length, map, OnOk};
ghost use Rattle.mc_words.specs.model_device.specs.Bytes.{splice};
ghost use Rattle.mc_words.specs.model_device.specs.Orders.{InOrder};
ghost use Rattle.mc_words.specs.model_device.specs.Card.{word};
ghost use Rattle.mc_bank.specs.model_card.specs.Items.{Piece};
ghost use Rattle.mc_bank.specs.model_card.specs.Manager.{word_parts};
ghost use Rattle.mc_bank.specs.Bank.{part_len};
ghost use Rattle.mc_store.specs.Store.{is_going, part_from, IsGoodIn, IsInWord};
ghost use Rattle.mc_store.specs.StoreItems.{store_did};

use crate::place::part_place;
use crate::store::Store;
use mc_bank::{Part, Site};
use mc_nvm::Nvm;
use mc_words::{Stop, Word};

/// Sets bytes of a section of a site that has room.
///
/// # Errors
///
/// Returns the stop of a write; the applications are as before then.
pub fn fill<N: Nvm>(
    store: &mut Store<N>,
    site: &Site,
    part: Part,
    at: u16,
    piece: &[u8],
) -> Result<(), Stop>
    requires going { is_going (N.state store.old.device) store.old.count ≡ true }
    requires good { IsGoodIn (N.state store.old.device).words site.now }
    requires range { at + length piece.now ≤ part_len part site.now.sizes }
    ensures items { InOrder (store_did N.state N.wrote) store.old (map
        (λ c. Piece site.now part c.0 c.1) (word_parts at piece.now)) result store.new }
{
    let place = part_place(part, &site.sizes(), site.place());
    let mut done = 0;
    while done < piece.len() {
        let from = at + done as u16;
        let count = room_in_word(from, piece.len() - done);
        put_part(store, site, part, place, from, &piece[done..done + count])?;
        done += count;
    }
    Ok(())
}

/// Returns the number of bytes, of `count` from `at` on, that lie in the word of the first of them.
pub fn room_in_word(at: u16, count: usize) -> usize
    requires { 1 ≤ count }
    ensures low { 1 ≤ result }
    ensures high { result ≤ count }
    ensures word { at % 8 + result ≤ 8 }
    ensures least { (result ≡ count) ⊎ (at % 8 + result ≡ 8) }
{
    (8 - (at % 8) as usize).min(count)
}

// Sets bytes in one word of a section, which begins in the word `place`.
fn put_part<N: Nvm>(
    store: &mut Store<N>,
    site: &Site,
    part: Part,
    place: u32,
    at: u16,
    bytes: &[u8],
) -> Result<(), Stop>
    requires going { is_going (N.state store.old.device) store.old.count ≡ true }
    requires good { IsGoodIn (N.state store.old.device).words site.now }
    requires place { place ≡ part_from part site.now.sizes site.now.place }
    requires word { IsInWord (part_len part site.now.sizes) at (length bytes.now) }
    ensures did { store_did N.state N.wrote store.old (Piece site.now part at bytes.now) result store.new }
    ensures going { OnOk result (is_going (N.state store.new.device) store.new.count ≡ true) }
    ensures good { OnOk result (IsGoodIn (N.state store.new.device).words site.now) }
{
    let _size = store.device.len();
    write_part(&mut store.device, place, at, bytes)
}

/// Writes bytes into one word of those from a place on; its other bytes stay. A word that is written whole is not
/// read first.
///
/// # Errors
///
/// Returns the stop of the write; the word may hold anything then.
pub fn write_part<N: Nvm>(device: &mut N, from: u32, at: u16, bytes: &[u8]) -> Result<(), Stop>
    requires power { (N.state device.old).on ≡ true }
    requires place { from + at / 8 < length (N.state device.old).words }
    requires word { at % 8 + length bytes.now ≤ 8 }
    ensures wrote { N.wrote device.old (from + at / 8)
        (splice (word (N.state device.old).words (from + at / 8)) (at % 8) bytes.now) result device.new }
{
    let _size = device.len();
    let place = from + (at / 8) as u32;
    if bytes.len() == 8 {
        return device.write(place, whole_word(bytes));
    }
    let word = with_bytes(device.read(place), (at % 8) as usize, bytes);
    device.write(place, word)
}

// Returns eight bytes as a word.
fn whole_word(bytes: &[u8]) -> Word
    requires { length bytes.now ≡ 8 }
    ensures { result ≡ bytes.now }
{
    let mut word = [0; 8];
    word.copy_from_slice(bytes);
    word
}

// Returns a word with bytes written over it from `at` on.
fn with_bytes(word: Word, at: usize, bytes: &[u8]) -> Word
    requires { at + length bytes.now ≤ 8 }
    ensures { result ≡ splice word at bytes.now }
{
    let mut new = word;
    new[at..at + bytes.len()].copy_from_slice(bytes);
    new
}

ghost use Rattle.std.specs.Prelude.{◌≡◌, ◌+◌, ◌≤◌, length, slice_index, bytes_eq};
ghost use Rattle.mc_words.specs.model_device.specs.Bytes.{be2, zeros, up};
ghost use Rattle.mc_words.specs.model_device.specs.Card.{record_at, name_in, word, words_of_lengths};
ghost use Rattle.mc_words.specs.model_device.specs.Layout.{is_record};
ghost use Rattle.mc_blocks.specs.Records.{has_valid_name, has_valid_lengths, has_valid_access};

use mc_nvm::Nvm;
use mc_words::{Word, number_of};

/// The 32 bytes of a record.
pub type Record = [u8; 32];

/// Returns the record of the block at a place: the four words after its header.
pub fn read_record<N: Nvm>(device: &N, place: u32) -> Record
    requires { place + 5 ≤ length (N.state device.now).words }
    ensures { result ≡ record_at (N.state device.now).words place }
{
    let _size = device.len();
    record_from(device, place, device.read(place + 1))
}

/// Returns the record of the block at a place, whose first word was read.
#[tactic(auto, using(crate::proofs::Records::record_words))]
pub fn record_from<N: Nvm>(device: &N, place: u32, first: Word) -> Record
    requires place { place + 5 ≤ length (N.state device.now).words }
    requires first { first ≡ word (N.state device.now).words (place + 1) }
    ensures { result ≡ record_at (N.state device.now).words place }
{
    let _size = device.len();
    let words = [
        first,
        device.read(place + 2),
        device.read(place + 3),
        device.read(place + 4),
    ];
    let mut bytes = [0; 32];
    bytes.copy_from_slice(words.as_flattened());
    bytes
}

/// Returns the name in a record.
#[tactic(auto, using(std::proofs::lemmas::List::take_min))]
pub fn name_of(entry: &Record) -> &[u8]
    ensures { result.now ≡ name_in entry.now }
{
    let len = (entry[16] as usize).min(32);
    &entry[..len]
}

/// Returns whether the fields of a record are in their ranges, and its sections fill a block of `words`
/// words.
#[tactic(auto, using(crate::proofs::Records::record_parts))]
pub fn is_good(entry: &Record, words: u16) -> bool
    ensures { result ≡ is_record entry.now words }
{
    is_named(entry) && has_sizes(entry) && has_rights(entry) && words as u32 == needed_words(entry)
}

// Whether the name has 5 to 16 bytes, with zeros after it.
fn is_named(entry: &Record) -> bool
    ensures { result ≡ has_valid_name entry.now }
{
    let len = entry[16] as usize;
    len >= 5 && len <= 16 && are_zero(&entry[len..16])
}

// Whether the lengths of the sections are within the limits.
fn has_sizes(entry: &Record) -> bool
    ensures { result ≡ has_valid_lengths entry.now }
{
    let code = number_of(entry[20], entry[21]);
    let fixed = number_of(entry[22], entry[23]);
    entry[17] <= 128
        && entry[18] <= 128
        && entry[19] == 0
        && code >= 1
        && code <= 8192
        && fixed <= 4096
}

// Whether the session size and the access list are within the limits, and zeros follow.
fn has_rights(entry: &Record) -> bool
    ensures { result ≡ has_valid_access entry.now }
{
    let session = number_of(entry[24], entry[25]);
    let deny = number_of(entry[26], entry[27]);
    session <= 256 && deny <= 15 && are_zero(&entry[28..32])
}

// The number of words of a block with sections of the lengths in its record.
fn needed_words(entry: &Record) -> u32
    ensures { result ≡ words_of_lengths (be2 entry.now 20) (be2 entry.now 22) (slice_index entry.now 17)
        (slice_index entry.now 18) }
{
    let code = number_of(entry[20], entry[21]);
    let fixed = number_of(entry[22], entry[23]);
    5 + words_of(code) + words_of(fixed) + words_of(entry[17] as u16) + words_of(entry[18] as u16)
}

/// Returns the number of words that `bytes` bytes take.
pub fn words_of(bytes: u16) -> u32
    ensures { result ≡ up bytes 8 }
{
    (bytes as u32 + 7) / 8
}

// Whether all are zero.
fn are_zero(bytes: &[u8]) -> bool
    ensures { result ≡ bytes_eq bytes.now (zeros (length bytes.now)) }
{
    for byte in bytes {
        if *byte != 0 {
            return false;
        }
    }
    true
}

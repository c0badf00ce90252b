ghost use Rattle.std.specs.Prelude.{◌≡◌, length, slice_index, IfOk};
ghost use Rattle.mc_words.specs.model_device.specs.Image.{Closed, look};
ghost use Rattle.mc_words.specs.model_device.specs.Card.{means, blocks, word};
ghost use Rattle.mc_words.specs.model_device.specs.Layout.{fault, gaps, words_fault};
ghost use Rattle.mc_blocks.specs.Blocks.{used_spans, hole_spans};
ghost use Rattle.mc_blocks.specs.Faults.{fault_found, fault_named};

use crate::chain::{count_blocks, first_bad_place};
use crate::checks::{first_bad_header, first_bad_record, missing_root};
use mc_nvm::Nvm;
use mc_words::model_device::Cause;

/// The numbers of used blocks and of holes of a card, and the version of its layout, 1 or 2.
#[derive(Clone, Copy, Debug, PartialEq, Eq)]
pub struct Shape {
    pub used: u16,
    pub holes: u16,
    pub layout: u8,
}

/// Why the words of a device are no card, and the number of the word at fault.
#[derive(Clone, Copy, Debug, PartialEq, Eq)]
pub struct Unusable {
    pub cause: Cause,
    pub place: u16,
}

/// Checks all words of a device with no open journal: the root, the headers, the records, the links, each
/// over the whole image before the next. It goes by lengths, so it ends even if links form a loop. A root of
/// either layout is good.
///
/// # Errors
///
/// Returns the first fault and its place.
pub fn walk<N: Nvm>(device: &N) -> Result<Shape, Unusable>
    requires closed { look (N.state device.now).words ≡ Closed }
    ensures fault { fault_found result ≡ fault (N.state device.now).words }
    ensures used { IfOk result (λ shape. shape.used ≡ length (means (N.state device.now).words).apps) }
    ensures holes { IfOk result (λ shape. shape.holes ≡ length (gaps (means (N.state device.now).words))) }
    ensures layout { IfOk result (λ shape. shape.layout ≡ (means (N.state device.now).words).layout) }
{
    let _size = device.len();
    match first_fault(device) {
        Some(unusable) => Err(unusable),
        None => Ok(read_shape(device)),
    }
}

// The first fault.
fn first_fault<N: Nvm>(device: &N) -> Option<Unusable>
    ensures { fault_named result ≡ words_fault (N.state device.now).words }
{
    if let Some(place) = missing_root(device) {
        return Some(Unusable {
            cause: Cause::NoRoot,
            place,
        });
    }
    if let Some(place) = first_bad_header(device) {
        return Some(Unusable {
            cause: Cause::BadBlock,
            place,
        });
    }
    if let Some(place) = first_bad_record(device) {
        return Some(Unusable {
            cause: Cause::BadRecord,
            place,
        });
    }
    if let Some(place) = first_bad_place(device) {
        return Some(Unusable {
            cause: Cause::BadChain,
            place,
        });
    }
    None
}

// The numbers of blocks and the layout, read by lengths.
fn read_shape<N: Nvm>(device: &N) -> Shape
    ensures used { result.used ≡ length (used_spans (blocks (N.state device.now).words)) }
    ensures holes { result.holes ≡ length (hole_spans (blocks (N.state device.now).words)) }
    ensures layout { result.layout ≡ slice_index (word (N.state device.now).words 0) 3 }
{
    let _size = device.len();
    let (used, holes) = count_blocks(device);
    Shape {
        used,
        holes,
        layout: device.read(0)[3],
    }
}

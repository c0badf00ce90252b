ghost use Rattle.std.specs.Prelude.{◌≡◌, ◌≤◌, length, IfSome, MatchResult};
ghost use Rattle.mc_words.specs.model_device.specs.Image.{within, look_by_targets, pairs, number, is_count, is_open, look_j};
ghost use Rattle.mc_gate.specs.Layouts.{journal_of};
ghost use Rattle.mc_gate.specs.Look.{look_of, target_list, HasCount};

use crate::journals::Journal;
use crate::layouts::{HEAD, Layout};
use arrayvec::ArrayVec;
use mc_nvm::Nvm;
use mc_words::{Word, number_of};

/// The pairs of a journal, each a target and its word.
pub type Pairs = ArrayVec<(u16, Word), 64>;

/// The targets of a journal, in its order.
pub type Targets = ArrayVec<u16, 64>;

/// What a look at a journal finds: its gate is not open, a word of it is bad at this place, or pairs are pending.
#[derive(Drop)]
pub enum Found {
    Closed,
    Bad(u16),
    Pending(Pairs),
}

/// Returns what the journal `J` of a device holds, by its own gate alone.
pub fn look<J: Journal, N: Nvm>(device: &N) -> Found
    ensures found { look_of (journal_of J.LAYOUT) result ≡ look_j (journal_of J.LAYOUT) (N.state device.now).words }
{
    match pair_count(device, J::LAYOUT) {
        Ok(count) => aim(device, J::LAYOUT, J::read_targets(device, count)),
        Err(found) => found,
    }
}

/// Returns whether the gate of a layout is open: only the word that opens it does.
pub fn is_gate_open<N: Nvm>(device: &N, layout: Layout) -> bool
    ensures open { result ≡ is_open (journal_of layout) (N.state device.now).words }
    ensures low { 256 ≤ length (N.state device.now).words }
{
    let _size = device.len();
    device.read(layout.gate()) == layout.opening()
}

// Returns the number of pairs of an open journal with a good head; else what is found of the journal.
fn pair_count<N: Nvm>(device: &N, layout: Layout) -> Result<usize, Found>
    ensures count { MatchResult result (λ count. HasCount (journal_of layout) (N.state device.now).words count)
        (λ found. look_of (journal_of layout) found ≡ look_j (journal_of layout) (N.state device.now).words) }
    ensures low { 256 ≤ length (N.state device.now).words }
{
    if !is_gate_open(device, layout) {
        return Err(Found::Closed);
    }
    match head_count(device.read(HEAD)) {
        Some(count) => Ok(count),
        None => Err(Found::Bad(HEAD as u16)),
    }
}

// Returns the count of a head, or `None` if the head does not hold 1 to 64.
fn head_count(head: Word) -> Option<usize>
    ensures count { result ≡ number is_count head }
    ensures few { IfSome result (λ count. count ≤ 64) }
{
    let [a, b, c, d, e, f, high, low] = head;
    if [a, b, c, d, e, f] != [0; 6] {
        return None;
    }
    let count = number_of(high, low) as usize;
    if count >= 1 && count <= 64 {
        Some(count)
    } else {
        None
    }
}

// Returns what is found of an open journal by its targets: their pairs, or the place of the first bad target word.
fn aim<N: Nvm>(device: &N, layout: Layout, targets: Result<Targets, u16>) -> Found
    ensures { look_of (journal_of layout) result
        ≡ look_by_targets (journal_of layout) (N.state device.now).words (target_list targets) }
{
    match targets {
        Ok(targets) => Found::Pending(read_pairs(device, layout, targets.as_slice())),
        Err(place) => Found::Bad(place),
    }
}

// Reads the value of each target, at most 64.
fn read_pairs<N: Nvm>(device: &N, layout: Layout, targets: &[u16]) -> Pairs
    requires few { length targets.now ≤ 64 }
    ensures { result.items ≡ pairs (journal_of layout) (N.state device.now).words 0 targets.now }
{
    let _size = device.len();
    let mut list = ArrayVec::new();
    for (i, target) in targets.iter().enumerate() {
        list.push((*target, device.read(layout.place_of_value(i))));
    }
    list
}

/// Returns whether a word may be a target on a device of `size` words: word 0, or a word of the heap.
pub fn is_within(target: u16, size: u32) -> bool
    ensures { result ≡ within size target }
{
    target == 0 || (target >= 131 && (target as u32) < size)
}

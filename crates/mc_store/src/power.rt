// A power-up: the journal that is open is replayed, the words are checked, and a card of layout 1 is migrated.
ghost use Rattle.std.specs.Prelude.{◌≡◌, ◌≤◌, ◌==◌, [], ◌∷◌, None, length, slice_set, cond, true, false, IfOk, IfErr};
ghost use Rattle.mc_words.specs.model_device.specs.Orders.{answer_of};
ghost use Rattle.mc_words.specs.model_device.specs.Device.{Makes, IsImage};
ghost use Rattle.mc_words.specs.model_device.specs.Image.{One, Closed, look, look_j, is_open};
ghost use Rattle.mc_words.specs.model_device.specs.Stopped.{writes, owed_writes, outcome_answer, RecoverEnds};
ghost use Rattle.mc_words.specs.model_device.specs.Card.{means, word};
ghost use Rattle.mc_words.specs.model_device.specs.Layout.{fault};
ghost use Rattle.mc_gate.specs.Layouts.{journal_of};
ghost use Rattle.mc_gate.specs.Recovery.{outcome_of};
ghost use Rattle.mc_store.specs.Store.{settled_words};
ghost use Rattle.mc_store.specs.Power.{new_root, base_of_words, migration_writes, power_writes, power_answer, PowersUp, PowerFollows, RecoverFollows, FinishFollows, recovery_end, preparation_end};

use mc_blocks::{Cause, Shape, Unusable, walk};
use mc_gate::{Layout, Recover, is_gate_open};
use mc_nvm::Nvm;
use mc_words::{Stop, Word};

/// The byte of the root that holds the version of the layout.
const VERSION: usize = 3;

/// Why a power-up returns no store: a write of it stopped, or the words are no card.
#[derive(Clone, Copy, Debug, PartialEq, Eq)]
pub enum Up {
    Stop(Stop),
    Unusable(Unusable),
}

/// A device that holds a card of layout 2: the number of writes of the power-up, and the number of applications.
#[derive(Clone, Copy, Debug, PartialEq, Eq)]
pub struct Ready {
    pub writes: u16,
    pub count: u16,
}

/// Makes the writes of recovery, checks the words, and migrates a card of layout 1. Returns the numbers of writes and
/// of applications.
///
/// # Errors
///
/// Returns `Up::Stop` if a write stopped, and `Up::Unusable` with the first fault and its place if the words are no
/// card.
pub fn prepare<N: Nvm>(device: &mut N) -> Result<Ready, Up>
    requires power { (N.state device.old).on ≡ true }
    ensures makes { Makes N.wrote device.old (power_writes (N.state device.old).words)
        (power_answer (preparation_end result)) device.new }
    ensures ends { PowersUp (N.state device.old) (preparation_end result) (N.state device.new) }
    ensures keeps_device { N.same device.old device.new }
{
    let _size = device.len();
    recover_and_finish(device)
}

// Does the work of `prepare`; its contract is by the list of writes.
fn recover_and_finish<N: Nvm>(device: &mut N) -> Result<Ready, Up>
    requires power { (N.state device.old).on ≡ true }
    ensures makes { Makes N.wrote device.old (power_writes (N.state device.old).words)
        (power_answer (preparation_end result)) device.new }
    ensures follows { PowerFollows (N.state device.old).words (preparation_end result) }
    ensures keeps_device { N.same device.old device.new }
{
    match recover(device) {
        Ok(owed) => finish(device, owed),
        Err(up) => Err(up),
    }
}

// Replays the journal that is open, if one is, and returns the number of writes. The gate of layout 2 is looked at
// first.
fn recover<N: Nvm>(device: &mut N) -> Result<u16, Up>
    requires power { (N.state device.old).on ≡ true }
    ensures makes { Makes N.wrote device.old (owed_writes (look (N.state device.old).words))
        (power_answer (recovery_end result)) device.new }
    ensures follows { RecoverFollows (N.state device.old).words (recovery_end result) }
    ensures words { IfOk result (λ n. (N.state device.new).words ≡ settled_words (N.state device.old).words) }
    ensures closed { IfOk result (λ n. look (N.state device.new).words ≡ Closed) }
    ensures on { IfOk result (λ n. (N.state device.new).on ≡ true) }
    ensures few { IfOk result (λ n. n ≤ 65) }
    ensures low { 256 ≤ length (N.state device.old).words }
    ensures keeps_device { N.same device.old device.new }
{
    let _size = device.len();
    replay_open(device)
}

// Does the work of `recover`; its contract is by the list of writes.
fn replay_open<N: Nvm>(device: &mut N) -> Result<u16, Up>
    requires power { (N.state device.old).on ≡ true }
    ensures makes { Makes N.wrote device.old (owed_writes (look (N.state device.old).words))
        (power_answer (recovery_end result)) device.new }
    ensures follows { RecoverFollows (N.state device.old).words (recovery_end result) }
    ensures few { IfOk result (λ n. n ≤ 65) }
    ensures keeps_device { N.same device.old device.new }
{
    let packed = is_gate_open(device, Layout::V2);
    let plain = is_gate_open(device, Layout::V1);
    match (packed, plain) {
        (true, true) => Err(bad_journal(Layout::V1.gate() as u16)),
        (true, false) => replay_alone(device, Layout::V2),
        (false, true) => replay_alone(device, Layout::V1),
        (false, false) => Ok(0),
    }
}

// Replays a journal, which alone is open.
fn replay_alone<N: Nvm>(device: &mut N, layout: Layout) -> Result<u16, Up>
    requires power { (N.state device.old).on ≡ true }
    requires low { 256 ≤ length (N.state device.old).words }
    requires alone { look (N.state device.old).words ≡ look_j (journal_of layout) (N.state device.old).words }
    ensures makes { Makes N.wrote device.old (owed_writes (look (N.state device.old).words))
        (power_answer (recovery_end result)) device.new }
    ensures follows { RecoverFollows (N.state device.old).words (recovery_end result) }
    ensures few { IfOk result (λ n. n ≤ 65) }
    ensures keeps_device { N.same device.old device.new }
{
    match replay(device, layout) {
        Ok(writes) => Ok(writes),
        Err(Recover::Stop(stop)) => Err(Up::Stop(stop)),
        Err(Recover::BadJournal(place)) => Err(bad_journal(place)),
    }
}

// Replays a journal by the recovery of its layout.
fn replay<N: Nvm>(device: &mut N, layout: Layout) -> Result<u16, Recover>
    requires power { (N.state device.old).on ≡ true }
    ensures makes { Makes N.wrote device.old (owed_writes (look_j (journal_of layout) (N.state device.old).words))
        (outcome_answer (outcome_of result)) device.new }
    ensures ends { RecoverEnds (journal_of layout) (look_j (journal_of layout) (N.state device.old).words)
        (N.state device.old) (outcome_of result) (N.state device.new) }
    ensures keeps_device { N.same device.old device.new }
{
    match layout {
        Layout::V1 => mc_journal::recover(device),
        Layout::V2 => mc_packed::recover(device),
    }
}

// Returns the refusal of a journal that is bad at a place.
fn bad_journal(place: u16) -> Up
    ensures { result ≡ Up.Unusable (record { cause = Cause.BadJournal; place = place }) }
{
    Up::Unusable(Unusable {
        cause: Cause::BadJournal,
        place,
    })
}

// Checks words with no open journal, and migrates a card of layout 1, after `owed` writes of recovery.
fn finish<N: Nvm>(device: &mut N, owed: u16) -> Result<Ready, Up>
    requires power { (N.state device.old).on ≡ true }
    requires closed { look (N.state device.old).words ≡ Closed }
    requires few { owed ≤ 65 }
    ensures makes { Makes N.wrote device.old (migration_writes (base_of_words (N.state device.old).words)
        (N.state device.old).words)
        (power_answer (preparation_end result)) device.new }
    ensures follows { FinishFollows (N.state device.old).words owed (preparation_end result) }
    ensures keeps_device { N.same device.old device.new }
{
    match walk(device) {
        Ok(shape) => upgrade(device, owed, &shape),
        Err(unusable) => Err(Up::Unusable(unusable)),
    }
}

// Migrates a card of layout 1, and leaves one of layout 2 as it is.
fn upgrade<N: Nvm>(device: &mut N, owed: u16, shape: &Shape) -> Result<Ready, Up>
    requires power { (N.state device.old).on ≡ true }
    requires closed { look (N.state device.old).words ≡ Closed }
    requires card { fault (N.state device.old).words ≡ None }
    requires used { shape.now.used ≡ length (means (N.state device.old).words).apps }
    requires layout { shape.now.layout ≡ (means (N.state device.old).words).layout }
    requires few { owed ≤ 65 }
    ensures makes { Makes N.wrote device.old (migration_writes (base_of_words (N.state device.old).words)
        (N.state device.old).words)
        (power_answer (preparation_end result)) device.new }
    ensures follows { FinishFollows (N.state device.old).words owed (preparation_end result) }
    ensures keeps_device { N.same device.old device.new }
{
    match migrate(device, shape.layout) {
        Ok(moved) => Ok(Ready {
            writes: owed + moved,
            count: shape.used,
        }),
        Err(stop) => Err(Up::Stop(stop)),
    }
}

// Writes version 2 into a root of layout 1 by one atomic write of the journal of layout 1, and returns the number of
// device writes.
fn migrate<N: Nvm>(device: &mut N, layout: u8) -> Result<u16, Stop>
    requires power { (N.state device.old).on ≡ true }
    requires gate { is_open One (N.state device.old).words ≡ false }
    ensures makes { Makes N.wrote device.old
        (cond (layout == 1) (writes One (new_root (N.state device.old).words)) []) (answer_of result) device.new }
    ensures count { IfOk result (λ n. n ≡ cond (layout == 1) 6 0) }
    ensures keeps_device { N.same device.old device.new }
{
    if layout != 1 {
        return Ok(0);
    }
    let root = upgraded_root(device);
    write_root(device, root)
}

// Returns the root with version 2.
fn upgraded_root<N: Nvm>(device: &N) -> Word
    ensures { result ≡ slice_set (word (N.state device.now).words 0) 3 2 }
{
    let _size = device.len();
    let mut root = device.read(0);
    root[VERSION] = 2;
    root
}

// Writes the root by an atomic write.
fn write_root<N: Nvm>(device: &mut N, root: Word) -> Result<u16, Stop>
    requires power { (N.state device.old).on ≡ true }
    requires gate { is_open One (N.state device.old).words ≡ false }
    ensures makes { Makes N.wrote device.old (writes One ((0, root) ∷ [])) (answer_of result) device.new }
    ensures count { IfOk result (λ n. n ≡ 6) }
    ensures keeps_device { N.same device.old device.new }
{
    match mc_journal::write_words(device, &[(0, root)]) {
        Ok(()) => Ok(6),
        Err(stop) => Err(stop),
    }
}

// A device in memory that goes back to the words that it once had.
ghost use Rattle.std.specs.Prelude.{◌≡◌, ◌≢◌, ◌⊎◌, ◌++◌, ℕ, ◌<◌, eqb, false, [], length, map, slice_index_or, slice_set};
ghost use Rattle.std.specs.Prelude.{None, IfOk, OnErr, OnOk};
ghost use Rattle.std.specs.List.{AllByRecursion, IsDistinct};
ghost use Rattle.mc_words.specs.model_device.specs.Bytes.{zeros};
ghost use Rattle.mc_words.specs.model_device.specs.Image.{image_with};
ghost use Rattle.mc_words.specs.model_device.specs.Device.{device_words, blank_words};
ghost use Rattle.lab_branch.specs.Branches.{IsBranch, IsDifference, IsListed, blank_branch, HasWords};
ghost use Rattle.lab_branch.specs.Branches.{differences_at, has_root_word, unless_root};

use crate::growth::push;
use crate::places::Places;
use mc_nvm::{Bench, DEVICE_WORDS, Nvm, SimNvm};
use mc_words::{NoMemory, Stop, Word};
use std::alloc::Global;
use std::marker::Model;

/// A device in memory with a root, words to which it goes back at the cost of those that changed: it keeps a
/// list of the places that were set since.
#[derive(Drop)]
pub struct BranchNvm {
    device: SimNvm,
    root: Vec<Word>,
    changed: Places,
}

impl Model for BranchNvm {
    ghost use Rattle.lab_branch.specs.Branches.{BranchState, IsBranch};

    ghost Value = { BranchState };

    ghost view = { λ a. record { device = a.device; root = a.root.items } };

    ghost invariant = { λ a. IsBranch a.changed a.device.words a.root.items };
}

// Returns blank words.
fn blank(alloc: Global, count: usize) -> Result<Vec<Word>, NoMemory>
    ensures { IfOk result (λ words. words.items ≡ blank_words count) }
{
    Ok(vec![in alloc; [0xFF; 8]; count]?)
}

// Copies the words of a device at some places, if it has them.
fn copy_at(device: &SimNvm, words: &mut [Word], places: &[u16])
    requires { length words.old ≡ length device.now.words }
    ensures len { length words.new ≡ length words.old }
    ensures words { (i : ℕ) → i < length device.now.words
        → IsListed i places.now ⊎ (slice_index_or device.now.words i [] ≡ slice_index_or words.old i [])
        → slice_index_or device.now.words i [] ≡ slice_index_or words.new i [] }
{
    let count = device.len();
    for place in places {
        if (*place as u32) < count {
            let word = device.read(*place as u32);
            words[*place as usize] = word;
        }
    }
}

// Copies the words of a device to words that differ from them at some places alone.
fn copy_changed(device: &SimNvm, words: &mut [Word], changed: &Places)
    requires { IsBranch changed.now device.now.words words.old }
    ensures { words.new ≡ device.now.words }
{
    copy_at(device, words, changed.list());
}

// Sets the words of a device at some places, if it has them.
fn put_at(device: &mut SimNvm, words: &[Word], places: &[u16])
    requires { length words.now ≡ length device.old.words }
    ensures len { length device.new.words ≡ length device.old.words }
    ensures words { (i : ℕ) → i < length device.old.words
        → IsListed i places.now ⊎ (slice_index_or device.old.words i [] ≡ slice_index_or words.now i [])
        → slice_index_or device.new.words i [] ≡ slice_index_or words.now i [] }
    ensures cut { device.new.cut ≡ device.old.cut }
    ensures worn { device.new.worn ≡ device.old.worn }
{
    let count = device.len();
    for place in places {
        if (*place as u32) < count {
            let word = words[*place as usize];
            device.poke(*place as u32, word);
        }
    }
}

impl BranchNvm {
    /// Returns a blank device of [`DEVICE_WORDS`] words, which are its root.
    ///
    /// # Errors
    ///
    /// Returns `NoMemory` if it is out of memory.
    pub fn new(alloc: Global) -> Result<BranchNvm, NoMemory>
        ensures { IfOk result (λ b. b ≡ blank_branch device_words) }
    {
        let device = SimNvm::new(alloc, DEVICE_WORDS)?;
        let count = DEVICE_WORDS as usize;
        Ok(BranchNvm {
            device,
            root: blank(alloc, count)?,
            changed: Places::new(alloc)?,
        })
    }

    /// Makes the words of the device its root, at the cost of those that changed.
    pub fn take_root(&mut self)
        ensures { self.new ≡ record self.old { root = self.old.device.words } }
    {
        copy_changed(&self.device, self.root.as_mut_slice(), &self.changed);
        self.changed.clear();
    }

    /// Goes back to the root, without a fuse.
    pub fn return_to_root(&mut self)
        ensures words { self.new.device.words ≡ self.old.root }
        ensures root { self.new.root ≡ self.old.root }
        ensures cut { self.new.device.cut ≡ None }
        ensures worn { self.new.device.worn ≡ None }
    {
        self.device.disarm();
        put_at(&mut self.device, self.root.as_slice(), self.changed.list());
        self.changed.clear();
    }

    /// Sets a word, if the device has the place.
    pub fn set(&mut self, place: u16, word: Word)
        ensures { HasWords self.old (slice_set self.old.device.words place word) self.new }
    {
        if (place as u32) < self.device.len() {
            self.device.poke(place as u32, word);
            self.changed.add(place);
        }
    }

    /// Sets some words, each in its place, in order.
    pub fn put_words(&mut self, words: &[(u16, Word)])
        ensures { HasWords self.old (image_with self.old.device.words words.now) self.new }
    {
        for (place, word) in words {
            self.set(*place, *word);
        }
    }

    /// Returns the word at a place, or eight bytes 00 if the device has no such place.
    pub fn word(&self, place: u32) -> Word
        ensures { result ≡ slice_index_or self.now.device.words place (zeros 8) }
    {
        if place < self.device.len() {
            self.device.read(place)
        } else {
            [0; 8]
        }
    }

    /// Returns the words that differ from the root, each once with its place: laid over the root they are those of the
    /// device.
    ///
    /// # Errors
    ///
    /// Returns `NoMemory` if it is out of memory. It takes none if no word differs.
    pub fn differences(&self, alloc: Global) -> Result<Vec<(u16, Word)>, NoMemory>
        ensures laid { IfOk result (λ d. image_with self.now.root d.items ≡ self.now.device.words) }
        ensures differ { IfOk result (λ d. AllByRecursion (IsDifference self.now.root) d.items) }
        ensures distinct { IfOk result (λ d. IsDistinct eqb (map (λ e. e.0) d.items)) }
        ensures memory { OnErr result (self.now.device.words ≢ self.now.root) }
    {
        differences_at(
            alloc,
            &self.device,
            self.root.as_slice(),
            self.changed.list(),
        )
    }
}

// Adds the word of a device at a place to the differences, if it is another one than the root has there.
fn add_difference(
    differences: &mut Vec<(u16, Word)>,
    device: &SimNvm,
    root: &[Word],
    place: u16,
) -> Result<(), NoMemory>
    requires { length root.now ≡ length device.now.words }
    ensures added { OnOk result (differences.new.items ≡ differences.old.items
        ++ unless_root (has_root_word device.now.words root.now place)
        (place, slice_index_or device.now.words place []) []) }
    ensures memory { OnErr result (has_root_word device.now.words root.now place ≡ false) }
{
    if (place as u32) >= device.len() {
        return Ok(());
    }
    let word = device.read(place as u32);
    if root[place as usize] == word {
        return Ok(());
    }
    push(differences, (place, word))
}

// Returns the words of a device at some places that differ from a root, each with its place.
fn differences_at(
    alloc: Global,
    device: &SimNvm,
    root: &[Word],
    places: &[u16],
) -> Result<Vec<(u16, Word)>, NoMemory>
    requires { length root.now ≡ length device.now.words }
    ensures differ { IfOk result (λ d. d.items ≡ differences_at device.now.words root.now places.now) }
    ensures memory { OnErr result (device.now.words ≢ root.now) }
{
    let mut differences = Vec::new(alloc);
    for place in places {
        add_difference(&mut differences, device, root, *place)?;
    }
    Ok(differences)
}

impl Nvm for BranchNvm {
    ghost use Rattle.std.specs.Prelude.{◌≡◌, refl};
    ghost use Rattle.std.proofs.Common.{◌∙◌};
    ghost use Rattle.mc_nvm.specs.Sim.{sim_obeys};
    ghost use Rattle.lab_branch.specs.Branches.{branch_state, BranchWrote, HasRootOf};

    ghost state = { branch_state };

    ghost wrote = { BranchWrote };

    ghost same = { HasRootOf };

    ghost obeys = { λ d at w a e on r. sim_obeys d.device at w a e.device on r.wrote };

    ghost fits = { λ d at w a e r. ((r.wrote).place, (r.wrote).size) };

    ghost keeps = { λ d at w a e r. r.root };

    ghost itself = { λ d. refl };

    ghost onward = { λ d e f r s. s ∙ r };

    fn len(&self) -> u32 {
        self.device.len()
    }

    fn read(&self, at: u32) -> Word {
        self.device.read(at)
    }

    fn write(&mut self, at: u32, word: Word) -> Result<(), Stop> {
        let _size = self.device.len();
        self.changed.add(at as u16);
        self.device.write(at, word)
    }
}

impl Bench for BranchNvm {
    ghost use Rattle.mc_nvm.specs.Sim.{sim_burns};
    ghost use Rattle.lab_branch.specs.Branches.{branch_bench};

    ghost bench = { branch_bench };

    ghost burns = { λ d at w a e on r. sim_burns d.device at w a e.device on r.wrote };

    fn arm(&mut self, k: u32, fill: Word) {
        self.device.arm(k, fill);
    }

    fn disarm(&mut self) {
        self.device.disarm();
    }

    fn power(&mut self) {
        self.device.power();
    }

    fn poke(&mut self, at: u32, word: Word) {
        let _size = self.device.len();
        self.changed.add(at as u16);
        self.device.poke(at, word);
    }

    fn wear(&mut self, k: u32, fill: Word) {
        self.device.wear(k, fill);
    }
}

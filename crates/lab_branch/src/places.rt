// Places of a device.
ghost use Rattle.std.specs.Prelude.{◌≡◌, ◌⊎◌, ◌++◌, ◌∷◌, ◌<◌, ◌≤◌, ℕ, true, false, eqb, [], IfOk, get_or, length};
ghost use Rattle.std.specs.Prelude.{replicate, slice_set, vec_len, vec_capacity};
ghost use Rattle.std.specs.List.{IsDistinct};
ghost use Rattle.mc_words.specs.model_device.specs.Device.{device_words};
ghost use Rattle.lab_branch.specs.Branches.{IsListed, MarksAreListed};

use mc_nvm::DEVICE_WORDS;
use mc_words::NoMemory;
use std::alloc::Global;
use std::marker::Model;

/// Some places of a device of [`DEVICE_WORDS`] words, each once, in the order in which they came.
#[derive(Drop)]
pub(crate) struct Places {
    list: Vec<u16>,
    is_listed: Vec<bool>,
}

impl Model for Places {
    ghost use Rattle.std.specs.Prelude.{ℕ, List, vec_capacity};
    ghost use Rattle.lab_branch.specs.Branches.{HasRoom};

    ghost Value = { List ℕ };

    ghost view = { λ p. p.list.items };

    ghost invariant = { λ p. HasRoom p.is_listed.items p.list.items (vec_capacity p.list) };
}

// Takes the marks of the listed places away.
fn unmark(marks: &mut [bool], list: &[u16])
    requires { MarksAreListed marks.old list.now }
    ensures none { MarksAreListed marks.new [] }
    ensures len { length marks.new ≡ length marks.old }
{
    for place in list {
        if (*place as usize) < marks.len() {
            marks[*place as usize] = false;
        }
    }
}

// Returns whether a place is marked.
fn is_marked(marks: &[bool], place: u16) -> bool
    ensures { result ≡ get_or marks.now place false }
{
    match marks.get(place as usize) {
        Some(mark) => *mark,
        None => false,
    }
}

// Marks a place, if it has a mark.
fn mark(marks: &mut Vec<bool>, place: u16)
    ensures { marks.new.items ≡ slice_set marks.old.items place true }
{
    if (place as usize) < marks.len() {
        marks[place as usize] = true;
    }
}

// Appends a place to a list that has room for it.
fn append(list: &mut Vec<u16>, place: u16)
    requires { vec_len list.old < vec_capacity list.old }
    ensures items { list.new.items ≡ list.old.items ++ place ∷ [] }
    ensures room { vec_capacity list.old ≤ vec_capacity list.new }
{
    list.push(place).unwrap();
}

// Returns marks, none of which is set.
fn no_marks(alloc: Global, count: usize) -> Result<Vec<bool>, NoMemory>
    ensures { IfOk result (λ marks. marks.items ≡ replicate count false) }
{
    Ok(vec![in alloc; false; count]?)
}

impl Places {
    /// Returns no place, with room for each of a device.
    ///
    /// # Errors
    ///
    /// Returns `NoMemory` if it is out of memory.
    pub(crate) fn new(alloc: Global) -> Result<Places, NoMemory>
        ensures { IfOk result (λ p. p ≡ []) }
    {
        let count = DEVICE_WORDS as usize;
        Ok(Places {
            list: Vec::with_capacity(alloc, count)?,
            is_listed: no_marks(alloc, count)?,
        })
    }

    /// Adds a place, unless it is there.
    pub(crate) fn add(&mut self, place: u16)
        requires { place < device_words }
        ensures added { IsListed place self.new }
        ensures stays { (q : ℕ) → IsListed q self.old → IsListed q self.new }
        ensures no_more { (q : ℕ) → IsListed q self.new → IsListed q self.old ⊎ (q ≡ place) }
    {
        if is_marked(self.is_listed.as_slice(), place) {
            return;
        }
        append(&mut self.list, place);
        mark(&mut self.is_listed, place);
    }

    /// Takes all places out.
    pub(crate) fn clear(&mut self)
        ensures { self.new ≡ [] }
    {
        unmark(self.is_listed.as_mut_slice(), self.list.as_slice());
        self.list.clear();
    }

    /// Returns the places.
    pub(crate) fn list(&self) -> &[u16]
        ensures list { result.now ≡ self.now }
        ensures distinct { IsDistinct eqb result.now }
    {
        self.list.as_slice()
    }
}

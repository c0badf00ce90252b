ghost use Rattle.std.specs.Prelude.{◌≡◌, ◌≢◌, ◌↔◌, ◌<◌, ◌≤◌, ℕ, List, [], ◌∷◌, true, false, length, nat_le, position, slice_index_or, slice_set, Option, Some, None, OnOk, OnErr, IsErr, IfSome, insert};
ghost use Rattle.arrayvec.specs.ArrayVec.{array_vec_len};
ghost use Rattle.model_device.specs.Pieces.{pending_at, put_word, ArePending};
ghost use Rattle.mc_trans.specs.Place.{place};

use arrayvec::ArrayVec;
use mc_words::Word;
use std::marker::Model;

/// The error of [`Pending::put`]: 64 other words are pending.
#[derive(Clone, Copy, Debug, PartialEq, Eq)]
pub struct Full;

/// At most 64 words of a static segment that are written and not yet committed, each with its number: word n
/// has the bytes 8n to 8n + 7 of the segment.
#[derive(Debug, Drop)]
pub struct Pending {
    words: ArrayVec<(u16, Word), 64>,
}

impl Model for Pending {
    ghost use Rattle.std.specs.Prelude.{ℕ, List};
    ghost use Rattle.model_device.specs.Pieces.{ArePending};

    ghost Value = { List (ℕ × List ℕ) };

    ghost view = { λ p. p.words.items };

    ghost invariant = { λ p. ArePending p.words.items };
}

impl Pending {
    /// Returns the empty set of pending words.
    pub fn new() -> Self
        ensures { result ≡ [] }
    {
        Pending {
            words: ArrayVec::new(),
        }
    }

    /// Makes the word with number `at` pending, in place of the one that is pending under that number.
    ///
    /// # Errors
    ///
    /// Returns `Full`, and changes nothing, if 64 other words are pending.
    #[tactic(auto, using(crate::proofs::Words::put_there, crate::proofs::Words::put_between, crate::proofs::Words::not_pending, crate::proofs::Words::is_pending))]
    pub fn put(&mut self, at: u16, word: Word) -> Result<(), Full>
        ensures ok { OnOk result (self.new ≡ put_word at word self.old) }
        ensures full { IsErr result ↔ ((length self.old ≡ 64) × (pending_at self.old at ≡ None)) }
        ensures unchanged { OnErr result (self.new ≡ self.old) }
    {
        let place = place_of(self.words.as_slice(), at);
        if is_at(self.words.as_slice(), place, at) {
            replace(&mut self.words, place, (at, word));
            return Ok(());
        }
        if self.words.is_full() {
            return Err(Full);
        }
        add(&mut self.words, place, (at, word));
        Ok(())
    }

    /// Returns the word that is pending under the number `at`, or `None` if there is none.
    #[tactic(auto, using(crate::proofs::Words::not_pending, crate::proofs::Words::is_pending))]
    pub fn get(&self, at: u16) -> Option<Word>
        ensures { result ≡ pending_at self.now at }
    {
        let words = self.words.as_slice();
        let place = place_of(words, at);
        if is_at(words, place, at) {
            return Some(words[place].1);
        }
        None
    }

    /// Returns the pending words with their numbers, in ascending order.
    pub fn list(&self) -> &[(u16, Word)]
        ensures words { result.now ≡ self.now }
        ensures bound { length result.now ≤ 64 }
        ensures pending { ArePending result.now }
    {
        self.words.as_slice()
    }

    /// Drops all words.
    pub fn clear(&mut self)
        ensures { self.new ≡ [] }
    {
        self.words.clear();
    }
}

// The index of the first word whose number is not below `at`, or the number of words if there is none. Words
// mostly come in ascending order, so the last one is compared first.
#[tactic(auto, using(crate::proofs::Words::place_some, crate::proofs::Words::place_none))]
fn place_of(words: &[(u16, Word)], at: u16) -> usize
    requires { ArePending words.now }
    ensures value { result ≡ place at words.now }
    ensures bound { result ≤ length words.now }
{
    if are_below(words, at) {
        return words.len();
    }
    match first_from(words, at) {
        Some(place) => place,
        None => words.len(),
    }
}

// Whether the last word, and so each, has a number below `at`.
#[tactic(auto, using(crate::proofs::Words::place_behind))]
fn are_below(words: &[(u16, Word)], at: u16) -> bool
    requires { ArePending words.now }
    ensures { result ≡ true → length words.now ≡ place at words.now }
{
    !words.is_empty() && words[words.len() - 1].0 < at
}

// The index of the first word whose number is not below `at`, if there is one.
fn first_from(words: &[(u16, Word)], at: u16) -> Option<usize>
    ensures value { result ≡ position (λ w. nat_le at w.0) words.now }
    ensures bound { IfSome result (λ i. i < length words.now) }
{
    words.iter().position(|word| word.0 >= at)
}

// Whether the word at index `place` has the number `at`.
fn is_at(words: &[(u16, Word)], place: usize, at: u16) -> bool
    ensures found { result ≡ true → (place < length words.now) × ((slice_index_or words.now place (0, [])).0 ≡ at) }
    ensures other { result ≡ false → place < length words.now → (slice_index_or words.now place (0, [])).0 ≢ at }
{
    place < words.len() && words[place].0 == at
}

// Replaces the word at index `place`.
fn replace(words: &mut ArrayVec<(u16, Word), 64>, place: usize, entry: (u16, Word))
    requires { place < array_vec_len words.old }
    ensures items { words.new.items ≡ slice_set words.old.items place entry }
    ensures whole { length entry.1 ≡ 8 }
{
    words.as_mut_slice()[place] = entry;
}

// Inserts a word at index `place`.
fn add(words: &mut ArrayVec<(u16, Word), 64>, place: usize, entry: (u16, Word))
    requires place { place ≤ array_vec_len words.old }
    requires room { array_vec_len words.old < 64 }
    ensures items { words.new.items ≡ insert words.old.items place entry }
    ensures whole { length entry.1 ≡ 8 }
{
    words.insert(place, entry);
}

// The words that wait for a commit in a frame.
ghost use Rattle.std.specs.Prelude.{◌≡◌, ◌+◌, ◌^◌, ◌<◌, ◌≤◌, [], length, nat_le, position, IfSome, Some};
ghost use Rattle.law_steps.specs.Writes.{with_wait, with_waits};
ghost use Rattle.desk_steps.specs.Guards.{placed};

use arrayvec::ArrayVec;
use std::marker::Model;

/// Room for the words of a frame that wait: at most 64 do.
const ROOM: usize = 128;

/// The words of a frame that wait for a commit, ascending.
#[derive(Drop)]
pub struct Guard {
    words: ArrayVec<u32, 128>,
}

impl Model for Guard {
    ghost use Rattle.std.specs.Prelude.{ℕ, List};

    ghost Value = { List ℕ };

    ghost view = { λ g. g.words.items };
}

// The index of the first word that is not below a number, if there is one.
fn first_from(words: &[u32], number: u32) -> Option<usize>
    ensures value { result ≡ position (λ w. nat_le number w) words.now }
    ensures bound { IfSome result (λ i. i < length words.now) }
{
    words.iter().position(|word| *word >= number)
}

impl Guard {
    /// Returns the guard of a frame in which no word waits.
    pub fn empty() -> Guard
        ensures { result ≡ [] }
    {
        Guard {
            words: ArrayVec::new(),
        }
    }

    // A word waits for a commit, before one at an index that is not below it.
    fn keep_before(&mut self, place: usize, number: u32)
        requires place { place < length self.old }
        requires room { length self.old < 128 }
        ensures { self.new ≡ placed number self.old (Some place) }
    {
        if self.words[place] != number {
            self.words.insert(place, number);
        }
    }

    // A word waits for a commit.
    fn keep_word(&mut self, number: u32)
        ensures { self.new ≡ with_wait number self.old }
    {
        if self.words.len() >= ROOM {
            return;
        }
        match first_from(self.words.as_slice(), number) {
            Some(place) => self.keep_before(place, number),
            None => self.words.push(number),
        }
    }

    /// Some words from a first one on wait for a commit.
    pub fn keep(&mut self, first: u32, count: u32)
        requires { first + count < 2 ^ 32 }
        ensures { self.new ≡ with_waits first count self.old }
    {
        for number in first..first + count {
            self.keep_word(number);
        }
    }

    /// No word waits any more. Returns the number of words that waited.
    pub fn clear(&mut self) -> u32
        ensures empty { self.new ≡ [] }
        ensures count { result ≡ length self.old }
        ensures few { result ≤ 128 }
    {
        let count = self.words.len() as u32;
        self.words.clear();
        count
    }
}

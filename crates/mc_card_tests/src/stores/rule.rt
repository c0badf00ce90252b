// The rule of stops, written out by hand.
use mc_words::Word;

pub const ZERO: Word = [0; 8];

/// The words that open the journals of layout 1 and of layout 2.
pub const OPEN_1: Word = *b"OPEN-1--";

pub const OPEN_2: Word = *b"OPEN-2--";

/// An atomic write of `words` words, in the journal of one of the layouts.
#[derive(Clone, Copy, Debug, PartialEq, Eq, Drop)]
pub struct Atomic {
    pub words: u16,
    pub cost: u16,
    pub opens_at: u16,
    pub opening: Word,
}

impl Atomic {
    /// Returns an atomic write in the journal of layout 1.
    pub fn plain(words: u8) -> Atomic {
        let words = words as u16;
        Atomic {
            words,
            cost: 3 * words + 3,
            opens_at: 2 * words + 2,
            opening: OPEN_1,
        }
    }

    /// Returns an atomic write in the journal of layout 2.
    pub fn packed(words: u8) -> Atomic {
        let words = words as u16;
        let targets = (words + 3) / 4;
        Atomic {
            words,
            cost: targets + 2 * words + 3,
            opens_at: targets + words + 2,
            opening: OPEN_2,
        }
    }

    /// Returns whether it is durable after a stop at its device write `k`, which left `left`.
    pub fn stands(&self, k: u16, left: Word) -> bool {
        k > self.opens_at || k == self.opens_at && left == self.opening
    }

    /// Returns the number of writes that recovery then still has to make.
    pub fn owes(&self, k: u16, left: Word) -> u16 {
        let is_over = k == self.cost && left != self.opening;
        if self.stands(k, left) && !is_over {
            self.words.saturating_add(1)
        } else {
            0
        }
    }

    /// Returns the number of writes that remain of its recovery after a stop at its write `k`, which left
    /// `left`.
    pub fn remains(&self, k: u16, left: Word) -> u16 {
        if k <= self.words || left == self.opening {
            self.words.saturating_add(1)
        } else {
            0
        }
    }
}

use mc_words::Word;

pub const ZERO: Word = [0; 8];

const SHUT: Word = [b'S', b'H', b'U', b'T', b'-', b'-', b'-', b'-'];

/// The journal that is tested: that of layout 1 or that of layout 2.
#[derive(Clone, Copy, Debug, PartialEq, Eq, Drop)]
pub enum Journal {
    One,
    Two,
}

impl Journal {
    /// Returns the word that opens the gate.
    pub fn opening(self) -> Word {
        match self {
            Journal::One => [b'O', b'P', b'E', b'N', b'-', b'1', b'-', b'-'],
            Journal::Two => [b'O', b'P', b'E', b'N', b'-', b'2', b'-', b'-'],
        }
    }

    /// Returns the place of the gate.
    pub fn gate(self) -> u32 {
        match self {
            Journal::One => 1,
            Journal::Two => 130,
        }
    }

    /// Returns whether the place is one of the journal's.
    pub fn has(self, at: u32) -> bool {
        match self {
            Journal::One => at >= 1 && at <= 130,
            Journal::Two => at >= 2 && at <= 82 || at == 130,
        }
    }

    /// Returns the number of device writes of an atomic write of `w` words.
    pub fn cost(self, w: u8) -> u16 {
        match self {
            Journal::One => 3 * w as u16 + 3,
            Journal::Two => (w as u16 + 3) / 4 + 2 * w as u16 + 3,
        }
    }

    /// Returns the number of the device write that opens the gate.
    pub fn opens_at(self, w: u8) -> u16 {
        match self {
            Journal::One => 2 * w as u16 + 2,
            Journal::Two => (w as u16 + 3) / 4 + w as u16 + 2,
        }
    }

    /// Returns whether an atomic write is durable that was stopped at its device write `k`, which left
    /// `left`.
    pub fn stands(self, w: u8, k: u16, left: Word) -> bool {
        k > self.opens_at(w) || k == self.opens_at(w) && left == self.opening()
    }

    /// Returns the number of writes that recovery then still has to make.
    pub fn owes(self, w: u8, k: u16, left: Word) -> u16 {
        let is_over = k == self.cost(w) && left != self.opening();
        if self.stands(w, k, left) && !is_over {
            w as u16 + 1
        } else {
            0
        }
    }

    /// Returns the number of writes that remain of a recovery of `w` words that was stopped at its write `k`,
    /// which left `left`.
    pub fn remains(self, w: u8, k: u16, left: Word) -> u16 {
        if k <= w as u16 || left == self.opening() {
            w as u16 + 1
        } else {
            0
        }
    }
}

/// Returns whether this stop of a recovery is tested together with every stop of the write: of 64 words, each
/// thirteenth.
pub fn is_tried(w: u8, k: u16) -> bool {
    w < 64 || k % 13 == 0
}

/// Returns the target of pair `i`: word 0, then every other word of the heap up to the last of 256.
pub fn target(i: u8) -> u16 {
    if i == 0 { 0 } else { 129 + 2 * i as u16 }
}

/// Returns the value of pair `i`.
pub fn value(i: u8) -> Word {
    [9, 0, 0, 0, 0, 0, 0, i]
}

/// Returns the word that a place holds before the write.
pub fn old_word(at: u32) -> Word {
    [7, 0, 0, 0, 0, 0, (at / 256 % 256) as u8, (at % 256) as u8]
}

/// Returns the word that a place outside the journal holds after `w` words were written, or after they were
/// not.
pub fn word_after(at: u32, w: u8, stands: bool) -> Word {
    let i = if at < 131 { 0 } else { (at - 129) / 2 };
    let is_target = at == 0 || at >= 131 && at % 2 == 1;
    if stands && is_target && i < w as u32 {
        value(i as u8)
    } else {
        old_word(at)
    }
}

/// Returns the place and the word of device write `k`, counted from 1, of an atomic write of `w` words.
pub fn device_write(journal: Journal, w: u8, k: u16) -> (u32, Word) {
    let words = w as u16;
    let before_head = match journal {
        Journal::One => 2 * words,
        Journal::Two => (words + 3) / 4 + words,
    };
    if k > before_head {
        return last_write(journal, w, k - before_head);
    }
    let n = k.saturating_sub(1);
    match journal {
        Journal::One => pair_write(n),
        Journal::Two => packed_write(w, n),
    }
}

/// Returns the place and the word of write `k`, counted from 1, of a recovery of `w` words.
pub fn recovery_write(journal: Journal, w: u8, k: u16) -> (u32, Word) {
    last_write(journal, w, k.saturating_add(2))
}

// The writes from the head on: the head, the opening of the gate, the targets, the shutting of the gate.
fn last_write(journal: Journal, w: u8, k: u16) -> (u32, Word) {
    if k <= 1 {
        return (2, [0, 0, 0, 0, 0, 0, 0, w]);
    }
    if k == 2 {
        return (journal.gate(), journal.opening());
    }
    if k - 3 < w as u16 {
        let i = (k - 3) as u8;
        return (target(i) as u32, value(i));
    }
    (journal.gate(), SHUT)
}

// Layout 1: a word of the target, then one of the value, for each pair.
fn pair_write(n: u16) -> (u32, Word) {
    let i = (n / 2 % 256) as u8;
    let place = 3 + n as u32;
    if n % 2 == 0 {
        let [high, low] = target_bytes(i);
        (place, [0, 0, 0, 0, 0, 0, high, low])
    } else {
        (place, value(i))
    }
}

// Layout 2: words of four targets each, then the values.
fn packed_write(w: u8, n: u16) -> (u32, Word) {
    let target_words = (w as u16 + 3) / 4;
    if n >= target_words {
        let i = (n - target_words) % 256;
        return (19 + i as u32, value(i as u8));
    }
    let [a, b] = bytes_in(w, 4 * n as u32);
    let [c, d] = bytes_in(w, 4 * n as u32 + 1);
    let [e, f] = bytes_in(w, 4 * n as u32 + 2);
    let [g, h] = bytes_in(w, 4 * n as u32 + 3);
    (3 + n as u32, [a, b, c, d, e, f, g, h])
}

fn bytes_in(w: u8, i: u32) -> [u8; 2] {
    if i < w as u32 {
        target_bytes(i as u8)
    } else {
        [0, 0]
    }
}

fn target_bytes(i: u8) -> [u8; 2] {
    let target = target(i);
    [(target / 256) as u8, (target % 256) as u8]
}

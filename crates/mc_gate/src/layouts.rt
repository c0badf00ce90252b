ghost use Rattle.std.specs.Prelude.{◌≡◌, ◌<◌, ◌≤◌};
ghost use Rattle.mc_words.specs.model_device.specs.Image.{gate, opening};
ghost use Rattle.mc_gate.specs.Layouts.{journal_of, place_of_value};

use mc_words::Word;

/// The place of the head of a journal, which holds the number of its pairs. It is the same in both layouts.
pub const HEAD: u32 = 2;

/// The word that shuts a gate. It is the same in both layouts.
pub const SHUT: Word = *b"SHUT----";

/// The two layouts of the words of a device. Each has a journal with a gate and an opening word of its own.
#[derive(Clone, Copy, Debug, PartialEq, Eq)]
pub enum Layout {
    V1,
    V2,
}

impl Layout {
    /// Returns the place of the gate of the journal.
    pub fn gate(self) -> u32
        ensures place { result ≡ gate (journal_of self) }
        ensures inside { result ≤ 130 }
    {
        match self {
            Layout::V1 => 1,
            Layout::V2 => 130,
        }
    }

    /// Returns the word that opens the gate.
    pub fn opening(self) -> Word
        ensures { result ≡ opening (journal_of self) }
    {
        match self {
            Layout::V1 => *b"OPEN-1--",
            Layout::V2 => *b"OPEN-2--",
        }
    }

    /// Returns the place of the value of pair `i`, where `i` is 0 to 63.
    pub fn place_of_value(self, i: usize) -> u32
        requires few { i < 64 }
        ensures place { result ≡ place_of_value (journal_of self) i }
        ensures inside { result ≤ 130 }
    {
        match self {
            Layout::V1 => 4 + 2 * i as u32,
            Layout::V2 => 19 + i as u32,
        }
    }
}

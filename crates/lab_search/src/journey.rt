// How a state was reached.
ghost use Rattle.std.specs.Prelude.{◌≡◌, ◌+◌, ◌<◌, ◌≤◌, ◌^◌, IfOk, OnErr};
ghost use Rattle.lab_search.specs.Reports.{fill_value};

use mc_words::{NoMemory, Word};

/// The word that opens the journal of layout 2.
const OPENING: Word = *b"OPEN-2--";

/// The word that a cut write leaves: eight bytes 00, eight bytes FF, or the word that opens the journal of
/// layout 2. They are tried in this order.
#[derive(Clone, Copy, Debug, PartialEq, Eq)]
pub enum Fill {
    Zeros,
    Ones,
    Opening,
}

impl Fill {
    /// Returns the word.
    pub fn word(&self) -> Word
        ensures { result ≡ fill_value self.now }
    {
        match self {
            Fill::Zeros => [0; 8],
            Fill::Ones => [0xFF; 8],
            Fill::Opening => OPENING,
        }
    }
}

/// How a move is made: whole, or cut at the device write after the first `made` ones.
#[derive(Clone, Copy, Debug, PartialEq, Eq)]
pub enum Manner {
    Whole,
    Cut { made: u32, fill: Fill },
}

/// The last step to a state: the state before it, the move, and how it is made.
#[derive(Clone, Copy, Debug, PartialEq, Eq)]
pub struct Step {
    pub before: usize,
    pub chosen: usize,
    pub manner: Manner,
}

/// Returns the number of device writes before the next cut, after a cut that came after the first `made` ones.
///
/// # Errors
///
/// Returns `NoMemory` if the next cut has no number: these would be 4,294,967,295 writes.
pub fn next_write(made: u32) -> Result<u32, NoMemory>
    ensures next { IfOk result (λ next. next ≡ made + 1) }
    ensures counted { IfOk result (λ next. next + 1 < 2 ^ 32) }
    ensures none { OnErr result (2 ^ 32 ≤ made + 2) }
{
    if made >= u32::MAX - 1 {
        return Err(NoMemory);
    }
    Ok(made + 1)
}

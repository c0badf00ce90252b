// The stop that is armed for the next card line.
ghost use Rattle.std.specs.Prelude.{◌≡◌};
ghost use Rattle.mc_script.specs.Players.{cut_place};

use mc_words::Word;

/// The stop that is armed for the next card line: the number of the device write that it hits, counted from
/// 1, and for a cut the word that it leaves. A failed write leaves eight zero bytes.
#[derive(Clone, Copy, Debug)]
pub enum Armed {
    Not,
    Cut { k: u32, fill: Word },
    Fail(u32),
}

impl Armed {
    /// Returns the number of the write at which power is cut, and 0 if no cut is armed.
    pub fn cut_place(&self) -> u32
        ensures { result ≡ cut_place self.now }
    {
        match self {
            Armed::Cut { k, fill: _ } => *k,
            _ => 0,
        }
    }
}

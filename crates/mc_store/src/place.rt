// The places of the sections of a block, and its number of words.
ghost use Rattle.std.specs.Prelude.{◌≡◌, ◌+◌};
ghost use Rattle.mc_bank.specs.Bank.{FitsLimits};
ghost use Rattle.mc_store.specs.Store.{words_of_sizes, part_from};

use mc_bank::{Part, Sizes};
use mc_blocks::words_of;

/// Returns the number of words of a block with sections of these sizes.
pub fn needed_words(sizes: &Sizes) -> u16
    requires { FitsLimits sizes.now }
    ensures { result ≡ words_of_sizes sizes.now }
{
    let sections = words_of(sizes.code)
        + words_of(sizes.fixed)
        + words_of(sizes.dir)
        + words_of(sizes.fci);
    5 + sections as u16
}

/// Returns the number of the word in which a section begins, of a block at a place with sections of these sizes.
pub fn part_place(part: Part, sizes: &Sizes, place: u16) -> u32
    ensures { result ≡ part_from part sizes.now place }
{
    let code = place as u32 + 5;
    let fixed = code + words_of(sizes.code);
    let dir = fixed + words_of(sizes.fixed);
    let fci = dir + words_of(sizes.dir);
    match part {
        Part::Code => code,
        Part::Data => fixed,
        Part::Dir => dir,
        Part::Fci => fci,
    }
}

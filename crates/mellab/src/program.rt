// The program: its words select a job, or what it says of itself.
ghost use Rattle.std.specs.Prelude.{◌≡◌, ◌<◌};
ghost use Rattle.mc_filter.specs.Outside.{outside};
ghost use Rattle.mellab.specs.Programs.{ProgramSays};

use crate::running::mellab;
use mc_filter::{Status, job_words, number};
use mc_streams::{Sink, Source};
use mc_words::{NoMemory, Steps};
use std::alloc::Global;
use std::sync::ledger::{Blank, Ledger};

/// Does what the words of the command line select, and returns its status, as [`mellab`]; words that cannot be read
/// select nothing. Its status is 5 if memory was out before the words were read, and then nothing is written.
pub fn program<S: Source, T: Sink, L: Ledger>(
    alloc: Global,
    words: Result<Option<Vec<String>>, NoMemory>,
    input: &mut S,
    out: &mut T,
    blank: Blank,
) -> u8
    requires name { blank.name ≡ L.name }
    requires parts { blank.parts ≡ L.parts }
    requires some { 0 < blank.parts }
    ensures { ProgramSays words (outside S.Source T.Sink input.old input.new out.old out.new) result }
{
    let mut steps = Steps::<L>::new(blank);
    match words {
        Ok(words) => {
            let words = job_words(alloc, words);
            mellab(alloc, words.as_slice(), input, out, &mut steps)
        }
        Err(NoMemory) => number(Status::NoMemory),
    }
}

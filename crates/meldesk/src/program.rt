// The program: its words select a job, which is done on a blank device.
ghost use Rattle.std.specs.Prelude.{◌≡◌, ◌<◌, ◌⊎◌};
ghost use Rattle.mc_filter.specs.Statuses.{IsNumberOf};
ghost use Rattle.meldesk.specs.Programs.{streams, DoesDeskJob, IsShortOf, ProgramSays};

use crate::running::meldesk;
use mc_filter::{Status, blank_device, job_words, number};
use mc_streams::{Sink, Source};
use mc_words::{NoMemory, Steps};
use std::alloc::Global;
use std::sync::ledger::{Blank, Ledger};

// Does the job that words select on a blank device.
fn on_blank<S: Source, T: Sink, E: Sink, L: Ledger>(
    alloc: Global,
    words: &[String],
    input: &mut S,
    out: &mut T,
    err: &mut E,
    steps: &mut Steps<L>,
) -> u8
    ensures { IsNumberOf (λ s.
        DoesDeskJob words.now (streams S.Source T.Sink E.Sink input.old input.new out.old out.new err.old err.new) s
        ⊎ IsShortOf (streams S.Source T.Sink E.Sink input.old input.new out.old out.new err.old err.new) s) result }
{
    match blank_device(alloc) {
        Ok(mut device) => meldesk(alloc, words, input, out, err, &mut device, steps),
        Err(_) => number(Status::NoMemory),
    }
}

/// Does the job that the words of the command line select, on a blank device of 8,192 words, and returns its status, as
/// [`meldesk`]; words that cannot be read select none. Its status is 5 if memory was out before the words were read, or
/// for the device, and then nothing is written.
pub fn program<S: Source, T: Sink, E: Sink, L: Ledger>(
    alloc: Global,
    words: Result<Option<Vec<String>>, NoMemory>,
    input: &mut S,
    out: &mut T,
    err: &mut E,
    blank: Blank,
) -> u8
    requires name { blank.name ≡ L.name }
    requires parts { blank.parts ≡ L.parts }
    requires some { 0 < blank.parts }
    ensures { ProgramSays words
        (streams S.Source T.Sink E.Sink input.old input.new out.old out.new err.old err.new) result }
{
    let mut steps = Steps::<L>::new(blank);
    match words {
        Ok(words) => {
            let words = job_words(alloc, words);
            on_blank(alloc, words.as_slice(), input, out, err, &mut steps)
        }
        Err(NoMemory) => number(Status::NoMemory),
    }
}

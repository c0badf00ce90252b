// The top call: a job over a source and a sink.
ghost use Rattle.std.specs.Prelude.{◌≡◌, ◌≤◌, ◌^◌, ◌<◌, length, None, Ok, Some, IfErr, IfOk, IfSome};
ghost use Rattle.mc_deck.specs.model_play.specs.DeckGrammar.{deck_read};
ghost use Rattle.mc_text.specs.Texts.{sunk};
ghost use Rattle.mc_lab.specs.Expectations.{expected_deck_read};
ghost use Rattle.mc_lab.specs.ExpectedDecks.{expected_deck_value, IsRising};
ghost use Rattle.mc_filter.specs.declared.status.Status.{Status};
ghost use Rattle.mc_filter.specs.Inputs.{input_limit, Rejects};
ghost use Rattle.mc_filter.specs.Outside.{outside};
ghost use Rattle.mc_filter.specs.Statuses.{number_of};
ghost use Rattle.mellab.specs.declared.job.Job.TheVariants as job;
ghost use Rattle.mellab.specs.declared.job.Request.TheVariants as request;
ghost use Rattle.mellab.specs.Jobs.{request_of};
ghost use Rattle.mellab.specs.Running.{refused_expected_deck, RejectsLabJob};
ghost use Rattle.mellab.specs.Statuses.{status_after, status_by, MellabCompletes, MellabDone, MellabEnds, MellabSays};

use crate::about::describe;
use crate::exploring::explore_input;
use crate::job::{Job, Request, request_of};
use crate::proving::prove_input;
use mc_filter::{
    Rejection, Status, blank_device, deck_of, ended, number, read_input, refused, reject,
};
use mc_lab::{ExpectationRefusal, ExpectedDeck, Mark, expect, read_expected_deck, remarks, sweep};
use mc_script::JobFault;
use mc_streams::{Sink, Source, WriteFault, put_all};
use mc_words::Steps;
use std::alloc::Global;
use std::sync::ledger::Ledger;

// The text that is written if the words select no job.
const USAGE: &[u8] = b"usage: mellab expect | sweep | explore N | prove\n";

// Reads a deck and its expectations, or returns the line that refuses them.
fn expected_deck_of(alloc: Global, text: &[u8]) -> Result<ExpectedDeck<'_>, Rejection>
    requires { length text.now ≤ input_limit }
    ensures expected_deck { IfOk result (λ t. expected_deck_read text.now ≡ Ok (expected_deck_value t)) }
    ensures rising { IfOk result IsRising }
    ensures rejected { IfErr result (Rejects (refused_expected_deck (expected_deck_read text.now))) }
{
    match read_expected_deck(alloc, text) {
        Ok(expected_deck) => Ok(expected_deck),
        Err(ExpectationRefusal::Deck(number, cause)) => Err(refused(
            alloc,
            "line",
            number,
            cause.word(),
        )),
        Err(ExpectationRefusal::NoAnswer(number)) => Err(refused(
            alloc, "line", number, "NoAnswer",
        )),
        Err(ExpectationRefusal::NoExpectation) => Err(refused(alloc, "line", 0, "NoExpectation")),
        Err(ExpectationRefusal::NoMemory) => Err(Rejection::NoMemory),
    }
}

// The status after a report of expectations, by the number that failed.
fn status_after(reported: Result<usize, WriteFault>) -> Status
    ensures { result ≡ status_after reported }
{
    match reported {
        Ok(0) => Status::Done,
        Ok(_) => Status::Failed,
        Err(WriteFault) => Status::WriteFault,
    }
}

/// Returns the status of a complete text, by whether all that is asked of the deck holds.
pub fn status_by(well: bool) -> Status
    ensures { result ≡ status_by well }
{
    if well { Status::Done } else { Status::Failed }
}

// Plays the deck that an input spells, on a blank device of its own, and writes the report of its
// expectations.
fn expect_input<S: Source, T: Sink, L: Ledger>(
    alloc: Global,
    input: &mut S,
    out: &mut T,
    steps: &mut Steps<L>,
) -> Result<Status, Rejection>
    ensures done { IfOk result
        (MellabDone job.Expect (outside S.Source T.Sink input.old input.new out.old out.new)) }
    ensures rejected { IfErr result
        (RejectsLabJob job.Expect (outside S.Source T.Sink input.old input.new out.old out.new)) }
    ensures out { IfErr result (λ e. sunk T.Sink out.new ≡ sunk T.Sink out.old) }
{
    let text = read_input(alloc, input)?;
    let expected_deck = expected_deck_of(alloc, text.as_slice())?;
    let device = blank_device(alloc)?;
    Ok(status_after(expect(&expected_deck, device, out, steps)))
}

// Sweeps the deck that an input spells, on devices of its own.
fn sweep_input<S: Source, T: Sink, L: Ledger>(
    alloc: Global,
    input: &mut S,
    out: &mut T,
    steps: &mut Steps<L>,
) -> Result<Status, Rejection>
    ensures done { IfOk result
        (MellabDone job.Sweep (outside S.Source T.Sink input.old input.new out.old out.new)) }
    ensures rejected { IfErr result
        (RejectsLabJob job.Sweep (outside S.Source T.Sink input.old input.new out.old out.new)) }
    ensures out { IfErr result (λ e. sunk T.Sink out.new ≡ sunk T.Sink out.old) }
{
    let text = read_input(alloc, input)?;
    let deck = deck_of(alloc, text.as_slice())?;
    let marks = remarks(alloc, text.as_slice(), Mark::Whole)?;
    match sweep(alloc, &deck, marks.as_slice(), out, steps) {
        Ok(whole) => Ok(status_by(whole)),
        Err(JobFault::WriteFault) => Ok(Status::WriteFault),
        Err(JobFault::NoMemory) => Err(Rejection::NoMemory),
    }
}

// Does a job, unless it is rejected.
fn attempt<S: Source, T: Sink, L: Ledger>(
    alloc: Global,
    job: Job,
    input: &mut S,
    out: &mut T,
    steps: &mut Steps<L>,
) -> Result<Status, Rejection>
    ensures ends { IfOk result (MellabEnds job (outside S.Source T.Sink input.old input.new out.old out.new)) }
    ensures rejected { IfErr result (RejectsLabJob job (outside S.Source T.Sink input.old input.new out.old out.new)) }
    ensures out { IfErr result (λ e. sunk T.Sink out.new ≡ sunk T.Sink out.old) }
{
    match job {
        Job::Expect => expect_input(alloc, input, out, steps),
        Job::Sweep => sweep_input(alloc, input, out, steps),
        Job::Explore { depth, most } => explore_input(alloc, depth, most, input, out, steps),
        Job::Prove => prove_input(alloc, input, out),
    }
}

// Does a job.
fn run<S: Source, T: Sink, L: Ledger>(
    alloc: Global,
    job: Job,
    input: &mut S,
    out: &mut T,
    steps: &mut Steps<L>,
) -> Status
    ensures { MellabSays result (Some (request.Do job)) (outside S.Source T.Sink input.old input.new out.old out.new) }
{
    match attempt(alloc, job, input, out, steps) {
        Ok(status) => status,
        Err(rejection) => reject(out, &rejection),
    }
}

// Does what is requested.
fn answer<S: Source, T: Sink, L: Ledger>(
    alloc: Global,
    request: Request,
    input: &mut S,
    out: &mut T,
    steps: &mut Steps<L>,
) -> Status
    ensures { MellabSays result (Some request) (outside S.Source T.Sink input.old input.new out.old out.new) }
{
    match request {
        Request::Do(job) => run(alloc, job, input, out, steps),
        Request::Describe(about) => describe(about, out),
    }
}

// Does what the words select, or writes the usage line.
fn run_words<S: Source, T: Sink, L: Ledger>(
    alloc: Global,
    words: &[String],
    input: &mut S,
    out: &mut T,
    steps: &mut Steps<L>,
) -> Status
    ensures { MellabSays result (request_of words.now) (outside S.Source T.Sink input.old input.new out.old out.new) }
{
    let Some(request) = request_of(words) else {
        return ended(Status::NoForm, put_all(out, USAGE));
    };
    answer(alloc, request, input, out, steps)
}

/// Does what the words select, a job over a source and a sink, and returns its status: 0 done, all expectations
/// hold, each line that must be whole is, no rule is broken or all rules are proved, 1 an expectation failed, a line is
/// not whole, a rule is broken or not proved, or the input is refused, 2 the words select no job, 3 a fault of the
/// source, 4 a fault of the sink, 5 out of memory, in which case nothing was written, but for the first bytes of the
/// text of an exploration, 6 no rule is broken in what was explored, which is not all.
///
/// It makes its own devices in memory, of 8,192 words.
pub fn mellab<S: Source, T: Sink, L: Ledger>(
    alloc: Global,
    words: &[String],
    input: &mut S,
    out: &mut T,
    steps: &mut Steps<L>,
) -> u8
    ensures says { (s : Status) × (result ≡ number_of s)
        × MellabSays s (request_of words.now) (outside S.Source T.Sink input.old input.new out.old out.new) }
    ensures complete { (s : Status) → result ≡ number_of s → IfSome (request_of words.now)
        (λ r. MellabCompletes s r (outside S.Source T.Sink input.old input.new out.old out.new)) }
{
    number(run_words(alloc, words, input, out, steps))
}

// The top call: a job over a source, a sink and a device.
ghost use Rattle.std.specs.Prelude.{◌≡◌, ◌≤◌, Some, IfErr, IfOk, IfSome};
ghost use Rattle.mc_deck.specs.model_play.specs.Generator.{deck_of_number};
ghost use Rattle.mc_script.specs.Players.{IsUnfused};
ghost use Rattle.mc_text.specs.Texts.{sunk};
ghost use Rattle.mc_filter.specs.declared.status.Status.{Status};
ghost use Rattle.mc_filter.specs.declared.status.Status.TheVariants as status;
ghost use Rattle.mc_filter.specs.Outside.{outside};
ghost use Rattle.mc_filter.specs.Statuses.{number_of};
ghost use Rattle.melcard.specs.declared.job.Job.TheVariants as job;
ghost use Rattle.mc_filter.specs.declared.rejection.Rejection.TheVariants as rejection;
ghost use Rattle.melcard.specs.Jobs.{greatest_number, job_of, JobFits};
ghost use Rattle.melcard.specs.Running.{PlaysInput, RejectsJob, WritesInput};
ghost use Rattle.mc_script.specs.Benches.{bench_at};
ghost use Rattle.melcard.specs.Statuses.{card_outside, text_of_step, IsSummed, MelcardCompletes, MelcardSays};
ghost use Rattle.mc_script.specs.StepCounts.{CountsDeck};

use crate::form::text_of;
use crate::job::{Form, Job, Reporting, job_of};
use crate::room::room_for;
use mc_base::{Sink, Source, Steps, WriteFault, put_all};
use mc_deck::{Deck, generate};
use mc_filter::{Rejection, Status, deck_of, ended, number, read_input, reject};
use mc_nvm::Bench;
use mc_script::{play, summarise, trace};
use std::alloc::Global;
use std::sync::ledger::Ledger;

// Plays a deck and writes the output of the play.
fn play_as<T: Sink, N: Bench, L: Ledger>(
    reporting: Reporting,
    deck: &Deck,
    out: &mut T,
    dev: &mut N,
    steps: &mut Steps<L>,
) -> Result<(), WriteFault>
    requires { IsUnfused (N.bench dev.old) }
    ensures { CountsDeck (text_of_step reporting) deck.now (bench_at N.Bench dev.old)
        (sunk T.Sink out.old) result (bench_at N.Bench dev.new)
        (sunk T.Sink out.new) steps.old steps.new }
{
    match reporting {
        Reporting::Transcript => play(deck, dev, out, steps),
        Reporting::Trace => trace(deck, dev, out, steps),
    }
}

// Plays the deck that an input spells, and writes the output of the play.
fn report<S: Source, T: Sink, N: Bench, L: Ledger>(
    alloc: Global,
    reporting: Reporting,
    input: &mut S,
    out: &mut T,
    dev: &mut N,
    steps: &mut Steps<L>,
) -> Result<Status, Rejection>
    requires { IsUnfused (N.bench dev.old) }
    ensures done { IfOk result (λ s. PlaysInput reporting s
        (card_outside S.Source T.Sink N.Bench input.old input.new out.old out.new dev.old dev.new steps.old steps.new)) }
    ensures rejected { IfErr result
        (RejectsJob (job.Play reporting) (outside S.Source T.Sink input.old input.new out.old out.new)) }
    ensures out { IfErr result (λ e. out.new ≡ out.old) }
    ensures device { IfErr result (λ e. dev.new ≡ dev.old) }
{
    let text = read_input(alloc, input)?;
    let deck = deck_of(alloc, text.as_slice())?;
    Ok(ended(Status::Done, play_as(reporting, &deck, out, dev, steps)))
}

// Plays the deck that a number generates, and writes a summary of the play.
fn sum<T: Sink, N: Bench, L: Ledger>(
    alloc: Global,
    number: u32,
    out: &mut T,
    dev: &mut N,
    steps: &mut Steps<L>,
) -> Result<Status, Rejection>
    requires number { number ≤ greatest_number }
    requires fuses { IsUnfused (N.bench dev.old) }
    ensures done { IfOk result (λ s. IsSummed (deck_of_number number) s
        (bench_at N.Bench dev.old) (sunk T.Sink out.old)
        (bench_at N.Bench dev.new) (sunk T.Sink out.new) steps.old steps.new) }
    ensures rejected { IfErr result (λ e. e ≡ rejection.NoMemory) }
    ensures out { IfErr result (λ e. out.new ≡ out.old) }
    ensures device { IfErr result (λ e. dev.new ≡ dev.old) }
{
    let deck = generate(alloc, number)?;
    Ok(ended(Status::Done, summarise(&deck, dev, out, steps)))
}

// Writes the text of an input.
fn write<S: Source, T: Sink>(
    alloc: Global,
    form: Form,
    input: &mut S,
    out: &mut T,
) -> Result<Status, Rejection>
    ensures done { IfOk result
        (λ s. WritesInput form s (outside S.Source T.Sink input.old input.new out.old out.new)) }
    ensures rejected { IfErr result
        (RejectsJob (job.Write form) (outside S.Source T.Sink input.old input.new out.old out.new)) }
    ensures out { IfErr result (λ e. out.new ≡ out.old) }
{
    let room = room_for(alloc, form)?;
    let bytes = read_input(alloc, input)?;
    let text = text_of(alloc, form, room, bytes.as_slice())?;
    Ok(ended(Status::Done, put_all(out, text.as_slice())))
}

// Does a job.
fn run<S: Source, T: Sink, N: Bench, L: Ledger>(
    alloc: Global,
    job: Job,
    input: &mut S,
    out: &mut T,
    dev: &mut N,
    steps: &mut Steps<L>,
) -> Status
    requires fits { JobFits job }
    requires fuses { IsUnfused (N.bench dev.old) }
    ensures { MelcardSays (dev.new ≡ dev.old) result (Some job)
        (card_outside S.Source T.Sink N.Bench input.old input.new out.old out.new dev.old dev.new steps.old steps.new) }
{
    let done = match job {
        Job::Play(reporting) => report(alloc, reporting, input, out, dev, steps),
        Job::Generate(number) => sum(alloc, number, out, dev, steps),
        Job::Write(form) => write(alloc, form, input, out),
    };
    match done {
        Ok(status) => status,
        Err(rejection) => reject(out, &rejection),
    }
}

// Does the job that the words select, or writes the usage line, and returns its status.
fn run_words<S: Source, T: Sink, N: Bench, L: Ledger>(
    alloc: Global,
    words: &[String],
    input: &mut S,
    out: &mut T,
    dev: &mut N,
    steps: &mut Steps<L>,
) -> Status
    requires { IsUnfused (N.bench dev.old) }
    ensures { MelcardSays (dev.new ≡ dev.old) result (job_of words.now)
        (card_outside S.Source T.Sink N.Bench input.old input.new out.old out.new dev.old dev.new steps.old steps.new) }
{
    let Some(job) = job_of(words) else {
        let usage = b"usage: melcard play | asm | list | gen N | check | trace\n";
        return ended(Status::NoForm, put_all(out, usage));
    };
    run(alloc, job, input, out, dev, steps)
}

/// Does the job that the words select, over a source, a sink and a device without an armed stop, and returns
/// its status.
pub fn melcard<S: Source, T: Sink, N: Bench, L: Ledger>(
    alloc: Global,
    words: &[String],
    input: &mut S,
    out: &mut T,
    dev: &mut N,
    steps: &mut Steps<L>,
) -> u8
    requires { IsUnfused (N.bench dev.old) }
    // 0: the input was read to its end, the job is done, and all its text was written.
    ensures done { result ≡ 0 → MelcardSays (dev.new ≡ dev.old) status.Done (job_of words.now)
        (card_outside S.Source T.Sink N.Bench input.old input.new out.old out.new dev.old dev.new steps.old steps.new) }
    // 1: the input is refused, the line that says why was written, and the device is unchanged.
    ensures refused { result ≡ 1 → MelcardSays (dev.new ≡ dev.old) status.Failed (job_of words.now)
        (card_outside S.Source T.Sink N.Bench input.old input.new out.old out.new dev.old dev.new steps.old steps.new) }
    // 2: the words select no job, the usage line was written, and source and device are unchanged.
    ensures no_job { result ≡ 2 → MelcardSays (dev.new ≡ dev.old) status.NoForm (job_of words.now)
        (card_outside S.Source T.Sink N.Bench input.old input.new out.old out.new dev.old dev.new steps.old steps.new) }
    // 3: one call of the source failed, nothing was written, and the device is unchanged.
    ensures read_fault { result ≡ 3 → MelcardSays (dev.new ≡ dev.old) status.ReadFault (job_of words.now)
        (card_outside S.Source T.Sink N.Bench input.old input.new out.old out.new dev.old dev.new steps.old steps.new) }
    // 4: a call of the sink failed, and a front of the text that is due was written.
    ensures write_fault { result ≡ 4 → MelcardSays (dev.new ≡ dev.old) status.WriteFault (job_of words.now)
        (card_outside S.Source T.Sink N.Bench input.old input.new out.old out.new dev.old dev.new steps.old steps.new) }
    // 5: out of memory before the first byte was written, for a listing before the first was read, and the device is
    // unchanged.
    ensures memory { result ≡ 5 → MelcardSays (dev.new ≡ dev.old) status.NoMemory (job_of words.now)
        (card_outside S.Source T.Sink N.Bench input.old input.new out.old out.new dev.old dev.new steps.old steps.new) }
    // There is no other status.
    ensures statuses { result ≤ 5 }
    // If no call of source and sink fails, all that is due for the input is done, or the status is 5.
    ensures complete { (s : Status) → result ≡ number_of s
        → IfSome (job_of words.now) (λ job. MelcardCompletes s job
        (card_outside S.Source T.Sink N.Bench input.old input.new out.old out.new dev.old dev.new steps.old steps.new)) }
{
    number(run_words(alloc, words, input, out, dev, steps))
}

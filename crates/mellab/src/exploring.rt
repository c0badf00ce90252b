// The exploration of a deck.
ghost use Rattle.std.specs.Prelude.{◌≡◌, IfErr, IfOk};
ghost use Rattle.lab_deck.specs.law_explore_text.specs.law_explore.specs.Rules.{exploration_read};
ghost use Rattle.lab_rules.specs.Meanings.{IsExplorationRead};
ghost use Rattle.mc_text.specs.Texts.{sunk};
ghost use Rattle.mc_filter.specs.Inputs.{Rejects};
ghost use Rattle.mc_filter.specs.Outside.{outside};
ghost use Rattle.mellab.specs.declared.job.Job.TheVariants as job;
ghost use Rattle.mellab.specs.Running.{refused_exploration, status_explored, EndsExploration, RejectsLabJob};
ghost use Rattle.mellab.specs.Statuses.{MellabEnds};

use crate::applying::explore_application;
use lab_deck::names_application;
use lab_rules::{Exploration, ExplorationRefusal, read_exploration};
use lab_search::{Explored, explore_within};
use mc_filter::{Rejection, Status, read_input, refused};
use mc_script::JobFault;
use mc_streams::{Sink, Source};
use mc_words::Steps;
use std::alloc::Global;
use std::sync::ledger::Ledger;

// Reads a deck and its rules, or returns the line that refuses them.
fn exploration_of(alloc: Global, text: &[u8]) -> Result<Exploration<'_>, Rejection>
    ensures read { IfOk result (λ e. IsExplorationRead e (exploration_read text.now)) }
    ensures rejected { IfErr result (Rejects (refused_exploration (exploration_read text.now))) }
{
    match read_exploration(alloc, text) {
        Ok(exploration) => Ok(exploration),
        Err(ExplorationRefusal::Line(number, cause)) => Err(refused(
            alloc,
            "line",
            number,
            cause.word(),
        )),
        Err(ExplorationRefusal::NoMove) => Err(refused(alloc, "line", 0, "NoMove")),
        Err(ExplorationRefusal::NoRule) => Err(refused(alloc, "line", 0, "NoRule")),
        Err(ExplorationRefusal::NoMemory) => Err(Rejection::NoMemory),
    }
}

/// Returns the status after an exploration.
pub fn status_explored(explored: Result<Explored, JobFault>) -> Status
    ensures { result ≡ status_explored explored }
{
    match explored {
        Ok(Explored::All) => Status::Done,
        Ok(Explored::Partial) => Status::Partial,
        Ok(Explored::Broken) => Status::Failed,
        Err(JobFault::WriteFault) => Status::WriteFault,
        Err(JobFault::NoMemory) => Status::NoMemory,
    }
}

// Explores the deck of a text with its rules.
fn explore_moves<T: Sink, L: Ledger>(
    alloc: Global,
    depth: u32,
    most: u32,
    text: &[u8],
    out: &mut T,
    steps: &mut Steps<L>,
) -> Result<Status, Rejection>
    ensures ends { IfOk result (EndsExploration depth most text.now (sunk T.Sink out.old) (sunk T.Sink out.new)) }
    ensures rejected { IfErr result (Rejects (refused_exploration (exploration_read text.now))) }
    ensures out { IfErr result (λ e. sunk T.Sink out.new ≡ sunk T.Sink out.old) }
{
    let exploration = exploration_of(alloc, text)?;
    Ok(status_explored(explore_within(alloc, &exploration, most as usize, depth, out, steps)))
}

/// Explores the deck that an input spells, at most `depth` moves deep and with at most as many states, on a device of its
/// own. It may be out of memory after lines that it has written.
///
/// # Errors
///
/// Returns why the input is rejected, before it writes anything.
pub fn explore_input<S: Source, T: Sink, L: Ledger>(
    alloc: Global,
    depth: u32,
    most: u32,
    input: &mut S,
    out: &mut T,
    steps: &mut Steps<L>,
) -> Result<Status, Rejection>
    ensures ends { IfOk result
        (MellabEnds (job.Explore depth most) (outside S.Source T.Sink input.old input.new out.old out.new)) }
    ensures rejected { IfErr result
        (RejectsLabJob (job.Explore depth most) (outside S.Source T.Sink input.old input.new out.old out.new)) }
    ensures out { IfErr result (λ e. sunk T.Sink out.new ≡ sunk T.Sink out.old) }
{
    let text = read_input(alloc, input)?;
    if names_application(text.as_slice()) {
        return explore_application(alloc, depth, most, text.as_slice(), out, steps);
    }
    explore_moves(alloc, depth, most, text.as_slice(), out, steps)
}

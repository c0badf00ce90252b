// The search through all states, breadth first.
ghost use Rattle.std.specs.Prelude.{◌≡◌, not, ◌&&◌, IfOk};
ghost use Rattle.law_explore_text.specs.law_explore.specs.Rules as rule;
ghost use Rattle.law_explore_text.specs.law_explore.specs.States.{play_of_deck};
ghost use Rattle.law_explore_text.specs.law_explore.specs.Search.{most_states, search_of};
ghost use Rattle.law_explore_text.specs.Report.{text_within};
ghost use Rattle.law_explore_text.specs.Report.{explore_text};
ghost use Rattle.mc_text.specs.Texts.{sunk};
ghost use Rattle.lab_search.specs.Kept.{IsExplorationOf};
ghost use Rattle.lab_search.specs.Endings.{IsExplored, Starts};

use crate::beginning::{Beginning, begin};
use crate::endings::{Explored, Start};
use crate::report::put_depth;
use crate::rounds::Search;
use lab_rules::{Exploration, applications};
use mc_script::JobFault;
use mc_streams::Sink;
use mc_words::{NoMemory, Steps};
use std::alloc::Global;
use std::sync::ledger::Ledger;

/// The most states of an exploration.
const MOST_STATES: usize = 1_000_000;

// Whether a card ran before a power line that was wanted, by whether one runs after it.
fn ran_before(runs: bool, power: bool) -> bool
    ensures { result ≡ (runs && not power) }
{
    runs && !power
}

// Returns a search that holds the first state of an exploration, and what leads there.
fn start<L: Ledger>(
    alloc: Global,
    exploration: &Exploration<'_>,
    limit: usize,
    steps: &mut Steps<L>,
) -> Result<(Search, Start), NoMemory>
    ensures { IfOk result (λ r. (x : rule.Exploration) → IsExplorationOf exploration.now x → Starts limit r.0 r.1 x) }
{
    let Beginning {
        laboratory,
        rosters,
        first,
        lead,
    } = begin(alloc, exploration, steps)?;
    let ons = exploration.rules.ons.len();
    let search = Search::new(alloc, limit, laboratory, rosters, first, ons)?;
    let ran = ran_before(search.runs(0), lead.power);
    Ok((search, Start { lead, ran }))
}

/// Explores a deck with its rules as `explore` does, with at most `limit` states. The deck and its rules are those that
/// `read_exploration` returned.
///
/// # Errors
///
/// Returns `NoMemory` if it is out of memory, if there is no room for the number of tries, or if a move makes
/// 4,294,967,295 device writes or more; and `WriteFault` if the sink fails.
pub fn explore_within<T: Sink, L: Ledger>(
    alloc: Global,
    exploration: &Exploration<'_>,
    limit: usize,
    depth: u32,
    out: &mut T,
    steps: &mut Steps<L>,
) -> Result<Explored, JobFault>
    requires read { (x : rule.Exploration) × IsExplorationOf exploration.now x }
    ensures { (x : rule.Exploration) → IsExplorationOf exploration.now x
        → IsExplored (sunk T.Sink out.old) (text_within limit depth x) (search_of limit depth x).ending result
        (sunk T.Sink out.new) }
{
    let rows = applications(alloc, &exploration.rules)?;
    let (mut search, start) = start(alloc, exploration, limit, steps)?;
    let mut from = 0;
    for done in 0..depth {
        let to = search.states.len();
        let halt = search.try_states(alloc, exploration, rows.as_slice(), from, to, steps)?;
        if let Some(halt) = halt {
            return search.report_halt(alloc, exploration, start, halt, done + 1, out);
        }
        let new = search.states.len().saturating_sub(to);
        put_depth(out, done + 1, new)?;
        if new == 0 {
            return search.report_kept(exploration, None, out);
        }
        from = to;
    }
    search.report_kept(exploration, Some(depth), out)
}

/// Explores a deck with its rules, at most `depth` moves deep, and writes a line for each depth when it is done,
/// and what the exploration came to: the sums, or the first broken rule with the statements that lead there.
///
/// The exploration is one that `read_exploration` of `lab_rules` returned: its rules are those of a text, each move is a
/// line to the card, and each allowance has a name of its own. What is written is the text of the definition
/// (`explore_text`), and the result says how it ends; after an error it is a prefix of it.
///
/// It plays on a device in memory of 8,192 words. It keeps at most 1,000,000 states, and ends with the sums when
/// there is one more. Memory is allocated as states are found, so it may be out of memory after lines that it has
/// written.
///
/// # Errors
///
/// Returns `NoMemory` if it is out of memory, if there is no room for the number of tries, or if a move makes
/// 4,294,967,295 device writes or more; and `WriteFault` if the sink fails.
pub fn explore<T: Sink, L: Ledger>(
    alloc: Global,
    exploration: &Exploration<'_>,
    depth: u32,
    out: &mut T,
    steps: &mut Steps<L>,
) -> Result<Explored, JobFault>
    requires read { (x : rule.Exploration) × IsExplorationOf exploration.now x }
    ensures { (x : rule.Exploration) → IsExplorationOf exploration.now x
        → IsExplored (sunk T.Sink out.old) (explore_text depth x) (search_of most_states depth x).ending result
        (sunk T.Sink out.new) }
{
    explore_within(alloc, exploration, MOST_STATES, depth, out, steps)
}

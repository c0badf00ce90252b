// The search through all states, breadth first.
ghost use Rattle.std.specs.Prelude.{◌≡◌, ◌&&◌, ℕ, suc, List, length, not, IfOk};
ghost use Rattle.law_histories.specs.model_play.specs.DeckGrammar.{DeckLine};
ghost use Rattle.law_histories.specs.law_explore.specs.Rules as rule;
ghost use Rattle.law_histories.specs.law_explore.specs.States.{play_of_deck};
ghost use Rattle.mc_text.specs.Texts.{sunk};
ghost use Rattle.lab_application.specs.Shadows.{AreMovesOf};
ghost use Rattle.lab_application.specs.Starts.{StartsWith};
ghost use Rattle.lab_application.specs.Texts.{IsAppExplored};

use crate::ending::{report_deck, report_halt, report_kept};
use crate::rounds::try_states;
use lab_branch::push;
use lab_key::CardState;
use lab_record::{Subject, chronicle};
use lab_rules::Exploration;
use lab_search::{Beginning, Explored, Search, Start, begin, put_depth};
use mc_script::JobFault;
use mc_streams::Sink;
use mc_words::{NoMemory, Steps};
use std::alloc::Global;
use std::sync::ledger::Ledger;

/// The most states of an exploration.
const MOST_STATES: usize = 1_000_000;

// The allowances of the first state with these amounts.
fn first_allowances(alloc: Global, amounts: &[u32]) -> Result<Vec<u32>, NoMemory>
    ensures { IfOk result (λ allowances. length allowances.items ≡ suc (length amounts.now)) }
{
    let mut allowances = Vec::new(alloc);
    push(&mut allowances, 0)?;
    allowances.extend_from_slice(amounts)?;
    Ok(allowances)
}

// Whether a card ran before a power line that was wanted, by whether one runs after it.
fn ran_before(runs: bool, power: bool) -> bool
    ensures { result ≡ (runs && not power) }
{
    runs && !power
}

// Returns a search that holds the first state of an exploration, with the amounts of its allowances, and what leads there.
fn start<L: Ledger>(
    alloc: Global,
    moves: &Exploration<'_>,
    amounts: &[u32],
    limit: usize,
    ons: usize,
    steps: &mut Steps<L>,
) -> Result<(Search, Start), NoMemory>
    ensures { IfOk result (λ r. (ls : List (ℕ × DeckLine)) (ms : List rule.Move) → AreMovesOf moves.now ls ms
        → StartsWith ls ms (length amounts.now) limit r.0 r.1) }
{
    let Beginning {
        laboratory,
        rosters,
        first,
        lead,
    } = begin(alloc, moves, steps)?;
    let allowances = first_allowances(alloc, amounts)?;
    let ran = ran_before(first.runs, lead.power);
    let first = CardState {
        card: first.card,
        runs: first.runs,
        allowances,
    };
    let search = Search::new(alloc, limit, laboratory, rosters, first, ons)?;
    Ok((search, Start { lead, ran }))
}

// Explores from a first state on.
fn search_on<T: Sink, L: Ledger>(
    alloc: Global,
    search: &mut Search,
    start: Start,
    moves: &Exploration<'_>,
    subject: Subject<'_>,
    depth: u32,
    out: &mut T,
    steps: &mut Steps<L>,
) -> Result<Explored, JobFault>
    requires { (ls : List (ℕ × DeckLine)) × (ms : List rule.Move) × (n : ℕ) × (limit : ℕ) × AreMovesOf moves.now ls ms
        × StartsWith ls ms n limit search.old start }
    ensures { (ls : List (ℕ × DeckLine)) (ms : List rule.Move) (n limit : ℕ) → AreMovesOf moves.now ls ms
        → StartsWith ls ms n limit search.old start
        → IsAppExplored subject.entry.rules.now ms depth (play_of_deck ls) (sunk T.Sink out.old) result
        (sunk T.Sink out.new) }
{
    let mut from = 0;
    for done in 0..depth {
        let to = search.states.len();
        let halt = try_states(alloc, search, moves, subject, from, to, steps)?;
        if let Some(halt) = halt {
            return report_halt(
                alloc,
                search,
                moves,
                subject.rules,
                start,
                halt,
                done + 1,
                out,
            );
        }
        let new = search.states.len().saturating_sub(to);
        put_depth(out, done + 1, new)?;
        if new == 0 {
            return report_kept(search, subject.rules, None, out);
        }
        from = to;
    }
    report_kept(search, subject.rules, Some(depth), out)
}

/// Explores a deck with the rules of one application as `explore` does, with at most `limit` states.
///
/// # Errors
///
/// Returns `NoMemory` if it is out of memory, if there is no room for the number of tries, or if a move makes
/// 4,294,967,295 device writes or more; and `WriteFault` if the sink fails.
pub fn explore_within<T: Sink, L: Ledger>(
    alloc: Global,
    moves: &Exploration<'_>,
    subject: Subject<'_>,
    limit: usize,
    depth: u32,
    out: &mut T,
    steps: &mut Steps<L>,
) -> Result<Explored, JobFault>
    requires read { (ls : List (ℕ × DeckLine)) × (ms : List rule.Move) × AreMovesOf moves.now ls ms }
    ensures { (ls : List (ℕ × DeckLine)) (ms : List rule.Move) → AreMovesOf moves.now ls ms
        → IsAppExplored subject.entry.rules.now ms depth (play_of_deck ls) (sunk T.Sink out.old) result
        (sunk T.Sink out.new) }
{
    let amounts = match chronicle(alloc, &moves.deck, subject, steps)? {
        Ok(amounts) => amounts,
        Err(broken) => return report_deck(out, subject.rules, broken),
    };
    let ons = subject.rules.ons.len();
    let (mut search, start) = start(alloc, moves, amounts.as_slice(), limit, ons, steps)?;
    search_on(alloc, &mut search, start, moves, subject, depth, out, steps)
}

/// Explores a deck with the rules of one application, at most `depth` moves deep: counts what happens to the application
/// along the deck and each sequence of moves, and writes a line for each depth when it is done, and what the exploration
/// came to: the sums, or the first broken rule with the statements that lead there.
///
/// `moves` are those of the deck, with a rule that counts the instructions of each try.
///
/// It plays on devices in memory of 8,192 words. It keeps at most 1,000,000 states, and ends with the sums when there is
/// one more. Memory is allocated as states are found, so it may be out of memory after lines that it has written.
///
/// # Errors
///
/// Returns `NoMemory` if it is out of memory, if there is no room for the number of tries, or if a move makes
/// 4,294,967,295 device writes or more; and `WriteFault` if the sink fails.
pub fn explore<T: Sink, L: Ledger>(
    alloc: Global,
    moves: &Exploration<'_>,
    subject: Subject<'_>,
    depth: u32,
    out: &mut T,
    steps: &mut Steps<L>,
) -> Result<Explored, JobFault>
    requires read { (ls : List (ℕ × DeckLine)) × (ms : List rule.Move) × AreMovesOf moves.now ls ms }
    ensures { (ls : List (ℕ × DeckLine)) (ms : List rule.Move) → AreMovesOf moves.now ls ms
        → IsAppExplored subject.entry.rules.now ms depth (play_of_deck ls) (sunk T.Sink out.old) result
        (sunk T.Sink out.new) }
{
    explore_within(alloc, moves, subject, MOST_STATES, depth, out, steps)
}

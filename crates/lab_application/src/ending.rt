// What an exploration writes when it ends, and what it returns.
ghost use Rattle.std.specs.Prelude.{◌≡◌, ℕ, List, [], ◌∷◌, reverse, slice_index_or, true, Some, IfOk};
ghost use Rattle.law_histories.specs.law_explore.specs.Rules as rule;
ghost use Rattle.law_histories.specs.law_explore.specs.Search.{statements_to, Ending, Node};
ghost use Rattle.law_histories.specs.law_explore.specs.States.{play_of_deck};
ghost use Rattle.law_histories.specs.law_explore.specs.Tries.{Try};
ghost use Rattle.law_histories.specs.law_explore_text.specs.Report.{broken_text};
ghost use Rattle.mc_text.specs.Texts.{sunk, Puts};
ghost use Rattle.lab_rules.specs.Meanings.{AlikeLists, IsMove};
ghost use Rattle.lab_search.specs.Endings.{explored_as, kept_as, IsExplored, IsPut, StartIs};
ghost use Rattle.lab_search.specs.Reports.{how_text};
ghost use Rattle.lab_search.specs.Rounds.{Depth, IsFrom, IsTry};
ghost use Rattle.lab_search.specs.declared.endings.Explored.TheVariants as Explored;
ghost use Rattle.lab_application.specs.Finding.{ComesTo};
ghost use Rattle.lab_application.specs.Names.{broken_name};
ghost use Rattle.lab_application.specs.Texts.{kept_text_of, silent_from, Reports};

use crate::attempts::Halt;
use crate::naming::put_break;
use lab_app_rules::{On, Rules};
use lab_history::Break;
use lab_rules::Exploration;
use lab_search::{
    Explored, Search, Start, Step, begins_cut, count_of_statements, put_path, put_sums, put_unheard,
};
use mc_script::JobFault;
use mc_streams::{Sink, WriteFault};
use std::alloc::Global;

/// Writes that the deck itself breaks a rule.
///
/// # Errors
///
/// Returns `WriteFault` if the sink fails.
pub fn report_deck<T: Sink>(
    out: &mut T,
    rules: &Rules<'_>,
    broken: Break,
) -> Result<Explored, JobFault>
    ensures put { IsPut (sunk T.Sink out.old) (broken_text (broken_name rules.now broken) []) result
        (sunk T.Sink out.new) }
    ensures broken { IfOk result (λ e. e ≡ Explored.Broken) }
{
    put_break(out, rules, broken, 0)?;
    Ok(Explored::Broken)
}

// Whether the `on` line with an index applied to a try. One that was not counted did.
fn is_heard(heard: &[bool], i: usize) -> bool
    ensures { result ≡ slice_index_or heard.now i true }
{
    if i < heard.len() { heard[i] } else { true }
}

// Writes the lines of the `on` lines that applied to no try, by whether each did.
fn put_silent<T: Sink>(out: &mut T, ons: &[On], heard: &[bool]) -> Result<(), WriteFault>
    ensures { Puts (sunk T.Sink out.old) (silent_from 0 ons.now heard.now) result (sunk T.Sink out.new) }
{
    for (i, on) in ons.iter().enumerate() {
        put_unheard(out, on.line, is_heard(heard, i))?;
    }
    Ok(())
}

// How an exploration that broke no rule ends, by the depth at which it ended, if a state is left.
fn kept_as(depth: Option<u32>) -> Explored
    ensures { result ≡ kept_as depth }
{
    match depth {
        None => Explored::All,
        Some(_) => Explored::Partial,
    }
}

/// Writes the `on` lines that applied to no try and the sums, with the depth at which the search ended, or `None` if no
/// state is left.
///
/// # Errors
///
/// Returns `WriteFault` if the sink fails.
pub fn report_kept<T: Sink>(
    search: &Search,
    rules: &Rules<'_>,
    depth: Option<u32>,
    out: &mut T,
) -> Result<Explored, JobFault>
    ensures put { IsPut (sunk T.Sink out.old) (kept_text_of rules.now search.now (how_text depth)) result
        (sunk T.Sink out.new) }
    ensures kept { IfOk result (λ e. e ≡ kept_as depth) }
{
    put_silent(out, rules.ons.as_slice(), search.tally.heard.as_slice())?;
    put_sums(out, search.states.len(), search.tally.tries, depth)?;
    Ok(kept_as(depth))
}

// Writes a broken rule, and the statements that lead there.
fn put_way<T: Sink>(
    out: &mut T,
    moves: &Exploration<'_>,
    rules: &Rules<'_>,
    start: Start,
    broken: Break,
    path: &[Step],
) -> Result<(), JobFault>
    ensures { (x : rule.Exploration) (ts : List Try) → AlikeLists IsMove moves.now.rules.moves.items x.rules.moves
        → StartIs start x → AlikeLists (IsTry x.rules.moves) path.now ts
        → IsPut (sunk T.Sink out.old)
        (broken_text (broken_name rules.now broken) (statements_to (play_of_deck x.lines) ts)) result
        (sunk T.Sink out.new) }
{
    let lead = start.lead_to(begins_cut(path));
    let count = count_of_statements(lead, path)?;
    put_break(out, rules, broken, count)?;
    put_path(out, lead, moves.rules.moves.as_slice(), path)?;
    Ok(())
}

// Writes a broken rule, and the statements that lead there by a last step.
fn report_broken<T: Sink>(
    alloc: Global,
    search: &Search,
    moves: &Exploration<'_>,
    rules: &Rules<'_>,
    start: Start,
    broken: Break,
    last: Step,
    out: &mut T,
) -> Result<Explored, JobFault>
    ensures put { (x : rule.Exploration) (d : Depth) (ns : List Node) (n : Node) (t : Try)
        → AlikeLists IsMove moves.now.rules.moves.items x.rules.moves → StartIs start x → d.rules ≡ x.rules
        → IsFrom d search.now ns n last.before → IsTry d.rules.moves last t
        → IsPut (sunk T.Sink out.old) (broken_text (broken_name rules.now broken)
        (statements_to (play_of_deck x.lines) (reverse (t ∷ n.path)))) result (sunk T.Sink out.new) }
    ensures broken { IfOk result (λ e. e ≡ Explored.Broken) }
{
    let path = search.path(alloc, last)?;
    put_way(out, moves, rules, start, broken, path.as_slice())?;
    Ok(Explored::Broken)
}

/// Writes why a search ended within a depth.
///
/// # Errors
///
/// Returns `NoMemory` if it is out of memory, and `WriteFault` if the sink fails.
pub fn report_halt<T: Sink>(
    alloc: Global,
    search: &Search,
    moves: &Exploration<'_>,
    rules: &Rules<'_>,
    start: Start,
    halt: Halt,
    depth: u32,
    out: &mut T,
) -> Result<Explored, JobFault>
    ensures { (x : rule.Exploration) (d : Depth) (ns : List Node)
        → AlikeLists IsMove moves.now.rules.moves.items x.rules.moves → StartIs start x → d.rules ≡ x.rules
        → ComesTo d ns (Some halt) search.now
        → Reports rules.now search.now (play_of_deck x.lines) x.rules.moves depth halt (sunk T.Sink out.old) result
        (sunk T.Sink out.new) }
{
    match halt {
        Halt::Full => report_kept(search, rules, Some(depth), out),
        Halt::Broken(broken, step) => {
            report_broken(alloc, search, moves, rules, start, broken, step, out)
        }
    }
}

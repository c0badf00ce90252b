// What an exploration writes when it ends, and what it returns.
ghost use Rattle.std.specs.Prelude.{◌≡◌, ◌+◌, ◌≤◌, ◌^◌, ℕ, false, not, ◌&&◌, List, [], ◌∷◌, ◌++◌, reverse, slice_get, Some, IfOk, OnErr};
ghost use Rattle.indexmap.specs.IndexSet.{index_set_len};
ghost use Rattle.law_explore_text.specs.model_play.specs.Play.{State};
ghost use Rattle.law_explore_text.specs.law_explore.specs.Rules as rule;
ghost use Rattle.law_explore_text.specs.law_explore.specs.States.{play_of_deck};
ghost use Rattle.law_explore_text.specs.law_explore.specs.Tries.{Try};
ghost use Rattle.law_explore_text.specs.law_explore.specs.Search.{ending_of, move_statements, path_statements, search_end, statements_to};
ghost use Rattle.law_explore_text.specs.Report.{broken_text, kept_text, statements_text};
ghost use Rattle.law_explore_text.specs.law_explore.specs.Search.{begins_cut, Ending, HaltedRound, Node};
ghost use Rattle.lab_rules.specs.Meanings.{AlikeLists, IsMove};
ghost use Rattle.mc_text.specs.Texts.{sunk, Puts};
ghost use Rattle.lab_search.specs.Kept.{names_in, IsExplorationOf};
ghost use Rattle.lab_search.specs.Reports.{how_text, statement_line};
ghost use Rattle.lab_search.specs.Rounds.{tally_of, Depth, Ends, IsFrom, IsTry};
ghost use Rattle.lab_search.specs.Endings.{explored_as, kept_as, lead_list, lines_of, one_if, text_if};
ghost use Rattle.lab_search.specs.Endings.{Explores, IsExplored, IsPut, StartIs};

use crate::beginning::Lead;
use crate::journey::{Manner, Step};
use crate::report::{count_of_lines, put_broken, put_move, put_silent, put_statement, put_sums};
use crate::rounds::{Halt, Search};
use crate::tally::sum_of;
use lab_branch::push;
use lab_rules::{Exploration, Move};
use mc_script::JobFault;
use mc_streams::{Sink, WriteFault};
use mc_words::NoMemory;
use std::alloc::Global;

/// How an exploration ended: no state is left and no rule is broken; no rule is broken in what it tried, which is not
/// all; or a rule is broken.
#[derive(Clone, Copy, Debug, PartialEq, Eq)]
pub enum Explored {
    All,
    Partial,
    Broken,
}

/// What leads from the end of a deck to the first state, and whether a card runs at that end.
#[derive(Clone, Copy)]
pub struct Start {
    pub lead: Lead,
    pub ran: bool,
}

impl Start {
    /// Returns the lead to a path, by whether its first move is cut: on a card that runs already, the cut takes the place
    /// of a stop that is armed.
    pub fn lead_to(&self, cut: bool) -> Lead
        ensures { result ≡ record {
          armed = self.now.lead.armed && not (self.now.ran && cut);
          power = self.now.lead.power;
        } }
    {
        let is_replaced = self.ran && cut;
        Lead {
            armed: self.lead.armed && !is_replaced,
            power: self.lead.power,
        }
    }
}

/// Returns whether the first step of a path arms a cut.
pub fn begins_cut(path: &[Step]) -> bool
    ensures { (ms : List rule.Move) (ts : List Try) → AlikeLists (IsTry ms) path.now ts → result ≡ begins_cut ts }
{
    match path {
        [first, ..] => first.manner != Manner::Whole,
        [] => false,
    }
}

// How an exploration that broke no rule ends, by the depth at which it ended, if a state is left.
fn kept_as(depth: Option<u32>) -> Explored
    ensures { result ≡ kept_as depth }
{
    match depth {
        None => Explored::All,
        Some(_) => Explored::Partial,
    }
}

/// Returns the number of statements that lead to a broken rule.
///
/// # Errors
///
/// Returns `NoMemory` if there is no room for it.
pub fn count_of_statements(lead: Lead, path: &[Step]) -> Result<u64, NoMemory>
    ensures count { IfOk result (λ count. count ≡ one_if lead.armed + one_if lead.power + lines_of path.now) }
    ensures none { OnErr result (2 ^ 64 ≤ one_if lead.armed + one_if lead.power + lines_of path.now) }
{
    let mut count = u64::from(lead.armed) + u64::from(lead.power);
    for step in path {
        count = sum_of(count, count_of_lines(step.manner))?;
    }
    Ok(count)
}

// Writes a statement, if it is wanted.
fn put_if<T: Sink>(out: &mut T, wanted: bool, statement: &[u8]) -> Result<(), WriteFault>
    ensures { Puts (sunk T.Sink out.old) (text_if wanted (statement_line statement.now)) result
        (sunk T.Sink out.new) }
{
    if !wanted {
        return Ok(());
    }
    put_statement(out, statement)
}

// Writes the statements of a lead.
fn put_lead<T: Sink>(out: &mut T, lead: Lead) -> Result<(), WriteFault>
    ensures { Puts (sunk T.Sink out.old) (statements_text (lead_list lead)) result
        (sunk T.Sink out.new) }
{
    put_if(out, lead.armed, b"apdu 00")?;
    put_if(out, lead.power, b"power")
}

// Writes the statements of a step.
fn put_step<T: Sink>(out: &mut T, moves: &[Move<'_>], step: &Step) -> Result<(), WriteFault>
    ensures { (ms : List rule.Move) (t : Try) → AlikeLists IsMove moves.now ms → IsTry ms step.now t
        → Puts (sunk T.Sink out.old) (statements_text (move_statements t.manner t.move)) result
        (sunk T.Sink out.new) }
{
    match moves.get(step.chosen) {
        Some(chosen) => put_move(out, chosen.text, step.manner),
        None => Ok(()),
    }
}

// Writes the statements of the steps of a path.
fn put_steps<T: Sink>(out: &mut T, moves: &[Move<'_>], path: &[Step]) -> Result<(), WriteFault>
    ensures { (ms : List rule.Move) (ts : List Try) → AlikeLists IsMove moves.now ms → AlikeLists (IsTry ms) path.now ts
        → Puts (sunk T.Sink out.old) (statements_text (path_statements ts)) result
        (sunk T.Sink out.new) }
{
    for step in path {
        put_step(out, moves, step)?;
    }
    Ok(())
}

/// Writes the statements that lead to a broken rule.
///
/// # Errors
///
/// Returns `WriteFault` if the sink fails.
pub fn put_path<T: Sink>(
    out: &mut T,
    lead: Lead,
    moves: &[Move<'_>],
    path: &[Step],
) -> Result<(), WriteFault>
    ensures { (ms : List rule.Move) (ts : List Try) → AlikeLists IsMove moves.now ms → AlikeLists (IsTry ms) path.now ts
        → Puts (sunk T.Sink out.old) (statements_text (lead_list lead ++ path_statements ts)) result
        (sunk T.Sink out.new) }
{
    put_lead(out, lead)?;
    put_steps(out, moves, path)
}

// The name of an allowance by its place.
fn name_of<'a>(exploration: &Exploration<'a>, allowance: usize) -> &'a [u8]
    ensures { (x : rule.Exploration) (name : List ℕ) → IsExplorationOf exploration.now x
        → slice_get (names_in x.rules) allowance ≡ Some name → result.now ≡ name }
{
    match exploration.rules.allowances.get(allowance) {
        Some(allowance) => allowance.name,
        None => b"",
    }
}

// Writes the report of a broken rule.
fn report_broken<T: Sink>(
    out: &mut T,
    exploration: &Exploration<'_>,
    start: Start,
    allowance: usize,
    path: &[Step],
) -> Result<(), JobFault>
    ensures { (x : rule.Exploration) (name : List ℕ) (ts : List Try) → IsExplorationOf exploration.now x
        → StartIs start x
        → slice_get (names_in x.rules) allowance ≡ Some name → AlikeLists (IsTry x.rules.moves) path.now ts
        → IsPut (sunk T.Sink out.old) (broken_text name (statements_to (play_of_deck x.lines) ts)) result
        (sunk T.Sink out.new) }
{
    let lead = start.lead_to(begins_cut(path));
    let count = count_of_statements(lead, path)?;
    put_broken(out, name_of(exploration, allowance), count)?;
    put_path(out, lead, exploration.rules.moves.as_slice(), path)?;
    Ok(())
}

impl Search {
    /// Returns the steps from the first state to the end of a last one, in order.
    ///
    /// # Errors
    ///
    /// Returns `NoMemory` if it is out of memory.
    pub fn path(&self, alloc: Global, last: Step) -> Result<Vec<Step>, NoMemory>
        ensures { IfOk result (λ path. (d : Depth) (ns : List Node) (n : Node) (t : Try)
            → IsFrom d self.now ns n last.before → IsTry d.rules.moves last t
            → AlikeLists (IsTry d.rules.moves) path.items (reverse (t ∷ n.path))) }
    {
        let mut path = Vec::new(alloc);
        push(&mut path, last)?;
        let mut at = last.before.min(self.last_steps.len());
        while at > 0 {
            let step = self.last_steps[at - 1];
            push(&mut path, step)?;
            at = step.before.min(at - 1);
        }
        path.as_mut_slice().reverse();
        Ok(path)
    }

    /// Writes the `on` lines that applied to no try and the sums, with the depth at which the search ended, or `None` if
    /// no state is left.
    ///
    /// # Errors
    ///
    /// Returns `WriteFault` if the sink fails.
    pub fn report_kept<T: Sink>(
        &self,
        exploration: &Exploration<'_>,
        depth: Option<u32>,
        out: &mut T,
    ) -> Result<Explored, JobFault>
        ensures { (x : rule.Exploration) → IsExplorationOf exploration.now x
            → (end : Ending) → explored_as end ≡ kept_as depth → IsExplored (sunk T.Sink out.old)
            (kept_text x.rules.ons (index_set_len self.now.states) (tally_of self.now) (how_text depth)) end result
            (sunk T.Sink out.new) }
    {
        put_silent(
            out,
            exploration.rules.ons.as_slice(),
            self.tally.heard.as_slice(),
        )?;
        put_sums(out, self.states.len(), self.tally.tries, depth)?;
        Ok(kept_as(depth))
    }

    /// Writes why a search ended within a depth.
    ///
    /// # Errors
    ///
    /// Returns `NoMemory` if it is out of memory, and `WriteFault` if the sink fails.
    pub fn report_halt<T: Sink>(
        &self,
        alloc: Global,
        exploration: &Exploration<'_>,
        start: Start,
        halt: Halt,
        depth: u32,
        out: &mut T,
    ) -> Result<Explored, JobFault>
        ensures { (x : rule.Exploration) (most from : ℕ) (ns : List Node) (e : HaltedRound)
            → IsExplorationOf exploration.now x → StartIs start x
            → Ends (record { rules = x.rules; most = most; from = from }) ns e halt self.now
            → Explores x.rules.ons depth (play_of_deck x.lines) (search_end (ending_of e.halt depth) e.count e.tally)
            (sunk T.Sink out.old) result (sunk T.Sink out.new) }
    {
        match halt {
            Halt::Full => self.report_kept(exploration, Some(depth), out),
            Halt::Broken(allowance, step) => {
                let path = self.path(alloc, step)?;
                report_broken(out, exploration, start, allowance, path.as_slice())?;
                Ok(Explored::Broken)
            }
        }
    }
}

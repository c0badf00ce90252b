// The tries of a depth: each move from each state.
ghost use Rattle.std.specs.Prelude.{◌≡◌, ◌≤◌, IfOk, length, List};
ghost use Rattle.law_histories.specs.law_explore.specs.Search.{Node};
ghost use Rattle.lab_search.specs.Rounds.{Depth, Holds, IsFrom};
ghost use Rattle.lab_application.specs.Finding.{CanTryAll, CanTryFrom, ComesTo};
ghost use Rattle.lab_application.specs.Shadows.{AreShadows};

use crate::attempts::{Attempt, Halt};
use crate::courses::course_of;
use lab_record::Subject;
use lab_rules::Exploration;
use lab_search::{Candidate, Search};
use mc_words::{NoMemory, Steps};
use std::alloc::Global;
use std::sync::ledger::Ledger;

// Tries a move from a state.
fn try_move<L: Ledger>(
    alloc: Global,
    search: &mut Search,
    moves: &Exploration<'_>,
    subject: Subject<'_>,
    chosen: usize,
    before: usize,
    steps: &mut Steps<L>,
) -> Result<Option<Halt>, NoMemory>
    requires { CanTryAll search.old moves.now.rules before }
    ensures { IfOk result (λ h. (d : Depth) (ns : List Node) (n : Node) → IsFrom d search.old ns n before
        → AreShadows moves.now.rules d.rules → ComesTo d ns h search.new) }
{
    let all = moves.rules.moves.as_slice();
    if chosen >= all.len() {
        return Ok(None);
    }
    let listed = &all[chosen];
    let (course, fixed) = course_of(alloc, search, subject, listed, before, steps)?;
    let candidate = Candidate {
        chosen: listed,
        ons: moves.rules.ons.as_slice(),
        applies: &[true],
    };
    let attempt = Attempt {
        alloc,
        subject,
        candidate: &candidate,
        before,
        chosen,
        course: &course,
        fixed: &fixed,
    };
    attempt.try_all(search, steps)
}

// Tries each move from a state.
fn try_moves<L: Ledger>(
    alloc: Global,
    search: &mut Search,
    moves: &Exploration<'_>,
    subject: Subject<'_>,
    before: usize,
    steps: &mut Steps<L>,
) -> Result<Option<Halt>, NoMemory>
    requires { CanTryAll search.old moves.now.rules before }
    ensures { IfOk result (λ h. (d : Depth) (ns : List Node) (n : Node) → IsFrom d search.old ns n before
        → AreShadows moves.now.rules d.rules → ComesTo d ns h search.new) }
{
    for chosen in 0..moves.rules.moves.len() {
        let halt = try_move(alloc, search, moves, subject, chosen, before, steps)?;
        if halt.is_some() {
            return Ok(halt);
        }
    }
    Ok(None)
}

/// Tries each move from each of the states `from..to`, and returns what ends the search.
///
/// # Errors
///
/// Returns `NoMemory` if it is out of memory, and if there is no room for the number of tries.
pub fn try_states<L: Ledger>(
    alloc: Global,
    search: &mut Search,
    moves: &Exploration<'_>,
    subject: Subject<'_>,
    from: usize,
    to: usize,
    steps: &mut Steps<L>,
) -> Result<Option<Halt>, NoMemory>
    requires { CanTryFrom search.old moves.now.rules from to }
    ensures { IfOk result (λ h. (d : Depth) (ns : List Node) → Holds d search.old ns → from ≤ to → to ≡ length ns
        → AreShadows moves.now.rules d.rules → ComesTo d ns h search.new) }
{
    for before in from..to {
        let halt = try_moves(alloc, search, moves, subject, before, steps)?;
        if halt.is_some() {
            return Ok(halt);
        }
    }
    Ok(None)
}

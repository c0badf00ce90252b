// What happens to an application while a move is made whole from a state.
ghost use Rattle.std.specs.Prelude.{◌≡◌, length, List, OnOk, true};
ghost use Rattle.law_histories.specs.law_explore.specs.Search.{Node};
ghost use Rattle.mc_deck.specs.Lines.{line_of, GoodLine};
ghost use Rattle.law_histories.specs.model_play.specs.Play.{start};
ghost use Rattle.mc_script.specs.Players.{device_of};
ghost use Rattle.mc_script.specs.Benches.{IsPlayerAt};
ghost use Rattle.lab_key.specs.Shown.{ShowsSome};
ghost use Rattle.lab_search.specs.Kept.{root_of};
ghost use Rattle.lab_search.specs.Rounds.{Depth, IsFrom};
ghost use Rattle.lab_application.specs.Finding.{IsKept, IsSameSearch};

use crate::statics::statics_in;
use lab_history::Course;
use lab_key::{CardState, Rosters};
use lab_record::{Subject, play_recorded};
use lab_rules::Move;
use lab_search::{Budget, Laboratory, Search, put_card, restore};
use mc_deck::Line;
use mc_nvm::Bench;
use mc_script::{Live, Player};
use mc_words::{NoMemory, Steps};
use std::alloc::Global;
use std::sync::ledger::Ledger;

// Plays a line on a player before its first line from the card that its device shows, and returns what happens to the
// application.
fn course_on<N: Bench, L: Ledger>(
    alloc: Global,
    player: &mut Player<N>,
    budget: &Budget,
    live: &Live,
    line: &Line<'_>,
    subject: Subject<'_>,
    steps: &mut Steps<L>,
) -> Result<Course, NoMemory>
    requires start { IsPlayerAt N.Bench player.old (start (N.state (device_of player.old)).words) }
    requires steady { (N.bench (device_of player.old)).steady ≡ true }
    requires shown { ShowsSome (N.state (device_of player.old)).words live.now }
    requires good { GoodLine (line_of line.now) }
    ensures keeps_device { N.same (device_of player.old) (device_of player.new) }
{
    restore(player, budget, live, steps);
    Ok(play_recorded(alloc, player, line, subject, steps)?.course)
}

// What happens to the application while a move is made whole from a state, and its static bytes before it, if it is there.
fn course_in<L: Ledger>(
    alloc: Global,
    laboratory: &mut Laboratory,
    rosters: &Rosters,
    state: &CardState,
    subject: Subject<'_>,
    chosen: &Move<'_>,
    steps: &mut Steps<L>,
) -> Result<(Course, Option<Vec<u8>>), NoMemory>
    requires { IsKept laboratory.old rosters.now state.now }
    ensures root { OnOk result (root_of laboratory.new ≡ root_of laboratory.old) }
    ensures budget { OnOk result (laboratory.new.budget ≡ laboratory.old.budget) }
    ensures counts { OnOk result (length laboratory.new.counts.items ≡ length laboratory.old.counts.items) }
{
    let fixed = statics_in(alloc, laboratory, rosters, state, subject.aid)?;
    let Some(saved) = rosters.saved(state.card) else {
        unreachable!()
    };
    put_card(&mut *laboratory.player, saved);
    let course = course_on(
        alloc,
        &mut *laboratory.player,
        &laboratory.budget,
        saved.live,
        &chosen.line(),
        subject,
        steps,
    )?;
    Ok((course, fixed))
}

/// Returns what happens to the application while a move is made whole from the state with a number, and its static bytes
/// before it, or `None` if it is not there.
///
/// # Errors
///
/// Returns `NoMemory` if it is out of memory.
pub fn course_of<L: Ledger>(
    alloc: Global,
    search: &mut Search,
    subject: Subject<'_>,
    chosen: &Move<'_>,
    before: usize,
    steps: &mut Steps<L>,
) -> Result<(Course, Option<Vec<u8>>), NoMemory>
    requires { (d : Depth) × (ns : List Node) × (n : Node) × IsFrom d search.old ns n before }
    ensures { OnOk result (IsSameSearch search.old search.new) }
{
    let Some(state) = search.states.get_index(before) else {
        unreachable!()
    };
    course_in(
        alloc,
        &mut search.laboratory,
        &search.rosters,
        state,
        subject,
        chosen,
        steps,
    )
}

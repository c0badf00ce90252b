// The places at which frames begin.
ghost use Rattle.std.specs.Prelude.{◌≡◌, ℕ, true, List, map, IfOk};
ghost use Rattle.std.specs.List.{AllByRecursion};
ghost use Rattle.prove_facts.specs.model_prove.specs.Arrivals.{Setting};
ghost use Rattle.prove_facts.specs.model_prove.specs.Tables.{moments_closed};
ghost use Rattle.prove_facts.specs.model_rules.specs.Rules.{Total};
ghost use Rattle.prove_sums.specs.model_sums.specs.Closed.{all_pass, has_sums, starts_closed};
ghost use Rattle.prove_sums.specs.model_sums.specs.Sums.{SumsTable, first_known, sums_at};
ghost use Rattle.prove_arrivals.specs.Subjects.{tables_in};
ghost use Rattle.prove_arrivals.specs.declared.subject.Subject.{Subject};
ghost use Rattle.lab_app_rules.specs.Rules.{range_of};
ghost use Rattle.prove_patterns.specs.Classes.{class_values};
ghost use Rattle.lab_app_rules.specs.Sums.{AreTotals};
ghost use Rattle.prove_sum_steps.specs.Places.{IsStand, near_in, table_in};
ghost use Rattle.prove_sum_steps.specs.Tables.{IsGoal, goal_key};
ghost use Rattle.prove_sums.specs.Values.{SumsAre};

use crate::goals::{Goal, goals_of};
use crate::near::set_places;
use crate::places::{Stand, with_tables};
use lab_app_rules::Balance;
use model_device::NoMemory;
use prove_closed::moments_closed;
use prove_keys::Tables;
use prove_patterns::Class;
use prove_sums::Sums;
use std::alloc::Global;

// Whether what may follow each moment leads to places of some tables.
fn moments_lead_within(
    alloc: Global,
    stand: &Stand<'_>,
    near: &Tables,
    classes: &[Class],
) -> Result<bool, NoMemory>
    ensures { IfOk result (λ holds. holds ≡ true → (names : List (List ℕ)) (s : Setting) → IsStand names s stand.now
        → s.rules.ranges ≡ map range_of stand.now.rules.now.always.items
        → moments_closed s (class_values classes.now) (near_in names stand.now.subject.now near.now)
        (tables_in names stand.now.subject.now).moments ≡ true) }
{
    let Some(subject) = with_tables(stand.subject, stand.rules, near) else {
        return Ok(false);
    };
    let lines = stand.rules.always.as_slice();
    let keys = stand.subject.tables.moments.as_slice();
    let facts = stand.subject.tables.facts.as_slice();
    let holds = moments_closed(alloc, &subject, classes, lines, keys, facts)?;
    Ok(holds)
}

// Whether the table says no more at a place than what is known as a frame begins.
fn first_follows(
    alloc: Global,
    balances: &[Balance],
    first: &Sums,
    goal: &Goal<'_>,
) -> Result<bool, NoMemory>
    ensures { IfOk result (λ holds. holds ≡ true → (names sums : List (List ℕ)) (ts : List Total) (u : SumsTable)
        (j : Subject) → AreTotals sums ts balances.now → SumsAre first.now (first_known ts) → IsGoal names j u goal.now
        → has_sums ts (first_known ts) (sums_at u (goal_key names j goal.now)) ≡ true) }
{
    goal.sums.fits();
    let holds = first.follows(alloc, balances, goal.sums)?;
    Ok(holds)
}

// Whether the table says no more at some places than what is known as a frame begins.
fn all_follow(
    alloc: Global,
    balances: &[Balance],
    first: &Sums,
    goals: &[Goal<'_>],
) -> Result<bool, NoMemory>
    ensures { IfOk result (λ holds. holds ≡ true → (names sums : List (List ℕ)) (ts : List Total) (u : SumsTable)
        (j : Subject) → AreTotals sums ts balances.now → SumsAre first.now (first_known ts)
        → AllByRecursion (IsGoal names j u) goals.now
        → all_pass (λ g. has_sums ts (first_known ts) (sums_at u (goal_key names j g))) goals.now ≡ true) }
{
    for goal in goals {
        if !first_follows(alloc, balances, first, goal)? {
            return Ok(false);
        }
    }
    Ok(true)
}

// Whether the table says no more at the places of some tables than what is known as a frame begins, if what may follow
// the moments leads to these.
fn starts_follow(
    alloc: Global,
    stand: &Stand<'_>,
    near: &Tables,
    classes: &[Class],
) -> Result<bool, NoMemory>
    ensures { IfOk result (λ holds. holds ≡ true → (names : List (List ℕ)) (s : Setting) → IsStand names s stand.now
        → s.rules.ranges ≡ map range_of stand.now.rules.now.always.items
        → starts_closed s (class_values classes.now) (table_in names stand.now)
        (tables_in names stand.now.subject.now).moments ≡ true) }
{
    if !moments_lead_within(alloc, stand, near, classes)? {
        return Ok(false);
    }
    let balances = stand.rules.balances.as_slice();
    let first = Sums::first(alloc, balances)?;
    match goals_of(alloc, stand.subject, stand.sums, near.places.as_slice())? {
        Some(goals) => {
            let holds = all_follow(alloc, balances, &first, goals.as_slice())?;
            Ok(holds)
        }
        None => Ok(false),
    }
}

/// Returns whether the table says no more at any place at which a frame begins than what is known then: `begun` has the
/// numbers of these places, and `scratch` is for tables of these.
///
/// # Errors
///
/// Returns `NoMemory` if it is out of memory.
pub fn starts_hold(
    alloc: Global,
    stand: &Stand<'_>,
    scratch: &mut Tables,
    classes: &[Class],
    begun: &[usize],
) -> Result<bool, NoMemory>
    ensures { IfOk result (λ holds. holds ≡ true → (names : List (List ℕ)) (s : Setting) → IsStand names s stand.now
        → s.rules.ranges ≡ map range_of stand.now.rules.now.always.items
        → starts_closed s (class_values classes.now) (table_in names stand.now)
        (tables_in names stand.now.subject.now).moments ≡ true) }
{
    let keys = stand.subject.tables.places.as_slice();
    set_places(alloc, scratch, keys, begun)?;
    let holds = starts_follow(alloc, stand, scratch, classes)?;
    Ok(holds)
}

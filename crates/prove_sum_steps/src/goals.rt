// The places to which an instruction may lead, with what a table of sums has there.
ghost use Rattle.std.specs.Prelude.{◌≡◌, ◌<◌, ℕ, Bool, List, length, get_or, map, IfOk, IfSome, Some};
ghost use Rattle.std.specs.List.{AllByRecursion};
ghost use Rattle.prove_facts.specs.model_prove.specs.Arrivals.{Setting};
ghost use Rattle.prove_sums.specs.model_sums.specs.Sums.{sums_at};
ghost use Rattle.prove_arrivals.specs.Subjects.{IsSubject};
ghost use Rattle.prove_keys.specs.Keys.{place_of};
ghost use Rattle.prove_keys.specs.Tables.{AreDistinct, AreWhole, IsWholePlace};
ghost use Rattle.prove_sum_steps.specs.Tables.{IsGoal, sums_in, sums_of};
ghost use Rattle.prove_sums.specs.Values.{sums_value};

use model_device::NoMemory;
use prove_arrivals::Subject;
use prove_facts::push;
use prove_keys::{PlaceKey, Tables};
use prove_sums::Sums;
use std::alloc::Global;

/// A place to which an instruction may lead, with what a table of sums has there.
#[derive(Clone, Copy)]
pub struct Goal<'a> {
    pub key: &'a PlaceKey,
    pub sums: &'a Sums,
}

// The element with a number, if the list has it.
fn item<T>(list: &[T], number: usize) -> Option<&T>
    ensures { IfSome result (λ x. (number < length list.now) × (x.now ≡ get_or list.now number x.now)) }
{
    if number < list.len() {
        Some(&list[number])
    } else {
        None
    }
}

/// Returns what is known for sums at a place of tables, if they have the place; `sums` has it for each place.
pub fn sums_at<'a>(tables: &Tables, sums: &'a [Sums], key: &PlaceKey) -> Option<&'a Sums>
    ensures { (names : List (List ℕ)) (classes : List (List Bool))
        → AreWhole (length names) (length classes) tables.now → AreDistinct classes → IfSome result (λ known.
        IsWholePlace (length names) (length classes) key.now
        × (sums_at (sums_of names classes tables.now.places.keys sums.now) (place_of names classes key.now)
        ≡ Some (sums_value known.now))) }
{
    let index = tables.places.get_index_of(key)?;
    item(sums, index)
}

// A place of the tables of a subject with what is known for sums there.
fn goal_of<'a>(subject: &Subject<'_>, sums: &'a [Sums], key: &'a PlaceKey) -> Option<Goal<'a>>
    ensures key { IfSome result (λ goal. goal.key.now ≡ key.now) }
    ensures known { IfSome result (λ goal. (names : List (List ℕ)) (s : Setting) → IsSubject names s subject.now
        → IsGoal names subject.now (sums_in names subject.now sums.now) goal) }
{
    let known = sums_at(subject.tables, sums, key)?;
    Some(Goal { key, sums: known })
}

/// Returns some places of the tables of a subject with what is known for sums there, or `None` if the tables have not
/// all of them.
///
/// # Errors
///
/// Returns `NoMemory` if it is out of memory.
pub fn goals_of<'a>(
    alloc: Global,
    subject: &Subject<'_>,
    sums: &'a [Sums],
    keys: &'a [PlaceKey],
) -> Result<Option<Vec<Goal<'a>>>, NoMemory>
    ensures keys { IfOk result (λ r. IfSome r (λ goals. map (λ g. g.key.now) goals.items ≡ keys.now)) }
    ensures known { IfOk result (λ r. IfSome r (λ goals. (names : List (List ℕ)) (s : Setting)
        → IsSubject names s subject.now
        → AllByRecursion (IsGoal names subject.now (sums_in names subject.now sums.now)) goals.items)) }
{
    let mut goals = Vec::new(alloc);
    for key in keys {
        match goal_of(subject, sums, key) {
            Some(goal) => push(&mut goals, goal)?,
            None => return Ok(None),
        }
    }
    Ok(Some(goals))
}

// Whether a table of sums is closed beside tables of facts.
ghost use Rattle.std.specs.Prelude.{◌≡◌, true, map, IfOk};
ghost use Rattle.prove_facts.specs.model_prove.specs.Between as between;
ghost use Rattle.prove_facts.specs.model_rules.specs.Rules.{AppRules, Target};
ghost use Rattle.prove_sums.specs.model_sums.specs.Closed.{sums_closed};
ghost use Rattle.prove_sums.specs.model_sums.specs.Sums.{SumsTable};
ghost use Rattle.prove_arrivals.specs.Subjects.{IsSubject, tables_in};
ghost use Rattle.prove_closed.specs.Classes.{lists_of};
ghost use Rattle.lab_app_rules.specs.Rules.{AreRules, name_of};
ghost use Rattle.prove_keys.specs.Tables.{tables_of};
ghost use Rattle.prove_patterns.specs.Classes.{class_values};
ghost use Rattle.prove_patterns.specs.Replies.{IsPrepared};
ghost use Rattle.lab_app_rules.specs.Sums.{AreSums};
ghost use Rattle.prove_sum_steps.specs.Tables.{sums_in};

use crate::near::moments_alone;
use crate::places::{Stand, places_hold};
use crate::starts::starts_hold;
use crate::totals::totals_hold;
use lab_app_rules::Rules;
use model_device::NoMemory;
use prove_arrivals::Subject;
use prove_closed::{classes_of, replies_of, subject_of};
use prove_keys::Tables;
use prove_patterns::{Class, Replies};
use prove_sums::Sums;
use std::alloc::Global;

// Whether the table of sums is closed, with the classes of commands of the definition.
fn stand_closed(
    alloc: Global,
    stand: &Stand<'_>,
    classes: &[Class],
    near: &[Vec<usize>],
    begun: &[usize],
) -> Result<bool, NoMemory>
    ensures { IfOk result (λ holds. holds ≡ true → (a : AppRules) (g : Target) → AreRules a g stand.now.rules.now
        → AreSums a stand.now.rules.now
        → IsSubject (map name_of stand.now.rules.now.allowances.items) (record { rules = a; app = g.app })
        stand.now.subject.now
        → class_values classes.now ≡ between.classes a
        → sums_closed (record { rules = a; app = g.app })
        (tables_in (map name_of stand.now.rules.now.allowances.items) stand.now.subject.now)
        (sums_in (map name_of stand.now.rules.now.allowances.items) stand.now.subject.now stand.now.sums.now) ≡ true) }
{
    if !totals_hold(alloc, stand.rules)? {
        return Ok(false);
    }
    let mut scratch = moments_alone(alloc, stand.subject.tables)?;
    if !starts_hold(alloc, stand, &mut scratch, classes, begun)? {
        return Ok(false);
    }
    let holds = places_hold(alloc, stand, &mut scratch, near)?;
    Ok(holds)
}

// Whether it is, beside the tables of a subject.
fn subject_closed(
    alloc: Global,
    subject: &Subject<'_>,
    rules: &Rules<'_>,
    sums: &[Sums],
    near: &[Vec<usize>],
    begun: &[usize],
) -> Result<bool, NoMemory>
    ensures { IfOk result (λ holds. holds ≡ true → (a : AppRules) (g : Target) → AreRules a g rules.now
        → AreSums a rules.now
        → IsSubject (map name_of rules.now.allowances.items) (record { rules = a; app = g.app }) subject.now
        → sums_closed (record { rules = a; app = g.app })
        (tables_in (map name_of rules.now.allowances.items) subject.now)
        (sums_in (map name_of rules.now.allowances.items) subject.now sums.now) ≡ true) }
{
    let stand = Stand {
        subject,
        rules,
        sums,
    };
    match classes_of(alloc, rules)? {
        Some(found) => {
            let holds = stand_closed(alloc, &stand, found.as_slice(), near, begun)?;
            Ok(holds)
        }
        None => Ok(false),
    }
}

// Whether it is, with what is prepared of the patterns of results.
fn closed_with(
    alloc: Global,
    rules: &Rules<'_>,
    tables: &Tables,
    numbers: &[Vec<bool>],
    replies: &Replies<'_>,
    sums: &[Sums],
    near: &[Vec<usize>],
    begun: &[usize],
) -> Result<bool, NoMemory>
    ensures { IfOk result (λ holds. holds ≡ true → (a : AppRules) (g : Target) → AreRules a g rules.now
        → AreSums a rules.now → IsPrepared a replies.now → (u : SumsTable)
        × (sums_closed (record { rules = a; app = g.app })
        (tables_of (map name_of rules.now.allowances.items) (lists_of numbers.now) rules.now.load.fixed tables.now)
        u ≡ true)) }
{
    let Some(subject) = subject_of(rules, tables, numbers, replies) else {
        return Ok(false);
    };
    let holds = subject_closed(alloc, &subject, rules, sums, near, begun)?;
    Ok(holds)
}

/// Returns whether a table of sums is closed beside tables of facts: `sums` has what is known for sums at each of their
/// places, `near` for each place the numbers of those to which its instruction leads, and `begun` the numbers of those
/// at which frames begin. The lists need not be right: if one lacks a place, `false` is returned.
///
/// # Errors
///
/// Returns `NoMemory` if it is out of memory.
pub fn sums_are_closed(
    alloc: Global,
    rules: &Rules<'_>,
    tables: &Tables,
    numbers: &[Vec<bool>],
    sums: &[Sums],
    near: &[Vec<usize>],
    begun: &[usize],
) -> Result<bool, NoMemory>
    // There is a table of sums that is closed beside the tables that the definition sees, for every application with
    // these rules.
    ensures { IfOk result (λ holds. holds ≡ true → (a : AppRules) (g : Target) → AreRules a g rules.now
        → AreSums a rules.now → (u : SumsTable)
        × (sums_closed (record { rules = a; app = g.app })
        (tables_of (map name_of rules.now.allowances.items) (lists_of numbers.now) rules.now.load.fixed tables.now)
        u ≡ true)) }
{
    match replies_of(alloc, rules)? {
        Some(replies) => {
            let holds = closed_with(alloc, rules, tables, numbers, &replies, sums, near, begun)?;
            Ok(holds)
        }
        None => Ok(false),
    }
}

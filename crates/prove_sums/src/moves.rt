// What is known for sums after a row.
ghost use Rattle.std.specs.Prelude.{ℕ, List, IfOk, IfSome};
ghost use Rattle.prove_facts.specs.model_prove.specs.Keys.{PlaceKey};
ghost use Rattle.prove_facts.specs.model_rules.specs.Rules.{Total};
ghost use Rattle.prove_facts.specs.model_prove.specs.Work as work;
ghost use Rattle.prove_forms.specs.model_sums.specs.Moves as moves;
ghost use Rattle.prove_forms.specs.model_sums.specs.Sums as sums;
ghost use Rattle.prove_forms.specs.model_sums.specs.Writes as writes;
ghost use Rattle.lab_app_rules.specs.Sums.{AreTotals};
ghost use Rattle.prove_scenes.specs.ShapeValues.{shape_value};
ghost use Rattle.prove_scenes.specs.Works.{work_value};
ghost use Rattle.prove_sums.specs.Values.{IsBefore, SumsAre};

use crate::acts::{acted_popped, acted_unknown, own_origins};
use crate::values::{Before, Sums};
use crate::works::{copied, worked};
use lab_app_rules::Balance;
use mc_arith::model_machine::Ins;
use model_device::NoMemory;
use prove_scenes::{Shape, Work};
use std::alloc::Global;

// What is known after a row that does what its shape says.
fn shaped(
    alloc: Global,
    balances: &[Balance],
    before: &Before,
    ins: &Ins,
    shape: &Shape,
    known: &Sums,
) -> Result<Option<Sums>, NoMemory>
    ensures { IfOk result (λ found. IfSome found (λ after. (names : List (List ℕ)) (ts : List Total) (k : PlaceKey)
        (u : sums.Sums) → AreTotals names ts balances.now → IsBefore k before.now → SumsAre known.now u
        → SumsAre after (moves.moved ts k ins.now (shape_value shape.now) work.AsShaped u))) }
{
    let bytes = own_origins(alloc, ins, &shape.act, &known.origins, before.dt)?;
    let after = acted_popped(alloc, balances, before, shape, bytes.as_slice(), known)?;
    Ok(after)
}

// What is known after a search.
fn searched(alloc: Global, balances: &[Balance], dt: u16, known: &Sums) -> Result<Sums, NoMemory>
    ensures { IfOk result (λ after. (names : List (List ℕ)) (ts : List Total) (u : sums.Sums)
        → AreTotals names ts balances.now → SumsAre known.now u
        → SumsAre after (writes.wrote_any ts dt 1 (writes.popped dt u))) }
{
    let low = known.popped(alloc, dt)?;
    let after = low.lost(alloc, balances, dt, 1)?;
    Ok(after)
}

/// Returns what is known after a row, by its shape and by what it works on, of a place with these registers before it.
/// `None` is returned if bytes go past the last address.
///
/// # Errors
///
/// Returns `NoMemory` if it is out of memory.
pub fn moved(
    alloc: Global,
    balances: &[Balance],
    before: &Before,
    ins: &Ins,
    shape: &Shape,
    work: &Work,
    known: &Sums,
) -> Result<Option<Sums>, NoMemory>
    ensures { IfOk result (λ found. IfSome found (λ after. (names : List (List ℕ)) (ts : List Total) (k : PlaceKey)
        (u : sums.Sums) → AreTotals names ts balances.now → IsBefore k before.now → SumsAre known.now u
        → SumsAre after (moves.moved ts k ins.now (shape_value shape.now) (work_value work.now) u))) }
{
    let dt = shape.dt;
    match work {
        Work::AsShaped => shaped(alloc, balances, before, ins, shape, known),
        Work::Copies { from } => copied(alloc, balances, before, shape, *from, known),
        Work::Works(digitwise) => Ok(Some(worked(alloc, balances, dt, digitwise, known)?)),
        Work::Searches { .. } => Ok(Some(searched(alloc, balances, dt, known)?)),
        Work::AnyZ => Ok(Some(known.popped(alloc, dt)?)),
        Work::Counted => Ok(acted_unknown(alloc, balances, before, shape, known)?),
        Work::NoFact => Ok(acted_unknown(alloc, balances, before, shape, known)?),
    }
}

// What follows a row that exits.
ghost use Rattle.std.specs.Prelude.{◌≡◌, ℕ, true, List, [], cond, IfOk};
ghost use Rattle.mc_arith.specs.model_machine.specs.declared.instruction.Ins.{Ins};
ghost use Rattle.prove_facts.specs.model_prove.specs.Arrivals as arrivals;
ghost use Rattle.prove_facts.specs.model_prove.specs.Arrivals.{Setting};
ghost use Rattle.prove_facts.specs.model_prove.specs.Facts.{values_at};
ghost use Rattle.prove_facts.specs.model_prove.specs.Steps as steps;
ghost use Rattle.prove_patterns.specs.Lengths.{lengths_value};
ghost use Rattle.prove_scenes.specs.ShapeValues.{next_value};
ghost use Rattle.prove_arrivals.specs.Following.{IsText, spot_after, spot_before, turned_arrivals};
ghost use Rattle.prove_arrivals.specs.Replying.{long_arrivals};
ghost use Rattle.prove_arrivals.specs.Subjects.{Accepts, IsOver};

use crate::endings::fails;
use crate::replies::LENGTH;
use crate::subject::Subject;
use crate::turns::{Row, turned};
use mc_arith::model_machine::Abend;
use model_device::NoMemory;
use prove_keys::Begun;
use prove_patterns::{Lengths, lengths_of};
use prove_scenes::Next;
use prove_spots::Spot;
use std::alloc::Global;

// The lengths of a reply that are possible.
fn lengths_at(spot: &Spot) -> Lengths
    ensures { lengths_value result
        ≡ arrivals.lengths_of (values_at spot.now.bytes 0xC40D) (values_at spot.now.bytes 0xC40E) }
{
    let bytes = spot.bytes();
    let high = bytes.at(LENGTH);
    let low = bytes.at(LENGTH + 1);
    lengths_of(&high, &low)
}

// Whether the tables include the abend of a reply that may be too long.
fn long_included(
    alloc: Global,
    subject: &Subject<'_>,
    row: &Row<'_>,
    amounts: &[u32],
    too_long: bool,
) -> Result<bool, NoMemory>
    ensures { IfOk result (λ holds. holds ≡ true → (names : List (List ℕ)) (s : Setting)
        → IsOver names s subject.now amounts.now → Accepts names subject.now
        (long_arrivals s too_long (spot_before names subject.now row.now amounts.now))) }
{
    if !too_long {
        return Ok(true);
    }
    fails(alloc, subject, row.begun, amounts, row.before, Abend::A09)
}

// Whether the tables include the answers of a reply that may fit.
fn fitting_included(
    alloc: Global,
    subject: &Subject<'_>,
    row: &Row<'_>,
    amounts: &[u32],
    fitting: bool,
    after: &Spot,
) -> Result<bool, NoMemory>
    ensures { IfOk result (λ holds. holds ≡ true → (names : List (List ℕ)) (s : Setting) (i : Ins)
        → IsOver names s subject.now amounts.now → IsText row.now i → Accepts names subject.now
        (cond fitting (turned_arrivals names s i subject.now row.now amounts.now after.now) [])) }
{
    if !fitting {
        return Ok(true);
    }
    turned(alloc, subject, row, amounts, after)
}

// Whether the tables include an exit of a command.
fn command_exits(
    alloc: Global,
    subject: &Subject<'_>,
    row: &Row<'_>,
    amounts: &[u32],
    after: &Spot,
) -> Result<bool, NoMemory>
    ensures { IfOk result (λ holds. holds ≡ true → (number : ℕ) → row.now.begun ≡ Begun.Class number
        → row.now.next ≡ Next.Exits → (names : List (List ℕ)) (s : Setting) (i : Ins)
        → IsOver names s subject.now amounts.now → IsText row.now i → Accepts names subject.now
        (steps.follows s i row.now.writes (next_value row.now.next) (spot_before names subject.now row.now amounts.now)
        (spot_after names subject.now row.now amounts.now after.now))) }
{
    let lengths = lengths_at(after);
    if !long_included(alloc, subject, row, amounts, lengths.too_long)? {
        return Ok(false);
    }
    let holds = fitting_included(alloc, subject, row, amounts, lengths.fitting, after)?;
    Ok(holds)
}

/// Returns whether the tables include an exit of a frame, of a row that exits.
///
/// # Errors
///
/// Returns `NoMemory` if it is out of memory.
pub fn exits(
    alloc: Global,
    subject: &Subject<'_>,
    row: &Row<'_>,
    amounts: &[u32],
    after: &Spot,
) -> Result<bool, NoMemory>
    ensures { IfOk result (λ holds. holds ≡ true → row.now.next ≡ Next.Exits
        → (names : List (List ℕ)) (s : Setting) (i : Ins)
        → IsOver names s subject.now amounts.now → IsText row.now i → Accepts names subject.now
        (steps.follows s i row.now.writes (next_value row.now.next) (spot_before names subject.now row.now amounts.now)
        (spot_after names subject.now row.now amounts.now after.now))) }
{
    match row.begun {
        Begun::Delegated => turned(alloc, subject, row, amounts, after),
        Begun::Class(_) => {
            let holds = command_exits(alloc, subject, row, amounts, after)?;
            Ok(holds)
        }
    }
}

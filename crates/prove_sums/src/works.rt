// What is known for sums after bytes were copied, and after an operation.
ghost use Rattle.std.specs.Prelude.{◌≡◌, ℕ, true, false, List, Option, None, IfOk, IfSome};
ghost use Rattle.mc_arith.specs.model_machine.specs.Shapes as shapes;
ghost use Rattle.prove_facts.specs.model_prove.specs.Keys.{PlaceKey};
ghost use Rattle.prove_facts.specs.model_rules.specs.Rules.{Total};
ghost use Rattle.prove_forms.specs.model_sums.specs.Forms as forms;
ghost use Rattle.prove_forms.specs.model_sums.specs.Moves as moves;
ghost use Rattle.prove_forms.specs.model_sums.specs.Operations as operations;
ghost use Rattle.prove_forms.specs.model_sums.specs.Origins as model;
ghost use Rattle.prove_forms.specs.model_sums.specs.Sums as sums;
ghost use Rattle.prove_forms.specs.model_sums.specs.Writes as writes;
ghost use Rattle.prove_forms.specs.Forms.{OptionalIs};
ghost use Rattle.prove_forms.specs.Origins.{origins_value};
ghost use Rattle.lab_app_rules.specs.Sums.{AreTotals};
ghost use Rattle.prove_scenes.specs.ShapeValues.{act_value, shape_value};
ghost use Rattle.prove_scenes.specs.Works.{digitwise_value, operand_value, operation_value};
ghost use Rattle.prove_sums.specs.Values.{IsBefore, SumsAre};

use crate::acts::{acted_unknown, origins_from};
use crate::numbers::number_form;
use crate::optional::negative_if;
use crate::stack::{is_total_block, more_of};
use crate::values::{Before, Sums};
use crate::writes::unknowns;
use lab_app_rules::Balance;
use model_device::NoMemory;
use prove_forms::{Form, Origins, form_of};
use prove_scenes::{Act, Digitwise, Operand, Operation, Shape};
use std::alloc::Global;

// What an operand is, if it is known.
fn form_of_operand(
    alloc: Global,
    origins: &Origins,
    n: u16,
    operand: &Operand,
) -> Result<Option<Form>, NoMemory>
    ensures { IfOk result (λ form. OptionalIs form
        (operations.form_of_operand (origins_value origins.now) n (operand_value operand.now))) }
{
    match operand {
        Operand::AtAddress(at) => {
            let bytes = origins_from(alloc, origins, *at, n)?;
            form_of(alloc, bytes.as_slice())
        }
        Operand::These(bytes) => Ok(Some(number_form(alloc, bytes.as_slice()))),
    }
}

// By how much an operation moves its first operand.
fn moved_by(
    alloc: Global,
    op: Operation,
    n: u16,
    form: Option<Form>,
) -> Result<Option<Form>, NoMemory>
    ensures { IfOk result (λ by. (f : Option forms.Form) → OptionalIs form f
        → OptionalIs by (operations.moved_by (operation_value op) n f)) }
{
    match op {
        Operation::Plus => Ok(form),
        Operation::Minus => negative_if(alloc, n, &form),
        _ => Ok(None),
    }
}

// What is known after the result of an operation was written.
fn operation_written(
    alloc: Global,
    balances: &[Balance],
    digitwise: &Digitwise,
    known: &Sums,
) -> Result<Sums, NoMemory>
    ensures { IfOk result (λ after. (names : List (List ℕ)) (ts : List Total) (u : sums.Sums)
        → AreTotals names ts balances.now → SumsAre known.now u
        → SumsAre after (moves.operated true ts (digitwise_value digitwise.now) u)) }
{
    let n = digitwise.n;
    let operand = form_of_operand(alloc, &known.origins, n, &digitwise.operand)?;
    let by = moved_by(alloc, digitwise.op, n, operand)?;
    let bytes = unknowns(alloc, n)?;
    let after = known.written(alloc, balances, digitwise.at, bytes.as_slice(), &by)?;
    Ok(after)
}

/// Returns what is known after an operation, with DT at most a number.
///
/// # Errors
///
/// Returns `NoMemory` if it is out of memory.
pub fn worked(
    alloc: Global,
    balances: &[Balance],
    dt: u16,
    digitwise: &Digitwise,
    known: &Sums,
) -> Result<Sums, NoMemory>
    ensures { IfOk result (λ after. (names : List (List ℕ)) (ts : List Total) (u : sums.Sums)
        → AreTotals names ts balances.now → SumsAre known.now u
        → SumsAre after (writes.popped dt
        (moves.operated digitwise.now.written ts (digitwise_value digitwise.now) u))) }
{
    if !digitwise.written {
        return known.popped(alloc, dt);
    }
    let after = operation_written(alloc, balances, digitwise, known)?;
    let low = after.popped(alloc, dt)?;
    Ok(low)
}

// What is known after n bytes at an address were pushed.
fn copied_to_top(
    alloc: Global,
    balances: &[Balance],
    dt: u16,
    from: u16,
    n: u16,
    known: &Sums,
) -> Result<Sums, NoMemory>
    ensures { IfOk result (λ after. (names : List (List ℕ)) (ts : List Total) (u : sums.Sums)
        → AreTotals names ts balances.now → SumsAre known.now u
        → SumsAre after (writes.loaded (writes.is_total_block ts from n) dt from n
        (writes.wrote ts dt (model.origins_from u.origins from n) None (writes.popped dt u)))) }
{
    let bytes = origins_from(alloc, &known.origins, from, n)?;
    let low = known.popped(alloc, dt)?;
    let after = low.written(alloc, balances, dt, bytes.as_slice(), &None)?;
    let is = is_total_block(balances, from, n);
    let last = after.loaded(alloc, is, dt, from, n)?;
    Ok(last)
}

// What is known after n bytes at an address were written at another.
fn copied_over(
    alloc: Global,
    balances: &[Balance],
    dt: u16,
    from: u16,
    to: u16,
    n: u16,
    known: &Sums,
) -> Result<Sums, NoMemory>
    ensures { IfOk result (λ after. (names : List (List ℕ)) (ts : List Total) (u : sums.Sums)
        → AreTotals names ts balances.now → SumsAre known.now u
        → SumsAre after (writes.wrote ts to (model.origins_from u.origins from n)
        (writes.more_of u.mores from to n) (writes.popped dt u))) }
{
    let bytes = origins_from(alloc, &known.origins, from, n)?;
    let by = more_of(alloc, known.mores.as_slice(), from, to, n)?;
    let low = known.popped(alloc, dt)?;
    let after = low.written(alloc, balances, to, bytes.as_slice(), &by)?;
    Ok(after)
}

// Whether an act pushes or writes bytes, so that they are moved if they are copied.
fn is_moved(act: &Act) -> bool
    ensures { result ≡ false → (ts : List Total) (k : PlaceKey) (h : shapes.Shape) (from : ℕ) (u : sums.Sums)
        → moves.acted ts (record k { dt = h.dt }) (act_value act.now)
        (model.unknowns (moves.size_of (act_value act.now))) None (writes.popped h.dt u)
        ≡ moves.copied ts k h (act_value act.now) from u }
{
    match act {
        Act::Pushes { .. } => true,
        Act::Writes { .. } => true,
        _ => false,
    }
}

/// Returns what is known after a row that copies bytes from an address, or `None` if bytes go past the last address.
///
/// # Errors
///
/// Returns `NoMemory` if it is out of memory.
pub fn copied(
    alloc: Global,
    balances: &[Balance],
    before: &Before,
    shape: &Shape,
    from: u16,
    known: &Sums,
) -> Result<Option<Sums>, NoMemory>
    ensures { IfOk result (λ found. IfSome found (λ after. (names : List (List ℕ)) (ts : List Total) (k : PlaceKey)
        (u : sums.Sums) → AreTotals names ts balances.now → IsBefore k before.now → SumsAre known.now u
        → SumsAre after (moves.copied ts k (shape_value shape.now) (act_value shape.now.act) from u))) }
{
    if !is_moved(&shape.act) {
        let after = acted_unknown(alloc, balances, before, shape, known)?;
        return Ok(after);
    }
    let dt = shape.dt;
    match &shape.act {
        Act::Pushes { bytes } => {
            let n = bytes.len() as u16;
            Ok(Some(copied_to_top(alloc, balances, dt, from, n, known)?))
        }
        Act::Writes { at, bytes, .. } => {
            let n = bytes.len() as u16;
            Ok(Some(copied_over(alloc, balances, dt, from, *at, n, known)?))
        }
        _ => Ok(None),
    }
}

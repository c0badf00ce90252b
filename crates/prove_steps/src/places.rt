// A place of the code: what its instruction leads to.
ghost use Rattle.std.specs.Prelude.{◌≡◌, ◌≤◌, true, length, IfOk, Ok, Err};
ghost use Rattle.mc_isa.specs.model_machine.specs.Code.{Shaped, instruction_at};
ghost use Rattle.prove_facts.specs.model_prove.specs.Steps as steps;
ghost use Rattle.prove_arrivals.specs.Subjects.{known_in, spot_in};
ghost use Rattle.prove_steps.specs.Steps.{AcceptsAll};

use crate::branching::instruction_included;
use crate::stepping::Fetched;
use mc_isa::decode;
use mc_isa::model_machine::{Abend, DecodeFault, Ins};
use model_device::NoMemory;
use prove_arrivals::{Subject, abended, fails};
use prove_keys::Begun;
use prove_spots::Spot;
use std::alloc::Global;

// Whether the tables include the abend of a place at which no instruction is.
fn fault_holds(
    alloc: Global,
    subject: &Subject<'_>,
    begun: Begun,
    amounts: &[u32],
    spot: &Spot,
    fault: DecodeFault,
) -> Result<bool, NoMemory>
    ensures { IfOk result (λ holds. holds ≡ true → AcceptsAll subject.now amounts.now
        (λ names s. steps.fetched s (spot_in names subject.now begun amounts.now spot.now) (Err fault))) }
{
    match fault {
        DecodeFault::Undefined => fails(alloc, subject, begun, amounts, spot, Abend::A01),
        DecodeFault::Past => fails(alloc, subject, begun, amounts, spot, Abend::A02),
    }
}

// Whether the tables include what the instruction at a place leads to.
fn instruction_holds(
    alloc: Global,
    subject: &Subject<'_>,
    begun: Begun,
    amounts: &[u32],
    spot: &Spot,
    ins: &Ins,
    next: u16,
) -> Result<bool, NoMemory>
    requires code { length subject.now.code.now ≤ 8192 }
    requires shaped { Shaped ins.now }
    ensures { IfOk result (λ holds. holds ≡ true → AcceptsAll subject.now amounts.now
        (λ names s. steps.fetched s (spot_in names subject.now begun amounts.now spot.now) (Ok (ins.now, next)))) }
{
    let fetched = Fetched {
        begun,
        amounts,
        before: spot,
        ins,
        next,
    };
    let holds = instruction_included(alloc, subject, &fetched)?;
    Ok(holds)
}

// Whether the tables include what was fetched at a place leads to.
fn fetched_holds(
    alloc: Global,
    subject: &Subject<'_>,
    begun: Begun,
    amounts: &[u32],
    spot: &Spot,
) -> Result<bool, NoMemory>
    requires { length subject.now.code.now ≤ 8192 }
    ensures { IfOk result (λ holds. holds ≡ true → AcceptsAll subject.now amounts.now
        (λ names s. steps.fetched s (spot_in names subject.now begun amounts.now spot.now)
        (instruction_at subject.now.code.now spot.now.at))) }
{
    match decode(subject.code, spot.at()) {
        Err(fault) => fault_holds(alloc, subject, begun, amounts, spot, fault),
        Ok((ins, next)) => instruction_holds(alloc, subject, begun, amounts, spot, &ins, next),
    }
}

/// Returns whether the tables include each outcome of a place.
///
/// # Errors
///
/// Returns `NoMemory` if it is out of memory.
pub fn place_holds(
    alloc: Global,
    subject: &Subject<'_>,
    begun: Begun,
    amounts: &[u32],
    spot: &Spot,
) -> Result<bool, NoMemory>
    ensures { IfOk result (λ holds. holds ≡ true → AcceptsAll subject.now amounts.now
        (λ names s. steps.place_arrivals s (spot_in names subject.now begun amounts.now spot.now).key
        (known_in spot.now))) }
{
    if subject.code.len() > 8192 {
        return Ok(false);
    }
    if !abended(alloc, subject, begun, amounts, spot, Abend::A07)? {
        return Ok(false);
    }
    let holds = fetched_holds(alloc, subject, begun, amounts, spot)?;
    Ok(holds)
}

// The outcomes of an instruction by all choices of the bytes that decide it.
ghost use Rattle.std.specs.Prelude.{◌≡◌, ◌<◌, ◌≤◌, ◌+◌, ◌-◌, ◌*◌, suc, true, cond, [], ◌∷◌, ◌++◌, length, filter, flat_map, IfOk, None};
ghost use Rattle.mc_isa.specs.model_machine.specs.Code.{Shaped};
ghost use Rattle.prove_facts.specs.model_prove.specs.Facts.{values_at};
ghost use Rattle.prove_facts.specs.model_prove.specs.Reach.{greatest_value, target_choices};
ghost use Rattle.prove_facts.specs.model_prove.specs.Sets.{is_in, numbers_from};
ghost use Rattle.prove_facts.specs.model_prove.specs.Splits.{few_combinations};
ghost use Rattle.prove_facts.specs.Sets.{has_value, set_of};
ghost use Rattle.prove_steps.specs.Choices.{choice_of, choices_of, choices_value};
ghost use Rattle.prove_steps.specs.Steps.{AcceptsAll, IsSceneOf, IsSceneWith, by_choice, by_choices, by_first_choice, by_target, fetched_arrivals, is_target, last_targets};

use crate::choices::{Choice, Choices, choices_among, combined};
use crate::crude::crude_holds;
use crate::scenes::scene_with;
use crate::stepping::{Fetched, choice_holds, scene_holds};
use model_device::{NoMemory, number_of};
use prove_arrivals::Subject;
use prove_facts::{Facts, Values};
use prove_scenes::{Scene, deciders, inside, later_deciders, takes_target};
use std::alloc::Global;

/// Returns a choice with another after it.
///
/// # Errors
///
/// Returns `NoMemory` if it is out of memory.
pub fn both(alloc: Global, first: &[(u16, u8)], second: &Choice) -> Result<Choice, NoMemory>
    ensures { IfOk result (λ c. choice_of c ≡ first.now ++ choice_of second.now) }
{
    let mut bytes = Vec::from_slice(alloc, first)?;
    bytes.extend_from_slice(second.bytes.as_slice())?;
    Ok(Choice { bytes })
}

// Whether the tables include what an instruction leads to with a choice and another after it.
fn both_hold(
    alloc: Global,
    subject: &Subject<'_>,
    fetched: &Fetched<'_>,
    first: &[(u16, u8)],
    second: &Choice,
) -> Result<bool, NoMemory>
    requires { Shaped fetched.now.ins.now }
    ensures { IfOk result (λ holds. holds ≡ true → AcceptsAll subject.now fetched.now.amounts.now
        (λ names s. by_choice names s subject.now fetched.now (first.now ++ choice_of second.now))) }
{
    let choice = both(alloc, first, second)?;
    let holds = choice_holds(alloc, subject, fetched, choice.bytes.as_slice())?;
    Ok(holds)
}

// Whether they do with a choice and each of some others after it.
fn each_after_holds(
    alloc: Global,
    subject: &Subject<'_>,
    fetched: &Fetched<'_>,
    first: &[(u16, u8)],
    list: &[Choice],
) -> Result<bool, NoMemory>
    requires { Shaped fetched.now.ins.now }
    ensures { IfOk result (λ holds. holds ≡ true → AcceptsAll subject.now fetched.now.amounts.now
        (λ names s. flat_map (λ d. by_choice names s subject.now fetched.now (first.now ++ d))
        (choices_of list.now))) }
{
    for second in list {
        if !both_hold(alloc, subject, fetched, first, second)? {
            return Ok(false);
        }
    }
    Ok(true)
}

// Whether the tables include what an instruction leads to after its first choice, in the scene of that choice, with the
// bytes that then decide.
fn first_holds(
    alloc: Global,
    subject: &Subject<'_>,
    fetched: &Fetched<'_>,
    scene: &Scene,
    first: &[(u16, u8)],
) -> Result<bool, NoMemory>
    requires scene { IsSceneWith subject.now fetched.now scene.now first.now }
    requires shaped { Shaped fetched.now.ins.now }
    ensures { IfOk result (λ holds. holds ≡ true → AcceptsAll subject.now fetched.now.amounts.now
        (λ names s. by_first_choice names s subject.now fetched.now first.now)) }
{
    let places = inside(scene, later_deciders(fetched.ins, scene));
    if places.is_empty() {
        let holds = scene_holds(alloc, subject, fetched, scene, first)?;
        return Ok(holds);
    }
    let list = combined(alloc, fetched.before.bytes(), places.as_slice())?;
    let holds = each_after_holds(alloc, subject, fetched, first, list.as_slice())?;
    Ok(holds)
}

// Whether they do after a first choice.
fn first_included(
    alloc: Global,
    subject: &Subject<'_>,
    fetched: &Fetched<'_>,
    first: &Choice,
) -> Result<bool, NoMemory>
    requires { Shaped fetched.now.ins.now }
    ensures { IfOk result (λ holds. holds ≡ true → AcceptsAll subject.now fetched.now.amounts.now
        (λ names s. by_first_choice names s subject.now fetched.now (choice_of first.now))) }
{
    let sizes = &subject.sizes;
    let first = first.bytes.as_slice();
    let Some(scene) = scene_with(alloc, sizes, fetched.before, fetched.next, first)? else {
        return Ok(false);
    };
    let holds = first_holds(alloc, subject, fetched, &scene, first)?;
    Ok(holds)
}

// Whether they do for each first choice.
fn each_first_holds(
    alloc: Global,
    subject: &Subject<'_>,
    fetched: &Fetched<'_>,
    list: &[Choice],
) -> Result<bool, NoMemory>
    requires { Shaped fetched.now.ins.now }
    ensures { IfOk result (λ holds. holds ≡ true → AcceptsAll subject.now fetched.now.amounts.now
        (λ names s. flat_map (by_first_choice names s subject.now fetched.now) (choices_of list.now))) }
{
    for first in list {
        if !first_included(alloc, subject, fetched, first)? {
            return Ok(false);
        }
    }
    Ok(true)
}

// Whether the tables include what an instruction leads to with the two bytes at a place an address.
fn target_holds(
    alloc: Global,
    subject: &Subject<'_>,
    fetched: &Fetched<'_>,
    at: u16,
    target: u16,
) -> Result<bool, NoMemory>
    requires place { at < 65535 }
    requires shaped { Shaped fetched.now.ins.now }
    ensures { IfOk result (λ holds. holds ≡ true → AcceptsAll subject.now fetched.now.amounts.now
        (λ names s. by_target names s subject.now fetched.now at target)) }
{
    let high = (target / 256) as u8;
    let low = (target % 256) as u8;
    let holds = choice_holds(alloc, subject, fetched, &[(at, high), (at + 1, low)])?;
    Ok(holds)
}

// Whether a byte may have a value.
#[tactic(auto, using(prove_facts::proofs::SetLemmas::in_values))]
fn may_be(facts: &Facts, at: u16, value: u8) -> bool
    ensures { result ≡ is_in value (values_at facts.now at) }
{
    facts.at(at).has(value)
}

/// Returns whether the two bytes at an address may be a place of the code.
pub fn may_lead(facts: &Facts, at: u16, target: u16) -> bool
    requires { at < 65535 }
    ensures { result ≡ is_target facts.now at target }
{
    let high = (target / 256) as u8;
    let low = (target % 256) as u8;
    may_be(facts, at, high) && may_be(facts, at + 1, low)
}

// Whether they do, if the bytes may be this address.
fn allowed_target_holds(
    alloc: Global,
    subject: &Subject<'_>,
    fetched: &Fetched<'_>,
    at: u16,
    target: u16,
) -> Result<bool, NoMemory>
    requires place { at < 65535 }
    requires shaped { Shaped fetched.now.ins.now }
    ensures { IfOk result (λ holds. holds ≡ true → AcceptsAll subject.now fetched.now.amounts.now
        (λ names s. flat_map (by_target names s subject.now fetched.now at)
        (filter (is_target fetched.now.before.now.bytes at) (target ∷ [])))) }
{
    if !may_lead(fetched.before.bytes(), at, target) {
        return Ok(true);
    }
    let holds = target_holds(alloc, subject, fetched, at, target)?;
    Ok(holds)
}

// Whether they do for each address in the code that the bytes may be.
fn each_target_holds(
    alloc: Global,
    subject: &Subject<'_>,
    fetched: &Fetched<'_>,
    at: u16,
    limit: u16,
) -> Result<bool, NoMemory>
    requires place { at < 65535 }
    requires shaped { Shaped fetched.now.ins.now }
    ensures { IfOk result (λ holds. holds ≡ true → AcceptsAll subject.now fetched.now.amounts.now
        (λ names s. flat_map (by_target names s subject.now fetched.now at)
        (filter (is_target fetched.now.before.now.bytes at) (numbers_from 0 limit)))) }
{
    for target in 0..limit {
        if !allowed_target_holds(alloc, subject, fetched, at, target)? {
            return Ok(false);
        }
    }
    Ok(true)
}

// The greatest value of a set.
#[tactic(auto, unfolding(prove_facts::specs::Sets::values_of))]
fn greatest_of(values: &Values) -> u8
    ensures { result ≡ greatest_value (set_of values.now) }
{
    let mut greatest = 0;
    for value in 0..256u16 {
        greatest = greater_of(values, value, greatest);
    }
    greatest
}

// A value of a set, or the greatest one before it.
fn greater_of(values: &Values, value: u16, greatest: u8) -> u8
    requires { value < 256 }
    ensures { result ≡ cond (has_value values.now value) value greatest }
{
    if values.has(value as u8) {
        return value as u8;
    }
    greatest
}

/// Returns the greatest place of the code that the two bytes at an address may be.
pub fn greatest_target(facts: &Facts, at: u16) -> u16
    requires { at < 65535 }
    ensures { result ≡ greatest_value (values_at facts.now at) * 256 + greatest_value (values_at facts.now (suc at)) }
{
    let high = greatest_of(&facts.at(at));
    let low = greatest_of(&facts.at(at + 1));
    number_of(high, low)
}

// Whether they do for the greatest address that the bytes may be, if it is not in the code.
fn last_target_holds(
    alloc: Global,
    subject: &Subject<'_>,
    fetched: &Fetched<'_>,
    at: u16,
    limit: u16,
) -> Result<bool, NoMemory>
    requires place { at < 65535 }
    requires shaped { Shaped fetched.now.ins.now }
    ensures { IfOk result (λ holds. holds ≡ true → AcceptsAll subject.now fetched.now.amounts.now
        (λ names s. flat_map (by_target names s subject.now fetched.now at)
        (last_targets fetched.now.before.now.bytes at limit))) }
{
    let most = greatest_target(fetched.before.bytes(), at);
    if limit > most {
        return Ok(true);
    }
    let holds = target_holds(alloc, subject, fetched, at, most)?;
    Ok(holds)
}

// Whether they do for each place to which a jump or a call from the stack may lead.
fn targets_hold(
    alloc: Global,
    subject: &Subject<'_>,
    fetched: &Fetched<'_>,
) -> Result<bool, NoMemory>
    requires code { length subject.now.code.now ≤ 8192 }
    requires shaped { Shaped fetched.now.ins.now }
    ensures { IfOk result (λ holds. holds ≡ true → AcceptsAll subject.now fetched.now.amounts.now
        (λ names s. flat_map (by_choice names s subject.now fetched.now)
        (target_choices fetched.now.before.now.bytes (fetched.now.before.now.dt - 2) (length subject.now.code.now)))) }
{
    let at = fetched.before.dt().saturating_sub(2);
    let limit = subject.code.len() as u16;
    if at >= 65535 {
        return Ok(false);
    }
    if !each_target_holds(alloc, subject, fetched, at, limit)? {
        return Ok(false);
    }
    let holds = last_target_holds(alloc, subject, fetched, at, limit)?;
    Ok(holds)
}

// Whether the tables include what an instruction of too many combinations leads to.
fn many_hold(
    alloc: Global,
    subject: &Subject<'_>,
    fetched: &Fetched<'_>,
    scene: &Scene,
) -> Result<bool, NoMemory>
    requires code { length subject.now.code.now ≤ 8192 }
    requires scene { IsSceneOf subject.now fetched.now scene.now }
    requires shaped { Shaped fetched.now.ins.now }
    ensures { IfOk result (λ holds. holds ≡ true → AcceptsAll subject.now fetched.now.amounts.now
        (λ names s. by_choices names s subject.now fetched.now None)) }
{
    if takes_target(fetched.ins) {
        let holds = targets_hold(alloc, subject, fetched)?;
        return Ok(holds);
    }
    let holds = crude_holds(alloc, subject, fetched, scene)?;
    Ok(holds)
}

// Whether the tables include what an instruction leads to by some choices.
fn choices_hold(
    alloc: Global,
    subject: &Subject<'_>,
    fetched: &Fetched<'_>,
    scene: &Scene,
    choices: &Choices,
) -> Result<bool, NoMemory>
    requires code { length subject.now.code.now ≤ 8192 }
    requires scene { IsSceneOf subject.now fetched.now scene.now }
    requires shaped { Shaped fetched.now.ins.now }
    ensures { IfOk result (λ holds. holds ≡ true → AcceptsAll subject.now fetched.now.amounts.now
        (λ names s. by_choices names s subject.now fetched.now (choices_value choices.now))) }
{
    match choices {
        Choices::Few(list) => each_first_holds(alloc, subject, fetched, list.as_slice()),
        Choices::Many => many_hold(alloc, subject, fetched, scene),
    }
}

// Whether the tables include what an instruction leads to by the choices of the bytes at some places, which decide it.
fn decided_holds(
    alloc: Global,
    subject: &Subject<'_>,
    fetched: &Fetched<'_>,
    scene: &Scene,
    places: &[u16],
) -> Result<bool, NoMemory>
    requires code { length subject.now.code.now ≤ 8192 }
    requires scene { IsSceneOf subject.now fetched.now scene.now }
    requires shaped { Shaped fetched.now.ins.now }
    ensures { IfOk result (λ holds. holds ≡ true → AcceptsAll subject.now fetched.now.amounts.now
        (λ names s. by_choices names s subject.now fetched.now
        (few_combinations fetched.now.before.now.bytes places.now))) }
{
    if places.is_empty() {
        let holds = first_holds(alloc, subject, fetched, scene, &[])?;
        return Ok(holds);
    }
    let Some(choices) = choices_among(alloc, fetched.before.bytes(), places)? else {
        return Ok(false);
    };
    let holds = choices_hold(alloc, subject, fetched, scene, &choices)?;
    Ok(holds)
}

/// Returns whether the tables include what an instruction leads to by the choices of the bytes that decide it.
///
/// # Errors
///
/// Returns `NoMemory` if it is out of memory.
pub fn instruction_included(
    alloc: Global,
    subject: &Subject<'_>,
    fetched: &Fetched<'_>,
) -> Result<bool, NoMemory>
    requires code { length subject.now.code.now ≤ 8192 }
    requires shaped { Shaped fetched.now.ins.now }
    ensures { IfOk result (λ holds. holds ≡ true → AcceptsAll subject.now fetched.now.amounts.now
        (λ names s. fetched_arrivals names s subject.now fetched.now)) }
{
    let sizes = &subject.sizes;
    let Some(scene) = scene_with(alloc, sizes, fetched.before, fetched.next, &[])? else {
        return Ok(false);
    };
    let places = inside(&scene, deciders(fetched.ins, &scene));
    let holds = decided_holds(alloc, subject, fetched, &scene, places.as_slice())?;
    Ok(holds)
}

// The combinations of the values of some bytes.
ghost use Rattle.std.specs.Prelude.{◌≡◌, ◌≤◌, ◌<◌, ◌*◌, ℕ, min, filter, [], ◌∷◌, ◌++◌, IfOk, IfSome, OnOk, IsSome};
ghost use Rattle.prove_facts.specs.model_prove.specs.Splits.{before_choices, combinations, count_of_combinations};
ghost use Rattle.prove_facts.specs.Sets.{has_value, set_of};
ghost use Rattle.prove_steps.specs.Choices.{choice_of, choices_of, headed_by, ChoicesAre};

use model_device::NoMemory;
use prove_facts::{Facts, Values, push};
use std::alloc::Global;

/// A value of each of some bytes, which are named by their addresses.
#[derive(Drop)]
pub struct Choice {
    pub bytes: Vec<(u16, u8)>,
}

/// The combinations of the values of some bytes, or that there are more than 256.
#[derive(Drop)]
pub enum Choices {
    Few(Vec<Choice>),
    Many,
}

// The number of combinations of the values of some bytes, up to 257; or `None` if a byte has no value.
fn count_of(facts: &Facts, places: &[u16]) -> Option<u32>
    ensures count { IfSome result (λ n. n ≡ min 257 (count_of_combinations facts.now places.now)) }
    ensures most { IfSome result (λ n. n ≤ 257) }
{
    match places {
        [] => Some(1),
        [at, rest @ ..] => count_before(facts.at(*at).count(), count_of(facts, rest)),
    }
}

// The number of combinations, up to 257, if a byte of n values comes before those of a number of combinations.
fn count_before(values: u32, rest: Option<u32>) -> Option<u32>
    requires { IfSome rest (λ n. n ≤ 257) }
    ensures count { IfSome result (λ n. IfSome rest (λ r. (c : ℕ) → r ≡ min 257 c → n ≡ min 257 (min 256 values * c))) }
    ensures some { IfSome result (λ n. IsSome rest) }
    ensures most { IfSome result (λ n. n ≤ 257) }
{
    match rest {
        Some(rest) if values > 0 => Some((values.min(256) * rest).min(257)),
        _ => None,
    }
}

// A value of one byte before a choice.
fn with_first(alloc: Global, at: u16, value: u8, rest: &Choice) -> Result<Choice, NoMemory>
    ensures { IfOk result (λ c. choice_of c ≡ (at, value) ∷ choice_of rest.now) }
{
    let mut bytes = Vec::with_capacity(alloc, rest.bytes.len().saturating_add(1))?;
    push(&mut bytes, (at, value))?;
    bytes.extend_from_slice(rest.bytes.as_slice())?;
    Ok(Choice { bytes })
}

// Adds each of some choices with a value of one byte before it.
fn add_headed(
    alloc: Global,
    list: &mut Vec<Choice>,
    at: u16,
    value: u8,
    rests: &[Choice],
) -> Result<(), NoMemory>
    ensures { OnOk result (choices_of list.new.items ≡ choices_of list.old.items
        ++ headed_by at value (choices_of rests.now)) }
{
    for rest in rests {
        push(list, with_first(alloc, at, value, rest)?)?;
    }
    Ok(())
}

// Adds the choices with one value of a byte before some, if the byte may have it.
fn add_value(
    alloc: Global,
    list: &mut Vec<Choice>,
    at: u16,
    values: &Values,
    value: u16,
    rests: &[Choice],
) -> Result<(), NoMemory>
    requires { value < 256 }
    ensures { OnOk result (choices_of list.new.items ≡ choices_of list.old.items
        ++ before_choices at (filter (has_value values.now) (value ∷ [])) (choices_of rests.now)) }
{
    let value = value as u8;
    if values.has(value) {
        return add_headed(alloc, list, at, value, rests);
    }
    Ok(())
}

// Each value of one byte before each of some choices, by all 256 that a byte may have.
#[tactic(auto, unfolding(prove_facts::specs::Sets::values_of))]
fn each_headed(
    alloc: Global,
    at: u16,
    values: &Values,
    rests: &[Choice],
) -> Result<Vec<Choice>, NoMemory>
    ensures { IfOk result (λ cs. choices_of cs.items ≡ before_choices at (set_of values.now) (choices_of rests.now)) }
{
    let mut list = Vec::new(alloc);
    for value in 0..256u16 {
        add_value(alloc, &mut list, at, values, value, rests)?;
    }
    Ok(list)
}

// Each value of one byte before each of some choices.
fn headed(
    alloc: Global,
    at: u16,
    values: &Values,
    rests: &[Choice],
) -> Result<Vec<Choice>, NoMemory>
    ensures { IfOk result (λ cs. choices_of cs.items ≡ before_choices at (set_of values.now) (choices_of rests.now)) }
{
    match values.only() {
        Some(value) => one_headed(alloc, at, value, rests),
        None => each_headed(alloc, at, values, rests),
    }
}

// One value of one byte before each of some choices.
fn one_headed(alloc: Global, at: u16, value: u8, rests: &[Choice]) -> Result<Vec<Choice>, NoMemory>
    ensures { IfOk result (λ cs. choices_of cs.items ≡ headed_by at value (choices_of rests.now)) }
{
    let mut list = Vec::with_capacity(alloc, rests.len())?;
    add_headed(alloc, &mut list, at, value, rests)?;
    Ok(list)
}

// The choice of no bytes.
fn no_choice(alloc: Global) -> Result<Vec<Choice>, NoMemory>
    ensures { IfOk result (λ cs. choices_of cs.items ≡ [] ∷ []) }
{
    let mut list = Vec::new(alloc);
    push(
        &mut list,
        Choice {
            bytes: Vec::new(alloc),
        },
    )?;
    Ok(list)
}

/// Returns all combinations of the values of some bytes.
///
/// # Errors
///
/// Returns `NoMemory` if it is out of memory.
pub fn combined(alloc: Global, facts: &Facts, places: &[u16]) -> Result<Vec<Choice>, NoMemory>
    ensures { IfOk result (λ cs. choices_of cs.items ≡ combinations facts.now places.now) }
{
    match places {
        [] => no_choice(alloc),
        [at, rest @ ..] => {
            let rests = combined(alloc, facts, rest)?;
            headed(alloc, *at, &facts.at(*at), rests.as_slice())
        }
    }
}

/// Returns the combinations of the values of some bytes, unless there are more than 256; or `None` if a byte has no
/// value.
///
/// # Errors
///
/// Returns `NoMemory` if it is out of memory.
pub fn choices_among(
    alloc: Global,
    facts: &Facts,
    places: &[u16],
) -> Result<Option<Choices>, NoMemory>
    ensures { IfOk result (λ r. IfSome r (ChoicesAre facts.now places.now)) }
{
    match count_of(facts, places) {
        Some(count) if count > 256 => Ok(Some(Choices::Many)),
        Some(_) => Ok(Some(Choices::Few(combined(alloc, facts, places)?))),
        None => Ok(None),
    }
}

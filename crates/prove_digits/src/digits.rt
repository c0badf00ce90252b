// Ways through the bytes of two numbers, from the lowest byte up.
ghost use Rattle.std.specs.Prelude.{◌≡◌, IfOk, OnOk, map, reverse, ◌++◌, ◌∷◌, [], Some, true, false};
ghost use Rattle.prove_facts.specs.model_prove.specs.Digits.{Operation};
ghost use Rattle.prove_digits.specs.States.{states_one, AreSteps, back_digits, way_back};
ghost use Rattle.prove_digits.specs.Ways.{operation_of, way_value, ways_found, value_pairs};

use crate::states::States;
use crate::steps::{Step, step_of};
use crate::trios::Trio;
use model_device::NoMemory;
use prove_facts::{Values, push};
use std::alloc::Global;

/// How two bytes make a byte of a result.
#[derive(Clone, Copy, PartialEq, Eq, Debug)]
pub enum Digit {
    Add,
    Sub,
    And,
    Or,
    Xor,
    Not,
    First,
    Zero,
}

/// One pair of final flags with the values of all bytes that lead to it, the highest byte first.
#[derive(Drop)]
pub struct Way {
    pub c: bool,
    pub z: bool,
    pub x: Vec<Values>,
    pub y: Vec<Values>,
    pub r: Vec<Values>,
}

// The steps of all bytes, the lowest first, and the final flags.
#[derive(Drop)]
struct Walk {
    steps: Vec<Step>,
    states: States,
}

fn walk_of(alloc: Global, digit: Digit, xs: &[Values], ys: &[Values]) -> Result<Walk, NoMemory>
    ensures { IfOk result (λ w. (op : Operation) → operation_of digit ≡ Some op
        → AreSteps op (states_one false true) (reverse (value_pairs xs.now ys.now)) w.steps.items w.states) }
{
    let mut steps = Vec::new(alloc);
    let mut states = States::one(false, true);
    let mut left = xs.len().min(ys.len());
    while left > 0 {
        left -= 1;
        let step = step_of(digit, states, &xs[left], &ys[left]);
        states = step.after();
        push(&mut steps, step)?;
    }
    Ok(Walk { steps, states })
}

// Appends the values of one byte.
fn add_byte(way: &mut Way, trio: &Trio) -> Result<(), NoMemory>
    ensures x { OnOk result (way.new.x.items ≡ way.old.x.items ++ trio.now.x ∷ []) }
    ensures y { OnOk result (way.new.y.items ≡ way.old.y.items ++ trio.now.y ∷ []) }
    ensures r { OnOk result (way.new.r.items ≡ way.old.r.items ++ trio.now.r ∷ []) }
    ensures flags { OnOk result ((way.new.c ≡ way.old.c) × (way.new.z ≡ way.old.z)) }
{
    push(&mut way.x, trio.x)?;
    push(&mut way.y, trio.y)?;
    push(&mut way.r, trio.r)
}

fn way_to(alloc: Global, steps: &[Step], c: bool, z: bool) -> Result<Way, NoMemory>
    ensures { IfOk result (λ w. way_value w
        ≡ (record { c = c; z = z }, reverse (back_digits (states_one c z) steps.now))) }
{
    let mut way = Way {
        c,
        z,
        x: Vec::new(alloc),
        y: Vec::new(alloc),
        r: Vec::new(alloc),
    };
    let mut after = States::one(c, z);
    let mut left = steps.len();
    while left > 0 {
        left -= 1;
        let step = &steps[left];
        add_byte(&mut way, &step.found(&after))?;
        after = step.before(&after);
    }
    Ok(way)
}

// Appends the way to final flags, if there is one.
fn add_way(
    alloc: Global,
    found: &mut Vec<Way>,
    walk: &Walk,
    c: bool,
    z: bool,
) -> Result<(), NoMemory>
    ensures { OnOk result (map way_value found.new.items
        ≡ map way_value found.old.items ++ way_back walk.now.states c z walk.now.steps.items) }
{
    if !walk.states.has(c, z) {
        return Ok(());
    }
    push(found, way_to(alloc, walk.steps.as_slice(), c, z)?)
}

/// Returns the pairs of final flags that some values of the bytes lead to, the highest bytes first. Without a carry C
/// is clear.
///
/// # Errors
///
/// Returns `NoMemory` if it is out of memory.
pub fn ways(alloc: Global, digit: Digit, xs: &[Values], ys: &[Values]) -> Result<Vec<Way>, NoMemory>
    ensures { (op : Operation) → operation_of digit ≡ Some op
        → IfOk result (λ ws. map way_value ws.items ≡ ways_found op (value_pairs xs.now ys.now)) }
{
    let walk = walk_of(alloc, digit, xs, ys)?;
    let mut found = Vec::new(alloc);
    add_way(alloc, &mut found, &walk, false, false)?;
    add_way(alloc, &mut found, &walk, false, true)?;
    add_way(alloc, &mut found, &walk, true, false)?;
    add_way(alloc, &mut found, &walk, true, true)?;
    Ok(found)
}

// An instruction in the scene of a place, for one choice of the bytes that decide it.
ghost use Rattle.std.specs.Prelude.{◌≡◌, ℕ, Bool, true, false, List, [], ◌∷◌, ◌++◌, map, flat_map, None, Some, IfOk, OnOk, option_map};
ghost use Rattle.mc_isa.specs.model_machine.specs.Shapes.{shape};
ghost use Rattle.mc_isa.specs.Primitives as table;
ghost use Rattle.mc_isa.specs.model_machine.specs.Code.{Shaped};
ghost use Rattle.mc_isa.specs.model_machine.specs.Primitives as model;
ghost use Rattle.prove_facts.specs.model_prove.specs.Keys.{Start};
ghost use Rattle.prove_facts.specs.model_prove.specs.Sets.{numbers_from};
ghost use Rattle.prove_facts.specs.model_prove.specs.Steps as steps;
ghost use Rattle.prove_facts.specs.model_prove.specs.Work.{work};
ghost use Rattle.prove_facts.specs.model_rules.specs.Keeping.{Amounts};
ghost use Rattle.prove_arrivals.specs.Subjects.{spot_in};
ghost use Rattle.prove_keys.specs.Keys.{start_of};
ghost use Rattle.prove_scenes.specs.Heads.{around_value};
ghost use Rattle.prove_spots.specs.Grounds.{spot_of};
ghost use Rattle.prove_steps.specs.Steps.{AcceptsAll, IsSceneWith, after_fetch, before, by_choice, in_scene, named_value};

use crate::scenes::scene_with;
use mc_isa::Primitive;
use mc_isa::model_machine::Ins;
use model_device::NoMemory;
use prove_arrivals::{Subject, fails, row};
use prove_facts::push;
use prove_keys::Begun;
use prove_scenes::{
    Around, Counted, Scene, cause, outlines_lead_alike, primitive_of, shape_of, work_of,
};
use prove_spots::Spot;
use prove_works::spots;
use std::alloc::Global;

/// An instruction that was fetched at a place: how the frame began, the amounts of the allowances, the place, the
/// instruction, and the address after it.
#[derive(Clone, Copy)]
pub struct Fetched<'a> {
    pub begun: Begun,
    pub amounts: &'a [u32],
    pub before: &'a Spot,
    pub ins: &'a Ins,
    pub next: u16,
}

// Adds what a row may know around it: a name of so many bytes.
fn add_named(list: &mut Vec<Around>, len: u8) -> Result<(), NoMemory>
    ensures { OnOk result (map around_value list.new.items ≡ map around_value list.old.items
        ++ named_value len ∷ []) }
{
    push(
        list,
        Around {
            delegator: Some(len),
        },
    )
}

// What a row may know of a delegator: a name of 5 to 16 bytes.
fn named(alloc: Global) -> Result<Vec<Around>, NoMemory>
    ensures { IfOk result (λ list. map around_value list.items
        ≡ map named_value (numbers_from 5 12)) }
{
    let mut list = Vec::new(alloc);
    for len in 5..17u8 {
        add_named(&mut list, len)?;
    }
    Ok(list)
}

// What a row may know around it that knows of no delegator.
fn nobody(alloc: Global) -> Result<Vec<Around>, NoMemory>
    ensures { IfOk result (λ list. map around_value list.items ≡ record { case = 1; delegator = None } ∷ []) }
{
    let mut list = Vec::new(alloc);
    push(&mut list, Around { delegator: None })?;
    Ok(list)
}

// Whether a primitive asks who delegated.
fn asks_delegator(primitive: Option<Primitive>) -> bool
    ensures yes { result ≡ true → option_map table.primitive_of primitive ≡ Some model.DelegatorAid }
    ensures no { result ≡ false → (start : Start)
        → steps.arounds start (option_map table.primitive_of primitive) ≡ record { case = 1; delegator = None } ∷ [] }
{
    match primitive {
        Some(Primitive::DelegatorAid) => true,
        _ => false,
    }
}

/// Returns what an instruction may know around its frame.
///
/// # Errors
///
/// Returns `NoMemory` if it is out of memory.
pub fn arounds(alloc: Global, begun: Begun, ins: &Ins) -> Result<Vec<Around>, NoMemory>
    ensures { (classes : List (List Bool)) → IfOk result (λ list. map around_value list.items
        ≡ steps.arounds (start_of classes begun) (steps.primitive_of ins.now)) }
{
    if !asks_delegator(primitive_of(ins)) {
        return nobody(alloc);
    }
    match begun {
        Begun::Delegated => named(alloc),
        Begun::Class(_) => nobody(alloc),
    }
}

// Makes the values of a choice those that the bytes have.
fn know_chosen(spot: &mut Spot, choice: &[(u16, u8)]) -> Result<(), NoMemory>
    ensures { OnOk result ((s : Start) (a : Amounts)
        → spot_of s a spot.new ≡ steps.chosen choice.now (spot_of s a spot.old)) }
{
    for (at, value) in choice {
        spot.known(*at, *value)?;
    }
    Ok(())
}

// The place after the fetch, with a choice of the bytes that decide.
fn chosen(alloc: Global, fetched: &Fetched<'_>, choice: &[(u16, u8)]) -> Result<Spot, NoMemory>
    ensures { IfOk result (λ spot. (names : List (List ℕ)) (u : Subject)
        → spot_in names u fetched.now.begun fetched.now.amounts.now spot
        ≡ steps.chosen choice.now (after_fetch names u fetched.now)) }
{
    let mut spot = fetched.before.copied(alloc)?;
    spot.go(fetched.next);
    know_chosen(&mut spot, choice)?;
    Ok(spot)
}

// Whether the tables include what follows a row that does not abend.
fn done_holds(
    alloc: Global,
    subject: &Subject<'_>,
    fetched: &Fetched<'_>,
    scene: &Scene,
    after: &Spot,
    around: &Around,
) -> Result<bool, NoMemory>
    requires { Shaped fetched.now.ins.now }
    ensures { IfOk result (λ holds. holds ≡ true → AcceptsAll subject.now fetched.now.amounts.now
        (λ names s. steps.caused None s fetched.now.ins.now
        (shape fetched.now.ins.now scene.now.frame scene.now.public (around_value around.now))
        (work fetched.now.ins.now scene.now.frame scene.now.public) (before names subject.now fetched.now)
        (spot_in names subject.now fetched.now.begun fetched.now.amounts.now after.now))) }
{
    let Some(shape) = shape_of(fetched.ins, scene, around) else {
        return Ok(false);
    };
    let work = work_of(fetched.ins, scene);
    let Some(list) = spots(alloc, subject.sizes.fixed, &shape, &work, after)? else {
        return Ok(false);
    };
    outlines_lead_alike();
    let holds = row(
        alloc,
        subject,
        fetched.begun,
        fetched.amounts,
        fetched.ins,
        &shape,
        fetched.before,
        list.as_slice(),
    )?;
    Ok(holds)
}

// Whether the tables include what an instruction leads to in a scene.
fn instruction_holds(
    alloc: Global,
    subject: &Subject<'_>,
    fetched: &Fetched<'_>,
    scene: &Scene,
    after: &Spot,
    around: &Around,
) -> Result<bool, NoMemory>
    requires { Shaped fetched.now.ins.now }
    ensures { IfOk result (λ holds. holds ≡ true → AcceptsAll subject.now fetched.now.amounts.now
        (λ names s. in_scene names s subject.now fetched.now scene.now after.now (around_value around.now))) }
{
    match cause(fetched.ins, scene, around, Counted::All) {
        Some(cause) => fails(
            alloc,
            subject,
            fetched.begun,
            fetched.amounts,
            fetched.before,
            cause,
        ),
        None => done_holds(alloc, subject, fetched, scene, after, around),
    }
}

// Whether they do whatever the instruction may know around its frame.
fn each_around_holds(
    alloc: Global,
    subject: &Subject<'_>,
    fetched: &Fetched<'_>,
    scene: &Scene,
    after: &Spot,
    list: &[Around],
) -> Result<bool, NoMemory>
    requires { Shaped fetched.now.ins.now }
    ensures { IfOk result (λ holds. holds ≡ true → AcceptsAll subject.now fetched.now.amounts.now
        (λ names s. flat_map (in_scene names s subject.now fetched.now scene.now after.now)
        (map around_value list.now))) }
{
    for around in list {
        if !instruction_holds(alloc, subject, fetched, scene, after, around)? {
            return Ok(false);
        }
    }
    Ok(true)
}

/// Returns whether the tables include what an instruction leads to with a choice of the bytes that decide it, in the scene
/// of that choice.
///
/// # Errors
///
/// Returns `NoMemory` if it is out of memory.
pub fn scene_holds(
    alloc: Global,
    subject: &Subject<'_>,
    fetched: &Fetched<'_>,
    scene: &Scene,
    choice: &[(u16, u8)],
) -> Result<bool, NoMemory>
    requires scene { IsSceneWith subject.now fetched.now scene.now choice.now }
    requires shaped { Shaped fetched.now.ins.now }
    ensures { IfOk result (λ holds. holds ≡ true → AcceptsAll subject.now fetched.now.amounts.now
        (λ names s. by_choice names s subject.now fetched.now choice.now)) }
{
    let after = chosen(alloc, fetched, choice)?;
    let list = arounds(alloc, fetched.begun, fetched.ins)?;
    let holds = each_around_holds(alloc, subject, fetched, scene, &after, list.as_slice())?;
    Ok(holds)
}

/// Returns whether the tables include what an instruction leads to with a choice of the bytes that decide it.
///
/// # Errors
///
/// Returns `NoMemory` if it is out of memory.
pub fn choice_holds(
    alloc: Global,
    subject: &Subject<'_>,
    fetched: &Fetched<'_>,
    choice: &[(u16, u8)],
) -> Result<bool, NoMemory>
    requires { Shaped fetched.now.ins.now }
    ensures { IfOk result (λ holds. holds ≡ true → AcceptsAll subject.now fetched.now.amounts.now
        (λ names s. by_choice names s subject.now fetched.now choice.now)) }
{
    let sizes = &subject.sizes;
    let Some(scene) = scene_with(alloc, sizes, fetched.before, fetched.next, choice)? else {
        return Ok(false);
    };
    let holds = scene_holds(alloc, subject, fetched, &scene, choice)?;
    Ok(holds)
}

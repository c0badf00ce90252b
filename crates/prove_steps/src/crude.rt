// Rows whose deciding bytes have too many combinations.
ghost use Rattle.std.specs.Prelude.{◌≡◌, ℕ, Bool, true, List, None, IfOk};
ghost use Rattle.mc_isa.specs.model_machine.specs.Code.{Shaped};
ghost use Rattle.mc_isa.specs.model_machine.specs.Shapes.{shape};
ghost use Rattle.prove_steps.specs.Steps.{fails_when};
ghost use Rattle.prove_facts.specs.model_prove.specs.Facts.{Facts};
ghost use Rattle.prove_facts.specs.model_prove.specs.Steps as steps;
ghost use Rattle.prove_arrivals.specs.Subjects.{spot_in, start_in};
ghost use Rattle.prove_keys.specs.Keys.{start_of};
ghost use Rattle.prove_scenes.specs.Coarse.{coarse_value};
ghost use Rattle.prove_scenes.specs.Heads.{around_value};
ghost use Rattle.prove_scenes.specs.Scenes.{frame_to};
ghost use Rattle.prove_scenes.specs.ShapeValues.{act_value, shape_value};
ghost use Rattle.prove_steps.specs.Steps.{AcceptsAll, after_fetch, before};

use crate::stepping::Fetched;
use mc_isa::model_machine::Abend;
use model_device::NoMemory;
use prove_arrivals::{Subject, coarse, fails};
use prove_keys::Begun;
use prove_scenes::{
    Act, Around, Coarse, Counted, Scene, Shape, cause, coarse_of, coarse_outlines_lead_alike,
    coarse_shape, may_have_bad_length, may_miss, primitive_of,
};
use prove_spots::Spot;
use prove_works::{coarse_spots, reaches_static};
use std::alloc::Global;

/// Returns what a row of too many combinations does, which may write nothing after all.
pub fn crude_for(act: &Act, crude: Coarse) -> Coarse
    ensures { (k : Facts) → coarse_value k result ≡ steps.coarse_for (act_value act.now) (coarse_value k crude) }
{
    match (act, crude) {
        (Act::Stays, Coarse::WritesWithin { .. }) => Coarse::Leads,
        _ => crude,
    }
}

/// Returns what a row of too many combinations knows around it.
pub fn crude_around(begun: Begun) -> Around
    ensures { (classes : List (List Bool)) → around_value result ≡ steps.coarse_around (start_of classes begun) }
{
    match begun {
        Begun::Delegated => Around { delegator: Some(5) },
        Begun::Class(_) => Around { delegator: None },
    }
}

// The place after the fetch, with DT lowered.
fn lowered(alloc: Global, fetched: &Fetched<'_>, dt: u16) -> Result<Spot, NoMemory>
    ensures { IfOk result (λ spot. (names : List (List ℕ)) (u : Subject)
        → spot_in names u fetched.now.begun fetched.now.amounts.now spot
        ≡ steps.lowered dt (after_fetch names u fetched.now)) }
{
    let mut spot = fetched.before.copied(alloc)?;
    spot.go(fetched.next);
    spot.lowered(dt)?;
    Ok(spot)
}

// Whether the tables include what follows a row that has no cause to abend.
fn done_holds(
    alloc: Global,
    subject: &Subject<'_>,
    fetched: &Fetched<'_>,
    scene: &Scene,
    shape: &Shape,
    crude: Coarse,
) -> Result<bool, NoMemory>
    requires { Shaped fetched.now.ins.now }
    ensures { IfOk result (λ holds. holds ≡ true → AcceptsAll subject.now fetched.now.amounts.now
        (λ names s. steps.coarse_done None s fetched.now.ins.now (frame_to scene.now shape.now.dt)
        (shape_value shape.now) (coarse_value fetched.now.before.now.bytes crude)
        (before names subject.now fetched.now) (after_fetch names subject.now fetched.now))) }
{
    let facts = fetched.before.bytes();
    let low = lowered(alloc, fetched, shape.dt)?;
    let fixed = subject.sizes.fixed;
    let Some(is_fixed) = reaches_static(scene, shape.dt, crude, facts, fixed) else {
        return Ok(false);
    };
    let Some(list) = coarse_spots(alloc, scene, shape.dt, shape.flags, crude, facts, &low)? else {
        return Ok(false);
    };
    let holds = coarse(
        alloc,
        subject,
        fetched.begun,
        fetched.amounts,
        fetched.ins,
        is_fixed,
        shape,
        fetched.before,
        list.as_slice(),
    )?;
    Ok(holds)
}

// Whether they include an abend, if it is possible.
fn fails_if(
    alloc: Global,
    subject: &Subject<'_>,
    fetched: &Fetched<'_>,
    possible: bool,
    abend: Abend,
) -> Result<bool, NoMemory>
    ensures { IfOk result (λ holds. holds ≡ true → AcceptsAll subject.now fetched.now.amounts.now
        (λ names s. fails_when possible s (before names subject.now fetched.now) abend)) }
{
    if !possible {
        return Ok(true);
    }
    fails(
        alloc,
        subject,
        fetched.begun,
        fetched.amounts,
        fetched.before,
        abend,
    )
}

// Whether they include what follows a row, unless the key decides an abend.
fn row_holds(
    alloc: Global,
    subject: &Subject<'_>,
    fetched: &Fetched<'_>,
    scene: &Scene,
    shape: &Shape,
    crude: Coarse,
    known: Option<Abend>,
) -> Result<bool, NoMemory>
    requires { Shaped fetched.now.ins.now }
    ensures { IfOk result (λ holds. holds ≡ true → AcceptsAll subject.now fetched.now.amounts.now
        (λ names s. steps.coarse_done known s fetched.now.ins.now (frame_to scene.now shape.now.dt)
        (shape_value shape.now) (coarse_value fetched.now.before.now.bytes crude)
        (before names subject.now fetched.now) (after_fetch names subject.now fetched.now))) }
{
    match known {
        Some(abend) => fails_if(alloc, subject, fetched, true, abend),
        None => done_holds(alloc, subject, fetched, scene, shape, crude),
    }
}

/// Returns whether the tables include what an instruction of too many combinations leads to in the scene of its place.
///
/// # Errors
///
/// Returns `NoMemory` if it is out of memory.
pub fn crude_holds(
    alloc: Global,
    subject: &Subject<'_>,
    fetched: &Fetched<'_>,
    scene: &Scene,
) -> Result<bool, NoMemory>
    requires { Shaped fetched.now.ins.now }
    ensures { IfOk result (λ holds. holds ≡ true → AcceptsAll subject.now fetched.now.amounts.now
        (λ names s. steps.coarse_arrivals s fetched.now.ins.now scene.now (before names subject.now fetched.now)
        (after_fetch names subject.now fetched.now) (steps.coarse_around (start_in subject.now fetched.now.begun)))) }
{
    let around = crude_around(fetched.begun);
    let Some(shape) = coarse_shape(fetched.ins, scene, &around) else {
        return Ok(false);
    };
    let crude = crude_for(&shape.act, coarse_of(fetched.ins, scene));
    let primitive = primitive_of(fetched.ins);
    let bad = may_have_bad_length(primitive);
    let known = cause(
        fetched.ins,
        scene,
        &around,
        Counted::Known { bad_length: bad },
    );
    coarse_outlines_lead_alike();
    let misses = may_miss(primitive, crude);
    if !fails_if(alloc, subject, fetched, misses, Abend::A03)? {
        return Ok(false);
    }
    if !fails_if(alloc, subject, fetched, bad, Abend::A06)? {
        return Ok(false);
    }
    let holds = row_holds(alloc, subject, fetched, scene, &shape, crude, known)?;
    Ok(holds)
}

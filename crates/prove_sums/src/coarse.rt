// What is known for sums after a row of too many combinations.
ghost use Rattle.std.specs.Prelude.{◌≡◌, ◌++◌, ◌∷◌, [], ◌-◌, ℕ, List, Option, None, cond, filter, map, IfOk, IfSome, OnOk};
ghost use Rattle.prove_facts.specs.model_prove.specs.Reach.{is_reached};
ghost use Rattle.prove_facts.specs.model_prove.specs.Sets.{numbers_from};
ghost use Rattle.prove_facts.specs.model_rules.specs.Rules.{Total};
ghost use Rattle.prove_forms.specs.model_sums.specs.Forms as forms;
ghost use Rattle.prove_forms.specs.model_sums.specs.Moves as moves;
ghost use Rattle.prove_forms.specs.model_sums.specs.Origins as model;
ghost use Rattle.prove_forms.specs.model_sums.specs.Sums as sums;
ghost use Rattle.prove_forms.specs.model_sums.specs.Writes as writes;
ghost use Rattle.prove_forms.specs.Forms.{OptionalIs, OptionalsAre};
ghost use Rattle.prove_forms.specs.Origins.{listed_values, origins_value};
ghost use Rattle.lab_app_rules.specs.Sums.{AreTotals};
ghost use Rattle.prove_scenes.specs.Coarse.{coarse_value};
ghost use Rattle.prove_scenes.specs.Scenes.{frame_to};
ghost use Rattle.prove_sums.specs.Values.{SumsAre};
ghost use Rattle.prove_works.specs.Reaches.{reach_value};

use crate::kept::{Kept, kept_mores};
use crate::optional::copied_if;
use crate::values::{Sums, add_off, first_off};
use lab_app_rules::Balance;
use model_device::NoMemory;
use prove_facts::{Facts, push};
use prove_forms::{Form, Listed, Origin, Origins};
use prove_keys::{DYNAMIC, DYNAMIC_END, PUBLIC, PUBLIC_END};
use prove_scenes::{Coarse, Scene};
use prove_works::{Reach, is_reached, reach_of, some_reached};
use std::alloc::Global;

// Appends a byte that comes from nowhere, if something holds.
fn add_if(listed: &mut Vec<Listed>, at: u16, holds: bool) -> Result<(), NoMemory>
    ensures { OnOk result (listed_values listed.new.items ≡ listed_values listed.old.items
        ++ cond holds ((at, model.Unknown) ∷ []) []) }
{
    if !holds {
        return Ok(());
    }
    push(
        listed,
        Listed {
            at: at as u32,
            origin: Origin::Unknown,
        },
    )?;
    Ok(())
}

// Appends the bytes from one address to below another that may be reached, which come from nowhere then.
fn add_reached(
    listed: &mut Vec<Listed>,
    scene: &Scene,
    dt: u16,
    reach: &Reach,
    from: u16,
    to: u16,
) -> Result<(), NoMemory>
    ensures { OnOk result (listed_values listed.new.items ≡ listed_values listed.old.items
        ++ map (λ a. (a, model.Unknown)) (filter (is_reached (frame_to scene.now dt) (reach_value reach.now))
        (numbers_from from (to - from)))) }
{
    for at in from..to {
        add_if(listed, at, is_reached(scene, dt, reach, at as u32))?;
    }
    Ok(())
}

// The origins of bytes after a write within a reach.
fn origins_reached(
    alloc: Global,
    scene: &Scene,
    dt: u16,
    reach: &Reach,
    origins: &Origins,
) -> Result<Origins, NoMemory>
    ensures { IfOk result (λ after. origins_value after ≡ record {
      own = origins.now.own;
      listed = map (λ a. (a, model.Unknown)) (moves.reached_places (frame_to scene.now dt) (reach_value reach.now))
          ++ listed_values origins.now.listed.items;
    }) }
{
    let mut listed = Vec::new(alloc);
    add_reached(&mut listed, scene, dt, reach, DYNAMIC, DYNAMIC_END)?;
    add_reached(&mut listed, scene, dt, reach, PUBLIC, PUBLIC_END)?;
    listed.extend_from_slice(origins.listed.as_slice())?;
    Ok(Origins {
        own: origins.own,
        listed,
    })
}

// By how much a total is off, if its block is not reached.
fn off_unless(alloc: Global, reached: bool, off: &Option<Form>) -> Result<Option<Form>, NoMemory>
    ensures { IfOk result (λ left. (f : Option forms.Form) → OptionalIs off.now f
        → OptionalIs left (cond reached None f)) }
{
    if reached {
        return Ok(None);
    }
    copied_if(alloc, off)
}

// By how much totals are off whose blocks are not reached.
fn offs_not_reached(
    alloc: Global,
    balances: &[Balance],
    scene: &Scene,
    dt: u16,
    reach: &Reach,
    offs: &[Option<Form>],
) -> Result<Vec<Option<Form>>, NoMemory>
    ensures { IfOk result (λ left. (names : List (List ℕ)) (ts : List Total) (fs : List (Option forms.Form))
        → AreTotals names ts balances.now → OptionalsAre offs.now fs → OptionalsAre left.items
        (moves.offs_not_reached (frame_to scene.now dt) (reach_value reach.now) ts fs)) }
{
    let mut left = Vec::new(alloc);
    let mut rest = offs;
    for balance in balances {
        let Some((off, more)) = first_off(rest) else {
            return Ok(left);
        };
        let reached = some_reached(scene, dt, reach, balance.at, balance.n);
        let next = off_unless(alloc, reached, off)?;
        add_off(&mut left, next)?;
        rest = more;
    }
    Ok(left)
}

// What is known after a write within a reach.
fn reached(
    alloc: Global,
    balances: &[Balance],
    scene: &Scene,
    dt: u16,
    reach: &Reach,
    known: &Sums,
) -> Result<Sums, NoMemory>
    ensures { IfOk result (λ after. (names : List (List ℕ)) (ts : List Total) (u : sums.Sums)
        → AreTotals names ts balances.now → SumsAre known.now u → SumsAre after
        (moves.reached ts (frame_to scene.now dt) (reach_value reach.now) u)) }
{
    let kept = Kept::NotReached(scene, dt, reach);
    Ok(Sums {
        origins: origins_reached(alloc, scene, dt, reach, &known.origins)?,
        mores: kept_mores(alloc, known.mores.as_slice(), &kept)?,
        offs: offs_not_reached(alloc, balances, scene, dt, reach, known.offs.as_slice())?,
    })
}

// What is known after bytes at an address were lost, with DT at most a number.
fn lost_at(
    alloc: Global,
    balances: &[Balance],
    dt: u16,
    at: u16,
    n: u8,
    known: &Sums,
) -> Result<Sums, NoMemory>
    ensures { IfOk result (λ after. (names : List (List ℕ)) (ts : List Total) (u : sums.Sums)
        → AreTotals names ts balances.now → SumsAre known.now u
        → SumsAre after (writes.wrote_any ts at n (writes.popped dt u))) }
{
    let low = known.popped(alloc, dt)?;
    let after = low.lost(alloc, balances, at, n as u16)?;
    Ok(after)
}

// What is known after a write within a reach, with DT at most a number.
fn reached_low(
    alloc: Global,
    balances: &[Balance],
    scene: &Scene,
    dt: u16,
    reach: &Reach,
    known: &Sums,
) -> Result<Sums, NoMemory>
    ensures { IfOk result (λ after. (names : List (List ℕ)) (ts : List Total) (u : sums.Sums)
        → AreTotals names ts balances.now → SumsAre known.now u → SumsAre after
        (moves.reached ts (frame_to scene.now dt) (reach_value reach.now) (writes.popped dt u))) }
{
    let low = known.popped(alloc, dt)?;
    let after = reached(alloc, balances, scene, dt, reach, &low)?;
    Ok(after)
}

/// Returns what is known after a row of too many combinations, with DT of the scene at this number; `facts` are those
/// by which the row was found. It gives up where bytes go past the last address.
///
/// # Errors
///
/// Returns `NoMemory` if it is out of memory.
pub fn moved_coarsely(
    alloc: Global,
    balances: &[Balance],
    scene: &Scene,
    dt: u16,
    coarse: Coarse,
    facts: &Facts,
    known: &Sums,
) -> Result<Option<Sums>, NoMemory>
    ensures { IfOk result (λ found. IfSome found (λ after. (names : List (List ℕ)) (ts : List Total) (u : sums.Sums)
        → AreTotals names ts balances.now → SumsAre known.now u → SumsAre after
        (moves.moved_coarsely ts (frame_to scene.now dt) (coarse_value facts.now coarse) u))) }
{
    match coarse {
        Coarse::PushesAny(n) => Ok(Some(lost_at(alloc, balances, dt, dt, n, known)?)),
        Coarse::Shifts(n) => {
            let at = dt.saturating_sub(n as u16);
            Ok(Some(lost_at(alloc, balances, dt, at, n, known)?))
        }
        Coarse::Compares => Ok(Some(known.popped(alloc, dt)?)),
        Coarse::Searches => Ok(Some(lost_at(alloc, balances, dt, dt, 1, known)?)),
        Coarse::WritesWithin { at, lengths } => match reach_of(facts, at, lengths) {
            Some(reach) => Ok(Some(reached_low(alloc, balances, scene, dt, &reach, known)?)),
            None => Ok(None),
        },
        Coarse::Leads => Ok(Some(known.popped(alloc, dt)?)),
    }
}

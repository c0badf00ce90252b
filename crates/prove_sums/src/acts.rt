// What is known for sums after an act of a row.
ghost use Rattle.std.specs.Prelude.{◌≡◌, ◌≤◌, ◌+◌, ℕ, List, [], None, length, vec_len, IfOk, IfSome};
ghost use Rattle.mc_arith.specs.model_machine.specs.Shapes as shapes;
ghost use Rattle.prove_facts.specs.model_prove.specs.Keys.{PlaceKey};
ghost use Rattle.prove_facts.specs.model_rules.specs.Rules.{Total};
ghost use Rattle.prove_forms.specs.model_sums.specs.Moves as moves;
ghost use Rattle.prove_forms.specs.model_sums.specs.Origins as model;
ghost use Rattle.prove_forms.specs.model_sums.specs.Sums as sums;
ghost use Rattle.prove_forms.specs.model_sums.specs.Writes as writes;
ghost use Rattle.prove_forms.specs.Origins.{origin_values, origins_value};
ghost use Rattle.lab_app_rules.specs.Sums.{AreTotals};
ghost use Rattle.prove_scenes.specs.ShapeValues.{act_value};
ghost use Rattle.prove_sums.specs.Values.{IsBefore, SumsAre};

use crate::modes::is_commit;
use crate::values::{Before, Sums};
use crate::writes::unknowns;
use lab_app_rules::Balance;
use mc_arith::model_machine::Ins;
use model_device::NoMemory;
use prove_facts::push;
use prove_forms::{Origin, Origins};
use prove_scenes::{Act, Shape};
use std::alloc::Global;

/// The address of the length of the reply, two bytes before its status.
const REPLY: u16 = 0xC40D;

/// The address of the status.
const STATUS: u16 = 0xC40F;

// The number of bytes that an act writes or pushes.
fn size_of(act: &Act) -> u16
    ensures size { result ≡ moves.size_of (act_value act.now) }
    ensures most { result ≤ 255 }
{
    match act {
        Act::Pushes { bytes } => bytes.len() as u16,
        Act::Replaces { bytes } => bytes.len() as u16,
        Act::Writes { bytes, .. } => bytes.len() as u16,
        _ => 0,
    }
}

// The origins of bytes of an act that come from nowhere.
fn act_unknowns(alloc: Global, act: &Act) -> Result<Vec<Origin>, NoMemory>
    ensures values { IfOk result (λ bytes. origin_values bytes.items
        ≡ model.unknowns (moves.size_of (act_value act.now))) }
    ensures most { IfOk result (λ bytes. vec_len bytes ≤ 255) }
{
    unknowns(alloc, size_of(act))
}

// Whether an instruction pushes a number.
fn pushes_number(ins: &Ins) -> bool
    ensures { result ≡ moves.pushes_number ins.now }
{
    match *ins {
        Ins::Pushz { .. } => true,
        Ins::Pushb { .. } => true,
        Ins::Pushw { .. } => true,
        _ => false,
    }
}

// The origins of pushed numbers.
fn constants(alloc: Global, bytes: &[u8]) -> Result<Vec<Origin>, NoMemory>
    ensures values { IfOk result (λ list. origin_values list.items ≡ moves.constants bytes.now) }
    ensures length { IfOk result (λ list. vec_len list ≡ length bytes.now) }
{
    let mut list = Vec::new(alloc);
    for byte in bytes {
        push(&mut list, Origin::Constant(*byte))?;
    }
    Ok(list)
}

// The origins of n bytes from an address on.
pub fn origins_from(
    alloc: Global,
    origins: &Origins,
    at: u16,
    n: u16,
) -> Result<Vec<Origin>, NoMemory>
    ensures values { IfOk result (λ bytes. origin_values bytes.items
        ≡ model.origins_from (origins_value origins.now) at n) }
    ensures length { IfOk result (λ bytes. vec_len bytes ≡ n) }
{
    let bytes = origins.from(alloc, at as u32, n)?;
    Ok(bytes)
}

// The origins of the bytes that an act moves or pushes by itself.
pub fn own_origins(
    alloc: Global,
    ins: &Ins,
    act: &Act,
    origins: &Origins,
    dt: u16,
) -> Result<Vec<Origin>, NoMemory>
    ensures values { IfOk result (λ bytes. origin_values bytes.items
        ≡ moves.own_origins ins.now (act_value act.now) (origins_value origins.now) dt) }
    ensures most { IfOk result (λ bytes. vec_len bytes ≤ 255) }
{
    match act {
        Act::Returns { more, .. } => {
            origins_from(
                alloc,
                origins,
                dt.saturating_sub(*more as u16),
                *more as u16,
            )
        }
        Act::Pushes { bytes } => {
            if pushes_number(ins) {
                return constants(alloc, bytes.as_slice());
            }
            unknowns(alloc, bytes.len() as u16)
        }
        _ => act_unknowns(alloc, act),
    }
}

// What is known after two bytes of the reply were set, if they were.
fn answer_wrote(
    alloc: Global,
    balances: &[Balance],
    at: u16,
    word: Option<u16>,
    known: Sums,
) -> Result<Sums, NoMemory>
    ensures { IfOk result (λ after. (names : List (List ℕ)) (ts : List Total) (u : sums.Sums)
        → AreTotals names ts balances.now → SumsAre known u → SumsAre after (moves.answer_wrote ts at word u)) }
{
    match word {
        Some(_) => Ok(known.lost(alloc, balances, at, 2)?),
        None => Ok(known),
    }
}

// What is known after status and length of the reply were set, if they were.
fn answered(
    alloc: Global,
    balances: &[Balance],
    sw: Option<u16>,
    la: Option<u16>,
    known: Sums,
) -> Result<Sums, NoMemory>
    ensures { IfOk result (λ after. (names : List (List ℕ)) (ts : List Total) (k : PlaceKey) (u : sums.Sums)
        → AreTotals names ts balances.now → SumsAre known u
        → SumsAre after (moves.acted ts k (shapes.Answers sw la) [] None u)) }
{
    let known = answer_wrote(alloc, balances, STATUS, sw, known)?;
    let after = answer_wrote(alloc, balances, REPLY, la, known)?;
    Ok(after)
}

// What is known after a call, if it is taken.
fn called(
    alloc: Global,
    balances: &[Balance],
    dt: u16,
    taken: bool,
    known: Sums,
) -> Result<Sums, NoMemory>
    ensures { IfOk result (λ after. (names : List (List ℕ)) (ts : List Total) (k : PlaceKey) (to : ℕ) (u : sums.Sums)
        → AreTotals names ts balances.now → k.dt ≡ dt → SumsAre known u
        → SumsAre after (moves.acted ts k (shapes.Calls taken to) [] None u)) }
{
    if !taken {
        return Ok(known);
    }
    let after = known.lost(alloc, balances, dt, 4)?;
    Ok(after)
}

// What is known after a return that leaves bytes of these origins, or `None` if they go past the last address.
fn returned(
    alloc: Global,
    balances: &[Balance],
    to: u16,
    bytes: &[Origin],
    known: &Sums,
) -> Result<Option<Sums>, NoMemory>
    requires { length bytes.now ≤ 255 }
    ensures { IfOk result (λ found. IfSome found (λ after. (names : List (List ℕ)) (ts : List Total)
        (gs : List model.Origin) (u : sums.Sums) → AreTotals names ts balances.now → origin_values bytes.now ≡ gs
        → SumsAre known.now u → SumsAre after (writes.popped (to + length gs) (writes.wrote ts to gs None u)))) }
{
    let top = to as u32 + bytes.len() as u32;
    if top > u16::MAX as u32 {
        return Ok(None);
    }
    let after = known.written(alloc, balances, to, bytes, &None)?;
    Ok(Some(after.popped(alloc, top as u16)?))
}

// What is known after an act of a row, by the registers of the place before and DT as it is lowered, where bytes that
// it writes or pushes come from these origins. `None` is returned if they go past the last address.
fn acted(
    alloc: Global,
    balances: &[Balance],
    before: &Before,
    dt: u16,
    act: &Act,
    bytes: &[Origin],
    known: Sums,
) -> Result<Option<Sums>, NoMemory>
    requires { length bytes.now ≤ 255 }
    ensures { IfOk result (λ found. IfSome found (λ after. (names : List (List ℕ)) (ts : List Total) (k : PlaceKey)
        (gs : List model.Origin) (u : sums.Sums) → AreTotals names ts balances.now → IsBefore k before.now
        → origin_values bytes.now ≡ gs → SumsAre known u
        → SumsAre after (moves.acted ts (record k { dt = dt }) (act_value act.now) gs None u))) }
{
    match act {
        Act::Stays => Ok(Some(known)),
        Act::Jumps { .. } => Ok(Some(known)),
        Act::Answers { sw, la } => Ok(Some(answered(alloc, balances, *sw, *la, known)?)),
        Act::Calls { taken, .. } => Ok(Some(called(alloc, balances, dt, *taken, known)?)),
        Act::Returns { less, .. } => {
            let to = before.lb.saturating_sub(4).saturating_sub(*less as u16);
            Ok(returned(alloc, balances, to, bytes, &known)?)
        }
        Act::Pushes { .. } => Ok(Some(known.written(alloc, balances, dt, bytes, &None)?)),
        Act::Replaces { .. } => {
            let at = dt.saturating_sub(bytes.len() as u16);
            Ok(Some(known.written(alloc, balances, at, bytes, &None)?))
        }
        Act::Writes { at, .. } => Ok(Some(known.written(alloc, balances, *at, bytes, &None)?)),
        Act::Protects { mode } => {
            let drops = before.protected && !is_commit(*mode);
            Ok(Some(known.dropped(alloc, balances, drops)?))
        }
    }
}

/// Returns what is known after the act of a row, after bytes above DT were popped, where bytes that it writes or pushes
/// come from these origins, or `None` if they go past the last address.
///
/// # Errors
///
/// Returns `NoMemory` if it is out of memory.
pub fn acted_popped(
    alloc: Global,
    balances: &[Balance],
    before: &Before,
    shape: &Shape,
    bytes: &[Origin],
    known: &Sums,
) -> Result<Option<Sums>, NoMemory>
    requires { length bytes.now ≤ 255 }
    ensures { IfOk result (λ found. IfSome found (λ after. (names : List (List ℕ)) (ts : List Total) (k : PlaceKey)
        (gs : List model.Origin) (u : sums.Sums) → AreTotals names ts balances.now → IsBefore k before.now
        → origin_values bytes.now ≡ gs → SumsAre known.now u
        → SumsAre after (moves.acted ts (record k { dt = shape.now.dt }) (act_value shape.now.act) gs None
        (writes.popped shape.now.dt u)))) }
{
    let low = known.popped(alloc, shape.dt)?;
    let after = acted(alloc, balances, before, shape.dt, &shape.act, bytes, low)?;
    Ok(after)
}

/// Returns what is known after the act of a row, after bytes above DT were popped, where bytes that it writes or pushes
/// come from nowhere, or `None` if they go past the last address.
///
/// # Errors
///
/// Returns `NoMemory` if it is out of memory.
pub fn acted_unknown(
    alloc: Global,
    balances: &[Balance],
    before: &Before,
    shape: &Shape,
    known: &Sums,
) -> Result<Option<Sums>, NoMemory>
    ensures { IfOk result (λ found. IfSome found (λ after. (names : List (List ℕ)) (ts : List Total) (k : PlaceKey)
        (u : sums.Sums) → AreTotals names ts balances.now → IsBefore k before.now → SumsAre known.now u
        → SumsAre after (moves.acted ts (record k { dt = shape.now.dt }) (act_value shape.now.act)
        (model.unknowns (moves.size_of (act_value shape.now.act))) None (writes.popped shape.now.dt u)))) }
{
    let bytes = act_unknowns(alloc, &shape.act)?;
    let after = acted_popped(alloc, balances, before, shape, bytes.as_slice(), known)?;
    Ok(after)
}

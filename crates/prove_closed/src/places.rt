// The places of the tables.
ghost use Rattle.std.specs.Prelude.{◌≡◌, true, ℕ, List, length, IfOk};
ghost use Rattle.std.specs.List.{AllByRecursion};
ghost use Rattle.prove_facts.specs.model_prove.specs.Arrivals.{Setting};
ghost use Rattle.prove_facts.specs.model_prove.specs.Keys as keys;
ghost use Rattle.prove_facts.specs.model_prove.specs.Steps as steps;
ghost use Rattle.prove_facts.specs.model_prove.specs.Tables.{places_closed};
ghost use Rattle.prove_keys.specs.Keys.{place_of};
ghost use Rattle.prove_keys.specs.Known.{kept_of, known_of};
ghost use Rattle.prove_keys.specs.Tables.{places_of, IsWholePlace};
ghost use Rattle.prove_arrivals.specs.Subjects.{Accepts, IsOver, IsSubject, classes_in, known_in, spot_in, tables_in};

use model_device::NoMemory;
use prove_arrivals::Subject;
use prove_facts::Facts;
use prove_keys::{Known, PackedKnown, PlaceKey};
use prove_spots::Spot;
use prove_steps::place_holds;
use std::alloc::Global;

// The facts of the static bytes as power would leave them at a place.
fn kept_at(alloc: Global, protected: bool, fixed: u16, known: &Known) -> Result<Facts, NoMemory>
    ensures { IfOk result (λ kept. kept ≡ kept_of protected fixed known.now.read known.now.kept) }
{
    if protected {
        return known.kept.copied(alloc);
    }
    known.read.part(alloc, 0, fixed as u32)
}

/// Returns a place with what the tables have there; `fixed` is the number of static bytes.
///
/// # Errors
///
/// Returns `NoMemory` if it is out of memory.
pub fn spot_at(
    alloc: Global,
    fixed: u16,
    key: &PlaceKey,
    packed: &PackedKnown,
) -> Result<Spot, NoMemory>
    ensures known { IfOk result (λ spot. known_in spot ≡ known_of key.now.registers.protected fixed packed.now) }
    ensures key { IfOk result (λ spot. (names : List (List ℕ)) (u : Subject)
        → (spot_in names u key.now.begun key.now.amounts.items spot).key ≡ place_of names (classes_in u) key.now) }
{
    let known = packed.known(alloc)?;
    let kept = kept_at(alloc, key.registers.protected, fixed, &known)?;
    let calls = Vec::from_slice(alloc, key.calls.as_slice())?;
    Ok(Spot::new(key.registers, calls, known.read, kept, known.last))
}

/// Returns whether the tables include each outcome of a place with what is known there.
///
/// # Errors
///
/// Returns `NoMemory` if it is out of memory.
pub fn place_closed(
    alloc: Global,
    subject: &Subject<'_>,
    key: &PlaceKey,
    packed: &PackedKnown,
) -> Result<bool, NoMemory>
    ensures { IfOk result (λ holds. holds ≡ true → (names : List (List ℕ)) (s : Setting)
        → IsOver names s subject.now key.now.amounts.items → Accepts names subject.now
        (steps.place_arrivals s (place_of names (classes_in subject.now) key.now)
        (known_of key.now.registers.protected subject.now.sizes.fixed packed.now))) }
{
    let spot = spot_at(alloc, subject.sizes.fixed, key, packed)?;
    place_holds(alloc, subject, key.begun, key.amounts.as_slice(), &spot)
}

/// Returns whether the tables include each outcome of each of some places of theirs.
///
/// # Errors
///
/// Returns `NoMemory` if it is out of memory.
pub fn places_hold(
    alloc: Global,
    subject: &Subject<'_>,
    keys: &[PlaceKey],
    known: &[PackedKnown],
) -> Result<bool, NoMemory>
    ensures { IfOk result (λ holds. holds ≡ true → (names : List (List ℕ)) (s : Setting) → IsSubject names s subject.now
        → AllByRecursion (IsWholePlace (length names) (length (classes_in subject.now))) keys.now
        → places_closed s (tables_in names subject.now)
        (places_of names (classes_in subject.now) subject.now.sizes.fixed keys.now known.now) ≡ true) }
{
    for (number, key) in keys.iter().enumerate() {
        if number >= known.len() || !place_closed(alloc, subject, key, &known[number])? {
            return Ok(false);
        }
    }
    Ok(true)
}

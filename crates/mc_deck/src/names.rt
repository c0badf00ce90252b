// The units that were named.
ghost use Rattle.std.specs.Prelude.{◌≡◌, ◌+◌, ◌<◌, ◌++◌, ◌∷◌, [], ℕ, List, length, option_map, IfSome, IfErr, OnOk};
ghost use Rattle.model_play.specs.model_device.specs.Bytes.{lookup};
ghost use Rattle.model_play.specs.model_card.specs.Units.{UnitParts};
ghost use Rattle.mc_deck.specs.declared.refusal.DeckRefusal.TheVariants.{NoMemory};
ghost use Rattle.mc_deck.specs.Lines.{owned_parts, unit_at};
ghost use Rattle.mc_deck.specs.Contexts.{AreNames};

use crate::refusal::DeckRefusal;
use crate::unit::OwnedUnit;
use std::alloc::Global;
use std::collections::BTreeMap;

/// The units that were named, in order, and the place of each by its name.
#[derive(Drop)]
pub struct Names<'a> {
    pub units: Vec<OwnedUnit>,
    pub places: BTreeMap<&'a [u8], usize>,
}

/// Returns the names of no unit.
pub fn no_names<'a>(alloc: Global) -> Names<'a>
    ensures names { AreNames result.places result.units.items [] }
    ensures units { result.units.items ≡ [] }
{
    Names {
        units: Vec::new(alloc),
        places: BTreeMap::new(alloc),
    }
}

/// Returns the place of the unit with a name, or `None` if no unit has it.
pub fn place_of<'a>(names: &Names<'a>, name: &'a [u8]) -> Option<usize>
    ensures value { (named : List (List ℕ × UnitParts)) → AreNames names.now.places names.now.units.items named
        → lookup named name.now ≡ option_map (unit_at names.now.units.items) result }
    ensures inside { (named : List (List ℕ × UnitParts)) → AreNames names.now.places names.now.units.items named
        → IfSome result (λ i. i < length names.now.units.items) }
{
    names.places.get(&name).copied()
}

// Adds the place of the next unit under its name.
fn put_place<'a>(
    places: &mut BTreeMap<&'a [u8], usize>,
    name: &'a [u8],
    place: usize,
) -> Result<(), DeckRefusal>
    ensures put { OnOk result ((us : List OwnedUnit) (u : OwnedUnit) (named : List (List ℕ × UnitParts))
        → place ≡ length us → AreNames places.old us named
        → AreNames places.new (us ++ u ∷ []) ((name.now, owned_parts u) ∷ named)) }
    ensures memory { IfErr result (λ e. e ≡ NoMemory) }
{
    match places.insert(name, place) {
        Ok(_) => Ok(()),
        Err(_) => Err(DeckRefusal::NoMemory),
    }
}

// Appends a unit.
fn push_unit(units: &mut Vec<OwnedUnit>, unit: OwnedUnit) -> Result<(), DeckRefusal>
    ensures units { OnOk result (units.new.items ≡ units.old.items ++ unit ∷ []) }
    ensures memory { IfErr result (λ e. e ≡ NoMemory) }
{
    match units.push(unit) {
        Ok(()) => Ok(()),
        Err(_) => Err(DeckRefusal::NoMemory),
    }
}

/// Adds a unit under a name.
pub fn give_name<'a>(
    names: &mut Names<'a>,
    name: &'a [u8],
    unit: OwnedUnit,
) -> Result<(), DeckRefusal>
    ensures names { OnOk result ((named : List (List ℕ × UnitParts))
        → AreNames names.old.places names.old.units.items named
        → AreNames names.new.places names.new.units.items ((name.now, owned_parts unit) ∷ named)) }
    ensures units { OnOk result (names.new.units.items ≡ names.old.units.items ++ unit ∷ []) }
    ensures memory { IfErr result (λ e. e ≡ NoMemory) }
{
    put_place(&mut names.places, name, names.units.len())?;
    push_unit(&mut names.units, unit)
}

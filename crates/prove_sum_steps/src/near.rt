// Tables with only some of the places, at which nothing is known: what leads to a place of them leads to one of these.
use model_device::NoMemory;
use prove_arrivals::Subject;
use prove_facts::{Facts, push};
use prove_keys::{Known, Last, MomentKey, PackedKnown, PlaceKey, Tables};
use std::alloc::Global;

// A copy of the key of a moment.
fn copy_of_moment(alloc: Global, key: &MomentKey) -> Result<MomentKey, NoMemory> {
    Ok(MomentKey {
        selected: key.selected,
        amounts: Vec::from_slice(alloc, key.amounts.as_slice())?,
    })
}

// A copy of the key of a place.
fn copy_of_place(alloc: Global, key: &PlaceKey) -> Result<PlaceKey, NoMemory> {
    Ok(PlaceKey {
        begun: key.begun,
        amounts: Vec::from_slice(alloc, key.amounts.as_slice())?,
        registers: key.registers,
        calls: Vec::from_slice(alloc, key.calls.as_slice())?,
    })
}

// A place at which nothing is known.
fn unknown(alloc: Global) -> Result<PackedKnown, NoMemory> {
    let known = Known {
        read: Facts::new(alloc),
        kept: Facts::new(alloc),
        last: Last::Nothing,
        sums: prove_facts::Sums::start(alloc, 0)?,
    };
    PackedKnown::new(alloc, &known)
}

// Adds a moment of which nothing is known.
fn add_moment(alloc: Global, tables: &mut Tables, key: &MomentKey) -> Result<(), NoMemory> {
    let copy = copy_of_moment(alloc, key)?;
    match tables.moments.insert_full(copy) {
        Ok((_, fresh)) => {
            if fresh {
                push(&mut tables.facts, Facts::new(alloc))?;
            }
            Ok(())
        }
        Err(_) => Err(NoMemory),
    }
}

// Adds a place at which nothing is known.
fn add_place(alloc: Global, tables: &mut Tables, key: &PlaceKey) -> Result<(), NoMemory> {
    let copy = copy_of_place(alloc, key)?;
    match tables.places.insert_full(copy) {
        Ok((_, fresh)) => {
            if fresh {
                push(&mut tables.known, unknown(alloc)?)?;
            }
            Ok(())
        }
        Err(_) => Err(NoMemory),
    }
}

/// Returns tables with the moments of others, of which nothing is known, and without places.
///
/// # Errors
///
/// Returns `NoMemory` if it is out of memory.
pub fn moments_alone(alloc: Global, tables: &Tables) -> Result<Tables, NoMemory> {
    let mut alone = Tables::new(alloc);
    for key in tables.moments.as_slice() {
        add_moment(alloc, &mut alone, key)?;
    }
    Ok(alone)
}

/// Makes the places of tables those with some numbers among `keys`; numbers without a key are left out.
///
/// # Errors
///
/// Returns `NoMemory` if it is out of memory.
pub fn set_places(
    alloc: Global,
    tables: &mut Tables,
    keys: &[PlaceKey],
    numbers: &[usize],
) -> Result<(), NoMemory> {
    tables.places.clear();
    tables.known.clear();
    for number in numbers {
        if *number < keys.len() {
            add_place(alloc, tables, &keys[*number])?;
        }
    }
    Ok(())
}

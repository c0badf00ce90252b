// What the search knows for sums at each place, in the form in which it is checked.
use model_device::NoMemory;
use prove_facts as searched;
use prove_facts::push;
use prove_forms::{Form, Listed, Origin, Origins, Term};
use prove_keys::{PUBLIC, PackedKnown};
use prove_sums::{More, Sums};
use std::alloc::Global;

// The place of a public byte in its segment.
fn place_of(at: u16) -> u32 {
    at.saturating_sub(PUBLIC) as u32
}

fn origin_of(origin: searched::Origin) -> Origin {
    match origin {
        searched::Origin::Unknown => Origin::Unknown,
        searched::Origin::Constant(value) => Origin::Constant(value),
        searched::Origin::Public(at) => Origin::Public(place_of(at)),
    }
}

fn origins_of(alloc: Global, sums: &searched::Sums) -> Result<Origins, NoMemory> {
    let mut listed = Vec::new(alloc);
    for known in &sums.origins {
        let origin = origin_of(known.origin);
        push(
            &mut listed,
            Listed {
                at: known.at as u32,
                origin,
            },
        )?;
    }
    Ok(Origins {
        own: sums.own,
        listed,
    })
}

// A form of the search; what it is to say is what it is written as.
fn form_of(alloc: Global, form: &searched::Form) -> Result<Form, NoMemory> {
    let mut terms = Vec::new(alloc);
    for term in &form.terms {
        let at = place_of(term.public);
        push(
            &mut terms,
            Term {
                at,
                factor: term.factor,
            },
        )?;
    }
    Ok(Form {
        constant: form.constant,
        terms,
        exact: true,
    })
}

// A loaded block with the block of its line; none if there is no such line.
fn more_of(
    alloc: Global,
    blocks: &[searched::Block],
    more: &searched::More,
) -> Result<Option<More>, NoMemory> {
    let Some(block) = blocks.get(more.line) else {
        return Ok(None);
    };
    Ok(Some(More {
        at: more.at,
        from: block.at,
        n: block.n,
        form: form_of(alloc, &more.form)?,
    }))
}

fn mores_of(
    alloc: Global,
    blocks: &[searched::Block],
    sums: &searched::Sums,
) -> Result<Vec<More>, NoMemory> {
    let mut mores = Vec::new(alloc);
    for more in &sums.more {
        if let Some(found) = more_of(alloc, blocks, more)? {
            push(&mut mores, found)?;
        }
    }
    Ok(mores)
}

fn off_of(alloc: Global, off: &Option<searched::Form>) -> Result<Option<Form>, NoMemory> {
    match off {
        Some(form) => Ok(Some(form_of(alloc, form)?)),
        None => Ok(None),
    }
}

fn offs_of(alloc: Global, sums: &searched::Sums) -> Result<Vec<Option<Form>>, NoMemory> {
    let mut offs = Vec::new(alloc);
    for off in &sums.off {
        push(&mut offs, off_of(alloc, off)?)?;
    }
    Ok(offs)
}

fn sums_of(
    alloc: Global,
    blocks: &[searched::Block],
    sums: &searched::Sums,
) -> Result<Sums, NoMemory> {
    Ok(Sums {
        origins: origins_of(alloc, sums)?,
        mores: mores_of(alloc, blocks, sums)?,
        offs: offs_of(alloc, sums)?,
    })
}

/// Returns what is known for sums at each place, in the order of the places. What this table says is checked, and not how
/// it came about.
///
/// # Errors
///
/// Returns `NoMemory` if it is out of memory.
pub fn table_of_sums(
    alloc: Global,
    blocks: &[searched::Block],
    known: &[PackedKnown],
) -> Result<Vec<Sums>, NoMemory> {
    let mut table = Vec::new(alloc);
    for packed in known {
        let known = packed.known(alloc)?;
        push(&mut table, sums_of(alloc, blocks, &known.sums)?)?;
    }
    Ok(table)
}

// The outcomes of a moment between commands.
use crate::events::{amounts_after, session};
use crate::keys::Outcome;
use crate::subject::Subject;
use lab_app_rules::Event;
use model_device::NoMemory;
use prove_events::{Class, lines_in};
use prove_facts::{Facts, Sums, Values, push};
use prove_keys::{Begun, DYNAMIC, Known, Last, MomentKey, PlaceKey, Registers};
use std::alloc::Global;

// The four bytes before CLA.
const PROTOCOL: u16 = 0xC400;
// The high byte of Lc.
const LC: u16 = 0xC409;

// Some bytes are zero.
fn set_zeros(facts: &mut Facts, from: u16, n: u16) -> Result<(), NoMemory> {
    for i in 0..n {
        facts.set(from.saturating_add(i), Values::one(0))?;
    }
    Ok(())
}

// A frame at its beginning, with the allowances and with facts.
fn begin(
    alloc: Global,
    subject: &Subject<'_>,
    begun: Begun,
    amounts: Vec<u32>,
    read: Facts,
    out: &mut Vec<Outcome>,
) -> Result<(), NoMemory> {
    let floor = subject.sizes.floor();
    let registers = Registers {
        at: 0,
        c: false,
        z: false,
        dt: floor,
        lb: floor,
        protected: false,
    };
    let sums = Sums::start(alloc, subject.sizes.blocks.len())?;
    let known = Known {
        read,
        kept: Facts::new(alloc),
        last: Last::Nothing,
        sums,
    };
    push(
        out,
        Outcome::Place(
            PlaceKey {
                begun,
                amounts,
                registers,
                calls: Vec::new(alloc),
            },
            known,
        ),
    )
}

// Another application delegates to this one.
fn delegated(
    alloc: Global,
    subject: &Subject<'_>,
    key: &MomentKey,
    facts: &Facts,
    out: &mut Vec<Outcome>,
) -> Result<(), NoMemory> {
    let mut read = facts.copied(alloc)?;
    set_zeros(&mut read, DYNAMIC, subject.sizes.session)?;
    let amounts = Vec::from_slice(alloc, key.amounts.as_slice())?;
    begin(alloc, subject, Begun::Delegated, amounts, read, out)
}

// The public bytes of a command of a class.
fn set_public(read: &mut Facts, class: &Class) -> Result<(), NoMemory> {
    set_zeros(read, PROTOCOL, 4)?;
    read.set(0xC404, class.cla)?;
    read.set(0xC405, class.ins)?;
    read.set(0xC406, class.p1)?;
    read.set(0xC407, class.p2)?;
    read.set(LC, Values::range(0, 4))?;
    set_zeros(read, 0xC40D, 2)?;
    read.set(0xC40F, Values::one(0x90))?;
    read.set(0xC410, Values::one(0))
}

// A command of a class reaches the application.
fn command(
    alloc: Global,
    subject: &Subject<'_>,
    number: usize,
    class: &Class,
    key: &MomentKey,
    facts: &Facts,
    out: &mut Vec<Outcome>,
) -> Result<(), NoMemory> {
    let matched = lines_in(alloc, subject.rules.ons.as_slice(), class, Event::Command)?;
    let Some(amounts) = amounts_after(
        alloc,
        subject,
        None,
        key.amounts.as_slice(),
        matched.as_slice(),
        out,
    )?
    else {
        return Ok(());
    };
    let mut read = facts.copied(alloc)?;
    set_public(&mut read, class)?;
    begin(alloc, subject, Begun::Class(number), amounts, read, out)
}

// The application is selected.
fn select(
    alloc: Global,
    subject: &Subject<'_>,
    key: &MomentKey,
    facts: &Facts,
    out: &mut Vec<Outcome>,
) -> Result<(), NoMemory> {
    let Some(amounts) = session(alloc, subject, key.amounts.as_slice(), out)? else {
        return Ok(());
    };
    let mut fresh = facts.part(alloc, 0, DYNAMIC as u32)?;
    set_zeros(&mut fresh, DYNAMIC, subject.sizes.session)?;
    push(
        out,
        Outcome::Moment(
            MomentKey {
                selected: true,
                amounts,
            },
            fresh,
        ),
    )
}

// The session ends.
fn leave(
    alloc: Global,
    subject: &Subject<'_>,
    key: &MomentKey,
    facts: &Facts,
    out: &mut Vec<Outcome>,
) -> Result<(), NoMemory> {
    let Some(amounts) = session(alloc, subject, key.amounts.as_slice(), out)? else {
        return Ok(());
    };
    let fixed = facts.part(alloc, 0, DYNAMIC as u32)?;
    push(
        out,
        Outcome::Moment(
            MomentKey {
                selected: false,
                amounts,
            },
            fixed,
        ),
    )
}

/// Returns the outcomes of a moment between commands.
///
/// # Errors
///
/// Returns `NoMemory` if it is out of memory.
pub fn moment_outcomes(
    alloc: Global,
    subject: &Subject<'_>,
    key: &MomentKey,
    facts: &Facts,
) -> Result<Vec<Outcome>, NoMemory> {
    let mut out = Vec::new(alloc);
    select(alloc, subject, key, facts, &mut out)?;
    if !key.selected {
        delegated(alloc, subject, key, facts, &mut out)?;
        return Ok(out);
    }
    leave(alloc, subject, key, facts, &mut out)?;
    for (number, class) in subject.classes.iter().enumerate() {
        command(alloc, subject, number, class, key, facts, &mut out)?;
    }
    Ok(out)
}

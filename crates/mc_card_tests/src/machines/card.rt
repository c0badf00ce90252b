// Applications in a bank in memory, and commands to them.
ghost use Rattle.std.specs.Prelude.{◌≡◌, ◌<◌, ◌≤◌, length, IfSome, IfOk};
ghost use Rattle.mc_bank.specs.Bank.{FitsLimits, IsGoodSite};
ghost use Rattle.mc_bank.specs.Memory.{memory_state, memory_room};

use mc_apdu::parse;
use mc_bank::{Bank, MemBank, Part, Site, Sizes};
use mc_machine::{Outcome, run};
use mc_segs::Session;
use mc_words::{Aid, Steps};
use std::alloc::Global;
use std::sync::ledger::Ledger;

/// Why a row could not be tested.
#[derive(Clone, Copy, Debug, PartialEq, Eq, Drop)]
pub enum Fault {
    NoMemory,
    NotHexadecimal,
    NoName,
    AboveLimits,
    NoRoom,
    NameTwice,
    Absent,
    WrongLength,
    BadBudget,
    Stopped,
}

/// An application: its code, the data that its static segment begins with, the size of that segment, and its access
/// list.
#[derive(Clone, Copy, Debug)]
pub struct Unit<'a> {
    pub code: &'a [u8],
    pub data: &'a [u8],
    pub fixed: u16,
    pub deny: u16,
}

/// Returns the sizes of an application without session bytes, DIR and FCI, or `None` if they are not within
/// the limits.
fn sizes_of(unit: &Unit<'_>) -> Option<Sizes>
    ensures limits { IfSome result (λ sizes. FitsLimits sizes) }
    ensures code { IfSome result (λ sizes. sizes.code ≡ length unit.now.code.now) }
    ensures init { IfSome result (λ sizes. sizes.init ≡ length unit.now.data.now) }
{
    if unit.code.is_empty() || unit.code.len() > 8192 || unit.fixed > 4096 || unit.deny > 15 {
        return None;
    }
    if unit.data.len() > unit.fixed as usize {
        return None;
    }
    Some(Sizes {
        code: unit.code.len() as u16,
        fixed: unit.fixed,
        init: unit.data.len() as u16,
        session: 0,
        dir: 0,
        fci: 0,
        deny: unit.deny,
    })
}

/// Returns a good site for a load of these sizes.
fn site_for<L: Ledger>(bank: &MemBank, sizes: &Sizes, steps: &mut Steps<L>) -> Result<Site, Fault>
    requires limits { FitsLimits sizes.now }
    ensures good { IfOk result (λ site. IsGoodSite (memory_state bank.now).apps (memory_room bank.now) site) }
    ensures sizes { IfOk result (λ site. site.sizes ≡ sizes.now) }
{
    match bank.open(sizes, steps) {
        Ok(site) => Ok(site),
        Err(_) => Err(Fault::NoRoom),
    }
}

/// Loads an application under a name.
pub fn load<L: Ledger>(
    bank: &mut MemBank,
    name: &Aid,
    unit: &Unit<'_>,
    steps: &mut Steps<L>,
) -> Result<(), Fault> {
    let Some(sizes) = sizes_of(unit) else {
        return Err(Fault::AboveLimits);
    };
    let site = site_for(bank, &sizes, steps)?;
    if bank.fill(&site, Part::Code, 0, unit.code).is_err() {
        return Err(Fault::Stopped);
    }
    if bank.fill(&site, Part::Data, 0, unit.data).is_err() {
        return Err(Fault::Stopped);
    }
    if bank.find(name).is_some() {
        return Err(Fault::NameTwice);
    }
    match bank.create(&site, name) {
        Ok(()) => Ok(()),
        Err(_) => Err(Fault::Stopped),
    }
}

/// Runs a command to an application under a budget, from session bytes of zero.
pub fn command<L: Ledger>(
    bank: &mut MemBank,
    name: &Aid,
    bytes: &[u8],
    budget: u32,
    steps: &mut Steps<L>,
) -> Result<Outcome, Fault> {
    if budget < 1 || budget > 65536 {
        return Err(Fault::BadBudget);
    }
    let Some(slot) = bank.find(name) else {
        return Err(Fault::Absent);
    };
    let Ok(apdu) = parse(bytes) else {
        return Err(Fault::WrongLength);
    };
    let mut session = Session::new(bank.facts(slot).sizes.session);
    match run(bank, slot, &mut session, &apdu, budget, steps) {
        Ok(outcome) => Ok(outcome),
        Err(_) => Err(Fault::Stopped),
    }
}

/// Returns the static bytes of an application.
pub fn static_bytes(alloc: Global, bank: &MemBank, name: &Aid) -> Result<Vec<u8>, Fault> {
    let Some(slot) = bank.find(name) else {
        return Err(Fault::Absent);
    };
    let Ok(mut bytes) = vec![in alloc; 0; bank.facts(slot).sizes.fixed as usize] else {
        return Err(Fault::NoMemory);
    };
    bank.fixed(slot, 0, bytes.as_mut_slice());
    Ok(bytes)
}

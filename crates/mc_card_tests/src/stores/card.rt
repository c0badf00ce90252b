// Applications loaded into a bank, changed and compared.
ghost use Rattle.std.specs.Prelude.{◌≡◌, ◌≤◌, ◌<◌, false, true, length, IfSome, OnOk, None, IsSome};
ghost use Rattle.mc_bank.specs.Bank.{FitsLimits, IsGoodSite};

use mc_bank::{Bank, OpenRefusal, Part, Site, Sizes, Slot};
use mc_words::{Aid, Steps, Stop, Word};
use std::sync::ledger::Ledger;

/// An application: its name, its code, the data that its static segment begins with, and the size of that segment. Its
/// DIR and its FCI name it.
#[derive(Clone, Copy, Debug, PartialEq, Eq)]
pub struct Unit {
    pub name: [u8; 5],
    pub code: &'static [u8],
    pub init: &'static [u8],
    pub fixed: u16,
}

/// A code that counts in its first two static bytes.
pub const COUNTER: &[u8] = &[0xB9, 2, 0, 0, 0x39, 2, 0, 0, 0x46, 2, 0, 0, 6, 0, 2];

/// Returns the counter with two static bytes, under a name with this last byte.
pub fn counter(last: u8) -> Unit {
    Unit {
        name: [0xA0, 0, 0, 0, last],
        code: COUNTER,
        init: &[],
        fixed: 2,
    }
}

/// Returns the counter with two static bytes, under one of many other names.
pub fn chained(last: u8) -> Unit {
    Unit {
        name: [0xA0, 0, 0, 1, last],
        ..counter(last)
    }
}

/// The result of a change.
#[derive(Clone, Copy, Debug, PartialEq, Eq, Drop)]
pub enum Came {
    Done,
    Apps,
    NoRoom,
    AboveLimits,
    NameTwice,
    Absent,
}

/// Returns the sizes of an application, or `None` if they are not within the limits.
pub fn sizes_of(unit: &Unit) -> Option<Sizes>
    ensures limits { IfSome result (λ sizes. FitsLimits sizes) }
    ensures code { IfSome result (λ sizes. sizes.code ≡ length unit.now.code.now) }
    ensures init { IfSome result (λ sizes. sizes.init ≡ length unit.now.init.now) }
    ensures dir { IfSome result (λ sizes. sizes.dir ≡ 9) }
    ensures fci { IfSome result (λ sizes. sizes.fci ≡ 9) }
{
    if unit.code.is_empty() || unit.code.len() > 8192 || unit.fixed > 4096 {
        return None;
    }
    if unit.init.len() > unit.fixed as usize {
        return None;
    }
    Some(Sizes {
        code: unit.code.len() as u16,
        fixed: unit.fixed,
        init: unit.init.len() as u16,
        session: 0,
        dir: 9,
        fci: 9,
        deny: 0,
    })
}

/// Loads an application.
pub fn load<B: Bank, L: Ledger>(
    bank: &mut B,
    unit: &Unit,
    steps: &mut Steps<L>,
) -> Result<Came, Stop>
    requires going { (B.state bank.old).stopped ≡ false }
    ensures going { OnOk result ((B.state bank.new).stopped ≡ false) }
{
    let Some(sizes) = sizes_of(unit) else {
        return Ok(Came::AboveLimits);
    };
    match bank.open(&sizes, steps) {
        Ok(site) => {
            fill(bank, &site, unit)?;
            create(bank, &site, unit)
        }
        Err(OpenRefusal::Apps) => Ok(Came::Apps),
        Err(OpenRefusal::NoRoom) => Ok(Came::NoRoom),
    }
}

/// Fills the sections of a site.
pub fn fill<B: Bank>(bank: &mut B, site: &Site, unit: &Unit) -> Result<(), Stop>
    requires going { (B.state bank.old).stopped ≡ false }
    requires good { IsGoodSite (B.state bank.old).apps (B.room bank.old) site.now }
    requires code { site.now.sizes.code ≡ length unit.now.code.now }
    requires init { site.now.sizes.init ≡ length unit.now.init.now }
    requires dir { site.now.sizes.dir ≡ 9 }
    requires fci { site.now.sizes.fci ≡ 9 }
    ensures going { OnOk result ((B.state bank.new).stopped ≡ false) }
    ensures good { OnOk result (IsGoodSite (B.state bank.new).apps (B.room bank.new) site.now) }
{
    let [a, b, c, d, e] = unit.name;
    bank.fill(site, Part::Code, 0, unit.code)?;
    bank.fill(site, Part::Data, 0, unit.init)?;
    bank.fill(site, Part::Dir, 0, &[0x61, 7, 0x4F, 5, a, b, c, d, e])?;
    bank.fill(site, Part::Fci, 0, &[0x6F, 7, 0x84, 5, a, b, c, d, e])
}

/// Makes an application of the bytes at a site.
pub fn create<B: Bank>(bank: &mut B, site: &Site, unit: &Unit) -> Result<Came, Stop>
    requires going { (B.state bank.old).stopped ≡ false }
    requires good { IsGoodSite (B.state bank.old).apps (B.room bank.old) site.now }
    ensures going { OnOk result ((B.state bank.new).stopped ≡ false) }
{
    let Some(aid) = Aid::new(&unit.name) else {
        return Ok(Came::AboveLimits);
    };
    if bank.find(&aid).is_some() {
        return Ok(Came::NameTwice);
    }
    bank.create(site, &aid)?;
    Ok(Came::Done)
}

/// Deletes an application.
pub fn delete<B: Bank>(bank: &mut B, unit: &Unit) -> Result<Came, Stop>
    requires going { (B.state bank.old).stopped ≡ false }
    ensures going { OnOk result ((B.state bank.new).stopped ≡ false) }
{
    let Some(slot) = slot_of(bank, &unit.name) else {
        return Ok(Came::Absent);
    };
    bank.delete(slot)?;
    Ok(Came::Done)
}

/// Commits two words of the static bytes of an application, the first and another.
pub fn commit<B: Bank>(
    bank: &mut B,
    unit: &Unit,
    first: Word,
    other: (u16, Word),
) -> Result<Came, Stop>
    requires going { (B.state bank.old).stopped ≡ false }
    ensures going { OnOk result ((B.state bank.new).stopped ≡ false) }
{
    let Some(slot) = slot_of(bank, &unit.name) else {
        return Ok(Came::Absent);
    };
    let fixed = bank.facts(slot).sizes.fixed;
    if other.0 < 1 || other.0 as u32 * 8 >= fixed as u32 {
        return Ok(Came::AboveLimits);
    }
    bank.commit(slot, &[(0, first), other])?;
    Ok(Came::Done)
}

/// Returns the slot of a name, or `None` if there is none.
pub fn slot_of<B: Bank>(bank: &B, name: &[u8; 5]) -> Option<Slot>
    requires { (B.state bank.now).stopped ≡ false }
    ensures { IfSome result (λ slot. IsSome (B.named bank.now slot)) }
{
    bank.find(&Aid::new(name)?)
}

/// Returns the first of these applications that is not in the bank with its code and static bytes, if those
/// are at most 64, or the number of applications if the bank has others; `None` if there is none.
pub fn first_wrong<B: Bank>(bank: &B, apps: &[(Unit, &'static [u8])]) -> Option<usize>
    requires { (B.state bank.now).stopped ≡ false }
{
    for (i, (unit, fixed)) in apps.iter().enumerate() {
        if !has(bank, unit, fixed) {
            return Some(i);
        }
    }
    if bank.count() as usize == apps.len() {
        None
    } else {
        Some(apps.len())
    }
}

// Whether a bank has an application with its code and these static bytes.
fn has<B: Bank>(bank: &B, unit: &Unit, fixed: &[u8]) -> bool
    requires { (B.state bank.now).stopped ≡ false }
{
    let Some(slot) = slot_of(bank, &unit.name) else {
        return false;
    };
    has_code(bank, slot, unit.code) && has_fixed(bank, slot, fixed)
}

fn has_code<B: Bank>(bank: &B, slot: Slot, code: &[u8]) -> bool
    requires going { (B.state bank.now).stopped ≡ false }
    requires there { IsSome (B.named bank.now slot) }
{
    let size = bank.facts(slot).sizes.code as usize;
    if size != code.len() || size > 64 {
        return false;
    }
    let mut found = [0; 64];
    bank.code(slot, 0, &mut found[..size]);
    &found[..size] == code
}

fn has_fixed<B: Bank>(bank: &B, slot: Slot, fixed: &[u8]) -> bool
    requires going { (B.state bank.now).stopped ≡ false }
    requires there { IsSome (B.named bank.now slot) }
{
    let size = bank.facts(slot).sizes.fixed as usize;
    if size != fixed.len() || size > 64 {
        return false;
    }
    let mut found = [0; 64];
    bank.fixed(slot, 0, &mut found[..size]);
    &found[..size] == fixed
}

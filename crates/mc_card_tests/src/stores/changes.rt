// Changes of a card in sequence, on a borrowed device.
ghost use Rattle.std.specs.Prelude.{◌≡◌, false, None, OnOk};

use crate::stores::bench::{Power, power_of};
use crate::stores::card::{Came, Unit, chained, commit, delete, first_wrong, load};
use mc_bank::Bank;
use mc_nvm::Bench;
use mc_store::Store;
use mc_words::{NoMemory, Steps, Stop, Word};
use std::alloc::Global;
use std::sync::ledger::Ledger;

/// A load, a deletion, or a commit of the first word of the static bytes and another.
#[derive(Clone, Copy, Debug, PartialEq, Eq)]
pub enum Change {
    Load(Unit),
    Delete(Unit),
    Commit(Unit, Word, (u16, Word)),
}

/// The result of changes after a power-up: all as due, the number of the first that was not, a stop, or no
/// store.
#[derive(Clone, Copy, Debug, PartialEq, Eq, Drop)]
pub enum Went {
    Through,
    Otherwise(usize, Came),
    Stopped(Stop),
    Nowhere(Power),
}

/// An application with its static bytes.
pub type App = (Unit, &'static [u8]);

/// Returns the loads of the first of many applications, of twelve words each, and deletions of some of them.
///
/// # Errors
///
/// Returns `NoMemory` if it is out of memory.
pub fn chain_of(alloc: Global, count: u8, deleted: &[u8]) -> Result<Vec<(Change, Came)>, NoMemory> {
    let mut rows = Vec::new(alloc);
    for last in 1..=count {
        rows.extend_from_slice(&[(Change::Load(chained(last)), Came::Done)])?;
    }
    for last in deleted {
        rows.extend_from_slice(&[(Change::Delete(chained(*last)), Came::Done)])?;
    }
    Ok(rows)
}

/// Makes one change.
pub fn make<B: Bank, L: Ledger>(
    bank: &mut B,
    change: &Change,
    steps: &mut Steps<L>,
) -> Result<Came, Stop>
    requires going { (B.state bank.old).stopped ≡ false }
    ensures going { OnOk result ((B.state bank.new).stopped ≡ false) }
{
    match change {
        Change::Load(unit) => load(bank, unit, steps),
        Change::Delete(unit) => delete(bank, unit),
        Change::Commit(unit, first, other) => commit(bank, unit, *first, *other),
    }
}

/// Makes changes in sequence until one has another result than the one due.
pub fn make_all<B: Bank, L: Ledger>(
    bank: &mut B,
    rows: &[(Change, Came)],
    steps: &mut Steps<L>,
) -> Went
    requires going { (B.state bank.old).stopped ≡ false }
    ensures going { result ≡ Went.Through → (B.state bank.new).stopped ≡ false }
{
    for (i, (change, due)) in rows.iter().enumerate() {
        match make(bank, change, steps) {
            Ok(came) if came == *due => {}
            Ok(came) => return Went::Otherwise(i, came),
            Err(stop) => return Went::Stopped(stop),
        }
    }
    Went::Through
}

/// Turns power on, and makes changes on the store of the words.
pub fn play<N: Bench, L: Ledger>(
    device: &mut N,
    rows: &[(Change, Came)],
    steps: &mut Steps<L>,
) -> Went {
    device.power();
    match Store::power_up(device) {
        Ok((mut store, _)) => {
            let went = make_all(&mut store, rows, steps);
            let _device = store.into_dev();
            went
        }
        Err((_, up)) => Went::Nowhere(power_of(up)),
    }
}

/// The result of a power-up, and the first of these applications that is not as due.
#[derive(Clone, Copy, Debug, PartialEq, Eq, Drop)]
pub struct Shown {
    pub power: Power,
    pub wrong: Option<usize>,
}

/// Turns power on, and compares the applications.
pub fn show<N: Bench>(device: &mut N, apps: &[App]) -> Shown {
    device.power();
    match Store::power_up(device) {
        Ok((store, writes)) => {
            let wrong = first_wrong(&store, apps);
            let _device = store.into_dev();
            Shown {
                power: Power::Ready(writes),
                wrong,
            }
        }
        Err((_, up)) => Shown {
            power: power_of(up),
            wrong: Some(0),
        },
    }
}

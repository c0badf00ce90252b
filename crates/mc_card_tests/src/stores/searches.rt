// The number of words that a search by name, a power-up and the fetches of a command read.
ghost use Rattle.std.specs.Prelude.{◌≡◌, ◌<◌, true, false, IfOk};
ghost use Rattle.mc_nvm.specs.Sim.{sim_state};

use crate::stores::bench::format;
use crate::stores::card::{COUNTER, Came, Unit, slot_of};
use crate::stores::changes::{Change, Went, make_all};
use crate::stores::counting::Counting;
use mc_apdu::parse;
use mc_bank::Bank;
use mc_machine::run;
use mc_nvm::{Bench, DEVICE_WORDS, SimNvm};
use mc_segs::Session;
use mc_store::Store;
use mc_words::{Aid, NoMemory, Steps};
use std::alloc::Global;
use std::cell::Cell;
use std::marker::Brand;
use std::sync::ledger::{Blank, Ledger};
use std::test::Fail;

/// The reads of a search for a name that is there, for one that begins otherwise, and for a longer one that begins
/// with the first eight bytes of each; of a command of 13 instructions; and of a power-up.
#[derive(Clone, Copy, Debug, PartialEq, Eq, Drop)]
struct Reads {
    found: u32,
    absent: u32,
    alike: u32,
    command: u32,
    power: u32,
}

// NOP twelve times, and EXIT.
const IDLE: &[u8] = &[0, 0, 0, 0, 0, 0, 0, 0, 0, 0, 0, 0, 4];

// An application with this code under one of many names.
fn unit(last: u8, code: &'static [u8]) -> Unit {
    Unit {
        name: [0xA0, 0, 0, 1, last],
        code,
        init: &[],
        fixed: 2,
    }
}

// A load of it.
fn load(last: u8, code: &'static [u8]) -> (Change, Came) {
    (Change::Load(unit(last, code)), Came::Done)
}

// The reads of a search for a name.
fn count_find<B: Bank>(bank: &B, name: &[u8], reads: &Cell<u32>) -> Option<u32>
    requires going { (B.state bank.now).stopped ≡ false }
{
    let aid = Aid::new(name)?;
    reads.set(0);
    let _slot = bank.find(&aid);
    Some(reads.get())
}

// The reads of a command to the application with a name.
fn count_command<B: Bank, L: Ledger>(
    bank: &mut B,
    name: &[u8; 5],
    reads: &Cell<u32>,
    steps: &mut Steps<L>,
) -> Option<u32>
    requires going { (B.state bank.old).stopped ≡ false }
{
    let slot = slot_of(bank, name)?;
    let Ok(apdu) = parse(&[0x80, 1, 0, 0]) else {
        return None;
    };
    let mut session = Session::new(bank.facts(slot).sizes.session);
    reads.set(0);
    match run(bank, slot, &mut session, &apdu, 100, steps) {
        Ok(_) => Some(reads.get()),
        Err(_) => None,
    }
}

// A device of 8,192 words with an empty card and power.
fn empty_card(alloc: Global) -> Result<SimNvm, NoMemory>
    ensures { IfOk result (λ device. (sim_state device).on ≡ true) }
{
    let mut device = SimNvm::new(alloc, DEVICE_WORDS)?;
    format(&mut device);
    device.power();
    Ok(device)
}

// Loads the application that does nothing, and `count` counters.
fn load_all<B: Bank, L: Ledger>(bank: &mut B, count: u8, steps: &mut Steps<L>) -> bool
    requires going { (B.state bank.old).stopped ≡ false }
    ensures going { result ≡ true → (B.state bank.new).stopped ≡ false }
{
    if make_all(bank, &[load(0, IDLE)], steps) != Went::Through {
        return false;
    }
    for last in 1..=count {
        if make_all(bank, &[load(last, COUNTER)], steps) != Went::Through {
            return false;
        }
    }
    true
}

// The reads on a card.
fn count_on<B: Bank, L: Ledger>(
    bank: &mut B,
    reads: &Cell<u32>,
    steps: &mut Steps<L>,
) -> Option<Reads>
    requires going { (B.state bank.old).stopped ≡ false }
{
    Some(Reads {
        found: count_find(bank, &[0xA0, 0, 0, 1, 0], reads)?,
        absent: count_find(bank, &[0xB0, 0, 0, 1, 0], reads)?,
        alike: count_find(bank, &[0xA0, 0, 0, 1, 0, 0xFF, 0xFF, 0xFF, 1], reads)?,
        command: count_command(bank, &[0xA0, 0, 0, 1, 0], reads, steps)?,
        power: 0,
    })
}

// The reads on a card with `count` counters and one application that does nothing.
fn reads_over<L: Ledger>(alloc: Global, blank: Blank, count: u8) -> Result<Option<Reads>, NoMemory>
    requires name { blank.name ≡ L.name }
    requires parts { blank.parts ≡ L.parts }
    requires some { 0 < blank.parts }
{
    let mut steps = Steps::<L>::new(blank);
    let reads = Cell::new(0);
    let device = Counting {
        device: empty_card(alloc)?,
        reads: &reads,
    };
    let Ok((mut store, _)) = Store::power_up(device) else {
        return Ok(None);
    };
    if !load_all(&mut store, count, &mut steps) {
        return Ok(None);
    }
    let Some(seen) = count_on(&mut store, &reads, &mut steps) else {
        return Ok(None);
    };
    let mut device = store.into_dev();
    device.device.power();
    reads.set(0);
    match Store::power_up(device) {
        Ok(_) => Ok(Some(Reads {
            power: reads.get(),
            ..seen
        })),
        Err(_) => Ok(None),
    }
}

// The reads on a card, with steps of their own.
fn searches(alloc: Global, count: u8) -> Result<Option<Reads>, NoMemory> {
    reads_over::<Brand>(alloc, Blank::new(1), count)
}

// A search reads two words of each block, three more where the first eight bytes of the name are those of its
// application, and no more once the name is found. A command reads the record of its application, and at each
// instruction the words that the next six bytes of code lie in. A power-up reads nine words of each application.
#[test]
fn reads_of_searches(rt: HostRuntime) -> Result<(), Fail> {
    for count in [0, 1, 2, 31] {
        let apps = count as u32 + 1;
        let reads = searches(rt.alloc(), count)?;
        // The fetches of 13 bytes of code: one word at three places, two at the next five, one at the last five.
        let due = Reads {
            found: 5,
            absent: 2 * apps + 1,
            alike: 2 * apps + 4,
            command: 4 + 3 + 2 * 5 + 5,
            power: 9 * apps + 10,
        };
        assert_eq!(rt; reads, Some(due));
    }
    Ok(())
}

// The number of words that a store reads to find room, to fill a hole and to free a block.
ghost use Rattle.std.specs.Prelude.{◌≡◌, ◌<◌, true, false, IsSome, IfSome, IfOk};
ghost use Rattle.model_device.specs.Image.{Closed, look};
ghost use Rattle.model_device.specs.Card.{means};
ghost use Rattle.model_device.specs.Layout.{spans, IsWellLaid};
ghost use Rattle.mc_nvm.specs.Sim.{sim_state};
ghost use Rattle.mc_blocks.specs.Plans.{has_span};
ghost use Rattle.mc_store.specs.Store.{is_going, store_named};
ghost use Rattle.mc_store.specs.Power.{device_of, count_of};

use crate::stores::bench::format;
use crate::stores::card::{Came, Unit, chained, fill, sizes_of, slot_of};
use crate::stores::changes::{Change, Went, chain_of, make_all};
use crate::stores::counting::Counting;
use mc_bank::{Bank, Slot};
use mc_blocks::{first_fit, fits_room, free_plan, take_plan};
use mc_nvm::{Bench, DEVICE_WORDS, Nvm, Probe, SimNvm};
use mc_store::Store;
use mc_words::{Aid, NoMemory, Steps};
use std::alloc::Global;
use std::cell::Cell;
use std::marker::Brand;
use std::sync::ledger::{Blank, Ledger};
use std::test::Fail;

/// The reads of a search for room, of the creation there, and of a deletion; and those of bytes of the new application.
#[derive(Clone, Copy, Debug, PartialEq, Eq, Drop)]
struct Reads {
    open: u32,
    create: u32,
    delete: u32,
    bytes: Fetches,
}

/// The reads of a fetch of six bytes that lie in one word, and in two, and of two static bytes in one word.
#[derive(Clone, Copy, Debug, PartialEq, Eq, Drop)]
struct Fetches {
    one: u32,
    two: u32,
    fixed: u32,
}

/// The reads of a search for 13 words and its result, of the plan to take them there, and of the plan to free
/// a block.
#[derive(Clone, Copy, Debug, PartialEq, Eq, Drop)]
struct Plans {
    place: u16,
    search: u32,
    take: u32,
    free: u32,
}

// The reads of a load and of a deletion.
fn count_reads<B: Bank, L: Ledger>(
    bank: &mut B,
    loaded: &Unit,
    deleted: &Unit,
    reads: &Cell<u32>,
    steps: &mut Steps<L>,
) -> Option<Reads>
    requires going { (B.state bank.old).stopped ≡ false }
{
    let sizes = sizes_of(loaded)?;
    let aid = Aid::new(&loaded.name)?;
    reads.set(0);
    let site = bank.open(&sizes, steps).ok()?;
    let open = reads.get();
    fill(bank, &site, loaded).ok()?;
    if bank.find(&aid).is_some() {
        return None;
    }
    reads.set(0);
    bank.create(&site, &aid).ok()?;
    let create = reads.get();
    let made = slot_of(bank, &loaded.name)?;
    let bytes = count_fetches(bank, made, reads)?;
    let slot = slot_of(bank, &deleted.name)?;
    reads.set(0);
    bank.delete(slot).ok()?;
    Some(Reads {
        open,
        create,
        delete: reads.get(),
        bytes,
    })
}

// The reads of bytes of an application with at least nine bytes of code and two static bytes.
fn count_fetches<B: Bank>(bank: &B, slot: Slot, reads: &Cell<u32>) -> Option<Fetches>
    requires going { (B.state bank.now).stopped ≡ false }
    requires there { IsSome (B.named bank.now slot) }
{
    let sizes = bank.facts(slot).sizes;
    if sizes.code < 9 || sizes.fixed < 2 {
        return None;
    }
    let mut window = [0; 6];
    reads.set(0);
    bank.code(slot, 1, &mut window);
    let one = reads.get();
    reads.set(0);
    bank.code(slot, 3, &mut window);
    let two = reads.get();
    reads.set(0);
    bank.fixed(slot, 0, &mut window[..2]);
    Some(Fetches {
        one,
        two,
        fixed: reads.get(),
    })
}

// A device of 8,192 words with an empty card and power.
fn empty_card(alloc: Global) -> Result<SimNvm, NoMemory>
    ensures { IfOk result (λ device. (sim_state device).on ≡ true) }
{
    let mut device = SimNvm::new(alloc, DEVICE_WORDS)?;
    format(&mut device);
    device.power();
    Ok(device)
}

// The reads on a card after some changes.
fn reads_over<L: Ledger>(
    alloc: Global,
    blank: Blank,
    rows: &[(Change, Came)],
) -> Result<Option<Reads>, NoMemory>
    requires name { blank.name ≡ L.name }
    requires parts { blank.parts ≡ L.parts }
    requires some { 0 < blank.parts }
{
    let mut steps = Steps::<L>::new(blank);
    let reads = Cell::new(0);
    let device = Counting {
        device: empty_card(alloc)?,
        reads: &reads,
    };
    let Ok((mut store, _)) = Store::power_up(device) else {
        return Ok(None);
    };
    let seen = reads_of(&mut store, rows, &reads, &mut steps);
    let _device = store.into_dev();
    Ok(seen)
}

fn reads_of<B: Bank, L: Ledger>(
    bank: &mut B,
    rows: &[(Change, Came)],
    reads: &Cell<u32>,
    steps: &mut Steps<L>,
) -> Option<Reads>
    requires going { (B.state bank.old).stopped ≡ false }
{
    let _last = slot_of_twentieth(bank, rows, steps)?;
    count_reads(bank, &chained(33), &chained(20), reads, steps)
}

// Makes changes, and returns the slot of the twentieth application.
fn slot_of_twentieth<B: Bank, L: Ledger>(
    bank: &mut B,
    rows: &[(Change, Came)],
    steps: &mut Steps<L>,
) -> Option<Slot>
    requires going { (B.state bank.old).stopped ≡ false }
    ensures going { IfSome result (λ slot. (B.state bank.new).stopped ≡ false) }
    ensures there { IfSome result (λ slot. IsSome (B.named bank.new slot)) }
{
    if make_all(bank, rows, steps) != Went::Through {
        return None;
    }
    slot_of(bank, &chained(20).name)
}

// The reads of the search and of the plans on such cards.
fn plans_over<L: Ledger>(
    alloc: Global,
    blank: Blank,
    rows: &[(Change, Came)],
) -> Result<Option<Plans>, NoMemory>
    requires name { blank.name ≡ L.name }
    requires parts { blank.parts ≡ L.parts }
    requires some { 0 < blank.parts }
{
    let mut steps = Steps::<L>::new(blank);
    let reads = Cell::new(0);
    let device = Counting {
        device: empty_card(alloc)?,
        reads: &reads,
    };
    let Ok((mut store, _)) = Store::power_up(device) else {
        return Ok(None);
    };
    match slot_of_twentieth(&mut store, rows, &mut steps) {
        Some(slot) => Ok(count_plans(store, slot, &reads, &mut steps)),
        None => {
            let _device = store.into_dev();
            Ok(None)
        }
    }
}

fn count_plans<L: Ledger>(
    store: Store<Counting<'_>>,
    slot: Slot,
    reads: &Cell<u32>,
    steps: &mut Steps<L>,
) -> Option<Plans>
    requires going { is_going (sim_state (device_of store).device) (count_of store) ≡ true }
    requires there { IsSome (store_named (sim_state (device_of store).device) slot) }
{
    let device = store.into_dev();
    let _size = device.len();
    plans_of(&device, slot.index(), reads, steps)
}

// The reads on words that are a card with a used block at this place.
fn plans_of<N: Nvm, L: Ledger>(
    device: &N,
    block: u16,
    reads: &Cell<u32>,
    steps: &mut Steps<L>,
) -> Option<Plans>
    requires closed { look (N.state device.now).words ≡ Closed }
    requires laid { IsWellLaid (N.state device.now).words }
    requires used { has_span block (spans (means (N.state device.now).words)) ≡ true }
{
    let _size = device.len();
    fits_room();
    reads.set(0);
    let place = first_fit(&Probe::new(device), 13, steps)?;
    let search = reads.get();
    reads.set(0);
    let _taken = take_plan(device, place, 13);
    let take = reads.get();
    reads.set(0);
    let _freed = free_plan(device, block);
    Some(Plans {
        place,
        search,
        take,
        free: reads.get(),
    })
}

// The reads on a card with `count` applications, after some of them are deleted.
fn store_reads(alloc: Global, count: u8, deleted: &[u8]) -> Result<Option<Reads>, NoMemory> {
    let rows = chain_of(alloc, count, deleted)?;
    reads_over::<Brand>(alloc, Blank::new(1), rows.as_slice())
}

// The reads of plans on a card with twenty applications, after some of them are deleted.
fn plan_reads(alloc: Global, deleted: &[u8]) -> Result<Option<Plans>, NoMemory> {
    let rows = chain_of(alloc, 20, deleted)?;
    plans_over::<Brand>(alloc, Blank::new(1), rows.as_slice())
}

const CARDS: &[(u8, &[u8], u32)] = &[
    (20, &[], 1),
    (20, &[2, 4], 3),
    (20, &[2, 4, 3], 2),
    (20, &[2, 4, 6, 8], 5),
    (31, &[], 1),
    (32, &[2], 2),
    (32, &[2, 4], 3),
];

// Whether there are at most two more reads than there are holes to find room, and eight more to create or to delete;
// and whether a read of bytes of an application takes the reads of the words that they lie in.
fn are_few(reads: &Option<Reads>, holes: u32) -> bool {
    let Some(reads) = reads else {
        return false;
    };
    let due = Fetches {
        one: 1,
        two: 2,
        fixed: 1,
    };
    reads.open <= holes.saturating_add(2)
        && reads.create.max(reads.delete) <= holes.saturating_add(8)
        && reads.bytes == due
}

// Along the chain of holes alone, both on a full card and on one with twenty applications.
#[test]
fn reads_of_a_store(rt: HostRuntime) -> Result<(), Fail> {
    for (count, deleted, holes) in CARDS {
        let reads = store_reads(rt.alloc(), *count, deleted)?;
        assert!(rt;
            are_few(&reads, *holes),
            "{count} applications, {holes} holes: {reads:?}"
        );
    }
    Ok(())
}

const HOLES: &[(&[u8], u32, u16, u32)] = &[
    (&[], 1, 371, 2),
    (&[2, 4], 3, 371, 4),
    (&[2, 4, 3], 2, 143, 2),
];

// Whether a search has this place and this number of reads, and a plan at most four more reads than there are holes.
fn is_planned(plans: &Option<Plans>, holes: u32, place: u16, search: u32) -> bool {
    let Some(plans) = plans else {
        return false;
    };
    let most = holes.saturating_add(4);
    plans.place == place && plans.search == search && plans.take <= most && plans.free <= most
}

#[test]
fn reads_of_plans(rt: HostRuntime) -> Result<(), Fail> {
    for (deleted, holes, place, search) in HOLES {
        let plans = plan_reads(rt.alloc(), deleted)?;
        assert!(rt;
            is_planned(&plans, *holes, *place, *search),
            "{holes} holes: {plans:?}"
        );
    }
    Ok(())
}

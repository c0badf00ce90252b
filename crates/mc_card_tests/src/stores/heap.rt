// The words of cards after loads and deletions, with room and without.
ghost use Rattle.std.specs.Prelude.{◌≡◌, ◌<◌, ◌≤◌};

use crate::stores::bench::{Power, format, number_at, power_up, stop_at};
use crate::stores::card::{COUNTER, Came, Unit};
use crate::stores::changes::{App, Change, Shown, Went, chain_of, play, show};
use crate::stores::rule::{OPEN_2, ZERO};
use mc_nvm::{DEVICE_WORDS, SimNvm};
use mc_words::{NoMemory, Steps, Stop, Word};
use std::alloc::Global;
use std::marker::Brand;
use std::sync::ledger::{Blank, Ledger};
use std::test::Fail;

// The results of changes on an empty card, and the first of these words that is not as due.
#[derive(Clone, Copy, Debug, PartialEq, Eq, Drop)]
struct Seen {
    went: Went,
    wrong: Option<u16>,
}

const WELL: Seen = Seen {
    went: Went::Through,
    wrong: None,
};

fn played<L: Ledger>(
    alloc: Global,
    blank: Blank,
    size: u32,
    rows: &[(Change, Came)],
    words: &[(u16, u64)],
) -> Result<Seen, NoMemory>
    requires low { 256 ≤ size }
    requires high { size ≤ 16384 }
    requires name { blank.name ≡ L.name }
    requires parts { blank.parts ≡ L.parts }
    requires some { 0 < blank.parts }
{
    let mut device = SimNvm::new(alloc, size)?;
    let mut steps = Steps::<L>::new(blank);
    format(&mut device);
    let went = play(&mut device, rows, &mut steps);
    Ok(Seen {
        went,
        wrong: wrong_word(&device, words),
    })
}

// Changes on an empty card, with steps of their own.
fn words_after(
    alloc: Global,
    size: u32,
    rows: &[(Change, Came)],
    words: &[(u16, u64)],
) -> Result<Seen, NoMemory>
    requires low { 256 ≤ size }
    requires high { size ≤ 16384 }
{
    played::<Brand>(alloc, Blank::new(1), size, rows, words)
}

fn wrong_word(device: &SimNvm, words: &[(u16, u64)]) -> Option<u16> {
    for (at, word) in words {
        if number_at(device, *at) != *word {
            return Some(*at);
        }
    }
    None
}

// Blank devices are not cards. An empty card has five words, and no writes for recovery.
#[test]
fn empty_cards(rt: HostRuntime) -> Result<(), Fail> {
    let due = (
        Power::Unusable(mc_blocks::Cause::NoRoot, 0),
        None,
        Power::Ready(0),
        Power::Ready(0),
    );
    let large = empty_card(rt.alloc(), 8192, 0x4D454C0220000083, 0x48001F7D00000000)?;
    assert_eq!(rt; large, due);
    let small = empty_card(rt.alloc(), 256, 0x4D454C0201000083, 0x4800007D00000000)?;
    assert_eq!(rt; small, due);
    Ok(())
}

// The result of the power-up of a blank device, the first word of the empty card on it that is not as due, and the
// results of two power-ups of the card.
fn empty_card(
    alloc: Global,
    size: u32,
    root: u64,
    hole: u64,
) -> Result<(Power, Option<u16>, Power, Power), NoMemory>
    requires low { 256 ≤ size }
    requires high { size ≤ 16384 }
{
    let mut device = SimNvm::new(alloc, size)?;
    let blank = power_up(&mut device);
    format(&mut device);
    let words = [
        (0, root),
        (1, 0x534855542D2D2D2D),
        (2, 0),
        (3, 0xFFFFFFFFFFFFFFFF),
        (130, 0x534855542D2D2D2D),
        (131, hole),
    ];
    let wrong = wrong_word(&device, &words);
    let first = power_up(&mut device);
    Ok((blank, wrong, first, power_up(&mut device)))
}

// The counter with two static bytes, under three names.
const FIRST: Unit = Unit {
    name: [0xA0, 0, 0, 0, 1],
    code: COUNTER,
    init: &[],
    fixed: 2,
};

const SECOND: Unit = Unit {
    name: [0xA0, 0, 0, 0, 2],
    ..FIRST
};

const THIRD: Unit = Unit {
    name: [0xA0, 0, 0, 0, 3],
    ..FIRST
};

const LOAD: &[(Change, Came)] = &[(Change::Load(FIRST), Came::Done)];

// One load.
#[test]
fn one_load(rt: HostRuntime) -> Result<(), Fail> {
    let words = [
        (0, 0x4D454C022000008F),
        (131, 0x5500000C00000000),
        (143, 0x48001F7100000000),
    ];
    assert_eq!(rt; words_after(rt.alloc(), DEVICE_WORDS, LOAD, &words)?, WELL);
    Ok(())
}

const SIZED: &[(Change, Came)] = &[
    (
        Change::Load(Unit {
            fixed: 400,
            ..FIRST
        }),
        Came::Done,
    ),
    (
        Change::Load(Unit {
            fixed: 400,
            ..SECOND
        }),
        Came::Done,
    ),
    (
        Change::Load(Unit {
            fixed: 424,
            ..THIRD
        }),
        Came::NoRoom,
    ),
    (Change::Delete(SECOND), Came::Done),
    (
        Change::Load(Unit {
            fixed: 432,
            ..THIRD
        }),
        Came::NoRoom,
    ),
    (
        Change::Load(Unit {
            fixed: 424,
            ..THIRD
        }),
        Came::Done,
    ),
    (Change::Load(THIRD), Came::NoRoom),
];

// The third load has no room until there is a hole of 64 words.
#[test]
fn room(rt: HostRuntime) -> Result<(), Fail> {
    let words = [
        (0, 0x4D454C0201000000),
        (131, 0x5500003D00000000),
        (192, 0x5500004000000000),
    ];
    assert_eq!(rt; words_after(rt.alloc(), 256, SIZED, &words)?, WELL);
    Ok(())
}

// The results of twenty loads and of deletions on an empty card.
fn chain_after(alloc: Global, deleted: &[u8], words: &[(u16, u64)]) -> Result<Seen, NoMemory> {
    let rows = chain_of(alloc, 20, deleted)?;
    words_after(alloc, DEVICE_WORDS, rows.as_slice(), words)
}

// Twenty applications, and holes in the places of some of them.
#[test]
fn hole_chain(rt: HostRuntime) -> Result<(), Fail> {
    let two = [
        (0, 0x4D454C022000008F),
        (143, 0x4800000C00A70000),
        (167, 0x4800000C01730000),
        (371, 0x48001E8D00000000),
    ];
    let one = [
        (0, 0x4D454C022000008F),
        (143, 0x4800002401730000),
        (371, 0x48001E8D00000000),
    ];
    assert_eq!(rt; chain_after(rt.alloc(), &[2, 4], &two)?, WELL);
    assert_eq!(rt; chain_after(rt.alloc(), &[2, 4, 3], &one)?, WELL);
    Ok(())
}

const FULL: Unit = Unit {
    name: [0xA0, 0, 0, 0, 6],
    code: &[4],
    init: &[0xDE, 0xAD, 0xBE, 0xEF, 0xDE, 0xAD, 0xBE, 0xEF],
    fixed: 8,
};

const EMPTY: Unit = Unit {
    name: [0xA0, 0, 0, 0, 7],
    code: &[4],
    init: &[],
    fixed: 8,
};

// The card after changes that may be stopped at write `k`.
fn left_by<L: Ledger>(
    alloc: Global,
    blank: Blank,
    rows: &[(Change, Came)],
    k: u16,
    fill: Word,
    apps: &[App],
) -> Result<(Went, Shown), NoMemory>
    requires name { blank.name ≡ L.name }
    requires parts { blank.parts ≡ L.parts }
    requires some { 0 < blank.parts }
{
    let mut device = SimNvm::new(alloc, DEVICE_WORDS)?;
    let mut steps = Steps::<L>::new(blank);
    format(&mut device);
    stop_at(&mut device, Stop::Off, k, fill);
    let went = play(&mut device, rows, &mut steps);
    Ok((went, show(&mut device, apps)))
}

// The card after such changes, with steps of their own.
fn stands_after(
    alloc: Global,
    rows: &[(Change, Came)],
    k: u16,
    fill: Word,
    apps: &[App],
) -> Result<(Went, Shown), NoMemory> {
    left_by::<Brand>(alloc, Blank::new(1), rows, k, fill, apps)
}

const REPLACED: &[(Change, Came)] = &[
    (Change::Load(FULL), Came::Done),
    (Change::Delete(FULL), Came::Done),
    (Change::Load(EMPTY), Came::Done),
];

const REPLACES: &[App] = &[(EMPTY, &[0; 8])];

// A card as due, whose power-up made this number of writes.
fn shown(writes: u16) -> Shown {
    Shown {
        power: Power::Ready(writes),
        wrong: None,
    }
}

// An application without data, in the words of a deleted one with data.
#[test]
fn no_stale_byte(rt: HostRuntime) -> Result<(), Fail> {
    let seen = stands_after(rt.alloc(), REPLACED, 0, ZERO, REPLACES)?;
    assert_eq!(rt; seen, (Went::Through, shown(0)));
    Ok(())
}

const LOADED: &[App] = &[(FIRST, &[0, 0])];

// A load of 21 writes, cut in the write before its gate opens, and in the one that opens it.
#[test]
fn cut_in_a_load(rt: HostRuntime) -> Result<(), Fail> {
    let before = stands_after(rt.alloc(), LOAD, 16, ZERO, &[])?;
    assert_eq!(rt; before, (Went::Stopped(Stop::Off), shown(0)));
    let opened = stands_after(rt.alloc(), LOAD, 17, OPEN_2, LOADED)?;
    assert_eq!(rt; opened, (Went::Stopped(Stop::Off), shown(4)));
    Ok(())
}

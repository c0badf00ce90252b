// Cards of layout 1 that become cards of layout 2, stopped at each write.
ghost use Rattle.std.specs.Prelude.{◌≡◌, ◌<◌};

use crate::stores::bench::{Power, format, number_at, power_up, set_number, stop_at};
use crate::stores::card::{COUNTER, Came, Unit};
use crate::stores::changes::{App, Change, Shown, play, show};
use crate::stores::image::{Image, due_word, image_of, restore, writes_of};
use crate::stores::rule::{Atomic, OPEN_1, OPEN_2, ZERO};
use mc_blocks::Cause;
use mc_nvm::{DEVICE_WORDS, SimNvm, TapeNvm};
use mc_words::{NoMemory, Steps, Stop, Word};
use std::alloc::Global;
use std::marker::Brand;
use std::sync::ledger::{Blank, Ledger};
use std::test::Fail;

/// Words that are set on an empty card of layout 1, and power-ups: the write at which each is cut, or 0, the
/// word that the cut leaves, and the result.
type Row = (&'static [(u16, u64)], &'static [(u16, Word, Power)]);

const OFF: Power = Power::Stopped(Stop::Off);

const ROWS: &[Row] = &[
    (
        &[],
        &[(0, ZERO, Power::Ready(6)), (0, ZERO, Power::Ready(0))],
    ),
    (&[], &[(3, ZERO, OFF), (0, ZERO, Power::Ready(6))]),
    (
        &[],
        &[
            (4, OPEN_1, OFF),
            (0, ZERO, Power::Ready(2)),
            (0, ZERO, Power::Ready(0)),
        ],
    ),
    (
        &[],
        &[
            (5, [0x4D, 0x45, 0x4C, 1, 0x20, 0, 0, 0x83], OFF),
            (0, ZERO, Power::Ready(2)),
        ],
    ),
    (&[], &[(6, ZERO, OFF), (0, ZERO, Power::Ready(0))]),
    (&[], &[(6, OPEN_1, OFF), (0, ZERO, Power::Ready(2))]),
    (
        &[
            (1, 0x4F50454E2D312D2D),
            (2, 1),
            (3, 0x83),
            (4, 0x48001F7D00000000),
        ],
        &[(0, ZERO, Power::Ready(8)), (0, ZERO, Power::Ready(0))],
    ),
    (
        &[(1, 0x4F50454E2D312D2D), (130, 0x4F50454E2D322D2D)],
        &[(0, ZERO, Power::Unusable(Cause::BadJournal, 1))],
    ),
];

const ROOT_1: u64 = 0x4D454C0120000083;

// The first power-up with another result.
fn first_other(alloc: Global, row: &Row) -> Result<Option<usize>, NoMemory> {
    let (words, ups) = row;
    let mut device = SimNvm::new(alloc, DEVICE_WORDS)?;
    format(&mut device);
    set_number(&mut device, 0, ROOT_1);
    for (at, number) in *words {
        set_number(&mut device, *at, *number);
    }
    Ok(other_power(&mut device, ups))
}

fn other_power(device: &mut SimNvm, ups: &[(u16, Word, Power)]) -> Option<usize> {
    for (i, (k, fill, due)) in ups.iter().enumerate() {
        stop_at(device, Stop::Off, *k, *fill);
        if power_up(device) != *due {
            return Some(i);
        }
    }
    None
}

// Six writes, after those of the recovery.
#[test]
fn migrations(rt: HostRuntime) -> Result<(), Fail> {
    for (i, row) in ROWS.iter().enumerate() {
        assert_eq!(rt; first_other(rt.alloc(), row)?, None, "row {i}");
    }
    Ok(())
}

const A: Unit = Unit {
    name: [0xA0, 0, 0, 0, 1],
    code: COUNTER,
    init: &[7],
    fixed: 10,
};

const B: Unit = Unit {
    name: [0xA0, 0, 0, 0, 2],
    code: COUNTER,
    init: &[7],
    fixed: 10,
};

const LOADS: &[(Change, Came)] = &[
    (Change::Load(A), Came::Done),
    (Change::Load(B), Came::Done),
    (Change::Delete(A), Came::Done),
];

const APPS: &[App] = &[(B, &[7, 0, 0, 0, 0, 0, 0, 0, 0, 0])];

/// A power-up that is stopped at its write `first`, which leaves `left`, and, if `second` is not 0, the one
/// after it at that write, which leaves `then`.
#[derive(Clone, Copy, Debug, Drop)]
struct Stops {
    stop: Stop,
    first: u16,
    left: Word,
    second: u16,
    then: Word,
}

/// Their results, that of one more, and the applications and the version after it.
#[derive(Clone, Copy, Debug, PartialEq, Eq, Drop)]
struct Seen {
    first: Power,
    second: Power,
    third: Power,
    shown: Shown,
    version: u64,
}

fn observe(device: &mut SimNvm, image: &Image, stops: Stops) -> Seen {
    restore(device, image);
    stop_at(device, stops.stop, stops.first, stops.left);
    let first = power_up(device);
    stop_at(device, stops.stop, stops.second, stops.then);
    let second = power_up(device);
    let third = power_up(device);
    Seen {
        first,
        second,
        third,
        shown: show(device, APPS),
        version: number_at(device, 0) / 0x100000000 % 0x100,
    }
}

// The number of writes of the second power-up: those of the recovery, or the six of a migration from the
// start.
fn due_writes(first: u16, left: Word) -> u16 {
    let atomic = Atomic::plain(1);
    if atomic.stands(first, left) {
        atomic.owes(first, left)
    } else {
        6
    }
}

// The number of writes of the third power-up, if the second was stopped.
fn left_writes(stops: Stops) -> u16 {
    let atomic = Atomic::plain(1);
    if atomic.stands(stops.first, stops.left) {
        atomic.remains(stops.second, stops.then)
    } else {
        due_writes(stops.second, stops.then)
    }
}

fn by_rule(stops: Stops) -> Seen {
    let (second, third) = if stops.second < 1 {
        (
            Power::Ready(due_writes(stops.first, stops.left)),
            Power::Ready(0),
        )
    } else {
        (Power::Stopped(stops.stop), Power::Ready(left_writes(stops)))
    };
    Seen {
        first: Power::Stopped(stops.stop),
        second,
        third,
        shown: Shown {
            power: Power::Ready(0),
            wrong: None,
        },
        version: 2,
    }
}

// The first stops with another result, of all.
fn first_stops<L: Ledger>(
    alloc: Global,
    blank: Blank,
) -> Result<(u16, Option<(Stops, Seen)>), NoMemory>
    requires name { blank.name ≡ L.name }
    requires parts { blank.parts ≡ L.parts }
    requires some { 0 < blank.parts }
{
    let mut steps = Steps::<L>::new(blank);
    let mut device = SimNvm::new(alloc, 256)?;
    format(&mut device);
    let _made = play(&mut device, LOADS, &mut steps);
    set_number(&mut device, 0, 0x4D454C0101000083);
    let image = image_of(&device);
    let mut taped = TapeNvm::new(alloc, 256, 64, &[])?;
    restore(&mut taped, &image);
    let _whole = power_up(&mut taped);
    let other = other_stops(&mut device, &image, &taped);
    Ok((writes_of(&taped), other))
}

fn other_stops(device: &mut SimNvm, image: &Image, taped: &TapeNvm) -> Option<(Stops, Seen)> {
    for first in 1..7 {
        for left in [ZERO, OPEN_1, OPEN_2, due_word(taped, first)] {
            if let Some(other) = both_ways(device, image, first, left, taped) {
                return Some(other);
            }
        }
    }
    None
}

// A power cut and a failed write as the first stop, and each second one.
fn both_ways(
    device: &mut SimNvm,
    image: &Image,
    first: u16,
    left: Word,
    taped: &TapeNvm,
) -> Option<(Stops, Seen)> {
    for stop in [Stop::Off, Stop::Worn] {
        let stops = Stops {
            stop,
            first,
            left,
            second: 0,
            then: ZERO,
        };
        if let Some(other) = second_stops(device, image, stops, taped) {
            return Some(other);
        }
    }
    None
}

// Each second stop after one first stop.
fn second_stops(
    device: &mut SimNvm,
    image: &Image,
    first: Stops,
    taped: &TapeNvm,
) -> Option<(Stops, Seen)> {
    let due = due_writes(first.first, first.left);
    for second in 0..=due {
        let k = second.saturating_add(6).saturating_sub(due);
        for then in [ZERO, OPEN_1, OPEN_2, due_word(taped, k)] {
            let stops = Stops {
                second,
                then,
                ..first
            };
            let seen = observe(device, image, stops);
            if seen != by_rule(stops) {
                return Some((stops, seen));
            }
        }
    }
    None
}

// The applications are unchanged, and the layout is 2 in the end.
#[test]
fn stopped_migrations(rt: HostRuntime) -> Result<(), Fail> {
    let (writes, other) = first_stops::<Brand>(rt.alloc(), Blank::new(1))?;
    assert_eq!(rt; writes, 6);
    assert!(rt; other.is_none(), "{other:?}");
    Ok(())
}

// Each change of a card stopped at each of its writes, and the power-up after it at each of its own.
ghost use Rattle.std.specs.Prelude.{◌≡◌, ◌<◌};

use crate::stores::bench::{Power, format, power_up, stop_at};
use crate::stores::card::{COUNTER, Came, Unit};
use crate::stores::changes::{App, Change, Shown, Went, play, show};
use crate::stores::image::{Image, due_word, image_of, restore, writes_of};
use crate::stores::rule::{Atomic, OPEN_1, OPEN_2, ZERO};
use mc_nvm::{SimNvm, TapeNvm};
use mc_words::{NoMemory, Steps, Stop, Word};
use std::alloc::Global;
use std::marker::Brand;
use std::sync::ledger::{Blank, Ledger};
use std::test::Fail;

/// A change of a card of 256 words: the changes that made the card, this one, its plain writes, the words of its atomic
/// write, and the applications before and after it.
#[derive(Clone, Copy, Debug)]
struct Case {
    made: &'static [(Change, Came)],
    change: Change,
    plain: u16,
    words: u8,
    old: &'static [App],
    new: &'static [App],
}

const A: Unit = Unit {
    name: [0xA0, 0, 0, 0, 0xA],
    code: COUNTER,
    init: &[],
    fixed: 2,
};

const B: Unit = Unit {
    name: [0xA0, 0, 0, 0, 0xB],
    code: COUNTER,
    init: &[],
    fixed: 2,
};

const C: Unit = Unit {
    name: [0xA0, 0, 0, 0, 0xC],
    code: COUNTER,
    init: &[],
    fixed: 2,
};

const D: Unit = Unit {
    name: [0xA0, 0, 0, 0, 0xD],
    code: COUNTER,
    init: &[1, 2, 3],
    fixed: 20,
};

const E: Unit = Unit {
    name: [0xA0, 0, 0, 0, 0xE],
    code: COUNTER,
    init: &[],
    fixed: 2,
};

const F: Unit = Unit {
    name: [0xA0, 0, 0, 0, 0xF],
    code: COUNTER,
    init: &[4, 5, 6],
    fixed: 10,
};

const D_BYTES: &[u8] = &[1, 2, 3, 0, 0, 0, 0, 0, 0, 0, 0, 0, 0, 0, 0, 0, 0, 0, 0, 0];

const D_WRITTEN: &[u8] = &[9, 9, 9, 9, 9, 9, 9, 9, 0, 0, 0, 0, 0, 0, 0, 0, 8, 8, 8, 8];

/// The blocks of A, B, C, of 12 words each, and of D, of 14, consecutive from word 131 on.
const FOUR: &[(Change, Came)] = &[
    (Change::Load(A), Came::Done),
    (Change::Load(B), Came::Done),
    (Change::Load(C), Came::Done),
    (Change::Load(D), Came::Done),
];

/// The blocks of B and D, with holes in the places of A and C.
const TWO: &[(Change, Came)] = &[
    (Change::Load(A), Came::Done),
    (Change::Load(B), Came::Done),
    (Change::Load(C), Came::Done),
    (Change::Load(D), Came::Done),
    (Change::Delete(A), Came::Done),
    (Change::Delete(C), Came::Done),
];

const CASES: &[Case] = &[
    // Into all of the hole before B.
    Case {
        made: TWO,
        change: Change::Load(E),
        plain: 11,
        words: 2,
        old: &[(B, &[0, 0]), (D, D_BYTES)],
        new: &[(B, &[0, 0]), (D, D_BYTES), (E, &[0, 0])],
    },
    // Into the first words of the last hole.
    Case {
        made: TWO,
        change: Change::Load(F),
        plain: 13,
        words: 3,
        old: &[(B, &[0, 0]), (D, D_BYTES)],
        new: &[
            (B, &[0, 0]),
            (D, D_BYTES),
            (F, &[4, 5, 6, 0, 0, 0, 0, 0, 0, 0]),
        ],
    },
    Case {
        made: TWO,
        change: Change::Commit(D, [9; 8], (2, [8; 8])),
        plain: 0,
        words: 2,
        old: &[(B, &[0, 0]), (D, D_BYTES)],
        new: &[(B, &[0, 0]), (D, D_WRITTEN)],
    },
    // One hole of the block and the holes before it and after it.
    Case {
        made: TWO,
        change: Change::Delete(B),
        plain: 0,
        words: 1,
        old: &[(B, &[0, 0]), (D, D_BYTES)],
        new: &[(D, D_BYTES)],
    },
    // Between two used blocks.
    Case {
        made: FOUR,
        change: Change::Delete(B),
        plain: 0,
        words: 2,
        old: &[(A, &[0, 0]), (B, &[0, 0]), (C, &[0, 0]), (D, D_BYTES)],
        new: &[(A, &[0, 0]), (C, &[0, 0]), (D, D_BYTES)],
    },
    // Before the last hole.
    Case {
        made: FOUR,
        change: Change::Delete(D),
        plain: 0,
        words: 2,
        old: &[(A, &[0, 0]), (B, &[0, 0]), (C, &[0, 0]), (D, D_BYTES)],
        new: &[(A, &[0, 0]), (B, &[0, 0]), (C, &[0, 0])],
    },
];

/// A change that is stopped at its write `first`, which leaves `left`, and, if `second` is not 0, the
/// power-up after it at that write, which leaves `then`.
#[derive(Clone, Copy, Debug, Drop)]
struct Stops {
    stop: Stop,
    first: u16,
    left: Word,
    second: u16,
    then: Word,
}

/// Their results, and those of two more power-ups.
#[derive(Clone, Copy, Debug, PartialEq, Eq, Drop)]
struct Seen {
    went: Went,
    recovery: Power,
    finish: Power,
    shown: Shown,
}

fn observe<L: Ledger>(
    device: &mut SimNvm,
    image: &Image,
    case: &Case,
    stops: Stops,
    steps: &mut Steps<L>,
) -> Seen {
    let atomic = Atomic::packed(case.words);
    restore(device, image);
    stop_at(device, stops.stop, stops.first, stops.left);
    let went = play(device, &[(case.change, Came::Done)], steps);
    stop_at(device, stops.stop, stops.second, stops.then);
    let recovery = power_up(device);
    let finish = power_up(device);
    let apps = if stands(case, &atomic, stops.first, stops.left) {
        case.new
    } else {
        case.old
    };
    Seen {
        went,
        recovery,
        finish,
        shown: show(device, apps),
    }
}

fn by_rule(case: &Case, stops: Stops) -> Seen {
    let atomic = Atomic::packed(case.words);
    let (recovery, finish) = if stops.second < 1 {
        (
            Power::Ready(owes(case, &atomic, stops.first, stops.left)),
            Power::Ready(0),
        )
    } else {
        (
            Power::Stopped(stops.stop),
            Power::Ready(atomic.remains(stops.second, stops.then)),
        )
    };
    Seen {
        went: Went::Stopped(stops.stop),
        recovery,
        finish,
        shown: Shown {
            power: Power::Ready(0),
            wrong: None,
        },
    }
}

// Whether the change is made after a stop at a write.
fn stands(case: &Case, atomic: &Atomic, k: u16, left: Word) -> bool {
    k > case.plain && atomic.stands(k - case.plain, left)
}

// The number of writes that recovery then still has to make.
fn owes(case: &Case, atomic: &Atomic, k: u16, left: Word) -> u16 {
    if k > case.plain {
        atomic.owes(k - case.plain, left)
    } else {
        0
    }
}

/// A case that was tested at all of its writes: the number of writes, and the first stops with another
/// result.
#[derive(Debug, Drop)]
struct Tried {
    writes: u16,
    other: Option<(Stops, Seen)>,
}

fn try_case<L: Ledger>(alloc: Global, blank: Blank, case: &Case) -> Result<Tried, NoMemory>
    requires name { blank.name ≡ L.name }
    requires parts { blank.parts ≡ L.parts }
    requires some { 0 < blank.parts }
{
    let mut steps = Steps::<L>::new(blank);
    let mut device = SimNvm::new(alloc, 256)?;
    format(&mut device);
    let _made = play(&mut device, case.made, &mut steps);
    let image = image_of(&device);
    let mut taped = TapeNvm::new(alloc, 256, 64, &[])?;
    restore(&mut taped, &image);
    let _went = play(&mut taped, &[(case.change, Came::Done)], &mut steps);
    Ok(Tried {
        writes: writes_of(&taped),
        other: other_stops(&mut device, &image, case, &taped, &mut steps),
    })
}

// The first stops with another result.
fn other_stops<L: Ledger>(
    device: &mut SimNvm,
    image: &Image,
    case: &Case,
    taped: &TapeNvm,
    steps: &mut Steps<L>,
) -> Option<(Stops, Seen)> {
    for first in 1..=writes_of(taped) {
        for left in [ZERO, OPEN_1, OPEN_2, due_word(taped, first)] {
            if let Some(other) = both_ways(device, image, case, first, left, taped, steps) {
                return Some(other);
            }
        }
    }
    None
}

// A power cut and a failed write as the first stop, and each second one.
fn both_ways<L: Ledger>(
    device: &mut SimNvm,
    image: &Image,
    case: &Case,
    first: u16,
    left: Word,
    taped: &TapeNvm,
    steps: &mut Steps<L>,
) -> Option<(Stops, Seen)> {
    for stop in [Stop::Off, Stop::Worn] {
        let stops = Stops {
            stop,
            first,
            left,
            second: 0,
            then: ZERO,
        };
        if let Some(other) = second_stops(device, image, case, stops, taped, steps) {
            return Some(other);
        }
    }
    None
}

// Tests a case, with steps of its own.
fn trial(alloc: Global, case: &Case) -> Result<Tried, NoMemory> {
    try_case::<Brand>(alloc, Blank::new(1), case)
}

// Each second stop after one first stop.
fn second_stops<L: Ledger>(
    device: &mut SimNvm,
    image: &Image,
    case: &Case,
    first: Stops,
    taped: &TapeNvm,
    steps: &mut Steps<L>,
) -> Option<(Stops, Seen)> {
    let atomic = Atomic::packed(case.words);
    let before = case.plain.saturating_add(atomic.opens_at);
    for second in 0..=owes(case, &atomic, first.first, first.left) {
        for then in [
            ZERO,
            OPEN_1,
            OPEN_2,
            due_word(taped, before.saturating_add(second)),
        ] {
            let stops = Stops {
                second,
                then,
                ..first
            };
            let seen = observe(device, image, case, stops, steps);
            if seen != by_rule(case, stops) {
                return Some((stops, seen));
            }
        }
    }
    None
}

// After the last power-up the applications are the old or the new ones, by the rule of stops.
#[test]
fn stopped_changes(rt: HostRuntime) -> Result<(), Fail> {
    for (i, case) in CASES.iter().enumerate() {
        let tried = trial(rt.alloc(), case)?;
        let cost = Atomic::packed(case.words).cost;
        assert_eq!(rt; tried.writes, case.plain.saturating_add(cost), "case {i}");
        assert!(rt; tried.other.is_none(), "case {i}: {tried:?}");
    }
    Ok(())
}

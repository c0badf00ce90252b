use crate::journals::bench::{Answer, prepare, recover, stop_at, write, wrong_place};
use crate::journals::rule::{Journal, ZERO, is_tried, recovery_write};
use mc_nvm::SimNvm;
use mc_words::{Stop, Word};
use std::test::Fail;

/// The answer of an atomic write that was stopped, those of its recovery that was stopped too and of the two
/// recoveries after it, and the first place that does not hold the word due there.
#[derive(Clone, Copy, Debug, PartialEq, Eq, Drop)]
struct Seen {
    write: Answer,
    recovery: Answer,
    second: Answer,
    third: Answer,
    wrong: Option<u32>,
}

/// An atomic write of `w` words, stopped at its device write `first`, and its recovery, stopped at its write
/// `second`.
#[derive(Clone, Copy, Drop)]
struct Stops {
    journal: Journal,
    w: u8,
    stop: Stop,
    first: u16,
    second: u16,
}

// A recovery that is stopped at any of its writes leaves the rest of its writes to the next one, by the rule,
// and that one finishes it.
#[test]
fn stopped_recoveries(rt: HostRuntime) -> Result<(), Fail> {
    let mut device = SimNvm::new(rt.alloc(), 256)?;
    for journal in [Journal::One, Journal::Two] {
        for w in [1, 2, 3, 64] {
            assert_eq!(rt; wrong_write(&mut device, journal, w), None, "{w} words");
        }
    }
    Ok(())
}

// The first stops that do not go by the rule: one of the tried stops of a write of w words, at the opening of
// its gate or after it, and one of its recovery.
fn wrong_write(device: &mut SimNvm, journal: Journal, w: u8) -> Option<(u16, u16)> {
    for first in journal.opens_at(w)..=journal.cost(w) {
        if is_tried(w, journal.cost(w).saturating_sub(first)) {
            if let Some(second) = wrong_recovery(device, journal, w, first) {
                return Some((first, second));
            }
        }
    }
    None
}

// The first write of a recovery at which a stop does not go by the rule.
fn wrong_recovery(device: &mut SimNvm, journal: Journal, w: u8, first: u16) -> Option<u16> {
    for second in 1..=w as u16 + 1 {
        for stop in [Stop::Off, Stop::Worn] {
            let stops = Stops {
                journal,
                w,
                stop,
                first,
                second,
            };
            if !goes_by_rule(device, stops) {
                return Some(second);
            }
        }
    }
    None
}

// Whether both go by the rule, whatever the stop leaves in its word: zeros, the word that opens the gate, or
// the word due.
fn goes_by_rule(device: &mut SimNvm, stops: Stops) -> bool {
    let due = recovery_write(stops.journal, stops.w, stops.second).1;
    for fill in [ZERO, stops.journal.opening(), due] {
        if observe(device, stops, fill) != by_rule(stops, fill) {
            return false;
        }
    }
    true
}

// Observes a write that is stopped at the opening of the gate or after it and leaves the opening word: it is
// durable, and recovery has all its writes to make.
fn observe(device: &mut SimNvm, stops: Stops, fill: Word) -> Seen {
    let Stops {
        journal,
        w,
        stop,
        first,
        second,
    } = stops;
    prepare(device);
    stop_at(device, stop, first, journal.opening());
    let answer = write(device, journal, w);
    stop_at(device, stop, second, fill);
    let stopped = recover(device, journal);
    let finished = recover(device, journal);
    Seen {
        write: answer,
        recovery: stopped,
        second: finished,
        third: recover(device, journal),
        wrong: wrong_place(device, journal, w, true),
    }
}

fn by_rule(stops: Stops, fill: Word) -> Seen {
    Seen {
        write: Answer::Stopped(stops.stop),
        recovery: Answer::Stopped(stops.stop),
        second: Answer::Recovered(stops.journal.remains(stops.w, stops.second, fill)),
        third: Answer::Recovered(0),
        wrong: None,
    }
}

use crate::journals::bench::{Answer, prepare, recover, stop_at, word_of, write, wrong_place};
use crate::journals::rule::{Journal, ZERO, device_write};
use mc_nvm::{SimNvm, TapeNvm};
use mc_words::{NoMemory, Stop, Word};
use std::alloc::Global;
use std::test::Fail;

/// The answer of an atomic write that was stopped, the word that the stop left, the answers of the recovery
/// after it and of one more, and the first place that does not hold the word due there.
#[derive(Clone, Copy, Debug, PartialEq, Eq, Drop)]
struct Seen {
    write: Answer,
    left: Word,
    recovery: Answer,
    again: Answer,
    wrong: Option<u32>,
}

// An atomic write that is stopped at any device write is durable as a whole or not at all, by the rule.
#[test]
fn stopped_writes(rt: HostRuntime) -> Result<(), Fail> {
    let mut device = SimNvm::new(rt.alloc(), 256)?;
    for journal in [Journal::One, Journal::Two] {
        for w in [1, 2, 3, 64] {
            assert_eq!(rt; wrong_write(&mut device, journal, w), None, "{w} words");
        }
    }
    Ok(())
}

// The first device write at which a stop does not go by the rule, and what was seen of it, whatever the stop leaves in
// its word: zeros, the word that opens the gate, or the word due.
fn wrong_write(device: &mut SimNvm, journal: Journal, w: u8) -> Option<(u16, Seen)> {
    for k in 1..=journal.cost(w) {
        let due = device_write(journal, w, k).1;
        for fill in [ZERO, journal.opening(), due] {
            if let Some(seen) = wrong_stop(device, journal, w, k, fill) {
                return Some((k, seen));
            }
        }
    }
    None
}

// What was seen of a power cut or a failed write that does not go by the rule.
fn wrong_stop(device: &mut SimNvm, journal: Journal, w: u8, k: u16, fill: Word) -> Option<Seen> {
    for stop in [Stop::Off, Stop::Worn] {
        let seen = observe(device, journal, w, stop, k, fill);
        if seen != by_rule(journal, w, stop, k, fill) {
            return Some(seen);
        }
    }
    None
}

fn observe(device: &mut SimNvm, journal: Journal, w: u8, stop: Stop, k: u16, fill: Word) -> Seen {
    prepare(device);
    stop_at(device, stop, k, fill);
    let answer = write(device, journal, w);
    let left = word_of(device, device_write(journal, w, k).0);
    let recovery = recover(device, journal);
    let wrong = wrong_place(device, journal, w, journal.stands(w, k, fill));
    Seen {
        write: answer,
        left,
        recovery,
        again: recover(device, journal),
        wrong,
    }
}

fn by_rule(journal: Journal, w: u8, stop: Stop, k: u16, fill: Word) -> Seen {
    Seen {
        write: Answer::Stopped(stop),
        left: fill,
        recovery: Answer::Recovered(journal.owes(w, k, fill)),
        again: Answer::Recovered(0),
        wrong: None,
    }
}

// Without a stop all words are durable, and recovery has no writes to make; a tape with room for one write
// less shows nothing.
#[test]
fn whole_writes(rt: HostRuntime) -> Result<(), Fail> {
    for journal in [Journal::One, Journal::Two] {
        for w in [1, 2, 3, 64] {
            assert_eq!(rt;
                whole(rt.alloc(), journal, w)?,
                (Answer::Written, None, Answer::Recovered(0), true),
                "{w} words"
            );
            assert_eq!(rt;
                narrow(rt.alloc(), journal, w)?,
                (Answer::Written, false),
                "{w} words"
            );
        }
    }
    Ok(())
}

// The answer of an atomic write without a stop, the first place that does not hold the word due there, the answer of
// the recovery after it, and whether a tape with room for the writes shows them.
fn whole(
    alloc: Global,
    journal: Journal,
    w: u8,
) -> Result<(Answer, Option<u32>, Answer, bool), NoMemory> {
    let mut device = TapeNvm::new(alloc, 256, journal.cost(w) as usize, &[])?;
    prepare(&mut device);
    let answer = write(&mut device, journal, w);
    let wrong = wrong_place(&device, journal, w, true);
    let recovery = recover(&mut device, journal);
    Ok((answer, wrong, recovery, device.tape().is_some()))
}

// The answer of such a write, and whether a tape with room for one write less shows anything.
fn narrow(alloc: Global, journal: Journal, w: u8) -> Result<(Answer, bool), NoMemory> {
    let room = (journal.cost(w) as usize).saturating_sub(1);
    let mut device = TapeNvm::new(alloc, 256, room, &[])?;
    let answer = write(&mut device, journal, w);
    Ok((answer, device.tape().is_some()))
}

// Of two stops at one write the power cut comes first, and leaves its own word.
#[test]
fn both_fuses(rt: HostRuntime) -> Result<(), Fail> {
    assert_eq!(rt; both(rt.alloc())?, (Answer::Stopped(Stop::Off), [5; 8]));
    Ok(())
}

// The answer of an atomic write with both stops at its first write, and the word of that write.
fn both(alloc: Global) -> Result<(Answer, Word), NoMemory> {
    let mut device = SimNvm::new(alloc, 256)?;
    stop_at(&mut device, Stop::Off, 1, [5; 8]);
    stop_at(&mut device, Stop::Worn, 1, [6; 8]);
    let answer = write(&mut device, Journal::Two, 1);
    Ok((answer, word_of(&device, 3)))
}

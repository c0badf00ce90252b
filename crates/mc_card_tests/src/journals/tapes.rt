use crate::journals::bench::{Answer, prepare, recover, write, wrong_place};
use crate::journals::rule::{Journal, ZERO, device_write, is_tried, recovery_write};
use mc_nvm::{Entry, TapeNvm};
use mc_words::{NoMemory, Stop};
use std::alloc::Global;
use std::test::Fail;

/// An atomic write of `w` words whose device write `first` failed, and, if `second` is not 0, its recovery
/// whose write `second` failed; each left zeros.
#[derive(Clone, Copy, Drop)]
struct Refusals {
    journal: Journal,
    w: u8,
    first: u16,
    second: u16,
}

// Devices that refuse writes by themselves follow the rule, and their tapes have exactly the writes of the
// rule.
#[test]
fn failure_writes(rt: HostRuntime) -> Result<(), Fail> {
    for journal in [Journal::One, Journal::Two] {
        for w in [1, 2, 3, 64] {
            assert_eq!(rt;
                wrong_write(rt.alloc(), journal, w)?,
                None,
                "{journal:?}, {w} words"
            );
        }
    }
    Ok(())
}

// The first pair of refused writes that does not go by the rule: one of the write, and one of its recovery.
fn wrong_write(alloc: Global, journal: Journal, w: u8) -> Result<Option<(u16, u16)>, NoMemory> {
    for first in 1..=journal.cost(w) {
        if let Some(second) = wrong_recovery(alloc, journal, w, first)? {
            return Ok(Some((first, second)));
        }
    }
    Ok(None)
}

// The first refused write of a recovery, or 0, that does not go by the rule: of 64 words each of those that are tried,
// and right after the gate was opened every one.
fn wrong_recovery(
    alloc: Global,
    journal: Journal,
    w: u8,
    first: u16,
) -> Result<Option<u16>, NoMemory> {
    let all = first == journal.opens_at(w).saturating_add(1);
    for second in 0..=journal.owes(w, first, ZERO) {
        let refusals = Refusals {
            journal,
            w,
            first,
            second,
        };
        if (all || is_tried(w, second)) && !goes_by_rule(alloc, refusals)? {
            return Ok(Some(second));
        }
    }
    Ok(None)
}

// Whether the answers, the words and the tape of a device that refuses these writes are those of the rule.
fn goes_by_rule(alloc: Global, refusals: Refusals) -> Result<bool, NoMemory> {
    let first = refusals.first as u32;
    let worn = [first, first + refusals.second as u32];
    let mut device = TapeNvm::new(alloc, 256, 512, &worn)?;
    prepare(&mut device);
    let answers = is_answered(&mut device, refusals);
    Ok(answers && is_left(&device, refusals))
}

// Whether the write and its recovery are refused, and the next recovery has the writes to make that are left.
fn is_answered(device: &mut TapeNvm, refusals: Refusals) -> bool {
    let Refusals {
        journal,
        w,
        second,
        ..
    } = refusals;
    let refused = Answer::Stopped(Stop::Worn);
    if write(device, journal, w) != refused || second > 0 && recover(device, journal) != refused {
        return false;
    }
    recover(device, journal) == Answer::Recovered(left_to_do(refusals))
}

// Whether the words and the tape are those of the rule.
fn is_left(device: &TapeNvm, refusals: Refusals) -> bool {
    let Refusals {
        journal,
        w,
        first,
        ..
    } = refusals;
    let stands = journal.stands(w, first, ZERO);
    wrong_place(device, journal, w, stands).is_none()
        && wrong_entry(device.tape(), refusals).is_none()
}

// The number of writes of the last recovery.
fn left_to_do(refusals: Refusals) -> u16 {
    let Refusals {
        journal,
        w,
        first,
        second,
    } = refusals;
    if second > 0 {
        journal.remains(w, second, ZERO)
    } else {
        journal.owes(w, first, ZERO)
    }
}

// The first entry that differs from the rule, or the length of the tape if it has too few or too many.
fn wrong_entry(tape: Option<&[Entry]>, refusals: Refusals) -> Option<usize> {
    let entries = match tape {
        Some(entries) => entries,
        None => return Some(0),
    };
    for (i, entry) in entries.iter().enumerate() {
        if *entry != entry_by_rule(refusals, i) {
            return Some(i);
        }
    }
    let all = refusals.first as usize + refusals.second as usize + left_to_do(refusals) as usize;
    if entries.len() == all {
        None
    } else {
        Some(entries.len())
    }
}

// The entry `i` of the tape, counted from 0, by the rule.
fn entry_by_rule(refusals: Refusals, i: usize) -> Entry {
    let Refusals {
        journal,
        w,
        first,
        second,
    } = refusals;
    let recovered = first as usize;
    let again = first as usize + second as usize;
    if i < recovered {
        let k = i as u16 + 1;
        entry(device_write(journal, w, k), k == first)
    } else if i < again {
        let k = (i - recovered) as u16 + 1;
        entry(recovery_write(journal, w, k), k == second)
    } else {
        let k = ((i - again) % 256) as u16;
        entry(recovery_write(journal, w, k.saturating_add(1)), false)
    }
}

fn entry((at, word): (u32, [u8; 8]), refused: bool) -> Entry {
    if refused {
        Entry {
            at,
            left: ZERO,
            end: Some(Stop::Worn),
        }
    } else {
        Entry {
            at,
            left: word,
            end: None,
        }
    }
}

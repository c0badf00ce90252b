// Decks whose device writes are stopped, each in turn.
ghost use Rattle.std.specs.Prelude.{◌≡◌, ◌<◌};

use crate::running::melcard;
use crate::tests::{ended, words};
use mc_base::{MemSink, MemSource, NoMemory, Steps, Stop};
use mc_nvm::{DEVICE_WORDS, Entry, TapeNvm};
use std::alloc::{AllocError, Global};
use std::marker::Brand;
use std::sync::ledger::{Blank, Ledger};
use std::test::Fail;

// A counter and a purse that are named, and a card that runs.
const NAMES: &str =
    "format\npower\napp counter A000000001\nINCN SB[0],2\nLOAD SB[0],2\nSTORE PB[0],2\nEXITLA 2\nend\napp purse A000000002\nPRIM 3,2\nSUBW SB[0],0x0001\nADDW SB[8],0x0001\nPRIM 3,1\nDATA 00050000000000000000\nEXIT\nend\n";

// A line that changes the card after some other lines, and the static bytes of an application without the
// change and with it.
struct Change {
    before: &'static str,
    line: &'static str,
    name: &'static str,
    old: &'static [u8],
    new: &'static [u8],
}

// A load, a command that writes one word, a transaction of two words, and a deletion.
const CHANGES: [Change; 4] = [
    Change {
        before: "",
        line: "load counter 2 0",
        name: "A000000001",
        old: b" absent\n",
        new: b" static 0000\n",
    },
    Change {
        before: "load counter 2 0\nselect A000000001\n",
        line: "apdu 8001000002",
        name: "A000000001",
        old: b" static 0000\n",
        new: b" static 0001\n",
    },
    Change {
        before: "load purse 10 0\nselect A000000002\n",
        line: "apdu 80010000",
        name: "A000000002",
        old: b" static 00050000000000000000\n",
        new: b" static 00040000000000000001\n",
    },
    Change {
        before: "load purse 10 0\nload counter 2 0\n",
        line: "delete A000000002",
        name: "A000000002",
        old: b" static 00050000000000000000\n",
        new: b" absent\n",
    },
];

// The stop that is armed: a power cut with the word that it leaves, or a failed write.
#[derive(Clone, Copy)]
enum Arming {
    Cut(&'static str),
    Fail,
}

fn armed(alloc: Global, arming: Arming, k: u32) -> Result<String, AllocError> {
    match arming {
        Arming::Cut(fill) => format!(in alloc; "cut {k} {fill}\n"),
        Arming::Fail => format!(in alloc; "fail {k}\n"),
    }
}

// A deck in which a stop is armed for the change, and after it, if `cut` is not 0, a recovery that is cut at
// that write.
fn stopped_deck(
    alloc: Global,
    change: &Change,
    stop: &str,
    cut: u32,
) -> Result<String, AllocError> {
    let Change {
        before,
        line,
        name,
        ..
    } = change;
    let recovery = if cut == 0 {
        String::new(alloc)
    } else {
        format!(in alloc; "cut {cut} FFFFFFFFFFFFFFFF\npower\n")?
    };
    format!(in alloc; "{NAMES}{before}{stop}{line}\n{recovery}power\ndump {name}\n")
}

// The outcome of a change: the number of its lines that were stopped, and whether the card has the change.
#[derive(Clone, Copy, Debug, PartialEq, Eq)]
struct Outcome {
    stops: usize,
    is_new: bool,
}

// The outcome of a stopped change, if it is atomic.
fn outcome_of(
    alloc: Global,
    change: &Change,
    stop: &str,
    cut: u32,
) -> Result<Option<Outcome>, NoMemory> {
    let play = words(alloc, &["play"])?;
    let deck = stopped_deck(alloc, change, stop, cut)?;
    let end = ended(alloc, play.as_slice(), deck.as_bytes(), 400, &[])?;
    let text = str::from_utf8(end.text.as_slice()).unwrap_or("");
    let is_new = end.text.as_slice().ends_with(change.new);
    let is_old = end.text.as_slice().ends_with(change.old);
    let stops = text
        .lines()
        .filter(|line| line.contains("off at write") || line.ends_with(" 6581"))
        .count();
    let is_whole = end.status == 0 && is_new != is_old;
    Ok(is_whole.then_some(Outcome { stops, is_new }))
}

// The number of writes at which the recovery after a stopped change was cut, if the outcome is the same after each
// of them: none of these recoveries has 12 writes.
fn recovery_cuts(
    alloc: Global,
    change: &Change,
    stop: &str,
    plain: Outcome,
) -> Result<Option<usize>, NoMemory> {
    let mut cuts = 0;
    for cut in 1..=12 {
        match outcome_of(alloc, change, stop, cut)? {
            Some(outcome) if outcome.is_new == plain.is_new => {
                if outcome.stops > plain.stops {
                    cuts = usize::saturating_add(cuts, 1);
                }
            }
            _ => return Ok(None),
        }
    }
    Ok(Some(cuts))
}

// Each change, stopped at each of its writes, with recoveries that are cut at each of theirs: it is atomic, its first
// write alone does not make it durable, and if it is durable at a write it is durable at each later one. Some recovery
// of each change was cut.
#[test]
fn stopped_changes(rt: HostRuntime) -> Result<(), Fail> {
    let alloc = rt.alloc();
    for change in &CHANGES {
        for arming in [
            Arming::Cut("0000000000000000"),
            Arming::Cut("4F50454E2D322D2D"),
            Arming::Fail,
        ] {
            let mut last = Outcome {
                stops: 1,
                is_new: false,
            };
            let mut stopped = 0;
            let mut cuts = 0;
            for k in 1..=32 {
                let stop = armed(alloc, arming, k)?;
                let Some(plain) = outcome_of(alloc, change, stop.as_str(), 0)? else {
                    return Err(Fail::new("a change that is not atomic"));
                };
                assert!(rt; plain.is_new || !last.is_new, "{} {k}", change.line);
                assert!(rt; k > 1 || !plain.is_new, "{} {k}", change.line);
                let Some(count) = recovery_cuts(alloc, change, stop.as_str(), plain)? else {
                    return Err(Fail::new("a recovery that changes what is durable"));
                };
                cuts = usize::saturating_add(cuts, count);
                stopped = usize::saturating_add(stopped, plain.stops);
                last = plain;
                if last.stops == 0 {
                    break;
                }
            }
            assert!(rt; last.is_new && last.stops == 0, "{}", change.line);
            assert!(rt; stopped > 1 && cuts > 0, "{}", change.line);
        }
    }
    Ok(())
}

// The output of a play over a device that refuses some writes: its status, its transcript, the number of
// writes that were tried, and the number of the first failed write, counted from 1.
#[derive(Drop)]
struct Taped {
    status: u8,
    text: Vec<u8>,
    tried: usize,
    refused: Option<usize>,
}

// The number of the first failed write of a tape, counted from 1.
fn first_refused(entries: &[Entry]) -> Option<usize> {
    for (i, entry) in entries.iter().enumerate() {
        if entry.end == Some(Stop::Worn) {
            return Some(i + 1);
        }
    }
    None
}

fn over_tape<L: Ledger>(
    alloc: Global,
    blank: Blank,
    input: &[u8],
    worn: &[u32],
) -> Result<Taped, NoMemory>
    requires name { blank.name ≡ L.name }
    requires parts { blank.parts ≡ L.parts }
    requires some { 0 < blank.parts }
{
    let play = words(alloc, &["play"])?;
    let mut steps = Steps::<L>::new(blank);
    let mut source = MemSource::new(alloc, input, &[])?;
    let mut sink = MemSink::new(alloc, 400, &[])?;
    let mut device = TapeNvm::new(alloc, DEVICE_WORDS, 256, worn)?;
    let status = melcard(
        alloc,
        play.as_slice(),
        &mut source,
        &mut sink,
        &mut device,
        &mut steps,
    );
    let entries = device.tape().unwrap_or_default();
    Ok(Taped {
        status,
        text: Vec::from_slice(alloc, sink.bytes())?,
        tried: entries.len(),
        refused: first_refused(entries),
    })
}

// Plays a deck over a tape, with steps of its own.
fn play_taped(alloc: Global, input: &[u8], worn: &[u32]) -> Result<Taped, NoMemory> {
    over_tape::<Brand>(alloc, Blank::new(1), input, worn)
}

// A deck whose device refuses one of its writes, each in turn: a line is answered 6581, the tape has the
// failed write, and the number at the end is one that the counter had.
#[test]
fn refused_writes(rt: HostRuntime) -> Result<(), Fail> {
    let alloc = rt.alloc();
    let deck = stopped_deck(alloc, &CHANGES[1], "budget 100\n", 0)?;
    let quiet = play_taped(alloc, deck.as_bytes(), &[])?;
    assert!(rt; quiet.status == 0 && quiet.refused == None && quiet.tried > 12);
    for n in 1_u32..=256 {
        if n as usize > quiet.tried {
            break;
        }
        let play = play_taped(alloc, deck.as_bytes(), &[n])?;
        let text = str::from_utf8(play.text.as_slice()).unwrap_or("");
        assert!(rt;
            play.status == 0 && play.refused == Some(n as usize),
            "at {n}"
        );
        assert!(rt; text.contains(" 6581\n"), "at {n}");
        let is_one_it_had = text.ends_with(" absent\n")
            || text.ends_with(" static 0000\n")
            || text.ends_with(" static 0001\n");
        assert!(rt; is_one_it_had, "at {n}");
    }
    Ok(())
}

// Whether a device that refuses a write of a change by itself gives the same text as one in which a `fail`
// line makes that write fail; `None` if the change has no such write.
fn refuses_alike(alloc: Global, change: &Change, k: u32) -> Result<Option<bool>, NoMemory> {
    let stop = armed(alloc, Arming::Fail, k)?;
    let deck = stopped_deck(alloc, change, stop.as_str(), 0)?;
    let failed = play_taped(alloc, deck.as_bytes(), &[])?;
    let Some(refused) = failed.refused else {
        return Ok(None);
    };
    let deck = stopped_deck(alloc, change, "budget 100\n", 0)?;
    let Ok(number) = u32::try_from(refused) else {
        return Ok(Some(false));
    };
    let worn = play_taped(alloc, deck.as_bytes(), &[number])?;
    let is_alike = worn.refused == Some(refused)
        && worn.status == failed.status
        && worn.text.as_slice() == failed.text.as_slice();
    Ok(Some(is_alike))
}

// Each write of each change, failed by the device itself: two writes at least, and fewer than 64.
#[test]
fn failure_writes(rt: HostRuntime) -> Result<(), Fail> {
    let alloc = rt.alloc();
    for change in &CHANGES {
        let mut failed = 0;
        for k in 1..=64 {
            let Some(is_alike) = refuses_alike(alloc, change, k)? else {
                break;
            };
            assert!(rt; is_alike, "{} {k}", change.line);
            failed = k;
        }
        assert!(rt; 1 < failed && failed < 64, "{} {failed}", change.line);
    }
    Ok(())
}

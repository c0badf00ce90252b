// Each status of a session over streams in memory.
ghost use Rattle.std.specs.Prelude.{◌≡◌, ◌<◌};

use crate::running::melreader;
use crate::selecting::{deck_path, program};
use mc_nvm::SimNvm;
use mc_streams::{MemSink, MemSource, Source};
use mc_words::{NoMemory, Steps};
use std::alloc::{AllocError, Global};
use std::marker::Brand;
use std::sync::ledger::{Blank, Ledger};
use std::test::Fail;

// The host requests the ATR, turns power on, and selects an application that is not on the card.
const FRAMES: &[u8] = b"\x00\x01\x04\x00\x01\x01\x00\x0A\x00\xA4\x04\x0C\x05\xA0\x00\x00\x00\x01";

// The answers to them.
const ANSWERS: &[u8] = b"\x00\x0C\x3B\x87\x80\x01MELCARD\x56\x00\x02\x6A\x82";

// A deck that loads the application, and the answers to the same frames after it.
const COUNTER: &[u8] = b"format\npower\napp counter A000000001\nEXIT\nend\nload counter 2 0\n";

const PLAYED_ANSWERS: &[u8] = b"\x00\x0C\x3B\x87\x80\x01MELCARD\x56\x00\x02\x90\x00";

// The parts of a session under test: its deck, the calls of the deck that fail, its frames, the calls of the
// frames that fail, and the room of the sinks of answers and of refusals.
#[derive(Clone, Copy)]
struct Trial {
    deck: Option<&'static [u8]>,
    deck_faults: &'static [u32],
    frames: &'static [u8],
    frame_faults: &'static [u32],
    room: usize,
    err_room: usize,
}

// Frames on a blank card, without a fault.
const PLAIN: Trial = Trial {
    deck: None,
    deck_faults: &[],
    frames: FRAMES,
    frame_faults: &[],
    room: 18,
    err_room: 30,
};

// The end of a session: its status, and its output to both sinks.
#[derive(Drop)]
struct End {
    status: u8,
    answers: Vec<u8>,
    refusal: Vec<u8>,
}

impl End {
    fn is(&self, status: u8, answers: &[u8], refusal: &[u8]) -> bool {
        self.status == status
            && self.answers.as_slice() == answers
            && self.refusal.as_slice() == refusal
    }
}

// The end of a session over these sources, with steps of its own.
fn over<D: Source, L: Ledger>(
    alloc: Global,
    blank: Blank,
    trial: &Trial,
    deck: Option<&mut D>,
) -> Result<End, NoMemory>
    requires name { blank.name ≡ L.name }
    requires parts { blank.parts ≡ L.parts }
    requires some { 0 < blank.parts }
{
    let mut steps = Steps::<L>::new(blank);
    let mut input = MemSource::new(alloc, trial.frames, trial.frame_faults)?;
    let mut out = MemSink::new(alloc, trial.room, &[])?;
    let mut err = MemSink::new(alloc, trial.err_room, &[])?;
    let mut device = SimNvm::new(alloc, 256)?;
    let status = melreader(
        alloc,
        deck,
        &mut input,
        &mut out,
        &mut err,
        &mut device,
        &mut steps,
    );
    Ok(End {
        status,
        answers: Vec::from_slice(alloc, out.bytes())?,
        refusal: Vec::from_slice(alloc, err.bytes())?,
    })
}

// The end of a session.
fn ended(alloc: Global, trial: &Trial) -> Result<End, NoMemory> {
    match trial.deck {
        Some(text) => {
            let mut deck = MemSource::new(alloc, text, trial.deck_faults)?;
            over::<MemSource, Brand>(alloc, Blank::new(1), trial, Some(&mut deck))
        }
        None => over::<MemSource, Brand>(alloc, Blank::new(1), trial, None),
    }
}

// Frames that are served, completely and up to a fault of the sink or of the input, and an input that ends
// inside a frame.
#[test]
fn frames(rt: HostRuntime) -> Result<(), Fail> {
    let alloc = rt.alloc();
    assert!(rt; ended(alloc, &PLAIN)?.is(0, ANSWERS, b""));
    let narrow = Trial { room: 16, ..PLAIN };
    assert!(rt; ended(alloc, &narrow)?.is(4, &ANSWERS[..16], b""));
    let failing = Trial {
        frame_faults: &[1],
        ..PLAIN
    };
    assert!(rt; ended(alloc, &failing)?.is(3, b"", b""));
    let short = Trial {
        frames: b"\x00\x01\x04\x00\x02\x80",
        ..PLAIN
    };
    assert!(rt; ended(alloc, &short)?.is(1, &ANSWERS[..14], b"frame 2 Short\n"));
    let unsaid = Trial {
        err_room: 5,
        ..short
    };
    assert!(rt; ended(alloc, &unsaid)?.is(4, &ANSWERS[..14], b"frame"));
    Ok(())
}

// A deck that is played, so that the host finds its application, one that is refused, and one that is not read.
#[test]
fn decks(rt: HostRuntime) -> Result<(), Fail> {
    let alloc = rt.alloc();
    let played = Trial {
        deck: Some(COUNTER),
        ..PLAIN
    };
    assert!(rt; ended(alloc, &played)?.is(0, PLAYED_ANSWERS, b""));
    let refused = Trial {
        deck: Some(b"format\n\nreboot\n"),
        ..PLAIN
    };
    assert!(rt; ended(alloc, &refused)?.is(1, b"", b"line 3 BadLine\n"));
    let unsaid = Trial {
        err_room: 6,
        ..refused
    };
    assert!(rt; ended(alloc, &unsaid)?.is(4, b"", b"line 3"));
    let failing = Trial {
        deck_faults: &[1],
        ..played
    };
    assert!(rt; ended(alloc, &failing)?.is(3, b"", b""));
    Ok(())
}

// The file of a path, of which one alone can be opened: `card.deck`.
fn open(alloc: Global, path: Option<&str>) -> Option<MemSource> {
    if path? != "card.deck" {
        return None;
    }
    MemSource::new(alloc, COUNTER, &[]).ok()
}

// The words of a command line.
fn words(alloc: Global, texts: &[&str]) -> Result<Vec<String>, AllocError> {
    let mut words = Vec::new(alloc);
    for text in texts {
        words.push(String::from_str(alloc, text)?)?;
    }
    Ok(words)
}

// The end of the program with these words, or with words that are no text.
fn end_of<L: Ledger>(
    alloc: Global,
    words: Option<Vec<String>>,
    err_room: usize,
    blank: Blank,
) -> Result<End, NoMemory>
    requires name { blank.name ≡ L.name }
    requires parts { blank.parts ≡ L.parts }
    requires some { 0 < blank.parts }
{
    let words = Ok(words);
    let file = open(alloc, deck_path(&words));
    let mut input = MemSource::new(alloc, FRAMES, &[])?;
    let mut out = MemSink::new(alloc, 18, &[])?;
    let mut err = MemSink::new(alloc, err_room, &[])?;
    let status = program::<MemSource, MemSource, MemSink, MemSink, L>(
        alloc, words, file, &mut input, &mut out, &mut err, blank,
    );
    Ok(End {
        status,
        answers: Vec::from_slice(alloc, out.bytes())?,
        refusal: Vec::from_slice(alloc, err.bytes())?,
    })
}

// The end of the program with these words.
fn end_by(alloc: Global, texts: &[&str], err_room: usize) -> Result<End, NoMemory> {
    let words = words(alloc, texts)?;
    end_of::<Brand>(alloc, Some(words), err_room, Blank::new(1))
}

// What the program says of itself, at a sink with the room of the answers to frames.
#[test]
fn described(rt: HostRuntime) -> Result<(), Fail> {
    let alloc = rt.alloc();
    assert!(rt; end_by(alloc, &["--version"], 0)?.is(0, b"melreader 3\n", b""));
    assert!(rt; end_by(alloc, &["--help"], 0)?.is(4, b"usage: melreader [", b""));
    let usage = b"usage: melreader [DECK]\n";
    assert!(rt; end_by(alloc, &["--help", "card.deck"], 60)?.is(2, b"", usage));
    Ok(())
}

// The deck of the path that is given, a path that cannot be opened, no word, two words, and words that are no text.
#[test]
fn selections(rt: HostRuntime) -> Result<(), Fail> {
    let alloc = rt.alloc();
    assert!(rt; end_by(alloc, &["card.deck"], 60)?.is(0, PLAYED_ANSWERS, b""));
    assert!(rt; end_by(alloc, &[], 60)?.is(0, ANSWERS, b""));
    let unopened = b"melreader: other.deck: cannot be opened\n";
    assert!(rt; end_by(alloc, &["other.deck"], 60)?.is(2, b"", unopened));
    assert!(rt; end_by(alloc, &["other.deck"], 15)?.is(2, b"", &unopened[..15]));
    let usage = b"usage: melreader [DECK]\n";
    assert!(rt; end_by(alloc, &["card.deck", "card.deck"], 60)?.is(2, b"", usage));
    let no_text = end_of::<Brand>(alloc, None, 60, Blank::new(1))?;
    assert!(rt; no_text.is(2, b"", usage));
    Ok(())
}

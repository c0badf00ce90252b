// Summaries of generated decks against their transcripts.
ghost use Rattle.std.specs.Prelude.{◌≡◌, ◌≤◌, ◌<◌};

use crate::tests::{ended, words};
use mc_base::{MemSink, NoMemory, Steps};
use mc_deck::{Deck, generate};
use mc_nvm::{DEVICE_WORDS, SimNvm};
use mc_script::play;
use std::alloc::{AllocError, Global};
use std::marker::Brand;
use std::sync::ledger::{Blank, Ledger};
use std::test::Fail;

// The number of answers of each kind in a transcript.
#[derive(Clone, Copy)]
struct Kinds {
    lines: u32,
    replies: u32,
    abends: u32,
    cuts: u32,
    offs: u32,
    readies: u32,
}

// The counts after one more line with this answer.
fn with_answer(kinds: Kinds, answer: &str) -> Kinds {
    let one = |is_so: bool| if is_so { 1 } else { 0 };
    let is_named = ["formatted", "unusable", "mute", "absent", "static"]
        .iter()
        .any(|name| answer.starts_with(*name));
    let is_abend = answer.starts_with("abend");
    let is_cut = answer.starts_with("off at write");
    let is_off = answer == "off";
    let is_ready = answer.starts_with("ready");
    let is_reply = !(is_named || is_abend || is_cut || is_off || is_ready);
    Kinds {
        lines: kinds.lines.saturating_add(1),
        replies: kinds.replies.saturating_add(one(is_reply)),
        abends: kinds.abends.saturating_add(one(is_abend)),
        cuts: kinds.cuts.saturating_add(one(is_cut)),
        offs: kinds.offs.saturating_add(one(is_off)),
        readies: kinds.readies.saturating_add(one(is_ready)),
    }
}

// The answer after the number of a line.
fn answer_of(line: &str) -> &str {
    match line.split_once(' ') {
        Some((_, answer)) => answer,
        None => "",
    }
}

// The summary counted from a transcript of a generated deck: its last three lines are those of the
// applications.
fn counted(alloc: Global, transcript: &str) -> Result<String, AllocError> {
    let mut kinds = Kinds {
        lines: 0,
        replies: 0,
        abends: 0,
        cuts: 0,
        offs: 0,
        readies: 0,
    };
    let mut dumps = String::new(alloc);
    for line in transcript.lines() {
        let answer = answer_of(line);
        kinds = with_answer(kinds, answer);
        if answer.starts_with("static") || answer == "absent" {
            dumps.push_str(answer)?;
            dumps.push_str("\n")?;
        }
    }
    let Kinds {
        lines,
        replies,
        abends,
        cuts,
        offs,
        readies,
    } = kinds;
    format!(in alloc;
        "lines {lines} replies {replies} abends {abends} cuts {cuts} offs {offs} readies {readies}\n{dumps}"
    )
}

// The transcript of a deck on a blank device.
fn played<L: Ledger>(alloc: Global, blank: Blank, deck: &Deck) -> Result<Vec<u8>, NoMemory>
    requires name { blank.name ≡ L.name }
    requires parts { blank.parts ≡ L.parts }
    requires some { 0 < blank.parts }
{
    let mut steps = Steps::<L>::new(blank);
    let mut sink = MemSink::new(alloc, 131_072, &[])?;
    let mut device = SimNvm::new(alloc, DEVICE_WORDS)?;
    let _whole = play(deck, &mut device, &mut sink, &mut steps);
    Ok(Vec::from_slice(alloc, sink.bytes())?)
}

// The transcript of the deck that a number generates.
fn transcript(alloc: Global, number: u32) -> Result<Vec<u8>, NoMemory>
    requires { number ≤ 2147483647 }
{
    let deck = generate(alloc, number)?;
    played::<Brand>(alloc, Blank::new(1), &deck)
}

// The output of `gen` for the first twenty numbers is the summary counted from their transcripts.
#[test]
fn summaries(rt: HostRuntime) -> Result<(), Fail> {
    let alloc = rt.alloc();
    for number in 1..=20 {
        let transcript = transcript(alloc, number)?;
        let summary = counted(alloc, str::from_utf8(transcript.as_slice()).unwrap_or(""))?;
        let digits = format!(in alloc; "{number}")?;
        let words = words(alloc, &["gen", digits.as_str()])?;
        let end = ended(alloc, words.as_slice(), b"", 400, &[])?;
        assert!(rt; end.is(0, summary.as_bytes()), "{number}");
    }
    Ok(())
}

ghost use Rattle.std.specs.Prelude.{◌≡◌, ◌<◌, ◌≤◌};

use crate::decks::DECKS;
use crate::running::melcard;
use crate::samples::{SAMPLES, Sample};
use crate::worked_rows::{CUTS, DELEGATIONS, IMAGES, PLAYS, SMALL_DEVICE, TRACES};
use mc_base::{
    MemSink, MemSource, NoMemory, ReadAll, StdSink, StdSource, Steps, put_all, read_all,
};
use mc_nvm::{DEVICE_WORDS, SimNvm};
use std::alloc::{AllocError, Global};
use std::marker::Brand;
use std::sync::ledger::{Blank, Ledger};
use std::test::Fail;

const COUNTER: &[u8] =
    b"format\npower\nunit counter 0000000000000000000FB902000039020000460200000600020000000961074F05A00000000100096F078405A00000000100000000\nload counter 2 0\nselect A000000001\napdu 8001000002\napdu 8001000002\n";

const TEXT: &[u8] = b"1 formatted\n2 ready 0\n4 9000\n5 9000\n6 00019000\n7 00029000\n";

/// The end of a job: its status, its output, and the number of bytes that it left in its source.
#[derive(Drop)]
pub struct End {
    pub status: u8,
    pub text: Vec<u8>,
    pub left: usize,
}

impl End {
    /// Returns whether the status and the text are these.
    pub fn is(&self, status: u8, text: &[u8]) -> bool {
        self.status == status && self.text.as_slice() == text
    }
}

// The end of a job over memory and a blank device of `device_words` words, with a count of steps.
fn counted<L: Ledger>(
    alloc: Global,
    blank: Blank,
    device_words: u32,
    words: &[String],
    input: &[u8],
    room: usize,
    fail_at: &[u32],
) -> Result<End, NoMemory>
    requires name { blank.name ≡ L.name }
    requires parts { blank.parts ≡ L.parts }
    requires some { 0 < blank.parts }
    requires low { 256 ≤ device_words }
    requires high { device_words ≤ 16384 }
{
    let mut steps = Steps::<L>::new(blank);
    let mut source = MemSource::new(alloc, input, fail_at)?;
    let mut sink = MemSink::new(alloc, room, &[])?;
    let mut device = SimNvm::new(alloc, device_words)?;
    let status = melcard(
        alloc,
        words,
        &mut source,
        &mut sink,
        &mut device,
        &mut steps,
    );
    let left = match read_all(alloc, &mut source, input.len()) {
        Ok(bytes) => bytes.len(),
        Err(_) => 0,
    };
    Ok(End {
        status,
        text: Vec::from_slice(alloc, sink.bytes())?,
        left,
    })
}

/// Returns the end of a job over memory, by its words, its input, the room of its sink, and the calls of its
/// source that fail.
pub fn ended(
    alloc: Global,
    words: &[String],
    input: &[u8],
    room: usize,
    fail_at: &[u32],
) -> Result<End, NoMemory> {
    ended_on(alloc, DEVICE_WORDS, words, input, room, fail_at)
}

// The end of a job over memory and a device of `device_words` words.
fn ended_on(
    alloc: Global,
    device_words: u32,
    words: &[String],
    input: &[u8],
    room: usize,
    fail_at: &[u32],
) -> Result<End, NoMemory>
    requires low { 256 ≤ device_words }
    requires high { device_words ≤ 16384 }
{
    counted::<Brand>(
        alloc,
        Blank::new(1),
        device_words,
        words,
        input,
        room,
        fail_at,
    )
}

/// Returns the words of a command line.
pub fn words(alloc: Global, texts: &[&str]) -> Result<Vec<String>, AllocError> {
    let mut words = Vec::new(alloc);
    for text in texts {
        words.push(String::from_str(alloc, text)?)?;
    }
    Ok(words)
}

// Whether these words lead to the usage line, and leave the source unchanged.
fn is_no_form(alloc: Global, texts: &[&str]) -> Result<bool, NoMemory> {
    let words = words(alloc, texts)?;
    let end = ended(alloc, words.as_slice(), COUNTER, 58, &[])?;
    let usage = b"usage: melcard play | asm | list | gen N | check | trace\n";
    Ok(end.is(2, usage) && end.left == COUNTER.len())
}

// Each status of a play over streams in memory.
#[test]
fn statuses(rt: HostRuntime) -> Result<(), Fail> {
    let alloc = rt.alloc();
    let play = words(alloc, &["play"])?;
    let words = play.as_slice();

    for room in 0..58 {
        let end = ended(alloc, words, COUNTER, room, &[])?;
        assert!(rt; end.is(4, &TEXT[..room]), "at {room}");
    }
    let end = ended(alloc, words, COUNTER, 58, &[])?;
    assert!(rt; end.is(0, TEXT));
    let end = ended(alloc, words, COUNTER, 58, &[1])?;
    assert!(rt; end.is(3, b""));
    let end = ended(alloc, words, b"", 58, &[])?;
    assert!(rt; end.is(0, b""));
    let end = ended(alloc, words, b"format\n\nreboot\n", 58, &[])?;
    assert!(rt; end.is(1, b"line 3 BadLine\n"));
    Ok(())
}

// Whether a sample has the output due over a sink with room, all but its last byte over a sink with one byte
// too little, and nothing over a source that fails.
fn is_due(alloc: Global, sample: &Sample) -> Result<bool, NoMemory> {
    is_due_on(alloc, DEVICE_WORDS, sample)
}

// Whether a sample has the output due in that way, over a device of `device_words` words.
fn is_due_on(alloc: Global, device_words: u32, sample: &Sample) -> Result<bool, NoMemory>
    requires low { 256 ≤ device_words }
    requires high { device_words ≤ 16384 }
{
    let words = words(alloc, &[sample.word])?;
    let words = words.as_slice();
    let room = sample.text.len();
    let whole = ended_on(alloc, device_words, words, sample.input, room, &[])?;
    let failed = ended_on(alloc, device_words, words, sample.input, room, &[1])?;
    if !whole.is(sample.status, sample.text) || !failed.is(3, b"") {
        return Ok(false);
    }
    if room == 0 {
        return Ok(true);
    }
    let cut = ended_on(alloc, device_words, words, sample.input, room - 1, &[])?;
    Ok(cut.is(4, &sample.text[..room - 1]))
}

// Assembly texts and codes.
#[test]
fn samples(rt: HostRuntime) -> Result<(), Fail> {
    for (i, sample) in SAMPLES.iter().enumerate() {
        assert!(rt; is_due(rt.alloc(), sample)?, "at {i}");
    }
    Ok(())
}

// Decks: their transcripts and traces, and the lines that refuse them.
#[test]
fn decks(rt: HostRuntime) -> Result<(), Fail> {
    for (i, sample) in DECKS.iter().enumerate() {
        assert!(rt; is_due(rt.alloc(), sample)?, "at {i}");
    }
    Ok(())
}

// The place of the first sample without the status and the text due.
fn wrong_at(alloc: Global, samples: &[Sample]) -> Result<Option<usize>, NoMemory> {
    for (i, sample) in samples.iter().enumerate() {
        if !is_due(alloc, sample)? {
            return Ok(Some(i));
        }
    }
    Ok(None)
}

// The decks of the worked rows, with the output that the definitions compute for each.
#[test]
fn worked_plays(rt: HostRuntime) -> Result<(), Fail> {
    let wrong = wrong_at(rt.alloc(), &PLAYS)?;
    assert_eq!(rt; wrong, None);
    Ok(())
}

// The row of a card that has no more room until an application is deleted, on a device of 256 words.
#[test]
fn worked_room(rt: HostRuntime) -> Result<(), Fail> {
    for (i, sample) in SMALL_DEVICE.iter().enumerate() {
        assert!(rt; is_due_on(rt.alloc(), 256, sample)?, "at {i}");
    }
    Ok(())
}

#[test]
fn worked_cuts(rt: HostRuntime) -> Result<(), Fail> {
    let wrong = wrong_at(rt.alloc(), &CUTS)?;
    assert_eq!(rt; wrong, None);
    Ok(())
}

#[test]
fn worked_delegations(rt: HostRuntime) -> Result<(), Fail> {
    let wrong = wrong_at(rt.alloc(), &DELEGATIONS)?;
    assert_eq!(rt; wrong, None);
    Ok(())
}

#[test]
fn worked_images(rt: HostRuntime) -> Result<(), Fail> {
    let wrong = wrong_at(rt.alloc(), &IMAGES)?;
    assert_eq!(rt; wrong, None);
    Ok(())
}

#[test]
fn worked_traces(rt: HostRuntime) -> Result<(), Fail> {
    let wrong = wrong_at(rt.alloc(), &TRACES)?;
    assert_eq!(rt; wrong, None);
    Ok(())
}

// Generated decks: their summaries, and numbers that generate none.
#[test]
fn generated(rt: HostRuntime) -> Result<(), Fail> {
    let alloc = rt.alloc();
    for (number, summary) in [
        (
            "1",
            b"lines 3752 replies 2912 abends 0 cuts 39 offs 420 readies 377\nstatic 03A3\nstatic 00000000000000000000\nstatic 05A000000001\n" as &[u8],
        ),
        (
            "2",
            b"lines 3761 replies 2886 abends 0 cuts 41 offs 484 readies 346\nstatic 03D3\nstatic 0000EB03000000000001\nstatic 05A000000001\n",
        ),
        (
            "2147483647",
            b"lines 3752 replies 2985 abends 0 cuts 41 offs 346 readies 376\nstatic 040E\nstatic 000032A9000000000000\nstatic 05A000000001\n",
        ),
    ] {
        let words = words(alloc, &["gen", number])?;
        let end = ended(alloc, words.as_slice(), COUNTER, 200, &[1])?;
        assert!(rt; end.is(0, summary), "{number}");
    }
    for number in ["2147483648", "99999999999", "", "-1", "1x"] {
        assert!(rt; is_no_form(alloc, &["gen", number])?, "{number}");
    }
    assert!(rt; is_no_form(alloc, &["gen"])?);
    assert!(rt; is_no_form(alloc, &["gen", "1", "2"])?);
    Ok(())
}

// The stack checker's verdicts on the code of a deck's load lines, with their session bytes.
#[test]
fn checked(rt: HostRuntime) -> Result<(), Fail> {
    let alloc = rt.alloc();
    let words = words(alloc, &["check"])?;
    let words = words.as_slice();
    let deck = b"app one A000000001\nPUSHB 1\nPOPB\nEXIT\nend\nload one 0 511\nload one 0 512\n";
    let end = ended(alloc, words, deck, 58, &[])?;
    assert!(rt; end.is(0, b"6 accept 1\n7 refuse 2 Deep\n"));
    let end = ended(alloc, words, b"", 58, &[])?;
    assert!(rt; end.is(0, b""));
    let end = ended(alloc, words, deck, 10, &[])?;
    assert!(rt; end.is(4, b"6 accept 1"));
    let end = ended(alloc, words, b"load one 0 0\n", 58, &[])?;
    assert!(rt; end.is(1, b"line 1 UnknownName\n"));
    Ok(())
}

// An input above the limit, in every job.
#[test]
fn long_inputs(rt: HostRuntime) -> Result<(), Fail> {
    let alloc = rt.alloc();
    let feeds = vec![in alloc; b'\n'; 1_048_577]?;
    for word in ["play", "trace", "asm", "list", "check"] {
        let words = words(alloc, &[word])?;
        let end = ended(alloc, words.as_slice(), feeds.as_slice(), 58, &[])?;
        assert!(rt; end.is(1, b"line 0 TooLong\n"), "{word}");
    }
    Ok(())
}

// Listed code of 8,192 bytes and of one byte more, and an odd number of digits.
#[test]
fn long_codes(rt: HostRuntime) -> Result<(), Fail> {
    let alloc = rt.alloc();
    let words = words(alloc, &["list"])?;
    let words = words.as_slice();
    let digits = vec![in alloc; b'0'; 16_386]?;
    let end = ended(alloc, words, &digits.as_slice()[..16_384], 32_768, &[])?;
    assert!(rt; end.status == 0 && end.text.len() == 32_768);
    let end = ended(alloc, words, digits.as_slice(), 58, &[])?;
    assert!(rt; end.is(1, b"line 0 TooLong\n"));
    let end = ended(alloc, words, &digits.as_slice()[..16_385], 58, &[])?;
    assert!(rt; end.is(1, b"line 1 BadHex\n"));
    let end = ended(alloc, words, b"00\n0\n\n", 58, &[])?;
    assert!(rt; end.is(1, b"line 3 BadHex\n"));
    Ok(())
}

// Words that select no job.
#[test]
fn usage(rt: HostRuntime) -> Result<(), Fail> {
    let alloc = rt.alloc();
    assert!(rt; is_no_form(alloc, &[])?);
    assert!(rt; is_no_form(alloc, &["play", "play"])?);
    assert!(rt; is_no_form(alloc, &["asm", "list"])?);
    assert!(rt; is_no_form(alloc, &["--version"])?);
    assert!(rt; is_no_form(alloc, &["--help"])?);
    Ok(())
}

// The adapters of the standard streams, over a slice and a `Vec`.
#[test]
fn adapters(rt: HostRuntime) -> Result<(), Fail> {
    let alloc = rt.alloc();
    let mut source = StdSource::new(COUNTER);
    let bytes = read_all(alloc, &mut source, 300)?;
    assert_eq!(rt; bytes.as_slice(), COUNTER);
    let mut longer = StdSource::new(COUNTER);
    assert_eq!(rt;
        read_all(alloc, &mut longer, 10).err(),
        Some(ReadAll::TooLong)
    );
    let mut out = Vec::new(alloc);
    let mut sink = StdSink::new(&mut out);
    assert!(rt; put_all(&mut sink, TEXT).is_ok());
    assert_eq!(rt; out.as_slice(), TEXT);
    Ok(())
}

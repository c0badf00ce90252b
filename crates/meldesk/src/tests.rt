ghost use Rattle.std.specs.Prelude.{◌≡◌, ◌<◌};

use crate::purse::{DECK, DRAFT, LISTING, RECORD, TRACE, VERDICTS};
use crate::running::meldesk;
use mc_filter::blank_device;
use mc_streams::{MemSink, MemSource, read_all};
use mc_words::{NoMemory, Steps};
use std::alloc::{AllocError, Global};
use std::marker::Brand;
use std::sync::ledger::{Blank, Ledger};
use std::test::Fail;

// A draft whose code runs off its stack.
const BROKEN: &[u8] =
    b"format\npower\napp a A000000100\n NOP\n POPB ; nothing there\nend\nload a\n";

// The end of a job: its status, its output, its line on a refused deck, and the number of bytes that it left in its
// source.
#[derive(Drop)]
struct End {
    status: u8,
    text: Vec<u8>,
    refusal: Vec<u8>,
    left: usize,
}

impl End {
    // Whether the status and the text are these.
    fn is(&self, status: u8, text: &[u8]) -> bool {
        self.status == status && self.text.as_slice() == text && self.refusal.is_empty()
    }

    // Whether the deck was refused by this line, and nothing of it was written.
    fn is_refused(&self, line: &[u8]) -> bool {
        self.status == 1 && self.text.is_empty() && self.refusal.as_slice() == line
    }
}

// The end of a job over memory, with a count of steps.
fn counted<L: Ledger>(
    alloc: Global,
    blank: Blank,
    words: &[String],
    input: &[u8],
    room: usize,
    fail_at: &[u32],
) -> Result<End, NoMemory>
    requires name { blank.name ≡ L.name }
    requires parts { blank.parts ≡ L.parts }
    requires some { 0 < blank.parts }
{
    let mut steps = Steps::<L>::new(blank);
    let mut source = MemSource::new(alloc, input, fail_at)?;
    let mut sink = MemSink::new(alloc, room, &[])?;
    let mut err = MemSink::new(alloc, room, &[])?;
    let mut device = blank_device(alloc)?;
    let status = meldesk(
        alloc,
        words,
        &mut source,
        &mut sink,
        &mut err,
        &mut device,
        &mut steps,
    );
    let left = match read_all(alloc, &mut source, input.len()) {
        Ok(bytes) => bytes.len(),
        Err(_) => 0,
    };
    Ok(End {
        status,
        text: Vec::from_slice(alloc, sink.bytes())?,
        refusal: Vec::from_slice(alloc, err.bytes())?,
        left,
    })
}

// The end of a job over memory, by its words, its input, the room of its sink, and the calls of its source
// that fail.
fn ended(
    alloc: Global,
    words: &[String],
    input: &[u8],
    room: usize,
    fail_at: &[u32],
) -> Result<End, NoMemory> {
    counted::<Brand>(alloc, Blank::new(1), words, input, room, fail_at)
}

// The words of a command line.
fn words(alloc: Global, texts: &[&str]) -> Result<Vec<String>, AllocError> {
    let mut words = Vec::new(alloc);
    for text in texts {
        words.push(String::from_str(alloc, text)?)?;
    }
    Ok(words)
}

// The end of a job over memory on a draft that it reads, with room for its text.
fn made(alloc: Global, texts: &[&str], draft: &[u8]) -> Result<End, NoMemory> {
    let words = words(alloc, texts)?;
    ended(alloc, words.as_slice(), draft, 4000, &[])
}

// Each text of a whole draft.
#[test]
fn whole_draft(rt: HostRuntime) -> Result<(), Fail> {
    let alloc = rt.alloc();
    let draft = DRAFT.as_bytes();
    assert!(rt; made(alloc, &["deck"], draft)?.is(0, DECK.as_bytes()));
    assert!(rt; made(alloc, &["list"], draft)?.is(0, LISTING.as_bytes()));
    assert!(rt; made(alloc, &["check"], draft)?.is(0, VERDICTS.as_bytes()));
    assert!(rt; made(alloc, &["trace"], draft)?.is(0, TRACE.as_bytes()));
    assert!(rt; made(alloc, &["cover", "purse.draft"], draft)?.is(0, RECORD.as_bytes()));
    Ok(())
}

// A sink that fails at some of the bytes of each text, and a source that fails.
#[test]
fn faults(rt: HostRuntime) -> Result<(), Fail> {
    let alloc = rt.alloc();
    for (texts, text) in [
        (&["deck"] as &[&str], DECK),
        (&["list"], LISTING),
        (&["check"], VERDICTS),
        (&["trace"], TRACE),
        (&["cover", "purse.draft"], RECORD),
    ] {
        let words = words(alloc, texts)?;
        let words = words.as_slice();
        for room in [0, 1, 7, text.len().saturating_sub(1)] {
            let end = ended(alloc, words, DRAFT.as_bytes(), room, &[])?;
            let written = end.text.as_slice();
            let is_front = written.len() == room && text.as_bytes().starts_with(written);
            assert!(rt; end.status == 4 && is_front, "at {room}");
        }
        let end = ended(alloc, words, DRAFT.as_bytes(), 4000, &[1])?;
        assert!(rt; end.is(3, b""));
    }
    Ok(())
}

// Drafts that are refused: as drafts, as decks by all jobs but one, and one that is too long.
#[test]
fn refused(rt: HostRuntime) -> Result<(), Fail> {
    let alloc = rt.alloc();
    let bad_name = b"app a A000000100\n FOO\nCONST 1x 1\nend\n";
    let bad_code = b"app a A000000100\nCONST x 1\n FOO\nend\n";
    for texts in [
        &["list"] as &[&str],
        &["check"],
        &["trace"],
        &["steps"],
        &["names"],
        &["cover", "f"],
    ] {
        assert!(rt; made(alloc, texts, bad_name)?.is(1, b"line 3 BadName\n"));
        assert!(rt; made(alloc, texts, bad_code)?.is(1, b"line 3 UnknownWord\n"));
    }
    assert!(rt; made(alloc, &["deck"], bad_name)?.is_refused(b"line 3 BadName\n"));
    assert!(rt; made(alloc, &["deck"], bad_code)?.is(0, b"app a A000000100\n\n FOO\nend\n"));
    let feeds = vec![in alloc; b'\n'; 1_048_577]?;
    assert!(rt; made(alloc, &["deck"], feeds.as_slice())?.is_refused(b"line 0 TooLong\n"));
    Ok(())
}

// The source line of a place that the stack checker refuses.
#[test]
fn refused_code(rt: HostRuntime) -> Result<(), Fail> {
    let alloc = rt.alloc();
    let end = made(alloc, &["check"], BROKEN)?;
    assert!(rt; end.is(1, b"7 refuse 1 Under ; 5 POPB\n"));
    Ok(())
}

// A counter with a name of each kind.
const COUNTER: &[u8] =
    b"format\npower\napp c A000000a00\nSTATIC count 2\nSESSION seen 1 ; once\nPUBLIC given 3 2\n\
CONST full 0x6985\n CMPB INS,1\ndone: INCN count\n EXITSW full\nend\nload c\nselect c\napdu 80020000\n";

// The names and labels of a section.
#[test]
fn names(rt: HostRuntime) -> Result<(), Fail> {
    let end = made(rt.alloc(), &["names"], COUNTER)?;
    let lines =
        b"{\"section\":\"c\",\"aid\":\"A000000A00\",\"name\":\"count\",\"register\":\"SB\",\"offset\":0,\"size\":2,\"line\":4}\n\
{\"section\":\"c\",\"aid\":\"A000000A00\",\"name\":\"seen\",\"register\":\"DB\",\"offset\":0,\"size\":1,\"line\":5}\n\
{\"section\":\"c\",\"aid\":\"A000000A00\",\"name\":\"given\",\"register\":\"PB\",\"offset\":3,\"size\":2,\"line\":6}\n\
{\"section\":\"c\",\"aid\":\"A000000A00\",\"name\":\"full\",\"number\":\"0x6985\",\"line\":7}\n\
{\"section\":\"c\",\"aid\":\"A000000A00\",\"label\":\"done\",\"place\":4,\"line\":9}\n";
    assert!(rt; end.is(0, lines));
    Ok(())
}

// All that is wrong with a draft: each refused line, refused code, and warnings, which refuse nothing.
#[test]
fn explained(rt: HostRuntime) -> Result<(), Fail> {
    let alloc = rt.alloc();
    let bad = b"format\nreboot\napp a A000000100\n EXIT\nend\nload b\n";
    let lines =
        b"f:6:6: UnknownName: `b` stands here; expected the name of a unit or section above; move the section above this line, or mend the name\n\
f:2:1: BadLine: `reboot` stands here; expected a statement in lower case with as many fields as it takes, and a comment on a line of its own; look the statement up in docs/DECKS.md\n";
    assert!(rt; made(alloc, &["explain", "f"], bad)?.is(1, lines));
    let code =
        b"f:5:2: Under: `POPB` stands here; the code comes here from line 4 with a stack of 0; expected as many bytes on the stack as the instruction takes; push them first, on each way that leads here\n";
    assert!(rt; made(alloc, &["explain", "f"], BROKEN)?.is(1, code));
    let unused = b"app a A000000100\nCONST x 1\n EXIT\nend\n";
    let warning =
        b"f:2:7: warning: `x` stands here; expected an instruction or a rule that has the name; take the declaration away if nothing is to be read or written there\n";
    assert!(rt; made(alloc, &["explain", "f"], unused)?.is(0, warning));
    assert!(rt; made(alloc, &["explain", "f"], DRAFT.as_bytes())?.status == 0);
    let feeds = vec![in alloc; b'\n'; 1_048_577]?;
    assert!(rt; made(alloc, &["explain", "f"], feeds.as_slice())?.is(1, b"line 0 TooLong\n"));
    Ok(())
}

// The steps of a play.
const STEPS: &[u8] = b"{\"line\":1,\"source\":1,\"text\":\"format\",\"result\":\"formatted\"}\n\
{\"line\":2,\"source\":2,\"text\":\"power\",\"result\":\"ready 0\"}\n\
{\"line\":3,\"source\":3,\"text\":\"app c A000000a00\"}\n\
{\"line\":12,\"source\":12,\"text\":\"load c 2 1\",\"result\":\"9000\"}\n\
{\"line\":13,\"source\":13,\"text\":\"select A000000a00\",\"result\":\"9000\"}\n\
{\"frame\":1,\"aid\":\"A000000A00\",\"command\":\"80020000\",\"sets\":[[50180,\"8002\"],[50191,\"90\"]]}\n\
{\"turn\":1,\"depth\":1,\"aid\":\"A000000A00\",\"place\":0,\"source\":8,\"ins\":\"CMPB PT[-12],1\",\"dt\":32769,\"lb\":32769,\"c\":0,\"z\":0,\"open\":false,\"sets\":[],\"writes\":[]}\n\
{\"turn\":2,\"depth\":1,\"aid\":\"A000000A00\",\"place\":4,\"source\":9,\"ins\":\"INCN SB[0],2\",\"dt\":32769,\"lb\":32769,\"c\":0,\"z\":0,\"open\":false,\"sets\":[[1,\"01\"]],\"writes\":[1,6]}\n\
{\"turn\":3,\"depth\":1,\"aid\":\"A000000A00\",\"place\":8,\"source\":10,\"ins\":\"EXITSW 0x6985\",\"dt\":32769,\"lb\":32769,\"c\":0,\"z\":0,\"open\":false,\"sets\":[[50191,\"6985\"]],\"writes\":[]}\n\
{\"line\":14,\"source\":14,\"text\":\"apdu 80020000\",\"result\":\"6985\"}\n";

// The lines and turns of a play, whole and up to a fault of the sink.
#[test]
fn steps(rt: HostRuntime) -> Result<(), Fail> {
    let alloc = rt.alloc();
    assert!(rt; made(alloc, &["steps"], COUNTER)?.is(0, STEPS));
    let words = words(alloc, &["steps"])?;
    for room in [0, 1, 60, 923] {
        let end = ended(alloc, words.as_slice(), COUNTER, room, &[])?;
        let written = end.text.as_slice();
        assert!(rt;
            end.status == 4 && written.len() == room && STEPS.starts_with(written),
            "at {room}"
        );
    }
    Ok(())
}

// What the program says of itself, without a draft.
#[test]
fn about(rt: HostRuntime) -> Result<(), Fail> {
    let alloc = rt.alloc();
    let version = made(alloc, &["--version"], BROKEN)?;
    assert!(rt; version.is(0, b"meldesk 3\n") && version.left == BROKEN.len());
    let help = made(alloc, &["--help"], BROKEN)?;
    assert!(rt; help.status == 0 && help.text.as_slice().starts_with(b"usage: meldesk deck |"));
    Ok(())
}

// Words that select no job: the usage line is written, and the source is unchanged.
#[test]
fn usage(rt: HostRuntime) -> Result<(), Fail> {
    let alloc = rt.alloc();
    for texts in [
        &[] as &[&str],
        &["play"],
        &["deck", "deck"],
        &["cover"],
        &["cover", ""],
        &["cover", "a\nb"],
        &["cover", "a", "b"],
        &["explain"],
        &["explain", "a\nb"],
        &["list", "f"],
        &["--help", "f"],
    ] {
        let end = made(alloc, texts, BROKEN)?;
        let line =
            b"usage: meldesk deck | list | check | trace | steps | names | explain NAME | cover NAME\n";
        assert!(rt; end.is(2, line) && end.left == BROKEN.len());
    }
    Ok(())
}

ghost use Rattle.std.specs.Prelude.{◌≡◌, ◌<◌};

use crate::examples::EXAMPLES;
use crate::reports::{REPORTS, Report};
use crate::ruled::{RULED_DECKS, RuledDeck};
use crate::running::mellab;
use mc_streams::{MemSink, MemSource, read_all};
use mc_words::{NoMemory, Steps};
use std::alloc::{AllocError, Global};
use std::marker::Brand;
use std::sync::ledger::{Blank, Ledger};
use std::test::Fail;

// A deck of which five expectations fail.
const FAILING: &[u8] = b"format\n #>   form  \npower\n\n# a comment\n#>\n#> READY 0\n#> rea dy1\n\
    dump A000000001\n#> abs?nt\n#>abs\n#> *t?\n";

// The report of it.
const FAILED: &[u8] = b"line 2 expected form was formatted (line 1 format)\n\
    line 6 expected  was ready 0 (line 3 power)\nline 8 expected rea dy1 was rea dy0 (line 3 power)\n\
    line 11 expected abs was absent (line 9 dump A000000001)\n\
    line 12 expected *t? was absent (line 9 dump A000000001)\nexpected 7 failed 5\n";

// A counter that is loaded and selected, and counts twice.
const COUNTER: &[u8] = b"format\npower\n\
    unit counter 0000000000000000000FB902000039020000460200000600020000000961074F05A0000000010\
    0096F078405A00000000100000000\nload counter 2 0\nselect A000000001\napdu 8001000002\napdu 8001000002\n";

// The text of its sweep.
const SWEPT: &[u8] =
    b"line 4 writes 21: before 1-17 after 18-21\nline 6 writes 6: before 1-4 after 5-6\n\
    line 7 writes 6: before 1-4 after 5-6\nswept 3 writes 33 plays 98\n";

// The end of a job: its status, its output, and the number of bytes that it left in its source.
#[derive(Drop)]
struct End {
    status: u8,
    text: Vec<u8>,
    left: usize,
}

impl End {
    // Whether the status and the text are these.
    fn is(&self, status: u8, text: &[u8]) -> bool {
        self.status == status && self.text.as_slice() == text
    }
}

// The end of a job over memory, with a count of steps.
fn counted<L: Ledger>(
    alloc: Global,
    blank: Blank,
    words: &[String],
    input: &[u8],
    room: usize,
    fail_at: &[u32],
) -> Result<End, NoMemory>
    requires name { blank.name ≡ L.name }
    requires parts { blank.parts ≡ L.parts }
    requires some { 0 < blank.parts }
{
    let mut steps = Steps::<L>::new(blank);
    let mut source = MemSource::new(alloc, input, fail_at)?;
    let mut sink = MemSink::new(alloc, room, &[])?;
    let status = mellab(alloc, words, &mut source, &mut sink, &mut steps);
    let left = match read_all(alloc, &mut source, input.len()) {
        Ok(bytes) => bytes.len(),
        Err(_) => 0,
    };
    Ok(End {
        status,
        text: Vec::from_slice(alloc, sink.bytes())?,
        left,
    })
}

// The end of a job over memory, by its words, its input, the room of its sink, and the calls of its source
// that fail.
fn ended(
    alloc: Global,
    words: &[String],
    input: &[u8],
    room: usize,
    fail_at: &[u32],
) -> Result<End, NoMemory> {
    counted::<Brand>(alloc, Blank::new(1), words, input, room, fail_at)
}

// The words of a command line.
fn words(alloc: Global, texts: &[&str]) -> Result<Vec<String>, AllocError> {
    let mut words = Vec::new(alloc);
    for text in texts {
        words.push(String::from_str(alloc, text)?)?;
    }
    Ok(words)
}

// All expectations of the examples hold.
#[test]
fn examples(rt: HostRuntime) -> Result<(), Fail> {
    let alloc = rt.alloc();
    let words = words(alloc, &["expect"])?;
    for example in &EXAMPLES {
        let end = ended(alloc, words.as_slice(), example.deck.as_bytes(), 400, &[])?;
        assert!(rt; end.is(0, example.reported.as_bytes()), "{}", example.name);
    }
    Ok(())
}

// Whether a job over memory writes a report of the examples, to its last byte.
fn is_written(alloc: Global, report: &Report) -> Result<bool, NoMemory> {
    let words = words(alloc, report.words)?;
    let room = report.text.len() + 1;
    let end = ended(alloc, words.as_slice(), report.deck.as_bytes(), room, &[])?;
    Ok(end.text.as_slice() == report.text.as_bytes())
}

// The reports of the examples: explorations, and a sweep.
#[test]
fn reports(rt: HostRuntime) -> Result<(), Fail> {
    for report in REPORTS {
        let written = is_written(rt.alloc(), report)?;
        assert!(rt; written, "{}", report.name);
    }
    Ok(())
}

// Failed expectations, and a sink that fails at each of their bytes.
#[test]
fn failed(rt: HostRuntime) -> Result<(), Fail> {
    let alloc = rt.alloc();
    let words = words(alloc, &["expect"])?;
    let words = words.as_slice();
    for room in 0..FAILED.len() {
        let end = ended(alloc, words, FAILING, room, &[])?;
        assert!(rt; end.is(4, &FAILED[..room]), "at {room}");
    }
    let end = ended(alloc, words, FAILING, FAILED.len(), &[])?;
    assert!(rt; end.is(1, FAILED));
    let end = ended(alloc, words, FAILING, FAILED.len(), &[1])?;
    assert!(rt; end.is(3, b""));
    let end = ended(
        alloc,
        words,
        b"format\npower\ndump A000000001\n#> present\n",
        400,
        &[],
    )?;
    assert!(rt;
        end.is(
            1,
            b"line 4 expected present was absent (line 3 dump A000000001)\nexpected 1 failed 1\n"
        )
    );
    Ok(())
}

// Decks that are refused: by a statement, by an expectation without a result, by a line of a section, and for want of
// an expectation.
#[test]
fn refused(rt: HostRuntime) -> Result<(), Fail> {
    let alloc = rt.alloc();
    let words = words(alloc, &["expect"])?;
    let words = words.as_slice();
    for (deck, reported) in [
        (
            b"#> formatted\nformat\nreboot\n" as &[u8],
            b"line 3 BadLine\n" as &[u8],
        ),
        (b"#> formatted\nformat\n", b"line 1 NoAnswer\n"),
        (b"format\nbudget 5\n\n#> *\n", b"line 4 NoAnswer\n"),
        (
            b"app a A000000001\nEXIT\n#> 9000\nend\n",
            b"line 3 UnknownWord\n",
        ),
        (b"format\npower\n# ready 0\n", b"line 0 NoExpectation\n"),
        (b"", b"line 0 NoExpectation\n"),
    ] {
        let end = ended(alloc, words, deck, 400, &[])?;
        assert!(rt;
            end.is(1, reported),
            "{}",
            str::from_utf8(end.text.as_slice()).unwrap_or("")
        );
    }
    let feeds = vec![in alloc; b'\n'; 1_048_577]?;
    let end = ended(alloc, words, feeds.as_slice(), 58, &[])?;
    assert!(rt; end.is(1, b"line 0 TooLong\n"));
    Ok(())
}

// A sweep, complete and up to a fault of the sink, a source that fails, and a deck that is refused.
#[test]
fn swept(rt: HostRuntime) -> Result<(), Fail> {
    let alloc = rt.alloc();
    let words = words(alloc, &["sweep"])?;
    let words = words.as_slice();
    for room in [0, 41, 50, SWEPT.len() - 1] {
        let end = ended(alloc, words, COUNTER, room, &[])?;
        assert!(rt; end.is(4, &SWEPT[..room]), "at {room}");
    }
    let end = ended(alloc, words, COUNTER, SWEPT.len(), &[])?;
    assert!(rt; end.is(0, SWEPT));
    let end = ended(alloc, words, COUNTER, SWEPT.len(), &[1])?;
    assert!(rt; end.is(3, b""));
    let end = ended(alloc, words, b"format\n\nreboot\n", 400, &[])?;
    assert!(rt; end.is(1, b"line 3 BadLine\n"));
    Ok(())
}

// The counter with a move, an allowance, and a rule that a second count breaks.
const RULED: &[u8] = b"format\npower\n\
    unit counter 0000000000000000000FB902000039020000460200000600020000000961074F05A0000000010\
    0096F078405A00000000100000000\nload counter 2 0\nselect A000000001\n\
    #@ move apdu 8001000002\n#@ allow counts 1\n#@ on apdu* gives *9000 spend counts 1\n";

// The text of its exploration, two moves deep, and of one that is one move deep.
const BROKEN: &[u8] =
    b"depth 1 states 3\nbroken counts after 2 lines\napdu 8001000002\napdu 8001000002\n";

const KEPT: &[u8] = b"depth 1 states 3\nexplored states 4 tries 19 depth 1\n";

// The text of the second, if a fourth state is one too many.
const FULL: &[u8] = b"explored states 3 tries 13 depth 1\n";

// The words of an exploration one move deep with the most states.
fn bounded(alloc: Global, most: &str) -> Result<Vec<String>, AllocError> {
    words(alloc, &["explore", "1", "--states", most])
}

// Explorations: a rule that is broken, and up to a fault of the sink; one that ends at its depth; a source that
// fails, and rules and a deck that are refused.
#[test]
fn explored(rt: HostRuntime) -> Result<(), Fail> {
    let alloc = rt.alloc();
    let deep = words(alloc, &["explore", "2"])?;
    let words = words(alloc, &["explore", "1"])?;
    let words = words.as_slice();
    let end = ended(alloc, deep.as_slice(), RULED, 400, &[])?;
    assert!(rt; end.is(1, BROKEN));
    for room in 0..BROKEN.len() {
        let end = ended(alloc, deep.as_slice(), RULED, room, &[])?;
        assert!(rt; end.is(4, &BROKEN[..room]), "at {room}");
    }
    let end = ended(alloc, words, RULED, 400, &[])?;
    assert!(rt; end.is(6, KEPT));
    let few = bounded(alloc, "3")?;
    let end = ended(alloc, few.as_slice(), RULED, 400, &[])?;
    assert!(rt; end.is(6, FULL));
    let enough = bounded(alloc, "4")?;
    let end = ended(alloc, enough.as_slice(), RULED, 400, &[])?;
    assert!(rt; end.is(6, KEPT));
    let end = ended(alloc, words, RULED, 400, &[1])?;
    assert!(rt; end.is(3, b""));
    let end = ended(alloc, words, b"format\n#@ move reboot\n", 400, &[])?;
    assert!(rt; end.is(1, b"line 2 BadLine\n"));
    let end = ended(alloc, words, b"format\n#@ move reboot\nreboot\n", 400, &[])?;
    assert!(rt; end.is(1, b"line 3 BadLine\n"));
    Ok(())
}

// A deck that tests nothing is refused, and so is a mark without a blank; a rule that fits nothing is named.
#[test]
fn silent(rt: HostRuntime) -> Result<(), Fail> {
    let alloc = rt.alloc();
    let words = words(alloc, &["explore", "3"])?;
    let words = words.as_slice();
    for (deck, reported, status) in [
        (
            b"format\npower\n" as &[u8],
            b"line 0 NoMove\n" as &[u8],
            1u8,
        ),
        (b"format\npower\n#@ move power\n", b"line 0 NoRule\n", 1),
        (b"format\npower\n#@move power\n", b"line 3 BadLine\n", 1),
        (
            b"format\npower\n#@ move power\n#@ allow a 1\n#@ on power gives mute spend a 1\n",
            b"depth 1 states 0\nsilent line 5\nexplored states 1 tries 1 all\n",
            0,
        ),
        (
            b"format\n#@ move power\n#@ allow a 1\n#@ on power gives ready* allow a 2\n",
            b"depth 1 states 1\ndepth 2 states 0\nexplored states 2 tries 2 all\n",
            0,
        ),
    ] {
        let end = ended(alloc, words, deck, 400, &[])?;
        assert!(rt;
            end.is(status, reported),
            "{}",
            str::from_utf8(end.text.as_slice()).unwrap_or("")
        );
    }
    Ok(())
}

// The deck of an application with rules.
fn ruled_deck(alloc: Global, ruled: &RuledDeck) -> Result<String, AllocError> {
    format!(in alloc;
        "format\npower\napp a A000000001\n{}EXIT\nend\nload a 2 0\n#@ app a\n{}",
        ruled.code, ruled.lines
    )
}

// Explorations with rules of one application: each finds what its deck shows, or that nothing is broken.
#[test]
fn rules_of_an_application(rt: HostRuntime) -> Result<(), Fail> {
    let alloc = rt.alloc();
    let words = words(alloc, &["explore", "3"])?;
    let words = words.as_slice();
    for ruled in RULED_DECKS {
        let deck = ruled_deck(alloc, ruled)?;
        let end = ended(alloc, words, deck.as_bytes(), 400, &[])?;
        assert!(rt;
            end.is(ruled.status, ruled.text.as_bytes()),
            "{}: {}",
            ruled.shows,
            str::from_utf8(end.text.as_slice()).unwrap_or("")
        );
    }
    Ok(())
}

// An exploration with rules of one application, up to a fault of the sink at each byte.
#[test]
fn rules_at_a_fault(rt: HostRuntime) -> Result<(), Fail> {
    let alloc = rt.alloc();
    let words = words(alloc, &["explore", "3"])?;
    let Some(ruled) = RULED_DECKS.last() else {
        assert!(rt; false);
        return Ok(());
    };
    let deck = ruled_deck(alloc, ruled)?;
    let text = ruled.text.as_bytes();
    for room in 0..text.len() {
        let end = ended(alloc, words.as_slice(), deck.as_bytes(), room, &[])?;
        assert!(rt; end.is(4, &text[..room]), "at {room}");
    }
    Ok(())
}

// A deck of which a command changes two numbers, one after the other, with a mark after the load.
const TWICE: &str = "format\npower\n\
    unit twice 00000000000000000013B9020000B902000239040000460400000600040000000961074F05A0000000010\
    0096F078405A00000000100000000\nload twice 4 0\n#! whole\nselect A000000001\napdu 8001000004\n";

// The text of its sweep, up to the end of the command's line.
const TWICE_SWEPT: &str = "line 4 writes 22: before 1-18 after 19-22\n\
    line 7 writes 12: before 1-4 between 5-10 after 11-12";

// A line that must be whole and is between two changes: the status is 1 if it is marked, and 0 if not. A mark under a line
// that makes no write has a line of its own.
#[test]
fn whole(rt: HostRuntime) -> Result<(), Fail> {
    let alloc = rt.alloc();
    let words = words(alloc, &["sweep"])?;
    let words = words.as_slice();
    for (mark, reported, status) in [
        ("#! whole all", "", 0u8),
        ("power\n#! whole", "\nline 9 not swept", 1),
        ("# twice\n\n \t#!  whole\t", " not whole", 1),
    ] {
        let deck = format!(in alloc; "{}{}\ndump A000000001\n", TWICE, mark)?;
        let text = format!(in alloc;
            "{}{}\nswept 2 writes 34 plays 100\n",
            TWICE_SWEPT, reported
        )?;
        let end = ended(alloc, words, deck.as_bytes(), 400, &[])?;
        assert!(rt; end.is(status, text.as_bytes()), "{}", mark);
    }
    Ok(())
}

// The text of a door that is proved.
const PROVED: &[u8] =
    b"idle guesses 0: SB[0] 00\nidle guesses 1: SB[0] 00-01\nidle guesses 2: SB[0] 00-02\n\
    idle guesses 3: SB[0] 00-03\nsession guesses 0: SB[0] 00\nsession guesses 1: SB[0] 00-01\n\
    session guesses 2: SB[0] 00-02\nsession guesses 3: SB[0] 00-03\nproved keys 114\n";

// A door that takes three guesses of a byte: what its commands find first, what a guess costs, and what its rule does.
fn door(alloc: Global, first: &str, cost: &str, effect: &str) -> Result<String, AllocError> {
    format!(in alloc;
        "format\npower\napp door A000000001\n{}CMPB PT[-12],0x20\nJUMP EQ,show\nEXIT\n\
            show: TESTN SB[0],1\nJUMP EQ,done\n{}\nCMPB PB[0],7\ndone: EXIT\n\
            gift: SETB SB[0],3\nEXIT\nDATA 03\nend\nload door 1 0\n\
            #@ app door\n#@ allow guesses 3\n#@ on turn *CMPB PB[0],7* {} guesses 1\n#@ always SB[0] 0 3\n",
        first, cost, effect
    )
}

// Rules that hold in every play, one that a guess without its cost breaks, one that a command which no move lists breaks,
// one that is refused, and a deck without an application; the first also up to a fault of the sink.
#[test]
fn proved(rt: HostRuntime) -> Result<(), Fail> {
    let alloc = rt.alloc();
    let words = words(alloc, &["prove"])?;
    let words = words.as_slice();
    let kept = door(alloc, "", "DECN SB[0],1", "spend")?;
    let end = ended(alloc, words, kept.as_bytes(), 400, &[])?;
    assert!(rt; end.is(0, PROVED));
    let end = ended(alloc, words, kept.as_bytes(), 100, &[])?;
    assert!(rt; end.is(4, &PROVED[..100]));
    for (first, cost, tail) in [
        (
            "",
            "NOP",
            "broken guesses line 19 at 0010 ; CMPB PB[0],7 ; created, select, apdu 00-BD,BF-FE 20 00-FF 00-FF: 4-5 7-11, exit, \
                apdu 00-BD,BF-FE 20 00-FF 00-FF: 4-5 7-11, exit, apdu 00-BD,BF-FE 20 00-FF 00-FF: 4-5 7-11, exit, \
                apdu 00-BD,BF-FE 20 00-FF 00-FF: 4-5 7-10\nnot proved keys 106\n",
        ),
        (
            "CMPB PT[-12],0x99\nJUMP EQ,gift\n",
            "DECN SB[0],1",
            "broken guesses line 21 at 001A ; CMPB PB[0],7 ; created, select, apdu 00-BD,BF-FE 20 00-FF 00-FF: 4-7 9-13, exit, \
                apdu 00-BD,BF-FE 20 00-FF 00-FF: 4-7 9-13, exit, apdu 00-BD,BF-FE 20 00-FF 00-FF: 4-7 9-13, exit, \
                apdu 00-BD,BF-FE 20 00-FF 00-FF: 4-7 9-12\nnot proved keys 180\n",
        ),
    ] {
        let deck = door(alloc, first, cost, "spend")?;
        let end = ended(alloc, words, deck.as_bytes(), 600, &[])?;
        assert!(rt;
            end.status == 1 && end.text.as_slice().ends_with(tail.as_bytes()),
            "{}",
            cost
        );
    }
    let refused = door(alloc, "", "NOP", "lend")?;
    let end = ended(alloc, words, refused.as_bytes(), 400, &[])?;
    assert!(rt; end.is(1, b"line 19 BadLine\n"));
    let end = ended(alloc, words, COUNTER, 400, &[])?;
    assert!(rt; end.is(1, b"line 0 NoApplication\n"));
    Ok(())
}

// What the program says of itself: the source is unchanged, and a fault of the sink is status 4.
#[test]
fn described(rt: HostRuntime) -> Result<(), Fail> {
    let alloc = rt.alloc();
    let help = words(alloc, &["--help"])?;
    let end = ended(alloc, help.as_slice(), FAILING, 2000, &[])?;
    assert!(rt;
        end.status == 0
            && end.left == FAILING.len()
            && end.text.as_slice().starts_with(
                b"usage: mellab expect | sweep | explore N | prove\n\nmellab reads a deck"
            )
            && end
                .text
                .as_slice()
                .ends_with(b"\nThe page is docs/LABORATORY.md.\n")
    );
    let end = ended(alloc, help.as_slice(), FAILING, 10, &[])?;
    assert!(rt; end.is(4, b"usage: mel"));
    let version = words(alloc, &["--version"])?;
    let end = ended(alloc, version.as_slice(), FAILING, 10, &[])?;
    assert!(rt; end.is(0, b"mellab 3\n") && end.left == FAILING.len());
    Ok(())
}

// Words that select nothing: the usage line is written, and the source is unchanged.
#[test]
fn usage(rt: HostRuntime) -> Result<(), Fail> {
    let alloc = rt.alloc();
    for texts in [
        &[] as &[&str],
        &["expect", "sweep"],
        &["play"],
        &["--help", "expect"],
        &["--version", "--help"],
        &["-h"],
        &["explore"],
        &["explore", "0"],
        &["explore", "1234567"],
        &["explore", "1", "2"],
        &["explore", "1", "--states"],
        &["explore", "1", "--states", "0"],
        &["explore", "1", "--states", "123456789"],
        &["explore", "1", "--depth", "3"],
        &["explore", "0", "--states", "3"],
        &["prove", "1", "--states", "3"],
        &["explore", "1", "--states", "-3"],
        &["explore", "1", "--states", ""],
        &["explore", "--states", "3", "1"],
        &["explore", "1", "--states", "3", "3"],
        &["explore", "1", "--states", "3", "--states", "3"],
    ] {
        let words = words(alloc, texts)?;
        let end = ended(alloc, words.as_slice(), FAILING, 58, &[])?;
        assert!(rt;
            end.is(2, b"usage: mellab expect | sweep | explore N | prove\n")
                && end.left == FAILING.len()
        );
    }
    Ok(())
}

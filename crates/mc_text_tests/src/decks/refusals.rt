// The output of a refusal for texts that are not decks.
use crate::decks::more_samples::MORE_SAMPLES;
use crate::decks::samples::SAMPLES;
use mc_deck::{DeckRefusal, read_deck};
use std::alloc::{AllocError, Global};
use std::test::Fail;

// The output for a text: the first refused line and its cause, or the number of lines of the deck.
fn printed(alloc: Global, text: &[u8]) -> Result<String, Fail> {
    match read_deck(alloc, text) {
        Ok(deck) => Ok(format!(in alloc; "lines: {}", deck.len())?),
        Err(DeckRefusal::At(number, cause)) => {
            Ok(format!(in alloc; "line {} {}", number, cause.word())?)
        }
        Err(DeckRefusal::NoMemory) => Ok(format!(in alloc; "out of memory")?),
    }
}

// Complete decks, each with one line that is broken.
#[test]
fn broken_decks(rt: HostRuntime) -> Result<(), Fail> {
    for (text, due) in SAMPLES {
        assert_eq!(rt; printed(rt.alloc(), text)?.as_str(), *due);
    }
    for (text, due) in MORE_SAMPLES {
        assert_eq!(rt; printed(rt.alloc(), text)?.as_str(), *due);
    }
    Ok(())
}

// How lines and fields are cut, and which cause is reported if several apply.
#[test]
fn small_decks(rt: HostRuntime) -> Result<(), Fail> {
    for (text, due) in SMALL {
        assert_eq!(rt; printed(rt.alloc(), text)?.as_str(), *due);
    }
    Ok(())
}

const SMALL: &[(&[u8], &str)] = &[
    // The ends of lines.
    (b"", "lines: 0"),
    (b"\n\r\n", "lines: 0"),
    (b"format\npower\n", "lines: 2"),
    (b"format\npower", "lines: 2"),
    (b"format\r\npower\r\n", "lines: 2"),
    (b"format\r\npower\r", "line 2 BadLine"),
    (b"format\r\r\n", "line 1 BadLine"),
    (b"format\rpower\n", "line 1 BadLine"),
    // Blanks, comments, and upper case.
    (b"\t format \t\n", "lines: 1"),
    (b" #format \x00\xFF\r\n\n  \nformat\n", "lines: 1"),
    (b"format # now\n", "line 1 BadLine"),
    (b"Format\n", "line 1 BadLine"),
    // Fields from the first on, each by its form and then by its size.
    (b"select A0000000\n", "line 1 OutOfRange"),
    (b"select A00000000\n", "line 1 BadHex"),
    (b"select a00000000g\n", "line 1 BadHex"),
    (b"select a000000001\n", "lines: 1"),
    (
        b"dump 000102030405060708090A0B0C0D0E0F10\n",
        "line 1 OutOfRange",
    ),
    (b"apdu\n", "line 1 BadLine"),
    (b"cut 0 x\n", "line 1 OutOfRange"),
    (b"cut x x\n", "line 1 BadNumber"),
    (b"cut 1 x\n", "line 1 BadHex"),
    (b"cut 1 00\n", "line 1 OutOfRange"),
    (b"cut 4294967295 0000000000000000\n", "lines: 1"),
    (b"cut 4294967296 0000000000000000\n", "line 1 OutOfRange"),
    (
        b"cut 18446744073709551617 0000000000000000\n",
        "line 1 OutOfRange",
    ),
    (b"poke 16383 0000000000000000\n", "lines: 1"),
    (b"poke 16384 0000000000000000\n", "line 1 OutOfRange"),
    (b"fail +1\n", "line 1 BadNumber"),
    (b"load a- 65536 x\n", "line 1 BadName"),
    (b"load a 65536 x\n", "line 1 OutOfRange"),
    (b"load a 65535 65535\n", "line 1 UnknownName"),
    (
        b"load aaaaaaaaaaaaaaaaaaaaaaaaaaaaaaaa 0 0\n",
        "line 1 UnknownName",
    ),
    (
        b"load aaaaaaaaaaaaaaaaaaaaaaaaaaaaaaaaa 0 0\n",
        "line 1 BadName",
    ),
    // Lines that come too late.
    (b"power\nformat\n", "line 2 LateLine"),
    (b"power\nformat 1\n", "line 2 BadLine"),
    (b"power\npoke 16384 0000000000000000\n", "line 2 OutOfRange"),
    (b"power\npoke 16383 0000000000000000\n", "line 2 LateLine"),
    // Units.
    (b"unit a- 0\n", "line 1 BadName"),
    (b"unit a 0\n", "line 1 BadHex"),
    (b"unit a 00\n", "line 1 Short"),
    (
        b"app a A000000001\nEXIT\nend\nunit a 00\n",
        "line 4 NameTwice",
    ),
    (b"app a A000000001\nEXIT\nend\nunit a 0\n", "line 4 BadHex"),
    (
        b"app a A000000001\nEXIT\nend\napp a A000000002\n",
        "line 4 NameTwice",
    ),
    // Sections: no end, then DATA lines, then the assembly, then the unit.
    (b"app a A0000000\n", "line 1 OutOfRange"),
    (b"app a A000000001\n", "line 1 NoEnd"),
    (b"\n# here\napp a A000000001\nDATA x\nX\n", "line 3 NoEnd"),
    (b"app a A000000001\nX\nDATA x\nDATA\nend\n", "line 3 BadHex"),
    (b"app a A000000001\nX\nDATA 00 ; x\nend\n", "line 3 BadLine"),
    (b"app a A000000001\nDATA 00\nX\nend\n", "line 3 UnknownWord"),
    (
        b"app a A000000001\n\nEXIT\nend ; x\nend\n",
        "line 4 UnknownWord",
    ),
    (b"app a A000000001\nDATA 00\nend\n", "line 3 NoCode"),
    (
        b"app a A000000001\r\nDATA 00\r\nDATA: EXIT\r\n end \r\nload a 1 0",
        "lines: 2",
    ),
];

/// A text that repeats some of its characters.
struct Long {
    front: &'static [u8],
    repeated: &'static [u8],
    times: u16,
    end: &'static [u8],
}

// The text.
fn spelled(alloc: Global, long: &Long) -> Result<Vec<u8>, AllocError> {
    let mut text = Vec::new(alloc);
    text.extend_from_slice(long.front)?;
    for _ in 0..long.times {
        text.extend_from_slice(long.repeated)?;
    }
    text.extend_from_slice(long.end)?;
    Ok(text)
}

// Long numbers, and decks with too many lines.
#[test]
fn long_decks(rt: HostRuntime) -> Result<(), Fail> {
    for (long, due) in LONG {
        let text = spelled(rt.alloc(), long)?;
        assert_eq!(rt; printed(rt.alloc(), text.as_slice())?.as_str(), *due);
    }
    Ok(())
}

const LONG: &[(Long, &str)] = &[
    (
        Long {
            front: b"budget ",
            repeated: b"0",
            times: 400,
            end: b"65536\n",
        },
        "lines: 1",
    ),
    (
        Long {
            front: b"budget ",
            repeated: b"0",
            times: 400,
            end: b"\n",
        },
        "line 1 OutOfRange",
    ),
    (
        Long {
            front: b"fail 1",
            repeated: b"0",
            times: 400,
            end: b"\n",
        },
        "line 1 OutOfRange",
    ),
    (
        Long {
            front: b"fail 1",
            repeated: b"0",
            times: 400,
            end: b"x\n",
        },
        "line 1 BadNumber",
    ),
    (
        Long {
            front: b"apdu 80",
            repeated: b"00",
            times: 40000,
            end: b"\n",
        },
        "lines: 1",
    ),
    (
        Long {
            front: b"",
            repeated: b"\n",
            times: 19999,
            end: b"format",
        },
        "lines: 1",
    ),
    (
        Long {
            front: b"",
            repeated: b"\n",
            times: 20000,
            end: b"",
        },
        "lines: 0",
    ),
    (
        Long {
            front: b"",
            repeated: b"\n",
            times: 20000,
            end: b"#",
        },
        "line 20001 TooManyLines",
    ),
    (
        Long {
            front: b"x",
            repeated: b"\n",
            times: 20001,
            end: b"",
        },
        "line 1 BadLine",
    ),
    (
        Long {
            front: b"app a A000000001\n",
            repeated: b"DATA x\n",
            times: 19999,
            end: b"",
        },
        "line 1 NoEnd",
    ),
    (
        Long {
            front: b"app a A000000001\n",
            repeated: b"DATA x\n",
            times: 19999,
            end: b"end",
        },
        "line 20001 TooManyLines",
    ),
    (
        Long {
            front: b"app a A000000001\n",
            repeated: b"\n",
            times: 19998,
            end: b"end\n",
        },
        "line 20000 NoCode",
    ),
];

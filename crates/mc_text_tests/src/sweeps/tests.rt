ghost use Rattle.std.specs.Prelude.{◌≡◌, ◌^◌, ◌<◌, length};

use mc_base::{MemSink, NoMemory, Steps};
use mc_deck::read_deck;
use mc_lab::{Mark, remarks, sweep};
use mc_script::JobFault;
use std::alloc::Global;
use std::marker::Brand;
use std::sync::ledger::{Blank, Ledger};
use std::test::Fail;

/// A counter that is loaded and selected, and counts twice.
const COUNTER: &[u8] =
    b"format\npower\nunit counter 0000000000000000000FB902000039020000460200000600020000000961074F05A00000000100096F078405A00000000100000000\nload counter 2 0\nselect A000000001\napdu 8001000002\napdu 8001000002\n";

/// The counter, with a cut armed for the second count.
const ARMED: &[u8] =
    b"format\npower\nunit counter 0000000000000000000FB902000039020000460200000600020000000961074F05A00000000100096F078405A00000000100000000\nload counter 2 0\nselect A000000001\napdu 8001000002\ncut 2 0000000000000000\napdu 8001000002\n";

/// The text of the sweep of the first deck.
const TEXT: &[u8] =
    b"line 4 writes 21: before 1-17 after 18-21\nline 6 writes 6: before 1-4 after 5-6\nline 7 writes 6: before 1-4 after 5-6\nswept 3 writes 33 plays 98\n";

/// The text of the sweep of the second deck.
const ARMED_TEXT: &[u8] =
    b"line 4 writes 21: before 1-17 after 18-21\nline 6 writes 6: before 1-4 after 5-6\nswept 2 writes 27 plays 82\n";

/// The end of a sweep, and its output.
#[derive(Drop)]
struct End {
    result: Result<bool, JobFault>,
    text: Vec<u8>,
}

// A sweep of a deck's text over memory, with a count of steps.
fn counted<L: Ledger>(
    alloc: Global,
    blank: Blank,
    text: &[u8],
    room: usize,
) -> Result<End, NoMemory>
    requires name { blank.name ≡ L.name }
    requires parts { blank.parts ≡ L.parts }
    requires some { 0 < blank.parts }
    requires few { length text.now < 2 ^ 32 }
{
    let mut steps = Steps::<L>::new(blank);
    let mut sink = MemSink::new(alloc, room, &[])?;
    let Ok(deck) = read_deck(alloc, text) else {
        return Err(NoMemory);
    };
    let marks = remarks(alloc, text, Mark::Whole)?;
    let result = sweep(alloc, &deck, marks.as_slice(), &mut sink, &mut steps);
    Ok(End {
        result,
        text: Vec::from_slice(alloc, sink.bytes())?,
    })
}

// The end of a sweep over memory.
fn swept(alloc: Global, text: &[u8], room: usize) -> Result<End, NoMemory>
    requires { length text.now < 2 ^ 32 }
{
    counted::<Brand>(alloc, Blank::new(1), text, room)
}

// Three lines of a deck are swept.
#[test]
fn counter(rt: HostRuntime) -> Result<(), Fail> {
    let end = swept(rt.alloc(), COUNTER, 1024)?;
    assert!(rt; end.result.is_ok());
    assert_eq!(rt; end.text.as_slice(), TEXT);
    Ok(())
}

// A line for which a cut is armed is not swept.
#[test]
fn armed(rt: HostRuntime) -> Result<(), Fail> {
    let end = swept(rt.alloc(), ARMED, 1024)?;
    assert!(rt; end.result.is_ok());
    assert_eq!(rt; end.text.as_slice(), ARMED_TEXT);
    Ok(())
}

// If the sink has one byte too little, all but that byte is written.
#[test]
fn byte_too_little(rt: HostRuntime) -> Result<(), Fail> {
    let end = swept(rt.alloc(), COUNTER, TEXT.len() - 1)?;
    assert!(rt; end.result == Err(JobFault::WriteFault));
    assert_eq!(rt; end.text.as_slice(), &TEXT[..TEXT.len() - 1]);
    Ok(())
}

// The stack checker's verdicts on a draft.
ghost use Rattle.std.specs.Prelude.{◌≡◌, ◌++◌, codes, decimal, Err, IfOk, OnOk};
ghost use Rattle.mc_deck.specs.Lines.{line_of, GoodLine};
ghost use Rattle.desk_draft.specs.Listings.{Desk};
ghost use Rattle.desk_draft.specs.Loads.{AreLoads};
ghost use Rattle.desk_draft.specs.Verdicts.{verdict_line, verdict_text};
ghost use Rattle.meldesk.specs.Checks.{accepts, verdict_value, AddsVerdicts, ShowsVerdicts};

use crate::draft_text::DraftText;
use desk_draft::{Loads, push_source_part};
use itoa::Buffer;
use mc_check::{CheckCause, Verdict, check};
use mc_deck::{Deck, Line};
use mc_words::NoMemory;
use std::alloc::Global;

// Adds a number in decimal.
fn push_decimal(text: &mut Vec<u8>, number: u32) -> Result<(), NoMemory>
    ensures { OnOk result (text.new.items ≡ text.old.items ++ decimal number) }
{
    let mut buffer = Buffer::new();
    text.extend_from_slice(buffer.format(number).as_bytes())?;
    Ok(())
}

// Adds ` accept D`: the deepest stack of code that is accepted.
fn push_accepted(text: &mut Vec<u8>, deepest: u16) -> Result<(), NoMemory>
    ensures { OnOk result (text.new.items ≡ text.old.items ++ (codes "accept " ++ decimal deepest)) }
{
    text.extend_from_slice(b"accept ")?;
    push_decimal(text, deepest as u32)
}

// Adds `refuse P CAUSE` and the source line of the place.
fn push_refused(
    text: &mut Vec<u8>,
    loads: &Loads<'_, '_>,
    number: u32,
    place: u16,
    cause: CheckCause,
) -> Result<(), NoMemory>
    ensures { OnOk result ((d : Desk) → AreLoads loads.now d.deck d.sources
        → text.new.items ≡ text.old.items ++ verdict_text d number (Err (place, cause))) }
{
    text.extend_from_slice(b"refuse ")?;
    push_decimal(text, place as u32)?;
    text.extend_from_slice(b" ")?;
    text.extend_from_slice(cause.word().as_bytes())?;
    push_source_part(text, loads.line_at(number, place))?;
    Ok(())
}

// Adds `accept D` or `refuse P CAUSE`, and the source line of the place.
fn push_judged(
    text: &mut Vec<u8>,
    loads: &Loads<'_, '_>,
    number: u32,
    verdict: &Verdict,
) -> Result<(), NoMemory>
    ensures { OnOk result ((d : Desk) → AreLoads loads.now d.deck d.sources
        → text.new.items ≡ text.old.items ++ verdict_text d number (verdict_value verdict.now)) }
{
    match *verdict {
        Verdict::Accept { deepest } => push_accepted(text, deepest),
        Verdict::Refuse { place, cause } => push_refused(text, loads, number, place, cause),
    }
}

// Adds the line of a verdict on the code of a load line, which begins with the number of the line.
fn push_verdict(
    text: &mut Vec<u8>,
    loads: &Loads<'_, '_>,
    number: u32,
    verdict: &Verdict,
) -> Result<(), NoMemory>
    ensures { OnOk result ((d : Desk) → AreLoads loads.now d.deck d.sources
        → text.new.items ≡ text.old.items ++ verdict_line d (number, verdict_value verdict.now)) }
{
    push_decimal(text, number)?;
    text.extend_from_slice(b" ")?;
    push_judged(text, loads, number, verdict)?;
    text.extend_from_slice(b"\n")?;
    Ok(())
}

// Whether all code is accepted after a verdict, if it was before or not.
fn accepts(passes: bool, verdict: &Verdict) -> bool
    ensures { result ≡ accepts passes (verdict_value verdict.now) }
{
    match *verdict {
        Verdict::Accept { deepest: _ } => passes,
        Verdict::Refuse { place: _, cause: _ } => false,
    }
}

// Adds the line of a load line, and nothing for any other line.
fn push_line(
    alloc: Global,
    made: &mut DraftText,
    loads: &Loads<'_, '_>,
    number: u32,
    line: &Line<'_>,
) -> Result<(), NoMemory>
    requires { GoodLine (line_of line.now) }
    ensures { OnOk result ((d : Desk) → AreLoads loads.now d.deck d.sources
        → AddsVerdicts d (number, line_of line.now) made.old.passes made.new.passes made.old.text.items
        made.new.text.items) }
{
    let Line::Load { unit, session, .. } = line else {
        return Ok(());
    };
    let verdict = check(alloc, unit.code, *session)?;
    made.passes = accepts(made.passes, &verdict);
    push_verdict(&mut made.text, loads, number, &verdict)
}

/// Returns a text with a line for each load line of a deck, in order: its number, and the stack checker's verdict
/// on its unit's code with its session size, with the source line of the place that is refused. The draft passes it if
/// all code is accepted.
///
/// # Errors
///
/// Returns `NoMemory` if out of memory.
pub fn verdicts_of(alloc: Global, loads: &Loads<'_, '_>, deck: &Deck) -> Result<DraftText, NoMemory>
    ensures { IfOk result (λ made. (d : Desk) → AreLoads loads.now d.deck d.sources
        → ShowsVerdicts d deck.now made.passes made.text.items) }
{
    let mut made = DraftText {
        text: Vec::new(alloc),
        passes: true,
    };
    for i in 0..deck.len() {
        let (number, line) = deck.line(i);
        push_line(alloc, &mut made, loads, number, &line)?;
    }
    Ok(made)
}

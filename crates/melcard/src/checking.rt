// The stack checker's verdicts on the code of a deck.
ghost use Rattle.std.specs.Prelude.{◌≡◌, ◌++◌, decimal, IfOk, OnOk};
ghost use Rattle.mc_deck.specs.Lines.{line_of, GoodLine};
ghost use Rattle.melcard.specs.Verdicts.{verdict_line, AreVerdicts};
ghost use Rattle.melcard.specs.Judging.{AddsVerdict};

use itoa::Buffer;
use mc_base::NoMemory;
use mc_check::{Verdict, check};
use mc_deck::{Deck, Line};
use std::alloc::Global;

// Adds a number in decimal.
fn push_decimal(text: &mut Vec<u8>, number: u32) -> Result<(), NoMemory>
    ensures { OnOk result (text.new.items ≡ text.old.items ++ decimal number) }
{
    let mut buffer = Buffer::new();
    text.extend_from_slice(buffer.format(number).as_bytes())?;
    Ok(())
}

// Adds the line of a verdict: the number of its line, and `accept D` or `refuse P CAUSE`.
fn push_verdict(text: &mut Vec<u8>, number: u32, verdict: &Verdict) -> Result<(), NoMemory>
    ensures { OnOk result (text.new.items ≡ text.old.items ++ verdict_line number verdict.now) }
{
    push_decimal(text, number)?;
    match verdict {
        Verdict::Accept { deepest } => {
            text.extend_from_slice(b" accept ")?;
            push_decimal(text, *deepest as u32)?;
        }
        Verdict::Refuse { place, cause } => {
            text.extend_from_slice(b" refuse ")?;
            push_decimal(text, *place as u32)?;
            text.extend_from_slice(b" ")?;
            text.extend_from_slice(cause.word().as_bytes())?;
        }
    }
    text.extend_from_slice(b"\n")?;
    Ok(())
}

// Adds the line of a load line, and nothing for any other line.
fn push_line(
    alloc: Global,
    text: &mut Vec<u8>,
    number: u32,
    line: &Line<'_>,
) -> Result<(), NoMemory>
    requires { GoodLine (line_of line.now) }
    ensures { OnOk result (AddsVerdict (number, line_of line.now) text.old.items text.new.items) }
{
    let Line::Load { unit, session, .. } = line else {
        return Ok(());
    };
    let verdict = check(alloc, unit.code, *session)?;
    push_verdict(text, number, &verdict)
}

/// Returns a text with a line for each load line of a deck, in order: its number, and the stack checker's
/// verdict on its unit's code with its session size.
///
/// # Errors
///
/// Returns `NoMemory` if it is out of memory.
pub fn verdicts_of(alloc: Global, deck: &Deck) -> Result<Vec<u8>, NoMemory>
    ensures { IfOk result (λ text. AreVerdicts deck.now text.items) }
{
    let mut text = Vec::new(alloc);
    for i in 0..deck.len() {
        let (number, line) = deck.line(i);
        push_line(alloc, &mut text, number, &line)?;
    }
    Ok(text)
}

// The deck that a number generates.
ghost use Rattle.std.specs.Prelude.{◌≡◌, ◌≢◌, ◌<◌, ◌≤◌, ◌*◌, ◌+◌, ◌^◌, ℕ, List, [], ◌∷◌, ◌++◌, length, IfOk, OnOk};
ghost use Rattle.std.specs.List.{AllByRecursion};
ghost use Rattle.model_play.specs.model_text.specs.Text.{with_numbers};
ghost use Rattle.model_play.specs.model_device.specs.Bytes.{bytes};
ghost use Rattle.model_play.specs.Generator.{closing_lines, cut_line, deck_of_number, line_of, next, opening_lines, purse_line, turns};
ghost use Rattle.mc_deck.specs.Lines.{grammar_line, said_lines, UnitWithin};
ghost use Rattle.mc_deck.specs.Generated.{AreUnits};

use crate::bytes::ShortBytes;
use crate::deck::Deck;
use crate::line::OwnedLine;
use crate::unit::{OwnedUnit, made};
use mc_words::{Aid, NoMemory, Word};
use std::alloc::{AllocError, Global};

// Adds one to a counter at each command, and replies its two bytes.
const COUNTER: [u8; 15] = [
    0xB9, 0x02, 0x00, 0x00, 0x39, 0x02, 0x00, 0x00, 0x46, 0x02, 0x00, 0x00, 0x06, 0x00, 0x02,
];

// Command 30 credits, 40 debits, and 50 is answered by the balance.
const PURSE: [u8; 77] = [
    0x77, 0x30, 0xFF, 0xF4, 0x11, 0x00, 0x23, 0x77, 0x40, 0xFF, 0xF4, 0x11, 0x00, 0x2C, 0x77, 0x50,
    0xFF, 0xF4, 0x11, 0x00, 0x18, 0x05, 0x6D, 0x00, 0x39, 0x04, 0x00, 0x00, 0x46, 0x04, 0x00, 0x00,
    0x06, 0x00, 0x04, 0x3E, 0x04, 0x00, 0x00, 0xD9, 0x04, 0x00, 0x00, 0x04, 0x39, 0x04, 0x00, 0x00,
    0x3E, 0x04, 0x00, 0x00, 0xE0, 0x04, 0x12, 0x00, 0x4A, 0x24, 0x04, 0x29, 0x03, 0x02, 0x41, 0x04,
    0x00, 0x00, 0xB9, 0x02, 0x00, 0x08, 0x29, 0x03, 0x01, 0x04, 0x05, 0x69, 0x85,
];

// Delegates the command to the application that its static bytes name.
const RELAY: [u8; 6] = [0x22, 0x00, 0x00, 0x28, 0x07, 0x04];

const RELAY_DATA: [u8; 6] = [0x05, 0xA0, 0, 0, 0, 1];

// `OPEN-2--`, the word that opens the gate.
const OPENING_WORD: Word = [0x4F, 0x50, 0x45, 0x4E, 0x2D, 0x32, 0x2D, 0x2D];

// Returns the number after a draw.
fn next(x: u32) -> u32
    requires { x < 2 ^ 31 }
    ensures value { result ≡ next x }
    ensures bound { result < 2 ^ 31 }
{
    ((x as u64 * 1_103_515_245 + 12_345) % 2_147_483_648) as u32
}

// Returns the name of an application of the deck.
fn aid(last: u8) -> Aid
    ensures { result ≡ 0xA0 ∷ 0 ∷ 0 ∷ 0 ∷ last ∷ [] }
{
    Aid::new(&[0xA0, 0, 0, 0, last]).unwrap()
}

// Returns a line with a short command.
fn apdu(bytes: &[u8]) -> OwnedLine
    requires { length bytes.now ≤ 16 }
    ensures { result ≡ OwnedLine.Short bytes.now }
{
    OwnedLine::Short(ShortBytes::copied(bytes))
}

// Returns a command to the purse with a number of four bytes.
fn command(ins: u8, number: u32) -> OwnedLine
    ensures { result ≡ OwnedLine.Short (0x80 ∷ ins ∷ 0 ∷ 0 ∷ 4 ∷ bytes 4 number) }
{
    let [a, b, c, d] = number.to_be_bytes();
    apdu(&[0x80, ins, 0, 0, 4, a, b, c, d])
}

// Returns a `cut` line by a draw.
fn cut_line(q: u32) -> OwnedLine
    ensures value { (us : List OwnedUnit) → grammar_line us result ≡ cut_line q }
    ensures inside { UnitWithin 3 result }
{
    let fill = if q / 12 % 2 == 1 {
        OPENING_WORD
    } else {
        [0; 8]
    };
    OwnedLine::Cut {
        k: 1 + q % 12,
        fill,
    }
}

// Returns a line on the purse, or `power`, by a draw.
fn purse_line(q: u32) -> OwnedLine
    ensures value { (us : List OwnedUnit) → AreUnits us → grammar_line us result ≡ purse_line q }
    ensures inside { UnitWithin 3 result }
{
    match q % 4 {
        0 => OwnedLine::Delete(aid(2)),
        1 => OwnedLine::Load {
            unit: 1,
            fixed: 10,
            session: 0,
        },
        _ => OwnedLine::Power,
    }
}

// Returns the line of a turn that draws r and q.
fn line_of(r: u32, q: u32) -> OwnedLine
    ensures value { (us : List OwnedUnit) → AreUnits us → grammar_line us result ≡ line_of r q }
    ensures inside { UnitWithin 3 result }
{
    match r % 16 {
        0 => OwnedLine::Select(aid(1)),
        1 => OwnedLine::Select(aid(3)),
        2 => OwnedLine::Select(aid(2)),
        3 => OwnedLine::Power,
        4..=8 => apdu(&[0x80, 0x01, 0, 0, 2]),
        9 | 10 => command(0x30, q),
        11 | 12 => command(0x40, q),
        13 => apdu(&[0x80, 0x50, 0, 0, 4]),
        14 => cut_line(q),
        _ => purse_line(q),
    }
}

// Returns the three units.
fn units(alloc: Global) -> Result<Vec<OwnedUnit>, AllocError>
    ensures units { IfOk result (λ v. AreUnits v.items) }
    ensures count { IfOk result (λ v. length v.items ≡ 3) }
{
    let counter = made(
        alloc,
        &aid(1),
        Vec::from_slice(alloc, &COUNTER)?,
        Vec::new(alloc),
    )?;
    let purse = made(
        alloc,
        &aid(2),
        Vec::from_slice(alloc, &PURSE)?,
        Vec::new(alloc),
    )?;
    let relay = made(
        alloc,
        &aid(3),
        Vec::from_slice(alloc, &RELAY)?,
        Vec::from_slice(alloc, &RELAY_DATA)?,
    )?;
    Ok(Vec::from_array(alloc, [counter, purse, relay])?)
}

// Returns the first eight lines.
fn opening(alloc: Global) -> Result<Vec<(u32, OwnedLine)>, AllocError>
    ensures lines { IfOk result (λ v. (us : List OwnedUnit) → AreUnits us
        → said_lines us v.items ≡ with_numbers 1 opening_lines) }
    ensures inside { IfOk result (λ v. AllByRecursion (λ l. UnitWithin 3 l.1) v.items) }
{
    Ok(Vec::from_array(
        alloc,
        [
            (1, OwnedLine::Format),
            (2, OwnedLine::Power),
            (3, OwnedLine::Named),
            (4, OwnedLine::Named),
            (5, OwnedLine::Named),
            (
                6,
                OwnedLine::Load {
                    unit: 0,
                    fixed: 2,
                    session: 0,
                },
            ),
            (
                7,
                OwnedLine::Load {
                    unit: 1,
                    fixed: 10,
                    session: 0,
                },
            ),
            (
                8,
                OwnedLine::Load {
                    unit: 2,
                    fixed: 6,
                    session: 0,
                },
            ),
        ],
    )?)
}

// Appends a line with its number.
#[tactic(auto, using(crate::proofs::ReaderLemmas::said_more, crate::proofs::GeneratorLemmas::inside_behind))]
fn push(lines: &mut Vec<(u32, OwnedLine)>, number: u32, line: OwnedLine) -> Result<(), AllocError>
    requires line { UnitWithin 3 line }
    requires lines { AllByRecursion (λ l. UnitWithin 3 l.1) lines.old.items }
    ensures said { OnOk result ((us : List OwnedUnit)
        → said_lines us lines.new.items ≡ said_lines us lines.old.items ++ (number, grammar_line us line) ∷ []) }
    ensures inside { OnOk result (AllByRecursion (λ l. UnitWithin 3 l.1) lines.new.items) }
{
    lines.push((number, line))?;
    Ok(())
}

// Appends the turns after the opening.
fn push_turns(lines: &mut Vec<(u32, OwnedLine)>, n: u32) -> Result<(), AllocError>
    requires number { n < 2 ^ 31 }
    requires inside { AllByRecursion (λ l. UnitWithin 3 l.1) lines.old.items }
    ensures lines { OnOk result ((us : List OwnedUnit) → AreUnits us
        → said_lines us lines.new.items ≡ said_lines us lines.old.items ++ with_numbers 9 (turns 4000 n)) }
    ensures inside { OnOk result (AllByRecursion (λ l. UnitWithin 3 l.1) lines.new.items) }
{
    let mut x = n;
    for number in 9..4009 {
        let first = next(x);
        let second = next(first);
        push(lines, number, line_of(first / 65536, second / 65536))?;
        x = second;
    }
    Ok(())
}

// Appends the last four lines.
fn push_closing(lines: &mut Vec<(u32, OwnedLine)>) -> Result<(), AllocError>
    requires { AllByRecursion (λ l. UnitWithin 3 l.1) lines.old.items }
    ensures lines { OnOk result ((us : List OwnedUnit)
        → said_lines us lines.new.items ≡ said_lines us lines.old.items ++ with_numbers 4009 closing_lines) }
    ensures inside { OnOk result (AllByRecursion (λ l. UnitWithin 3 l.1) lines.new.items) }
{
    push(lines, 4009, OwnedLine::Power)?;
    push(lines, 4010, OwnedLine::Dump(aid(1)))?;
    push(lines, 4011, OwnedLine::Dump(aid(2)))?;
    push(lines, 4012, OwnedLine::Dump(aid(3)))?;
    Ok(())
}

/// Returns the deck that a number up to 2,147,483,647 generates: it formats a card and loads three
/// applications, and then has 4,000 lines by draws of x, which begins as the number and changes to (x *
/// 1103515245 + 12345) mod 2^31 at each draw. The deck, of 4,012 lines, is this project's own.
///
/// # Errors
///
/// Returns `NoMemory` if out of memory.
pub fn generate(alloc: Global, n: u32) -> Result<Deck, NoMemory>
    requires { n ≤ 2147483647 }
    ensures { IfOk result (λ d. d ≡ deck_of_number n) }
{
    let units = units(alloc)?;
    let mut lines = opening(alloc)?;
    push_turns(&mut lines, n)?;
    push_closing(&mut lines)?;
    Ok(Deck { units, lines })
}

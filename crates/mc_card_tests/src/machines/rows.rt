// Rows of a table: applications, commands to the first of them, and the answers due.
ghost use Rattle.std.specs.Prelude.{◌≡◌, ◌<◌};

use crate::machines::card::{Fault, Unit, command, load, static_bytes};
use mc_apdu::Reply;
use mc_bank::MemBank;
use mc_machine::Outcome;
use mc_segs::Abend;
use mc_words::{Aid, Steps};
use std::alloc::Global;
use std::sync::ledger::{Blank, Ledger};

/// An application, its bytes in hexadecimal.
#[derive(Clone, Copy, Debug)]
pub struct App<'a> {
    pub name: &'a str,
    pub code: &'a str,
    pub data: &'a str,
    pub fixed: u16,
    pub deny: u16,
}

/// The answer to a command: the data of its reply and the status word in hexadecimal, or an abend.
#[derive(Clone, Copy, Debug)]
pub enum Answer<'a> {
    Reply(&'a str),
    Abend(Abend),
}

/// The applications, the commands in hexadecimal with their answers, in sequence under one budget, and the
/// static bytes of the first application after the last command.
#[derive(Clone, Copy, Debug)]
pub struct Row<'a> {
    pub apps: &'a [App<'a>],
    pub budget: u32,
    pub commands: &'a [(&'a str, Answer<'a>)],
    pub left: &'a str,
}

/// Returns the number of the first command of a row with another answer, or the number of commands if other
/// static bytes are left; `None` if the row is as due.
pub fn wrong_at<L: Ledger>(
    alloc: Global,
    blank: Blank,
    row: &Row<'_>,
) -> Result<Option<usize>, Fault>
    requires name { blank.name ≡ L.name }
    requires parts { blank.parts ≡ L.parts }
    requires some { 0 < blank.parts }
{
    let mut steps = Steps::<L>::new(blank);
    let [first, ..] = row.apps else {
        return Err(Fault::Absent);
    };
    let name = name_of(alloc, first.name)?;
    let Ok(mut bank) = MemBank::new(alloc) else {
        return Err(Fault::NoMemory);
    };
    wrong_in(alloc, &mut bank, &name, row, &mut steps)
}

fn wrong_in<L: Ledger>(
    alloc: Global,
    bank: &mut MemBank,
    name: &Aid,
    row: &Row<'_>,
    steps: &mut Steps<L>,
) -> Result<Option<usize>, Fault> {
    for app in row.apps {
        load_app(alloc, bank, app, steps)?;
    }
    match wrong_command(alloc, bank, name, row, steps)? {
        Some(at) => Ok(Some(at)),
        None => wrong_bytes(alloc, bank, name, row),
    }
}

fn load_app<L: Ledger>(
    alloc: Global,
    bank: &mut MemBank,
    app: &App<'_>,
    steps: &mut Steps<L>,
) -> Result<(), Fault> {
    let name = name_of(alloc, app.name)?;
    let code = bytes_of(alloc, app.code)?;
    let data = bytes_of(alloc, app.data)?;
    let unit = Unit {
        code: code.as_slice(),
        data: data.as_slice(),
        fixed: app.fixed,
        deny: app.deny,
    };
    load(bank, &name, &unit, steps)
}

// The number of commands, if other static bytes are left.
fn wrong_bytes(
    alloc: Global,
    bank: &MemBank,
    name: &Aid,
    row: &Row<'_>,
) -> Result<Option<usize>, Fault> {
    let due = bytes_of(alloc, row.left)?;
    let left = static_bytes(alloc, bank, name)?;
    if left.as_slice() == due.as_slice() {
        Ok(None)
    } else {
        Ok(Some(row.commands.len()))
    }
}

fn wrong_command<L: Ledger>(
    alloc: Global,
    bank: &mut MemBank,
    name: &Aid,
    row: &Row<'_>,
    steps: &mut Steps<L>,
) -> Result<Option<usize>, Fault> {
    for (at, (text, answer)) in row.commands.iter().enumerate() {
        if !is_due(alloc, bank, name, text, row.budget, answer, steps)? {
            return Ok(Some(at));
        }
    }
    Ok(None)
}

// Whether a command in hexadecimal has an answer.
fn is_due<L: Ledger>(
    alloc: Global,
    bank: &mut MemBank,
    name: &Aid,
    text: &str,
    budget: u32,
    answer: &Answer<'_>,
    steps: &mut Steps<L>,
) -> Result<bool, Fault> {
    let bytes = bytes_of(alloc, text)?;
    let outcome = command(bank, name, bytes.as_slice(), budget, steps)?;
    is_answer(alloc, &outcome, answer)
}

fn is_answer(alloc: Global, outcome: &Outcome, answer: &Answer<'_>) -> Result<bool, Fault> {
    match (outcome, answer) {
        (Outcome::Reply(reply), Answer::Reply(text)) => {
            Ok(is_reply(reply, bytes_of(alloc, text)?.as_slice()))
        }
        (Outcome::Abend(abend), Answer::Abend(due)) => Ok(abend == due),
        _ => Ok(false),
    }
}

fn is_reply(reply: &Reply, bytes: &[u8]) -> bool {
    let [body @ .., high, low] = bytes else {
        return false;
    };
    reply.body.as_slice() == body && reply.sw == *high as u16 * 256 + *low as u16
}

fn bytes_of(alloc: Global, text: &str) -> Result<Vec<u8>, Fault> {
    match hex::decode(alloc, text) {
        Ok(bytes) => Ok(bytes),
        Err(_) => Err(Fault::NotHexadecimal),
    }
}

fn name_of(alloc: Global, text: &str) -> Result<Aid, Fault> {
    let bytes = bytes_of(alloc, text)?;
    match Aid::new(bytes.as_slice()) {
        Some(name) => Ok(name),
        None => Err(Fault::NoName),
    }
}

/// Returns the outcome of a command without data to a single application under a budget, and the static bytes
/// that it leaves.
pub fn lone<L: Ledger>(
    alloc: Global,
    blank: Blank,
    code: &[u8],
    fixed: u16,
    bytes: &[u8],
    budget: u32,
) -> Result<(Outcome, Vec<u8>), Fault>
    requires name { blank.name ≡ L.name }
    requires parts { blank.parts ≡ L.parts }
    requires some { 0 < blank.parts }
{
    let mut steps = Steps::<L>::new(blank);
    let Ok(mut bank) = MemBank::new(alloc) else {
        return Err(Fault::NoMemory);
    };
    let Some(name) = Aid::new(&[0xA0, 0, 0, 0, 1]) else {
        return Err(Fault::NoName);
    };
    let unit = Unit {
        code,
        data: &[],
        fixed,
        deny: 0,
    };
    load(&mut bank, &name, &unit, &mut steps)?;
    ended(alloc, &mut bank, &name, bytes, budget, &mut steps)
}

// The outcome of a command, and the static bytes that it leaves.
fn ended<L: Ledger>(
    alloc: Global,
    bank: &mut MemBank,
    name: &Aid,
    bytes: &[u8],
    budget: u32,
    steps: &mut Steps<L>,
) -> Result<(Outcome, Vec<u8>), Fault> {
    let outcome = command(bank, name, bytes, budget, steps)?;
    Ok((outcome, static_bytes(alloc, bank, name)?))
}

// The outcomes of a place of the code.
ghost use Rattle.mc_isa.specs.model_machine.specs.Code.{Shaped};

use crate::balances::{ask_balances, count_sums};
use crate::ends::{abend, exit, reply_lengths, stop};
use crate::events::amounts_after;
use crate::keys::{Break, Outcome, Rule};
use crate::subject::{Subject, code_of};
use mc_isa::model_machine::{DecodeFault, Ins};
use mc_isa::{decode, text_of};
use model_device::NoMemory;
use prove_events::{TurnEvent, turn_lines};
use prove_facts::push;
use prove_keys::{Begun, Known, PlaceKey, Registers};
use prove_outcomes::{State, Step, row};
use std::alloc::Global;

/// An instruction at a place: the key, the instruction and its text, and the frame before it, whose code address is
/// already the place after it.
#[derive(Clone, Copy)]
struct Turn<'a> {
    key: &'a PlaceKey,
    ins: &'a Ins,
    text: &'a [u8],
    before: &'a State,
}

// The codes with which a delegate can abend.
const CODES: [u8; 9] = [1, 2, 3, 4, 5, 6, 7, 8, 10];
// The depth of the first frame.
const FIRST: [u8; 1] = [1];
// The depths of the others.
const BEHIND: [u8; 3] = [2, 3, 4];

// The frame goes on.
fn go_on(
    turn: &Turn<'_>,
    amounts: Vec<u32>,
    state: State,
    out: &mut Vec<Outcome>,
) -> Result<(), NoMemory> {
    let State {
        registers,
        calls,
        known,
    } = state;
    push(
        out,
        Outcome::Place(
            PlaceKey {
                begun: turn.key.begun,
                amounts,
                registers,
                calls,
            },
            known,
        ),
    )
}

// What the frame delegates to abends, is stopped, is refused or comes back.
fn delegate(
    alloc: Global,
    subject: &Subject<'_>,
    turn: &Turn<'_>,
    amounts: Vec<u32>,
    state: State,
    out: &mut Vec<Outcome>,
) -> Result<(), NoMemory> {
    for code in CODES {
        abend(
            alloc,
            subject,
            turn.key.begun,
            amounts.as_slice(),
            &state,
            code,
            out,
        )?;
    }
    stop(
        alloc,
        subject,
        turn.key.begun,
        amounts.as_slice(),
        &state,
        out,
    )?;
    let mut next = state;
    next.lose_public()?;
    go_on(turn, amounts, next, out)
}

// The mode of an instruction that sets protection.
fn mode_of(ins: &Ins) -> Option<u8> {
    match ins {
        Ins::Prim { set, number, args } if *set == 1 && *number == 3 => {
            let [mode, _, _] = *args;
            Some(mode)
        }
        _ => None,
    }
}

// Whether an instruction commits what waits.
fn is_commit(ins: &Ins) -> bool {
    match mode_of(ins) {
        Some(mode) => mode == 1 || mode == 3,
        None => false,
    }
}

// Whether an instruction drops what waits.
fn is_drop(ins: &Ins) -> bool {
    match mode_of(ins) {
        Some(mode) => mode == 0 || mode == 2,
        None => false,
    }
}

// The sums after an event and its instruction; they are asked where nothing waits.
fn settle(
    alloc: Global,
    subject: &Subject<'_>,
    turn: &Turn<'_>,
    matched: &[bool],
    state: &mut State,
    out: &mut Vec<Outcome>,
) -> Result<(), NoMemory> {
    if state.known.sums.is_idle() {
        return Ok(());
    }
    let waits = turn.before.registers.protected;
    if !waits || !is_drop(turn.ins) {
        count_sums(
            alloc,
            subject.rules,
            &turn.before.known.sums,
            matched,
            &mut state.known.sums,
        )?;
    }
    if !waits || is_commit(turn.ins) {
        ask_balances(
            alloc,
            subject.rules,
            turn.key.registers.at,
            &mut state.known.sums,
            out,
        )?;
    }
    Ok(())
}

// What follows an instruction that was done, by the kind of its step.
fn follow(
    alloc: Global,
    subject: &Subject<'_>,
    turn: &Turn<'_>,
    step: &Step,
    amounts: Vec<u32>,
    state: State,
    out: &mut Vec<Outcome>,
) -> Result<(), NoMemory> {
    let begun = turn.key.begun;
    match step {
        Step::Wrote(_) => {
            stop(alloc, subject, begun, amounts.as_slice(), &state, out)?;
            go_on(turn, amounts, state, out)
        }
        Step::Exits(_) => exit(alloc, subject, begun, amounts.as_slice(), &state, out),
        Step::Delegates(_) => delegate(alloc, subject, turn, amounts, state, out),
        _ => go_on(turn, amounts, state, out),
    }
}

// The frame after a step that was done.
fn state_after(step: &Step) -> Option<&State> {
    match step {
        Step::Goes(state) => Some(state),
        Step::Wrote(state) => Some(state),
        Step::Exits(state) => Some(state),
        Step::Delegates(state) => Some(state),
        Step::Abends(_) => None,
        Step::Unknown => None,
    }
}

// An instruction was done, with an event that these lines match.
fn done(
    alloc: Global,
    subject: &Subject<'_>,
    turn: &Turn<'_>,
    step: &Step,
    after: &State,
    matched: &[bool],
    out: &mut Vec<Outcome>,
) -> Result<(), NoMemory> {
    let at = turn.key.registers.at;
    let Some(amounts) = amounts_after(
        alloc,
        subject,
        Some(at),
        turn.key.amounts.as_slice(),
        matched,
        out,
    )?
    else {
        return Ok(());
    };
    let mut state = after.copied(alloc)?;
    settle(alloc, subject, turn, matched, &mut state, out)?;
    follow(alloc, subject, turn, step, amounts, state, out)
}

// The lines that an instruction matches that was done at a depth.
fn lines_at(
    alloc: Global,
    subject: &Subject<'_>,
    turn: &Turn<'_>,
    depth: u8,
    after: &Registers,
) -> Result<Vec<bool>, NoMemory> {
    let event = TurnEvent {
        depth,
        at: turn.key.registers.at,
        ins: turn.text,
        dt: after.dt,
        c: after.c,
        z: after.z,
    };
    turn_lines(alloc, subject.rules.ons.as_slice(), &event)
}

// Whether some lists of lines have these.
fn has_lines(lists: &[Vec<bool>], lines: &[bool]) -> bool {
    for list in lists {
        if list.as_slice() == lines {
            return true;
        }
    }
    false
}

// An instruction was done, at each depth that its frame can have.
fn at_depths(
    alloc: Global,
    subject: &Subject<'_>,
    turn: &Turn<'_>,
    step: &Step,
    after: &State,
    depths: &[u8],
    out: &mut Vec<Outcome>,
) -> Result<(), NoMemory> {
    let mut earlier = Vec::new(alloc);
    for depth in depths {
        let matched = lines_at(alloc, subject, turn, *depth, &after.registers)?;
        if !has_lines(earlier.as_slice(), matched.as_slice()) {
            done(alloc, subject, turn, step, after, matched.as_slice(), out)?;
            push(&mut earlier, matched)?;
        }
    }
    Ok(())
}

// An instruction abends, not by the budget.
fn abends(
    alloc: Global,
    subject: &Subject<'_>,
    key: &PlaceKey,
    state: &State,
    code: u8,
    out: &mut Vec<Outcome>,
) -> Result<(), NoMemory> {
    if let Some(line) = subject.rules.never {
        let broken = Break {
            line,
            at: Some(key.registers.at),
            rule: Rule::Abend,
        };
        return push(out, Outcome::Broken(broken));
    }
    abend(
        alloc,
        subject,
        key.begun,
        key.amounts.as_slice(),
        state,
        code,
        out,
    )
}

// A first frame exits, if its reply may be as long as one may be; else it abends.
fn exits(
    alloc: Global,
    subject: &Subject<'_>,
    turn: &Turn<'_>,
    step: &Step,
    after: &State,
    out: &mut Vec<Outcome>,
) -> Result<(), NoMemory> {
    let (over, within) = reply_lengths(after);
    if over {
        abends(alloc, subject, turn.key, turn.before, 9, out)?;
    }
    if !within {
        return Ok(());
    }
    at_depths(alloc, subject, turn, step, after, &FIRST, out)
}

// A step that was done.
fn take_done(
    alloc: Global,
    subject: &Subject<'_>,
    turn: &Turn<'_>,
    step: &Step,
    after: &State,
    out: &mut Vec<Outcome>,
) -> Result<(), NoMemory> {
    if turn.key.begun == Begun::Delegated {
        return at_depths(alloc, subject, turn, step, after, &BEHIND, out);
    }
    match step {
        Step::Exits(_) => exits(alloc, subject, turn, step, after, out),
        _ => at_depths(alloc, subject, turn, step, after, &FIRST, out),
    }
}

// A step, by its kind.
fn take(
    alloc: Global,
    subject: &Subject<'_>,
    turn: &Turn<'_>,
    step: &Step,
    out: &mut Vec<Outcome>,
) -> Result<(), NoMemory> {
    if let Some(after) = state_after(step) {
        return take_done(alloc, subject, turn, step, after, out);
    }
    match step {
        Step::Abends(code) => abends(alloc, subject, turn.key, turn.before, *code, out),
        _ => push(out, Outcome::Unknown(turn.key.registers.at)),
    }
}

// The code of a step that abends, or 0.
fn abend_of(step: &Step) -> u8 {
    match step {
        Step::Abends(code) => *code,
        _ => 0,
    }
}

// Whether a step is a write that may be stopped.
fn is_write(step: &Step) -> bool {
    match step {
        Step::Wrote(_) => true,
        _ => false,
    }
}

fn has_write(steps: &[Step]) -> bool {
    for step in steps {
        if is_write(step) {
            return true;
        }
    }
    false
}

// All steps of an instruction, each abend once. A write may be stopped with the bytes before it.
fn take_all(
    alloc: Global,
    subject: &Subject<'_>,
    turn: &Turn<'_>,
    steps: &[Step],
    out: &mut Vec<Outcome>,
) -> Result<(), NoMemory> {
    if has_write(steps) {
        stop(
            alloc,
            subject,
            turn.key.begun,
            turn.key.amounts.as_slice(),
            turn.before,
            out,
        )?;
    }
    let mut codes = Vec::new(alloc);
    for step in steps {
        let code = abend_of(step);
        if code == 0 || !codes.as_slice().contains(&code) {
            take(alloc, subject, turn, step, out)?;
            push(&mut codes, code)?;
        }
    }
    Ok(())
}

// The outcomes of an instruction that was fetched.
fn fetched(
    alloc: Global,
    subject: &Subject<'_>,
    key: &PlaceKey,
    before: &State,
    ins: &Ins,
    out: &mut Vec<Outcome>,
) -> Result<(), NoMemory>
    requires { Shaped ins.now }
{
    let mut steps = Vec::new(alloc);
    row(
        alloc,
        &subject.sizes,
        ins,
        key.begun == Begun::Delegated,
        before,
        &mut steps,
    )?;
    let text = text_of(ins);
    let turn = Turn {
        key,
        ins,
        text: text.as_slice(),
        before,
    };
    take_all(alloc, subject, &turn, steps.as_slice(), out)
}

/// Returns the outcomes of a place.
///
/// # Errors
///
/// Returns `NoMemory` if it is out of memory.
pub fn place_outcomes(
    alloc: Global,
    subject: &Subject<'_>,
    key: &PlaceKey,
    known: Known,
) -> Result<Vec<Outcome>, NoMemory> {
    let mut out = Vec::new(alloc);
    let calls = Vec::from_slice(alloc, key.calls.as_slice())?;
    let mut before = State {
        registers: key.registers,
        calls,
        known,
    };
    abend(
        alloc,
        subject,
        key.begun,
        key.amounts.as_slice(),
        &before,
        7,
        &mut out,
    )?;
    match decode(code_of(&subject.rules.load), key.registers.at) {
        Err(DecodeFault::Undefined) => abends(alloc, subject, key, &before, 1, &mut out)?,
        Err(DecodeFault::Past) => abends(alloc, subject, key, &before, 2, &mut out)?,
        Ok((ins, next)) => {
            before.registers.at = next;
            fetched(alloc, subject, key, &before, &ins, &mut out)?;
        }
    }
    Ok(out)
}

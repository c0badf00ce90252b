// The ends of a chain: an abend, a stop, an exit.
use crate::events::{amounts_after, session};
use crate::keys::Outcome;
use crate::subject::Subject;
use model_device::NoMemory;
use prove_events::{Class, abend_lines, answers};
use prove_facts::{Values, push};
use prove_keys::{Begun, MomentKey};
use prove_outcomes::State;
use std::alloc::Global;

/// The address of La.
pub const LA: u16 = 0xC40D;
/// The address of SW.
pub const SW: u16 = 0xC40F;

/// Returns the class of the command that a frame began with, or `None` if it began by a delegation.
pub fn class_of<'a>(subject: &'a Subject<'_>, begun: Begun) -> Option<&'a Class> {
    match begun {
        Begun::Delegated => None,
        Begun::Class(number) => subject.classes.get(number),
    }
}

// The application is not selected, with the static bytes as power would leave them.
fn idle(
    alloc: Global,
    amounts: Vec<u32>,
    state: &State,
    out: &mut Vec<Outcome>,
) -> Result<(), NoMemory> {
    let facts = state.kept(alloc)?;
    push(
        out,
        Outcome::Moment(
            MomentKey {
                selected: false,
                amounts,
            },
            facts,
        ),
    )
}

// A command is answered, and the session goes on.
fn answered(
    alloc: Global,
    subject: &Subject<'_>,
    amounts: &[u32],
    matched: &[bool],
    state: &State,
    out: &mut Vec<Outcome>,
) -> Result<(), NoMemory> {
    let Some(amounts) = amounts_after(alloc, subject, None, amounts, matched, out)? else {
        return Ok(());
    };
    let facts = state.kept_and_session(alloc, &subject.sizes)?;
    push(
        out,
        Outcome::Moment(
            MomentKey {
                selected: true,
                amounts,
            },
            facts,
        ),
    )
}

/// The chain of a frame ends with an abend.
///
/// # Errors
///
/// Returns `NoMemory` if it is out of memory.
pub fn abend(
    alloc: Global,
    subject: &Subject<'_>,
    begun: Begun,
    amounts: &[u32],
    state: &State,
    code: u8,
    out: &mut Vec<Outcome>,
) -> Result<(), NoMemory> {
    let Some(class) = class_of(subject, begun) else {
        return idle(alloc, Vec::from_slice(alloc, amounts)?, state, out);
    };
    let matched = abend_lines(alloc, subject.rules.ons.as_slice(), class, code)?;
    answered(alloc, subject, amounts, matched.as_slice(), state, out)
}

/// Power goes, which ends the session of a command.
///
/// # Errors
///
/// Returns `NoMemory` if it is out of memory.
pub fn stop(
    alloc: Global,
    subject: &Subject<'_>,
    begun: Begun,
    amounts: &[u32],
    state: &State,
    out: &mut Vec<Outcome>,
) -> Result<(), NoMemory> {
    if begun == Begun::Delegated {
        return idle(alloc, Vec::from_slice(alloc, amounts)?, state, out);
    }
    match session(alloc, subject, amounts, out)? {
        Some(amounts) => idle(alloc, amounts, state, out),
        None => Ok(()),
    }
}

/// A frame exits.
///
/// # Errors
///
/// Returns `NoMemory` if it is out of memory.
pub fn exit(
    alloc: Global,
    subject: &Subject<'_>,
    begun: Begun,
    amounts: &[u32],
    state: &State,
    out: &mut Vec<Outcome>,
) -> Result<(), NoMemory> {
    let Some(class) = class_of(subject, begun) else {
        return idle(alloc, Vec::from_slice(alloc, amounts)?, state, out);
    };
    let zero = Values::one(0);
    let none = state.values(LA) == zero && state.values(LA + 1) == zero;
    let found = answers(alloc, class, none, &state.values(SW), &state.values(SW + 1))?;
    for matched in &found {
        answered(alloc, subject, amounts, matched.as_slice(), state, out)?;
    }
    Ok(())
}

/// Returns whether La of a frame may be above 1,024, and whether it may be at most that.
pub fn reply_lengths(state: &State) -> (bool, bool) {
    let high = state.values(LA);
    let low = state.values(LA + 1);
    let over = !high.is_within(&Values::below(5))
        || (high.has(4) && !low.is_within(&Values::one(0)));
    let within = !high.and(&Values::below(4)).is_empty() || (high.has(4) && low.has(0));
    (over, within)
}

// What an instruction can do.
use crate::state::{Segment, Sizes, State};
use model_device::NoMemory;
use prove_facts::push;

/// One outcome of an instruction, before its event.
#[derive(Drop)]
pub enum Step {
    /// It goes on, and wrote no static bytes at once.
    Goes(State),
    /// It goes on, and wrote static bytes at once, or committed: this write may be stopped.
    Wrote(State),
    Exits(State),
    Delegates(State),
    /// It abends with this code, which is not 07.
    Abends(u8),
    /// Where it returns to is not known.
    Unknown,
}

/// The step of a write in a segment.
pub fn goes_or_wrote(state: State, segment: Segment) -> Step {
    if segment == Segment::Static && !state.registers.protected {
        Step::Wrote(state)
    } else {
        Step::Goes(state)
    }
}

/// The abend of a write that waits and may be one too many.
pub fn limit(
    sizes: &Sizes<'_>,
    state: &State,
    segment: Segment,
    out: &mut Vec<Step>,
) -> Result<(), NoMemory> {
    if segment == Segment::Static && state.registers.protected && sizes.fixed > 512 {
        push(out, Step::Abends(8))?;
    }
    Ok(())
}

/// Adds an abend.
///
/// # Errors
///
/// Returns `NoMemory` if it is out of memory.
pub fn abend(code: u8, out: &mut Vec<Step>) -> Result<(), NoMemory> {
    push(out, Step::Abends(code))
}

/// The frame goes on.
///
/// # Errors
///
/// Returns `NoMemory` if it is out of memory.
pub fn goes(state: State, out: &mut Vec<Step>) -> Result<(), NoMemory> {
    push(out, Step::Goes(state))
}

// Writes of bytes without facts, also at addresses that are not known.
use crate::shared::any_bytes;
use crate::splitting::{Span, reach};
use crate::state::{Segment, Sizes, State, where_is};
use crate::step::{Step, abend, goes_or_wrote, limit};
use model_device::NoMemory;
use prove_facts::{Origin, Values, push};
use std::alloc::Global;

type Grown = Result<(), NoMemory>;

fn touches(spans: &[Span], from: u32, to: u32) -> bool {
    for span in spans {
        if span.from < to && from < span.to {
            return true;
        }
    }
    false
}

fn lose_origins(state: &mut State, span: &Span) -> Grown {
    for at in span.from..span.to {
        state
            .known
            .sums
            .set_origin(at.min(65535) as u16, Origin::Unknown)?;
    }
    Ok(())
}

// What is known without the bytes of some spans.
fn forget(alloc: Global, sizes: &Sizes<'_>, state: &mut State, spans: &[Span]) -> Grown {
    for span in spans {
        state.known.read.forget(span.from, span.to)?;
        state.known.last = state.known.last.without(span.from, span.to);
        if !state.known.sums.is_idle() {
            state.known.sums.write(
                alloc,
                sizes.blocks,
                span.from,
                span.to.saturating_sub(span.from),
            )?;
            lose_origins(state, span)?;
        }
    }
    Ok(())
}

/// A write of bytes without facts, of one of some lengths at one of many addresses.
///
/// # Errors
///
/// Returns `NoMemory` if it is out of memory.
pub fn coarse_write(
    alloc: Global,
    sizes: &Sizes<'_>,
    state: &State,
    highs: &Values,
    lows: &Values,
    lengths: &Values,
    out: &mut Vec<Step>,
) -> Grown {
    abend(3, out)?;
    let spans = reach(alloc, sizes, state.registers.dt, highs, lows, lengths)?;
    if spans.is_empty() {
        return Ok(());
    }
    write_over(alloc, sizes, state, spans.as_slice(), out)
}

// A write of bytes without facts somewhere in some spans.
fn write_over(
    alloc: Global,
    sizes: &Sizes<'_>,
    state: &State,
    spans: &[Span],
    out: &mut Vec<Step>,
) -> Grown {
    let segment = if touches(spans, 0, sizes.fixed as u32) {
        Segment::Static
    } else {
        Segment::Dynamic
    };
    limit(sizes, state, segment, out)?;
    let mut next = state.copied(alloc)?;
    forget(alloc, sizes, &mut next, spans)?;
    for (i, call) in state.calls.iter().enumerate() {
        let end = call.end as u32;
        if touches(spans, end.saturating_sub(4), end) {
            lose_calls(alloc, &next, i.saturating_add(1), segment, out)?;
        }
    }
    push(out, goes_or_wrote(next, segment))
}

// The outcome of a write after which the first calls are lost.
fn lose_calls(
    alloc: Global,
    state: &State,
    lost: usize,
    segment: Segment,
    out: &mut Vec<Step>,
) -> Grown {
    let mut next = state.copied(alloc)?;
    next.drop_calls(alloc, lost)?;
    push(out, goes_or_wrote(next, segment))
}

/// A write of n bytes without facts at an address.
///
/// # Errors
///
/// Returns `NoMemory` if it is out of memory.
pub fn write_any(
    alloc: Global,
    sizes: &Sizes<'_>,
    state: &State,
    at: u16,
    n: u16,
    out: &mut Vec<Step>,
) -> Grown {
    let Some(segment) = where_is(sizes, state.registers.dt, at, n) else {
        return abend(3, out);
    };
    limit(sizes, state, segment, out)?;
    let bytes = any_bytes(alloc, n)?;
    let mut next = state.copied(alloc)?;
    next.write(alloc, sizes, at, bytes.as_slice())?;
    push(out, goes_or_wrote(next, segment))
}

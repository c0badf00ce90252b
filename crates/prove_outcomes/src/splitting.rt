// Bytes that decide an address, a length or an index: each combination of their values by itself, or what all could reach.
use crate::state::Sizes;
use model_device::NoMemory;
use prove_facts::{Values, push};
use prove_keys::{DYNAMIC, PUBLIC, PUBLIC_END};
use std::alloc::Global;

/// The most combinations that are followed each by itself.
pub const MOST: u32 = 256;

/// The number of combinations, or a number above the most.
pub fn combinations(sets: &[Values]) -> u32 {
    let mut count: u32 = 1;
    let mut empty = false;
    for set in sets {
        empty = empty || set.is_empty();
        count = count.saturating_mul(set.count().max(1)).min(100_000);
    }
    if empty { 0 } else { count }
}

fn extended(alloc: Global, front: &[u8], stride: usize, set: &Values) -> Result<Vec<u8>, NoMemory> {
    let mut out = Vec::new(alloc);
    for row in front.chunks(stride.max(1)) {
        add_values(&mut out, if stride == 0 { &[] } else { row }, set)?;
    }
    Ok(out)
}

fn add_values(out: &mut Vec<u8>, row: &[u8], set: &Values) -> Result<(), NoMemory> {
    for value in 0..=255u8 {
        if set.has(value) {
            out.extend_from_slice(row)?;
            push(out, value)?;
        }
    }
    Ok(())
}

/// Each combination of values of some sets, one after the other, or `None` if there are too many.
pub fn split(alloc: Global, sets: &[Values]) -> Result<Option<Vec<u8>>, NoMemory> {
    let count = combinations(sets);
    if count > MOST {
        return Ok(None);
    }
    if count == 0 {
        return Ok(Some(Vec::new(alloc)));
    }
    let mut rows = Vec::new(alloc);
    push(&mut rows, 0)?;
    for (i, set) in sets.iter().enumerate() {
        rows = extended(alloc, rows.as_slice(), i, set)?;
    }
    Ok(Some(rows))
}

/// The number of two bytes of a combination.
pub fn number_at(row: &[u8], i: usize) -> u16 {
    match (row.get(i), row.get(i.saturating_add(1))) {
        (Some(high), Some(low)) => *high as u16 * 256 + *low as u16,
        _ => 0,
    }
}

/// A range of addresses: from one to below another.
#[derive(Clone, Copy, Debug)]
pub struct Span {
    pub from: u32,
    pub to: u32,
}

// The greatest length of a set that is at most a number, or 0.
fn greatest(lengths: &Values, most: u32) -> u32 {
    let mut k = most.min(255);
    for _ in 0..256 {
        if k == 0 || lengths.has((k & 255) as u8) {
            return k;
        }
        k = k.saturating_sub(1);
    }
    0
}

fn end_of_segment(sizes: &Sizes<'_>, dt: u16, at: u16) -> u32 {
    if at < sizes.fixed {
        sizes.fixed as u32
    } else if at >= DYNAMIC && at < dt {
        dt as u32
    } else if at >= PUBLIC && at < PUBLIC_END {
        PUBLIC_END as u32
    } else {
        at as u32
    }
}

fn add_span(spans: &mut Vec<Span>, from: u32, to: u32) -> Result<(), NoMemory> {
    let last = spans.len().saturating_sub(1);
    if let Some(span) = spans.get_mut(last) {
        if from <= span.to {
            span.to = span.to.max(to);
            return Ok(());
        }
    }
    push(spans, Span { from, to })
}

fn add_reach(
    sizes: &Sizes<'_>,
    dt: u16,
    high: u8,
    lows: &Values,
    lengths: &Values,
    spans: &mut Vec<Span>,
) -> Result<(), NoMemory> {
    for low in 0..=255u8 {
        if lows.has(low) {
            let at = high as u16 * 256 + low as u16;
            let n = greatest(
                lengths,
                end_of_segment(sizes, dt, at).saturating_sub(at as u32),
            );
            if n != 0 {
                add_span(spans, at as u32, (at as u32).saturating_add(n))?;
            }
        }
    }
    Ok(())
}

/// All bytes that an access of one of these lengths (1 to 255) at one of these addresses could reach, whole in a segment.
pub fn reach(
    alloc: Global,
    sizes: &Sizes<'_>,
    dt: u16,
    highs: &Values,
    lows: &Values,
    lengths: &Values,
) -> Result<Vec<Span>, NoMemory> {
    let mut spans = Vec::new(alloc);
    for high in 0..=255u8 {
        if highs.has(high) {
            add_reach(sizes, dt, high, lows, lengths, &mut spans)?;
        }
    }
    Ok(spans)
}

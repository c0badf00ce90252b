// The lines of a draft.

use mc_text::next_line;
use std::alloc::{AllocError, Global};

/// Returns the lines of a text.
///
/// # Errors
///
/// Returns `AllocError` if out of memory.
pub fn lines_of(alloc: Global, text: &[u8]) -> Result<Vec<&[u8]>, AllocError> {
    let mut lines = Vec::new(alloc);
    let mut rest = text;
    while let Some((line, behind)) = next_line(rest) {
        lines.push(line)?;
        rest = behind;
    }
    Ok(lines)
}

/// Returns the line with a number, counted from 1, which is empty if there is none.
pub fn line_numbered<'a>(lines: &[&'a [u8]], number: u32) -> &'a [u8] {
    let index = number.saturating_sub(1) as usize;
    lines.get(index).copied().unwrap_or(b"")
}

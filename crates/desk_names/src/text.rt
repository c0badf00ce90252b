// Digits in upper case.

use mc_text::push;
use std::alloc::AllocError;

/// Appends the digits of bytes in upper case.
pub fn push_upper(text: &mut Vec<u8>, digits: &[u8]) -> Result<(), AllocError> {
    for digit in digits {
        push(text, &[digit.to_ascii_uppercase()])?;
    }
    Ok(())
}

// Texts without blanks and capital letters, as patterns are kept.
ghost use Rattle.std.specs.Prelude.{◌≡◌, ◌≤◌, ◌+◌, ◌++◌, length, IfOk, OnOk};
ghost use Rattle.arrayvec.specs.ArrayVec.{array_vec_len};
ghost use Rattle.law_explore.specs.model_events.specs.Matching.{plain};

use arrayvec::ArrayVec;
use lab_match::small;
use mc_text::is_blank;
use std::alloc::{AllocError, Global};

/// Appends a text without its blanks, capital letters as small ones.
///
/// # Errors
///
/// Returns `AllocError` if it is out of memory.
pub fn add_plain(into: &mut Vec<u8>, text: &[u8]) -> Result<(), AllocError>
    ensures { OnOk result (into.new.items ≡ into.old.items ++ plain text.now) }
{
    for character in text {
        if !is_blank(*character) {
            into.push(small(*character))?;
        }
    }
    Ok(())
}

/// Returns a text without its blanks, capital letters as small ones.
///
/// # Errors
///
/// Returns `AllocError` if it is out of memory.
pub fn plain(alloc: Global, text: &[u8]) -> Result<Vec<u8>, AllocError>
    ensures { IfOk result (λ v. v.items ≡ plain text.now) }
{
    let mut text_plain = Vec::new(alloc);
    add_plain(&mut text_plain, text)?;
    Ok(text_plain)
}

/// Appends a text without its blanks, capital letters as small ones, to a text with room for it.
pub fn plain_into<const N: usize>(into: &mut ArrayVec<u8, N>, text: &[u8])
    requires { array_vec_len into.old + length text.now ≤ N }
    ensures { into.new.items ≡ into.old.items ++ plain text.now }
{
    for character in text {
        if !is_blank(*character) {
            into.push(small(*character));
        }
    }
}

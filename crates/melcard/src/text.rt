// Lines of output.
ghost use Rattle.std.specs.Prelude.{◌≡◌, ◌++◌, codes, IfOk};
ghost use Rattle.mc_text.specs.model_text.specs.Listing.{hex_text};

use mc_base::NoMemory;
use std::alloc::Global;

/// Returns bytes in upper case hexadecimal, without blanks, and a line feed.
///
/// # Errors
///
/// Returns `NoMemory` if it is out of memory.
pub fn hex_line(alloc: Global, bytes: &[u8]) -> Result<Vec<u8>, NoMemory>
    ensures { IfOk result (λ text. text.items ≡ hex_text bytes.now ++ codes "\n") }
{
    let mut digits = hex::encode_upper(alloc, bytes)?.into_bytes();
    digits.extend_from_slice(b"\n")?;
    Ok(digits)
}

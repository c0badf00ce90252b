// The bytes of a section of a block, in the words of a device.
ghost use Rattle.std.specs.Prelude.{◌≡◌, ◌+◌, ◌≤◌, length, IfOk};
ghost use Rattle.mc_words.specs.model_device.specs.Bytes.{up};
ghost use Rattle.mc_words.specs.model_device.specs.Card.{section};

use mc_nvm::Nvm;
use mc_words::NoMemory;
use std::alloc::Global;

/// Returns the first `count` bytes of the words of a device from word `first` on.
///
/// # Errors
///
/// Returns `NoMemory` if it is out of memory.
pub fn read_section<N: Nvm>(
    alloc: Global,
    device: &N,
    first: u32,
    count: u16,
) -> Result<Vec<u8>, NoMemory>
    requires { first + up count 8 ≤ length (N.state device.now).words }
    ensures { IfOk result (λ bytes. bytes.items ≡ section (N.state device.now).words first count) }
{
    let _size = device.len();
    let mut left = count as usize;
    let mut bytes = Vec::with_capacity(alloc, left)?;
    let mut place = first;
    while left > 0 {
        let piece = left.min(8);
        bytes.extend_from_slice(&device.read(place)[..piece])?;
        left -= piece;
        place += 1;
    }
    Ok(bytes)
}

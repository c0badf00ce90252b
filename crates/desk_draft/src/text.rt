// Zero bytes in the text of a deck.
ghost use Rattle.std.specs.Prelude.{◌≡◌, ◌++◌, OnOk};
ghost use Rattle.mc_text.specs.model_device.specs.Bytes.{zeros};
ghost use Rattle.mc_text.specs.model_text.specs.Listing.{hex_text};

use mc_text::push;
use std::alloc::AllocError;

/// Appends `count` zero bytes in hexadecimal.
pub fn push_zeros(deck: &mut Vec<u8>, count: u16) -> Result<(), AllocError>
    ensures { OnOk result (deck.new.items ≡ deck.old.items ++ hex_text (zeros count)) }
{
    for _byte in 0..count {
        push(deck, b"00")?;
    }
    Ok(())
}

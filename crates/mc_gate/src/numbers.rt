ghost use Rattle.std.specs.Prelude.{◌≡◌};
ghost use Rattle.mc_words.specs.model_device.specs.Stopped.{word_of_number};

use mc_words::{Word, bytes_of};

/// Returns the word of six zero bytes and a number, high byte first.
pub fn number_word(number: u16) -> Word
    ensures { result ≡ word_of_number number }
{
    let [high, low] = bytes_of(number);
    [0, 0, 0, 0, 0, 0, high, low]
}

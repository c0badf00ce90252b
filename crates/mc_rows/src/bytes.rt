// Zeros, words and blocks as bytes.
ghost use Rattle.std.specs.Prelude.{◌≡◌, length, true};
ghost use Rattle.model_machine.specs.model_device.specs.Bytes.{num, zeros};
ghost use Rattle.model_machine.specs.Blocks.{is_zero};

const ZEROS: [u8; 255] = [0; 255];

/// Returns `count` zero bytes.
#[tactic(auto, using(crate::proofs::BlockLemmas::front_of_zeros, crate::proofs::BlockLemmas::zeros_are_zero))]
pub fn zeros(count: u8) -> &'static [u8]
    ensures value { result.now ≡ zeros count }
    ensures length { length result.now ≡ count }
    ensures zero { is_zero (zeros count) ≡ true }
{
    &ZEROS[..count as usize]
}

/// Returns the word in two bytes, high byte first.
pub fn number(pair: [u8; 2]) -> u16
    ensures { result ≡ num pair }
{
    let [high, low] = pair;
    high as u16 * 256 + low as u16
}

/// Returns whether a block is the number 0.
pub fn is_zero(block: &[u8]) -> bool
    ensures { result ≡ is_zero block.now }
{
    for byte in block {
        if *byte != 0 {
            return false;
        }
    }
    true
}

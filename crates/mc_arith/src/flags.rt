ghost use Rattle.std.specs.Prelude.{◌≡◌};
ghost use Rattle.law_rows.specs.model_machine.specs.Blocks.{is_zero};

/// The flags that an instruction sets: C is the carry, the borrow, or the bit shifted out last, and Z is set
/// if the result is zero.
#[derive(Clone, Copy, Debug, PartialEq, Eq)]
pub struct Flags {
    pub c: bool,
    pub z: bool,
}

// Returns whether the block is the number 0.
#[inline(always)]
pub fn zero(block: &[u8]) -> bool
    ensures { result ≡ is_zero block.now }
{
    match block {
        [a, b, c, d] => u32::from_be_bytes([*a, *b, *c, *d]) == 0,
        _ => are_zeros(block),
    }
}

// Returns whether each byte of the block is 0.
fn are_zeros(block: &[u8]) -> bool
    ensures { result ≡ is_zero block.now }
{
    for b in block {
        if *b != 0 {
            return false;
        }
    }
    true
}

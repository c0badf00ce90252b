// Blocks of two and of four bytes, as most numbers of applications have, each as one number of the processor.
ghost use Rattle.std.specs.Prelude.{◌≡◌, ◌+◌, ◌*◌, ◌^◌};
ghost use Rattle.law_rows.specs.model_device.specs.Bytes.{num};
ghost use Rattle.law_rows.specs.Carry.{carry_of};

/// Returns the sum of two blocks of two bytes, and the carry.
#[inline(always)]
pub fn sum_of_two(a: [u8; 2], b: [u8; 2]) -> ([u8; 2], bool)
    ensures { num result.0 + carry_of result.1 * 256 ^ 2 ≡ num a + num b }
{
    let sum = u16::from_be_bytes(a) as u32 + u16::from_be_bytes(b) as u32;
    (((sum % 0x1_0000) as u16).to_be_bytes(), sum >= 0x1_0000)
}

/// Returns the sum of two blocks of four bytes, and the carry.
#[inline(always)]
pub fn sum_of_four(a: [u8; 4], b: [u8; 4]) -> ([u8; 4], bool)
    ensures { num result.0 + carry_of result.1 * 256 ^ 4 ≡ num a + num b }
{
    let sum = u32::from_be_bytes(a) as u64 + u32::from_be_bytes(b) as u64;
    (
        ((sum % 0x1_0000_0000) as u32).to_be_bytes(),
        sum >= 0x1_0000_0000,
    )
}

/// Returns the difference of two blocks of two bytes, and the borrow.
#[inline(always)]
pub fn difference_of_two(a: [u8; 2], b: [u8; 2]) -> ([u8; 2], bool)
    ensures { num result.0 + num b ≡ num a + carry_of result.1 * 256 ^ 2 }
{
    let difference = 0x1_0000 + u16::from_be_bytes(a) as u32 - u16::from_be_bytes(b) as u32;
    (
        ((difference % 0x1_0000) as u16).to_be_bytes(),
        difference < 0x1_0000,
    )
}

/// Returns the difference of two blocks of four bytes, and the borrow.
#[inline(always)]
pub fn difference_of_four(a: [u8; 4], b: [u8; 4]) -> ([u8; 4], bool)
    ensures { num result.0 + num b ≡ num a + carry_of result.1 * 256 ^ 4 }
{
    let difference = 0x1_0000_0000 + u32::from_be_bytes(a) as u64 - u32::from_be_bytes(b) as u64;
    (
        ((difference % 0x1_0000_0000) as u32).to_be_bytes(),
        difference < 0x1_0000_0000,
    )
}

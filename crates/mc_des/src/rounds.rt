// The cipher function f, and the sixteen rounds of a block (FIPS 46-3).

ghost use Rattle.std.specs.Prelude.{◌≡◌, ◌/◌, ◌%◌, ◌^◌, ◌<◌, map};
ghost use Rattle.std.specs.Int.{w64, to_be_bytes};
ghost use Rattle.model_machine.specs.Des.{bits, f, des_block};
ghost use Rattle.mc_des.specs.Words.{key_bits, block_after_rounds};

use crate::box_table::boxed;
use crate::permute::{final_bits, initial};

// The six bits of a word above its lowest `low` bits.
#[inline]
fn six_above(word: u32, low: usize) -> usize
    requires { low < 32 }
    ensures { result ≡ word / 2 ^ low % 64 }
{
    (word >> low & 63) as usize
}

// The cipher function f. Rotated left by 5, the half has the groups of the S-boxes 1, 7, 5 and 3 at the low
// end of its bytes; rotated left by 9, those of the S-boxes 2, 8, 6 and 4.
#[inline]
fn f(right: u32, key: u64) -> u32
    ensures { bits 32 result ≡ f (bits 32 right) (key_bits key) }
{
    let odd = right.rotate_left(5) ^ (key >> 32) as u32;
    let even = right.rotate_left(9) ^ (key & 0xFFFF_FFFF) as u32;
    boxed(0, six_above(odd, 0))
        ^ boxed(1, six_above(even, 0))
        ^ boxed(2, six_above(odd, 24))
        ^ boxed(3, six_above(even, 24))
        ^ boxed(4, six_above(odd, 16))
        ^ boxed(5, six_above(even, 16))
        ^ boxed(6, six_above(odd, 8))
        ^ boxed(7, six_above(even, 8))
}

// The sixteen rounds of a permuted block, whose halves are exchanged after them. They go two at a time, so
// that no half has to change its place.
pub fn passed(keys: &[u64; 16], block: u64) -> u64
    ensures { bits 64 result ≡ block_after_rounds (map key_bits keys.now) (bits 64 block) }
{
    let mut left = (block >> 32) as u32;
    let mut right = (block & 0xFFFF_FFFF) as u32;
    for i in 0..8 {
        left ^= f(right, keys[2 * i]);
        right ^= f(left, keys[2 * i + 1]);
    }
    (right as u64) << 32 | left as u64
}

pub fn with_keys(keys: &[u64; 16], block: u64) -> u64
    ensures { to_be_bytes w64 result ≡ des_block (map key_bits keys.now) (to_be_bytes w64 block) }
{
    final_bits(passed(keys, initial(block)))
}

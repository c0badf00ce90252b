// The round keys of DES (FIPS 46-3).

ghost use Rattle.std.specs.Prelude.{◌≡◌, ◌⊎◌, ◌^◌, ◌<◌, map, slice_index};
ghost use Rattle.std.specs.Int.{w64, to_be_bytes};
ghost use Rattle.model_machine.specs.Des.{bits, turn, shifts, round_keys};
ghost use Rattle.mc_des.specs.Words.{key_bits};

use crate::permute::{halves, round_key};

// The number of left rotations of the halves before each round.
const SHIFTS: [u32; 16] = [1, 1, 2, 2, 2, 2, 2, 2, 1, 2, 2, 2, 2, 2, 2, 1];

#[inline]
fn shift_of(round: usize) -> u32
    requires { round < 16 }
    ensures value { result ≡ slice_index shifts round }
    ensures size { (result ≡ 1) ⊎ (result ≡ 2) }
{
    SHIFTS[round]
}

// A half of 28 bits, rotated left by `by` bits.
#[inline]
fn turned(half: u32, by: u32) -> u32
    requires half { half < 2 ^ 28 }
    requires by { (by ≡ 1) ⊎ (by ≡ 2) }
    ensures low { result < 2 ^ 28 }
    ensures value { bits 28 result ≡ turn by (bits 28 half) }
{
    half << by & 0x0FFF_FFFF | half >> (28 - by)
}

pub fn round_keys(key: u64) -> [u64; 16]
    ensures { map key_bits result ≡ round_keys (to_be_bytes w64 key) }
{
    let start = halves(key);
    let mut left = (start >> 28 & 0x0FFF_FFFF) as u32;
    let mut right = (start & 0x0FFF_FFFF) as u32;
    let mut keys = [0; 16];
    for i in 0..16 {
        let by = shift_of(i);
        left = turned(left, by);
        right = turned(right, by);
        keys[i] = round_key((left as u64) << 28 | right as u64);
    }
    keys
}

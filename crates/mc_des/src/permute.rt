// The permutations of whole words, one nibble at a time.

ghost use Rattle.std.specs.Prelude.{◌≡◌, ◌/◌, ◌%◌, ◌^◌, ◌<◌};
ghost use Rattle.model_machine.specs.Des.{bits, pick, initial, final, choice1, choice2};
ghost use Rattle.mc_des.specs.Words.{key_bits};

use crate::key_tables::{choice1_of, choice2_of};
use crate::tables::{final_of, initial_of};

// The four bits of a word above its lowest `low` bits.
#[inline]
fn four_above(word: u64, low: usize) -> usize
    requires { low < 64 }
    ensures { result ≡ word / 2 ^ low % 16 }
{
    (word >> low & 15) as usize
}

// The initial permutation IP of a block (FIPS 46-3).
pub fn initial(block: u64) -> u64
    ensures { bits 64 result ≡ pick initial (bits 64 block) }
{
    let mut word = 0;
    for i in 0..16 {
        word ^= initial_of(i, four_above(block, 60 - 4 * i));
    }
    word
}

// The inverse of the initial permutation.
pub fn final_bits(block: u64) -> u64
    ensures { bits 64 result ≡ pick final (bits 64 block) }
{
    let mut word = 0;
    for i in 0..16 {
        word ^= final_of(i, four_above(block, 60 - 4 * i));
    }
    word
}

// The two halves C and D of a key by permuted choice 1, of 28 bits each, one after the other.
pub fn halves(key: u64) -> u64
    ensures { bits 56 result ≡ pick choice1 (bits 64 key) }
{
    let mut word = 0;
    for i in 0..16 {
        word ^= choice1_of(i, four_above(key, 60 - 4 * i));
    }
    word
}

// The round key of two halves, by permuted choice 2.
pub fn round_key(halves: u64) -> u64
    ensures { key_bits result ≡ pick choice2 (bits 56 halves) }
{
    let mut word = 0;
    for i in 0..14 {
        word ^= choice2_of(i, four_above(halves, 52 - 4 * i));
    }
    word
}

// The cipher and the inverse cipher of FIPS 197 on a state, with given round keys.

ghost use Rattle.std.specs.Prelude.{◌≡◌, map, reverse};
ghost use Rattle.model_machine.specs.Aes.{cipher_block, inverse_cipher_block};
ghost use Rattle.mc_aes.specs.State.{state_bytes};

use crate::rounds::{last_round, last_round_back, round, round_back};
use crate::state::{State, add};

// The rounds are unrolled and inlined: a loop would put words of the state into memory.
#[inline(always)]
pub fn encipher_with(keys: &[State; 11], block: State) -> State
    ensures { state_bytes result ≡ cipher_block (map state_bytes keys.now) (state_bytes block) }
{
    let s0 = add(block, keys[0]);
    let s1 = round(s0, keys[1]);
    let s2 = round(s1, keys[2]);
    let s3 = round(s2, keys[3]);
    let s4 = round(s3, keys[4]);
    let s5 = round(s4, keys[5]);
    let s6 = round(s5, keys[6]);
    let s7 = round(s6, keys[7]);
    let s8 = round(s7, keys[8]);
    let s9 = round(s8, keys[9]);
    last_round(s9, keys[10])
}

pub fn decipher_with(keys: &[State; 11], block: State) -> State
    ensures { state_bytes result ≡ inverse_cipher_block (reverse (map state_bytes keys.now)) (state_bytes block) }
{
    let mut state = last_round_back(block, keys[10]);
    for i in 1..10 {
        state = round_back(state, keys[10 - i]);
    }
    add(state, keys[0])
}

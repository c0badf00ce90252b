// Blocks as words, and round keys in reverse order.

ghost use Rattle.std.specs.Prelude.{◌≡◌, length, map, reverse};
ghost use Rattle.std.specs.Int.{w64, to_be_bytes};
ghost use Rattle.model_machine.specs.Des.{des_block};
ghost use Rattle.mc_des.specs.Words.{key_bits};

use crate::permute::{final_bits, initial};
use crate::rounds::passed;

pub fn word(bytes: &[u8]) -> u64
    requires { length bytes.now ≡ 8 }
    ensures { to_be_bytes w64 result ≡ bytes.now }
{
    u64::from_be_bytes([
        bytes[0], bytes[1], bytes[2], bytes[3], bytes[4], bytes[5], bytes[6], bytes[7],
    ])
}

pub fn reversed(mut keys: [u64; 16]) -> [u64; 16]
    ensures { map key_bits result ≡ reverse (map key_bits keys) }
{
    keys.reverse();
    keys
}

// A block through three ciphers, of which the first and the third have the same round keys. Between two of
// them the final permutation of the one and the initial permutation of the next cancel, so they are left out.
pub fn thrice(outer: &[u64; 16], inner: &[u64; 16], block: u64) -> u64
    ensures { to_be_bytes w64 result ≡ des_block (map key_bits outer.now)
        (des_block (map key_bits inner.now) (des_block (map key_bits outer.now) (to_be_bytes w64 block))) }
{
    let start = initial(block);
    final_bits(passed(outer, passed(inner, passed(outer, start))))
}

// The round keys of AES-128, by the key expansion of FIPS 197.

ghost use Rattle.std.specs.Prelude.{◌≡◌, map};
ghost use Rattle.model_machine.specs.Aes.{next_key_word, next_key, round_keys};
ghost use Rattle.mc_aes.specs.State.{word, state_bytes};

use crate::state::{State, byte0, byte1, byte2, byte3, load};
use crate::tables::substitute;

// The last word of a round key, rotated, substituted and with the round constant added, as the first word of
// the next round key needs it.
fn changed(w: u32, constant: u8) -> u32
    ensures { word result ≡ next_key_word constant (word w) }
{
    u32::from_be_bytes([
        substitute(byte1(w)) ^ constant,
        substitute(byte2(w)),
        substitute(byte3(w)),
        substitute(byte0(w)),
    ])
}

fn next_key(key: State, constant: u8) -> State
    ensures { state_bytes result ≡ next_key constant (state_bytes key) }
{
    let first = key.first ^ changed(key.fourth, constant);
    let second = key.second ^ first;
    let third = key.third ^ second;
    let fourth = key.fourth ^ third;
    State {
        first,
        second,
        third,
        fourth,
    }
}

pub fn round_keys(key: &[u8; 16]) -> [State; 11]
    ensures { map state_bytes result ≡ round_keys key.now }
{
    let k0 = load(key);
    let k1 = next_key(k0, 0x01);
    let k2 = next_key(k1, 0x02);
    let k3 = next_key(k2, 0x04);
    let k4 = next_key(k3, 0x08);
    let k5 = next_key(k4, 0x10);
    let k6 = next_key(k5, 0x20);
    let k7 = next_key(k6, 0x40);
    let k8 = next_key(k7, 0x80);
    let k9 = next_key(k8, 0x1B);
    let k10 = next_key(k9, 0x36);
    [k0, k1, k2, k3, k4, k5, k6, k7, k8, k9, k10]
}

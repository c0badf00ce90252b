#![tactic(auto)]

//! AES-128 (FIPS 197), and the last block of its CBC mode (NIST SP 800-38A).

ghost use Rattle.std.specs.Prelude.{◌≡◌, ◌%◌, ◌<◌, length};
ghost use Rattle.model_machine.specs.Aes.{aes_encipher, aes_decipher, aes_signature};

mod cipher;
mod keys;
pub mod laws;
mod rounds;
mod state;
mod tables;
#[cfg(test)]
mod tests;
pub mod vectors;

use cipher::{decipher_with, encipher_with};
use keys::round_keys;
use state::{add, load, store};

/// Enciphers one block of 16 bytes by AES-128 (FIPS 197) under a key of 16 bytes.
pub fn aes_encipher(key: &[u8; 16], block: &[u8; 16]) -> [u8; 16]
    ensures { result ≡ aes_encipher key.now block.now }
{
    store(encipher_with(&round_keys(key), load(block)))
}

/// Deciphers one block of 16 bytes by the inverse cipher of AES-128 (FIPS 197) under a key of 16 bytes.
pub fn aes_decipher(key: &[u8; 16], block: &[u8; 16]) -> [u8; 16]
    ensures { result ≡ aes_decipher key.now block.now }
{
    store(decipher_with(&round_keys(key), load(block)))
}

/// Returns the last block of CBC mode (NIST SP 800-38A) by AES-128 over a message of one or more whole blocks
/// of 16 bytes, with the start block `start`: the exclusive or of each block with the enciphered block before
/// it, the first with `start`, is enciphered.
pub fn aes_signature(key: &[u8; 16], start: &[u8; 16], message: &[u8]) -> [u8; 16]
    requires whole { length message.now % 16 ≡ 0 }
    requires some { 0 < length message.now }
    ensures { result ≡ aes_signature key.now start.now message.now }
{
    let keys = round_keys(key);
    let mut last = load(start);
    for i in 0..message.len() / 16 {
        let block = load(&message[16 * i..16 * i + 16]);
        last = encipher_with(&keys, add(block, last));
    }
    store(last)
}

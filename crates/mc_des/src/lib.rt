#![tactic(auto)]

//! DES and two-key triple DES (FIPS 46-3), and the last block of their CBC mode (FIPS 81).

ghost use Rattle.std.specs.Prelude.{◌≡◌, ◌%◌, ◌<◌, length};
ghost use Rattle.model_machine.specs.Des.{des_encipher, des_decipher, tdes_encipher, tdes_decipher, des_signature, tdes_signature};

mod block;
mod box_table;
mod key_tables;
mod keys;
pub mod laws;
mod permute;
mod rounds;
mod tables;
#[cfg(test)]
mod tests;
pub mod vectors;

use block::{reversed, thrice, word};
use keys::round_keys;
use rounds::with_keys;

/// Enciphers one block of 8 bytes by DES (FIPS 46-3) under a key of 8 bytes, whose parity bits are ignored.
pub fn des_encipher(key: &[u8; 8], block: &[u8; 8]) -> [u8; 8]
    ensures { result ≡ des_encipher key.now block.now }
{
    let keys = round_keys(word(key));
    with_keys(&keys, word(block)).to_be_bytes()
}

/// Deciphers one block of 8 bytes by DES (FIPS 46-3) under a key of 8 bytes, whose parity bits are ignored.
pub fn des_decipher(key: &[u8; 8], block: &[u8; 8]) -> [u8; 8]
    ensures { result ≡ des_decipher key.now block.now }
{
    let keys = reversed(round_keys(word(key)));
    with_keys(&keys, word(block)).to_be_bytes()
}

/// Enciphers one block of 8 bytes by two-key triple DES (FIPS 46-3): enciphers it under the first 8 bytes of
/// the key, deciphers the result under the second 8, and enciphers that under the first 8.
pub fn tdes_encipher(key: &[u8; 16], block: &[u8; 8]) -> [u8; 8]
    ensures { result ≡ tdes_encipher key.now block.now }
{
    let outer = round_keys(word(&key[..8]));
    let inner = reversed(round_keys(word(&key[8..])));
    thrice(&outer, &inner, word(block)).to_be_bytes()
}

/// Deciphers one block of 8 bytes by two-key triple DES (FIPS 46-3): deciphers it under the first 8 bytes of
/// the key, enciphers the result under the second 8, and deciphers that under the first 8.
pub fn tdes_decipher(key: &[u8; 16], block: &[u8; 8]) -> [u8; 8]
    ensures { result ≡ tdes_decipher key.now block.now }
{
    let outer = reversed(round_keys(word(&key[..8])));
    let inner = round_keys(word(&key[8..]));
    thrice(&outer, &inner, word(block)).to_be_bytes()
}

/// Returns the last block of CBC mode (FIPS 81) by DES over a message of one or more whole blocks of 8 bytes,
/// with the start block `start`: the exclusive or of each block with the enciphered block before it, the
/// first with `start`, is enciphered.
pub fn des_signature(key: &[u8; 8], start: &[u8; 8], message: &[u8]) -> [u8; 8]
    requires whole { length message.now % 8 ≡ 0 }
    requires some { 0 < length message.now }
    ensures { result ≡ des_signature key.now start.now message.now }
{
    let keys = round_keys(word(key));
    let mut last = word(start);
    for i in 0..message.len() / 8 {
        let block = word(&message[8 * i..8 * i + 8]);
        last = with_keys(&keys, block ^ last);
    }
    last.to_be_bytes()
}

/// Returns the last block of CBC mode by two-key triple DES over a message, as [`des_signature`] does by DES.
pub fn tdes_signature(key: &[u8; 16], start: &[u8; 8], message: &[u8]) -> [u8; 8]
    requires whole { length message.now % 8 ≡ 0 }
    requires some { 0 < length message.now }
    ensures { result ≡ tdes_signature key.now start.now message.now }
{
    let outer = round_keys(word(&key[..8]));
    let inner = reversed(round_keys(word(&key[8..])));
    let mut last = word(start);
    for i in 0..message.len() / 8 {
        let block = word(&message[8 * i..8 * i + 8]);
        last = thrice(&outer, &inner, block ^ last);
    }
    last.to_be_bytes()
}

// Ciphers over messages.
ghost use Rattle.std.specs.Prelude.{◌≡◌, ◌%◌, ◌<◌, length};
ghost use Rattle.model_machine.specs.Modes.{ecb};
ghost use Rattle.model_machine.specs.Primitives as model;
ghost use Rattle.mc_isa.specs.Primitives.{cipher_of};
ghost use Rattle.mc_prims.specs.Table.{block_under_key};

use mc_aes::{aes_decipher, aes_encipher, aes_signature};
use mc_des::{
    des_decipher, des_encipher, des_signature, tdes_decipher, tdes_encipher, tdes_signature,
};
use mc_isa::Cipher;

/// The direction of a cipher.
#[derive(Clone, Copy, Debug, PartialEq, Eq)]
pub enum Way {
    Encipher,
    Decipher,
}

// An array of the bytes of a slice.
fn array<const N: usize>(bytes: &[u8]) -> [u8; N]
    requires { length bytes.now ≡ N }
    ensures { result ≡ bytes.now }
{
    let mut array = [0; N];
    array.copy_from_slice(bytes);
    array
}

// Enciphers a block in place.
fn encipher(cipher: Cipher, key: &[u8], block: &mut [u8])
    requires key { length key.now ≡ model.key_len (cipher_of cipher) }
    requires block { length block.old ≡ model.block_len (cipher_of cipher) }
    ensures { block.new ≡ model.encipherment (cipher_of cipher) key.now block.old }
{
    match cipher {
        Cipher::Des => block.copy_from_slice(&des_encipher(&array(key), &array(block))),
        Cipher::TripleDes => block.copy_from_slice(&tdes_encipher(&array(key), &array(block))),
        Cipher::Aes => block.copy_from_slice(&aes_encipher(&array(key), &array(block))),
    }
}

// Deciphers a block in place.
fn decipher(cipher: Cipher, key: &[u8], block: &mut [u8])
    requires key { length key.now ≡ model.key_len (cipher_of cipher) }
    requires block { length block.old ≡ model.block_len (cipher_of cipher) }
    ensures { block.new ≡ model.decipherment (cipher_of cipher) key.now block.old }
{
    match cipher {
        Cipher::Des => block.copy_from_slice(&des_decipher(&array(key), &array(block))),
        Cipher::TripleDes => block.copy_from_slice(&tdes_decipher(&array(key), &array(block))),
        Cipher::Aes => block.copy_from_slice(&aes_decipher(&array(key), &array(block))),
    }
}

// Enciphers or deciphers a block in place.
fn turn(cipher: Cipher, way: Way, key: &[u8], block: &mut [u8])
    requires key { length key.now ≡ model.key_len (cipher_of cipher) }
    requires block { length block.old ≡ model.block_len (cipher_of cipher) }
    ensures { block.new ≡ block_under_key way (cipher_of cipher) key.now block.old }
{
    match way {
        Way::Encipher => encipher(cipher, key, block),
        Way::Decipher => decipher(cipher, key, block),
    }
}

/// Enciphers or deciphers a message of whole blocks in place, in ECB mode (FIPS 81).
pub fn turn_each(cipher: Cipher, way: Way, key: &[u8], message: &mut [u8])
    requires key { length key.now ≡ model.key_len (cipher_of cipher) }
    requires whole { length message.old % model.block_len (cipher_of cipher) ≡ 0 }
    ensures { message.new ≡ ecb (block_under_key way (cipher_of cipher) key.now)
        (model.block_len (cipher_of cipher)) message.old }
{
    let size = cipher.block_len() as usize;
    for i in 0..message.len() / size {
        turn(cipher, way, key, &mut message[size * i..size * i + size]);
    }
}

/// Replaces `last`, the start block, by the last block of CBC mode (FIPS 81) over a message of whole
/// blocks.
pub fn sign(cipher: Cipher, key: &[u8], message: &[u8], last: &mut [u8])
    requires key { length key.now ≡ model.key_len (cipher_of cipher) }
    requires start { length last.old ≡ model.block_len (cipher_of cipher) }
    requires whole { length message.now % model.block_len (cipher_of cipher) ≡ 0 }
    requires some { 0 < length message.now }
    ensures { last.new ≡ model.signature (cipher_of cipher) key.now last.old message.now }
{
    match cipher {
        Cipher::Des => last.copy_from_slice(&des_signature(&array(key), &array(last), message)),
        Cipher::TripleDes => last.copy_from_slice(&tdes_signature(
            &array(key),
            &array(last),
            message,
        )),
        Cipher::Aes => last.copy_from_slice(&aes_signature(&array(key), &array(last), message)),
    }
}

// Known answers of public standards, as theorems about the definition.

ghost use Rattle.std.specs.Prelude.{◌≡◌, true, ℕ, ◌<◌, take};
ghost use Rattle.model_machine.specs.model_device.specs.Bytes.{bytes};
ghost use Rattle.model_machine.specs.Aes.{aes_signature, inverse, mul};
ghost use Rattle.mc_aes.specs.Vectors.{all_encipher, all_decipher, cipher_examples, ecb_examples, blocks, keys};

/// The definition's inverse is the inverse in the field GF(2^8): its product with the byte is 1.
pub fn inverses()
    ensures { (b : ℕ) → 0 < b → b < 256 → mul b (inverse b) ≡ 1 }
{}

/// FIPS 197, appendices C.1 and B, enciphered and deciphered.
pub fn cipher_examples()
    ensures enciphered { all_encipher cipher_examples ≡ true }
    ensures deciphered { all_decipher cipher_examples ≡ true }
{}

/// NIST SP 800-38A, F.1.1.
pub fn ecb_examples()
    ensures { all_encipher ecb_examples ≡ true }
{}

/// NIST AESAVS: blocks under the key of zeros.
pub fn blocks()
    ensures { all_encipher blocks ≡ true }
{}

/// NIST AESAVS: the block of zeros under several keys.
pub fn keys()
    ensures { all_encipher keys ≡ true }
{}

/// NIST SP 800-38A, F.2.1: the blocks of CBC, each as the last of the message up to it.
pub fn blocks_of_cbc()
    ensures first { aes_signature (bytes 16 0x2B7E151628AED2A6ABF7158809CF4F3C)
        (bytes 16 0x000102030405060708090A0B0C0D0E0F) (bytes 16 0x6BC1BEE22E409F96E93D7E117393172A)
        ≡ bytes 16 0x7649ABAC8119B246CEE98E9B12E9197D }
    ensures second { aes_signature (bytes 16 0x2B7E151628AED2A6ABF7158809CF4F3C)
        (bytes 16 0x000102030405060708090A0B0C0D0E0F)
        (bytes 32 0x6BC1BEE22E409F96E93D7E117393172AAE2D8A571E03AC9C9EB76FAC45AF8E51)
        ≡ bytes 16 0x5086CB9B507219EE95DB113A917678B2 }
    ensures third { aes_signature (bytes 16 0x2B7E151628AED2A6ABF7158809CF4F3C)
        (bytes 16 0x000102030405060708090A0B0C0D0E0F)
        (bytes 48 0x6BC1BEE22E409F96E93D7E117393172AAE2D8A571E03AC9C9EB76FAC45AF8E5130C81C46A35CE411E5FBC1191A0A52EF)
        ≡ bytes 16 0x73BED6B8E3C1743B7116E69E22229516 }
    ensures fourth { aes_signature (bytes 16 0x2B7E151628AED2A6ABF7158809CF4F3C)
        (bytes 16 0x000102030405060708090A0B0C0D0E0F)
        (bytes 64 0x6BC1BEE22E409F96E93D7E117393172AAE2D8A571E03AC9C9EB76FAC45AF8E5130C81C46A35CE411E5FBC1191A0A52EFF69F2445DF4F9B17AD2B417BE66C3710) ≡ bytes 16 0x3FF1CAA1681FAC09120ECA307586E1A7 }
{}

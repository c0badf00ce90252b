#![tactic(auto, unfolding(model_machine::specs::Des::des_encipher, model_machine::specs::Des::des_decipher, model_machine::specs::Aes::aes_encipher, model_machine::specs::Aes::aes_decipher))]

ghost use Rattle.std.specs.Prelude.{◌≡◌, codes};
ghost use Rattle.model_machine.specs.Aes.{aes_decipher, aes_encipher};
ghost use Rattle.model_machine.specs.Des.{des_decipher, des_encipher};
ghost use Rattle.model_examples.specs.Written.{hex};

/// Three blocks through DES, and back.
pub fn des()
    ensures first { des_encipher (hex (codes "133457799BBCDFF1")) (hex (codes "0123456789ABCDEF"))
        ≡ hex (codes "85E813540F0AB405") }
    ensures second { des_encipher (hex (codes "0101010101010101")) (hex (codes "95F8A5E5DD31D900"))
        ≡ hex (codes "8000000000000000") }
    ensures third { des_encipher (hex (codes "0000000000000000")) (hex (codes "0000000000000000"))
        ≡ hex (codes "8CA64DE9C1B123A7") }
    ensures first_back { des_decipher (hex (codes "133457799BBCDFF1")) (hex (codes "85E813540F0AB405"))
        ≡ hex (codes "0123456789ABCDEF") }
    ensures second_back { des_decipher (hex (codes "0101010101010101")) (hex (codes "8000000000000000"))
        ≡ hex (codes "95F8A5E5DD31D900") }
    ensures third_back { des_decipher (hex (codes "0000000000000000")) (hex (codes "8CA64DE9C1B123A7"))
        ≡ hex (codes "0000000000000000") }
{}

/// A block through AES, and back: the example of FIPS 197.
pub fn aes()
    ensures enciphered { aes_encipher (hex (codes "000102030405060708090A0B0C0D0E0F"))
        (hex (codes "00112233445566778899AABBCCDDEEFF"))
        ≡ hex (codes "69C4E0D86A7B0430D8CDB78070B4C55A") }
    ensures back { aes_decipher (hex (codes "000102030405060708090A0B0C0D0E0F"))
        (hex (codes "69C4E0D86A7B0430D8CDB78070B4C55A"))
        ≡ hex (codes "00112233445566778899AABBCCDDEEFF") }
{}

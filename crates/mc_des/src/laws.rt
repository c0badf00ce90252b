// Laws of the ciphers, for every key and every block.

ghost use Rattle.std.specs.Prelude.{◌≡◌, ℕ, List, ◌++◌, length};
ghost use Rattle.model_machine.specs.Modes.{IsBlock};
ghost use Rattle.model_machine.specs.Des.{des_encipher, des_decipher, tdes_encipher, tdes_decipher};

/// Deciphering an enciphered block yields the block, and enciphering a deciphered block too.
pub fn des_gives_back()
    ensures deciphered { (key block : List ℕ) → IsBlock 8 block → des_decipher key (des_encipher key block) ≡ block }
    ensures enciphered { (key block : List ℕ) → IsBlock 8 block → des_encipher key (des_decipher key block) ≡ block }
{}

/// Deciphering a block that triple DES enciphered yields the block.
pub fn tdes_gives_back()
    ensures { (key block : List ℕ) → IsBlock 8 block → tdes_decipher key (tdes_encipher key block) ≡ block }
{}

/// Triple DES under a key of two equal halves is single DES.
pub fn tdes_of_equal_halves()
    ensures { (half block : List ℕ) → length half ≡ 8 → IsBlock 8 block
        → tdes_encipher (half ++ half) block ≡ des_encipher half block }
{}

// Laws of the cipher, for every key and every block.

ghost use Rattle.std.specs.Prelude.{◌≡◌, ℕ, List};
ghost use Rattle.model_machine.specs.Modes.{IsBlock};
ghost use Rattle.model_machine.specs.Aes.{aes_encipher, aes_decipher};

/// Deciphering an enciphered block yields the block, and enciphering a deciphered block too.
pub fn gives_back()
    ensures deciphered { (key block : List ℕ) → IsBlock 16 key → IsBlock 16 block
        → aes_decipher key (aes_encipher key block) ≡ block }
    ensures enciphered { (key block : List ℕ) → IsBlock 16 key → IsBlock 16 block
        → aes_encipher key (aes_decipher key block) ≡ block }
{}

// Known answers of public standards, as theorems about the definition.

ghost use Rattle.std.specs.Prelude.{◌≡◌, true, [], ◌∷◌, ◌++◌, codes};
ghost use Rattle.model_machine.specs.model_device.specs.Bytes.{bytes};
ghost use Rattle.model_machine.specs.Des.{tdes_encipher, tdes_decipher, des_signature, tdes_signature};
ghost use Rattle.mc_des.specs.Vectors.{all_encipher, all_decipher, known_answers, variable_plaintext, variable_key, permutation_operation, substitution_table};

/// Worked examples, enciphered and deciphered.
pub fn worked_examples()
    ensures enciphered { all_encipher known_answers ≡ true }
    ensures deciphered { all_decipher known_answers ≡ true }
{}

/// NIST SP 800-17: variable plaintext.
pub fn variable_plaintext()
    ensures { all_encipher variable_plaintext ≡ true }
{}

/// NIST SP 800-17: variable key.
pub fn variable_key()
    ensures { all_encipher variable_key ≡ true }
{}

/// NIST SP 800-17: permutation operation.
pub fn permutation_operation()
    ensures { all_encipher permutation_operation ≡ true }
{}

/// NIST SP 800-17: substitution table.
pub fn substitution_table()
    ensures { all_encipher substitution_table ≡ true }
{}

/// FIPS 81: the last block of the printed example of CBC. Triple DES under a key of two equal halves yields
/// it too.
pub fn last_block_of_cbc()
    ensures single { des_signature (bytes 8 0x0123456789ABCDEF) (bytes 8 0x1234567890ABCDEF)
        (codes "Now is the time for all ") ≡ bytes 8 0x683788499A7C05F6 }
    ensures triple { tdes_signature (bytes 16 0x0123456789ABCDEF0123456789ABCDEF) (bytes 8 0x1234567890ABCDEF)
        (codes "Now is the time for all ") ≡ bytes 8 0x683788499A7C05F6 }
{}

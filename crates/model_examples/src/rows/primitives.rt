#![tactic(auto, unfolding(crate::specs::Played::deck_transcript))]

ghost use Rattle.std.specs.Prelude.{◌≡◌, ◌++◌, [], codes, Ok};
ghost use Rattle.model_examples.specs.Played.{deck_transcript, unit_line};

/// A byte that is found at its place.
pub fn lookup()
    ensures { deck_transcript (
        codes "format\npower\n" ++
        unit_line (codes "a") (codes "A000000001") (codes "210B 220000 2804 46010000 060001") (codes "030A0B0C") ++
        codes "load a 4 0\nselect A000000001\napdu 8001000001\n")
        ≡ Ok (codes "1 formatted\n2 ready 0\n4 9000\n5 9000\n6 019000\n") }
{}

/// A word that is shifted left by two bits.
pub fn shift_left()
    ensures { deck_transcript (
        codes "format\npower\n" ++
        unit_line (codes "a") (codes "A000000001") (codes "224001 2A020202 46020000 060002") [] ++
        codes "load a 0 0\nselect A000000001\napdu 8001000002\n")
        ≡ Ok (codes "1 formatted\n2 ready 0\n4 9000\n5 9000\n6 00049000\n") }
{}

/// A primitive that finds no byte on the stack.
pub fn check_case_without_a_byte()
    ensures { deck_transcript (
        codes "format\npower\n" ++
        unit_line (codes "a") (codes "A000000001") (codes "2801") [] ++
        codes "load a 0 0\nselect A000000001\napdu 80010000\n")
        ≡ Ok (codes "1 formatted\n2 ready 0\n4 9000\n5 9000\n6 abend 04\n") }
{}

/// A case that is none of the four.
pub fn check_case_out_of_range()
    ensures { deck_transcript (
        codes "format\npower\n" ++
        unit_line (codes "a") (codes "A000000001") (codes "2105 2801") [] ++
        codes "load a 0 0\nselect A000000001\napdu 80010000\n")
        ≡ Ok (codes "1 formatted\n2 ready 0\n4 9000\n5 9000\n6 abend 06\n") }
{}

/// A pair that is no primitive.
pub fn no_primitive()
    ensures { deck_transcript (
        codes "format\npower\n" ++
        unit_line (codes "a") (codes "A000000001") (codes "28FF") [] ++
        codes "load a 0 0\nselect A000000001\napdu 80010000\n")
        ≡ Ok (codes "1 formatted\n2 ready 0\n4 9000\n5 9000\n6 abend 06\n") }
{}

/// A block through DES.
pub fn des()
    ensures { deck_transcript (
        codes "format\npower\n" ++
        unit_line (codes "a") (codes "A000000001") (codes "22C000 22C000 220000 290408 060008")
        (codes "133457799BBCDFF1") ++
        codes "load a 8 0\nselect A000000001\napdu 80010000080123456789ABCDEF08\n")
        ≡ Ok (codes "1 formatted\n2 ready 0\n4 9000\n5 9000\n6 85E813540F0AB4059000\n") }
{}

/// A message that is not of whole blocks.
pub fn des_of_seven_bytes()
    ensures { deck_transcript (
        codes "format\npower\n" ++
        unit_line (codes "a") (codes "A000000001") (codes "22C000 22C000 220000 290407 060008")
        (codes "133457799BBCDFF1") ++
        codes "load a 8 0\nselect A000000001\napdu 80010000080123456789ABCDEF08\n")
        ≡ Ok (codes "1 formatted\n2 ready 0\n4 9000\n5 9000\n6 abend 06\n") }
{}

/// A block through AES.
pub fn aes()
    ensures { deck_transcript (
        codes "format\npower\n" ++
        unit_line (codes "a") (codes "A000000001") (codes "22C000 22C000 220000 290A10 060010")
        (codes "000102030405060708090A0B0C0D0E0F") ++
        codes "load a 16 0\nselect A000000001\napdu 800100001000112233445566778899AABBCCDDEEFF10\n")
        ≡ Ok (codes "1 formatted\n2 ready 0\n4 9000\n5 9000\n6 69C4E0D86A7B0430D8CDB78070B4C55A9000\n") }
{}

/// A message that is not of whole blocks.
pub fn aes_of_a_block_and_a_half()
    ensures { deck_transcript (
        codes "format\npower\n" ++
        unit_line (codes "a") (codes "A000000001") (codes "22C000 22C000 220000 290A18 060010")
        (codes "000102030405060708090A0B0C0D0E0F") ++
        codes "load a 16 0\nselect A000000001\napdu 800100001000112233445566778899AABBCCDDEEFF10\n")
        ≡ Ok (codes "1 formatted\n2 ready 0\n4 9000\n5 9000\n6 abend 06\n") }
{}

/// The digest of three bytes.
pub fn sha1()
    ensures { deck_transcript (
        codes "format\npower\n" ++
        unit_line (codes "a") (codes "A000000001") (codes "220003 22C000 22C000 2809 060014") [] ++
        codes "load a 0 0\nselect A000000001\napdu 800100000361626314\n")
        ≡ Ok (codes "1 formatted\n2 ready 0\n4 9000\n5 9000\n6 A9993E364706816ABA3E25717850C26C9CD0D89D9000\n") }
{}

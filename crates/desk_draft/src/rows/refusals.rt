#![tactic(auto, unfolding(crate::specs::Computed::deck))]

ghost use Rattle.std.specs.Prelude.{◌≡◌, ◌++◌, codes, replicate, Ok, Err};
ghost use Rattle.mc_deck.specs.model_play.specs.declared.deck.DeckCause.TheVariants.{BadLine, BadName, BadHex, BadNumber, OutOfRange, NameTwice, UnknownName};
ghost use Rattle.desk_draft.specs.Computed.{deck};

/// A declaration with too few or too many fields.
pub fn bad_lines()
    ensures alone { deck (codes "app a A000000100\nSTATIC\nend\n") ≡ Err (2, BadLine) }
    ensures few { deck (codes "app a A000000100\nSTATIC x\nend\n") ≡ Err (2, BadLine) }
    ensures many { deck (codes "app a A000000100\nSTATIC x 1 00 00\nend\n") ≡ Err (2, BadLine) }
    ensures session { deck (codes "app a A000000100\nNOP\nSESSION x 1 00\nend\n") ≡ Err (3, BadLine) }
    ensures public { deck (codes "app a A000000100\nPUBLIC x 1\nend\n") ≡ Err (2, BadLine) }
    ensures constant { deck (codes "app a A000000100\nCONST x 1 2\nend\n") ≡ Err (2, BadLine) }
    ensures comment { deck (codes "app a A000000100\nCONST x ;1\nend\n") ≡ Err (2, BadLine) }
    ensures open { deck (codes "app a A000000100\nSTATIC x") ≡ Err (2, BadLine) }
{}

/// A section has STATIC lines or DATA lines: the first line of the second kind is refused.
pub fn both_kinds_of_data()
    ensures static_after { deck (codes "app a A000000100\nDATA 00\nSTATIC x 1\nend\n") ≡ Err (3, BadLine) }
    ensures data_after { deck (codes "app a A000000100\nSTATIC x 1\nNOP\nDATA 00\nend\n") ≡ Err (4, BadLine) }
    ensures bad_data { deck (codes "app a A000000100\nDATA\nSTATIC x 1\nend\n") ≡ Err (3, BadLine) }
    ensures others { deck (codes "app a A000000100\nDATA 00\nSESSION x 1\nend\n")
        ≡ Ok (codes "app a A000000100\nDATA 00\n\nend\n") }
    ensures apart { deck (codes "app a A000000100\nDATA 00\nend\napp b A000000101\nSTATIC x 1\nend\n")
        ≡ Ok (codes "app a A000000100\nDATA 00\nend\napp b A000000101\n\nend\n") }
{}

/// A name has the form of a label, and is no register and no condition.
pub fn bad_names()
    ensures digit { deck (codes "app a A000000100\nSTATIC 1x 1\nend\n") ≡ Err (2, BadName) }
    ensures point { deck (codes "app a A000000100\nSESSION x.size 1\nend\n") ≡ Err (2, BadName) }
    ensures colon { deck (codes "app a A000000100\nPUBLIC x: 0 1\nend\n") ≡ Err (2, BadName) }
    ensures register { deck (codes "app a A000000100\nCONST SB 1\nend\n") ≡ Err (2, BadName) }
    ensures condition { deck (codes "app a A000000100\nCONST ALL 1\nend\n") ≡ Err (2, BadName) }
    ensures lower { deck (codes "app a A000000100\nCONST sb 1\nCONST all 2\nend\n")
        ≡ Ok (codes "app a A000000100\n\n\nend\n") }
    ensures longest { deck (codes "app a A000000100\nCONST " ++ replicate 32 120 ++ codes " 1\nend\n")
        ≡ Ok (codes "app a A000000100\n\nend\n") }
    ensures too_long { deck (codes "app a A000000100\nCONST " ++ replicate 33 120 ++ codes " 1\nend\n")
        ≡ Err (2, BadName) }
{}

/// Bytes that are no hexadecimal, and numbers that are none.
pub fn bad_bytes_and_numbers()
    ensures odd { deck (codes "app a A000000100\nSTATIC x 1 000\nend\n") ≡ Err (2, BadHex) }
    ensures letter { deck (codes "app a A000000100\nSTATIC x 1 0G\nend\n") ≡ Err (2, BadHex) }
    ensures hex_size { deck (codes "app a A000000100\nSTATIC x 0x1\nend\n") ≡ Err (2, BadNumber) }
    ensures negative_size { deck (codes "app a A000000100\nSESSION x -1\nend\n") ≡ Err (2, BadNumber) }
    ensures negative_place { deck (codes "app a A000000100\nPUBLIC x -1 1\nend\n") ≡ Err (2, BadNumber) }
    ensures plus { deck (codes "app a A000000100\nCONST x +1\nend\n") ≡ Err (2, BadNumber) }
    ensures long_hex { deck (codes "app a A000000100\nCONST x 0x00001\nend\n") ≡ Err (2, BadNumber) }
    ensures negative_hex { deck (codes "app a A000000100\nCONST x -0x1\nend\n") ≡ Err (2, BadNumber) }
    ensures name { deck (codes "app a A000000100\nCONST y 1\nCONST x y\nend\n") ≡ Err (3, BadNumber) }
{}

/// Sizes of 0, sums above what a segment has, bytes that are not as many as the size says, and numbers beyond two
/// bytes.
pub fn out_of_range()
    ensures static_none { deck (codes "app a A000000100\nSTATIC x 0\nend\n") ≡ Err (2, OutOfRange) }
    ensures static_most { deck (codes "app a A000000100\nSTATIC x 4095\nSTATIC y 1\nend\nload a")
        ≡ Ok (codes "app a A000000100\n\n\nend\nload a 4096 0") }
    ensures static_more { deck (codes "app a A000000100\nSTATIC x 4095\nSTATIC y 2\nend\n") ≡ Err (3, OutOfRange) }
    ensures static_full { deck (codes "app a A000000100\nSTATIC x 4096\nSTATIC y 1\nend\n") ≡ Err (3, OutOfRange) }
    ensures session_none { deck (codes "app a A000000100\nSESSION x 0\nend\n") ≡ Err (2, OutOfRange) }
    ensures session_most { deck (codes "app a A000000100\nSESSION x 255\nSESSION y 1\nend\nload a")
        ≡ Ok (codes "app a A000000100\n\n\nend\nload a 0 256") }
    ensures session_more { deck (codes "app a A000000100\nSESSION x 255\nSESSION y 2\nend\n") ≡ Err (3, OutOfRange) }
    ensures apart { deck (codes "app a A000000100\nSTATIC x 4096\nSESSION y 256\nend\nload a")
        ≡ Ok (codes "app a A000000100\n\n\nend\nload a 4096 256") }
    ensures public_none { deck (codes "app a A000000100\nPUBLIC x 0 0\nend\n") ≡ Err (2, OutOfRange) }
    ensures public_most { deck (codes "app a A000000100\nPUBLIC x 1040 1\nPUBLIC y 0 1041\nend\n")
        ≡ Ok (codes "app a A000000100\n\n\nend\n") }
    ensures public_more { deck (codes "app a A000000100\nPUBLIC x 1040 2\nend\n") ≡ Err (2, OutOfRange) }
    ensures fewer_bytes { deck (codes "app a A000000100\nSTATIC x 2 00\nend\n") ≡ Err (2, OutOfRange) }
    ensures more_bytes { deck (codes "app a A000000100\nSTATIC x 2 000000\nend\n") ≡ Err (2, OutOfRange) }
    ensures number_low { deck (codes "app a A000000100\nCONST x -32769\nend\n") ≡ Err (2, OutOfRange) }
    ensures number_high { deck (codes "app a A000000100\nCONST x 65536\nend\n") ≡ Err (2, OutOfRange) }
    ensures long_number { deck (codes "app a A000000100\nSTATIC x 99999999999999999999\nend\n")
        ≡ Err (2, OutOfRange) }
{}

/// Names of bytes and numbers are one set, with the header's names in it.
pub fn names_twice()
    ensures kinds { deck (codes "app a A000000100\nSTATIC x 1\nSESSION x 1\nend\n") ≡ Err (3, NameTwice) }
    ensures number { deck (codes "app a A000000100\nCONST x 1\nPUBLIC x 0 1\nend\n") ≡ Err (3, NameTwice) }
    ensures header { deck (codes "app a A000000100\nCONST Lc 1\nend\n") ≡ Err (2, NameTwice) }
    ensures label { deck (codes "app a A000000100\nSTATIC x 1\nx: LOAD x\nend\n")
        ≡ Ok (codes "app a A000000100\n\nx: LOAD SB[0],1\nend\n") }
{}

/// The causes of a declaration in their order.
pub fn order_of_causes()
    ensures line { deck (codes "app a A000000100\nDATA 00\nSTATIC 1x y 0G\nend\n") ≡ Err (3, BadLine) }
    ensures name { deck (codes "app a A000000100\nSTATIC SB y 0G\nend\n") ≡ Err (2, BadName) }
    ensures hex { deck (codes "app a A000000100\nSTATIC CLA y 0G\nend\n") ≡ Err (2, BadHex) }
    ensures number { deck (codes "app a A000000100\nPUBLIC CLA 2000 y\nend\n") ≡ Err (2, BadNumber) }
    ensures range { deck (codes "app a A000000100\nSTATIC CLA 0\nend\n") ≡ Err (2, OutOfRange) }
    ensures twice { deck (codes "app a A000000100\nSTATIC CLA 1 00\nend\n") ≡ Err (2, NameTwice) }
    ensures first_line { deck (codes "app a A000000100\nCONST x 65536\nSTATIC 1x 1\nend\nload b\n")
        ≡ Err (2, OutOfRange) }
{}

/// A place beyond the bytes of a name.
pub fn beyond_the_size()
    ensures last { deck (codes "app a A000000100\nPUBLIC x 3 2\n LOAD x+1\nend\n")
        ≡ Ok (codes "app a A000000100\n\n LOAD PB[4],1\nend\n") }
    ensures beyond { deck (codes "app a A000000100\nPUBLIC x 3 2\n LOAD x+2\nend\n") ≡ Err (3, OutOfRange) }
    ensures any_operand { deck (codes "app a A000000100\nPUBLIC x 3 2\n NOP\n SETB 1,x+9\nend\n")
        ≡ Err (4, OutOfRange) }
    ensures header { deck (codes "app a A000000100\n LOAD CLA+1\nend\n") ≡ Err (2, OutOfRange) }
    ensures jump { deck (codes "app a A000000100\nPUBLIC x 3 2\n JUMP EQ,x+2\nend\n")
        ≡ Ok (codes "app a A000000100\n\n JUMP EQ,x+2\nend\n") }
    ensures comment { deck (codes "app a A000000100\nPUBLIC x 3 2\n NOP ; x+2\nend\n")
        ≡ Ok (codes "app a A000000100\n\n NOP ; x+2\nend\n") }
{}

/// A `load` of one field that no section before it has as its name.
pub fn unknown_names()
    ensures none { deck (codes "load a\n") ≡ Err (1, UnknownName) }
    ensures later { deck (codes "load a\napp a A000000100\nend\n") ≡ Err (1, UnknownName) }
    ensures unit { deck (codes "unit a 00\nload a\n") ≡ Err (2, UnknownName) }
    ensures sizes { deck (codes "load a 1 2\n") ≡ Ok (codes "load a 1 2\n") }
{}

/// Fields of a command that are no whole bytes, and more than 255 bytes in brackets.
pub fn bad_commands()
    ensures digit { deck (codes "apdu 80 4\n") ≡ Err (1, BadHex) }
    ensures one_field { deck (codes "apdu 8\n") ≡ Err (1, BadHex) }
    ensures empty { deck (codes "apdu 80400000 ()\n") ≡ Err (1, BadHex) }
    ensures half { deck (codes "apdu 80400000 (0)\n") ≡ Err (1, BadHex) }
    ensures shut { deck (codes "apdu 80400000 (00\n") ≡ Err (1, BadHex) }
    ensures opened { deck (codes "apdu 80400000 00)\n") ≡ Err (1, BadHex) }
    ensures nested { deck (codes "apdu 80400000 ((00))\n") ≡ Err (1, BadHex) }
    ensures most { deck (codes "apdu 80400000 (" ++ replicate 510 48 ++ codes ")\n")
        ≡ Ok (codes "apdu 80400000FF" ++ replicate 510 48 ++ codes "\n") }
    ensures more { deck (codes "apdu 80400000 (" ++ replicate 512 48 ++ codes ")\n") ≡ Err (1, OutOfRange) }
    ensures front { deck (codes "apdu (" ++ replicate 512 48 ++ codes ") 0\n") ≡ Err (1, OutOfRange) }
{}

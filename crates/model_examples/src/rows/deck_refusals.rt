#![tactic(auto, unfolding(model_play::specs::DeckGrammar::deck_read))]

ghost use Rattle.std.specs.Prelude.{◌≡◌, ◌∷◌, ◌++◌, [], codes, replicate, Ok, Err};
ghost use Rattle.model_play.specs.DeckGrammar.{deck_read, Format, Power, Named, Sent, Load, Select, Delete, Dump, Apdu, Budget, Cut, Fail, Poke};
ghost use Rattle.model_play.specs.Generator.{counter, counter_aid};
ghost use Rattle.model_text.specs.declared.assembler.AsmCause.TheVariants.{UnknownWord, FarBranch};
ghost use Rattle.model_play.specs.declared.deck.DeckCause.TheVariants.{TooManyLines, BadLine, BadName, BadHex, BadNumber, OutOfRange, NameTwice, UnknownName, LateLine, NoEnd, Unit, Asm};
ghost use Rattle.model_card.specs.declared.unit.UnitRefusal.TheVariants.{Short, NoCode, TooLarge, Signed, Enciphered, Tail, NoAid, AidLength};
ghost use Rattle.model_examples.specs.Written.{hex, times};

/// Each statement, with what it reads.
pub fn each_statement()
    ensures { deck_read (
        codes "format\n" ++
        codes "poke 16383 0001020304050607\n" ++
        codes "power\n" ++
        codes "unit counter 0000000000000000000FB902000039020000460200000600020000000961074F05A00000000100096F078405A00000000100000000\n" ++
        codes "load counter 2 65535\n" ++
        codes "select A000000001\n" ++
        codes "delete 000102030405060708090a0b0c0d0e0f\n" ++
        codes "dump A000000001\n" ++
        codes "apdu 80\n" ++
        codes "budget 65536\n" ++
        codes "cut 4294967295 0001020304050607\n" ++
        codes "fail 0000000001\n")
        ≡ Ok (
        (1, Format)
        ∷ (2, Poke 16383 (hex (codes "0001020304050607")))
        ∷ (3, Power)
        ∷ (4, Named)
        ∷ (5, Sent (Load counter 2 65535))
        ∷ (6, Sent (Select counter_aid))
        ∷ (7, Sent (Delete (hex (codes "000102030405060708090A0B0C0D0E0F"))))
        ∷ (8, Dump counter_aid)
        ∷ (9, Sent (Apdu (0x80 ∷ [])))
        ∷ (10, Budget 65536)
        ∷ (11, Cut 4294967295 (hex (codes "0001020304050607")))
        ∷ (12, Fail 1)
        ∷ []) }
{}

/// A section that assembles the counter.
pub fn application_section()
    ensures { deck_read (
        codes "format\n" ++
        codes "power\n" ++
        codes "app counter A000000001\n" ++
        codes "INCN SB[0],2\n" ++
        codes "LOAD SB[0],2\n" ++
        codes "STORE PB[0],2\n" ++
        codes "EXITLA 2\n" ++
        codes "end\n" ++
        codes "load counter 2 0\n")
        ≡ Ok ((1, Format) ∷ (2, Power) ∷ (3, Named) ∷ (9, Sent (Load counter 2 0)) ∷ []) }
{}

/// Skipped lines are numbered too, and blanks and carriage returns at the ends of lines mean nothing.
pub fn skipped_lines()
    ensures empty { deck_read [] ≡ Ok [] }
    ensures skipped { deck_read (codes "# a comment\n\n \t\n  #\r\npower\n\n") ≡ Ok ((5, Power) ∷ []) }
    ensures no_last_feed { deck_read (codes "\t power \t") ≡ Ok ((1, Power) ∷ []) }
    ensures returns { deck_read (codes "power\r\nbudget \t 1\r\n") ≡ Ok ((1, Power) ∷ (2, Budget 1) ∷ []) }
    ensures last_return { deck_read (codes "power\r") ≡ Err (1, BadLine) }
    ensures two_returns { deck_read (codes "power\r\r\n") ≡ Err (1, BadLine) }
{}

/// A deck has at most 20,000 lines, skipped ones too.
pub fn too_many_lines()
    ensures most { deck_read (replicate 20000 10) ≡ Ok [] }
    ensures one_more { deck_read (replicate 20001 10) ≡ Err (20001, TooManyLines) }
    ensures no_last_feed { deck_read (replicate 20000 10 ++ codes "#") ≡ Err (20001, TooManyLines) }
{}

/// What is no statement, or has too few or too many fields.
pub fn bad_lines()
    ensures no_field { deck_read (codes "select") ≡ Err (1, BadLine) }
    ensures more_fields { deck_read (codes "power 1") ≡ Err (1, BadLine) }
    ensures upper_case { deck_read (codes "POWER") ≡ Err (1, BadLine) }
    ensures no_statement { deck_read (codes "\nformat\nEXIT") ≡ Err (3, BadLine) }
    ensures end_alone { deck_read (codes "end") ≡ Err (1, BadLine) }
    ensures comment_behind { deck_read (codes "power # now") ≡ Err (1, BadLine) }
    ensures before_fields { deck_read (codes "load a-b x") ≡ Err (1, BadLine) }
{}

/// Names.
pub fn bad_names()
    ensures sign { deck_read (codes "unit a-b 00") ≡ Err (1, BadName) }
    ensures too_long { deck_read (codes "unit abcdefghijklmnopqrstuvwxyz_012345 00") ≡ Err (1, BadName) }
    ensures longest { deck_read (codes "unit 0bcdefghijklmnopqrstuvwxyz_01234 00") ≡ Err (1, Unit Short) }
    ensures of_a_load { deck_read (codes "load a-b x y") ≡ Err (1, BadName) }
    ensures before_hex { deck_read (codes "app a-b A") ≡ Err (1, BadName) }
{}

/// Hexadecimal fields.
pub fn bad_hex()
    ensures odd { deck_read (codes "apdu 801") ≡ Err (1, BadHex) }
    ensures letter { deck_read (codes "apdu 8G") ≡ Err (1, BadHex) }
    ensures return_inside { deck_read (codes "apdu 80\r \n") ≡ Err (1, BadHex) }
    ensures before_its_size { deck_read (codes "dump A") ≡ Err (1, BadHex) }
    ensures after_the_number { deck_read (codes "cut 0 x") ≡ Err (1, OutOfRange) }
{}

/// Decimal fields.
pub fn bad_numbers()
    ensures letter { deck_read (codes "budget x1") ≡ Err (1, BadNumber) }
    ensures sign { deck_read (codes "budget -1") ≡ Err (1, BadNumber) }
    ensures hexadecimal { deck_read (codes "budget 0x10") ≡ Err (1, BadNumber) }
    ensures leading_zeros { deck_read (codes "budget 00000000000000000000065536") ≡ Ok ((1, Budget 65536) ∷ []) }
    ensures before_the_fill { deck_read (codes "poke x 0") ≡ Err (1, BadNumber) }
{}

/// Ranges of numbers and sizes.
pub fn out_of_range()
    ensures budget { deck_read (codes "budget 65537") ≡ Err (1, OutOfRange) }
    ensures no_budget { deck_read (codes "budget 0") ≡ Err (1, OutOfRange) }
    ensures cut { deck_read (codes "cut 0 0000000000000000") ≡ Err (1, OutOfRange) }
    ensures late_cut { deck_read (codes "cut 4294967296 0000000000000000") ≡ Err (1, OutOfRange) }
    ensures fail { deck_read (codes "fail 0") ≡ Err (1, OutOfRange) }
    ensures large { deck_read (codes "fail 99999999999999999999999999999999") ≡ Err (1, OutOfRange) }
    ensures place { deck_read (codes "poke 16384 0000000000000000") ≡ Err (1, OutOfRange) }
    ensures short_fill { deck_read (codes "cut 1 00000000000000") ≡ Err (1, OutOfRange) }
    ensures long_fill { deck_read (codes "poke 1 000000000000000000") ≡ Err (1, OutOfRange) }
    ensures short_aid { deck_read (codes "dump A0000000") ≡ Err (1, OutOfRange) }
    ensures longer_aid { deck_read (codes "select A000000000000000000000000000000001") ≡ Err (1, OutOfRange) }
    ensures static_size { deck_read (codes "load x 65536 0") ≡ Err (1, OutOfRange) }
    ensures session_size { deck_read (codes "load x 0 65536") ≡ Err (1, OutOfRange) }
{}

/// Names that were given before, or were not.
pub fn names()
    ensures unknown { deck_read (codes "load x 1 1") ≡ Err (1, UnknownName) }
    ensures case { deck_read (codes "app x A000000001\nEXIT\nend\nload X 0 0") ≡ Err (4, UnknownName) }
    ensures twice { deck_read (codes "app x A000000001\nEXIT\nend\napp x A000000002\nEXIT\nend") ≡ Err (4, NameTwice) }
    ensures of_both_kinds { deck_read (codes "app x A000000001\nEXIT\nend\nunit x 00") ≡ Err (4, NameTwice) }
    ensures in_an_open_section { deck_read (codes "app x A000000001\nload x 0 0\nend") ≡ Err (2, Asm UnknownWord) }
{}

/// A unit is named once.
pub fn unit_twice()
    ensures { deck_read (
        times 2 (codes "unit counter 0000000000000000000FB902000039020000460200000600020000000961074F05A00000000100096F078405A00000000100000000\n"))
        ≡ Err (2, NameTwice) }
{}

/// Lines that may stand before the first `power` alone.
pub fn late_lines()
    ensures format { deck_read (codes "power\nformat") ≡ Err (2, LateLine) }
    ensures poke { deck_read (codes "power\npoke 1 0000000000000000") ≡ Err (2, LateLine) }
    ensures range_first { deck_read (codes "power\npoke 16384 0000000000000000") ≡ Err (2, OutOfRange) }
    ensures twice { deck_read (codes "format\nformat\npower\npower")
        ≡ Ok ((1, Format) ∷ (2, Format) ∷ (3, Power) ∷ (4, Power) ∷ []) }
{}

/// The first refused statement counts.
pub fn first_refusal()
    ensures { deck_read (codes "apdu 1\nbudget x") ≡ Err (1, BadHex) }
{}

/// A section that has no end.
pub fn no_end()
    ensures none { deck_read (codes "power\napp x A000000001\nEXIT\n") ≡ Err (2, NoEnd) }
    ensures comment { deck_read (codes "app x A000000001\nend ; x\n") ≡ Err (1, NoEnd) }
    ensures before_faults { deck_read (codes "app x A000000001\nFOO\nDATA\n") ≡ Err (1, NoEnd) }
    ensures first_line_first { deck_read (codes "app x A0000000") ≡ Err (1, OutOfRange) }
    ensures upper_case { deck_read (codes "app x A000000001\nEND\n") ≡ Err (1, NoEnd) }
{}

/// A section that reaches line 20,001.
pub fn long_section()
    ensures reaches { deck_read (codes "app x A000000001\n" ++ replicate 20000 10) ≡ Err (20001, TooManyLines) }
    ensures ends_there { deck_read (codes "app x A000000001\n" ++ replicate 19999 10 ++ codes "end\n")
        ≡ Err (20001, TooManyLines) }
    ensures ends_before { deck_read (codes "app x A000000001\n" ++ replicate 19999 10) ≡ Err (1, NoEnd) }
{}

/// The data lines of a section.
pub fn data_lines()
    ensures no_hex { deck_read (codes "app x A000000001\nDATA\nend") ≡ Err (2, BadLine) }
    ensures two_fields { deck_read (codes "app x A000000001\nEXIT\nDATA 00 ; zero\nend") ≡ Err (3, BadLine) }
    ensures odd { deck_read (codes "app x A000000001\n DATA 0\nend") ≡ Err (2, BadHex) }
    ensures before_words { deck_read (codes "app x A000000001\nFOO\nDATA 0\nend") ≡ Err (3, BadHex) }
    ensures first_of_two { deck_read (codes "app x A000000001\nDATA 0\nDATA\nend") ≡ Err (2, BadHex) }
    ensures label { deck_read (codes "app x A000000001\nDATA: EXIT\nJUMP ALL,DATA\nend") ≡ Ok ((1, Named) ∷ []) }
{}

/// The assembler's refusals stand at their own lines, a unit's at the end of its section.
pub fn section_refusals()
    ensures word { deck_read (codes "app x A000000001\nDATA 00\n# x\nend") ≡ Err (3, Asm UnknownWord) }
    ensures branch { deck_read (codes "\napp x A000000001\nEXIT\nBRANCH ALL,far\nDATA 00\n"
        ++ times 128 (codes "NOP\n") ++ codes "far:\nend") ≡ Err (4, Asm FarBranch) }
    ensures no_code { deck_read (codes "app x A000000001\nDATA 00\nx:\n end \n") ≡ Err (4, Unit NoCode) }
    ensures much_data { deck_read (codes "app x A000000001\nEXIT\nDATA " ++ replicate 8192 48
        ++ codes "\nDATA 00\nend") ≡ Err (5, Unit TooLarge) }
    ensures most_data { deck_read (codes "app x A000000001\nEXIT\nDATA " ++ replicate 8190 48
        ++ codes "\nDATA 00\nend") ≡ Ok ((1, Named) ∷ []) }
{}

/// A unit's refusals stand at its line.
pub fn unit_refusals()
    ensures short { deck_read (codes "format\npower\n" ++
        codes "unit x 0000000000000000000FB902000039020000460200000600020000000961074F05A00000000100096F078405A000000001000000") ≡ Err (3, Unit Short) }
    ensures signed { deck_read (codes "format\npower\n" ++
        codes "unit x 0000000000000000000FB902000039020000460200000600020000000961074F05A00000000100096F078405A0000000010001FF0000") ≡ Err (3, Unit Signed) }
    ensures enciphered { deck_read (codes "format\npower\n" ++
        codes "unit x 0000000000000000000FB902000039020000460200000600020000000961074F05A00000000100096F078405A00000000100000001FF") ≡ Err (3, Unit Enciphered) }
    ensures tail { deck_read (codes "format\npower\n" ++
        codes "unit x 0000000000000000000FB902000039020000460200000600020000000961074F05A00000000100096F078405A0000000010000000000") ≡ Err (3, Unit Tail) }
    ensures no_code { deck_read (codes "unit x 00000000000000000000") ≡ Err (1, Unit NoCode) }
    ensures too_large { deck_read (codes "unit x 00000000000000002001") ≡ Err (1, Unit TooLarge) }
    ensures no_aid { deck_read (codes "unit x 0000000000000000000104000000000000 00000000") ≡ Err (1, BadLine) }
    ensures no_name { deck_read (codes "unit x 000000000000000000010400000000000000000000") ≡ Err (1, Unit NoAid) }
    ensures short_name { deck_read (codes "unit x 00000000000000000001040000000861064F04A0000000000000000000")
        ≡ Err (1, Unit AidLength) }
{}

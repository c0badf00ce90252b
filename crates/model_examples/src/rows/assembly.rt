#![tactic(auto, unfolding(model_text::specs::Assembly::assembly_of))]

ghost use Rattle.std.specs.Prelude.{◌≡◌, ◌∷◌, ◌++◌, [], codes, replicate, Ok, Err};
ghost use Rattle.model_text.specs.Assembly.{assembly_of};
ghost use Rattle.model_text.specs.declared.assembler.AsmCause.TheVariants.{UnknownWord, BadOperands, BadNumber, OutOfRange, LabelTwice, TooLong, UnknownLabel, FarBranch};
ghost use Rattle.model_examples.specs.Written.{hex, times};

/// The counter's code.
pub fn counter()
    ensures { assembly_of (
        codes "INCN SB[0],2\n" ++
        codes "LOAD SB[0],2\n" ++
        codes "STORE PB[0],2\n" ++
        codes "EXITLA 2\n") ≡ Ok (hex (codes "B9020000 39020000 46020000 060002")) }
{}

/// A line of each form of operands.
pub fn each_form()
    ensures { assembly_of (
        codes "NOP\nEXITLA 0x0002\nEXITSWLA 0x9000,0x0004\nPUSHB 5\nPUSHW 0x0000\nRETIO 1,1\n" ++
        codes "BRANCH ALL,-2\nJUMP EQ,0x0004\nJUMP\nPRIM 7\nPRIM 3,2\nINCN SB[0],2\nLOAD PT[-2],2\n" ++
        codes "ADDB 3\nSETW SB[8],0x0102\nLOADA DB[4]\nLOADA\nBYTE 255\n")
        ≡ Ok (hex (codes "00 060002 0790000004 2105 220000 2F0101 0FFE 110004 10 2807 290302 B9020000 3F02FFFE 7803 8901020008 5B0004 58 FF")) }
{}

/// The words without an operand, and those with numbers alone.
pub fn plain_words()
    ensures { assembly_of (
        codes "NOP\nEXIT\nPOPB\nPOPW\nRET\nSETSW 1\nSETLA 2\nSETSWLA 3,4\nEXITSW 5\nPUSHZ 6\nPOPN 7\nRETI 8\nRETO 9\nCALL\n" ++
        codes "CALL NE,10\nPRIM 1,2,3\nPRIM 1,2,3,4\n")
        ≡ Ok (hex (codes "00 04 25 26 2C 010001 020002 0300030004 050005 2006 2407 2D08 2E09 18 1E000A 2A010203 2B01020304")) }
{}

/// The words with an address and a byte.
pub fn addressed_words()
    ensures { assembly_of (
        codes "LOAD 1\nSTORE 1\nLOADI 1\nSTOREI 1\nINDEX 1\nSETB 1\nCMPB 1\nADDB 1\nSUBB 1\nCLEARN 1\nTESTN 1\nINCN 1\nDECN 1\n" ++
        codes "NOTN 1\nCMPN 1\nADDN 1\nSUBN 1\nANDN 1\nORN 1\nXORN 1\nSETW 1\nCMPW 1\nADDW 1\nSUBW 1\n")
        ≡ Ok (hex (codes "3801 4001 4801 5001 6001 6801 7001 7801 8001 A801 B001 B801 C001 C801 D001 D801 E001 E801 F001 F801 880001 900001 980001 A00001")) }
{}

/// The registers by their tags, and the conditions.
pub fn registers_and_conditions()
    ensures registers { assembly_of
        (codes "LOADA SB[1]\nLOADA ST[1]\nLOADA DB[1]\nLOADA LB[1]\nLOADA DT[1]\nLOADA PB[1]\nLOADA PT[1]")
        ≡ Ok (hex (codes "590001 5A0001 5B0001 5C0001 5D0001 5E0001 5F0001")) }
    ensures conditions { assembly_of
        (codes "BRANCH EQ,0\nBRANCH LT,0\nBRANCH LE,0\nBRANCH GT,0\nBRANCH GE,0\nBRANCH NE,0\nBRANCH ALL,0")
        ≡ Ok (hex (codes "0900 0A00 0B00 0C00 0D00 0E00 0F00")) }
{}

/// A text without a word has no code.
pub fn no_code()
    ensures empty { assembly_of [] ≡ Ok [] }
    ensures blank { assembly_of (codes "\n \t \n; a comment: with a colon, and more\nlabel:\n") ≡ Ok [] }
{}

/// Blanks around the parts, comments, and the ends of lines.
pub fn layout()
    ensures blanks { assembly_of (codes "\t LOAD\tSB[0] , 2 ;comment") ≡ Ok (hex (codes "39020000")) }
    ensures label { assembly_of (codes " here :NOP;\n JUMP ALL,here") ≡ Ok (hex (codes "00 170000")) }
    ensures returns { assembly_of (codes "NOP\r\nEXIT\r\n") ≡ Ok (hex (codes "0004")) }
    ensures last_return { assembly_of (codes "NOP\r") ≡ Err (1, UnknownWord) }
    ensures two_returns { assembly_of (codes "NOP\r\r\n") ≡ Err (1, UnknownWord) }
    ensures return_in_comment { assembly_of (codes "NOP ;\r") ≡ Ok (hex (codes "00")) }
{}

/// Numbers in both notations.
pub fn numbers()
    ensures leading_zeros { assembly_of (codes "PUSHB 0000000000000000000000007") ≡ Ok (hex (codes "2107")) }
    ensures hexadecimal { assembly_of (codes "PUSHB 0xfF\nPUSHW 0x1\nPUSHW 0xABCD")
        ≡ Ok (hex (codes "21FF 220001 22ABCD")) }
    ensures negative_zero { assembly_of (codes "BRANCH ALL,-0\nLOAD SB[-0],1") ≡ Ok (hex (codes "0F00 39010000")) }
    ensures plus { assembly_of (codes "BRANCH ALL,+1") ≡ Err (1, BadNumber) }
    ensures negative_hexadecimal { assembly_of (codes "BRANCH ALL,-0x1") ≡ Err (1, BadNumber) }
    ensures upper_case_x { assembly_of (codes "PUSHW 0X1") ≡ Err (1, BadNumber) }
    ensures no_digit { assembly_of (codes "PUSHW 0x") ≡ Err (1, BadNumber) }
    ensures five_digits { assembly_of (codes "PUSHW 0x00001") ≡ Err (1, BadNumber) }
    ensures sign_of_a_byte { assembly_of (codes "PUSHB -1") ≡ Err (1, BadNumber) }
    ensures sign_alone { assembly_of (codes "BRANCH ALL,-") ≡ Err (1, BadNumber) }
    ensures empty_operand { assembly_of (codes "SETSWLA 1,") ≡ Err (1, BadNumber) }
    ensures inner_blank { assembly_of (codes "PUSHW 1 2") ≡ Err (1, BadNumber) }
{}

/// The ranges of bytes, words, offsets and displacements.
pub fn ranges()
    ensures byte { assembly_of (codes "PUSHB 255\nPUSHB 256") ≡ Err (2, OutOfRange) }
    ensures word { assembly_of (codes "PUSHW 65535\nEXITLA 65536") ≡ Err (2, OutOfRange) }
    ensures wide_word { assembly_of (codes "SETW SB[0],65535\nSETW SB[0],65536") ≡ Err (2, OutOfRange) }
    ensures address { assembly_of (codes "JUMP ALL,65535\nCALL ALL,65536") ≡ Err (2, OutOfRange) }
    ensures large { assembly_of (codes "PUSHB 123456789012345678901234567890") ≡ Err (1, OutOfRange) }
    ensures offsets { assembly_of (codes "LOADA SB[32767]\nLOADA SB[-32768]\nLOADA SB[0x7FFF]")
        ≡ Ok (hex (codes "597FFF 598000 597FFF")) }
    ensures high_offset { assembly_of (codes "LOADA SB[32768]") ≡ Err (1, OutOfRange) }
    ensures low_offset { assembly_of (codes "LOADA SB[-32769]") ≡ Err (1, OutOfRange) }
    ensures hexadecimal_offset { assembly_of (codes "LOADA SB[0xFFFF]") ≡ Err (1, OutOfRange) }
    ensures displacements { assembly_of (codes "BRANCH ALL,127\nBRANCH ALL,-128") ≡ Ok (hex (codes "0F7F 0F80")) }
    ensures high_displacement { assembly_of (codes "BRANCH ALL,128") ≡ Err (1, OutOfRange) }
    ensures low_displacement { assembly_of (codes "BRANCH ALL,-129") ≡ Err (1, OutOfRange) }
{}

/// Operands that are too few, too many, or no operands of their kind.
pub fn operands()
    ensures too_many { assembly_of (codes "NOP 1") ≡ Err (1, BadOperands) }
    ensures too_few { assembly_of (codes "PUSHB") ≡ Err (1, BadOperands) }
    ensures third { assembly_of (codes "RETIO 1,1,1") ≡ Err (1, BadOperands) }
    ensures fifth { assembly_of (codes "PRIM 1,2,3,4,5") ≡ Err (1, BadOperands) }
    ensures condition_alone { assembly_of (codes "JUMP ALL") ≡ Err (1, BadOperands) }
    ensures no_condition { assembly_of (codes "JUMP all,1") ≡ Err (1, BadOperands) }
    ensures no_target { assembly_of (codes "JUMP ALL,9a") ≡ Err (1, BadNumber) }
    ensures address_alone { assembly_of (codes "LOAD SB[0]") ≡ Err (1, BadNumber) }
    ensures number_for_an_address { assembly_of (codes "LOADA 5") ≡ Err (1, BadOperands) }
{}

/// An address has a register, one opening bracket right after it, and one closing bracket at its end.
pub fn addresses()
    ensures register { assembly_of (codes "LOAD XX[0],1") ≡ Err (1, BadOperands) }
    ensures lower_case { assembly_of (codes "LOAD sb[0],1") ≡ Err (1, BadOperands) }
    ensures apart { assembly_of (codes "LOAD SB [0],1") ≡ Err (1, BadOperands) }
    ensures open { assembly_of (codes "LOAD SB[0,1") ≡ Err (1, BadOperands) }
    ensures closed_twice { assembly_of (codes "LOAD SB[0]],1") ≡ Err (1, BadOperands) }
    ensures opened_twice { assembly_of (codes "LOAD SB[[0],1") ≡ Err (1, BadOperands) }
    ensures behind { assembly_of (codes "LOAD SB[0]x,1") ≡ Err (1, BadOperands) }
    ensures empty { assembly_of (codes "LOAD SB[],1") ≡ Err (1, BadNumber) }
    ensures blanks { assembly_of (codes "LOAD SB[ 0 ],1") ≡ Err (1, BadNumber) }
{}

/// In a line the first cause of the table counts, wherever it stands among the operands.
pub fn first_cause_of_a_line()
    ensures word_first { assembly_of (codes "FOO XX[0],z") ≡ Err (1, UnknownWord) }
    ensures label_first { assembly_of (codes "1a: LOAD XX[0],z") ≡ Err (1, UnknownWord) }
    ensures operands_first { assembly_of (codes "STORE XX[0],z") ≡ Err (1, BadOperands) }
    ensures number_first { assembly_of (codes "STORE SB[99999],z") ≡ Err (1, BadNumber) }
    ensures range_before_label { assembly_of (codes "a: NOP\na: PUSHB 256") ≡ Err (2, OutOfRange) }
    ensures target_last { assembly_of (codes "BRANCH all,999") ≡ Err (1, BadOperands) }
{}

/// What is a word and what is none.
pub fn words()
    ensures unknown { assembly_of (codes "FOO") ≡ Err (1, UnknownWord) }
    ensures lower_case { assembly_of (codes "nop") ≡ Err (1, UnknownWord) }
    ensures comma { assembly_of (codes "NOP,") ≡ Err (1, UnknownWord) }
    ensures hash { assembly_of (codes "# comment") ≡ Err (1, UnknownWord) }
    ensures second_colon { assembly_of (codes "a: b: NOP") ≡ Err (1, UnknownWord) }
{}

/// Labels: their form, and their values.
pub fn labels()
    ensures digit { assembly_of (codes "1a: NOP") ≡ Err (1, UnknownWord) }
    ensures blank { assembly_of (codes "a b: NOP") ≡ Err (1, UnknownWord) }
    ensures none { assembly_of (codes ": NOP") ≡ Err (1, UnknownWord) }
    ensures longest { assembly_of (codes "abcdefghijklmnopqrstuvwxyz_01234: NOP") ≡ Ok (hex (codes "00")) }
    ensures too_long { assembly_of (codes "abcdefghijklmnopqrstuvwxyz_012345: NOP") ≡ Err (1, UnknownWord) }
    ensures case { assembly_of (codes "a: NOP\nA: CALL EQ,A\nJUMP ALL,a") ≡ Ok (hex (codes "00 190001 170000")) }
    ensures twice { assembly_of (codes "a: NOP\nNOP\na:") ≡ Err (3, LabelTwice) }
    ensures at_the_end { assembly_of (codes "JUMP ALL,end\nend:") ≡ Ok (hex (codes "170003")) }
    ensures unknown { assembly_of (codes "JUMP ALL,there") ≡ Err (1, UnknownLabel) }
    ensures unknown_in_a_branch { assembly_of (codes "NOP\nBRANCH ALL,there") ≡ Err (2, UnknownLabel) }
    ensures after_the_lines { assembly_of (codes "JUMP ALL,there\nFOO") ≡ Err (2, UnknownWord) }
{}

/// A branch reaches 127 bytes forward from the place after it.
pub fn branch_forward()
    ensures near { assembly_of (codes "BRANCH ALL,far\n" ++ times 127 (codes "NOP\n") ++ codes "far: EXIT\n")
        ≡ Ok (0x0F ∷ 0x7F ∷ replicate 127 0 ++ (0x04 ∷ [])) }
    ensures far { assembly_of (codes "BRANCH ALL,far\n" ++ times 128 (codes "NOP\n") ++ codes "far: EXIT\n")
        ≡ Err (1, FarBranch) }
{}

/// A branch reaches 128 bytes back from the place after it.
pub fn branch_back()
    ensures near { assembly_of (codes "far: EXIT\n" ++ times 125 (codes "NOP\n") ++ codes "BRANCH ALL,far\n")
        ≡ Ok (0x04 ∷ replicate 125 0 ++ (0x0F ∷ 0x80 ∷ [])) }
    ensures far { assembly_of (codes "far: EXIT\n" ++ times 126 (codes "NOP\n") ++ codes "BRANCH ALL,far\n")
        ≡ Err (128, FarBranch) }
{}

/// Code has at most 8,192 bytes.
pub fn longest_code()
    ensures { assembly_of (times 2731 (codes "PUSHW 0\n")) ≡ Err (2731, TooLong) }
{}

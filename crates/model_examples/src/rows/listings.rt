#![tactic(auto, unfolding(model_text::specs::Text::code_text_read, crate::specs::Written::listing))]

ghost use Rattle.std.specs.Prelude.{◌≡◌, ◌++◌, [], codes, replicate, length, Ok, Err};
ghost use Rattle.model_text.specs.Text.{code_text_read, BadHex, TooLarge};
ghost use Rattle.model_machine.specs.declared.instruction.DecodeFault.TheVariants.{Undefined, Past};
ghost use Rattle.model_examples.specs.Written.{hex, listing};

/// Code as text, and what is none.
pub fn code_texts()
    ensures empty { code_text_read [] ≡ Ok [] }
    ensures blanks { code_text_read (codes " \t\r\n\n") ≡ Ok [] }
    ensures cases { code_text_read (codes "aB cD\te\nF") ≡ Ok (hex (codes "ABCDEF")) }
    ensures bad_digit { code_text_read (codes "00\n0x00\n0") ≡ Err (BadHex 2) }
    ensures odd { code_text_read (codes "00\n0") ≡ Err (BadHex 2) }
    ensures odd_in_the_last_line { code_text_read (codes "0\n\n") ≡ Err (BadHex 2) }
    ensures odd_before_an_open_line { code_text_read (codes "0\n\n ") ≡ Err (BadHex 3) }
    ensures bad_digit_first { code_text_read (codes "0\ng") ≡ Err (BadHex 2) }
    ensures last_return { code_text_read (codes "00\r") ≡ Err (BadHex 1) }
{}

/// The longest code, and odd and long digits.
pub fn long_code_texts()
    ensures longest { code_text_read (replicate 16384 48) ≡ Ok (replicate 8192 0) }
    ensures too_long { code_text_read (replicate 16386 48) ≡ Err TooLarge }
    ensures odd_first { code_text_read (replicate 16385 48) ≡ Err (BadHex 1) }
{}

/// The counter's listing.
pub fn counter()
    ensures { listing (hex (codes "B90200003902000046020000060002"))
        ≡ Ok (codes "INCN SB[0],2\nLOAD SB[0],2\nSTORE PB[0],2\nEXITLA 0x0002\n") }
{}

/// A line of each form of operands.
pub fn each_form()
    ensures { listing (hex
        (codes "00 060002 0790000004 2105 220000 2F0101 0FFE 110004 10 2807 290302 B9020000 3F02FFFE 7803 8901020008 5B0004 58"))
        ≡ Ok (
        codes "NOP\nEXITLA 0x0002\nEXITSWLA 0x9000,0x0004\nPUSHB 5\nPUSHW 0x0000\nRETIO 1,1\n" ++
        codes "BRANCH ALL,-2\nJUMP EQ,0x0004\nJUMP\nPRIM 7\nPRIM 3,2\nINCN SB[0],2\nLOAD PT[-2],2\n" ++
        codes "ADDB 3\nSETW SB[8],0x0102\nLOADA DB[4]\nLOADA\n") }
{}

/// No code, a byte that begins no instruction, and an instruction that ends after the code.
pub fn no_listing()
    ensures empty { listing [] ≡ Ok [] }
    ensures undefined { listing (hex (codes "30")) ≡ Err (0, Undefined) }
    ensures past { listing (hex (codes "B902")) ≡ Err (0, Past) }
    ensures branch_without_condition { listing (hex (codes "0408")) ≡ Err (1, Undefined) }
    ensures undefined_behind { listing (hex (codes "060002230000")) ≡ Err (3, Undefined) }
{}

/// An instruction that ends after the code.
pub fn past_the_end()
    ensures digits { code_text_read (codes "93\r\n00017fffc18f566d605e6a")
        ≡ Ok (hex (codes "9300017FFFC18F566D605E6A")) }
    ensures lines { listing (hex (codes "9300017FFFC18F566D605E6A"))
        ≡ Err (11, Past) }
{}

/// Digits that blanks and line ends split anywhere.
pub fn thirty_instructions()
    ensures digits { code_text_read (
        codes "24003a8f00\n\n003\tc5\n\n5000097ffff\n\n000006000126\t2601ffff77020\n\n003\n\n2\n\n092f900\r\n" ++
        codes "ffff2c25880\r\n0\n\n02cf08ffffce03fff\n\nfb6117fff22\r\n00012eff\tbbff00017\r\n40\n" ++
        codes "20001fb027fffdc100001cf080001\taf02fff5af027fff07ec1b588467030001e\r\n308fffb7b10\t7fff")
        ≡ Ok (hex (
        codes "24003A8F00003C55000097FFFF0000060001262601FFFF770200032092F900FFFF2C25880002CF08FFFFCE03FFFFB611" ++
        codes "7FFF2200012EFFBBFF000174020001FB027FFFDC100001CF080001AF02FFF5AF027FFF07EC1B588467030001E308FFFB" ++
        codes "7B107FFF")) }
    ensures lines { listing (hex (
        codes "24003A8F00003C55000097FFFF0000060001262601FFFF770200032092F900FFFF2C25880002CF08FFFFCE03FFFFB611" ++
        codes "7FFF2200012EFFBBFF000174020001FB027FFFDC100001CF080001AF02FFF5AF027FFF07EC1B588467030001E308FFFB" ++
        codes "7B107FFF"))
        ≡ Ok (
        codes "POPN 0\nLOAD ST[0],143\nLOAD LB[0],85\nCMPW PT[0],0xFFFF\nEXITLA 0x0001\nPOPW\nPOPW\n" ++
        codes "SETSW 0xFFFF\nCMPB PT[3],2\nPUSHZ 146\nXORN SB[-1],0\nRET\nPOPB\nSETW 0x0002\nNOTN PT[-1],8\n" ++
        codes "NOTN PB[-1],3\nTESTN PB[32767],17\nPUSHW 0x0001\nRETO 255\nINCN DB[1],255\nCMPB LB[1],2\n" ++
        codes "XORN DB[32767],2\nADDN LB[1],16\nNOTN PT[1],8\nCLEARN PT[-11],2\nCLEARN PT[32767],2\n" ++
        codes "EXITSWLA 0xEC1B,0x5884\nINDEX PT[1],3\nSUBN DB[-5],8\nADDB DB[32767],16\n") }
{}

/// A letter that is no digit.
pub fn bad_digit()
    ensures { code_text_read (codes "g") ≡ Err (BadHex 1) }
{}

/// A zero byte is no digit.
pub fn bad_zero_byte()
    ensures { code_text_read (codes "\0") ≡ Err (BadHex 1) }
{}

/// A tab within a byte.
pub fn five_instructions()
    ensures digits { code_text_read (codes "3e0\t1fff90d19253f08ffff058000")
        ≡ Ok (hex (codes "3E01FFF90D19253F08FFFF058000")) }
    ensures lines { listing (hex (codes "3E01FFF90D19253F08FFFF058000"))
        ≡ Ok (codes "LOAD PB[-7],1\nBRANCH GE,25\nPOPB\nLOAD PT[-1],8\nEXITSW 0x8000\n") }
{}

/// An instruction that ends after the code, in many lines of digits in upper case.
pub fn past_the_end_of_many_lines()
    ensures digits { code_text_read (
        codes "8608000221010044FF7FFF2EC\n9CF03FFFF0\r\n1FFFF6410FFEE2E10200\t8220001\n058000\r\nC3\n0080\r\n" ++
        codes "000 50000AC0380001F000204 D401FFFF2F\r\n020EC6037FF\nF8710FFFF2\r\n103DDFF7FFF5C000005000004BA\r\n" ++
        codes "1000006501800062037FFF048\t38DDE45 E\n9")
        ≡ Ok (hex (
        codes "8608000221010044FF7FFF2EC9CF03FFFF01FFFF6410FFEE2E102008220001058000C3008000050000AC0380001F0002" ++
        codes "04D401FFFF2F020EC6037FFF8710FFFF2103DDFF7FFF5C000005000004BA1000006501800062037FFF04838DDE45E9")) }
    ensures lines { listing (hex (
        codes "8608000221010044FF7FFF2EC9CF03FFFF01FFFF6410FFEE2E102008220001058000C3008000050000AC0380001F0002" ++
        codes "04D401FFFF2F020EC6037FFF8710FFFF2103DDFF7FFF5C000005000004BA1000006501800062037FFF04838DDE45E9"))
        ≡ Err (94, Past) }
{}

/// Bytes that line ends split.
pub fn bytes_over_line_ends()
    ensures digits { code_text_read (codes "a\n\n4\r\n00\t02ffffa70001fff\t78d00\n010000e00324c0")
        ≡ Ok (hex (codes "A40002FFFFA70001FFF78D00010000E00324C0")) }
    ensures lines { listing (hex (codes "A40002FFFFA70001FFF78D00010000E00324C0"))
        ≡ Ok (codes "SUBW LB[-1],0x0002\nSUBW PT[-9],0x0001\nSETW DT[0],0x0001\nSUBN 3\nPOPN 192\n") }
{}

/// A bad character is refused at its line.
pub fn zero_byte_in_the_third_line()
    ensures { code_text_read (
        codes "ae0200007208000\r\n11180c48\r\n" ++
        codes "601\t7fff5a7fff6e107fffa70001fff46e10ffff\0020002b9ff8000a68000ffff2\t20001f c08fff7 2400190000751" ++
        codes "1fff0 2eff0004d603f\n\nfff010001f80100fbf57\tfff1b0002500804831100106b1\r\n10001fe00000090c4a4dc\n" ++
        codes "\n")
        ≡ Err (BadHex 3) }
{}

/// An offset of two bytes, and a negative displacement.
pub fn displacement_below_zero()
    ensures digits { code_text_read (codes "b108000a64e7\n7d\tc40bb1") ≡ Ok (hex (codes "B108000A64E77DC40BB1")) }
    ensures lines { listing (hex (codes "B108000A64E77DC40BB1"))
        ≡ Ok (codes "TESTN SB[10],8\nINDEX LB[32196],231\nBRANCH LE,-79\n") }
{}

/// An instruction that ends after the code, in many lines of digits in lower case.
pub fn past_the_end_of_lower_case()
    ensures digits { code_text_read (
        codes "7910ffff2801c0\n10c81121b9b30\n30001b3110000241138082\n\ne08\n4f01\n\n00012\r\ne0\n\n32d010\n\n" ++
        codes "7000200004a01ffff2002c3\r\n08f fff25010\n00\r\n1 2e01c5\r\n0\n0000\t1198000200\n\n1d610ffff5\r\n" ++
        codes "8c4ff80\n\n005b00007a110000d501fff387020000\n94e\n\n7d2\n\n")
        ≡ Ok (hex (
        codes "7910FFFF2801C010C81121B9B3030001B3110000241138082E084F0100012E032D0107000200004A01FFFF2002C308FF" ++
        codes "FF250100012E01C50000011980002001D610FFFF58C4FF80005B00007A110000D501FFF38702000094E7D2")) }
    ensures lines { listing (hex (
        codes "7910FFFF2801C010C81121B9B3030001B3110000241138082E084F0100012E032D0107000200004A01FFFF2002C308FF" ++
        codes "FF250100012E01C50000011980002001D610FFFF58C4FF80005B00007A110000D501FFF38702000094E7D2"))
        ≡ Err (88, Past) }
{}

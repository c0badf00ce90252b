#![tactic(auto, unfolding(model_text::specs::Assembly::assembly_of))]

ghost use Rattle.std.specs.Prelude.{◌≡◌, ◌++◌, [], codes, Ok, Err};
ghost use Rattle.model_text.specs.Assembly.{assembly_of};
ghost use Rattle.model_text.specs.declared.assembler.AsmCause.TheVariants.{BadNumber, LabelTwice};
ghost use Rattle.model_examples.specs.Written.{hex};

/// Words without a label, and no line feed at the end.
pub fn popped_word()
    ensures { assembly_of (codes "POPW\nEXITSWLA 0x0000,0x0002\nRETO 1 ") ≡ Ok (hex (codes "2607000000022E01")) }
{}

/// A carriage return at the end of the text is a character of the last operand.
pub fn return_at_the_end()
    ensures { assembly_of (codes "l0: BRANCH LE , l0;,:[\r\nPUSHB 0\r\nl2: CALL LE,l4\r") ≡ Err (3, BadNumber) }
{}

/// A label before a word without operands.
pub fn label_before_a_bare_call()
    ensures { assembly_of (codes "l4: CALL\nLOADI LB[0],255\nRET\n") ≡ Ok (hex (codes "184CFF00002C")) }
{}

/// A label that stands before a third line too.
pub fn label_given_twice()
    ensures { assembly_of (
        codes "l0: SUBN 216\nl1: SUBN DT[1],1\nl2: NOP\nl3: LOADI DT[-1],3\nEXITLA 0x0000 \nJUMP  LT  ,  l5\n" ++
        codes "SUBW DT[1],0x0001\nPOPB\nl0: BRANCH ALL,l4\nTESTN LB[-1],16\nDECN LB[-1] , 143 \nRETIO 3,3\nEXIT\n" ++
        codes "CLEARN 8\nPUSHW 0x8000\nANDN DB[-1],255\nl0: STORE PT[32767],126\nl1: ANDN 24\nSTORE DB[1],255\n" ++
        codes "INDEX LB[11],16\nLOADI DT[-2],255\nPUSHB 16\nJUMP NE,l5\nl7: TESTN SB[0],255\n" ++
        codes "l0: ADDW PT[-32768],0x0002\nCALL LT,l7\nl2: CALL GT,0x0001\nPUSHW 0x0002\nSTORE PB[-6],16\n" ++
        codes "TESTN DB[32767],3\nPOPW\nANDN ST[0],2\nANDN PB[32767],17\nl1: ADDW DT[0],0xFFFF\n" ++
        codes "SETSWLA 0xBE13,0xA315\nl3: LOAD DB[0],16\nBRANCH LT,l0\nANDN DB[32767],98\nl6: SUBB PT[6],16\n" ++
        codes "l7: ADDN SB[-1],17\n")
        ≡ Err (9, LabelTwice) }
{}

/// A label that was given before, in a text whose lines end with carriage returns.
pub fn label_given_twice_under_returns()
    ensures { assembly_of (
        codes "l0: JUMP ALL,0x0002\r\nl1:  SUBN  255 \r\nCALL\tLT\t,\tl7 ; c\r\nEXITSWLA 0x7F26,0x0001\r\n" ++
        codes "LOADI ST[-32768],3\r\nl5: EXIT\r\nl6: POPB\r\nSUBN ST[-32768],16\r\nLOAD  DB[32767]  ,  2 \r\n" ++
        codes "RETIO 3,17\r\nNOP\r\nSUBW DB[5],0x8000\r\nEXITSW 0x24A7\r\nSTORE PB[-16],3\r\n" ++
        codes "ADDW DB[-32768],0x8000\r\nRETIO 2,3\r\nl0: PUSHB 16\r\nRETO 255\r\nl2:\tJUMP\r\nCMPN 1\r\n" ++
        codes "PUSHZ 16\r\nPUSHW 0x0002\r\nEXITSW 0x1B12\r\nl7: ADDW DT[-32768],0x8000\r\nBRANCH ALL,l6\r\n" ++
        codes "PUSHB 17\r\nPUSHB 0x100\r\nSUBW  ST[1]  ,  0x0001;,:[\r\nPOPN 1\r\nPOPN 16\r\nCALL LT,l1\r\n" ++
        codes "CLEARN SB[32767],16\r\nADDW ST[-1] , 0x8000 \r\nCLEARN SB[-32768],1\r\n" ++
        codes "SUBN  PT[-15]  ,  81;,:[\r\nRETIO 1,1\r\nTESTN DT[-32768],16\r\nl4: LOADA ST[0]\r\n" ++
        codes "ORN ST[-5],0\r\nINCN DT[0],8\r\nPOPN 17\n\n")
        ≡ Err (17, LabelTwice) }
{}

/// A line far down is refused at its own number.
pub fn number_of_one_line_of_seventy()
    ensures { assembly_of (
        codes "CMPB PT[-12],1\r\nJUMP NE,no0\r\nPUSHW 0\r\nPRIM 7\r\nPUSHW 255\r\nPUSHW 0xC000\r\nPUSHW 49152\r\n" ++
        codes "PRIM 9\r\nPUSHW 0\r\nPUSHW 0xC000\r\nPUSHW 49152\r\nPRIM 9\r\nEXIT\r\nno0: NOP\r\n" ++
        codes "CMPB PT[-12],2\r\nJUMP NE,no1\r\nINCN DB[0],1\r\nLOAD DB[0],1\r\nSTORE PB[0],1\r\nPRIM 3,3\r\n" ++
        codes "SETB SB[3],62\r\nLOAD PB[0],8\r\nSTORE SB[0],8\r\nINCN SB[0],8\r\nPRIM 3,3\r\nCMPB SB[3],176\r\n" ++
        codes "LOAD SB[0],4\r\nSTORE PB[0],4\r\nEXITSW 0x6A80\r\nno1: NOP\r\nCMPB PT[-12],3\r\nJUMP NE,no2\r\n" ++
        codes "INCN DB[0],1\r\nLOAD DB[0],1\r\nSTORE PB[0],1\r\nPUSHW 0\r\nPRIM 7\r\nLOAD PT[-2],2\r\n" ++
        codes "STORE PB[1],2\r\nINCN SB[0],9\r\nEXITLA 4\r\nno2: NOP\r\nCMPB PT[-12],4\r\nJUMP NE,no3\r\n" ++
        codes "PUSHW 0\r\nPRIM 7\r\nPRIM 3,2\r\nSETW SB[0],0x1C9B\r\nINCN SB[0],4\r\nSETB SB[3],202\r\n" ++
        codes "INCN SB[0],4\r\nINCN SB[0],4\r\nPRIM 3,1\r\nCLEARN SB[0],4\r\nPRIM 3,3\r\nINCN SB[0],8\r\n" ++
        codes "LOAD PB[0],8\r\nSTORE SB[0],8\r\nSETSWLA 0x6581,1025\r\nPUSHW 3\r\nPUSHW 0xC000\r\nPUSHW 49152\r\n" ++
        codes "PRIM 9\r\nEXITSWLA 0x9001,3\r\nno3: NOP\r\nPUSHW 0\r\nPRIM 7\r\nLOAD PT[-2],2\r\nSTORE PB[5],2\r\n" ++
        codes "EXITLA 2\r")
        ≡ Err (70, BadNumber) }
{}

/// Blanks around the operands.
pub fn blanks_around_commas()
    ensures { assembly_of (codes "NOP\nCALL GT,0x0001\nCMPW  LB[-1]  ,  0x8A12\n\n")
        ≡ Ok (hex (codes "001C0001948A12FFFF")) }
{}

/// A byte has no sign, and the first refused line counts.
pub fn negative_zero_for_a_byte()
    ensures { assembly_of (codes "PUSHB -0\nINCN SB[ 0 ],1") ≡ Err (1, BadNumber) }
{}

/// Five hexadecimal digits are no number, and the first refused line counts.
pub fn five_hexadecimal_digits()
    ensures { assembly_of (codes "PUSHW 0x12345\nEXITSWLA 0x0000,0x2716\nRETIO 1,\n\n") ≡ Err (1, BadNumber) }
{}

/// The lowest offset, and no line feed at the end.
pub fn lowest_offset()
    ensures { assembly_of (codes "TESTN ST[0],255\nRETI 1\nORN SB[-32768],8")
        ≡ Ok (hex (codes "B2FF00002D01F1088000")) }
{}

/// A carriage return at the end of the only line is a character of its operand.
pub fn return_in_an_operand()
    ensures { assembly_of (codes "l0: RETIO 1,17\r") ≡ Err (1, BadNumber) }
{}

// Worked rows: each instruction once as bytes and as text, written down from the table of the machine by hand.
ghost use Rattle.std.specs.Prelude.{◌≡◌, [], ◌∷◌, ◌++◌, codes, length, pos, negsuc, ℕ, Result};
ghost use Rattle.model_text.specs.model_machine.specs.Code.{instruction_at, spell};
ghost use Rattle.model_text.specs.Listing.{listing_of_code, text_of};
ghost use Rattle.mc_isa.specs.Lengths.{lengths};
ghost use Rattle.model_text.specs.model_machine.specs.declared.instruction.DecodeFault.TheVariants.{Past, Undefined};
ghost use Rattle.model_text.specs.model_machine.specs.declared.instruction.Ins.TheVariants.{Nop, Setsw, Setla, Setswla, Exit, Exitsw, Exitla, Exitswla, Branch, Jump, Call, Pushz, Pushb, Pushw, Popn, Popb, Popw, Prim, Ret, Reti, Reto, Retio, Load, Store, Loadi, Storei, Loada, Index, Setb, Cmpb, Addb, Subb, Setw, Cmpw, Addw, Subw, Clearn, Testn, Incn, Decn, Notn, Cmpn, Addn, Subn, Andn, Orn, Xorn};

/// The registers, branches, jumps and calls. As bytes.
pub fn control_rows_as_bytes()
    ensures row_1 { instruction_at (0x00 ∷ []) 0 ≡ Ok (Nop, 1) }
    ensures row_2 { instruction_at (0x01 ∷ 0x6A ∷ 0x82 ∷ []) 0 ≡ Ok (Setsw 0x6A82, 3) }
    ensures row_3 { instruction_at (0x02 ∷ 0x00 ∷ 0x10 ∷ []) 0 ≡ Ok (Setla 0x0010, 3) }
    ensures row_4 { instruction_at (0x03 ∷ 0x90 ∷ 0x00 ∷ 0x00 ∷ 0x04 ∷ []) 0 ≡ Ok (Setswla 0x9000 0x0004, 5) }
    ensures row_5 { instruction_at (0x04 ∷ []) 0 ≡ Ok (Exit, 1) }
    ensures row_6 { instruction_at (0x05 ∷ 0x69 ∷ 0x85 ∷ []) 0 ≡ Ok (Exitsw 0x6985, 3) }
    ensures row_7 { instruction_at (0x06 ∷ 0x00 ∷ 0x02 ∷ []) 0 ≡ Ok (Exitla 0x0002, 3) }
    ensures row_8 { instruction_at (0x07 ∷ 0x90 ∷ 0x00 ∷ 0x00 ∷ 0x04 ∷ []) 0 ≡ Ok (Exitswla 0x9000 0x0004, 5) }
    ensures row_9 { instruction_at (0x0F ∷ 0xFE ∷ []) 0 ≡ Ok (Branch 7 (negsuc 1), 2) }
    ensures row_10 { instruction_at (0x11 ∷ 0x00 ∷ 0x04 ∷ []) 0 ≡ Ok (Jump 1 0x0004, 3) }
    ensures row_11 { instruction_at (0x10 ∷ []) 0 ≡ Ok (Jump 0 0, 1) }
    ensures row_12 { instruction_at (0x1E ∷ 0x1F ∷ 0xFF ∷ []) 0 ≡ Ok (Call 6 0x1FFF, 3) }
    ensures row_13 { instruction_at (0x18 ∷ []) 0 ≡ Ok (Call 0 0, 1) }
{}

/// The registers, branches, jumps and calls. As text.
pub fn control_rows_as_text()
    ensures row_1 { text_of Nop ≡ codes "NOP" }
    ensures row_2 { text_of (Setsw 0x6A82) ≡ codes "SETSW 0x6A82" }
    ensures row_3 { text_of (Setla 0x0010) ≡ codes "SETLA 0x0010" }
    ensures row_4 { text_of (Setswla 0x9000 0x0004) ≡ codes "SETSWLA 0x9000,0x0004" }
    ensures row_5 { text_of Exit ≡ codes "EXIT" }
    ensures row_6 { text_of (Exitsw 0x6985) ≡ codes "EXITSW 0x6985" }
    ensures row_7 { text_of (Exitla 0x0002) ≡ codes "EXITLA 0x0002" }
    ensures row_8 { text_of (Exitswla 0x9000 0x0004) ≡ codes "EXITSWLA 0x9000,0x0004" }
    ensures row_9 { text_of (Branch 7 (negsuc 1)) ≡ codes "BRANCH ALL,-2" }
    ensures row_10 { text_of (Jump 1 0x0004) ≡ codes "JUMP EQ,0x0004" }
    ensures row_11 { text_of (Jump 0 0) ≡ codes "JUMP" }
    ensures row_12 { text_of (Call 6 0x1FFF) ≡ codes "CALL NE,0x1FFF" }
    ensures row_13 { text_of (Call 0 0) ≡ codes "CALL" }
{}

/// Pushes, pops, primitives and returns. As bytes.
pub fn stack_rows_as_bytes()
    ensures row_1 { instruction_at (0x20 ∷ 0xFF ∷ []) 0 ≡ Ok (Pushz 255, 2) }
    ensures row_2 { instruction_at (0x21 ∷ 0x05 ∷ []) 0 ≡ Ok (Pushb 5, 2) }
    ensures row_3 { instruction_at (0x22 ∷ 0x00 ∷ 0x00 ∷ []) 0 ≡ Ok (Pushw 0, 3) }
    ensures row_4 { instruction_at (0x24 ∷ 0x0A ∷ []) 0 ≡ Ok (Popn 10, 2) }
    ensures row_5 { instruction_at (0x25 ∷ []) 0 ≡ Ok (Popb, 1) }
    ensures row_6 { instruction_at (0x26 ∷ []) 0 ≡ Ok (Popw, 1) }
    ensures row_7 { instruction_at (0x28 ∷ 0x07 ∷ []) 0 ≡ Ok (Prim 0 7 (0 ∷ 0 ∷ 0 ∷ []), 2) }
    ensures row_8 { instruction_at (0x29 ∷ 0x03 ∷ 0x02 ∷ []) 0 ≡ Ok (Prim 1 3 (2 ∷ 0 ∷ 0 ∷ []), 3) }
    ensures row_9 { instruction_at (0x2B ∷ 0x01 ∷ 0x00 ∷ 0x80 ∷ 0x01 ∷ []) 0 ≡ Ok (Prim 3 1 (0 ∷ 128 ∷ 1 ∷ []), 5) }
    ensures row_10 { instruction_at (0x2C ∷ []) 0 ≡ Ok (Ret, 1) }
    ensures row_11 { instruction_at (0x2D ∷ 0x04 ∷ []) 0 ≡ Ok (Reti 4, 2) }
    ensures row_12 { instruction_at (0x2E ∷ 0x02 ∷ []) 0 ≡ Ok (Reto 2, 2) }
    ensures row_13 { instruction_at (0x2F ∷ 0x01 ∷ 0x02 ∷ []) 0 ≡ Ok (Retio 1 2, 3) }
{}

/// Pushes, pops, primitives and returns. As text.
pub fn stack_rows_as_text()
    ensures row_1 { text_of (Pushz 255) ≡ codes "PUSHZ 255" }
    ensures row_2 { text_of (Pushb 5) ≡ codes "PUSHB 5" }
    ensures row_3 { text_of (Pushw 0) ≡ codes "PUSHW 0x0000" }
    ensures row_4 { text_of (Popn 10) ≡ codes "POPN 10" }
    ensures row_5 { text_of Popb ≡ codes "POPB" }
    ensures row_6 { text_of Popw ≡ codes "POPW" }
    ensures row_7 { text_of (Prim 0 7 (0 ∷ 0 ∷ 0 ∷ [])) ≡ codes "PRIM 7" }
    ensures row_8 { text_of (Prim 1 3 (2 ∷ 0 ∷ 0 ∷ [])) ≡ codes "PRIM 3,2" }
    ensures row_9 { text_of (Prim 3 1 (0 ∷ 128 ∷ 1 ∷ [])) ≡ codes "PRIM 1,0,128,1" }
    ensures row_10 { text_of Ret ≡ codes "RET" }
    ensures row_11 { text_of (Reti 4) ≡ codes "RETI 4" }
    ensures row_12 { text_of (Reto 2) ≡ codes "RETO 2" }
    ensures row_13 { text_of (Retio 1 2) ≡ codes "RETIO 1,2" }
{}

/// Ops 07 to 14. As bytes.
pub fn addressed_rows_as_bytes()
    ensures row_1 { instruction_at (0x3F ∷ 0x02 ∷ 0xFF ∷ 0xFE ∷ []) 0 ≡ Ok (Load 7 (negsuc 1) 2, 4) }
    ensures row_2 { instruction_at (0x46 ∷ 0x02 ∷ 0x00 ∷ 0x00 ∷ []) 0 ≡ Ok (Store 6 (pos 0) 2, 4) }
    ensures row_3 { instruction_at (0x4C ∷ 0x01 ∷ 0xFF ∷ 0xF8 ∷ []) 0 ≡ Ok (Loadi 4 (negsuc 7) 1, 4) }
    ensures row_4 { instruction_at (0x50 ∷ 0x03 ∷ []) 0 ≡ Ok (Storei 0 (pos 0) 3, 2) }
    ensures row_5 { instruction_at (0x5B ∷ 0x00 ∷ 0x04 ∷ []) 0 ≡ Ok (Loada 3 (pos 4), 3) }
    ensures row_6 { instruction_at (0x58 ∷ []) 0 ≡ Ok (Loada 0 (pos 0), 1) }
    ensures row_7 { instruction_at (0x61 ∷ 0x00 ∷ 0x00 ∷ 0x10 ∷ []) 0 ≡ Ok (Index 1 (pos 16) 0, 4) }
    ensures row_8 { instruction_at (0x6A ∷ 0xAA ∷ 0xFF ∷ 0xFF ∷ []) 0 ≡ Ok (Setb 2 (negsuc 0) 170, 4) }
    ensures row_9 { instruction_at (0x75 ∷ 0x09 ∷ 0xFF ∷ 0xFC ∷ []) 0 ≡ Ok (Cmpb 5 (negsuc 3) 9, 4) }
    ensures row_10 { instruction_at (0x78 ∷ 0x03 ∷ []) 0 ≡ Ok (Addb 0 (pos 0) 3, 2) }
    ensures row_11 { instruction_at (0x81 ∷ 0x01 ∷ 0x7F ∷ 0xFF ∷ []) 0 ≡ Ok (Subb 1 (pos 32767) 1, 4) }
    ensures row_12 { instruction_at (0x89 ∷ 0x01 ∷ 0x02 ∷ 0x00 ∷ 0x08 ∷ []) 0 ≡ Ok (Setw 1 (pos 8) 0x0102, 5) }
    ensures row_13 { instruction_at (0x90 ∷ 0xAB ∷ 0xCD ∷ []) 0 ≡ Ok (Cmpw 0 (pos 0) 0xABCD, 3) }
    ensures row_14 { instruction_at (0x9E ∷ 0x00 ∷ 0xFF ∷ 0x80 ∷ 0x00 ∷ []) 0 ≡ Ok (Addw 6 (negsuc 32767) 0x00FF, 5) }
    ensures row_15 { instruction_at (0xA0 ∷ 0x00 ∷ 0x01 ∷ []) 0 ≡ Ok (Subw 0 (pos 0) 1, 3) }
{}

/// Ops 07 to 14. As text.
pub fn addressed_rows_as_text()
    ensures row_1 { text_of (Load 7 (negsuc 1) 2) ≡ codes "LOAD PT[-2],2" }
    ensures row_2 { text_of (Store 6 (pos 0) 2) ≡ codes "STORE PB[0],2" }
    ensures row_3 { text_of (Loadi 4 (negsuc 7) 1) ≡ codes "LOADI LB[-8],1" }
    ensures row_4 { text_of (Storei 0 (pos 0) 3) ≡ codes "STOREI 3" }
    ensures row_5 { text_of (Loada 3 (pos 4)) ≡ codes "LOADA DB[4]" }
    ensures row_6 { text_of (Loada 0 (pos 0)) ≡ codes "LOADA" }
    ensures row_7 { text_of (Index 1 (pos 16) 0) ≡ codes "INDEX SB[16],0" }
    ensures row_8 { text_of (Setb 2 (negsuc 0) 170) ≡ codes "SETB ST[-1],170" }
    ensures row_9 { text_of (Cmpb 5 (negsuc 3) 9) ≡ codes "CMPB DT[-4],9" }
    ensures row_10 { text_of (Addb 0 (pos 0) 3) ≡ codes "ADDB 3" }
    ensures row_11 { text_of (Subb 1 (pos 32767) 1) ≡ codes "SUBB SB[32767],1" }
    ensures row_12 { text_of (Setw 1 (pos 8) 0x0102) ≡ codes "SETW SB[8],0x0102" }
    ensures row_13 { text_of (Cmpw 0 (pos 0) 0xABCD) ≡ codes "CMPW 0xABCD" }
    ensures row_14 { text_of (Addw 6 (negsuc 32767) 0x00FF) ≡ codes "ADDW PB[-32768],0x00FF" }
    ensures row_15 { text_of (Subw 0 (pos 0) 1) ≡ codes "SUBW 0x0001" }
{}

/// Ops 15 to 1F. As bytes.
pub fn blocks_rows_as_bytes()
    ensures row_1 { instruction_at (0xAB ∷ 0x08 ∷ 0x00 ∷ 0x00 ∷ []) 0 ≡ Ok (Clearn 3 (pos 0) 8, 4) }
    ensures row_2 { instruction_at (0xB0 ∷ 0x00 ∷ []) 0 ≡ Ok (Testn 0 (pos 0) 0, 2) }
    ensures row_3 { instruction_at (0xB9 ∷ 0x02 ∷ 0x00 ∷ 0x00 ∷ []) 0 ≡ Ok (Incn 1 (pos 0) 2, 4) }
    ensures row_4 { instruction_at (0xC0 ∷ 0x10 ∷ []) 0 ≡ Ok (Decn 0 (pos 0) 16, 2) }
    ensures row_5 { instruction_at (0xC8 ∷ 0x04 ∷ []) 0 ≡ Ok (Notn 0 (pos 0) 4, 2) }
    ensures row_6 { instruction_at (0xD1 ∷ 0x04 ∷ 0x01 ∷ 0x00 ∷ []) 0 ≡ Ok (Cmpn 1 (pos 256) 4, 4) }
    ensures row_7 { instruction_at (0xD9 ∷ 0x04 ∷ 0x00 ∷ 0x00 ∷ []) 0 ≡ Ok (Addn 1 (pos 0) 4, 4) }
    ensures row_8 { instruction_at (0xE0 ∷ 0x04 ∷ []) 0 ≡ Ok (Subn 0 (pos 0) 4, 2) }
    ensures row_9 { instruction_at (0xEA ∷ 0x01 ∷ 0x00 ∷ 0x00 ∷ []) 0 ≡ Ok (Andn 2 (pos 0) 1, 4) }
    ensures row_10 { instruction_at (0xF0 ∷ 0x01 ∷ []) 0 ≡ Ok (Orn 0 (pos 0) 1, 2) }
    ensures row_11 { instruction_at (0xFF ∷ 0x11 ∷ 0xFF ∷ 0xEF ∷ []) 0 ≡ Ok (Xorn 7 (negsuc 16) 17, 4) }
{}

/// Ops 15 to 1F. As text.
pub fn blocks_rows_as_text()
    ensures row_1 { text_of (Clearn 3 (pos 0) 8) ≡ codes "CLEARN DB[0],8" }
    ensures row_2 { text_of (Testn 0 (pos 0) 0) ≡ codes "TESTN 0" }
    ensures row_3 { text_of (Incn 1 (pos 0) 2) ≡ codes "INCN SB[0],2" }
    ensures row_4 { text_of (Decn 0 (pos 0) 16) ≡ codes "DECN 16" }
    ensures row_5 { text_of (Notn 0 (pos 0) 4) ≡ codes "NOTN 4" }
    ensures row_6 { text_of (Cmpn 1 (pos 256) 4) ≡ codes "CMPN SB[256],4" }
    ensures row_7 { text_of (Addn 1 (pos 0) 4) ≡ codes "ADDN SB[0],4" }
    ensures row_8 { text_of (Subn 0 (pos 0) 4) ≡ codes "SUBN 4" }
    ensures row_9 { text_of (Andn 2 (pos 0) 1) ≡ codes "ANDN ST[0],1" }
    ensures row_10 { text_of (Orn 0 (pos 0) 1) ≡ codes "ORN 1" }
    ensures row_11 { text_of (Xorn 7 (negsuc 16) 17) ≡ codes "XORN PT[-17],17" }
{}

/// Bytes that begin no instruction, also as the last byte of the code.
pub fn undefined_bytes()
    ensures byte_08 { instruction_at (0x08 ∷ []) 0 ≡ Err Undefined }
    ensures byte_23 { instruction_at (0x23 ∷ []) 0 ≡ Err Undefined }
    ensures byte_27 { instruction_at (0x27 ∷ []) 0 ≡ Err Undefined }
    ensures byte_30 { instruction_at (0x30 ∷ []) 0 ≡ Err Undefined }
    ensures byte_31 { instruction_at (0x31 ∷ []) 0 ≡ Err Undefined }
    ensures byte_32 { instruction_at (0x32 ∷ []) 0 ≡ Err Undefined }
    ensures byte_33 { instruction_at (0x33 ∷ []) 0 ≡ Err Undefined }
    ensures byte_34 { instruction_at (0x34 ∷ []) 0 ≡ Err Undefined }
    ensures byte_35 { instruction_at (0x35 ∷ []) 0 ≡ Err Undefined }
    ensures byte_36 { instruction_at (0x36 ∷ []) 0 ≡ Err Undefined }
    ensures byte_37 { instruction_at (0x37 ∷ []) 0 ≡ Err Undefined }
{}

/// An instruction cut short at each length, a place after the code, and code in which the second instruction
/// is cut.
pub fn code_that_ends_too_early()
    ensures cut_1 { instruction_at (0x89 ∷ []) 0 ≡ Err Past }
    ensures cut_2 { instruction_at (0x89 ∷ 0x01 ∷ []) 0 ≡ Err Past }
    ensures cut_3 { instruction_at (0x89 ∷ 0x01 ∷ 0x02 ∷ []) 0 ≡ Err Past }
    ensures cut_4 { instruction_at (0x89 ∷ 0x01 ∷ 0x02 ∷ 0x00 ∷ []) 0 ≡ Err Past }
    ensures cut_5 { instruction_at (0x2B ∷ []) 0 ≡ Err Past }
    ensures cut_6 { instruction_at (0x2B ∷ 0x01 ∷ []) 0 ≡ Err Past }
    ensures cut_7 { instruction_at (0x2B ∷ 0x01 ∷ 0x00 ∷ []) 0 ≡ Err Past }
    ensures cut_8 { instruction_at (0x2B ∷ 0x01 ∷ 0x00 ∷ 0x80 ∷ []) 0 ≡ Err Past }
    ensures cut_9 { instruction_at (0x03 ∷ []) 0 ≡ Err Past }
    ensures cut_10 { instruction_at (0x03 ∷ 0x90 ∷ []) 0 ≡ Err Past }
    ensures cut_11 { instruction_at (0x03 ∷ 0x90 ∷ 0x00 ∷ []) 0 ≡ Err Past }
    ensures cut_12 { instruction_at (0x03 ∷ 0x90 ∷ 0x00 ∷ 0x00 ∷ []) 0 ≡ Err Past }
    ensures cut_13 { instruction_at (0x0F ∷ []) 0 ≡ Err Past }
    ensures empty { instruction_at [] 0 ≡ Err Past }
    ensures behind { instruction_at (0x00 ∷ []) 1 ≡ Err Past }
    ensures far { instruction_at (0x00 ∷ []) 65535 ≡ Err Past }
    ensures second { instruction_at (0x04 ∷ 0x22 ∷ 0x01 ∷ []) 1 ≡ Err Past }
    ensures last { instruction_at (0x22 ∷ 0x01 ∷ 0x04 ∷ []) 2 ≡ Ok (Exit, 3) }
{}

/// The listing of a counter's code, and the first place that begins no instruction.
pub fn listings()
    ensures counter { listing_of_code (0xB9 ∷ 0x02 ∷ 0x00 ∷ 0x00 ∷ 0x39 ∷ 0x02 ∷ 0x00 ∷ 0x00 ∷ 0x46 ∷ 0x02 ∷ 0x00 ∷ 0x00
        ∷ 0x06
        ∷ 0x00 ∷ 0x02 ∷ []) ≡ Ok (codes "INCN SB[0],2\nLOAD SB[0],2\nSTORE PB[0],2\nEXITLA 0x0002\n") }
    ensures empty { listing_of_code [] ≡ Ok [] }
    ensures undefined { listing_of_code (0x00 ∷ 0x21 ∷ 0x05 ∷ 0x30 ∷ 0x00 ∷ []) ≡ Err (3, Undefined) }
    ensures past { listing_of_code (0x04 ∷ 0x22 ∷ 0x00 ∷ []) ≡ Err (1, Past) }
{}

/// The length of the instruction of each of the 256 instruction bytes, by op and tag; 0 if the byte begins
/// none.
pub fn lengths_of_all_instruction_bytes()
    ensures op_00 { lengths 0x00 ≡ 1 ∷ 3 ∷ 3 ∷ 5 ∷ 1 ∷ 3 ∷ 3 ∷ 5 ∷ [] }
    ensures op_01 { lengths 0x01 ≡ 0 ∷ 2 ∷ 2 ∷ 2 ∷ 2 ∷ 2 ∷ 2 ∷ 2 ∷ [] }
    ensures op_02 { lengths 0x02 ≡ 1 ∷ 3 ∷ 3 ∷ 3 ∷ 3 ∷ 3 ∷ 3 ∷ 3 ∷ [] }
    ensures op_03 { lengths 0x03 ≡ 1 ∷ 3 ∷ 3 ∷ 3 ∷ 3 ∷ 3 ∷ 3 ∷ 3 ∷ [] }
    ensures op_04 { lengths 0x04 ≡ 2 ∷ 2 ∷ 3 ∷ 0 ∷ 2 ∷ 1 ∷ 1 ∷ 0 ∷ [] }
    ensures op_05 { lengths 0x05 ≡ 2 ∷ 3 ∷ 4 ∷ 5 ∷ 1 ∷ 2 ∷ 2 ∷ 3 ∷ [] }
    ensures op_06 { lengths 0x06 ≡ 0 ∷ 0 ∷ 0 ∷ 0 ∷ 0 ∷ 0 ∷ 0 ∷ 0 ∷ [] }
    ensures op_07 { lengths 0x07 ≡ 2 ∷ 4 ∷ 4 ∷ 4 ∷ 4 ∷ 4 ∷ 4 ∷ 4 ∷ [] }
    ensures op_08 { lengths 0x08 ≡ 2 ∷ 4 ∷ 4 ∷ 4 ∷ 4 ∷ 4 ∷ 4 ∷ 4 ∷ [] }
    ensures op_09 { lengths 0x09 ≡ 2 ∷ 4 ∷ 4 ∷ 4 ∷ 4 ∷ 4 ∷ 4 ∷ 4 ∷ [] }
    ensures op_0A { lengths 0x0A ≡ 2 ∷ 4 ∷ 4 ∷ 4 ∷ 4 ∷ 4 ∷ 4 ∷ 4 ∷ [] }
    ensures op_0B { lengths 0x0B ≡ 1 ∷ 3 ∷ 3 ∷ 3 ∷ 3 ∷ 3 ∷ 3 ∷ 3 ∷ [] }
    ensures op_0C { lengths 0x0C ≡ 2 ∷ 4 ∷ 4 ∷ 4 ∷ 4 ∷ 4 ∷ 4 ∷ 4 ∷ [] }
    ensures op_0D { lengths 0x0D ≡ 2 ∷ 4 ∷ 4 ∷ 4 ∷ 4 ∷ 4 ∷ 4 ∷ 4 ∷ [] }
    ensures op_0E { lengths 0x0E ≡ 2 ∷ 4 ∷ 4 ∷ 4 ∷ 4 ∷ 4 ∷ 4 ∷ 4 ∷ [] }
    ensures op_0F { lengths 0x0F ≡ 2 ∷ 4 ∷ 4 ∷ 4 ∷ 4 ∷ 4 ∷ 4 ∷ 4 ∷ [] }
    ensures op_10 { lengths 0x10 ≡ 2 ∷ 4 ∷ 4 ∷ 4 ∷ 4 ∷ 4 ∷ 4 ∷ 4 ∷ [] }
    ensures op_11 { lengths 0x11 ≡ 3 ∷ 5 ∷ 5 ∷ 5 ∷ 5 ∷ 5 ∷ 5 ∷ 5 ∷ [] }
    ensures op_12 { lengths 0x12 ≡ 3 ∷ 5 ∷ 5 ∷ 5 ∷ 5 ∷ 5 ∷ 5 ∷ 5 ∷ [] }
    ensures op_13 { lengths 0x13 ≡ 3 ∷ 5 ∷ 5 ∷ 5 ∷ 5 ∷ 5 ∷ 5 ∷ 5 ∷ [] }
    ensures op_14 { lengths 0x14 ≡ 3 ∷ 5 ∷ 5 ∷ 5 ∷ 5 ∷ 5 ∷ 5 ∷ 5 ∷ [] }
    ensures op_15 { lengths 0x15 ≡ 2 ∷ 4 ∷ 4 ∷ 4 ∷ 4 ∷ 4 ∷ 4 ∷ 4 ∷ [] }
    ensures op_16 { lengths 0x16 ≡ 2 ∷ 4 ∷ 4 ∷ 4 ∷ 4 ∷ 4 ∷ 4 ∷ 4 ∷ [] }
    ensures op_17 { lengths 0x17 ≡ 2 ∷ 4 ∷ 4 ∷ 4 ∷ 4 ∷ 4 ∷ 4 ∷ 4 ∷ [] }
    ensures op_18 { lengths 0x18 ≡ 2 ∷ 4 ∷ 4 ∷ 4 ∷ 4 ∷ 4 ∷ 4 ∷ 4 ∷ [] }
    ensures op_19 { lengths 0x19 ≡ 2 ∷ 4 ∷ 4 ∷ 4 ∷ 4 ∷ 4 ∷ 4 ∷ 4 ∷ [] }
    ensures op_1A { lengths 0x1A ≡ 2 ∷ 4 ∷ 4 ∷ 4 ∷ 4 ∷ 4 ∷ 4 ∷ 4 ∷ [] }
    ensures op_1B { lengths 0x1B ≡ 2 ∷ 4 ∷ 4 ∷ 4 ∷ 4 ∷ 4 ∷ 4 ∷ 4 ∷ [] }
    ensures op_1C { lengths 0x1C ≡ 2 ∷ 4 ∷ 4 ∷ 4 ∷ 4 ∷ 4 ∷ 4 ∷ 4 ∷ [] }
    ensures op_1D { lengths 0x1D ≡ 2 ∷ 4 ∷ 4 ∷ 4 ∷ 4 ∷ 4 ∷ 4 ∷ 4 ∷ [] }
    ensures op_1E { lengths 0x1E ≡ 2 ∷ 4 ∷ 4 ∷ 4 ∷ 4 ∷ 4 ∷ 4 ∷ 4 ∷ [] }
    ensures op_1F { lengths 0x1F ≡ 2 ∷ 4 ∷ 4 ∷ 4 ∷ 4 ∷ 4 ∷ 4 ∷ 4 ∷ [] }
{}

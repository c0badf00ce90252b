#![tactic(auto, unfolding(crate::specs::Computed::listing, crate::specs::Computed::check, crate::specs::Computed::trace, crate::specs::Computed::cover))]

// What is listed, checked, traced and counted where a whole draft does not show it.
ghost use Rattle.std.specs.Prelude.{◌≡◌, ◌∷◌, ◌++◌, [], codes, Ok, Err};
ghost use Rattle.mc_text.specs.model_text.specs.declared.assembler.AsmCause.TheVariants.{UnknownWord};
ghost use Rattle.mc_text.specs.model_text.specs.declared.checker.CheckCause.TheVariants.{Past, Under};
ghost use Rattle.mc_deck.specs.model_play.specs.declared.deck.DeckCause.TheVariants.{Asm, BadName, NoEnd};
ghost use Rattle.desk_draft.specs.Computed.{check, cover, listing, trace};

/// Lines without code are not listed, raw bytes are, and each section has its sizes.
pub fn listed_sections()
    ensures two { listing (codes "app a A000000100\nDATA 0102\n\nl:\n BYTE 255 ; raw\n\tl2: NOP \t; c\nend\n" ++
        codes "app b a000000101\nSESSION s 2\n EXIT\nend\n")
        ≡ Ok (codes "app a A000000100 code 2 static 2 session 0\n0000 FF 5 BYTE 255\n0001 00 6 l2: NOP\n" ++
        codes "app b a000000101 code 1 static 0 session 2\n0000 04 10 EXIT\n") }
    ensures none { listing (codes "format\n") ≡ Ok [] }
{}

/// A draft is refused first, and then its deck, by the same number of the line.
pub fn refused_decks()
    ensures draft { listing (codes "app a A000000100\n FOO\nCONST 1x 1\nend\n") ≡ Err (3, BadName) }
    ensures deck { listing (codes "app a A000000100\nCONST x 1\n FOO\nend\n") ≡ Err (3, Asm UnknownWord) }
    ensures open { listing (codes "app a A000000100\n NOP\n") ≡ Err (1, NoEnd) }
{}

/// The source line of a place that is refused: none where no line has the byte there, or a unit is loaded.
pub fn refused_code()
    ensures lines { check (
        (5, Err (1, Under)) ∷ (6, Err (2, Past)) ∷ (8, Err (0, Under)) ∷ (9, Err (0, Under)) ∷ [])
        (codes "app a A000000100\n NOP\n POPB   ; nothing there\nend\nload a\nload a 0 0\n" ++
        codes "unit b 00000000000000000001250000000961074F05A00000000100096F078405A00000000100000000\nload b 0 0\n\n")
        ≡ Ok (codes "5 refuse 1 Under ; 3 POPB\n6 refuse 2 Past\n8 refuse 0 Under\n9 refuse 0 Under\n") }
{}

/// A turn that abends in its fetch has its source line, if a line has that byte, and does not count.
pub fn fetch_abends()
    ensures undefined { trace (codes "format\npower\napp a A000000100\n BYTE 35\nend\nload a\nselect a\n" ++
        codes "apdu 80000000\n")
        ≡ Ok (codes "1 formatted\n2 ready 0\n6 9000\n7 9000\n> 1 0000 ? 8000 00 ; 4 BYTE 35 ; - -\n8 abend 01\n") }
    ensures not_counted { cover (codes "x y") (codes "format\npower\napp a A000000100\n BYTE 35\nend\nload a\n" ++
        codes "select a\napdu 80000000\n")
        ≡ Ok (codes "TN:\nSF:x y\nDA:4,0\nBRF:0\nBRH:0\nLF:1\nLH:0\nend_of_record\n") }
    ensures past { trace (codes "format\npower\napp a A000000100\n NOP\nend\nload a\nselect a\napdu 80000000\n")
        ≡ Ok (codes "1 formatted\n2 ready 0\n6 9000\n7 9000\n> 1 0000 NOP 8000 00 ; 4 NOP ; - -\n" ++
        codes "> 1 0001 ? 8000 00\n8 abend 02\n") }
    ensures spent { trace (codes "format\npower\nbudget 1\napp a A000000100\nSESSION s 1\n PUSHB 7\n NOP\nend\n" ++
        codes "load a\nselect a\napdu 80000000\n")
        ≡ Ok (codes "1 formatted\n2 ready 0\n9 9000\n10 9000\n> 1 0000 PUSHB 7 8002 00 ; 6 PUSHB 7 ; - 07\n" ++
        codes "> 1 0002 ? 8002 00 ; 7 NOP ; - 07\n11 abend 07\n") }
{}

/// An instruction that abends counts, and has no operand.
pub fn row_abends()
    ensures traced { trace (codes "format\npower\napp a A000000100\nSTATIC x 1\n LOAD x,0\nend\nload a\n" ++
        codes "select a\napdu 80000000\n")
        ≡ Ok (codes "1 formatted\n2 ready 0\n7 9000\n8 9000\n> 1 0000 LOAD SB[0],0 8000 00 ; 5 LOAD x,0 ; - -\n" ++
        codes "9 abend 06\n") }
    ensures counted { cover (codes "f") (codes "format\npower\napp a A000000100\nSTATIC x 1\n LOAD x,0\nend\n" ++
        codes "load a\nselect a\napdu 80000000\n")
        ≡ Ok (codes "TN:\nSF:f\nDA:5,1\nBRF:0\nBRH:0\nLF:1\nLH:1\nend_of_record\n") }
{}

/// An operand is found before the instruction and read after it; at most 8 bytes of the stack are shown.
pub fn operands_and_stack()
    ensures { trace (
        codes "format\npower\napp a A000000100\nSTATIC p 2 0000\n PUSHB 7\n PUSHB 8\n LOAD DT[-2],1\n" ++
        codes " STORE PB[1],2\n LOADI p,1\n LOADA p\n" ++
        codes " CMPB 8\n SETW PB[0],0x1234\n PUSHW 0x0102\n PUSHW 0x0304\n PUSHW 0x0506\n EXIT\nend\nload a\n" ++
        codes "select a\napdu 80000000\n")
        ≡ Ok (
        codes "1 formatted\n2 ready 0\n18 9000\n19 9000\n" ++
        codes "> 1 0000 PUSHB 7 8001 00 ; 5 PUSHB 7 ; - 07\n> 1 0002 PUSHB 8 8002 00 ; 6 PUSHB 8 ; - 0708\n" ++
        codes "> 1 0004 LOAD DT[-2],1 8003 00 ; 7 LOAD DT[-2],1 ; 07 070807\n" ++
        codes "> 1 0008 STORE PB[1],2 8001 00 ; 8 STORE PB[1],2 ; 0807 07\n" ++
        codes "> 1 000C LOADI SB[0],1 8002 00 ; 9 LOADI p,1 ; 0000 0700\n" ++
        codes "> 1 0010 LOADA SB[0] 8004 00 ; 10 LOADA p ; - 07000000\n" ++
        codes "> 1 0013 CMPB 8 8004 10 ; 11 CMPB 8 ; - 07000000\n" ++
        codes "> 1 0015 SETW PB[0],0x1234 8004 10 ; 12 SETW PB[0],0x1234 ; 1234 07000000\n" ++
        codes "> 1 001A PUSHW 0x0102 8006 10 ; 13 PUSHW 0x0102 ; - 070000000102\n" ++
        codes "> 1 001D PUSHW 0x0304 8008 10 ; 14 PUSHW 0x0304 ; - 0700000001020304\n" ++
        codes "> 1 0020 PUSHW 0x0506 800A 10 ; 15 PUSHW 0x0506 ; - 0000010203040506\n" ++
        codes "> 1 0023 EXIT 800A 10 ; 16 EXIT ; - 0000010203040506\n" ++
        codes "20 9000\n") }
{}

/// How often a condition held stands first, how often not second.
pub fn ways_of_a_branch()
    ensures { cover (codes "f") (
        codes "format\npower\napp a A000000100\n CMPB P1,1\n JUMP EQ,yes\n JUMP ALL,yes\n CALL NE,yes\n" ++
        codes "yes: EXIT\nend\nload a\nselect a\n" ++
        codes "apdu 80000100\napdu 80000100\napdu 80000000\n")
        ≡ Ok (
        codes "TN:\nSF:f\nDA:4,3\nDA:5,3\nDA:6,1\nDA:7,0\nDA:8,3\nBRDA:5,0,0,2\nBRDA:5,0,1,1\nBRDA:7,0,0,-\n" ++
        codes "BRDA:7,0,1,-\n" ++
        codes "BRF:4\nBRH:2\nLF:5\nLH:4\nend_of_record\n") }
{}

/// A turn is of the first section that has its AID and its code, and of none where its code is another's.
pub fn sections_of_turns()
    ensures first { cover (codes "f") (
        codes "format\npower\napp a A000000100\n EXIT\nend\napp b A000000100\n EXIT\nend\napp c A000000101\n" ++
        codes " EXIT\nend\nload b\nselect b\napdu 80000000\n")
        ≡ Ok (codes "TN:\nSF:f\nDA:4,1\nDA:7,0\nDA:10,0\nBRF:0\nBRH:0\nLF:3\nLH:1\nend_of_record\n") }
    ensures other_code { trace (
        codes "format\npower\napp a A000000100\n EXIT\nend\napp b A000000100\n NOP\n EXIT\nend\n" ++
        codes "app c A000000102\n EXIT\nend\nload b\nselect b\napdu 80000000\n")
        ≡ Ok (codes "1 formatted\n2 ready 0\n13 9000\n14 9000\n> 1 0000 NOP 8000 00 ; 7 NOP ; - -\n" ++
        codes "> 1 0001 EXIT 8000 00 ; 8 EXIT ; - -\n15 9000\n") }
    ensures unit { trace (
        codes "format\npower\n" ++
        codes "unit u 00000000000000000001040000000961074F05A00000000100096F078405A00000000100000000\n" ++
        codes "app a A000000001\n NOP\n EXIT\nend\nload u 0 0\nselect a\napdu 80000000\n")
        ≡ Ok (codes "1 formatted\n2 ready 0\n8 9000\n9 9000\n> 1 0000 EXIT 8000 00\n10 9000\n") }
{}

#![tactic(auto, unfolding(crate::specs::Played::trace))]

ghost use Rattle.std.specs.Prelude.{◌≡◌, ◌++◌, [], codes, Ok};
ghost use Rattle.model_examples.specs.Played.{trace, unit_line};

/// The instructions of two commands to the counter.
pub fn counter()
    ensures { trace (
        codes "format\npower\n" ++
        unit_line (codes "counter") (codes "A000000001") (codes "B9020000 39020000 46020000 060002") [] ++
        codes "load counter 2 0\nselect A000000001\napdu 8001000002\napdu 8001000002\n")
        ≡ Ok (
        codes "1 formatted\n2 ready 0\n4 9000\n5 9000\n> 1 0000 INCN SB[0],2 8000 00\n" ++
        codes "> 1 0004 LOAD SB[0],2 8002 00\n> 1 0008 STORE PB[0],2 8000 00\n" ++
        codes "> 1 000C EXITLA 0x0002 8000 00\n6 00019000\n> 1 0000 INCN SB[0],2 8000 00\n" ++
        codes "> 1 0004 LOAD SB[0],2 8002 00\n> 1 0008 STORE PB[0],2 8000 00\n" ++
        codes "> 1 000C EXITLA 0x0002 8000 00\n7 00029000\n") }
{}

/// A byte that begins no instruction.
pub fn undefined_byte()
    ensures { trace (
        codes "format\npower\n" ++
        unit_line (codes "a") (codes "A000000001") (codes "30") [] ++
        codes "load a 0 0\nselect A000000001\napdu 80010000\n")
        ≡ Ok (
        codes "1 formatted\n2 ready 0\n4 9000\n5 9000\n> 1 0000 ? 8000 00\n6 abend 01\n") }
{}

/// Two applications that name each other.
pub fn delegation()
    ensures { trace (
        codes "format\npower\n" ++
        unit_line (codes "a") (codes "A000000001")
        (codes "220000 2807 3F02FFFE 220006 2807 3F02FFFE 46040000 0790000004") (codes "05A00000000205A000000009") ++
        unit_line (codes "b") (codes "A000000002") (codes "220000 2807 04") (codes "05A000000001") ++
        codes "load a 12 0\nload b 6 0\nselect A000000001\napdu 8001000004\n")
        ≡ Ok (
        codes "1 formatted\n2 ready 0\n5 9000\n6 9000\n7 9000\n> 1 0000 PUSHW 0x0000 8002 00\n" ++
        codes "> 1 0003 PRIM 7 8000 00\n> 2 0000 PUSHW 0x0000 8002 00\n> 2 0003 PRIM 7 8000 00\n" ++
        codes "> 2 0005 EXIT 8000 00\n> 1 0005 LOAD PT[-2],2 8002 00\n> 1 0009 PUSHW 0x0006 8004 00\n" ++
        codes "> 1 000C PRIM 7 8002 00\n> 1 000E LOAD PT[-2],2 8004 00\n> 1 0012 STORE PB[0],4 8000 00\n" ++
        codes "> 1 0016 EXITSWLA 0x9000,0x0004 8000 00\n8 69856A829000\n") }
{}

/// A cut in the first turn of a command: no turn is shown.
pub fn cut_in_the_first_turn()
    ensures { trace (
        codes "format\npower\n" ++
        unit_line (codes "counter") (codes "A000000001") (codes "B9020000 39020000 46020000 060002") [] ++
        codes "load counter 2 0\nselect A000000001\ncut 4 0000000000000000\napdu 8001000002\n")
        ≡ Ok (
        codes "1 formatted\n2 ready 0\n4 9000\n5 9000\n7 off at write 4\n") }
{}

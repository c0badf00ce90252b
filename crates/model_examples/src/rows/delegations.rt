#![tactic(auto, unfolding(crate::specs::Played::deck_transcript))]

ghost use Rattle.std.specs.Prelude.{◌≡◌, ◌++◌, [], codes, Ok};
ghost use Rattle.model_examples.specs.Played.{deck_transcript, unit_line};

/// Two applications that name each other, and a name that is not there.
pub fn delegation()
    ensures { deck_transcript (
        codes "format\npower\n" ++
        unit_line (codes "a") (codes "A000000001")
        (codes "220000 2807 3F02FFFE 220006 2807 3F02FFFE 46040000 0790000004") (codes "05A00000000205A000000009") ++
        unit_line (codes "b") (codes "A000000002") (codes "220000 2807 04") (codes "05A000000001") ++
        codes "load a 12 0\nload b 6 0\nselect A000000001\napdu 8001000004\n")
        ≡ Ok (codes "1 formatted\n2 ready 0\n5 9000\n6 9000\n7 9000\n8 69856A829000\n") }
{}

/// A relay hands a command to the counter; a cut in the counter's write.
pub fn relay_under_a_cut()
    ensures { deck_transcript (
        codes "format\npower\n" ++
        unit_line (codes "counter") (codes "A000000001") (codes "B9020000 39020000 46020000 060002") [] ++
        unit_line (codes "relay") (codes "A000000003") (codes "220000280704") (codes "05A000000001") ++
        codes "load counter 2 0\nload relay 6 0\nselect A000000003\napdu 8001000002\ncut 4 4F50454E2D322D2D\n" ++
        codes "apdu 8001000002\npower\ndump A000000001\ndump A000000003\n")
        ≡ Ok (
        codes "1 formatted\n2 ready 0\n5 9000\n6 9000\n7 9000\n8 00019000\n10 off at write 4\n11 ready 2\n" ++
        codes "12 static 0002\n13 static 05A000000001\n") }
{}

/// A chain of four frames: the fourth may delegate no further.
pub fn full_chain()
    ensures { deck_transcript (
        codes "format\npower\n" ++
        unit_line (codes "r1") (codes "A000000201") (codes "220000280704") (codes "05A000000202") ++
        unit_line (codes "r2") (codes "A000000202") (codes "220000280704") (codes "05A000000203") ++
        unit_line (codes "r3") (codes "A000000203") (codes "220000280704") (codes "05A000000204") ++
        unit_line (codes "r4") (codes "A000000204") (codes "220000280704") (codes "05A000000205") ++
        unit_line (codes "r5") (codes "A000000205") (codes "220000280704") (codes "05A000000205") ++
        codes "load r1 6 0\nload r2 6 0\nload r3 6 0\nload r4 6 0\nload r5 6 0\nselect A000000201\n" ++
        codes "apdu 80010000\n")
        ≡ Ok (codes "1 formatted\n2 ready 0\n8 9000\n9 9000\n10 9000\n11 9000\n12 9000\n13 9000\n14 6985\n") }
{}

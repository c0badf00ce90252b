#![tactic(auto, unfolding(crate::specs::Played::headers_left, crate::specs::Played::room_left, crate::specs::Played::twenty_counters))]

ghost use Rattle.std.specs.Prelude.{◌≡◌, ◌∷◌, ◌++◌, [], codes, Some};
ghost use Rattle.model_examples.specs.Played.{headers_left, room_left, twenty_counters, unit_line};
ghost use Rattle.model_examples.specs.Written.{hex};

/// Two applications that leave no hole on a device of 256 words.
pub fn full_device()
    ensures { headers_left 256 (
        codes "format\npower\n" ++
        unit_line (codes "a") (codes "A000000001") (codes "B9020000 39020000 46020000 060002") [] ++
        unit_line (codes "b") (codes "A000000002") (codes "B9020000 39020000 46020000 060002") [] ++
        unit_line (codes "c") (codes "A000000003") (codes "B9020000 39020000 46020000 060002") [] ++
        codes "load a 400 0\nload b 400 0\nload c 424 0\ndelete A000000002\nload c 424 0\n")
        ≡ (0, hex (codes "4D454C0201000000")) ∷ (131, hex (codes "5500003D00000000"))
        ∷ (192, hex (codes "5500004000000000")) ∷ [] }
{}

/// Twenty applications of 12 words each, and the hole after them.
pub fn twenty_applications()
    ensures { room_left 8192 13 twenty_counters ≡ Some 371 ∷ [] }
{}

/// Two of them deleted leave two holes of 12 words; the room for 13 words lies after them.
pub fn two_holes()
    ensures headers { headers_left 8192 (twenty_counters ++ codes "delete A000000102\ndelete A000000104\n")
        ≡ (0, hex (codes "4D454C022000008F")) ∷ (131, hex (codes "5500000C00000000"))
        ∷ (143, hex (codes "4800000C00A70000")) ∷ (155, hex (codes "5500000C00000000"))
        ∷ (167, hex (codes "4800000C01730000")) ∷ (179, hex (codes "5500000C00000000"))
        ∷ (191, hex (codes "5500000C00000000")) ∷ (203, hex (codes "5500000C00000000"))
        ∷ (215, hex (codes "5500000C00000000")) ∷ (227, hex (codes "5500000C00000000"))
        ∷ (239, hex (codes "5500000C00000000")) ∷ (251, hex (codes "5500000C00000000"))
        ∷ (263, hex (codes "5500000C00000000")) ∷ (275, hex (codes "5500000C00000000"))
        ∷ (287, hex (codes "5500000C00000000")) ∷ (299, hex (codes "5500000C00000000"))
        ∷ (311, hex (codes "5500000C00000000")) ∷ (323, hex (codes "5500000C00000000"))
        ∷ (335, hex (codes "5500000C00000000")) ∷ (347, hex (codes "5500000C00000000"))
        ∷ (359, hex (codes "5500000C00000000")) ∷ (371, hex (codes "48001E8D00000000")) ∷ [] }
    ensures room { room_left 8192 13 (twenty_counters ++ codes "delete A000000102\ndelete A000000104\n")
        ≡ Some 371 ∷ [] }
{}

/// The one between them deleted joins them to one hole of 36 words.
pub fn joined_holes()
    ensures headers { headers_left 8192 (twenty_counters
        ++ codes "delete A000000102\ndelete A000000104\ndelete A000000103\n")
        ≡ (0, hex (codes "4D454C022000008F")) ∷ (131, hex (codes "5500000C00000000"))
        ∷ (143, hex (codes "4800002401730000")) ∷ (179, hex (codes "5500000C00000000"))
        ∷ (191, hex (codes "5500000C00000000")) ∷ (203, hex (codes "5500000C00000000"))
        ∷ (215, hex (codes "5500000C00000000")) ∷ (227, hex (codes "5500000C00000000"))
        ∷ (239, hex (codes "5500000C00000000")) ∷ (251, hex (codes "5500000C00000000"))
        ∷ (263, hex (codes "5500000C00000000")) ∷ (275, hex (codes "5500000C00000000"))
        ∷ (287, hex (codes "5500000C00000000")) ∷ (299, hex (codes "5500000C00000000"))
        ∷ (311, hex (codes "5500000C00000000")) ∷ (323, hex (codes "5500000C00000000"))
        ∷ (335, hex (codes "5500000C00000000")) ∷ (347, hex (codes "5500000C00000000"))
        ∷ (359, hex (codes "5500000C00000000")) ∷ (371, hex (codes "48001E8D00000000")) ∷ [] }
    ensures room { room_left 8192 13 (twenty_counters
        ++ codes "delete A000000102\ndelete A000000104\ndelete A000000103\n") ≡ Some 143 ∷ [] }
{}

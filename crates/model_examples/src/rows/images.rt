#![tactic(auto, unfolding(crate::specs::Played::deck_transcript))]

ghost use Rattle.std.specs.Prelude.{◌≡◌, ◌++◌, [], codes, Ok};
ghost use Rattle.model_examples.specs.Played.{deck_transcript};

/// A blank device has no root.
pub fn blank_device()
    ensures { deck_transcript (
        codes "power\n")
        ≡ Ok (codes "1 unusable NoRoot 0\n") }
{}

/// A hole whose link is no hole after it.
pub fn link_to_no_hole()
    ensures { deck_transcript (
        codes "format\npoke 131 48001F7D00830000\npower\n")
        ≡ Ok (codes "1 formatted\n3 unusable BadChain 131\n") }
{}

/// A block that ends after the device.
pub fn block_past_the_end()
    ensures { deck_transcript (
        codes "format\npoke 131 48001F7E00000000\npower\n")
        ≡ Ok (codes "1 formatted\n3 unusable BadBlock 131\n") }
{}

/// A block without words.
pub fn block_of_no_words()
    ensures { deck_transcript (
        codes "format\npoke 131 4800000000000000\npower\n")
        ≡ Ok (codes "1 formatted\n3 unusable BadBlock 131\n") }
{}

/// Two holes side by side.
pub fn two_holes_side_by_side()
    ensures { deck_transcript (
        codes "format\npoke 131 4800000100840000\npoke 132 48001F7C00000000\npower\n")
        ≡ Ok (codes "1 formatted\n4 unusable BadBlock 132\n") }
{}

/// A root that names no hole, where there is one.
pub fn no_first_hole()
    ensures { deck_transcript (
        codes "format\npoke 0 4D454C0220000000\npower\n")
        ≡ Ok (codes "1 formatted\n3 unusable BadChain 0\n") }
{}

/// A first word that is no root.
pub fn no_root()
    ensures { deck_transcript (
        codes "format\npoke 0 4D454C0220010083\npower\n")
        ≡ Ok (codes "1 formatted\n3 unusable NoRoot 0\n") }
{}

/// An open journal without words.
pub fn open_journal_of_no_words()
    ensures { deck_transcript (
        codes "format\npoke 130 4F50454E2D322D2D\npower\n")
        ≡ Ok (codes "1 formatted\n3 unusable BadJournal 2\n") }
{}

/// An open journal whose target is no word of the heap.
pub fn journal_into_itself()
    ensures { deck_transcript (
        codes "format\npoke 130 4F50454E2D322D2D\npoke 2 0000000000000001\npoke 3 0082000000000000\npower\n")
        ≡ Ok (codes "1 formatted\n5 unusable BadJournal 3\n") }
{}

/// An open journal of one word.
pub fn open_journal()
    ensures { deck_transcript (
        codes "format\npoke 130 4F50454E2D322D2D\npoke 2 0000000000000001\npoke 3 0083000000000000\n" ++
        codes "poke 19 48001F7D00000000\npower\n")
        ≡ Ok (codes "1 formatted\n6 ready 2\n") }
{}

/// A used block without a record.
pub fn bad_record()
    ensures { deck_transcript (
        codes "format\npoke 0 4D454C0220000088\npoke 131 5500000500000000\npoke 136 48001F7800000000\npower\n")
        ≡ Ok (codes "1 formatted\n5 unusable BadRecord 131\n") }
{}

/// A poke behind the device changes nothing.
pub fn poke_past_the_end()
    ensures { deck_transcript (
        codes "format\npoke 16383 0000000000000000\npower\n")
        ≡ Ok (codes "1 formatted\n3 ready 0\n") }
{}

/// A card of layout 1 becomes one of layout 2.
pub fn migration()
    ensures { deck_transcript (
        codes "format\npoke 0 4D454C0120000083\npower\npower\n")
        ≡ Ok (codes "1 formatted\n3 ready 6\n4 ready 0\n") }
{}

/// A migration that is cut before its gate is begun again.
pub fn migration_cut_before_its_gate()
    ensures { deck_transcript (
        codes "format\npoke 0 4D454C0120000083\ncut 3 0000000000000000\npower\npower\n")
        ≡ Ok (codes "1 formatted\n4 off at write 3\n5 ready 6\n") }
{}

/// A migration whose torn gate holds the opening word is finished.
pub fn migration_with_a_torn_gate()
    ensures { deck_transcript (
        codes "format\npoke 0 4D454C0120000083\ncut 4 4F50454E2D312D2D\npower\npower\npower\n")
        ≡ Ok (codes "1 formatted\n4 off at write 4\n5 ready 2\n6 ready 0\n") }
{}

/// A migration whose root is torn is finished.
pub fn migration_with_a_torn_root()
    ensures { deck_transcript (
        codes "format\npoke 0 4D454C0120000083\ncut 5 4D454C0120000083\npower\npower\n")
        ≡ Ok (codes "1 formatted\n4 off at write 5\n5 ready 2\n") }
{}

/// A migration whose closing is torn.
pub fn migration_with_a_torn_closing()
    ensures { deck_transcript (
        codes "format\npoke 0 4D454C0120000083\ncut 6 0000000000000000\npower\npower\n")
        ≡ Ok (codes "1 formatted\n4 off at write 6\n5 ready 0\n") }
{}

/// A migration whose closing leaves the opening word.
pub fn migration_with_a_closing_that_opens()
    ensures { deck_transcript (
        codes "format\npoke 0 4D454C0120000083\ncut 6 4F50454E2D312D2D\npower\npower\n")
        ≡ Ok (codes "1 formatted\n4 off at write 6\n5 ready 2\n") }
{}

/// Owed writes of journal 1, and then the migration.
pub fn open_journal_of_layout_1()
    ensures { deck_transcript (
        codes "format\npoke 0 4D454C0120000083\npoke 1 4F50454E2D312D2D\npoke 2 0000000000000001\n" ++
        codes "poke 3 0000000000000083\npoke 4 48001F7D00000000\npower\n")
        ≡ Ok (codes "1 formatted\n7 ready 8\n") }
{}

/// Both gates hold their opening words.
pub fn both_gates_open()
    ensures { deck_transcript (
        codes "format\npoke 0 4D454C0120000083\npoke 1 4F50454E2D312D2D\npoke 130 4F50454E2D322D2D\npower\n")
        ≡ Ok (codes "1 formatted\n5 unusable BadJournal 1\n") }
{}

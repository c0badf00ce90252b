#![tactic(auto, unfolding(crate::specs::SweptRows::swept_deck))]

// Worked rows: texts of sweeps.
ghost use Rattle.std.specs.Prelude.{◌≡◌, ◌++◌, codes, Ok};
ghost use Rattle.mc_lab.specs.SweptRows.{counter_loaded, old_card, swept_deck, twice_loaded, up_and_down_loaded};

/// A counter is loaded and counts twice.
pub fn counter_swept()
    ensures { swept_deck (counter_loaded ++ codes "apdu 8001000002\n")
        ≡ Ok (
        codes "line 4 writes 21: before 1-17 after 18-21\nline 6 writes 6: before 1-4 after 5-6\n" ++
        codes "line 7 writes 6: before 1-4 after 5-6\nswept 3 writes 33 plays 98\n") }
{}

/// A line for which a cut or a failed write is armed is not swept.
pub fn armed_line_not_swept()
    ensures cut { swept_deck (counter_loaded ++ codes "cut 2 0000000000000000\napdu 8001000002\n")
        ≡ Ok (
        codes "line 4 writes 21: before 1-17 after 18-21\nline 6 writes 6: before 1-4 after 5-6\n" ++
        codes "swept 2 writes 27 plays 82\n") }
    ensures fail { swept_deck (counter_loaded ++ codes "fail 3\napdu 8001000002\nselect A000000001\n")
        ≡ Ok (
        codes "line 4 writes 21: before 1-17 after 18-21\nline 6 writes 6: before 1-4 after 5-6\n" ++
        codes "swept 2 writes 27 plays 82\n") }
{}

/// An application that adds to two numbers, one after the other, is `between` after the first.
pub fn two_changes_between()
    ensures { swept_deck (twice_loaded ++ codes "apdu 8001000004\n# whole\n#! whole 2\n")
        ≡ Ok (
        codes "line 4 writes 22: before 1-18 after 19-22\nline 6 writes 12: before 1-4 between 5-10 after 11-12\n" ++
        codes "swept 2 writes 34 plays 100\n") }
{}

/// A line that must be whole and is `between` says so; the load is whole.
pub fn marked_line_not_whole()
    ensures { swept_deck (twice_loaded ++ codes "#! whole\napdu 8001000004\n\n# a comment\n \t#!  whole\t\n")
        ≡ Ok (
        codes "line 4 writes 22: before 1-18 after 19-22\nline 6 not swept\n" ++
        codes "line 7 writes 12: before 1-4 between 5-10 after 11-12 not whole\nswept 2 writes 34 plays 100\n") }
{}

/// A mark that is of no swept line has a line of its own, in the order of lines: at the top of a deck, under a line that
/// makes no write, is armed or is not one to the card, after a section, and at the end.
pub fn unswept_marks()
    ensures top { swept_deck (codes "#! whole\n# a comment\n#! whole\nformat\npower\n")
        ≡ Ok (codes "line 1 not swept\nline 3 not swept\nswept 0 writes 0 plays 0\n") }
    ensures without_writes { swept_deck (counter_loaded
        ++ codes "select A000000001\n#! whole\npower\n#! whole\napdu 8001000002\n#! whole\n")
        ≡ Ok (
        codes "line 4 writes 21: before 1-17 after 18-21\nline 6 writes 6: before 1-4 after 5-6\n" ++
        codes "line 8 not swept\nline 10 not swept\nline 12 not swept\nswept 2 writes 27 plays 82\n") }
    ensures armed { swept_deck (counter_loaded
        ++ codes "cut 2 0000000000000000\n#! whole\napdu 8001000002\n#! whole\n")
        ≡ Ok (
        codes "line 4 writes 21: before 1-17 after 18-21\nline 6 writes 6: before 1-4 after 5-6\n" ++
        codes "line 8 not swept\nline 10 not swept\nswept 2 writes 27 plays 82\n") }
    ensures section { swept_deck (counter_loaded ++ codes "app b A000000002\nEXIT\nend\n#! whole\n")
        ≡ Ok (
        codes "line 4 writes 21: before 1-17 after 18-21\nline 6 writes 6: before 1-4 after 5-6\n" ++
        codes "line 10 not swept\nswept 2 writes 27 plays 82\n") }
    ensures between { swept_deck (twice_loaded ++ codes "#! whole\n#! whole\napdu 8001000004\n")
        ≡ Ok (
        codes "line 4 writes 22: before 1-18 after 19-22\nline 6 not swept\nline 7 not swept\n" ++
        codes "line 8 writes 12: before 1-4 between 5-10 after 11-12\nswept 2 writes 34 plays 100\n") }
{}

/// A number that is raised and then lowered again is the same before and after, and `between` after the first.
pub fn between_one_state()
    ensures { swept_deck (up_and_down_loaded ++ codes "apdu 80010000\n#! whole\n")
        ≡ Ok (
        codes "line 4 writes 21: before 1-17 after 18-21\n" ++
        codes "line 6 writes 12: same 1-4 between 5-10 same 11-12 not whole\nswept 2 writes 33 plays 98\n") }
{}

/// A `power` line that makes the writes which a cut left is the same in each of them.
pub fn power_with_owed_writes()
    ensures { swept_deck (counter_loaded ++ codes "cut 5 0000000000000000\napdu 8001000002\npower\n")
        ≡ Ok (
        codes "line 4 writes 21: before 1-17 after 18-21\nline 6 writes 6: before 1-4 after 5-6\n" ++
        codes "line 9 writes 2: same 1-2\nswept 3 writes 29 plays 90\n") }
{}

/// A `power` line that brings a card of layout 1 to layout 2 is the same in each of its writes.
pub fn power_that_migrates()
    ensures { swept_deck (old_card ++ codes "power\ndump A000000001\n")
        ≡ Ok (codes "line 6 writes 6: same 1-6\nswept 1 writes 6 plays 64\n") }
{}

/// A `power` line that makes writes and then finds no card is swept too; the state is why it finds none.
pub fn unusable_end()
    ensures { swept_deck (
        codes "format\npoke 2 0000000000000001\npoke 3 0083000000000000\npoke 19 0000000000000000\n" ++
        codes "poke 130 4F50454E2D322D2D\npower\n")
        ≡ Ok (codes "line 6 writes 2: same 1-2\nswept 1 writes 2 plays 8\n") }
{}

/// A name that is absent after a line is not the name with its static bytes; another is absent throughout.
pub fn absent_names()
    ensures { swept_deck (counter_loaded ++ codes "power\ndelete A000000001\ndump A000000009\n")
        ≡ Ok (
        codes "line 4 writes 21: before 1-17 after 18-21\nline 6 writes 6: before 1-4 after 5-6\n" ++
        codes "line 8 writes 8: before 1-5 after 6-8\nswept 3 writes 35 plays 110\n") }
{}

#![tactic(auto, unfolding(crate::specs::Computed::explored_deck, crate::specs::Computed::explored_within, crate::specs::Computed::statements_read))]

// Worked rows: what small decks with their rules come to.
ghost use Rattle.std.specs.Prelude.{◌≡◌, ◌++◌, ◌∷◌, [], codes, Ok};
ghost use Rattle.law_explore.specs.model_device.specs.Image.{opening, Two};
ghost use Rattle.law_explore.specs.model_play.specs.DeckGrammar as line;
ghost use Rattle.law_explore.specs.Tries.{ones};
ghost use Rattle.law_explore.specs.Search.{cut_statement, idle_statement, power_statement};
ghost use Rattle.law_explore_text.specs.Computed.{explored_deck, explored_within, statements_read};
ghost use Rattle.law_explore_text.specs.Decks.{counter_deck, idle_deck, quiet_rule, session_deck, twice_deck};

/// A third count is one too many; a cut that leaves the count ends the selection.
pub fn third_count()
    ensures { explored_deck 9 (counter_deck ++ codes "#@ allow counts 2\n#@ on apdu 8001* gives 9000 spend counts 1\n")
        ≡ Ok (
        codes "depth 1 states 3\ndepth 2 states 3\nbroken counts after 3 lines\n" ++
        codes "apdu 8001000000\napdu 8001000000\napdu 8001000000\n") }
{}

/// With one count allowed the second is too many.
pub fn second_count()
    ensures { explored_deck 2 (counter_deck ++ codes "#@ allow counts 1\n#@ on apdu 8001* gives 9000 spend counts 1\n")
        ≡ Ok (codes "depth 1 states 3\nbroken counts after 2 lines\napdu 8001000000\napdu 8001000000\n") }
{}

/// And one depth does not reach it.
pub fn one_depth()
    ensures { explored_deck 1 (counter_deck ++ codes "#@ allow counts 1\n#@ on apdu 8001* gives 9000 spend counts 1\n")
        ≡ Ok (codes "depth 1 states 3\nexplored states 4 tries 19 depth 1\n") }
{}

/// The last of six device writes is cut, too.
pub fn last_write()
    ensures { explored_deck 3 (counter_deck ++ codes "#@ allow last 0\n#@ on * gives off at write 6 spend last 1\n")
        ≡ Ok (codes "broken last after 3 lines\ncut 6 0000000000000000\napdu 8001000000\npower\n") }
{}

/// A fill that opens the gate makes the fourth write count, and the other two do not.
pub fn third_fill()
    ensures { explored_deck 1 (counter_deck ++ codes "#@ allow x 0\n#@ on apdu* gives off at write 4 allow x 1\n")
        ≡ Ok (codes "depth 1 states 5\nexplored states 6 tries 19 depth 1\n") }
{}

/// Two states that differ in their session bytes alone.
pub fn session_bytes()
    ensures { explored_deck 9 (session_deck ++ codes "#@ allow x 0\n#@ on apdu* gives 6f00 spend x 1\n")
        ≡ Ok (codes "depth 1 states 1\nbroken x after 2 lines\napdu 8001000000\napdu 8001000000\n") }
{}

/// Two states that differ in an open load alone.
pub fn open_load()
    ensures { explored_deck 2 (codes "format\npower\n#@ move apdu BE1200000C000100000000000000000000\n"
        ++ codes "#@ move apdu BE1200000C000200000000000000000000\n" ++ quiet_rule)
        ≡ Ok (codes "depth 1 states 2\ndepth 2 states 0\nexplored states 3 tries 6 all\n") }
{}

/// A deletion of two words makes eight device writes. A name that is selected is not deleted.
pub fn deletion()
    ensures { explored_deck 3 (idle_deck ++ codes "#@ move power\n#@ move delete A000000001\n" ++ quiet_rule)
        ≡ Ok (codes "depth 1 states 1\ndepth 2 states 1\ndepth 3 states 0\nexplored states 3 tries 33 all\n") }
{}

/// Two states that differ in an allowance alone.
pub fn allowances()
    ensures { explored_deck 9 (idle_deck ++ codes "#@ allow x 1\n#@ on APDU * gives 9000 spend x 1\n")
        ≡ Ok (codes "depth 1 states 1\nbroken x after 2 lines\napdu 8001000000\napdu 8001000000\n") }
{}

/// What is spent and then allowed again must be there first.
pub fn order_of_lines()
    ensures spent_first { explored_deck 9 (idle_deck
        ++ codes "#@ allow x 0\n#@ on apdu* gives * spend x 1\n#@ on apdu* gives * allow x 1\n")
        ≡ Ok (codes "broken x after 1 lines\napdu 8001000000\n") }
    ensures allowed_first { explored_deck 9 (idle_deck
        ++ codes "#@ allow x 0\n#@ on apdu* gives * allow x 1\n#@ on apdu* gives * spend x 1\n")
        ≡ Ok (codes "depth 1 states 0\nexplored states 1 tries 1 all\n") }
{}

/// A line applies once for each instruction that was executed, and a cut ends before the one that it hits.
pub fn turns()
    ensures three { explored_deck 1 (twice_deck ++ codes "#@ allow x 2\n#@ on apdu* turns *incn* spend x 1\n")
        ≡ Ok (codes "depth 1 states 5\nexplored states 6 tries 37 depth 1\n") }
    ensures broken { explored_deck 1 (twice_deck ++ codes "#@ allow x 1\n#@ on apdu* turns *incn* spend x 1\n")
        ≡ Ok (codes "broken x after 1 lines\napdu 8001000000\n") }
{}

/// An amount that is not there in full is not spent in part.
pub fn below_zero()
    ensures { explored_deck 9 (idle_deck ++ codes "#@ allow x 1\n#@ on apdu* gives * spend x 2\n")
        ≡ Ok (codes "broken x after 1 lines\napdu 8001000000\n") }
{}

/// An `on` line that applied to no try is named, with its number, in the order of the lines.
pub fn silent_lines()
    ensures one { explored_deck 9 (idle_deck ++ codes "#@ allow x 1\n#@ on power gives * spend x 1\n")
        ≡ Ok (codes "depth 1 states 0\nsilent line 10\nexplored states 1 tries 1 all\n") }
    ensures two { explored_deck 1 (idle_deck ++ codes "#@ move power\n#@ allow x 1\n#@ on apdu* gives 6F00 spend x 1\n"
        ++ codes "#@ on power gives ready* allow x 1\n#@ on apdu* turns *INCN* spend x 1\n")
        ≡ Ok (codes "depth 1 states 1\nsilent line 11\nsilent line 13\nexplored states 2 tries 2 depth 1\n") }
    ensures none { explored_deck 9 (idle_deck ++ codes "#@ allow x 1\n#@ on apdu* turns *EXIT* allow x 1\n")
        ≡ Ok (codes "depth 1 states 0\nexplored states 1 tries 1 all\n") }
{}

/// An event of a move that was cut is one, too.
pub fn heard_by_cuts()
    ensures { explored_deck 1 (counter_deck ++ codes "#@ allow x 0\n#@ on * gives off at write 6 allow x 0\n"
        ++ codes "#@ on * gives off at write 7 allow x 0\n")
        ≡ Ok (codes "depth 1 states 3\nsilent line 12\nexplored states 4 tries 19 depth 1\n") }
{}

/// A search says `all` only when a depth has no new state.
pub fn all_or_depth()
    ensures one { explored_deck 1 (idle_deck ++ codes "#@ move power\n" ++ quiet_rule)
        ≡ Ok (codes "depth 1 states 1\nexplored states 2 tries 2 depth 1\n") }
    ensures two { explored_deck 2 (idle_deck ++ codes "#@ move power\n" ++ quiet_rule)
        ≡ Ok (codes "depth 1 states 1\ndepth 2 states 0\nexplored states 2 tries 4 all\n") }
{}

/// No more states than the limit are kept.
pub fn limit()
    ensures reached { explored_within 2 9 (idle_deck ++ codes "#@ move power\n" ++ quiet_rule)
        ≡ Ok (codes "depth 1 states 1\ndepth 2 states 0\nexplored states 2 tries 4 all\n") }
    ensures exceeded { explored_within 1 9 (idle_deck ++ codes "#@ move power\n" ++ quiet_rule)
        ≡ Ok (codes "explored states 1 tries 2 depth 1\n") }
    ensures later { explored_within 5 9 (counter_deck ++ quiet_rule)
        ≡ Ok (codes "depth 1 states 3\nexplored states 5 tries 32 depth 2\n") }
{}

/// A stop that is armed at the end of a deck is dropped, and a card that does not run is powered first.
pub fn first_state()
    ensures armed { explored_deck 2
        (idle_deck ++ codes "cut 1 0000000000000000\n#@ allow x 0\n#@ on * gives * spend x 1\n")
        ≡ Ok (codes "broken x after 2 lines\napdu 00\napdu 8001000000\n") }
    ensures off { explored_deck 2
        (counter_deck ++ codes "cut 1 0000000000000000\napdu 8001000000\n#@ allow x 0\n#@ on * gives * spend x 1\n")
        ≡ Ok (codes "broken x after 2 lines\npower\napdu 8001000000\n") }
    ensures before_power { explored_deck 2
        (codes "format\n#@ move power\n#@ allow x 0\n#@ on * gives ready* spend x 1\n")
        ≡ Ok (codes "broken x after 2 lines\npower\npower\n") }
{}

/// A card that is unusable is not powered first; its moves are tried whole.
pub fn unusable()
    ensures off { explored_deck 5
        (codes "format\npoke 0 0000000000000000\npower\n#@ move power\n#@ move select A000000001\n#@ allow x 0\n#@ on select* gives off spend x 1\n")
        ≡ Ok (codes "broken x after 1 lines\nselect A000000001\n") }
    ensures all { explored_deck 5
        (codes "format\npoke 0 0000000000000000\n#@ move power\n#@ move select A000000001\n#@ allow x 1\n#@ on power gives unusable* allow x 1\n")
        ≡ Ok (codes "depth 1 states 0\nexplored states 1 tries 2 all\n") }
{}

/// The statements of a report are read as the lines that they are.
pub fn statements()
    ensures { statements_read (power_statement ∷ idle_statement ∷ cut_statement 7 ones
        ∷ cut_statement 4294967295 (opening Two) ∷ [])
        ≡ Ok ((1, line.Format) ∷ (2, line.Power) ∷ (3, line.Sent (line.Apdu (0 ∷ []))) ∷ (4, line.Cut 7 ones)
        ∷ (5, line.Cut 4294967295 (opening Two)) ∷ []) }
{}

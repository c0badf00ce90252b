#![tactic(auto, unfolding(crate::specs::Computed::shown))]

// Worked rows: what is refused of rules, and in which order. The rules begin at line 9.
ghost use Rattle.std.specs.Prelude.{◌≡◌, ◌++◌, [], ◌∷◌, codes};
ghost use Rattle.law_promise.specs.model_play.specs.declared.deck.DeckCause.TheVariants.{BadLine, BadName, BadNumber, NameTwice, OutOfRange, UnknownName};
ghost use Rattle.model_rule_text.specs.Reading.{Deck, NoApplication};
ghost use Rattle.law_rules.specs.Computed.{shown, Refused, Kept};
ghost use Rattle.model_rule_text.specs.Decks.{with_rules};

/// An application has to be named, once, by a unit or section that is loaded.
pub fn applications()
    ensures none { shown (with_rules (codes "#@ allow n 1\n")) ≡ Refused 0 NoApplication }
    ensures no_abend { shown (with_rules (codes "#@ never abend\n#@ app a\n")) ≡ Refused 9 NoApplication }
    ensures on { shown (with_rules (codes "#@ on session allow n 1\n#@ app a\n")) ≡ Refused 9 NoApplication }
    ensures always { shown (with_rules (codes "#@ always SB[9] 2 1\n#@ app a\n")) ≡ Refused 9 NoApplication }
    ensures unknown { shown (with_rules (codes "#@ app b\n")) ≡ Refused 9 (Deck UnknownName) }
    ensures twice { shown (with_rules (codes "#@ app a\n#@ app a\n")) ≡ Refused 10 (Deck NameTwice) }
    ensures name { shown (with_rules (codes "#@ app a-b\n")) ≡ Refused 9 (Deck BadName) }
    ensures form { shown (with_rules (codes "#@ app\n")) ≡ Refused 9 (Deck BadLine) }
{}

/// Lines of explorations: a move means nothing here, and an `on` line that is none of these is refused.
pub fn explorations()
    ensures moves { shown (with_rules (codes "#@ app a\n#@ move apdu\n")) ≡ Kept [] }
    ensures gives { shown (with_rules (codes "#@ app a\n#@ allow n 1\n#@ on select* gives * allow n 1\n"))
        ≡ Refused 11 (Deck BadLine) }
    ensures word { shown (with_rules (codes "#@ app a\n#@ moves power\n")) ≡ Refused 10 (Deck BadLine) }
    ensures mark { shown (with_rules (codes "#@ app a\n#@move power\n")) ≡ Refused 10 (Deck BadLine) }
    ensures comment { shown (with_rules (codes "#@ app a\n# @move power\n")) ≡ Kept [] }
{}

/// `on` lines: their patterns, names and numbers, and an allowance above.
pub fn on_lines()
    ensures pattern { shown (with_rules (codes "#@ app a\n#@ on turn spend n 1\n")) ≡ Refused 10 (Deck BadLine) }
    ensures result { shown (with_rules (codes "#@ app a\n#@ on answer * spend n 1\n")) ≡ Refused 10 (Deck BadLine) }
    ensures session { shown (with_rules (codes "#@ app a\n#@ on session * spend n 1\n"))
        ≡ Refused 10 (Deck BadLine) }
    ensures name { shown (with_rules (codes "#@ app a\n#@ on session spend a-b x\n")) ≡ Refused 10 (Deck BadName) }
    ensures number { shown (with_rules (codes "#@ app a\n#@ on session spend n x\n"))
        ≡ Refused 10 (Deck BadNumber) }
    ensures range { shown (with_rules (codes "#@ app a\n#@ on session spend n 4294967296\n"))
        ≡ Refused 10 (Deck OutOfRange) }
    ensures unknown { shown (with_rules (codes "#@ app a\n#@ on session spend n 1\n#@ allow n 1\n"))
        ≡ Refused 10 (Deck UnknownName) }
    ensures twice { shown (with_rules (codes "#@ allow n 1\n#@ allow n 1\n")) ≡ Refused 10 (Deck NameTwice) }
{}

/// Sums: a sum above, and public bytes that there are.
pub fn sums()
    ensures unknown { shown (with_rules (codes "#@ app a\n#@ on turn * add n 1\n"))
        ≡ Refused 10 (Deck UnknownName) }
    ensures command { shown (with_rules (codes "#@ app a\n#@ sum n 1\n#@ on command * add n 1\n"))
        ≡ Refused 11 (Deck BadLine) }
    ensures bytes { shown (with_rules (codes "#@ app a\n#@ sum n 1\n#@ on turn * add n PB[0..1]\n")) ≡ Kept [] }
    ensures from_end { shown (with_rules (codes "#@ app a\n#@ sum n 1\n#@ on turn * take n PT[-10]\n")) ≡ Kept [] }
    ensures past { shown (with_rules (codes "#@ app a\n#@ sum n 1\n#@ on turn * take n PB[1041]\n"))
        ≡ Refused 11 (Deck OutOfRange) }
    ensures register { shown (with_rules (codes "#@ app a\n#@ sum n 1\n#@ on turn * take a-b SB[0]\n"))
        ≡ Refused 11 (Deck BadLine) }
    ensures order { shown (with_rules (codes "#@ app a\n#@ sum n 1\n#@ on turn * take a-b PB[x]\n"))
        ≡ Refused 11 (Deck BadName) }
{}

/// `always` lines: their forms, numbers as assembly writes them, and places that there are.
pub fn always_lines()
    ensures register { shown (with_rules (codes "#@ app a\n#@ always DB[0] 0 3\n")) ≡ Refused 10 (Deck BadLine) }
    ensures number { shown (with_rules (codes "#@ app a\n#@ always SB[x] 0 3\n")) ≡ Refused 10 (Deck BadNumber) }
    ensures hex { shown (with_rules (codes "#@ app a\n#@ always SB[0x1] 0x00 0xFF\n")) ≡ Kept [] }
    ensures place { shown (with_rules (codes "#@ app a\n#@ always SB[2] 0 3\n")) ≡ Refused 10 (Deck OutOfRange) }
    ensures order { shown (with_rules (codes "#@ app a\n#@ always SB[0] 3 2\n")) ≡ Refused 10 (Deck OutOfRange) }
    ensures high { shown (with_rules (codes "#@ app a\n#@ always SB[0] 0 256\n")) ≡ Refused 10 (Deck OutOfRange) }
    ensures total { shown (with_rules (codes "#@ app a\n#@ always SB[0..1] = 0\n")) ≡ Kept [] }
    ensures term { shown (with_rules (codes "#@ app a\n#@ always SB[0..1] = 0 +\n")) ≡ Refused 10 (Deck BadLine) }
    ensures sign { shown (with_rules (codes "#@ app a\n#@ always SB[0..1] = 0 * n\n")) ≡ Refused 10 (Deck BadLine) }
    ensures unknown { shown (with_rules (codes "#@ app a\n#@ always SB[0..1] = 0 + n\n"))
        ≡ Refused 10 (Deck UnknownName) }
    ensures size { shown (with_rules (codes "#@ app a\n#@ always SB[0..2] = 0\n")) ≡ Refused 10 (Deck OutOfRange) }
    ensures back { shown (with_rules (codes "#@ app a\n#@ always SB[1..0] = 0\n")) ≡ Refused 10 (Deck OutOfRange) }
    ensures no_abend { shown (with_rules (codes "#@ app a\n#@ never abends\n")) ≡ Refused 10 (Deck BadLine) }
{}

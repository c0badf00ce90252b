#![tactic(auto, unfolding(crate::specs::Computed::shown))]

// Worked rows: rules that are kept and broken along plays.
ghost use Rattle.std.specs.Prelude.{◌≡◌, ◌++◌, [], ◌∷◌, codes};
ghost use Rattle.law_rules.specs.Computed.{shown, Broken, Kept};
ghost use Rattle.model_rule_text.specs.Decks.{counting, with_rules, with_code};

/// An allowance is set by a command and spent by a turn; one that is not enough is broken at the line of that turn.
pub fn allowances()
    ensures each_command { shown (counting
        (codes "#@ app a\n#@ allow n 0\n#@ on command * allow n 1\n#@ on turn 1*INCN* spend n 1\n"))
        ≡ Kept ((codes "n", 0) ∷ []) }
    ensures once { shown (counting (codes "#@ app a\n#@ allow n 1\n#@ on turn *INCN* spend n 1\n")) ≡ Broken 10 }
    ensures need { shown (counting (codes "#@ app a\n#@ allow n 0\n#@ on answer 80* gives *9000 need n 1\n"))
        ≡ Broken 9 }
    ensures need_keeps { shown (counting (codes "#@ app a\n#@ allow n 1\n#@ on answer 80* gives *9000 need n 1\n"))
        ≡ Kept ((codes "n", 1) ∷ []) }
{}

/// Lines apply in their order, and an event comes after those before it.
pub fn orders()
    ensures lines { shown (counting
        (codes "#@ app a\n#@ allow n 0\n#@ on command * allow n 1\n#@ on command * allow n 2\n"))
        ≡ Kept ((codes "n", 2) ∷ []) }
    ensures events { shown (counting
        (codes "#@ app a\n#@ allow n 0\n#@ on answer * gives * allow n 3\n#@ on turn * allow n 2\n" ++
        codes "#@ on command * allow n 1\n"))
        ≡ Kept ((codes "n", 3) ∷ []) }
{}

/// A session begins where the application is selected, and ends with power; a stop before a write is whole leaves its
/// turn uncounted and the command unanswered.
pub fn sessions()
    ensures begins { shown (counting (codes "#@ app a\n#@ allow n 0\n#@ on session allow n 1\n"))
        ≡ Kept ((codes "n", 1) ∷ []) }
    ensures ends { shown (with_rules (codes "power\npower\n#@ app a\n#@ allow n 2\n#@ on session spend n 1\n"))
        ≡ Kept ((codes "n", 0) ∷ []) }
    ensures stop { shown (with_rules
        (codes "cut 1 FFFFFFFFFFFFFFFF\napdu 8001000000\n#@ app a\n#@ allow n 2\n#@ on turn * spend n 1\n" ++
        codes "#@ on answer * gives * spend n 1\n"))
        ≡ Kept ((codes "n", 2) ∷ []) }
{}

/// A range and a total hold after each line.
pub fn always()
    ensures range { shown (counting (codes "#@ app a\n#@ always SB[1] 0 1\n")) ≡ Broken 10 }
    ensures wide { shown (counting (codes "#@ app a\n#@ always SB[1] 0 2\n")) ≡ Kept [] }
    ensures total { shown (counting
        (codes "#@ app a\n#@ sum n 0\n#@ on turn *INCN* add n 1\n#@ always SB[0..1] = 0 + n\n"))
        ≡ Kept [] }
    ensures other { shown (counting
        (codes "#@ app a\n#@ sum n 0\n#@ on turn *INCN* add n 2\n#@ always SB[0..1] = 0 + n\n"))
        ≡ Broken 9 }
{}

/// What waits under protection is kept by a commit, with its event, and dropped else.
pub fn protection()
    ensures commit { shown (with_code (codes "PRIM 3,2\nINCN SB[0],2\nPRIM 3,1\nEXIT\n")
        (codes "#@ app a\n#@ sum n 0\n#@ on turn *INCN* add n 1\n#@ always SB[0..1] = 0 + n\n"))
        ≡ Kept [] }
    ensures drop { shown (with_code (codes "PRIM 3,2\nINCN SB[0],2\nPRIM 3,0\nEXIT\n")
        (codes "#@ app a\n#@ sum n 0\n#@ on turn *INCN* add n 1\n#@ always SB[0..1] = 0 + n\n"))
        ≡ Kept [] }
    ensures torn { shown (with_code (codes "PRIM 3,2\nSETB SB[1],1\nPRIM 3,1\nEXIT\n")
        (codes "#@ app a\n#@ always SB[1] 0 0\n"))
        ≡ Broken 11 }
{}

/// An abend of an instruction is broken where a rule says that none comes; so is an exit with a reply that is too long,
/// which is no turn.
pub fn abends()
    ensures stack { shown (with_code (codes "POPB\nEXIT\n") (codes "#@ app a\n#@ never abend\n")) ≡ Broken 9 }
    ensures allowed { shown (with_code (codes "POPB\nEXIT\n")
        (codes "#@ app a\n#@ allow n 0\n#@ on answer * gives abend* allow n 1\n"))
        ≡ Kept ((codes "n", 1) ∷ []) }
    ensures long { shown (with_code (codes "EXITLA 1025\n") (codes "#@ app a\n#@ never abend\n")) ≡ Broken 8 }
    ensures no_turn { shown (with_code (codes "EXITLA 1025\n")
        (codes "#@ app a\n#@ allow n 0\n#@ on turn * allow n 1\n"))
        ≡ Kept ((codes "n", 0) ∷ []) }
{}

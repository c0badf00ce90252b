#![tactic(auto, unfolding(crate::specs::Computed::closed_after))]

// Worked rows: tables of small applications, closed and not closed.
ghost use Rattle.std.specs.Prelude.{◌≡◌, [], ◌∷◌, ◌++◌, codes, true, false};
ghost use Rattle.law_prove.specs.model_rules.specs.Rules.{no_app_rules};
ghost use Rattle.law_prove.specs.model_prove.specs.Between.{commanded};
ghost use Rattle.law_prove_closed.specs.Computed.{closed_after, deck_of};

/// An application that does nothing: a moment without a session and one in it, and the first place of a frame that a
/// command or a delegation began.
pub fn nothing()
    ensures closed { closed_after 20 (deck_of (codes "EXIT\n") (codes "0 0") (codes "")) ≡ true }
    ensures unfinished { closed_after 0 (deck_of (codes "EXIT\n") (codes "0 0") (codes "")) ≡ false }
{}

/// A counter that is tested before it falls never borrows; one that is not tested does.
pub fn a_counter_falls()
    ensures tested { closed_after 100 (deck_of (codes "TESTN SB[0],1\nJUMP EQ,none\nDECN SB[0],1\nnone: EXIT\n" ++
        codes "DATA 03\n")
        (codes "1 0")
        (codes "#@ allow under 0\n#@ on turn *DECN SB[0],1 8*1? spend under 1\n#@ never abend\n"))
        ≡ true }
    ensures untested { closed_after 100 (deck_of (codes "DECN SB[0],1\nEXIT\nDATA 03\n") (codes "1 0")
        (codes "#@ allow under 0\n#@ on turn *DECN SB[0],1 8*1? spend under 1\n"))
        ≡ false }
{}

/// A return closes the newest call alone: after a call in a call the first one is still open, and a second return ends
/// it; a third one abends.
pub fn a_call_in_a_call()
    ensures closed { closed_after 60
        (deck_of (codes "CALL ALL,first\nEXIT\nfirst: CALL ALL,second\nRET\nsecond: RET\n") (codes "0 0")
        (codes "#@ never abend\n"))
        ≡ true }
    ensures open { closed_after 60
        (deck_of (codes "CALL ALL,first\nRET\nfirst: CALL ALL,second\nRET\nsecond: RET\n") (codes "0 0")
        (codes "#@ never abend\n"))
        ≡ false }
{}

/// The name of a delegator is written after its length, which is 5 to 16. What lies past the longest name stays, and
/// where nobody delegated nothing is written.
pub fn a_delegator_has_a_name()
    ensures length { closed_after 60 (deck_of (codes "LOADA SB[0]\nPRIM 8\nEXIT\n") (codes "18 0")
        (codes "#@ always SB[0] 0 16\n#@ always SB[17] 0 0\n"))
        ≡ true }
    ensures longest { closed_after 60 (deck_of (codes "LOADA SB[0]\nPRIM 8\nEXIT\n") (codes "18 0")
        (codes "#@ always SB[0] 0 15\n"))
        ≡ false }
    ensures bytes { closed_after 60 (deck_of (codes "LOADA SB[0]\nPRIM 8\nEXIT\n") (codes "18 0")
        (codes "#@ always SB[16] 0 254\n"))
        ≡ false }
{}

/// Tables are closed once nothing comes to them, and not before; those that break a rule never are: a byte that is set
/// has both values between commands, since power may go before the write.
pub fn closing()
    ensures closed { closed_after 40 (deck_of (codes "SETB SB[0],1\nEXIT\n") (codes "1 0")
        (codes "#@ always SB[0] 0 1\n"))
        ≡ true }
    ensures unfinished { closed_after 2 (deck_of (codes "SETB SB[0],1\nEXIT\n") (codes "1 0")
        (codes "#@ always SB[0] 0 1\n"))
        ≡ false }
    ensures broken { closed_after 40 (deck_of (codes "SETB SB[0],1\nEXIT\n") (codes "1 0")
        (codes "#@ always SB[0] 0 0\n"))
        ≡ false }
{}

/// Of a moment only facts of static and session bytes go into a command: those of other bytes, which no outcome has but
/// tables may, are left out.
pub fn moments_know_own_bytes()
    ensures { commanded
        (record {
          rules = no_app_rules;
          app = record { code = []; fixed = 7 ∷ []; session = 1; deny = 0; dir = []; fci = []; place = 0 };
        })
        [] ((0, 7 ∷ []) ∷ (2, 5 ∷ []) ∷ (0x8000, 3 ∷ []) ∷ (0x8001, 1 ∷ []) ∷ (0xC000, 0 ∷ []) ∷ [])
        (record { matches = []; sets = [] })
        ≡ commanded
        (record {
          rules = no_app_rules;
          app = record { code = []; fixed = 7 ∷ []; session = 1; deny = 0; dir = []; fci = []; place = 0 };
        })
        [] ((0, 7 ∷ []) ∷ (0x8000, 3 ∷ []) ∷ []) (record { matches = []; sets = [] }) }
{}

#![tactic(auto, unfolding(crate::specs::Computed::walk_of, crate::specs::Computed::search_of))]

// Worked rows: whole tables of sums of small applications.
ghost use Rattle.std.specs.Prelude.{◌≡◌, ◌++◌, [], ◌∷◌, codes, true, false};
ghost use Rattle.law_sum_plays.specs.law_prove_closed.specs.Computed.{deck_of};
ghost use Rattle.law_sum_plays.specs.model_sums.specs.Origins.{PublicByte, ConstantByte};
ghost use Rattle.law_sum_plays.specs.Computed.{walk_of, search_of, all_even, but_at, with_stack, with_more, with_off};

/// A byte that counts additions of 3 is closed with the event.
pub fn an_addition()
    ensures { walk_of 3 ((0, 7 ∷ []) ∷ []) all_even (deck_of (codes "ADDB SB[0],3\nEXIT\n") (codes "1 0")
        (codes "#@ sum s 0\n#@ always SB[0..0] = 0 + s\n#@ on turn *ADDB SB[0],3* add s 3\n")) ≡ true }
{}

/// It is not where the event is another instruction's, or of another amount.
pub fn another_event()
    ensures instruction { walk_of 3 ((0, 7 ∷ []) ∷ []) all_even
        (deck_of (codes "ADDB SB[0],3\nEXIT\n") (codes "1 0")
        (codes "#@ sum s 0\n#@ always SB[0..0] = 0 + s\n#@ on turn *ADDB SB[0],4* add s 3\n")) ≡ false }
    ensures amount { walk_of 3 ((0, 7 ∷ []) ∷ []) all_even
        (deck_of (codes "ADDB SB[0],3\nEXIT\n") (codes "1 0")
        (codes "#@ sum s 0\n#@ always SB[0..0] = 0 + s\n#@ on turn *ADDB SB[0],3* add s 4\n")) ≡ false }
{}

/// It is not where a write follows that no event counts, where a half of the block is written, where the total does not
/// hold at the creation, or where the event of an exit moves a sum.
pub fn broken_totals()
    ensures write { walk_of 4 ((0, 7 ∷ []) ∷ []) all_even
        (deck_of (codes "ADDB SB[0],3\nSETB SB[0],0\nEXIT\n") (codes "1 0")
        (codes "#@ sum s 0\n#@ always SB[0..0] = 0 + s\n#@ on turn *ADDB SB[0],3* add s 3\n")) ≡ false }
    ensures half { walk_of 3 ((1, 7 ∷ []) ∷ []) all_even
        (deck_of (codes "ADDB SB[1],3\nEXIT\n") (codes "2 0")
        (codes "#@ sum s 0\n#@ always SB[0..1] = 0 + s\n#@ on turn *ADDB SB[1],3* add s 3\n")) ≡ false }
    ensures creation { walk_of 3 ((0, 7 ∷ []) ∷ []) all_even
        (deck_of (codes "ADDB SB[0],3\nEXIT\n") (codes "1 0")
        (codes "#@ sum s 1\n#@ always SB[0..0] = 0 + s\n#@ on turn *ADDB SB[0],3* add s 3\n")) ≡ false }
    ensures exit { walk_of 2 [] all_even (deck_of (codes "EXIT\n") (codes "1 0")
        (codes "#@ sum s 0\n#@ always SB[0..0] = 0 + s\n#@ on turn *EXIT* add s 3\n")) ≡ false }
{}

/// The purse's debit: PB[0] is loaded and taken from the block, and its event counts it. The place between has to know
/// what lies on the stack, and no other public byte is as good.
pub fn a_debit()
    ensures known { walk_of 4 ((0, 100 ∷ []) ∷ (0xC000, 5 ∷ []) ∷ [])
        (but_at 4 (with_stack (PublicByte 0 ∷ [])) all_even)
        (deck_of (codes "LOAD PB[0],1\nSUBN SB[0],1\nEXIT\nDATA 64\n") (codes "1 0")
        (codes "#@ sum taken 0\n#@ always SB[0..0] = 100 - taken\n#@ on turn *SUBN SB[0],1* add taken PB[0..0]\n"))
        ≡ true }
    ensures unknown { walk_of 4 ((0, 100 ∷ []) ∷ (0xC000, 5 ∷ []) ∷ []) all_even
        (deck_of (codes "LOAD PB[0],1\nSUBN SB[0],1\nEXIT\nDATA 64\n") (codes "1 0")
        (codes "#@ sum taken 0\n#@ always SB[0..0] = 100 - taken\n#@ on turn *SUBN SB[0],1* add taken PB[0..0]\n"))
        ≡ false }
    ensures untrue { walk_of 4 ((0, 100 ∷ []) ∷ (0xC000, 5 ∷ []) ∷ [])
        (but_at 4 (with_stack (ConstantByte 5 ∷ [])) all_even)
        (deck_of (codes "LOAD PB[0],1\nSUBN SB[0],1\nEXIT\nDATA 64\n") (codes "1 0")
        (codes "#@ sum taken 0\n#@ always SB[0..0] = 100 - taken\n#@ on turn *SUBN SB[0],1* add taken 5\n"))
        ≡ false }
    ensures other { walk_of 4 ((0, 100 ∷ []) ∷ (0xC000, 5 ∷ []) ∷ [])
        (but_at 4 (with_stack (PublicByte 0 ∷ [])) all_even)
        (deck_of (codes "LOAD PB[0],1\nSUBN SB[0],1\nEXIT\nDATA 64\n") (codes "1 0")
        (codes "#@ sum taken 0\n#@ always SB[0..0] = 100 - taken\n#@ on turn *SUBN SB[0],1* add taken PB[1..1]\n"))
        ≡ false }
{}

/// A block that is loaded, increased on the stack and stored moves by as much.
pub fn a_store()
    ensures counted { walk_of 5 ((0, 7 ∷ []) ∷ []) (but_at 4 (with_more 0) (but_at 8 (with_more 3) all_even))
        (deck_of (codes "LOAD SB[0],1\nADDB DT[-1],3\nSTORE SB[0],1\nEXIT\n") (codes "1 0")
        (codes "#@ sum s 0\n#@ always SB[0..0] = 0 + s\n#@ on turn *STORE SB[0],1* add s 3\n")) ≡ true }
    ensures other { walk_of 5 ((0, 7 ∷ []) ∷ []) (but_at 4 (with_more 0) (but_at 8 (with_more 3) all_even))
        (deck_of (codes "LOAD SB[0],1\nADDB DT[-1],3\nSTORE SB[0],1\nEXIT\n") (codes "1 0")
        (codes "#@ sum s 0\n#@ always SB[0..0] = 0 + s\n#@ on turn *STORE SB[0],1* add s 4\n")) ≡ false }
{}

/// Under protection a total may be off until the commit, whose own event counts; what is dropped is dropped with its
/// event.
pub fn a_transaction()
    ensures commit { walk_of 5 ((0, 7 ∷ []) ∷ []) (but_at 7 (with_off 3) all_even)
        (deck_of (codes "PRIM 3,2\nADDB SB[0],3\nPRIM 3,1\nEXIT\n") (codes "1 0")
        (codes "#@ sum s 0\n#@ always SB[0..0] = 0 + s\n#@ on turn *PRIM 3,1* add s 3\n")) ≡ true }
    ensures uncounted { walk_of 5 ((0, 7 ∷ []) ∷ []) (but_at 7 (with_off 3) all_even)
        (deck_of (codes "PRIM 3,2\nADDB SB[0],3\nPRIM 3,1\nEXIT\n") (codes "1 0")
        (codes "#@ sum s 0\n#@ always SB[0..0] = 0 + s\n#@ on turn *PRIM 3,3* add s 3\n")) ≡ false }
    ensures drop { walk_of 5 ((0, 7 ∷ []) ∷ []) (but_at 7 (with_off 3) all_even)
        (deck_of (codes "PRIM 3,2\nADDB SB[0],3\nPRIM 3,0\nEXIT\n") (codes "1 0")
        (codes "#@ sum s 0\n#@ always SB[0..0] = 0 + s\n#@ on turn *PRIM 3,0* add s 3\n")) ≡ true }
{}

/// Beside the tables of the search, beginnings of frames are asked too: what they may not say is refused.
pub fn beginnings()
    ensures closed { search_of 20 all_even (deck_of (codes "EXIT\n") (codes "1 0")
        (codes "#@ sum s 0\n#@ always SB[0..0] = 0 + s\n")) ≡ true }
    ensures off { search_of 20 (but_at 0 (with_off 1) all_even) (deck_of (codes "EXIT\n") (codes "1 0")
        (codes "#@ sum s 0\n#@ always SB[0..0] = 0 + s\n")) ≡ false }
    ensures stack { search_of 20 (but_at 0 (with_stack (ConstantByte 0 ∷ [])) all_even)
        (deck_of (codes "EXIT\n") (codes "1 0")
        (codes "#@ sum s 0\n#@ always SB[0..0] = 0 + s\n")) ≡ false }
{}

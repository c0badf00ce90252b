#![tactic(auto, unfolding(model_stack::specs::StackShape::look, crate::specs::Checked::verdict))]

ghost use Rattle.std.specs.Prelude.{◌≡◌, ◌∷◌, ◌++◌, [], codes, pos, negsuc, true, false, Some, None};
ghost use Rattle.model_stack.specs.StackRows.{need, height_after, always_abends, is_plain_at};
ghost use Rattle.model_stack.specs.StackShape.{Main, At, Bad, Stands, fact, look};
ghost use Rattle.model_text.specs.declared.checker.CheckCause.TheVariants.{Undefined, Past, Indirect, Returns, Under, Target};
ghost use Rattle.model_machine.specs.declared.instruction.Ins.TheVariants.{Prim, Ret, Retio, Load, Store, Storei, Index, Setw, Addn, Incn, Popn};
ghost use Rattle.model_examples.specs.Checked.{verdict};
ghost use Rattle.model_examples.specs.Written.{hex};

/// Code that is accepted, with its deepest stack: the counter, the purse, a call, an endless branch.
pub fn accepted()
    ensures counter { verdict (hex (codes "B9020000 39020000 46020000 060002")) 0 ≡ Some 2 }
    ensures purse { verdict (hex (
        codes "7730FFF4 110023 7740FFF4 11002C 7750FFF4 110018 056D00" ++
        codes "39040000 46040000 060004 3E040000 D9040000 04" ++
        codes "39040000 3E040000 E004 12004A 2404 290302 41040000 B9020008 290301 04 056985")) 0 ≡ Some 8 }
    ensures call { verdict (hex (codes "2105 1F000C 46010000 060001 3C01FFFB 7803 2F0101")) 0 ≡ Some 6 }
    ensures endless { verdict (hex (codes "0FFE")) 0 ≡ Some 0 }
    ensures deepest_session { verdict (hex (codes "210104")) 511 ≡ Some 1 }
{}

/// Code that is refused.
pub fn refused()
    ensures undefined { verdict (hex (codes "30")) 0 ≡ None }
    ensures under { verdict (hex (codes "25")) 0 ≡ None }
    ensures returns { verdict (hex (codes "2C")) 0 ≡ None }
    ensures indirect { verdict (hex (codes "10")) 0 ≡ None }
    ensures target { verdict (hex (codes "00")) 0 ≡ None }
    ensures store { verdict (hex (codes "2101400104")) 0 ≡ None }
    ensures taken_by_a_call { verdict (hex (codes "1F0004042D01")) 0 ≡ None }
    ensures deep { verdict (hex (codes "210104")) 512 ≡ None }
{}

/// What is seen of one fact alone, the first cause of the table.
pub fn seen_alone()
    ensures undefined { look (hex (codes "30")) (fact Main 0 0) ≡ Bad Undefined }
    ensures past { look (hex (codes "00")) (fact Main 1 0) ≡ Bad Past }
    ensures cut_short { look (hex (codes "39")) (fact Main 0 0) ≡ Bad Past }
    ensures indirect { look (hex (codes "10")) (fact Main 0 0) ≡ Bad Indirect }
    ensures indirect_call { look (hex (codes "18")) (fact Main 0 0) ≡ Bad Indirect }
    ensures return_of_main { look (hex (codes "2E05")) (fact Main 0 0) ≡ Bad Returns }
    ensures return_of_a_routine { look (hex (codes "2C")) (fact (At 0) 0 0) ≡ Stands Ret 1 }
    ensures too_few { look (hex (codes "2E05")) (fact (At 0) 0 4) ≡ Bad Under }
    ensures store { look (hex (codes "2101400104")) (fact Main 2 1) ≡ Bad Under }
    ensures behind_the_end { look (hex (codes "00")) (fact Main 0 0) ≡ Bad Target }
    ensures target_of_a_jump { look (hex (codes "1700")) (fact Main 0 0) ≡ Bad Past }
    ensures far_target { look (hex (codes "170003")) (fact Main 0 0) ≡ Bad Target }
    ensures before_the_code { look (hex (codes "0FFD04")) (fact Main 0 0) ≡ Bad Target }
    ensures behind_a_call { look (hex (codes "1F0000")) (fact Main 0 0) ≡ Bad Target }
    ensures always_abends { look (hex (codes "2400")) (fact Main 0 0) ≡ Stands (Popn 0) 2 }
    ensures no_primitive { look (hex (codes "28FF")) (fact Main 0 0) ≡ Stands (Prim 0 255 (0 ∷ 0 ∷ 0 ∷ [])) 2 }
{}

/// The bytes that instructions need, and the heights after them.
pub fn needs_and_heights()
    ensures store { need (Store 1 (pos 0) 4) ≡ 4 }
    ensures store_on_top { need (Store 0 (pos 0) 4) ≡ 8 }
    ensures store_indirect { need (Storei 0 (pos 0) 4) ≡ 6 }
    ensures word_on_top { need (Setw 0 (pos 0) 1) ≡ 2 }
    ensures pair { need (Addn 1 (pos 0) 16) ≡ 16 }
    ensures pair_that_abends { need (Addn 1 (pos 0) 17) ≡ 0 }
    ensures back { need (Retio 3 2) ≡ 2 }
    ensures signature { need (Prim 1 8 (8 ∷ 0 ∷ 0 ∷ [])) ≡ 8 }
    ensures signature_that_abends { need (Prim 1 12 (8 ∷ 0 ∷ 0 ∷ [])) ≡ 0 }
    ensures shift { need (Prim 2 2 (4 ∷ 1 ∷ 0 ∷ [])) ≡ 4 }
    ensures after_load { height_after (Load 1 (pos 0) 4) 3 ≡ 7 }
    ensures after_store { height_after (Store 1 (pos 0) 4) 9 ≡ 5 }
    ensures after_index { height_after (Index 1 (pos 0) 2) 1 ≡ 2 }
    ensures after_index_on_top { height_after (Index 0 (pos 0) 2) 3 ≡ 2 }
    ensures after_lookup { height_after (Prim 0 4 (0 ∷ 0 ∷ 0 ∷ [])) 3 ≡ 1 }
    ensures after_increment { height_after (Incn 0 (pos 0) 4) 4 ≡ 4 }
    ensures abends { always_abends (Incn 0 (pos 0) 17) ≡ true }
{}

/// Addresses that are plain, at a session of 8 bytes and the height 4.
pub fn plain_addresses()
    ensures top { is_plain_at 8 4 0 (pos 0) 4 ≡ true }
    ensures static_start { is_plain_at 8 4 1 (pos 0) 4 ≡ true }
    ensures before_static { is_plain_at 8 4 1 (negsuc 0) 4 ≡ false }
    ensures static_end { is_plain_at 8 4 2 (negsuc 0) 4 ≡ true }
    ensures behind_static { is_plain_at 8 4 2 (pos 0) 4 ≡ false }
    ensures session { is_plain_at 8 4 3 (pos 4) 4 ≡ true }
    ensures behind_session { is_plain_at 8 4 3 (pos 5) 4 ≡ false }
    ensures before_session { is_plain_at 8 4 3 (negsuc 0) 1 ≡ false }
    ensures frame { is_plain_at 8 4 4 (pos 0) 4 ≡ true }
    ensures behind_frame { is_plain_at 8 4 4 (pos 1) 4 ≡ false }
    ensures arguments { is_plain_at 8 4 4 (negsuc 4) 1 ≡ false }
    ensures below_top { is_plain_at 8 4 5 (negsuc 3) 4 ≡ true }
    ensures over_top { is_plain_at 8 4 5 (negsuc 2) 4 ≡ false }
    ensures below_frame { is_plain_at 8 4 5 (negsuc 4) 1 ≡ false }
    ensures at_top { is_plain_at 8 4 5 (pos 0) 1 ≡ false }
    ensures public { is_plain_at 8 4 6 (negsuc 4095) 4 ≡ true }
    ensures before_public { is_plain_at 8 4 7 (negsuc 4096) 4 ≡ false }
{}

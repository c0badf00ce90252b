// Worked rows: forms, origins, blocks that move, events.
ghost use Rattle.std.specs.Prelude.{◌≡◌, [], ◌∷◌, true, false, Some, None};
ghost use Rattle.model_prove.specs.model_rules.specs.Rules.{Constant, PublicBytes};
ghost use Rattle.model_prove.specs.Digits.{Minus};
ghost use Rattle.model_prove.specs.Work.{AtAddress};
ghost use Rattle.model_sums.specs.Forms.{number, public_byte, plus, minus, times, is_zero, same_forms};
ghost use Rattle.model_sums.specs.Origins.{Unknown, ConstantByte, PublicByte, origin_at, origins_follow, with_origins};
ghost use Rattle.model_sums.specs.Origins.{form_of, origins_below, without_public};
ghost use Rattle.model_sums.specs.Sums.{are_even};
ghost use Rattle.model_sums.specs.Operations.{form_of_operand, moved_by};
ghost use Rattle.model_sums.specs.Writes.{off_after, offs_after, more_after, dropped};
ghost use Rattle.model_sums.specs.Events.{asks, drops, form_of_amount, offs_after_line};

/// Forms add factor by factor, and are compared modulo 256 to the length of a block.
pub fn forms()
    ensures sum { plus (record { constant = 3; terms = (2, 1) ∷ [] })
        (record { constant = 4; terms = (2, 5) ∷ (1, 1) ∷ [] })
        ≡ record { constant = 7; terms = (2, 6) ∷ (1, 1) ∷ [] } }
    ensures wraps { same_forms 1 (number 256) (number 0) ≡ true }
    ensures wraps_no_more { same_forms 2 (number 256) (number 0) ≡ false }
    ensures less_itself { is_zero 2 (minus 2 (public_byte 7) (public_byte 7)) ≡ true }
    ensures other_byte { same_forms 2 (public_byte 7) (public_byte 8) ≡ false }
    ensures factor { same_forms 1 (times 257 (public_byte 7)) (public_byte 7) ≡ true }
{}

/// The number in bytes is big endian; one byte that is not known makes it unknown.
pub fn numbers()
    ensures two { form_of (PublicByte 0 ∷ PublicByte 1 ∷ [])
        ≡ Some (record { constant = 0; terms = (0, 256) ∷ (1, 1) ∷ [] }) }
    ensures mixed { form_of (ConstantByte 2 ∷ PublicByte 1 ∷ [])
        ≡ Some (record { constant = 512; terms = (1, 1) ∷ [] }) }
    ensures unknown { form_of (PublicByte 0 ∷ Unknown ∷ []) ≡ None }
{}

/// A static byte has no origin, whatever is listed, as what waits may be dropped; a public byte that is not listed is
/// its own until it is written, or a delegation made public bytes any.
pub fn origins()
    ensures static_byte { origin_at (record { own = true; listed = (5, ConstantByte 7) ∷ [] }) 5 ≡ Unknown }
    ensures own { origin_at (record { own = true; listed = [] }) 0xC003 ≡ PublicByte 3 }
    ensures written { origin_at (with_origins 0xC002 (Unknown ∷ ConstantByte 1 ∷ [])
        (record { own = true; listed = [] })) 0xC003 ≡ ConstantByte 1 }
    ensures delegated { origin_at (without_public (record { own = true; listed = (0x8000, ConstantByte 7) ∷ [] }))
        0xC003 ≡ Unknown }
    ensures stack_stays { origin_at (without_public (record { own = true; listed = (0x8000, ConstantByte 7) ∷ [] }))
        0x8000 ≡ ConstantByte 7 }
    ensures popped { origin_at (origins_below 0x8000 (record { own = true; listed = (0x8000, ConstantByte 7) ∷ [] }))
        0x8000 ≡ Unknown }
    ensures weaker { origins_follow (record { own = true; listed = (0x8000, ConstantByte 7) ∷ [] })
        (record { own = false; listed = (0xC001, PublicByte 1) ∷ [] }) ≡ true }
    ensures stronger { origins_follow (record { own = true; listed = (0x8000, ConstantByte 7) ∷ [] })
        (record { own = true; listed = (0x8000, ConstantByte 8) ∷ [] }) ≡ false }
{}

/// A block that is written as a whole moves, in part it ends, and elsewhere it stays.
pub fn blocks()
    ensures whole { off_after 0 2 (Some (number 9)) (record { number = 1; at = 0; n = 2; constant = 0; terms = [] })
        (Some (number 1)) ≡ Some (number 10) }
    ensures half { off_after 1 1 (Some (number 9)) (record { number = 1; at = 0; n = 2; constant = 0; terms = [] })
        (Some (number 1)) ≡ None }
    ensures wider { off_after 0 3 (Some (number 9)) (record { number = 1; at = 0; n = 2; constant = 0; terms = [] })
        (Some (number 1)) ≡ None }
    ensures elsewhere { off_after 2 2 (Some (number 9))
        (record { number = 1; at = 0; n = 2; constant = 0; terms = [] })
        (Some (number 1)) ≡ Some (number 1) }
    ensures unknown { off_after 0 2 None (record { number = 1; at = 0; n = 2; constant = 0; terms = [] })
        (Some (number 1)) ≡ None }
{}

/// A loaded block becomes more with what is added to it, less with what is added to the block that it was loaded
/// from, and ends where one of them is written in part.
pub fn loaded_blocks()
    ensures more { more_after 0x8000 2 (Some (number 9)) (record { at = 0x8000; from = 0; n = 2; form = number 1 })
        ≡ record { at = 0x8000; from = 0; n = 2; form = number 10 } ∷ [] }
    ensures less { more_after 0 2 (Some (number 1)) (record { at = 0x8000; from = 0; n = 2; form = number 1 })
        ≡ record { at = 0x8000; from = 0; n = 2; form = number 65536 } ∷ [] }
    ensures half { more_after 0x8001 1 (Some (number 9)) (record { at = 0x8000; from = 0; n = 2; form = number 1 })
        ≡ [] }
    ensures itself { more_after 0 2 (Some (number 1)) (record { at = 0; from = 0; n = 2; form = number 0 }) ≡ [] }
{}

/// The purse's debit by SUBN of the block: it takes PB[0..1] away, which are on the stack, and the event adds them to
/// what was taken; the block is 1000 less that sum, so it is not off. Without the event, or with one that takes, it is.
pub fn debits()
    ensures origin { form_of_operand
        (record { own = true; listed = (0x8000, PublicByte 0) ∷ (0x8001, PublicByte 1) ∷ [] })
        2 (AtAddress 0x8000) ≡ Some (record { constant = 0; terms = (0, 256) ∷ (1, 1) ∷ [] }) }
    ensures moved { are_even
        (record { number = 1; at = 0; n = 2; constant = 1000; terms = (false, 7 ∷ []) ∷ [] } ∷ [])
        (offs_after 0 2 (moved_by Minus 2 (form_of (PublicByte 0 ∷ PublicByte 1 ∷ [])))
        (record { number = 1; at = 0; n = 2; constant = 1000; terms = (false, 7 ∷ []) ∷ [] } ∷ [])
        (Some (number 0) ∷ [])) ≡ false }
    ensures counted { are_even
        (record { number = 1; at = 0; n = 2; constant = 1000; terms = (false, 7 ∷ []) ∷ [] } ∷ [])
        (offs_after_line (record { number = 2; line = []; adds = true; name = 7 ∷ []; amount = PublicBytes 0 2 })
        (form_of_amount (record { own = true; listed = [] }) (PublicBytes 0 2))
        (record { number = 1; at = 0; n = 2; constant = 1000; terms = (false, 7 ∷ []) ∷ [] } ∷ [])
        (offs_after 0 2 (moved_by Minus 2 (form_of (PublicByte 0 ∷ PublicByte 1 ∷ [])))
        (record { number = 1; at = 0; n = 2; constant = 1000; terms = (false, 7 ∷ []) ∷ [] } ∷ [])
        (Some (number 0) ∷ []))) ≡ true }
    ensures taken { are_even
        (record { number = 1; at = 0; n = 2; constant = 1000; terms = (false, 7 ∷ []) ∷ [] } ∷ [])
        (offs_after_line (record { number = 2; line = []; adds = false; name = 7 ∷ []; amount = PublicBytes 0 2 })
        (form_of_amount (record { own = true; listed = [] }) (PublicBytes 0 2))
        (record { number = 1; at = 0; n = 2; constant = 1000; terms = (false, 7 ∷ []) ∷ [] } ∷ [])
        (offs_after 0 2 (moved_by Minus 2 (form_of (PublicByte 0 ∷ PublicByte 1 ∷ [])))
        (record { number = 1; at = 0; n = 2; constant = 1000; terms = (false, 7 ∷ []) ∷ [] } ∷ [])
        (Some (number 0) ∷ []))) ≡ false }
{}

/// An amount in public bytes that were written or lost, or that lie outside of the segment, is not known.
pub fn amounts()
    ensures constant { form_of_amount (record { own = false; listed = [] }) (Constant 3) ≡ Some (number 3) }
    ensures own { form_of_amount (record { own = true; listed = [] }) (PublicBytes 2 1)
        ≡ Some (record { constant = 0; terms = (2, 1) ∷ [] }) }
    ensures lost { form_of_amount (record { own = false; listed = [] }) (PublicBytes 2 1) ≡ None }
    ensures written { form_of_amount (record { own = true; listed = (0xC002, Unknown) ∷ [] }) (PublicBytes 2 1) ≡ None }
    ensures outside { form_of_amount (record { own = true; listed = [] }) (PublicBytes 1041 1) ≡ None }
{}

/// Totals are asked at each instruction without protection, and at a commit; an event that is dropped counts nothing.
pub fn asked()
    ensures plain { asks false None ≡ true }
    ensures begins { asks false (Some 2) ≡ true }
    ensures waits { asks true None ≡ false }
    ensures commits { asks true (Some 1) ≡ true }
    ensures drops { asks true (Some 0) ≡ false }
    ensures dropped { drops true (Some 2) ≡ true }
    ensures counted { drops true (Some 3) ≡ false }
    ensures alone { drops false (Some 0) ≡ false }
{}

/// What is dropped makes totals even, and loaded blocks end.
pub fn drops_are_even()
    ensures { dropped true (record { number = 1; at = 0; n = 2; constant = 0; terms = [] } ∷ [])
        (record {
          origins = record { own = true; listed = (0x8000, ConstantByte 7) ∷ [] };
          mores = record { at = 0x8000; from = 0; n = 2; form = number 1 } ∷ [];
          offs = None ∷ [];
        })
        ≡ record {
          origins = record { own = true; listed = (0x8000, ConstantByte 7) ∷ [] };
          mores = [];
          offs = Some (number 0) ∷ [];
        } }
{}

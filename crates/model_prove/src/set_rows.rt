// Worked rows: sets, digits, rounding, patterns that are followed, classes of commands.
ghost use Rattle.std.specs.Prelude.{◌≡◌, [], ◌∷◌, codes, length, true, false, Some, None};
ghost use Rattle.model_prove.specs.Sets.{union, common, numbers_from};
ghost use Rattle.model_prove.specs.Digits.{Minus, Plus, arcs, digits_to};
ghost use Rattle.model_rules.specs.model_events.specs.Matching.{plain};
ghost use Rattle.model_prove.specs.Texts.{opened, after_text, is_match};
ghost use Rattle.model_prove.specs.Between.{rounded, headers, classes_of};
ghost use Rattle.model_prove.specs.Reach.{target_choices};

/// Unions and intersections are ascending.
pub fn sets()
    ensures union { union (1 ∷ 5 ∷ []) (0 ∷ 5 ∷ 9 ∷ []) ≡ 0 ∷ 1 ∷ 5 ∷ 9 ∷ [] }
    ensures common { common (1 ∷ 5 ∷ 9 ∷ []) (0 ∷ 5 ∷ 9 ∷ []) ≡ 5 ∷ 9 ∷ [] }
{}

/// A byte that is 1, 5 or 9 compared with 5: each pair of flags narrows it to the values that lead there, and a pair to
/// which no value leads is no outcome.
pub fn compared_bytes()
    ensures less { digits_to (record { c = true; z = false }) (arcs Minus (1 ∷ 5 ∷ 9 ∷ [], 5 ∷ []) ∷ [])
        ≡ Some (record { a = 1 ∷ []; b = 5 ∷ []; r = 252 ∷ [] } ∷ []) }
    ensures equal { digits_to (record { c = false; z = true }) (arcs Minus (1 ∷ 5 ∷ 9 ∷ [], 5 ∷ []) ∷ [])
        ≡ Some (record { a = 5 ∷ []; b = 5 ∷ []; r = 0 ∷ [] } ∷ []) }
    ensures greater { digits_to (record { c = false; z = false }) (arcs Minus (1 ∷ 5 ∷ 9 ∷ [], 5 ∷ []) ∷ [])
        ≡ Some (record { a = 9 ∷ []; b = 5 ∷ []; r = 4 ∷ [] } ∷ []) }
    ensures none { digits_to (record { c = true; z = true }) (arcs Minus (1 ∷ 5 ∷ 9 ∷ [], 5 ∷ []) ∷ []) ≡ None }
{}

/// A carry goes from byte to byte: 00FF or 01FF plus 1 is 0100 or 0200, and no other flags come.
pub fn carried_bytes()
    ensures sum { digits_to (record { c = false; z = false })
        (arcs Plus (255 ∷ [], 1 ∷ []) ∷ arcs Plus (0 ∷ 1 ∷ [], 0 ∷ []) ∷ [])
        ≡ Some (record { a = 255 ∷ []; b = 1 ∷ []; r = 0 ∷ [] }
        ∷ record { a = 0 ∷ 1 ∷ []; b = 0 ∷ []; r = 1 ∷ 2 ∷ [] } ∷ []) }
    ensures no_carry { digits_to (record { c = true; z = false })
        (arcs Plus (255 ∷ [], 1 ∷ []) ∷ arcs Plus (0 ∷ 1 ∷ [], 0 ∷ []) ∷ []) ≡ None }
{}

/// A set of more than 16 values is rounded to a range around it, or to nothing; a smaller one stays.
pub fn rounding()
    ensures range { rounded (record { number = 1; at = 0; low = 0; high = 20 } ∷ []) ((0, numbers_from 2 17) ∷ [])
        ≡ (0, numbers_from 0 21) ∷ [] }
    ensures no_range { rounded [] ((0, numbers_from 2 17) ∷ []) ≡ [] }
    ensures small { rounded [] ((0, numbers_from 2 16) ∷ []) ≡ (0, numbers_from 2 16) ∷ [] }
{}

/// A pattern splits the commands into those that match and those that do not; one that every command matches does not.
pub fn command_classes()
    ensures two { length (classes_of (headers (codes "8020*" ∷ []))) ≡ 2 }
    ensures one { length (classes_of (headers (codes "*" ∷ []))) ≡ 1 }
    ensures length_tells { length (classes_of (headers (codes "????????*00" ∷ []))) ≡ 2 }
{}

/// A pattern that is followed through a text: `?` is one character, `*` any characters or none, every other one itself,
/// a bracket too; letters are in either case, blanks are nothing, and an empty pattern matches nothing.
pub fn followed_patterns()
    ensures star { is_match (after_text (plain (codes "80200001")) (opened (codes "8020*"))) ≡ true }
    ensures none { is_match (after_text (plain (codes "8020")) (opened (codes "8020*"))) ≡ true }
    ensures other { is_match (after_text (plain (codes "8021")) (opened (codes "8020*"))) ≡ false }
    ensures one { is_match (after_text (plain (codes "8020")) (opened (codes "802?"))) ≡ true }
    ensures too_few { is_match (after_text (plain (codes "802")) (opened (codes "802?"))) ≡ false }
    ensures too_many { is_match (after_text (plain (codes "80200")) (opened (codes "802?"))) ≡ false }
    ensures between { is_match (after_text (plain (codes "8020020102")) (opened (codes "8020*02"))) ≡ true }
    ensures once { is_match (after_text (plain (codes "802002")) (opened (codes "8020*02*02"))) ≡ false }
    ensures stars { is_match (after_text (plain (codes "80009000")) (opened (codes "**9000"))) ≡ true }
    ensures letters { is_match (after_text (plain (codes "FB0A")) (opened (codes "fb 0?"))) ≡ true }
    ensures bracket { is_match (after_text (plain (codes "8020")) (opened (codes "80[2]0"))) ≡ false }
    ensures itself { is_match (after_text (plain (codes "SB[3],2")) (opened (codes "sb[3]*"))) ≡ true }
    ensures empty { is_match (after_text [] (opened [])) ≡ false }
{}

/// A jump to an address from the stack is followed to each place of the code that two sets allow, and once to a place
/// that is not in the code, if they allow one; the order of a set does not matter.
pub fn targets()
    ensures inside { target_choices ((0, 0 ∷ []) ∷ (1, 3 ∷ 5 ∷ []) ∷ []) 0 10
        ≡ ((0, 0) ∷ (1, 3) ∷ []) ∷ ((0, 0) ∷ (1, 5) ∷ []) ∷ [] }
    ensures outside { target_choices ((0, 0 ∷ []) ∷ (1, 20 ∷ 3 ∷ []) ∷ []) 0 10
        ≡ ((0, 0) ∷ (1, 3) ∷ []) ∷ ((0, 0) ∷ (1, 20) ∷ []) ∷ [] }
{}

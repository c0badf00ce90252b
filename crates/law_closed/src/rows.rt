//! Worked rows: applications that can delegate and that cannot, and plays of two of them.
#![tactic(auto, unfolding(crate::specs::Computed::can_with, crate::specs::Computed::pairs_of, crate::specs::Computed::callers_of, crate::specs::Computed::steps_of))]

ghost use Rattle.std.specs.Prelude.{◌≡◌, true, false, List, [], ◌∷◌, ℕ};
ghost use Rattle.law_family.specs.model_play.specs.Family.{Closed};
ghost use Rattle.law_family.specs.Worked.{counter, first, second};
ghost use Rattle.law_closed.specs.Laws.{NoStrangerCan, OwnPairsStay};
ghost use Rattle.law_closed.specs.Computed.{calling_code, caller, callers_of, can_with, counter_code, pairs_of, spelling_code, steps_of};

/// The counter of the examples cannot delegate by its code.
pub fn counter_cannot()
    ensures { can_with counter_code 0 ≡ false }
{}

/// A code with the primitive can, unless the access list denies it.
pub fn code_with_delegation()
    ensures can { can_with calling_code 0 ≡ true }
    ensures denied { can_with calling_code 2 ≡ false }
    ensures other_denied { can_with calling_code 13 ≡ true }
{}

/// Operands that spell the primitive count as the primitive, since a jump may lead there.
pub fn operands_count()
    ensures { can_with spelling_code 0 ≡ true }
{}

/// Two counters on one card: neither can delegate, there is no pair, and every family is closed.
pub fn two_counters()
    ensures callers { callers_of (counter first) (counter second) ≡ [] }
    ensures pairs { pairs_of (counter first) (counter second) ≡ [] }
    ensures premise { NoStrangerCan [] (steps_of (counter first) (counter second)) }
    ensures closed { (K : List (List ℕ)) → Closed K (steps_of (counter first) (counter second)) }
{}

/// An application that delegates to a counter: it alone can, and the one pair is its own.
pub fn caller_and_counter()
    ensures callers { callers_of caller (counter second) ≡ first ∷ [] }
    ensures pairs { pairs_of caller (counter second) ≡ (first, second) ∷ [] }
    ensures strangers { NoStrangerCan (first ∷ second ∷ []) (steps_of caller (counter second)) }
    ensures own { OwnPairsStay (first ∷ second ∷ []) (steps_of caller (counter second)) }
    ensures closed { Closed (first ∷ second ∷ []) (steps_of caller (counter second)) }
    ensures alone { Closed (first ∷ []) (steps_of caller (counter second)) → ⊥ }
{}

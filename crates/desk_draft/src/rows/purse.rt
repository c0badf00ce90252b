#![tactic(auto, unfolding(crate::specs::Computed::deck, crate::specs::Computed::listing, crate::specs::Computed::check, crate::specs::Computed::trace, crate::specs::Computed::cover))]

// A whole draft against what another implementation makes of it.
ghost use Rattle.std.specs.Prelude.{◌≡◌, ◌∷◌, [], codes, Ok};
ghost use Rattle.desk_draft.specs.Computed.{check, cover, deck, listing, trace};
ghost use Rattle.desk_draft.specs.PurseDraft.{purse_draft, purse_deck, purse_listing, purse_verdicts, purse_trace, purse_record};

/// The deck of the purse.
pub fn deck_of_the_purse()
    ensures { deck purse_draft ≡ Ok purse_deck }
{}

/// A deck makes itself.
pub fn deck_of_its_deck()
    ensures { deck purse_deck ≡ Ok purse_deck }
{}

/// The listing of the purse.
pub fn listing_of_the_purse()
    ensures { listing purse_draft ≡ Ok purse_listing }
{}

/// The verdict on the purse, which is accepted.
pub fn verdict_on_the_purse()
    ensures { check ((57, Ok 2) ∷ []) purse_draft ≡ Ok purse_verdicts }
{}

/// The trace of the purse.
pub fn trace_of_the_purse()
    ensures { trace purse_draft ≡ Ok purse_trace }
{}

/// The LCOV record of the purse.
pub fn record_of_the_purse()
    ensures { cover (codes "purse.draft") purse_draft ≡ Ok purse_record }
{}

ghost use Rattle.law_sum_plays.specs.KeptDecks.{KeptLaw, ProvedDeckLaw};

/// Rules of a deck that are kept in every play, as closed tables prove it, are broken in no exploration of the deck
/// that brings only their application under its name.
pub fn proved_decks_break_in_no_exploration()
    ensures { ProvedDeckLaw }
{}

/// Without that premise the law is false: a deck may delete the application of its rules, load another one under its
/// name and explore that one.
pub fn kept_rules_need_their_application()
    ensures { KeptLaw → ⊥ }
{}

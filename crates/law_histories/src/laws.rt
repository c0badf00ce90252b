ghost use Rattle.law_histories.specs.Kept.{ExplorationLaw, OnlyTargetLaw};

/// Rules that are kept in every play are broken in no exploration of a deck that they stand in, if the deck and each
/// try of the search bring only their application under its name.
pub fn kept_rules_break_in_no_exploration()
    ensures { ExplorationLaw }
{}

/// So it is at every depth if the deck brings only their application and no move is a CREATE.
pub fn moves_without_creations_break_no_rules()
    ensures { OnlyTargetLaw }
{}

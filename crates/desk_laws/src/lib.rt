#![tactic(auto)]

//! The law of decks as drafts, over the definitions alone: a deck that the card accepts makes itself.

mod rows;

ghost use Rattle.desk_draft.specs.Laws.{DeckMakesItself};

/// Every deck that the card accepts is a draft, and makes itself, byte for byte.
pub fn deck_makes_itself()
    ensures { DeckMakesItself }
{}

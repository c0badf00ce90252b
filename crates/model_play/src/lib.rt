#![tactic(auto)]

//! Decks, their plays and texts, families of applications, and the laws of plays.

mod deck;

pub use deck::DeckCause;
pub use model_card;
pub use model_card::model_machine;
pub use model_text;

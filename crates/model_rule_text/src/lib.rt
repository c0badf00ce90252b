//! How the rules of an application are read from the text of a deck.
#![tactic(auto)]

pub use model_rules::model_machine;

#![tactic(auto)]

//! Patterns matched against texts, and the first field of a line, for the expectations of a deck and for the rules of
//! an exploration.

mod field;
mod matching;

pub use field::{begins_with, first_field, stays_inside};
pub use matching::{fits, small};
pub use model_events::model_machine;

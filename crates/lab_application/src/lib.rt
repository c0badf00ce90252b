#![tactic(auto)]

//! Explores a deck whose rules speak of one application: counts what happens to the application along every sequence of
//! the deck's moves, each move whole and cut in each of its device writes, and finds the first that breaks a rule.

mod attempts;
mod courses;
mod cuts;
mod ending;
mod exploring;
mod naming;
mod rounds;
mod statics;

pub use exploring::{explore, explore_within};

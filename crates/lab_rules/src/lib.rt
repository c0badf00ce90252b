#![tactic(auto)]

//! The rules of a deck, which are comments of it: the moves of a terminal, the allowances of an application,
//! and what a move does to an allowance.

mod field;
mod laws;
mod occasions;
mod parts;
mod pattern;
mod reading;
mod refusal;
mod rules;

pub use laws::counts_are_times;
pub use occasions::{applications, apply_all, count, count_turn, has_turns};
pub use pattern::plain_into;
pub use reading::{Exploration, add_line, read_exploration, refusal_at};
pub use refusal::ExplorationRefusal;
pub use rules::{Allowance, Effect, Move, Occasion, OnRule, Rules};

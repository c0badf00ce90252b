//! The text of an exploration: what it says is so of every sequence of moves and cuts.
#![tactic(auto)]

mod laws;
mod purse_rows;
mod refusal_rows;
mod rows;

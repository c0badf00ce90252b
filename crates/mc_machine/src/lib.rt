#![tactic(auto)]

//! Chains of applications: turns, runs, delegation and exit.

mod chain;
mod fetch;
mod known;
mod laws;
mod lone;
mod outcome;
mod place;
mod running;
mod turning;
mod waiting;

pub use chain::{Chain, begin};
pub use laws::{new_frames_guarded, rows_keep, rows_see};
pub use outcome::{BriefTurn, End, Outcome, Turn};
pub use place::ChainPlace;
pub use running::{run, run_into};
pub use turning::{brief_turn, turn};

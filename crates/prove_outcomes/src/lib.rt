#![tactic(auto)]

//! What each instruction can do to what is known of a frame: its outcomes.

mod coarse;
mod compute;
mod jumps;
mod numbers;
mod prims;
mod rows;
mod shared;
mod shifts;
mod splitting;
mod state;
mod step;

pub use rows::row;
pub use state::{Sizes, State};
pub use step::Step;

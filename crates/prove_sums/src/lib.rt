#![tactic(auto)]

//! What is known for sums at the places of an application, and where it goes with an instruction and its event.

mod acts;
mod coarse;
mod events;
mod follows;
mod kept;
mod laws;
mod modes;
mod moves;
mod numbers;
mod optional;
mod stack;
mod values;
mod works;
mod writes;

pub use coarse::moved_coarsely;
pub use events::counted;
pub use laws::{coarse_outlines_move_alike, outlines_move_alike};
pub use modes::{asks, drops, mode_of};
pub use moves::moved;
pub use values::{Before, More, Sums};

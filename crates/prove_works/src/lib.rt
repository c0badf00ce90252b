#![tactic(auto)]

//! What a row makes of a place with what is known there.

mod coarse;
mod hits;
mod lists;
mod narrowing;
mod numbers;
mod operands;
mod reach;
mod rows;
mod searched;
mod searches;
mod worked;

pub use coarse::{coarse_spots, reaches_static};
pub use lists::list_of;
pub use reach::{Reach, is_reached, reach_of, some_reached};
pub use rows::spots;

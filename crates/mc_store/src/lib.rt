#![tactic(auto)]

//! A card in the words of a device: its power-up, and the bank of its applications.

mod block;
mod changes;
mod creation;
mod filling;
mod laws;
mod place;
mod power;
mod reads;
mod room;
mod section;
mod store;

pub use laws::{item_stops, power_ends, power_stops};
pub use mc_blocks::Unusable;
pub use place::part_place;
pub use power::Up;
pub use store::Store;

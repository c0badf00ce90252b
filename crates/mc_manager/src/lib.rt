#![tactic(auto)]

//! The card manager: the route of each command, and the commands that select, load, create and delete
//! applications.

mod creation;
mod deletion;
mod filling;
mod header;
mod laws;
mod load;
mod manager;
mod names;
mod open;
mod routed;
mod select;
mod selection;
mod status;

pub use laws::fits_through_commits;
pub use load::Load;
pub use manager::Manager;
pub use routed::{Routed, Ruling};
pub use selection::Selection;

#![tactic(auto)]

//! A device in memory that goes back to words that it once had, and the applications of a card in its words.

mod application;
mod applications;
mod branch;
mod growth;
mod places;
mod roster;
mod section;

pub use application::Application;
pub use applications::read_applications;
pub use branch::BranchNvm;
pub use growth::push;
pub use roster::{Roster, static_bytes};
pub use section::read_section;

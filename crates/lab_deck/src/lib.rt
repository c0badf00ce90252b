#![tactic(auto)]

//! A deck with the rules of one application and its moves, as `mellab explore` reads it.

mod counting;
mod moves;
mod named;
mod reading;
mod refusal;

pub use moves::read_moves;
pub use named::names_application;
pub use reading::{Application, read_application};
pub use refusal::ApplicationRefusal;

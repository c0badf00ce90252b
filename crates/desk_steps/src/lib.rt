#![tactic(auto)]

//! Plays of drafts as JSON Lines: each line of the deck, and each turn with the bytes that it changed.

mod changes;
mod guard;
mod keys;
mod looking;
mod memory;
mod modes;
mod playing;
mod recording;
mod runs;
mod sheet;
mod shot;
mod statements;
mod watching;
mod writes;

pub use playing::put_steps;
pub use runs::add_runs;
pub use sheet::{Sheet, written};

#![tactic(auto)]

//! Records what happens to one application while lines of a deck are played.

mod fitting;
mod past;
mod playing;
mod recorder;
mod recording;
mod sending;
mod subject;
mod turning;

pub use past::chronicle;
pub use recording::{Played, play_recorded};
pub use subject::Subject;

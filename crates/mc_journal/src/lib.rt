#![tactic(auto)]

//! The journal of layout 1: an atomic write of 1 to 64 words, and its recovery. It reads its own gate alone.

mod journal;
mod look;
mod put;

pub use journal::{recover, write_words};
pub use mc_gate::Recover;

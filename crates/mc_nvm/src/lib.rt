#![tactic(auto)]

//! Nonvolatile memory of words of eight bytes, whose writes may stop: its traits, and devices that live in memory.

mod device;
mod fuse;
mod probe;
mod program;
mod sim;
mod tape;
mod tape_nvm;

pub use device::{Bench, Nvm};
pub use probe::Probe;
pub use program::{DEVICE_WORDS, counts_device_words};
pub use sim::SimNvm;
pub use tape::Entry;
pub use tape_nvm::TapeNvm;

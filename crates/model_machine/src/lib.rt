#![tactic(auto)]

//! The machine: command APDUs, instructions, frames, rows, primitives and chains of applications.

mod instruction;
mod machine;

pub use instruction::{DecodeFault, Ins};
pub use machine::Abend;

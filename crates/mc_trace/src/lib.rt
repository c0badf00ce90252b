#![tactic(auto)]

//! The lines of a trace: one for each executed instruction, and for a fetch that found none.

mod line;
mod worked;

pub use line::{line_of, line_of_brief};
pub use worked::lines;

#[cfg(test)]
mod tests;

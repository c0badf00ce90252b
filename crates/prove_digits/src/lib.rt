#![tactic(auto)]

//! Arithmetic on sets of digits: which values of bytes lead to which final flags.

mod arithmetic;
mod bits;
mod digits;
mod states;
mod steps;
mod trios;
mod turns;

pub use digits::{Digit, Way, ways};

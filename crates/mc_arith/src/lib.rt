#![tactic(auto)]

//! Arithmetic on blocks of bytes as unsigned big-endian numbers.

mod addition;
mod bitwise;
mod borders;
mod flags;
mod shifts;
mod subtraction;
mod words;

pub use addition::{add, inc};
pub use bitwise::{and, not, or, xor};
pub use borders::{
    bits_of_blocks, differences, one_less, one_more, shifts_to_the_left, shifts_to_the_right, sums,
};
pub use flags::Flags;
pub use law_rows::model_machine;
pub use shifts::{shift_left, shift_right};
pub use subtraction::{compare, dec, sub};

#[cfg(test)]
mod tests;

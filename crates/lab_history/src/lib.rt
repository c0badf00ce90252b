#![tactic(auto)]

//! What happens to one application along a line of a deck, counted by the application's rules: its allowances, its sums,
//! and what the rules say of its static bytes.

mod amounts;
mod applying;
mod arithmetic;
mod blocks;
mod course;
mod durable;
mod laws;
mod standing;

pub use amounts::first_amounts;
pub use applying::apply;
pub use arithmetic::number_bytes;
pub use blocks::{first_block, is_block};
pub use course::{Course, Deed, Extent, Happening};
pub use durable::is_durable;
pub use laws::{blocks_are_sums, places_are_names, ranges_are_ranges};
pub use standing::{Break, Standing, broken_always};

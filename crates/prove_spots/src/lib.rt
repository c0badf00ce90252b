#![tactic(auto)]

//! A place of the code with what is known there, and what acts make of it.

mod acts;
mod calls;
mod lists;
mod moves;
mod parts;
mod spot;
mod statics;
mod writes;

pub use calls::{Loss, lose_calls, pop_call, push_call};
pub use lists::{
    any_values, counted_values, know_all, only_values, returned_values, shaped_bytes, shaped_len,
    shaped_values, values_from,
};
pub use parts::with_part;
pub use spot::Spot;
pub use writes::{end_of, pair_of};

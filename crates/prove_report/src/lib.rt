#![tactic(auto)]

//! The text of a proof: what may be known between commands, the rules that may be broken and the ways that lead there, and
//! the verdict.

mod text;
mod way_text;
mod ways;

pub use text::{add_verdict, break_ranges, text_of_tables};

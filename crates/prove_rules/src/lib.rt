#![tactic(auto)]

//! The rules of a deck for one application, read from its comments that begin with `#@`.

mod always;
mod app;
mod fault;
mod field;
mod lines;
mod load;
mod on;
mod partial;
mod parts;
mod public;
mod range;
mod reading;
mod refusal_rows;

pub use fault::{RuleCause, RuleRefusal};
pub use reading::read_named_rules;

//! Abstract states of an application, their outcomes and tables: definitions, and the laws that carry a proof by them.
#![tactic(auto)]

mod laws;
mod set_rows;

pub use model_rules::model_machine;

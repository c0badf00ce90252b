#![tactic(auto)]

//! The search that fills tables of what may be known at each place of an application's code and at each moment between
//! commands.

mod balances;
mod ends;
mod events;
mod keys;
mod moments;
mod places;
mod searching;
mod subject;
mod successors;
mod tables;

pub use balances::balance_at_creation;
pub use keys::{Break, Outcome, Rule};
pub use searching::{Stopped, outcomes_of_moment, outcomes_of_place, search};
pub use subject::{Subject, blocks_of, code_of};
pub use successors::Successors;
pub use tables::{Found, MOST_KEYS, all_keep, is_kept};

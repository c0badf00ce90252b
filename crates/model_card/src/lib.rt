#![tactic(auto)]

//! The card: load units, the items of a command, the manager, and one command of the terminal.

mod card;
mod unit;

pub use card::{OpenRefusal, Part, Sizes};
pub use model_machine;
pub use unit::{AidFault, UnitRefusal};

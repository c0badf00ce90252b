#![tactic(auto)]

//! The applications of a card as a map that items change one by one, and a bank that lives in memory.

mod bank;
mod changes;
mod entries;
mod memory;

pub use bank::{Bank, Facts, Site, Slot};
pub use memory::MemBank;
pub use model_card::{OpenRefusal, Part, Sizes};

#![tactic(auto)]

//! A card in the words of a device: power-up, commands, and the turns of a command one by one.

mod bench;
mod card;
mod managing;
mod saved;
mod session;
mod watching;

pub use card::Card;
pub use mc_machine::{BriefTurn, Chain, Outcome, Turn};
pub use mc_manager::Load;
pub use mc_store::{Store, Unusable, Up};
pub use saved::SavedSession;

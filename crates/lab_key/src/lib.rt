#![tactic(auto)]

//! The key of a card and of what runs on it: what tells two states of an exploration apart.

mod kept;
mod key;
mod laws;
mod session;
mod state;

pub use kept::{Rosters, Saved};
pub use key::CardKey;
pub use laws::{cards_have_one_number, kept_states_are_states, keys_tell_states_apart};
pub use session::SessionKey;
pub use state::CardState;

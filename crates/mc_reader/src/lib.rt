#![tactic(auto)]

//! A card in a reader: the commands of a host are played on a card as lines of a deck, and answered frame by
//! frame.

mod answering;
mod host;
mod laws;
mod order;
mod reading;
mod request;
mod rows;
mod serve_error;
mod serving;

pub use host::Host;
pub use laws::{a_session_is_a_deck, commands_are_answered};
pub use reading::FrameFault;
pub use serve_error::ServeError;
pub use serving::serve;

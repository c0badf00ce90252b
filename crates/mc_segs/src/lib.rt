#![tactic(auto)]

//! The segments of a running application: its frame, the public bytes of its chain, and the accesses to both.

mod access;
mod bytes;
mod ends;
mod frame;
mod looking;
mod protection;
mod public;
mod session;
mod stack;

pub use access::{Place, load, place_of, resolve, store};
pub use ends::{Halt, Next};
pub use frame::Frame;
pub use looking::look;
pub use mc_apdu::model_machine::Abend;
pub use protection::protect;
pub use public::Public;
pub use session::Session;
pub use stack::{come_back, discard, enter, pop, push, return_address, top};

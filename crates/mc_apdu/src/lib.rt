#![tactic(auto)]

//! Command and response APDUs of ISO/IEC 7816-4.

mod command;
mod laws;
mod reply;

pub use command::{Apdu, WrongLength, parse};
pub use laws::{extended_rows, seven_cases, short_rows, wrong_lengths};
pub use model_machine;
pub use reply::Reply;

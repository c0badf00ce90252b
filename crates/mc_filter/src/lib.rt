#![tactic(auto)]

//! The common parts of filters, which are the programs that read one input whole and write one text: the
//! command line, the device, the input, the line that refuses it, and the status.

mod decks;
mod device;
mod lines;
mod reading;
mod rejection;
mod status;
mod words;
mod writing;

pub use decks::deck_of;
pub use device::blank_device;
pub use lines::{append, refusal_line, refused, too_long, too_long_line};
pub use reading::{INPUT_LIMIT, read_input};
pub use rejection::Rejection;
pub use status::{Status, number};
pub use words::{command_words, job_words};
pub use writing::{ended, reject};

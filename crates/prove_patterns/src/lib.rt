#![tactic(auto)]

//! Which patterns texts that are known in part can match: patterns followed byte by byte, the classes of commands that
//! they tell apart, and the lines that replies match.

mod combining;
mod command_classes;
mod command_headers;
mod lengths;
mod lines;
mod opens;
mod reaching;
mod replies;
mod ways;

pub use combining::{combinations, same_matches};
pub use command_classes::{Class, classes, classes_of};
pub use command_headers::{Bytes, Group, Header, headers};
pub use lengths::{Lengths, lengths_of};
pub use opens::{Opens, all_after, matches_of, opened, same_opens};
pub use reaching::{Many, after_any, after_bytes, each_after_bytes};
pub use replies::Replies;
pub use ways::Open;

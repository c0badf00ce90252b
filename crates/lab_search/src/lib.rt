#![tactic(auto)]

//! Explores a deck: tries every sequence of its moves on a device in memory, each move whole and cut in each of
//! its device writes, and finds the first that breaks a rule of the deck's comments.

mod beginning;
mod counter;
mod endings;
mod journey;
mod making;
mod playing;
mod report;
mod rounds;
mod search;
mod tally;
mod trying;

pub use beginning::{Beginning, Lead, begin};
pub use endings::{Explored, Start, begins_cut, count_of_statements, put_path};
pub use journey::{Fill, Manner, Step, next_write};
pub use making::{Candidate, restore};
pub use playing::{Budget, play};
pub use report::{put_broken, put_depth, put_sums, put_unheard};
pub use rounds::{Halt, Search};
pub use search::{explore, explore_within};
pub use tally::Tally;
pub use trying::{Laboratory, Tried, put_card};

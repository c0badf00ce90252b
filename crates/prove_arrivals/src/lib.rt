#![tactic(auto)]

//! Where the outcomes of a row lead, and whether finished tables include it all.

mod endings;
mod exits;
mod landings;
mod replies;
mod rows;
mod subject;
mod turns;

pub use endings::{abended, answered, fails, stopped};
pub use landings::{at_place, idle, in_session};
pub use replies::{LENGTH, exited};
pub use rows::{coarse, row};
pub use subject::Subject;
pub use turns::Row;

#![tactic(auto)]

//! The rules of one application and its events: which lines an event matches, what they do to the allowances, and the
//! classes of commands that the lines tell apart.

mod answer_lines;
mod command_classes;
mod firing;
mod patterns;
mod turns;

pub use answer_lines::answers;
pub use command_classes::{Class, classes};
pub use firing::{Firing, abend_lines, fire, lines_in, lines_of};
pub use turns::{TurnEvent, turn_lines};

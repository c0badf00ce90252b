#![tactic(auto)]

//! Plays of drafts that show the source line of each turn, or count how often each line ran.

mod covering;
mod following;
mod known;
mod lcov;
mod looking;
mod sections;
mod span;
mod tracing;

pub use covering::cover;
pub use looking::running_section;
pub use sections::Sections;
pub use tracing::trace;

//! Rules of an application over the history of what happens to it: their parts, its events, and when they are broken.
#![tactic(auto)]

pub use model_events::model_machine;

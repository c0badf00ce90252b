#![tactic(auto)]

//! The outcomes of a place of the code, held against finished tables: each lies in them, and none breaks a rule.

mod branching;
mod choices;
mod crude;
mod places;
mod scenes;
mod stepping;

pub use branching::{both, greatest_target, may_lead};
pub use choices::{Choice, Choices, choices_among, combined};
pub use crude::{crude_around, crude_for};
pub use places::place_holds;
pub use scenes::scene_with;
pub use stepping::arounds;

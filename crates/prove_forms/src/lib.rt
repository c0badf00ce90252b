#![tactic(auto)]

//! Linear forms in the public bytes of a frame's beginning, and the origins of bytes, as a proof of sums has them.

mod forms;
mod numbers;
mod origins;
mod spelled;

pub use forms::{Form, Term};
pub use origins::{Listed, Origin, Origins};
pub use spelled::form_of;

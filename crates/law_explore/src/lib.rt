//! A model checker for card applications: what every sequence of a terminal's moves can reach, with power cut in any
//! write.
#![tactic(auto)]

mod laws;

pub use model_play;
pub use model_play::model_machine;

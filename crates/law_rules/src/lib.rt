//! Rules of an application that a sound analysis covers are kept in every play; and worked rows of rules along plays.
#![tactic(auto)]

mod play_rows;
mod refusal_rows;
mod rule;

pub use model_rule_text::model_machine;
pub use rule::{RuleAnalysis, covers};

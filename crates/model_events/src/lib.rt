//! What the rules of an application count: patterns against texts, amounts under names, and what an application does.
#![tactic(auto)]

pub use model_text::model_machine;

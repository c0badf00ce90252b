#![tactic(auto)]

//! Texts: lines and fields, assembly and listings, the words of refusals, and the line of an executed instruction.

mod assembler;
mod checker;

pub use assembler::AsmCause;
pub use checker::CheckCause;
pub use model_machine;

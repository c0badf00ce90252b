#![tactic(auto)]

//! The instructions of the byte code machine other than PRIM.

mod blocks;
mod bytes;
mod flow;
mod immediates;
mod operand;
mod operations;
mod pairs;
mod registers;
mod stack;
mod stepping;
mod transfers;

pub use registers::Flow;
pub use stepping::step;

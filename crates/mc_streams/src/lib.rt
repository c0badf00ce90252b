#![tactic(auto)]

//! Where bytes come from and where they go: sources and sinks with counted calls and faults, in memory and outside.

mod memory;
mod outside;
mod refusals;
mod sink;
mod source;
#[cfg(test)]
mod tests;

pub use memory::{MemSink, MemSource};
pub use outside::{StdSink, StdSource};
pub use refusals::{Failed, ReadAll, WriteFault};
pub use sink::{Sink, put_all};
pub use source::{Source, read_all};

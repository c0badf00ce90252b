#![tactic(auto)]

//! The journals of both layouts, as far as they are one: an atomic write of 1 to 64 words and its recovery, generic
//! over how a layout writes and reads its entries.

mod failures;
mod journals;
mod layouts;
mod look;
mod numbers;
mod put;
mod recovery;
mod write;

pub use failures::Recover;
pub use journals::Journal;
pub use layouts::{HEAD, Layout, SHUT};
pub use look::{Targets, is_gate_open, is_within};
pub use numbers::number_word;
pub use recovery::recover;
pub use write::write_words;

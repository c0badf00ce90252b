#![tactic(auto)]

//! What may be known of bytes: sets of values, facts by addresses, and sums.

mod facts;
mod growth;
mod packed;
mod sums;
mod values;

pub use facts::{Fact, Facts};
pub use growth::{prepend, push};
pub use model_prove::model_machine;
pub use packed::PackedFacts;
pub use sums::{Block, Form, Known, More, Origin, Sums, Term, form_of, mask};
pub use values::Values;

#![tactic(auto)]

//! The assembler of the byte code, and its inverse, the listing.

mod coding;
mod item;
mod labels;
mod laws;
mod line;
mod listing;
mod number;
mod operand;
mod refusal;
mod words;

pub use coding::{assemble, assemble_lines};
pub use labels::size_of_line;
pub use laws::a_listing_is_assembled;
pub use line::NumberedLine;
pub use listing::list;
pub use model_text::AsmCause;
pub use model_text::model_machine::DecodeFault;
pub use number::natural;
pub use operand::is_label;
pub use refusal::{AsmRefusal, ListRefusal};

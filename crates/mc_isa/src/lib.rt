#![tactic(auto)]

//! Instructions as bytes and as text, and the table of the primitives.

mod decoding;
mod encoding;
mod laws;
mod listing;
mod primitive;
mod reading;
mod rows;
mod worked;

pub use decoding::decode;
pub use encoding::encode;
pub use laws::{a_spelling_is_decoded, one_answer_at_each_place, spellings_are_prefix_free};
pub use listing::text_of;
pub use model_text::model_machine;
pub use model_text::model_machine::{DecodeFault, Ins};
pub use primitive::{Cipher, Primitive};
pub use worked::{
    addressed_rows_as_bytes, addressed_rows_as_text, blocks_rows_as_bytes, blocks_rows_as_text,
    code_that_ends_too_early, control_rows_as_bytes, control_rows_as_text,
    lengths_of_all_instruction_bytes, listings, stack_rows_as_bytes, stack_rows_as_text,
    undefined_bytes,
};

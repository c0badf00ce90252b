#![tactic(auto)]

//! The heap of a card in words: its blocks and records, the first fault of an image, room for a block, and
//! the header words that change when a block is taken or freed.

mod block;
mod chain;
mod checks;
mod format;
mod header;
mod image;
mod laws;
mod link;
mod plan;
mod record;
mod room;

pub use format::format_words;
pub use header::{HEAP, Header, read_header};
pub use image::{Shape, Unusable, walk};
pub use laws::{
    chains_gaps, changes_layout, counts_applications, creates_application, deletes_application,
    fits_room, format_rows, holds_layout, inserts_span, keeps_card, plan_rows, plans_steps,
    removes_span, sets_application, walks_card, writes_plan,
};
pub use mc_words::model_device::Cause;
pub use plan::{free_plan, take_plan};
pub use record::{Record, name_of, read_record, record_from, words_of};
pub use room::first_fit;

#![tactic(auto)]

//! Drafts: decks in whose sections bytes and numbers have names, and where the code of their sections has been.

mod declaration;
mod desk;
mod draft;
mod hexadecimal;
mod instruction;
mod known;
mod laws;
mod line;
mod listing;
mod meaning;
mod operand;
mod part;
mod rows;
mod rule;
mod scope;
mod source;
mod statement;
mod text;
mod verdict;

pub use desk::{Desk, read_desk};
pub use draft::{Draft, Section, SourceLine, deck_of, read_draft};
pub use laws::{code_is_of_lines, lines_stay, turns_are_of_steps};
pub use listing::{list, listing_of};
pub use mc_deck::DeckRefusal;
pub use source::{CodeLine, Source, source_of, sources_of};
pub use statement::Sizes;
pub use verdict::{Loads, push_source_part};

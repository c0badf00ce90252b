#![tactic(auto)]

//! Decks: the text of a play read line by line, and the deck that a number generates.

mod bytes;
mod deck;
mod field;
mod generator;
mod line;
mod names;
mod plain;
mod reading;
mod refusal;
mod section;
mod statement;
mod text;
mod unit;

pub use deck::Deck;
pub use field::number_field;
pub use generator::generate;
pub use line::Line;
pub use model_play;
pub use model_play::{DeckCause, model_card};
pub use reading::read_deck;
pub use refusal::{DeckRefusal, Fault};
pub use section::{ends_section, has_data};
pub use text::fields;

#![tactic(auto)]

//! The static words that an application has written under protection and not yet committed.

mod laws;
mod pending;

pub use laws::{
    counts_words, holds_none, joins_pieces, lays_words, piece_rows, puts_piece, reads_pieces,
    reads_words,
};
pub use pending::{Full, Pending};

#[cfg(test)]
mod tests;

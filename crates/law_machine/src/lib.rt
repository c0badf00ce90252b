#![tactic(auto)]

//! Laws of the machine and the manager, over the definitions alone: each function is a law, stated by its clause.

mod laws;

pub use laws::{
    changes_write_few_headers, few_words_cost_few_writes, rows_write_few_words,
    runs_write_few_words,
};

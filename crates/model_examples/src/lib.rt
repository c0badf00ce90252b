#![tactic(auto)]

//! Worked examples of the definitions. Each function is a test: the prover computes its clause, and its body is empty.

mod decks;
mod generated;
mod rows;

#![tactic(auto)]

//! Explorations of the rules of one application: what happens to it along the deck and every sequence of moves, whole and
//! cut, counted event by event; definitions, and worked rows.

mod kept_rows;
mod laws;
mod rows;

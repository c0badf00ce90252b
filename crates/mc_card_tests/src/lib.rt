#![tactic(auto)]

//! Tests of the card: its journals, the store over words, the manager, and commands to applications.

mod journals;
#[cfg(test)]
mod machines;
#[cfg(test)]
mod managers;
#[cfg(test)]
mod stores;

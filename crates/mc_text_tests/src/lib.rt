#![tactic(auto)]

//! Tests of texts: assembly and listings, the stack checker, decks, and sweeps.

#[cfg(test)]
mod assembly;
#[cfg(test)]
mod checks;
#[cfg(test)]
mod decks;
#[cfg(test)]
mod sweeps;

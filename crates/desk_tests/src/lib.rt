#![tactic(auto)]

//! Tests of drafts, of their decks and listings, and of what is explained of them.

#[cfg(test)]
mod drafts;
#[cfg(test)]
mod explained;

// Decks with ample memory: a deck that is accepted, decks that are refused, and one that a number generates.

mod more_samples;
mod refusals;
mod samples;
mod tests;

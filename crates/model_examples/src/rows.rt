// Worked rows: the values of the definitions on texts with known results.

mod assembly;
mod assembly_texts;
mod broken_decks;
mod ciphers;
mod cuts;
mod deck_refusals;
mod delegations;
mod generator;
mod images;
mod layouts;
mod listings;
mod plays;
mod primitives;
mod stack_shape;
mod traces;
mod units;

// The card manager tested over a bank in memory: each row of its table, and loads in pieces of any length;
// and over the words of a device: the room of a card.

mod loads;
mod rig;
mod room;
mod rows;
mod tests;

// Cards in the words of devices in memory: worked rows of the heap and of power-ups, each change and each
// power-up stopped at every write, against the rule of stops written out by hand, and the number of reads of
// a store.

mod bench;
mod card;
mod changes;
mod counting;
mod cuts;
mod damaged;
mod heap;
mod image;
mod migrations;
mod reads;
mod rule;
mod searches;

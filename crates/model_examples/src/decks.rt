// Complete decks, each with the output of its play on a blank device of 8,192 words, or the trace of its instructions.

mod many_cuts;
mod migrations_1;
mod migrations_2;
mod no_cut_1;
mod no_cut_2;
mod one_cut;
mod traces;
mod verdicts;

// Worked rows: what the definitions give on drafts whose decks are known.

mod declarations;
mod line_ends;
mod operands;
mod plays;
mod purse;
mod refusals;
mod rules;
mod statements;

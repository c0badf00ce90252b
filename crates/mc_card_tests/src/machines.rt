// Worked rows of commands to applications, tested over a bank in memory.

mod card;
mod rows;
mod table;

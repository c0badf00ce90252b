// The assembler and the listing tested with ample memory.

mod tests;

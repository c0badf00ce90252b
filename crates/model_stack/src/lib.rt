#![tactic(auto)]

//! What the stack checker asks: the shape of the stack at each place of code.

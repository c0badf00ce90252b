//! What is known for sums at the places of an application: forms, origins, where they go, and when a table of them is
//! closed.
#![tactic(auto)]

mod rows;

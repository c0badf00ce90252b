#![tactic(auto)]

//! The primitives of the byte code machine.

mod access;
mod bits;
mod ciphers;
mod dispatch;
mod memory;
mod messages;
mod names;
mod registers;
mod stack;

pub use dispatch::{Around, prim};

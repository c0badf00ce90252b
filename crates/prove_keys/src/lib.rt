#![tactic(auto)]

//! The keys of the two tables of a proof, the last compare that is known at a place, and the tables with their
//! look-ups.

mod compares;
mod keys;
mod known;
mod said;
mod tables;

pub use compares::{Bounds, Last, LastSaid, Order, touches};
pub use keys::{
    Begun, Call, DYNAMIC, DYNAMIC_END, MomentKey, PUBLIC, PUBLIC_END, PlaceKey, Registers,
};
pub use known::{Known, PackedKnown};
pub use tables::Tables;

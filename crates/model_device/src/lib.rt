#![tactic(auto)]

//! The words of a device, what a write does to them, atomic writes, and the card that an image holds.

mod cause;
mod device;
mod memory;
mod numbers;

pub use cause::Cause;
pub use device::Stop;
pub use memory::NoMemory;
pub use numbers::{bytes_of, number_of};

#![tactic(auto)]

//! Words, names of applications, the limit of code, and counted steps.

mod aid;
mod ledger;
mod limits;

pub use aid::Aid;
pub use ledger::Steps;
pub use limits::{MOST_CODE, limits_code};
pub use model_device;
pub use model_device::{NoMemory, Stop, bytes_of, number_of};

/// A word of a device: eight bytes, all numbers big endian.
pub type Word = [u8; 8];

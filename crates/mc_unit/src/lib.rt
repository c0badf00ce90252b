#![tactic(auto)]

//! Application load units: the bytes with which an application is loaded.

mod laws;
mod name;
mod unit;
mod writing;

pub use laws::{counter_rows, is_grammar, length_rows, made_name, name_rows};
pub use model_card::{AidFault, UnitRefusal};
pub use name::aid_of;
pub use unit::{Unit, read_unit};
pub use writing::write_unit;

#[cfg(test)]
mod tests;

#![tactic(auto)]

//! Small texts: words, decimal numbers and bytes in hexadecimal, written to a sink one after another; and
//! characters, numbers, fields and lines, read from a text.

mod gather;
mod pieces;
mod pushing;
mod reading;

pub use gather::{add, add_decimal, add_hex};
pub use pieces::{digit, put, put_decimal, put_number};
pub use pushing::{push, push_byte, push_bytes, push_decimal, push_signed};
pub use reading::{
    cut, cut_blank, decimal_number, has_name_characters, hex_value, is_blank, is_digit, next_line,
    trim, trim_front,
};

// Shifts, one bit at a time.
ghost use Rattle.std.specs.Prelude.{◌≡◌, ◌+◌, ◌*◌, ◌<◌, ◌^◌, ◌≤◌, length};
ghost use Rattle.law_rows.specs.model_device.specs.Bytes.{num};
ghost use Rattle.law_rows.specs.model_machine.specs.Blocks.{shift_left_block, shift_right_block};
ghost use Rattle.law_rows.specs.Carry.{carry_of};

use crate::flags::{Flags, zero};

/// Shifts a block of n bytes, 1 to 16, to the left by 1 to 8n - 1 bits, and returns the flags. C is the bit
/// shifted out last.
pub fn shift_left(a: &mut [u8], by: u8) -> Flags
    requires low { 1 ≤ length a.old }
    requires high { length a.old ≤ 16 }
    requires some { 1 ≤ by }
    requires inside { by < 8 * length a.old }
    ensures { record { value = a.new; c = result.c; z = result.z } ≡ shift_left_block a.old by }
{
    let mut left = false;
    for _step in 0..by {
        left = double(a);
    }
    Flags {
        c: left,
        z: zero(a),
    }
}

/// Shifts a block of n bytes, 1 to 16, to the right by 1 to 8n - 1 bits, and returns the flags; zeros enter.
/// C is the bit shifted out last.
pub fn shift_right(a: &mut [u8], by: u8) -> Flags
    requires low { 1 ≤ length a.old }
    requires high { length a.old ≤ 16 }
    requires some { 1 ≤ by }
    requires inside { by < 8 * length a.old }
    ensures { record { value = a.new; c = result.c; z = result.z } ≡ shift_right_block a.old by }
{
    let mut left = false;
    for _step in 0..by {
        left = halve(a);
    }
    Flags {
        c: left,
        z: zero(a),
    }
}

// Shifts left by one bit, and returns the bit shifted out.
fn double(a: &mut [u8]) -> bool
    ensures { num a.new + carry_of result * 256 ^ length a.old ≡ num a.old + num a.old }
{
    let mut carry = 0;
    for i in (0..a.len()).rev() {
        let bits = 2 * a[i] as u16 + carry;
        a[i] = (bits % 256) as u8;
        carry = bits / 256;
    }
    carry == 1
}

// Shifts right by one bit, and returns the bit shifted out.
fn halve(a: &mut [u8]) -> bool
    ensures { 2 * num a.new + carry_of result ≡ num a.old }
{
    let mut carry = 0;
    for i in 0..a.len() {
        let bits = 256 * carry + a[i] as u16;
        a[i] = (bits / 2) as u8;
        carry = bits % 2;
    }
    carry == 1
}

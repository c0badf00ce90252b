// Addition, from the last byte to the first.
ghost use Rattle.std.specs.Prelude.{◌≡◌, ◌+◌, ◌*◌, ◌^◌, ◌≤◌, length};
ghost use Rattle.law_rows.specs.model_device.specs.Bytes.{num};
ghost use Rattle.law_rows.specs.model_machine.specs.Blocks.{add_blocks, inc_block};
ghost use Rattle.law_rows.specs.Carry.{carry_of};

use crate::flags::{Flags, zero};
use crate::words::{sum_of_four, sum_of_two};

/// Adds the second block to the first, modulo 256 to the power of its length, and returns the flags. Both
/// have the same length, from 1 to 16. C is the carry.
pub fn add(a: &mut [u8], b: &[u8]) -> Flags
    requires same { length a.old ≡ length b.now }
    requires low { 1 ≤ length a.old }
    requires high { length a.old ≤ 16 }
    ensures { record { value = a.new; c = result.c; z = result.z } ≡ add_blocks a.old b.now }
{
    let c = sum(a, b);
    let z = zero(a);
    Flags { c, z }
}

/// Adds 1 to a block of 1 to 16 bytes, modulo 256 to the power of its length, and returns the flags. C is the
/// carry.
pub fn inc(a: &mut [u8]) -> Flags
    requires low { 1 ≤ length a.old }
    requires high { length a.old ≤ 16 }
    ensures { record { value = a.new; c = result.c; z = result.z } ≡ inc_block a.old }
{
    let wrapped = sum_with_one(a);
    Flags {
        c: wrapped,
        z: zero(a),
    }
}

// Adds the second block to the first, of the same length, and returns the carry.
#[inline(always)]
fn sum(a: &mut [u8], b: &[u8]) -> bool
    requires { length a.old ≡ length b.now }
    ensures { num a.new + carry_of result * 256 ^ length a.old ≡ num a.old + num b.now }
{
    match b {
        [b0, b1] => {
            let (sum, carry) = sum_of_two([a[0], a[1]], [*b0, *b1]);
            a[0] = sum[0];
            a[1] = sum[1];
            carry
        }
        [b0, b1, b2, b3] => {
            let (sum, carry) = sum_of_four([a[0], a[1], a[2], a[3]], [*b0, *b1, *b2, *b3]);
            a[0] = sum[0];
            a[1] = sum[1];
            a[2] = sum[2];
            a[3] = sum[3];
            carry
        }
        _ => ripple_sum(a, b),
    }
}

// Adds 1 to the block, and returns the carry.
#[inline(always)]
fn sum_with_one(a: &mut [u8]) -> bool
    ensures { num a.new + carry_of result * 256 ^ length a.old ≡ num a.old + 1 }
{
    match a.len() {
        2 => sum(a, &[0, 1]),
        4 => sum(a, &[0, 0, 0, 1]),
        _ => ripple_one(a),
    }
}

// Adds the second block to the first byte by byte, of the same length, and returns the carry.
fn ripple_sum(a: &mut [u8], b: &[u8]) -> bool
    requires { length a.old ≡ length b.now }
    ensures { num a.new + carry_of result * 256 ^ length a.old ≡ num a.old + num b.now }
{
    let mut carry = 0;
    for i in (0..a.len()).rev() {
        let sum = a[i] as u16 + b[i] as u16 + carry;
        a[i] = (sum % 256) as u8;
        carry = sum / 256;
    }
    carry == 1
}

// Adds 1 to the block byte by byte, and returns the carry.
fn ripple_one(a: &mut [u8]) -> bool
    ensures { num a.new + carry_of result * 256 ^ length a.old ≡ num a.old + 1 }
{
    let mut carry = 1;
    for i in (0..a.len()).rev() {
        let sum = a[i] as u16 + carry;
        a[i] = (sum % 256) as u8;
        carry = sum / 256;
    }
    carry == 1
}

// Subtraction, from the last byte to the first, and comparison.
ghost use Rattle.std.specs.Prelude.{◌≡◌, ◌+◌, ◌*◌, ◌^◌, ◌≤◌, length};
ghost use Rattle.law_rows.specs.model_device.specs.Bytes.{num};
ghost use Rattle.law_rows.specs.model_machine.specs.Blocks.{dec_block, sub_blocks};
ghost use Rattle.law_rows.specs.Carry.{carry_of};

use crate::flags::{Flags, zero};
use crate::words::{difference_of_four, difference_of_two};

/// Subtracts the second block from the first, modulo 256 to the power of its length, and returns the flags.
/// Both have the same length, from 1 to 16. C is the borrow.
pub fn sub(a: &mut [u8], b: &[u8]) -> Flags
    requires same { length a.old ≡ length b.now }
    requires low { 1 ≤ length a.old }
    requires high { length a.old ≤ 16 }
    ensures { record { value = a.new; c = result.c; z = result.z } ≡ sub_blocks a.old b.now }
{
    let borrow = difference(a, b);
    Flags {
        c: borrow,
        z: zero(a),
    }
}

/// Subtracts 1 from a block of 1 to 16 bytes, modulo 256 to the power of its length, and returns the flags. C
/// is the borrow.
pub fn dec(a: &mut [u8]) -> Flags
    requires low { 1 ≤ length a.old }
    requires high { length a.old ≤ 16 }
    ensures { record { value = a.new; c = result.c; z = result.z } ≡ dec_block a.old }
{
    let wrapped = difference_with_one(a);
    Flags {
        c: wrapped,
        z: zero(a),
    }
}

/// Returns the flags of the difference of two blocks of the same length, from 1 to 255: C is set if the first
/// is less, Z if they are equal.
pub fn compare(a: &[u8], b: &[u8]) -> Flags
    requires same { length a.now ≡ length b.now }
    requires low { 1 ≤ length a.now }
    requires high { length a.now ≤ 255 }
    ensures borrow { result.c ≡ (sub_blocks a.now b.now).c }
    ensures zero { result.z ≡ (sub_blocks a.now b.now).z }
{
    for i in 0..a.len() {
        if a[i] != b[i] {
            return Flags {
                c: a[i] < b[i],
                z: false,
            };
        }
    }
    Flags { c: false, z: true }
}

// Subtracts the second block from the first, of the same length, and returns the borrow.
#[inline(always)]
fn difference(a: &mut [u8], b: &[u8]) -> bool
    requires { length a.old ≡ length b.now }
    ensures { num a.new + num b.now ≡ num a.old + carry_of result * 256 ^ length a.old }
{
    match b {
        [b0, b1] => {
            let (difference, borrow) = difference_of_two([a[0], a[1]], [*b0, *b1]);
            a[0] = difference[0];
            a[1] = difference[1];
            borrow
        }
        [b0, b1, b2, b3] => {
            let (difference, borrow) = difference_of_four(
                [a[0], a[1], a[2], a[3]],
                [*b0, *b1, *b2, *b3],
            );
            a[0] = difference[0];
            a[1] = difference[1];
            a[2] = difference[2];
            a[3] = difference[3];
            borrow
        }
        _ => ripple_difference(a, b),
    }
}

// Subtracts 1 from the block, and returns the borrow.
#[inline(always)]
fn difference_with_one(a: &mut [u8]) -> bool
    ensures { num a.new + 1 ≡ num a.old + carry_of result * 256 ^ length a.old }
{
    match a.len() {
        2 => difference(a, &[0, 1]),
        4 => difference(a, &[0, 0, 0, 1]),
        _ => ripple_one_less(a),
    }
}

// Subtracts the second block from the first byte by byte, of the same length, and returns the borrow.
fn ripple_difference(a: &mut [u8], b: &[u8]) -> bool
    requires { length a.old ≡ length b.now }
    ensures { num a.new + num b.now ≡ num a.old + carry_of result * 256 ^ length a.old }
{
    let mut borrow = 0;
    for i in (0..a.len()).rev() {
        let difference = 256 + a[i] as u16 - b[i] as u16 - borrow;
        a[i] = (difference % 256) as u8;
        borrow = 1 - difference / 256;
    }
    borrow == 1
}

// Subtracts 1 from the block byte by byte, and returns the borrow.
fn ripple_one_less(a: &mut [u8]) -> bool
    ensures { num a.new + 1 ≡ num a.old + carry_of result * 256 ^ length a.old }
{
    let mut borrow = 1;
    for i in (0..a.len()).rev() {
        let difference = 256 + a[i] as u16 - borrow;
        a[i] = (difference % 256) as u8;
        borrow = 1 - difference / 256;
    }
    borrow == 1
}

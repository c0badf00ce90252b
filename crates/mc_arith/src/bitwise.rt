// Operations bit by bit.
ghost use Rattle.std.specs.Prelude.{◌≡◌, ◌≤◌, length};
ghost use Rattle.law_rows.specs.model_machine.specs.Blocks.{and_blocks, is_zero, not_block, or_blocks, xor_blocks};

use crate::flags::zero;

/// Replaces the first block by the bitwise and of both, and returns whether it is zero. Both have the same
/// length, from 1 to 255.
pub fn and(a: &mut [u8], b: &[u8]) -> bool
    requires same { length a.old ≡ length b.now }
    requires low { 1 ≤ length a.old }
    requires high { length a.old ≤ 255 }
    ensures value { a.new ≡ and_blocks a.old b.now }
    ensures zero { result ≡ is_zero a.new }
{
    for i in 0..a.len() {
        a[i] &= b[i];
    }
    zero(a)
}

/// Replaces the first block by the bitwise or of both, and returns whether it is zero. Both have the same
/// length, from 1 to 255.
pub fn or(a: &mut [u8], b: &[u8]) -> bool
    requires same { length a.old ≡ length b.now }
    requires low { 1 ≤ length a.old }
    requires high { length a.old ≤ 255 }
    ensures value { a.new ≡ or_blocks a.old b.now }
    ensures zero { result ≡ is_zero a.new }
{
    for i in 0..a.len() {
        a[i] |= b[i];
    }
    zero(a)
}

/// Replaces the first block by the bitwise exclusive or of both, and returns whether it is zero. Both have
/// the same length, from 1 to 255.
pub fn xor(a: &mut [u8], b: &[u8]) -> bool
    requires same { length a.old ≡ length b.now }
    requires low { 1 ≤ length a.old }
    requires high { length a.old ≤ 255 }
    ensures value { a.new ≡ xor_blocks a.old b.now }
    ensures zero { result ≡ is_zero a.new }
{
    for i in 0..a.len() {
        a[i] ^= b[i];
    }
    zero(a)
}

/// Inverts each bit of a block of 1 to 255 bytes, and returns whether the result is zero.
pub fn not(a: &mut [u8]) -> bool
    requires low { 1 ≤ length a.old }
    requires high { length a.old ≤ 255 }
    ensures value { a.new ≡ not_block a.old }
    ensures zero { result ≡ is_zero a.new }
{
    for b in a.iter_mut() {
        *b = 255 - *b;
    }
    zero(a)
}

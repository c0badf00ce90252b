// Operations on blocks, and the flags that they leave.
ghost use Rattle.std.specs.Prelude.{◌≡◌, ◌≤◌, ◌==◌, length, not, OnOk};
ghost use Rattle.model_machine.specs.Primitives.{in_range};
ghost use Rattle.mc_segs.specs.Ends.{IfDue};
ghost use Rattle.mc_rows.specs.Rows.{binary_result, unary_result, most_binary, most_unary, bad_binary, bad_unary};

use mc_arith::{Flags, add, and, dec, inc, not, or, sub, xor};
use mc_segs::Abend;

/// An operation on two operands.
#[derive(Clone, Copy, Debug, PartialEq, Eq)]
pub enum Binary {
    Add,
    Sub,
    And,
    Or,
    Xor,
}

/// An operation on one operand.
#[derive(Clone, Copy, Debug, PartialEq, Eq)]
pub enum Unary {
    Inc,
    Dec,
    Not,
}

/// Replaces the first block by the result with the second, of the same length, and returns the flags. Bitwise
/// operations keep C.
#[inline(always)]
pub fn combine(kind: Binary, c: bool, a: &mut [u8], b: &[u8]) -> Flags
    requires same { length a.old ≡ length b.now }
    requires low { 1 ≤ length a.old }
    requires high { length a.old ≤ most_binary kind }
    ensures { record { value = a.new; c = result.c; z = result.z } ≡ binary_result kind c a.old b.now }
{
    match kind {
        Binary::Add => add(a, b),
        Binary::Sub => sub(a, b),
        Binary::And => Flags { c, z: and(a, b) },
        Binary::Or => Flags { c, z: or(a, b) },
        Binary::Xor => Flags { c, z: xor(a, b) },
    }
}

/// Replaces a block by the result of the operation, and returns the flags. Bitwise operations keep C.
#[inline(always)]
pub fn change(kind: Unary, c: bool, a: &mut [u8]) -> Flags
    requires low { 1 ≤ length a.old }
    requires high { length a.old ≤ most_unary kind }
    ensures { record { value = a.new; c = result.c; z = result.z } ≡ unary_result kind c a.old }
{
    match kind {
        Unary::Inc => inc(a),
        Unary::Dec => dec(a),
        Unary::Not => Flags { c, z: not(a) },
    }
}

/// Tests the length in bytes of two operands: 1 to 16 for sums and differences, 1 to 255 for bitwise
/// operations.
///
/// # Errors
///
/// Returns abend 06 if the length is out of range.
#[inline(always)]
pub fn check_binary(kind: Binary, count: u8) -> Result<(), Abend>
    ensures due { IfDue result (bad_binary kind count) Abend.A06 }
    ensures low { OnOk result (1 ≤ count) }
    ensures high { OnOk result (count ≤ most_binary kind) }
{
    match kind {
        Binary::Add | Binary::Sub => check_number(count),
        Binary::And | Binary::Or | Binary::Xor => check_block(count),
    }
}

/// Tests the length in bytes of one operand: 1 to 16 to add or subtract 1, 1 to 255 to invert bits.
///
/// # Errors
///
/// Returns abend 06 if the length is out of range.
#[inline(always)]
pub fn check_unary(kind: Unary, count: u8) -> Result<(), Abend>
    ensures due { IfDue result (bad_unary kind count) Abend.A06 }
    ensures low { OnOk result (1 ≤ count) }
    ensures high { OnOk result (count ≤ most_unary kind) }
{
    match kind {
        Unary::Inc | Unary::Dec => check_number(count),
        Unary::Not => check_block(count),
    }
}

/// Tests that a block has bytes.
///
/// # Errors
///
/// Returns abend 06 if `count` is 0.
#[inline(always)]
pub fn check_block(count: u8) -> Result<(), Abend>
    ensures due { IfDue result (count == 0) Abend.A06 }
    ensures low { OnOk result (1 ≤ count) }
{
    if count == 0 {
        return Err(Abend::A06);
    }
    Ok(())
}

// Abend 06 if a number does not have 1 to 16 bytes.
fn check_number(count: u8) -> Result<(), Abend>
    ensures due { IfDue result (not (in_range 1 16 count)) Abend.A06 }
    ensures low { OnOk result (1 ≤ count) }
    ensures high { OnOk result (count ≤ 16) }
{
    if count == 0 || count > 16 {
        return Err(Abend::A06);
    }
    Ok(())
}

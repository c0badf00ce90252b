// The numbers that lead to flags, when a constant is added or subtracted, or a number tested.
ghost use Rattle.std.specs.Prelude.{◌≡◌, ℕ, ◌+◌, ◌-◌, ◌<◌, ◌≤◌, ◌==◌, Bool, true, false, cond, length, IfSome};
ghost use Rattle.model_device.specs.Bytes.{num};
ghost use Rattle.prove_facts.specs.model_prove.specs.Compares as compares;
ghost use Rattle.prove_facts.specs.model_prove.specs.Steps as steps;
ghost use Rattle.prove_keys.specs.Compares.{said};
ghost use Rattle.prove_scenes.specs.Works.{operation_value, digitwise_value, operand_value};
ghost use Rattle.prove_works.specs.Numbers.{flags_of};

use prove_keys::{Bounds, Last, LastSaid, Order};
use prove_scenes::{Digitwise, Operand, Operation};

/// The most bytes of a number in a last compare.
pub const MOST: u16 = 16;

/// Returns the greatest number of at most 16 bytes.
pub fn greatest(n: u16) -> u128
    requires { n ≤ 16 }
    ensures { result ≡ compares.greatest n }
{
    match n {
        0 => 0,
        1 => 0xFF,
        2 => 0xFFFF,
        3 => 0xFF_FFFF,
        4 => 0xFFFF_FFFF,
        5 => 0xFF_FFFF_FFFF,
        6 => 0xFFFF_FFFF_FFFF,
        7 => 0xFF_FFFF_FFFF_FFFF,
        8 => 0xFFFF_FFFF_FFFF_FFFF,
        9 => 0xFF_FFFF_FFFF_FFFF_FFFF,
        10 => 0xFFFF_FFFF_FFFF_FFFF_FFFF,
        11 => 0xFF_FFFF_FFFF_FFFF_FFFF_FFFF,
        12 => 0xFFFF_FFFF_FFFF_FFFF_FFFF_FFFF,
        13 => 0xFF_FFFF_FFFF_FFFF_FFFF_FFFF_FFFF,
        14 => 0xFFFF_FFFF_FFFF_FFFF_FFFF_FFFF_FFFF,
        15 => 0xFF_FFFF_FFFF_FFFF_FFFF_FFFF_FFFF_FFFF,
        _ => u128::MAX,
    }
}

/// Returns the number that at most 16 bytes are.
pub fn number_of(bytes: &[u8]) -> u128
    requires { length bytes.now ≤ 16 }
    ensures value { result ≡ num bytes.now }
    ensures small { result ≤ compares.greatest (length bytes.now) }
{
    let mut number: u128 = 0;
    for byte in bytes {
        number = number * 256 + *byte as u128;
    }
    number
}

/// Returns the numbers of `n` bytes from which a subtraction of `k` leaves flags; the first is above the last if none
/// does. Of numbers that do not fit 16 bytes `None` is returned.
pub fn span_subtracted(n: u16, k: u128, c: bool, z: bool) -> Option<(u128, u128)>
    requires { n ≤ 16 }
    ensures { IfSome result (λ s. s ≡ compares.span_subtracted n k c z) }
{
    match (c, z) {
        (true, true) => Some((1, 0)),
        (true, false) => Some(below(k)),
        (false, true) => Some((k, k)),
        (false, false) => after(k, n),
    }
}

// The numbers below one.
fn below(k: u128) -> (u128, u128)
    ensures { result ≡ cond (k == 0) (1, 0) (0, k - 1) }
{
    if k == 0 {
        return (1, 0);
    }
    (0, k - 1)
}

/// Returns the numbers of `n` bytes to which an addition of `k` leaves flags; the first is above the last if none
/// does. Of numbers that do not fit 16 bytes `None` is returned.
pub fn span_added(n: u16, k: u128, c: bool, z: bool) -> Option<(u128, u128)>
    requires few { n ≤ 16 }
    requires small { k ≤ compares.greatest n }
    ensures { IfSome result (λ s. s ≡ compares.span_added n k c z) }
{
    if k == 0 {
        return none_added(n, c, z);
    }
    some_added(n, k, c, z)
}

// The numbers to which an addition of nothing leaves flags.
fn none_added(n: u16, c: bool, z: bool) -> Option<(u128, u128)>
    requires { n ≤ 16 }
    ensures { IfSome result (λ s. s ≡ compares.span_added n 0 c z) }
{
    match (c, z) {
        (false, true) => Some((0, 0)),
        (false, false) => Some((1, greatest(n))),
        (true, true) => Some((1, 0)),
        (true, false) => after_all(n),
    }
}

// The numbers to which an addition of a number above 0 leaves flags.
fn some_added(n: u16, k: u128, c: bool, z: bool) -> Option<(u128, u128)>
    requires few { n ≤ 16 }
    requires some { 0 < k }
    requires small { k ≤ compares.greatest n }
    ensures { IfSome result (λ s. s ≡ compares.span_added n k c z) }
{
    let least = greatest(n) - (k - 1);
    match (c, z) {
        (false, true) => Some((1, 0)),
        (false, false) => Some((0, least - 1)),
        (true, true) => Some((least, least)),
        (true, false) => after(least, n),
    }
}

// The numbers of `n` bytes after the number that is one more than the greatest, of which there are none.
fn after_all(n: u16) -> Option<(u128, u128)>
    requires { n ≤ 16 }
    ensures { IfSome result (λ s. s ≡ compares.span_added n 0 true false) }
{
    let most = greatest(n);
    match most.checked_add(2) {
        Some(low) => Some((low, most)),
        None => None,
    }
}

// The numbers of `n` bytes after one.
fn after(k: u128, n: u16) -> Option<(u128, u128)>
    requires { n ≤ 16 }
    ensures { IfSome result (λ s. s ≡ (k + 1, compares.greatest n)) }
{
    match k.checked_add(1) {
        Some(low) => Some((low, greatest(n))),
        None => None,
    }
}

/// Returns the numbers that lead to flags by an operation with a constant of `n` bytes, or a test: the first is above
/// the last if none does. Of numbers that do not fit 16 bytes `None` is returned.
pub fn span_of(op: Operation, bytes: &[u8], c: bool, z: bool) -> Option<(u128, u128)>
    requires { length bytes.now ≤ 16 }
    ensures { IfSome result (λ s. s ≡
        steps.span_of (operation_value op) (length bytes.now) (num bytes.now) (flags_of c z)) }
{
    let n = bytes.len() as u16;
    let k = number_of(bytes);
    match op {
        Operation::Plus => span_added(n, k, c, z),
        Operation::Minus => span_subtracted(n, k, c, z),
        _ => Some(span_tested(n, z)),
    }
}

// The numbers of `n` bytes that are zero, or those that are not.
fn span_tested(n: u16, z: bool) -> (u128, u128)
    requires { n ≤ 16 }
    ensures { result ≡ cond z (0, 0) (1, compares.greatest n) }
{
    if z {
        return (0, 0);
    }
    (1, greatest(n))
}

/// Returns whether an operation is one that the last compare speaks of: an addition, a subtraction or a test.
pub fn is_ordered(digitwise: &Digitwise) -> bool
    ensures { result ≡ steps.is_ordered (digitwise_value digitwise.now) }
{
    digitwise.carries || (!digitwise.written && is_or(digitwise.op))
}

// Whether an operation is that of a test.
fn is_or(op: Operation) -> bool
    ensures { result ≡ steps.is_or (operation_value op) }
{
    match op {
        Operation::Or => true,
        _ => false,
    }
}

/// Returns the compare that the flags of a comparison or a test leave. Of numbers that do not fit 16 bytes `None` is
/// returned, unless a test says whether they are zero.
pub fn compare_left(digitwise: &Digitwise, c: bool, z: bool) -> Option<LastSaid>
    ensures { IfSome result (λ last. said last ≡ steps.compare_left (digitwise_value digitwise.now)
        (operand_value digitwise.now.operand) (flags_of c z)) }
{
    match &digitwise.operand {
        Operand::These(bytes) => {
            bounds_left(
                digitwise.op,
                digitwise.at,
                digitwise.n,
                bytes.as_slice(),
                c,
                z,
            )
        }
        Operand::AtAddress(other) => Some(order_left(digitwise.at, digitwise.n, *other, c, z)),
    }
}

// What the flags of a comparison with a constant, or of a test, leave known of `n` bytes at an address.
fn bounds_left(op: Operation, at: u16, n: u16, bytes: &[u8], c: bool, z: bool) -> Option<LastSaid>
    ensures { IfSome result (λ last. said last ≡ compares.Bounds at n
        (steps.span_of (operation_value op) n (num bytes.now) (flags_of c z)).0
        (steps.span_of (operation_value op) n (num bytes.now) (flags_of c z)).1) }
{
    if n > MOST {
        return test_left(op, at, n, z);
    }
    if bytes.len() != n as usize {
        return None;
    }
    let (low, high) = span_of(op, bytes, c, z)?;
    Some(LastSaid::Held(Last::Bounds(Bounds { at, n, low, high })))
}

// What a test leaves known of many bytes.
fn test_left(op: Operation, at: u16, n: u16, z: bool) -> Option<LastSaid>
    ensures { (k : ℕ) (c : Bool) → IfSome result (λ last. said last ≡ compares.Bounds at n
        (steps.span_of (operation_value op) n k (flags_of c z)).0
        (steps.span_of (operation_value op) n k (flags_of c z)).1) }
{
    match op {
        Operation::Or => Some(LastSaid::Tested { at, n, zero: z }),
        _ => None,
    }
}

// What the flags of a comparison of two blocks leave.
fn order_left(first: u16, n: u16, second: u16, c: bool, z: bool) -> LastSaid
    ensures { said result ≡ compares.Ordered first n second (compares.orders_of c z) }
{
    LastSaid::Held(Last::Order(Order {
        first,
        second,
        n,
        less: c,
        equal: !c && z,
        greater: !c && !z,
    }))
}

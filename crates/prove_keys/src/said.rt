// What the last compare says after writes, and what it allows.
ghost use Rattle.std.specs.Prelude.{◌≡◌, ℕ, ◌-◌, ◌≤◌, true, false, IfSome};
ghost use Rattle.prove_facts.specs.model_prove.specs.Compares.{Span, Orders, touched, compare_below, allows_span, allows_orders};
ghost use Rattle.prove_facts.specs.model_prove.specs.Keys.{compare_follows};
ghost use Rattle.prove_keys.specs.Compares.{bounds_of, ordered_of, orders_of, compare_of, said, tested};

use crate::compares::{Bounds, Last, LastSaid, Order, touches};

impl LastSaid {
    /// Returns what it says, unless one of its bytes is from one address to below another.
    pub fn without(&self, from: u32, to: u32) -> LastSaid
        ensures { from ≤ to → said result ≡ touched from (to - from) (said self.now) }
    {
        match self {
            LastSaid::Held(last) => LastSaid::Held(last.without(from, to)),
            LastSaid::Tested { at, n, zero } => tested_without(*at, *n, *zero, from, to),
        }
    }

    /// Returns what it says, if all of its bytes lie below an address.
    pub fn below(&self, limit: u32) -> LastSaid
        ensures { said result ≡ compare_below limit (said self.now) }
    {
        match self {
            LastSaid::Held(last) => LastSaid::Held(last_below(last, limit)),
            LastSaid::Tested { at, n, zero } => tested_below(*at, *n, *zero, limit),
        }
    }

    /// Returns whether it speaks of the number of the n bytes at an address.
    pub fn speaks_of(&self, at: u16, n: u16) -> bool
        ensures { result ≡ false → (s : Span) → allows_span (said self.now) at n s ≡ true }
    {
        match self {
            LastSaid::Held(Last::Bounds(bounds)) => bounds.at == at && bounds.n == n,
            LastSaid::Held(_) => false,
            LastSaid::Tested {
                at: first,
                n: size,
                ..
            } => *first == at && *size == n,
        }
    }

    /// Returns whether it allows that the n bytes at an address are a number from one to another. It gives up where it
    /// is said of more bytes than a table holds numbers of that they are not all zero.
    pub fn allows_span(&self, at: u16, n: u16, low: u128, high: u128) -> Option<bool>
        ensures { IfSome result (λ allowed. allowed ≡ allows_span (said self.now) at n (low, high)) }
    {
        if !self.speaks_of(at, n) {
            return Some(true);
        }
        match self {
            LastSaid::Held(last) => Some(last_allows(last, at, n, low, high)),
            LastSaid::Tested { .. } => None,
        }
    }

    /// Returns whether it allows that the n bytes at two addresses have one of these orders.
    pub fn allows_orders(
        &self,
        at: u16,
        n: u16,
        other: u16,
        less: bool,
        equal: bool,
        greater: bool,
    ) -> bool
        ensures { let orders : Orders = record { less = less; equal = equal; greater = greater } in
            result ≡ allows_orders (said self.now) at n other orders }
    {
        match self {
            LastSaid::Held(Last::Order(order)) => {
                order_allows(order, at, n, other, less, equal, greater)
            }
            _ => true,
        }
    }

    /// Returns whether another last compare, that a table holds, surely follows.
    pub fn follows(&self, other: &Last) -> bool
        ensures { result ≡ true → compare_follows (said self.now) (compare_of other.now) ≡ true }
    {
        match self {
            LastSaid::Held(last) => last_follows(last, other),
            LastSaid::Tested { .. } => matches!(other, Last::Nothing),
        }
    }
}

// A test of many bytes, unless one of them is from one address to below another.
fn tested_without(at: u16, n: u16, zero: bool, from: u32, to: u32) -> LastSaid
    ensures { from ≤ to → said result ≡ touched from (to - from) (tested at n zero) }
{
    if touches(at, n, from, to) {
        return LastSaid::Held(Last::Nothing);
    }
    LastSaid::Tested { at, n, zero }
}

// A test of many bytes, if they lie below an address.
fn tested_below(at: u16, n: u16, zero: bool, limit: u32) -> LastSaid
    ensures { said result ≡ compare_below limit (tested at n zero) }
{
    if at as u32 + n as u32 <= limit {
        return LastSaid::Tested { at, n, zero };
    }
    LastSaid::Held(Last::Nothing)
}

// The last compare, if all of its bytes lie below an address.
fn last_below(last: &Last, limit: u32) -> Last
    ensures { compare_of result ≡ compare_below limit (compare_of last.now) }
{
    match last {
        Last::Nothing => Last::Nothing,
        Last::Bounds(bounds) => bounds_below(bounds, limit),
        Last::Order(order) => order_below(order, limit),
    }
}

// Bounds, if their bytes lie below an address.
fn bounds_below(bounds: &Bounds, limit: u32) -> Last
    ensures { compare_of result ≡ compare_below limit (bounds_of bounds.now) }
{
    if bounds.at as u32 + bounds.n as u32 <= limit {
        return Last::Bounds(*bounds);
    }
    Last::Nothing
}

// An order, if its bytes lie below an address.
fn order_below(order: &Order, limit: u32) -> Last
    ensures { compare_of result ≡ compare_below limit (ordered_of order.now) }
{
    if order.first as u32 + order.n as u32 <= limit
        && order.second as u32 + order.n as u32 <= limit
    {
        return Last::Order(*order);
    }
    Last::Nothing
}

// Whether a last compare allows that the n bytes at an address are a number from one to another.
fn last_allows(last: &Last, at: u16, n: u16, low: u128, high: u128) -> bool
    ensures { result ≡ allows_span (compare_of last.now) at n (low, high) }
{
    match last {
        Last::Bounds(bounds) => bounds_allow(bounds, at, n, low, high),
        _ => true,
    }
}

// Whether bounds allow that the n bytes at an address are a number from one to another.
fn bounds_allow(bounds: &Bounds, at: u16, n: u16, low: u128, high: u128) -> bool
    ensures { result ≡ allows_span (bounds_of bounds.now) at n (low, high) }
{
    !(bounds.at == at && bounds.n == n) || bounds.low.max(low) <= bounds.high.min(high)
}

// Whether an order allows that the n bytes at two addresses have one of these orders.
fn order_allows(
    order: &Order,
    at: u16,
    n: u16,
    other: u16,
    less: bool,
    equal: bool,
    greater: bool,
) -> bool
    ensures { let orders : Orders = record { less = less; equal = equal; greater = greater } in
        result ≡ allows_orders (ordered_of order.now) at n other orders }
{
    let same = order.first == at && order.n == n && order.second == other;
    !same || (order.less && less) || (order.equal && equal) || (order.greater && greater)
}

// Whether one last compare follows from another.
fn last_follows(last: &Last, other: &Last) -> bool
    ensures { result ≡ compare_follows (compare_of last.now) (compare_of other.now) }
{
    match (last, other) {
        (_, Last::Nothing) => true,
        (Last::Bounds(a), Last::Bounds(b)) => {
            a.at == b.at && a.n == b.n && b.low <= a.low && a.high <= b.high
        }
        (Last::Order(a), Last::Order(b)) => order_follows(a, b),
        _ => false,
    }
}

// Whether the orders of one compare are among those of another of the same bytes.
fn order_follows(a: &Order, b: &Order) -> bool
    ensures { result ≡ compare_follows (ordered_of a.now) (ordered_of b.now) }
{
    let same = a.first == b.first && a.n == b.n && a.second == b.second;
    same && (!a.less || b.less) && (!a.equal || b.equal) && (!a.greater || b.greater)
}

// The last compare: what its flags left known of numbers of several bytes.
ghost use Rattle.std.specs.Prelude.{◌≡◌, ℕ, ◌+◌, ◌-◌, ◌<◌, ◌≤◌, ◌&&◌, nat_lt};
ghost use Rattle.prove_facts.specs.model_prove.specs.Compares.{meet, touched, join_compare};
ghost use Rattle.prove_keys.specs.Compares.{bounds_of, ordered_of, compare_of};

/// That the number of n bytes at an address lies between two bounds.
#[derive(Clone, Copy, PartialEq, Eq, Debug)]
pub struct Bounds {
    pub at: u16,
    pub n: u16,
    pub low: u128,
    pub high: u128,
}

/// What the n bytes at one address may be to those at another.
#[derive(Clone, Copy, PartialEq, Eq, Debug)]
pub struct Order {
    pub first: u16,
    pub second: u16,
    pub n: u16,
    pub less: bool,
    pub equal: bool,
    pub greater: bool,
}

/// What the last compare says.
#[derive(Clone, Copy, PartialEq, Eq, Debug)]
pub enum Last {
    Nothing,
    Bounds(Bounds),
    Order(Order),
}

/// What the last compare says: what a table holds, or that the n bytes at an address, more than a table holds numbers
/// of, are zero or not.
#[derive(Clone, Copy, PartialEq, Eq, Debug)]
pub enum LastSaid {
    Held(Last),
    Tested { at: u16, n: u16, zero: bool },
}

/// Returns whether n bytes at an address have one in common with those from one address to below another.
pub fn touches(at: u16, n: u16, from: u32, to: u32) -> bool
    ensures { from ≤ to → result ≡ meet at n from (to - from) }
{
    (at as u32) < to && from < at as u32 + n as u32
}

impl Last {
    /// The last compare, unless one of its bytes is from one address to below another.
    pub fn without(&self, from: u32, to: u32) -> Last
        ensures { from ≤ to → compare_of result ≡ touched from (to - from) (compare_of self.now) }
    {
        match self {
            Last::Nothing => Last::Nothing,
            Last::Bounds(bounds) => bounds_without(bounds, from, to),
            Last::Order(order) => order_without(order, from, to),
        }
    }

    /// What holds whichever of two last compares it was.
    pub fn joined(&self, other: &Last) -> Last
        ensures { compare_of result ≡ join_compare (compare_of self.now) (compare_of other.now) }
    {
        match (self, other) {
            (Last::Bounds(a), Last::Bounds(b)) => wider(a, b),
            (Last::Order(a), Last::Order(b)) => either(a, b),
            _ => Last::Nothing,
        }
    }
}

// Bounds, unless one of their bytes is from one address to below another.
fn bounds_without(bounds: &Bounds, from: u32, to: u32) -> Last
    ensures { from ≤ to → compare_of result ≡ touched from (to - from) (bounds_of bounds.now) }
{
    if touches(bounds.at, bounds.n, from, to) {
        return Last::Nothing;
    }
    Last::Bounds(*bounds)
}

// An order, unless one of its bytes is from one address to below another.
fn order_without(order: &Order, from: u32, to: u32) -> Last
    ensures { from ≤ to → compare_of result ≡ touched from (to - from) (ordered_of order.now) }
{
    if touches(order.first, order.n, from, to) || touches(order.second, order.n, from, to) {
        return Last::Nothing;
    }
    Last::Order(*order)
}

// The bounds that hold all numbers of two pairs of bounds of the same bytes.
fn wider(a: &Bounds, b: &Bounds) -> Last
    ensures { compare_of result ≡ join_compare (bounds_of a.now) (bounds_of b.now) }
{
    if a.at != b.at || a.n != b.n {
        return Last::Nothing;
    }
    Last::Bounds(Bounds {
        at: a.at,
        n: a.n,
        low: a.low.min(b.low),
        high: a.high.max(b.high),
    })
}

// The orders of one compare or of another of the same bytes.
fn either(a: &Order, b: &Order) -> Last
    ensures { compare_of result ≡ join_compare (ordered_of a.now) (ordered_of b.now) }
{
    if a.first != b.first || a.second != b.second || a.n != b.n {
        return Last::Nothing;
    }
    Last::Order(Order {
        first: a.first,
        second: a.second,
        n: a.n,
        less: a.less || b.less,
        equal: a.equal || b.equal,
        greater: a.greater || b.greater,
    })
}

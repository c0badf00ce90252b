// Which lengths of a reply are possible.
ghost use Rattle.std.specs.Prelude.{◌≡◌, ◌<◌, ◌&&◌, ◌||◌, nat_le, ℕ, Bool};
ghost use Rattle.prove_facts.specs.model_prove.specs.Arrivals.{some_value, lengths_of};
ghost use Rattle.prove_facts.specs.Sets.{set_of};
ghost use Rattle.prove_patterns.specs.Lengths.{lengths_value};

use prove_facts::Values;

/// Whether a length of a reply is possible: above 0, at most 1,024, or above that.
#[derive(Clone, Copy, PartialEq, Eq, Debug)]
pub struct Lengths {
    pub some: bool,
    pub fitting: bool,
    pub too_long: bool,
}

// Whether a set has a value from one to another.
fn has_between(values: &Values, low: u8, high: u8) -> bool
    ensures { (p : ℕ → Bool) → ((v : ℕ) → v < 256 → p v ≡ (nat_le low v && nat_le v high))
        → result ≡ some_value p (set_of values.now) }
{
    !values.and(&Values::range(low, high)).is_empty()
}

// Whether one holds or another.
fn either(a: bool, b: bool) -> bool
    ensures { result ≡ (a || b) }
{
    a || b
}

// Whether both hold.
fn both(a: bool, b: bool) -> bool
    ensures { result ≡ (a && b) }
{
    a && b
}

/// Returns the lengths that La's two bytes allow.
pub fn lengths_of(high: &Values, low: &Values) -> Lengths
    ensures { lengths_value result ≡ lengths_of (set_of high.now) (set_of low.now) }
{
    let some_low = has_between(low, 1, 255);
    let four = high.has(4);
    let some = either(has_between(high, 1, 255), some_low);
    let fitting = either(has_between(high, 0, 3), both(four, low.has(0)));
    let too_long = either(has_between(high, 5, 255), both(four, some_low));
    Lengths {
        some,
        fitting,
        too_long,
    }
}

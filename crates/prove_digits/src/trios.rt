// Values of a byte of each operand and of the result that belong together.
ghost use Rattle.std.specs.Prelude.{◌≡◌};
ghost use Rattle.prove_facts.specs.model_prove.specs.Digits.{join_digit};
ghost use Rattle.prove_facts.specs.Sets.{set_of};
ghost use Rattle.prove_digits.specs.Trios.{trio_value, grown};

use prove_facts::Values;

/// Values of a byte of each operand and of the result that belong together.
#[derive(Clone, Copy)]
pub struct Trio {
    pub x: Values,
    pub y: Values,
    pub r: Values,
}

impl Trio {
    /// No values.
    pub const NONE: Trio = Trio {
        x: Values::NONE,
        y: Values::NONE,
        r: Values::NONE,
    };

    /// Returns the values of either trio.
    pub fn or(&self, other: &Trio) -> Trio
        ensures { trio_value result ≡ join_digit (trio_value self.now) (trio_value other.now) }
    {
        Trio {
            x: self.x.or(&other.x),
            y: self.y.or(&other.y),
            r: self.r.or(&other.r),
        }
    }
}

/// Adds values of the first byte with one of the second, and their results.
pub fn grow(trio: &mut Trio, x: &Values, y: u8, r: &Values)
    ensures { trio_value trio.new ≡ grown (trio_value trio.old) (set_of x.now) y (set_of r.now) }
{
    if x.is_empty() {
        return;
    }
    trio.x = trio.x.or(x);
    trio.y = trio.y.or(&Values::one(y));
    trio.r = trio.r.or(r);
}

// What a byte can do under a carry.
ghost use Rattle.std.specs.Prelude.{◌≡◌};
ghost use Rattle.prove_digits.specs.Trios.{trio_at, trio_value, edge_of};

use crate::trios::Trio;

/// What a byte can do with one carry after it: by whether its result is zero.
#[derive(Clone, Copy)]
pub struct Split {
    pub other: Trio,
    pub zero: Trio,
}

/// What a byte can do under a carry: by the carry that it makes, and by whether its result is zero.
#[derive(Clone, Copy)]
pub struct Turn {
    pub clear: Split,
    pub set: Split,
}

impl Split {
    /// No values.
    pub const NONE: Split = Split {
        other: Trio::NONE,
        zero: Trio::NONE,
    };
}

impl Turn {
    /// A byte without values.
    pub const NONE: Turn = Turn {
        clear: Split::NONE,
        set: Split::NONE,
    };

    /// Returns what makes this carry and has this zero.
    pub fn trio(&self, carry: bool, zero: bool) -> &Trio
        ensures { result.now ≡ trio_at self.now carry zero }
    {
        match (carry, zero) {
            (false, false) => &self.clear.other,
            (false, true) => &self.clear.zero,
            (true, false) => &self.set.other,
            (true, true) => &self.set.zero,
        }
    }

    /// Returns what leads to these flags, if all was zero so far or not.
    pub fn edge(&self, zero_so_far: bool, carry: bool, zero: bool) -> Trio
        ensures { trio_value result ≡ edge_of self.now zero_so_far carry zero }
    {
        if zero_so_far {
            return *self.trio(carry, zero);
        }
        if zero {
            return Trio::NONE;
        }
        self.trio(carry, false).or(self.trio(carry, true))
    }
}

// Sets of final flags.
ghost use Rattle.std.specs.Prelude.{◌≡◌};
ghost use Rattle.prove_digits.specs.States.{has_state, states_one};

/// A set of the four pairs of a carry and a zero.
#[derive(Clone, Copy)]
pub struct States {
    pub other: bool,
    pub zero: bool,
    pub carry: bool,
    pub both: bool,
}

impl States {
    /// Returns whether a pair is there.
    pub fn has(&self, carry: bool, zero: bool) -> bool
        ensures { result ≡ has_state self.now carry zero }
    {
        match (carry, zero) {
            (false, false) => self.other,
            (false, true) => self.zero,
            (true, false) => self.carry,
            (true, true) => self.both,
        }
    }

    /// Returns the set of one pair.
    pub fn one(carry: bool, zero: bool) -> States
        ensures { result ≡ states_one carry zero }
    {
        States {
            other: !carry && !zero,
            zero: !carry && zero,
            carry: carry && !zero,
            both: carry && zero,
        }
    }
}

ghost use Rattle.model_prove.specs.Digits.{DigitsLaw};
ghost use Rattle.model_prove.specs.Laws.{CompareLaw, FollowLaw, JoinLaw, RoundLaw, SplitLaw, WriteLaw};

/// What holds of one of two states holds of what is known of both.
pub fn joining_weakens()
    ensures { JoinLaw }
{}

/// What holds of a state between commands holds of it rounded.
pub fn rounding_weakens()
    ensures { RoundLaw }
{}

/// Facts that a table includes hold of each state of which those of an outcome hold.
pub fn what_follows_holds()
    ensures { FollowLaw }
{}

/// The last compare is so whichever of two states it is, and until a byte of it is touched.
pub fn compares_last()
    ensures { CompareLaw }
{}

/// Whatever values the bytes of two numbers have among some sets, a way of the automaton leads to the final flags of
/// their sum, difference or bitwise result, and each byte of both and of the result has a value that lies on it.
pub fn digits_lie_on_ways()
    ensures { DigitsLaw }
{}

/// The values of the bytes that decide an instruction are one of their combinations, and each of these is followed by
/// itself.
pub fn splits_are_all()
    ensures { SplitLaw }
{}

/// Facts hold after bytes of some sets were written.
pub fn writes_are_known()
    ensures { WriteLaw }
{}

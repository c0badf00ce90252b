ghost use Rattle.mc_lab.specs.SweepLaws.{BetweenChanges, HitsWithin, NeverTorn, OfEach, SplitsAtGate, StaysSame};

/// Whatever word a cut leaves, and wherever the recovery after it is cut too, the card means the same: no
/// line of a sweep has a run `torn`.
pub fn never_torn()
    ensures { NeverTorn }
{}

/// A line has a run `between` only if two or more of its items change the observed state.
pub fn between_two_changes()
    ensures { OfEach BetweenChanges }
{}

/// If exactly one item of a line changes the observed state, the line is `before` up to and with the write
/// that opens that item's gate, and `after` from the next write on.
pub fn one_change_splits_at_its_gate()
    ensures { OfEach SplitsAtGate }
{}

/// If no item of a line changes the observed state, the line is `same` in each of its writes.
pub fn no_change_stays_the_same()
    ensures { OfEach StaysSame }
{}

/// A cut at write `k`, from 1 on, hits a line to the card for which no stop is armed exactly if the line makes at least
/// `k` device writes, and so does a cut in the recovery after it.
pub fn a_cut_hits_the_writes_of_its_line()
    ensures { HitsWithin }
{}

//! Worked rows: a counter beside a quiet stranger, and beside a busy one.
#![tactic(auto, unfolding(crate::specs::ApartComputed::needed_in, crate::specs::ApartComputed::count_given))]

ghost use Rattle.std.specs.Prelude.{◌≡◌, length};
ghost use Rattle.law_closed.specs.ApartComputed.{busy_stranger, count_given, needed_in, quiet_stranger};

/// What the counter is given differs, since it is given each loss of a selection.
pub fn given()
    ensures quiet { count_given quiet_stranger ≡ 7 }
    ensures busy { count_given busy_stranger ≡ 11 }
{}

/// What it needs is the same: its creation, four commands, and the one loss of a selection that it had.
pub fn needed()
    ensures same { needed_in quiet_stranger ≡ needed_in busy_stranger }
    ensures count { length (needed_in busy_stranger) ≡ 6 }
{}

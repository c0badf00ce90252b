#![tactic(auto, unfolding(crate::specs::KeptComputed::only_target, crate::specs::KeptComputed::only_brought))]

// Worked rows: which decks bring only the application of their rules.
ghost use Rattle.std.specs.Prelude.{◌≡◌, codes, true, false, Ok};
ghost use Rattle.law_histories.specs.KeptComputed.{only_target, only_brought, two_apps, swapped_deck};

/// A deck with a deletion and another load of the same application, and with commands to it as moves.
pub fn one_application()
    ensures moves { only_target (two_apps (codes "delete A000000001\nload a 2 1\nselect A000000001\n")) ≡ Ok true }
    ensures tries { only_brought (two_apps (codes "delete A000000001\nload a 2 1\nselect A000000001\n")) ≡ Ok true }
{}

/// A deck that loads another under the name.
pub fn other_application()
    ensures moves { only_target swapped_deck ≡ Ok false }
    ensures tries { only_brought swapped_deck ≡ Ok false }
{}

/// A deck with a CREATE among its moves: no load is open, so no try creates another.
pub fn idle_creation()
    ensures moves { only_target (two_apps (codes "#@ move apdu BE160000\n")) ≡ Ok false }
    ensures tries { only_brought (two_apps (codes "#@ move apdu BE160000\n")) ≡ Ok true }
{}

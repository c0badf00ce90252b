#![tactic(auto, unfolding(crate::specs::Computed::broken_at, crate::specs::Computed::history_of, crate::specs::Computed::brings_only, crate::specs::Computed::broken_from, crate::specs::Computed::history_from))]

ghost use Rattle.std.specs.Prelude.{◌≡◌, ◌++◌, [], ◌∷◌, codes, Some, None, true};
ghost use Rattle.law_promise.specs.Computed.{brings_only, broken_at, broken_from, history_from, history_of};
ghost use Rattle.law_promise.specs.Counter.{counter_app, counter_deck, counter_name, counter_text, counter_watch, found_counter, keeps_count, set_back, three_counts, two_more};

/// The counter's own play keeps its promise after every line; what is created in it under the counter's name is the
/// counter, and two counts are durable.
pub fn counter_play()
    ensures premise { brings_only counter_name counter_app (counter_deck counter_text three_counts) ≡ true }
    ensures keeps { broken_at counter_watch keeps_count (counter_deck counter_text three_counts) ≡ None }
    ensures history { history_of counter_watch (counter_deck counter_text three_counts) ≡ 2 ∷ 1 ∷ [] }
{}

/// A counter that can be set back falls.
pub fn set_back_falls()
    ensures { broken_at counter_watch keeps_count (counter_deck set_back (codes "apdu 8010000000\napdu 8014000000\n"))
        ≡ Some 6 }
{}

/// A card that holds the counter with two counts, from the history of these two on: it keeps its promise, and two more
/// are counted. From no history it does not, since the first `power` line finds two.
pub fn counter_goes_on()
    ensures keeps { broken_from counter_watch keeps_count (2 ∷ 1 ∷ []) found_counter two_more ≡ None }
    ensures history { history_from counter_watch (2 ∷ 1 ∷ []) found_counter two_more ≡ 4 ∷ 3 ∷ 2 ∷ 1 ∷ [] }
    ensures other { broken_from counter_watch keeps_count [] found_counter two_more ≡ Some 0 }
{}

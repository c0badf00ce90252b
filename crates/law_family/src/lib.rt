//! The law of isolation and the other laws of plays, over the definitions alone.
#![tactic(auto)]

mod definitions;

ghost use Rattle.std.specs.Prelude.{◌≡◌, [], ◌∷◌};
ghost use Rattle.model_play.specs.model_machine.specs.Chain.{Reply};
ghost use Rattle.model_play.specs.Play.{Answered, OffAt, Static};
ghost use Rattle.model_play.specs.View.{View};
ghost use Rattle.model_play.specs.Laws.{IsolationLaw};
ghost use Rattle.law_family.specs.Worked.{view_in_play, view_alone};

pub use definitions::{
    counts_within_budget, pairs_compose, read_decks_fit, runs_begin_well, stops_split,
    traces_hold_transcripts,
};
pub use model_play::{model_machine, model_text};

/// The law of isolation. For every deck, image, possible list of failed writes and front of the play: what a closed
/// family of applications observes and holds is what it observes and holds on a card of its own, each line leaves the
/// card with its whole items, no new application has a stale byte, and no chain of cuts makes a card unusable. The law
/// speaks of this project's definitions; no standard has one like it.
pub fn isolation()
    ensures { IsolationLaw }
{}

/// The view of one of two counters in a play with a cut in each of them: its results, and its static bytes at the
/// end.
#[tactic(auto, unfolding(crate::specs::Worked::view_in_play))]
pub fn worked_view()
    ensures { view_in_play ≡ record {
      answers =
          Answered (Reply [] 0x9000) ∷ Answered (Reply (0 ∷ 1 ∷ []) 0x9000) ∷ Answered (Reply [] 0x9000) ∷ OffAt 4 ∷ Static (0 ∷ 2 ∷ []) ∷ [];
      rest = Static (0 ∷ 2 ∷ []) ∷ [];
    } }
{}

/// The view of that counter on a card of its own.
#[tactic(auto, unfolding(crate::specs::Worked::view_alone))]
pub fn worked_solo_view()
    ensures { view_alone ≡ record {
      answers =
          Answered (Reply [] 0x9000) ∷ Answered (Reply (0 ∷ 1 ∷ []) 0x9000) ∷ Answered (Reply [] 0x9000) ∷ OffAt 4 ∷ Static (0 ∷ 2 ∷ []) ∷ [];
      rest = Static (0 ∷ 2 ∷ []) ∷ [];
    } }
{}

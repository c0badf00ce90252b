//! Worked rows: a formatted card whose open journal has one word, 200, still to be written.
#![tactic(auto, unfolding(crate::specs::Computed::answer_after))]

ghost use Rattle.std.specs.Prelude.{◌≡◌, [], ◌∷◌};
ghost use Rattle.model_play.specs.model_device.specs.Bytes.{zeros};
ghost use Rattle.model_play.specs.model_device.specs.Image.{Two, gate, opening};
ghost use Rattle.model_play.specs.Play.{FailureStop, Ready};
ghost use Rattle.mc_dead_word.specs.Computed.{answer_after};

/// The word that the recovery has to write fails: 6581 at each power-up.
pub fn target_fails()
    ensures first { answer_after 200 [] ≡ FailureStop }
    ensures third { answer_after 200 (zeros 8 ∷ zeros 8 ∷ []) ≡ FailureStop }
{}

/// The gate fails, and is left with another word: the next power-up finds nothing to write.
pub fn gate_fails()
    ensures first { answer_after (gate Two) [] ≡ FailureStop }
    ensures second { answer_after (gate Two) (zeros 8 ∷ []) ≡ Ready 0 }
    ensures still_open { answer_after (gate Two) (opening Two ∷ opening Two ∷ []) ≡ FailureStop }
{}

/// Any other word fails: the recovery makes its two writes.
pub fn another_fails()
    ensures first { answer_after 0 [] ≡ Ready 2 }
    ensures second { answer_after 0 (zeros 8 ∷ []) ≡ Ready 0 }
{}

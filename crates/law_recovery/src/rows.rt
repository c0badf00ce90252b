//! Worked rows: a counter whose command makes six device writes, of which the fourth opens the gate of the journal.
#![tactic(auto, unfolding(crate::specs::Computed::counted))]

ghost use Rattle.std.specs.Prelude.{◌≡◌, [], ◌∷◌, Some};
ghost use Rattle.model_play.specs.model_device.specs.declared.device.Stop.TheVariants as stop;
ghost use Rattle.model_play.specs.model_device.specs.Bytes.{zeros};
ghost use Rattle.model_play.specs.model_device.specs.Image.{Two, opening};
ghost use Rattle.law_recovery.specs.Computed.{counted, stop_at};

/// A cut in the write that opens the gate, which leaves zeros there: nothing is counted, whatever is cut after it.
pub fn gate_torn()
    ensures { counted (stop_at stop.Off 4 (zeros 8)) (stop_at stop.Off 1 (zeros 8) ∷ []) ≡ Some (0 ∷ 0 ∷ []) }
{}

/// The same cut, which leaves the word that opens the gate: it is counted, although three recoveries are stopped.
pub fn gate_opened()
    ensures { counted (stop_at stop.Off 4 (opening Two))
        (stop_at stop.Off 1 (zeros 8) ∷ stop_at stop.Worn 2 (opening Two) ∷ stop_at stop.Off 2 (zeros 8) ∷ [])
        ≡ Some (0 ∷ 1 ∷ []) }
{}

/// A failed write after the gate was opened: it is counted.
pub fn target_failed()
    ensures { counted (stop_at stop.Worn 5 (zeros 8)) [] ≡ Some (0 ∷ 1 ∷ []) }
{}

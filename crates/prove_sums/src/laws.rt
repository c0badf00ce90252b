// What of a row's shape matters to what is known for sums.
ghost use Rattle.prove_sums.specs.Outlines.{CoarseMoveLaw, MoveLaw};

/// What is known after a row is the same for its shape and for its outline.
pub fn outlines_move_alike()
    ensures { MoveLaw }
{}

/// What is known after a row of too many combinations is the same for its shape and for its outline.
pub fn coarse_outlines_move_alike()
    ensures { CoarseMoveLaw }
{}

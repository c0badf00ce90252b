// What of a row's shape matters to what follows it.
ghost use Rattle.prove_scenes.specs.Coarse.{CoarseOutlineLaw};
ghost use Rattle.prove_scenes.specs.Outlines.{OutlineLaw};

/// What follows a row is the same for its shape and for its outline, whatever the cause of its abend.
pub fn outlines_lead_alike()
    ensures { OutlineLaw }
{}

/// What follows a row of too many combinations is the same for its shape and for its outline.
pub fn coarse_outlines_lead_alike()
    ensures { CoarseOutlineLaw }
{}

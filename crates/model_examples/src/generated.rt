// The summary of a generated deck of 4,012 lines, computed in parts. Tests of `melcard` play two more with the proved
// program, which writes the summary of the definition.

ghost use Rattle.std.specs.Prelude.{◌≡◌, ◌++◌, codes};
ghost use Rattle.model_play.specs.Generator.{summary};
ghost use Rattle.model_examples.specs.Summed.{generated_play};

/// The summary of the deck that 1 generates.
pub fn first_summary()
    ensures { summary (generated_play 1) ≡ codes "lines 3752 replies 2912 abends 0 cuts 39 offs 420 readies 377\n"
        ++ codes "static 03A3\n" ++ codes "static 00000000000000000000\n" ++ codes "static 05A000000001\n" }
{}

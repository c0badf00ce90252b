// The words of a sweep.
ghost use Rattle.std.specs.Prelude.{◌≡◌};
ghost use Rattle.mc_lab.specs.Sweeps.{word_text};

/// The state that a cut left: that before the line, that after it, both if they are equal, or another; or
/// states that differ by fill or by a cut of the recovery.
#[derive(Clone, Copy, Debug, PartialEq, Eq)]
pub enum SweepWord {
    Before,
    After,
    Same,
    Between,
    Torn,
}

impl SweepWord {
    /// Returns the word that is printed.
    pub fn text(&self) -> &'static str
        ensures { result.now ≡ word_text self.now }
    {
        match self {
            SweepWord::Before => "before",
            SweepWord::After => "after",
            SweepWord::Same => "same",
            SweepWord::Between => "between",
            SweepWord::Torn => "torn",
        }
    }
}

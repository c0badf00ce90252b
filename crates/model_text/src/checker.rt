ghost use Rattle.std.specs.Prelude.{◌≡◌};
ghost use Rattle.model_text.specs.CheckWords.{check_word};

/// Why the stack checker refuses code.
#[derive(Clone, Copy, Debug, PartialEq, Eq)]
pub enum CheckCause {
    Undefined,
    Past,
    Indirect,
    Returns,
    Under,
    Target,
    Recursive,
    Heights,
    Wild,
    Deep,
}

impl CheckCause {
    /// Returns the word that a verdict prints.
    pub fn word(&self) -> &'static str
        ensures { result.now ≡ check_word self.now }
    {
        match self {
            CheckCause::Undefined => "Undefined",
            CheckCause::Past => "Past",
            CheckCause::Indirect => "Indirect",
            CheckCause::Returns => "Returns",
            CheckCause::Under => "Under",
            CheckCause::Target => "Target",
            CheckCause::Recursive => "Recursive",
            CheckCause::Heights => "Heights",
            CheckCause::Wild => "Wild",
            CheckCause::Deep => "Deep",
        }
    }
}

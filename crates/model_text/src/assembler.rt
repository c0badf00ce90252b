ghost use Rattle.std.specs.Prelude.{◌≡◌};
ghost use Rattle.model_text.specs.AsmWords.{asm_word};

/// Why a line of an assembly text is refused.
#[derive(Clone, Copy, Debug, PartialEq, Eq)]
pub enum AsmCause {
    UnknownWord,
    BadOperands,
    BadNumber,
    OutOfRange,
    LabelTwice,
    TooLong,
    UnknownLabel,
    FarBranch,
}

impl AsmCause {
    /// Returns the word that a refusal prints.
    pub fn word(&self) -> &'static str
        ensures { result.now ≡ asm_word self.now }
    {
        match self {
            AsmCause::UnknownWord => "UnknownWord",
            AsmCause::BadOperands => "BadOperands",
            AsmCause::BadNumber => "BadNumber",
            AsmCause::OutOfRange => "OutOfRange",
            AsmCause::LabelTwice => "LabelTwice",
            AsmCause::TooLong => "TooLong",
            AsmCause::UnknownLabel => "UnknownLabel",
            AsmCause::FarBranch => "FarBranch",
        }
    }
}

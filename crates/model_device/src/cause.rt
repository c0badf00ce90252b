ghost use Rattle.std.specs.Prelude.{◌≡◌};
ghost use Rattle.model_device.specs.Words.{cause_text};

/// Why an image holds no card.
#[derive(Clone, Copy, Debug, PartialEq, Eq)]
pub enum Cause {
    BadJournal,
    NoRoot,
    BadBlock,
    BadRecord,
    BadChain,
}

impl Cause {
    /// Returns the word that a transcript prints.
    pub fn word(&self) -> &'static str
        ensures { result.now ≡ cause_text self.now }
    {
        match self {
            Cause::BadJournal => "BadJournal",
            Cause::NoRoot => "NoRoot",
            Cause::BadBlock => "BadBlock",
            Cause::BadRecord => "BadRecord",
            Cause::BadChain => "BadChain",
        }
    }
}

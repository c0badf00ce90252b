ghost use Rattle.std.specs.Prelude.{◌≡◌};
ghost use Rattle.model_card.specs.Words.{unit_word};

/// Why bytes are no load unit. The first that holds counts, in this order.
#[derive(Clone, Copy, Debug, PartialEq, Eq)]
pub enum UnitRefusal {
    Short,
    NoCode,
    TooLarge,
    Signed,
    Enciphered,
    Tail,
    NoAid,
    AidLength,
}

/// Why a DIR record has no name.
#[derive(Clone, Copy, Debug, PartialEq, Eq)]
pub enum AidFault {
    NoAid,
    AidLength,
}

impl UnitRefusal {
    /// Returns the word that a refusal prints.
    pub fn word(&self) -> &'static str
        ensures { result.now ≡ unit_word self.now }
    {
        match self {
            UnitRefusal::Short => "Short",
            UnitRefusal::NoCode => "NoCode",
            UnitRefusal::TooLarge => "TooLarge",
            UnitRefusal::Signed => "Signed",
            UnitRefusal::Enciphered => "Enciphered",
            UnitRefusal::Tail => "Tail",
            UnitRefusal::NoAid => "NoAid",
            UnitRefusal::AidLength => "AidLength",
        }
    }
}

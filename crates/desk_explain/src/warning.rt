// What a draft is warned of.

/// What a draft is warned of: an instruction that always abends, a word that is read or written at a name of another
/// size, and a name, a label and code that nothing reaches.
#[derive(Clone, Copy, Debug, PartialEq, Eq)]
pub enum Warning {
    Abends,
    WordSize,
    UnusedName,
    UnusedLabel,
    Unreached,
}

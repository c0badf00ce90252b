// The rules that are broken, and the outcomes that lead from one key of the tables to another.
use prove_facts::Facts;
use prove_keys::{Known, MomentKey, PlaceKey};

/// A rule by its number among those of its kind: an allowance, no abend, a range, or the block of a line of sums.
#[derive(Clone, Copy, PartialEq, Eq, PartialOrd, Ord, Debug)]
pub enum Rule {
    Allowance(usize),
    Abend,
    Range(usize),
    Balance(usize),
}

/// A rule that is broken: its line, the place of the instruction if one breaks it, and the rule.
#[derive(Clone, Copy, PartialEq, Eq, PartialOrd, Ord, Debug)]
pub struct Break {
    pub line: u32,
    pub at: Option<u16>,
    pub rule: Rule,
}

/// An outcome of a key.
#[derive(Drop)]
pub enum Outcome {
    Moment(MomentKey, Facts),
    Place(PlaceKey, Known),
    Broken(Break),
    Unknown(u16),
}

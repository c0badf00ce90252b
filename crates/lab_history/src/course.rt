// What happens to an application while a line is played.
ghost use Rattle.std.specs.Prelude.{◌≡◌};
ghost use Rattle.lab_history.specs.Courses.{has_turn};

/// What an instruction of the application does to what is counted: an `on` line about an allowance fits it, by its number
/// among the `on` lines; one about a sum fits it, with the number that is moved; the waiting sums are kept; the waiting sums
/// are dropped; or the instruction ended with an abend.
#[derive(Drop)]
pub enum Deed {
    On(usize),
    Sum(usize, Vec<u8>),
    Keep,
    Drop,
    Abend,
}

/// A deed, with the number of instructions that were done before it.
#[derive(Drop)]
pub struct Happening {
    pub turn: u64,
    pub deed: Deed,
}

/// What happens to an application while a line is played whole: the `on` lines that fit the command that reaches it, what
/// its instructions do, the `on` lines that fit its answer, whether it was selected before, and whether a session of it
/// begins or ends with the line.
#[derive(Drop)]
pub struct Course {
    pub command: Vec<usize>,
    pub deeds: Vec<Happening>,
    pub answer: Vec<usize>,
    pub was_selected: bool,
    pub has_session: bool,
}

/// How far a line came: to its end, or to a stop after a number of instructions; the instruction that the stop hit counts
/// exactly if its write is durable.
#[derive(Clone, Copy, Debug, PartialEq, Eq)]
pub enum Extent {
    Whole,
    Stopped { turns: u64, durable: bool },
}

impl Extent {
    /// Returns whether the instruction after this number of them counts.
    pub fn has(&self, turn: u64) -> bool
        ensures { result ≡ has_turn self.now turn }
    {
        match self {
            Extent::Whole => true,
            Extent::Stopped { turns, durable } => turn < *turns || (turn == *turns && *durable),
        }
    }
}

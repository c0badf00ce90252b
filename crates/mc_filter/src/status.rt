// How a job ends.
ghost use Rattle.std.specs.Prelude.{◌≡◌};
ghost use Rattle.mc_filter.specs.Statuses.{number_of};

/// How a job ended. Its number is the status of the program.
#[derive(Clone, Copy, Debug, PartialEq, Eq)]
pub enum Status {
    /// The job is done, and its input passes.
    Done,
    /// The input is refused, or something that it states of itself does not hold.
    Failed,
    /// The arguments select no job.
    NoForm,
    /// A fault of the source.
    ReadFault,
    /// A fault of the sink.
    WriteFault,
    /// Out of memory.
    NoMemory,
    /// The job is done up to its bounds, and its input passes as far as that: not all of it was tried.
    Partial,
}

/// Returns the number of a status: 0 to 6, in the order of the statuses.
pub fn number(status: Status) -> u8
    ensures { result ≡ number_of status }
{
    match status {
        Status::Done => 0,
        Status::Failed => 1,
        Status::NoForm => 2,
        Status::ReadFault => 3,
        Status::WriteFault => 4,
        Status::NoMemory => 5,
        Status::Partial => 6,
    }
}

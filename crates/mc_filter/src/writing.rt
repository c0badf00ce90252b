// Writing at the end of a job.
ghost use Rattle.std.specs.Prelude.{◌≡◌};
ghost use Rattle.mc_text.specs.Texts.{sunk};
ghost use Rattle.mc_filter.specs.Statuses.{status_after_writing, RejectionEnds};

use crate::rejection::Rejection;
use crate::status::Status;
use mc_streams::{Sink, WriteFault, put_all};

/// Returns the status after a text was written: `good`, or `WriteFault` if the sink failed.
pub fn ended(good: Status, written: Result<(), WriteFault>) -> Status
    ensures { result ≡ status_after_writing good written }
{
    match written {
        Ok(()) => good,
        Err(WriteFault) => Status::WriteFault,
    }
}

/// Ends a job that is not done, and returns its status: writes the line that refuses its input, and nothing
/// for another cause.
pub fn reject<T: Sink>(out: &mut T, rejection: &Rejection) -> Status
    ensures { RejectionEnds rejection.now (sunk T.Sink out.old) result (sunk T.Sink out.new) }
{
    match rejection {
        Rejection::Refusal(line) => ended(Status::Failed, put_all(out, line.as_slice())),
        Rejection::ReadFault => Status::ReadFault,
        Rejection::NoMemory => Status::NoMemory,
    }
}

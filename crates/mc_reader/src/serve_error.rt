use mc_streams::WriteFault;
use std::alloc::AllocError;

/// Why a session ended before the end of its input.
#[derive(Clone, Copy, Debug, PartialEq, Eq)]
pub enum ServeError {
    /// The input ended inside the frame of this number; frames are counted from 1.
    Short(u64),
    /// The input failed.
    ReadFault,
    /// The sink of the answers failed.
    WriteFault,
    /// Out of memory for the longest frame. Nothing was read, played or written.
    NoMemory,
}

impl From<WriteFault> for ServeError {
    ghost use Rattle.std.specs.Prelude.{◌≡◌};
    ghost use Rattle.mc_reader.specs.declared.serve_error.ServeError.TheVariants as fault;

    ghost from_gives = { λ f e. e ≡ fault.WriteFault };

    fn from(_error: WriteFault) -> Self {
        ServeError::WriteFault
    }
}

impl From<AllocError> for ServeError {
    ghost use Rattle.std.specs.Prelude.{◌≡◌};
    ghost use Rattle.mc_reader.specs.declared.serve_error.ServeError.TheVariants as fault;

    ghost from_gives = { λ f e. e ≡ fault.NoMemory };

    fn from(_error: AllocError) -> Self {
        ServeError::NoMemory
    }
}

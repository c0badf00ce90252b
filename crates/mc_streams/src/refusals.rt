use std::alloc::AllocError;

/// A call of a source or a sink that moved no byte.
#[derive(Clone, Copy, Debug, PartialEq, Eq)]
pub struct Failed;

/// A sink failed before it had taken the whole piece.
#[derive(Clone, Copy, Debug, PartialEq, Eq)]
pub struct WriteFault;

/// Why a source was not read to its end.
#[derive(Clone, Copy, Debug, PartialEq, Eq)]
pub enum ReadAll {
    /// The source failed.
    ReadFault,
    /// More bytes came than the limit allows.
    TooLong,
    /// Out of memory.
    NoMemory,
}

impl From<Failed> for WriteFault {
    fn from(_error: Failed) -> Self {
        WriteFault
    }
}

impl From<Failed> for ReadAll {
    ghost use Rattle.std.specs.Prelude.{◌≡◌};
    ghost use Rattle.mc_streams.specs.declared.refusals.ReadAll.TheVariants.{ReadFault};

    ghost from_gives = { λ f e. e ≡ ReadFault };

    fn from(_error: Failed) -> Self {
        ReadAll::ReadFault
    }
}

impl From<AllocError> for ReadAll {
    ghost use Rattle.std.specs.Prelude.{◌≡◌};
    ghost use Rattle.mc_streams.specs.declared.refusals.ReadAll.TheVariants.{NoMemory};

    ghost from_gives = { λ f e. e ≡ NoMemory };

    fn from(_error: AllocError) -> Self {
        ReadAll::NoMemory
    }
}

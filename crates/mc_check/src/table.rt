// The checker's table: for each place of the code at most one fact.
use law_family::model_text::CheckCause;
use std::alloc::{AllocError, AllocFailed};

/// The routine of a place of code: the main code, or the routine that begins at a place.
#[derive(Clone, Copy, Debug, PartialEq, Eq)]
pub enum Routine {
    Main,
    At(u16),
}

/// A fact at a known place: its routine, and the number of bytes from LB to DT there.
#[derive(Clone, Copy, Debug, PartialEq, Eq)]
pub struct Entry {
    pub routine: Routine,
    pub height: u16,
}

/// The place at which code is refused, and the cause.
#[derive(Clone, Copy, Debug, PartialEq, Eq)]
pub struct Refusal {
    pub place: u16,
    pub cause: CheckCause,
}

/// Why the checker comes to no table, or to no verdict.
#[derive(Clone, Copy, Debug, PartialEq, Eq)]
pub enum Fault {
    NoMemory,
    Refused(Refusal),
}

impl From<AllocError> for Fault {
    ghost use Rattle.std.specs.Prelude.{◌≡◌};
    ghost use Rattle.mc_check.specs.declared.table.Fault.TheVariants.{NoMemory};

    ghost from_gives = { λ f e. e ≡ NoMemory };

    fn from(_error: AllocError) -> Self {
        Fault::NoMemory
    }
}

impl<T: Drop> From<AllocFailed<T>> for Fault {
    ghost use Rattle.std.specs.Prelude.{◌≡◌};
    ghost use Rattle.mc_check.specs.declared.table.Fault.TheVariants.{NoMemory};

    ghost from_gives = { λ f e. e ≡ NoMemory };

    fn from(_error: AllocFailed<T>) -> Self {
        Fault::NoMemory
    }
}

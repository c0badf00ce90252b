use model_text::AsmCause;
use model_text::model_machine::DecodeFault;
use std::alloc::AllocError;
use thiserror::Error;

/// Why a text has no code.
#[derive(Clone, Copy, Debug, PartialEq, Eq, Error)]
pub enum AsmRefusal {
    /// The first refused line, counted from 1, and its cause.
    #[error("line {0}: refused")]
    At(u32, AsmCause),
    /// Out of memory.
    #[error("out of memory")]
    NoMemory,
}

/// Why code has no listing.
#[derive(Clone, Copy, Debug, PartialEq, Eq, Error)]
pub enum ListRefusal {
    /// The first place, from 0 on, at which no instruction is decoded, and why.
    #[error("place {0}: refused")]
    At(u16, DecodeFault),
    /// Out of memory.
    #[error("out of memory")]
    NoMemory,
}

impl From<AllocError> for AsmRefusal {
    ghost use Rattle.std.specs.Prelude.{◌≡◌};
    ghost use Rattle.mc_asm.specs.declared.refusal.AsmRefusal.TheVariants.{NoMemory};

    ghost from_gives = { λ f e. e ≡ NoMemory };

    fn from(_error: AllocError) -> Self {
        AsmRefusal::NoMemory
    }
}

impl From<AllocError> for ListRefusal {
    ghost use Rattle.std.specs.Prelude.{◌≡◌};
    ghost use Rattle.mc_asm.specs.declared.refusal.ListRefusal.TheVariants.{NoMemory};

    ghost from_gives = { λ f e. e ≡ NoMemory };

    fn from(_error: AllocError) -> Self {
        ListRefusal::NoMemory
    }
}

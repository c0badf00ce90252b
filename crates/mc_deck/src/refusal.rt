use model_play::DeckCause;
use std::alloc::AllocError;
use thiserror::Error;

/// Why a text is no deck.
#[derive(Clone, Copy, Debug, PartialEq, Eq, Error)]
pub enum DeckRefusal {
    /// The first refused line, counted from 1, and its cause.
    #[error("line {0}: refused")]
    At(u32, DeckCause),
    /// Out of memory.
    #[error("out of memory")]
    NoMemory,
}

/// Why a statement is refused, without its line.
#[derive(Clone, Copy, Debug, PartialEq, Eq)]
pub enum Fault {
    Cause(DeckCause),
    NoMemory,
}

impl From<AllocError> for DeckRefusal {
    ghost use Rattle.std.specs.Prelude.{◌≡◌};
    ghost use Rattle.mc_deck.specs.declared.refusal.DeckRefusal.TheVariants.{NoMemory};

    ghost from_gives = { λ f e. e ≡ NoMemory };

    fn from(_error: AllocError) -> Self {
        DeckRefusal::NoMemory
    }
}

impl From<AllocError> for Fault {
    ghost use Rattle.std.specs.Prelude.{◌≡◌};
    ghost use Rattle.mc_deck.specs.declared.refusal.Fault.TheVariants.{NoMemory};

    ghost from_gives = { λ f e. e ≡ NoMemory };

    fn from(_error: AllocError) -> Self {
        Fault::NoMemory
    }
}

impl From<DeckCause> for Fault {
    ghost use Rattle.std.specs.Prelude.{◌≡◌};
    ghost use Rattle.mc_deck.specs.declared.refusal.Fault.TheVariants.{Cause};

    ghost from_gives = { λ c e. e ≡ Cause c };

    fn from(cause: DeckCause) -> Self {
        Fault::Cause(cause)
    }
}

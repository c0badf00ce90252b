// Why a job is not done.
use model_device::NoMemory;
use std::alloc::AllocError;

/// Why a job is not done: a line that refuses its input, a fault of its source, or out of memory.
#[derive(Drop)]
pub enum Rejection {
    Refusal(Vec<u8>),
    ReadFault,
    NoMemory,
}

impl From<NoMemory> for Rejection {
    ghost use Rattle.std.specs.Prelude.{◌≡◌};
    ghost use Rattle.mc_filter.specs.declared.rejection.Rejection.TheVariants.{NoMemory};

    ghost from_gives = { λ f e. e ≡ NoMemory };

    fn from(_error: NoMemory) -> Self {
        Rejection::NoMemory
    }
}

impl From<AllocError> for Rejection {
    ghost use Rattle.std.specs.Prelude.{◌≡◌};
    ghost use Rattle.mc_filter.specs.declared.rejection.Rejection.TheVariants.{NoMemory};

    ghost from_gives = { λ f e. e ≡ NoMemory };

    fn from(_error: AllocError) -> Self {
        Rejection::NoMemory
    }
}

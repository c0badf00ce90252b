// Why a job over a play ends early.
ghost use Rattle.std.specs.Prelude.{◌≡◌};

use mc_streams::WriteFault;
use mc_words::NoMemory;

/// Why a job that plays a deck and writes a text ended early: it was out of memory, or its text was not wholly written.
#[derive(Clone, Copy, Debug, PartialEq, Eq)]
pub enum JobFault {
    NoMemory,
    WriteFault,
}

impl From<NoMemory> for JobFault {
    ghost use Rattle.mc_script.specs.declared.job.JobFault.TheVariants.{NoMemory};

    ghost from_gives = { λ f e. e ≡ NoMemory };

    fn from(_error: NoMemory) -> Self {
        JobFault::NoMemory
    }
}

impl From<WriteFault> for JobFault {
    ghost use Rattle.mc_script.specs.declared.job.JobFault.TheVariants.{WriteFault};

    ghost from_gives = { λ f e. e ≡ WriteFault };

    fn from(_error: WriteFault) -> Self {
        JobFault::WriteFault
    }
}

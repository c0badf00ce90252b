use mc_apdu::model_machine::Abend;
use mc_words::{Aid, Stop};

/// The continuation after an instruction that was done: the next one, the frame's exit, or the application
/// with this name.
#[derive(Clone, Copy, Debug, PartialEq, Eq)]
pub enum Next {
    Go,
    Exit,
    Delegate(Aid),
}

/// Why an instruction was not done: it abends, or the bank stopped during its change of static bytes.
#[derive(Clone, Copy, Debug, PartialEq, Eq)]
pub enum Halt {
    Abend(Abend),
    Stop(Stop),
}

impl From<Abend> for Halt {
    ghost use Rattle.std.specs.Prelude.{◌≡◌};
    ghost use Rattle.mc_segs.specs.declared.ends.Halt.TheVariants as halt;

    ghost from_gives = { λ a h. h ≡ halt.Abend a };

    fn from(abend: Abend) -> Self {
        Halt::Abend(abend)
    }
}

impl From<Stop> for Halt {
    ghost use Rattle.std.specs.Prelude.{◌≡◌};
    ghost use Rattle.mc_segs.specs.declared.ends.Halt.TheVariants as halt;

    ghost from_gives = { λ s h. h ≡ halt.Stop s };

    fn from(stop: Stop) -> Self {
        Halt::Stop(stop)
    }
}

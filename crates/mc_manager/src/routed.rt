use mc_apdu::Reply;
use mc_bank::Slot;

/// How the manager handles a command.
///
/// `Answer` has its reply. `Fresh` has the slot of the application that a SELECT has selected, whose session
/// bytes are zeros, and the reply. `Pass` passes the command to the selected application.
#[derive(Debug, Drop)]
pub enum Routed {
    Answer(Reply),
    Fresh(Slot, Reply),
    Pass(Slot),
}

/// How the manager handles a command whose reply is in a separate place: `Answer` and `Fresh` have written it
/// there, `Pass` has none.
#[derive(Clone, Copy, Debug, PartialEq, Eq)]
pub enum Ruling {
    Answer,
    Fresh(Slot),
    Pass(Slot),
}

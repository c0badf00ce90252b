#![tactic(auto)]

//! What happens to an application in a line of a play, from the turns of the line.

ghost use Rattle.law_events.specs.Laws.{LineLaw, TurnLaw};

/// The history of a line is its command, the events of its turns up to a stop, its answer and its session. The turn that a
/// stop hits counts exactly if its write is durable.
pub fn lines_have_the_events_of_their_turns()
    ensures { LineLaw }
{}

/// A turn shows its event: the line of an instruction that was done, or its abend. The protection before it is found in the
/// turns before it.
pub fn turns_show_their_events()
    ensures { TurnLaw }
{}

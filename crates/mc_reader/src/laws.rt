//! Laws of sessions, over the definitions alone.

ghost use Rattle.mc_reader.specs.Laws.{AnswersLaw};
ghost use Rattle.mc_reader.specs.SessionDeck.{SessionLaw};

/// A card runs once a line answered `ready`, and up to the next stop; and while it runs each command of the host is
/// answered by two bytes at least.
pub fn commands_are_answered()
    ensures answers { AnswersLaw }
{}

/// A session is a deck: the text of its own deck, with a statement for each frame that represents a line, is read as a
/// deck, and on each image, with each list of failed writes, the play of this deck is the session. Its transcript is
/// that of the session's own deck and then the results of the session, frame by frame, and the session's answers are
/// these results. The frames are bytes, and the lines are at most as many as a deck can have.
pub fn a_session_is_a_deck()
    ensures session { SessionLaw }
{}

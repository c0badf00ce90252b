ghost use Rattle.std.specs.Prelude.{◌≡◌};
ghost use Rattle.mc_script.specs.Cuts.{off_in};

use mc_blocks::Unusable;
use mc_words::Aid;

/// The result of a line that answers. `NoCard` and `Mute` are those of a line that needs a card when none
/// runs.
///
/// `Outcome` and `Dump` are read from the player that played the line, before its next line: how the command
/// ended, and the result of a `dump` line for the name.
#[derive(Clone, Copy, Debug)]
pub enum Answer {
    Formatted,
    Ready(u16),
    Unusable(Unusable),
    OffAt(u32),
    Worn,
    NoCard,
    Mute,
    Outcome,
    Dump(Aid),
}

/// Returns whether a cut hit a line, by what it answered.
pub fn was_cut(answer: &Option<Answer>) -> bool
    ensures { result ≡ off_in answer.now }
{
    matches!(answer, Some(Answer::OffAt(_)))
}

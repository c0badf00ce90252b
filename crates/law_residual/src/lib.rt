#![tactic(auto)]

//! No residual information: what words a device has besides its card is shown by no play, over the definitions alone.

mod rows;

ghost use Rattle.law_residual.specs.Laws.{DeviceLaw, FreeWordsLaw, PossibleLaw, RecoveredLaw, ResidualLaw};

/// Two images with the same card or first fault, and the same recovery writes to make in the same journal, give every
/// deck without `format` and `poke` the same texts, whatever is cut and whatever writes fail; so they do on a device
/// that refuses the same writes of both, counted from the first that is tried.
pub fn shows_only_the_card()
    ensures texts { ResidualLaw }
    ensures on_device { DeviceLaw }
{}

/// Two images with the same card or first fault, which need any recoveries, show the same once a power line has made
/// these, on a device that refuses the same writes of both, counted from this line on; and the line itself shows of its
/// recovery the number of writes and nothing else.
pub fn recoveries_leave_only_the_card()
    ensures after_power { RecoveredLaw }
{}

/// What a device refuses of a play's writes is a list of failed writes that is possible for the play, if its lines
/// count their stops from 1.
pub fn refusals_are_possible()
    ensures possible { PossibleLaw }
{}

/// Two images with shut journals that have the root, the blocks' headers and the applications' words in common mean the
/// same card: the words of holes, where deleted applications were, and of the journals, where their writes went, show
/// nothing.
pub fn free_words_mean_nothing()
    ensures same { FreeWordsLaw }
{}

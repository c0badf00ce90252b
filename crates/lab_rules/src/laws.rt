// Laws of the counts of occasions.
ghost use Rattle.lab_rules.specs.Occasions.{CountsLaw};

/// The counts of a move that was played are how many times each `on` line applies to it.
pub fn counts_are_times()
    ensures { CountsLaw }
{}

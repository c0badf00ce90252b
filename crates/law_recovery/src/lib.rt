#![tactic(auto)]

//! What recovery leads to, whatever chain of stops came before it, over the definitions alone.

mod rows;

ghost use Rattle.law_recovery.specs.Laws.{ChainLaw, RuleLaw, SweepLaw};

/// Of the items of a command that a stop hits, those before the one in flight are whole, and this one exactly if it
/// is an atomic write whose commit record was written.
pub fn stops_are_by_rule()
    ensures whole { RuleLaw }
{}

/// Whatever line to the card a stop hits, at whatever write and whatever word it leaves, and whatever stops hit the
/// power lines after it: after the next whole power line the applications are those before the line with the items
/// that the rule of stops calls whole.
pub fn chains_lead_to_one_card()
    ensures one_card { ChainLaw }
{}

/// Cuts in each write of a line that leave one word, which does not open the journal, with no cut in the recovery,
/// show every card that any chain of stops leads to.
pub fn sweeps_show_all_cards()
    ensures shown { SweepLaw }
{}

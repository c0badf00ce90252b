ghost use Rattle.law_explore.specs.Safety.{AllLaw, BrokenLaw, DepthLaw, FillLaw, FirstLaw, FitsLaw, LimitLaw, RecoveryLaw, StateLaw, StatementsLaw, WordsLaw};

/// Every exploration begins with no stop armed, and with a card of layout 2 that owes no write if one runs.
pub fn first_card_is_settled()
    ensures { FirstLaw }
{}

/// Whatever word a cut leaves, in whatever write of a move, does to the card and to what it answers what one of three
/// words does: eight bytes 00, eight bytes FF, or the word that opens a journal.
pub fn three_fills_are_all()
    ensures { FillLaw }
{}

/// Cuts in the power lines after a move lead to no other state once a power line is whole.
pub fn recoveries_lead_to_one_state()
    ensures { RecoveryLaw }
{}

/// If a search ends with no new state and nothing broken, no sequence of moves spends an allowance below zero: of any
/// length, each move whole or cut at any write with any word left there, and with any cuts in the recoveries after it.
pub fn all_is_safe()
    ensures { AllLaw }
{}

/// If a search ends at depth N and nothing was broken, no sequence of at most N moves does.
pub fn depth_is_safe()
    ensures { DepthLaw }
{}

/// If a search ends within depth D because of too many states, no sequence of fewer than D moves does.
pub fn limit_is_safe()
    ensures { LimitLaw }
{}

/// The state of a running card decides what every move answers, whole or cut at any write with any word left there, and
/// the state after it.
pub fn states_decide_answers()
    ensures { StateLaw }
{}

/// Words that mean one card, or have one fault, lead to one state: what free words hold does not count, nor what a
/// closed journal holds.
pub fn meanings_decide_states()
    ensures { WordsLaw }
{}

/// If a search says that a rule is broken, its tries are possible one after the other and the last of them breaks that
/// rule; and no sequence of fewer moves breaks any, whatever is cut.
pub fn broken_is_shortest()
    ensures { BrokenLaw }
{}

/// Patterns are matched as expectations match them, with letters in either case.
pub fn patterns_are_those_of_expectations()
    ensures { FitsLaw }
{}

/// The statements that a broken rule is reported with, appended to the deck, play to where its tries lead from the
/// first state.
pub fn statements_play_there()
    ensures { StatementsLaw }
{}

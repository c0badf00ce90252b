#![tactic(auto)]

//! What a word that fails for ever costs: power-ups on a device one word of which refuses every write, over the
//! definitions alone.

mod rows;

ghost use Rattle.mc_dead_word.specs.Laws.{AnswerLaw, OneCardLaw, SettledLaw, StuckLaw};

/// However often such a device is powered, and whatever its failing word is left with: its words hold the card, or the
/// fault, that they held at first, and no third one.
pub fn dead_words_leave_one_card()
    ensures one_card { OneCardLaw }
{}

/// A card of layout 2 with no recovery left is read whichever word fails: a power-up writes nothing and answers
/// `ready 0`. A power-up that does not write the failing word leaves such a card.
pub fn settled_cards_are_read()
    ensures settled { SettledLaw }
{}

/// If the failing word is one that a recovery still has to write, the gate aside, each power-up stops at the same
/// write of it, for ever.
pub fn targets_fail_again()
    ensures stuck { StuckLaw }
{}

/// The power line of a play on such a device answers 6581 if the power-up writes the failing word, and else what it
/// answers on a device that refuses nothing.
pub fn power_lines_say_so()
    ensures answers { AnswerLaw }
{}

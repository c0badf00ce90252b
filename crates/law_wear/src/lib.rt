#![tactic(auto)]

//! What a card wears: the greatest number of device writes of each line and of a play, over the definitions alone.

mod rows;

ghost use Rattle.law_wear.specs.Laws.{AtomicWearLaw, WearLaw};
ghost use Rattle.law_wear.specs.WordLaws.{ItemWearLaw, WordWearLaw};

/// In every play, whatever is cut and whichever writes fail, no line makes more device writes than its row of the
/// table says, nor the play more than the sum of its lines.
pub fn lines_write_few()
    ensures few { WearLaw }
{}

/// One atomic write writes its gate twice and every other word once at the most, and its recovery every word once at
/// the most.
pub fn atomic_writes_wear_words_once()
    ensures once { AtomicWearLaw }
{}

/// Items write the gate twice for each atomic write, any other word once for each, and a word of the heap once more for
/// each plain write; so no word of a play is written more often than the sum over its lines: a line does so by its row
/// of the table of atomic writes and by its plain writes, and a power line once, besides what the migration does.
pub fn plays_wear_words_by_atomic_writes()
    ensures items { ItemWearLaw }
    ensures plays { WordWearLaw }
{}

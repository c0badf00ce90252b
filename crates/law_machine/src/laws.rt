// The greatest number of words that an instruction, a run, a creation and a deletion write.
ghost use Rattle.law_machine.specs.FewHeaders.{FewHeadersLaw};
ghost use Rattle.law_machine.specs.FewRuns.{FewRunsLaw};
ghost use Rattle.law_machine.specs.FewWords.{FewWordsLaw, FewWritesLaw};

/// One instruction changes at most 33 words of static bytes, the commit of a transaction at most 64, and an exit none,
/// in each frame within the limits; and what it leaves of that frame is within them.
pub fn rows_write_few_words()
    ensures { FewWordsLaw }
{}

/// Each atomic write of a command to an application touches at most 64 words, on applications within the limits whose
/// code is bytes.
pub fn runs_write_few_words()
    ensures { FewRunsLaw }
{}

/// A creation or a deletion changes at most four header words more than there are applications: those of the others
/// stay.
pub fn changes_write_few_headers()
    ensures { FewHeadersLaw }
{}

/// An atomic write of at most 33 words makes at most 78 device writes, and one of at most 64 words 147; 102 and 195 in
/// journal 1.
pub fn few_words_cost_few_writes()
    ensures { FewWritesLaw }
{}

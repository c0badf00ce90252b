#![tactic(auto, unfolding(crate::specs::Computed::explored_deck, crate::specs::Computed::explored_within))]

// Worked rows: what is refused of rules, and in which order.
ghost use Rattle.std.specs.Prelude.{◌≡◌, ◌++◌, [], codes, Ok, Err};
ghost use Rattle.law_explore.specs.model_play.specs.declared.deck.DeckCause.TheVariants.{BadHex, BadLine, BadName, BadNumber, NameTwice, OutOfRange, UnknownName};
ghost use Rattle.law_explore.specs.Rules.{LineFault, NoMove, NoRule};
ghost use Rattle.law_explore_text.specs.Computed.{explored_deck};

/// Lines that are no rule.
pub fn bad_lines()
    ensures empty { explored_deck 1 (codes "format\n#@\n") ≡ Err (LineFault 2 BadLine) }
    ensures word { explored_deck 1 (codes "format\n#@ moves power\n") ≡ Err (LineFault 2 BadLine) }
    ensures no_move { explored_deck 1 (codes "format\n#@ move\n") ≡ Err (LineFault 2 BadLine) }
    ensures load { explored_deck 1 (codes "format\n#@ move load a 1 1\n") ≡ Err (LineFault 2 BadLine) }
    ensures format { explored_deck 1 (codes "format\n#@ move format\n") ≡ Err (LineFault 2 BadLine) }
    ensures more { explored_deck 1 (codes "format\n#@ move power 1\n") ≡ Err (LineFault 2 BadLine) }
    ensures allow { explored_deck 1 (codes "format\n#@ allow a\n") ≡ Err (LineFault 2 BadLine) }
    ensures allow_more { explored_deck 1 (codes "format\n#@ allow a 1 2\n") ≡ Err (LineFault 2 BadLine) }
    ensures no_effect { explored_deck 1 (codes "format\n#@ allow a 1\n#@ on power gives *\n")
        ≡ Err (LineFault 3 BadLine) }
    ensures no_occasion { explored_deck 1 (codes "format\n#@ allow a 1\n#@ on power * allow a 1\n")
        ≡ Err (LineFault 3 BadLine) }
    ensures no_pattern { explored_deck 1 (codes "format\n#@ allow a 1\n#@ on power gives allow a 1\n")
        ≡ Err (LineFault 3 BadLine) }
    ensures no_moves { explored_deck 1 (codes "format\n#@ allow a 1\n#@ on gives * allow a 1\n")
        ≡ Err (LineFault 3 BadLine) }
    ensures no_amount { explored_deck 1 (codes "format\n#@ allow a 1\n#@ on power gives * allow a\n")
        ≡ Err (LineFault 3 BadLine) }
{}

/// A statement's own causes.
pub fn bad_statements()
    ensures aid { explored_deck 1 (codes "format\n#@ move select A0\n") ≡ Err (LineFault 2 OutOfRange) }
    ensures delete { explored_deck 1 (codes "format\n#@ move delete A00000000G\n") ≡ Err (LineFault 2 BadHex) }
    ensures hex { explored_deck 1 (codes "format\n#@ move apdu 800\n") ≡ Err (LineFault 2 BadHex) }
{}

/// Names and numbers.
pub fn bad_names()
    ensures name { explored_deck 1 (codes "format\n#@ allow a-b x\n") ≡ Err (LineFault 2 BadName) }
    ensures number { explored_deck 1 (codes "format\n#@ allow a x\n") ≡ Err (LineFault 2 BadNumber) }
    ensures range { explored_deck 1 (codes "format\n#@ allow a 4294967296\n") ≡ Err (LineFault 2 OutOfRange) }
    ensures twice { explored_deck 1 (codes "format\n#@ allow a 1\n#@ allow a 1\n") ≡ Err (LineFault 3 NameTwice) }
    ensures unknown { explored_deck 1 (codes "format\n#@ on power gives * spend a 1\n#@ allow a 1\n")
        ≡ Err (LineFault 2 UnknownName) }
    ensures on_name { explored_deck 1 (codes "format\n#@ on power turns * spend a-b 1\n") ≡ Err (LineFault 2 BadName) }
    ensures on_number { explored_deck 1 (codes "format\n#@ on power turns * spend a -1\n")
        ≡ Err (LineFault 2 BadNumber) }
    ensures on_range { explored_deck 1 (codes "format\n#@ on power turns * spend a 4294967296\n")
        ≡ Err (LineFault 2 OutOfRange) }
{}

/// The first line is refused first, and after all of the deck's own.
pub fn order()
    ensures first { explored_deck 1 (codes "format\n#@ allow a x\n#@ allow\n") ≡ Err (LineFault 2 BadNumber) }
    ensures deck_first { explored_deck 1 (codes "format\n#@ allow\nreboot\n") ≡ Err (LineFault 3 BadLine) }
{}

/// A first field that begins with the mark and is longer is no rule, and no comment.
pub fn longer_marks()
    ensures word { explored_deck 1 (codes "format\n#@move power\n") ≡ Err (LineFault 2 BadLine) }
    ensures mark { explored_deck 1 (codes "format\n#@@ move power\n") ≡ Err (LineFault 2 BadLine) }
    ensures first { explored_deck 1 (codes "format\n#@allow\n#@ allow a x\n") ≡ Err (LineFault 2 BadLine) }
{}

/// A mark that is not at the front of a line is a plain comment.
pub fn comments()
    ensures { explored_deck 1 (codes "format\n# #@ move\n#>@ move\n#\n") ≡ Err NoMove }
{}

/// A deck that tests nothing: without a move, or without an `on` line. Other refusals come first.
pub fn no_test()
    ensures no_rules { explored_deck 3 (codes "format\npower\n") ≡ Err NoMove }
    ensures no_move { explored_deck 3 (codes "format\npower\n#@ allow a 1\n#@ on power gives * spend a 1\n")
        ≡ Err NoMove }
    ensures no_on { explored_deck 3 (codes "format\npower\n#@ move power\n#@ allow a 1\n") ≡ Err NoRule }
    ensures later { explored_deck 3 (codes "format\npower\n#@ allow a\n") ≡ Err (LineFault 3 BadLine) }
{}

/// After a section there are rules again, whatever blanks are around them.
pub fn sections()
    ensures { explored_deck 1 (codes "format\napp a A000000001\nEXIT\nend\n  #@\tallow a x\n")
        ≡ Err (LineFault 5 BadNumber) }
{}

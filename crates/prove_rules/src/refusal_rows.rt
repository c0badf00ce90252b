#![tactic(auto, unfolding(crate::specs::Rows::answer))]

// Worked rows: malformed lines of rules, each with the refusal of the definition. Rules begin at line 9 of their decks.
// `tools/tests/test_refusals.py` asks the program of the same lines.
ghost use Rattle.std.specs.Prelude.{◌≡◌, codes};
ghost use Rattle.model_rule_text.specs.model_play.specs.declared.deck.DeckCause.TheVariants.{BadLine, BadName, BadNumber, NameTwice, OutOfRange, UnknownName};
ghost use Rattle.model_rule_text.specs.Reading.{Deck, NoApplication};
ghost use Rattle.prove_rules.specs.Rows.{named, unnamed, Read, Refused};

/// Words of lines, their fields and their names.
pub fn words()
    ensures row1 { named (codes "#@\n") ≡ Refused 12 (Deck BadLine) }
    ensures row2 { named (codes "#@rule\n") ≡ Refused 12 (Deck BadLine) }
    ensures row3 { named (codes "#@ rule\n") ≡ Refused 12 (Deck BadLine) }
    ensures row4 { named (codes "#@allow n 1\n") ≡ Refused 12 (Deck BadLine) }
    ensures row5 { named (codes "#@ app\n") ≡ Refused 12 (Deck BadLine) }
    ensures row6 { named (codes "#@ app a b\n") ≡ Refused 12 (Deck BadLine) }
    ensures row7 { named (codes "#@ app a-b\n") ≡ Refused 12 (Deck BadName) }
    ensures row8 { named (codes "#@ app b\n") ≡ Refused 12 (Deck NameTwice) }
    ensures row9 { unnamed (codes "#@ app b\n") ≡ Refused 11 (Deck UnknownName) }
    ensures row10 { named (codes "#@ allow n\n") ≡ Refused 12 (Deck BadLine) }
    ensures row11 { named (codes "#@ allow n-m x\n") ≡ Refused 12 (Deck BadName) }
    ensures row12 { named (codes "#@ allow k x\n") ≡ Refused 12 (Deck BadNumber) }
    ensures row13 { named (codes "#@ allow k 4294967296\n") ≡ Refused 12 (Deck OutOfRange) }
    ensures row14 { named (codes "#@ allow k 2\n") ≡ Refused 12 (Deck NameTwice) }
    ensures row15 { named (codes "#@ sum s 2\n") ≡ Refused 12 (Deck NameTwice) }
    ensures row16 { named (codes "#@ sum n 1 2\n") ≡ Refused 12 (Deck BadLine) }
    ensures row17 { named (codes "#@ never\n") ≡ Refused 12 (Deck BadLine) }
    ensures row18 { named (codes "#@ never end\n") ≡ Refused 12 (Deck BadLine) }
    ensures row19 { named (codes "#@ never abend 1\n") ≡ Refused 12 (Deck BadLine) }
    ensures row20 { unnamed (codes "#@ never abends\n") ≡ Refused 11 (Deck BadLine) }
    ensures row21 { unnamed (codes "#@ never abend\n") ≡ Refused 11 NoApplication }
{}

/// Events, patterns, and what is done to allowances. A word about sums is one of a pattern after a command.
pub fn events()
    ensures row1 { named (codes "#@ on\n") ≡ Refused 12 (Deck BadLine) }
    ensures row2 { named (codes "#@ on move * allow k 1\n") ≡ Refused 12 (Deck BadLine) }
    ensures row3 { named (codes "#@ on turn *\n") ≡ Refused 12 (Deck BadLine) }
    ensures row4 { named (codes "#@ on turn allow k 1\n") ≡ Refused 12 (Deck BadLine) }
    ensures row5 { named (codes "#@ on command 80 add n allow k 1\n") ≡ Read }
    ensures row6 { named (codes "#@ on command 80 add s 1\n") ≡ Refused 12 (Deck BadLine) }
    ensures row7 { named (codes "#@ on command take allow n 1\n") ≡ Refused 12 (Deck UnknownName) }
    ensures row8 { named (codes "#@ on session add s 1\n") ≡ Refused 12 (Deck BadLine) }
    ensures row9 { named (codes "#@ on session add s allow k 1\n") ≡ Refused 12 (Deck BadLine) }
    ensures row10 { named (codes "#@ on answer 80 add gives 90 take allow k 1\n") ≡ Read }
    ensures row11 { named (codes "#@ on answer gives * allow k 1\n") ≡ Refused 12 (Deck BadLine) }
    ensures row12 { named (codes "#@ on answer * gives allow k 1\n") ≡ Refused 12 (Deck BadLine) }
    ensures row13 { named (codes "#@ on answer * allow k 1\n") ≡ Refused 12 (Deck BadLine) }
    ensures row14 { named (codes "#@ on turn * allow k\n") ≡ Refused 12 (Deck BadLine) }
    ensures row15 { named (codes "#@ on turn * allow k-k x\n") ≡ Refused 12 (Deck BadName) }
    ensures row16 { named (codes "#@ on turn * spend n x\n") ≡ Refused 12 (Deck BadNumber) }
    ensures row17 { named (codes "#@ on turn * need n 4294967296\n") ≡ Refused 12 (Deck OutOfRange) }
    ensures row18 { named (codes "#@ on turn * need n 1\n") ≡ Refused 12 (Deck UnknownName) }
    ensures row19 { unnamed (codes "#@ on turn * need n 1\n") ≡ Refused 11 NoApplication }
    ensures row20 { unnamed (codes "#@ on turn * need n x\n") ≡ Refused 11 (Deck BadNumber) }
{}

/// Amounts of sums: the form, the name, the numbers, the application, the sum, and then the bytes.
pub fn amounts()
    ensures row1 { named (codes "#@ on turn * take a-b SB[0]\n") ≡ Refused 12 (Deck BadLine) }
    ensures row2 { named (codes "#@ on turn * add s PB[0\n") ≡ Refused 12 (Deck BadLine) }
    ensures row3 { named (codes "#@ on turn * add s XX[0]\n") ≡ Refused 12 (Deck BadLine) }
    ensures row4 { named (codes "#@ on turn * add s PB[0]1\n") ≡ Refused 12 (Deck BadLine) }
    ensures row5 { named (codes "#@ on turn * add s PB[0[1]\n") ≡ Refused 12 (Deck BadLine) }
    ensures row6 { named (codes "#@ on turn * add s PB[1.2]\n") ≡ Refused 12 (Deck BadLine) }
    ensures row7 { named (codes "#@ on turn * add s PB[1..2..3]\n") ≡ Refused 12 (Deck BadLine) }
    ensures row8 { named (codes "#@ on turn * add s PB[1...2]\n") ≡ Refused 12 (Deck BadLine) }
    ensures row9 { named (codes "#@ on turn * add a-b PB[x]\n") ≡ Refused 12 (Deck BadName) }
    ensures row10 { named (codes "#@ on turn * add s PB[]\n") ≡ Refused 12 (Deck BadNumber) }
    ensures row11 { named (codes "#@ on turn * add s PB[..]\n") ≡ Refused 12 (Deck BadNumber) }
    ensures row12 { named (codes "#@ on turn * add s PB[0..x]\n") ≡ Refused 12 (Deck BadNumber) }
    ensures row13 { named (codes "#@ on turn * add s PB0]\n") ≡ Refused 12 (Deck BadNumber) }
    ensures row14 { named (codes "#@ on turn * add s PB[-1]\n") ≡ Refused 12 (Deck OutOfRange) }
    ensures row15 { named (codes "#@ on turn * add s PT[0]\n") ≡ Refused 12 (Deck OutOfRange) }
    ensures row16 { named (codes "#@ on turn * add s PT[-1042]\n") ≡ Refused 12 (Deck OutOfRange) }
    ensures row17 { named (codes "#@ on turn * add s PB[1041]\n") ≡ Refused 12 (Deck OutOfRange) }
    ensures row18 { named (codes "#@ on turn * add s PB[3..2]\n") ≡ Refused 12 (Deck OutOfRange) }
    ensures row19 { named (codes "#@ on turn * add s 4294967296\n") ≡ Refused 12 (Deck OutOfRange) }
    ensures row20 { unnamed (codes "#@ on turn * add s PB[1041]\n") ≡ Refused 11 NoApplication }
    ensures row21 { unnamed (codes "#@ on turn * add s 4294967296\n") ≡ Refused 11 (Deck OutOfRange) }
    ensures row22 { named (codes "#@ on turn * add n PB[1041]\n") ≡ Refused 12 (Deck UnknownName) }
    ensures row23 { named (codes "#@ on turn * add s\n") ≡ Refused 12 (Deck BadLine) }
    ensures row24 { named (codes "#@ on turn * add s 1 2\n") ≡ Refused 12 (Deck BadLine) }
    ensures row25 { named (codes "#@ on turn * add s PB[4294967297..4294967296]\n") ≡ Refused 12 (Deck OutOfRange) }
    ensures row26 { named (codes "#@ on turn * add s PT[-1041..-1]\n") ≡ Read }
{}

/// Ranges of static bytes.
pub fn ranges()
    ensures row1 { named (codes "#@ always\n") ≡ Refused 12 (Deck BadLine) }
    ensures row2 { named (codes "#@ always SB[0]\n") ≡ Refused 12 (Deck BadLine) }
    ensures row3 { named (codes "#@ always SB[0] 0\n") ≡ Refused 12 (Deck BadLine) }
    ensures row4 { named (codes "#@ always SB[0] 0 1 2\n") ≡ Refused 12 (Deck BadLine) }
    ensures row5 { named (codes "#@ always SB[1[2] 0 1\n") ≡ Refused 12 (Deck BadLine) }
    ensures row6 { named (codes "#@ always SB[1]2] 0 1\n") ≡ Refused 12 (Deck BadLine) }
    ensures row7 { named (codes "#@ always SB[0 0 1\n") ≡ Refused 12 (Deck BadLine) }
    ensures row8 { named (codes "#@ always XX[0] 0 1\n") ≡ Refused 12 (Deck BadLine) }
    ensures row9 { named (codes "#@ always SB[1.2] 0 1\n") ≡ Refused 12 (Deck BadNumber) }
    ensures row10 { named (codes "#@ always SB[0..1] 0 1\n") ≡ Refused 12 (Deck BadNumber) }
    ensures row11 { named (codes "#@ always SB[-1] 0 1\n") ≡ Refused 12 (Deck BadNumber) }
    ensures row12 { named (codes "#@ always SB[9] 0 x\n") ≡ Refused 12 (Deck BadNumber) }
    ensures row13 { named (codes "#@ always SB[4294967298] 0 1\n") ≡ Refused 12 (Deck OutOfRange) }
    ensures row14 { named (codes "#@ always SB[0] 4294967297 4294967296\n") ≡ Refused 12 (Deck OutOfRange) }
    ensures row15 { unnamed (codes "#@ always SB[9] 2 1\n") ≡ Refused 11 NoApplication }
{}

/// Totals of static bytes.
pub fn totals()
    ensures row1 { named (codes "#@ always SB[0] =\n") ≡ Refused 12 (Deck BadLine) }
    ensures row2 { named (codes "#@ always = 1\n") ≡ Refused 12 (Deck BadLine) }
    ensures row3 { named (codes "#@ always SB[0..1] 1 + s\n") ≡ Refused 12 (Deck BadLine) }
    ensures row4 { named (codes "#@ always SB[0..1] = 1 + s -\n") ≡ Refused 12 (Deck BadLine) }
    ensures row5 { named (codes "#@ always SB[0..1] = 1 s\n") ≡ Refused 12 (Deck BadLine) }
    ensures row6 { named (codes "#@ always SB[0..1] = 1 * s\n") ≡ Refused 12 (Deck BadLine) }
    ensures row7 { named (codes "#@ always SB[1.2] = 1 + s\n") ≡ Refused 12 (Deck BadLine) }
    ensures row8 { named (codes "#@ always SB[1..2..3] = 1\n") ≡ Refused 12 (Deck BadLine) }
    ensures row9 { named (codes "#@ always SB[0..x] = x + a-b\n") ≡ Refused 12 (Deck BadNumber) }
    ensures row10 { named (codes "#@ always SB[0..1] = x + a-b\n") ≡ Refused 12 (Deck BadNumber) }
    ensures row11 { named (codes "#@ always SB[0..1] = 4294967296 + a-b\n") ≡ Refused 12 (Deck OutOfRange) }
    ensures row12 { named (codes "#@ always SB[0..9] = 1 + a-b\n") ≡ Refused 12 (Deck BadName) }
    ensures row13 { named (codes "#@ always SB[0..9] = 1 + n\n") ≡ Refused 12 (Deck UnknownName) }
    ensures row14 { named (codes "#@ always SB[0..2] = 1 + s\n") ≡ Refused 12 (Deck OutOfRange) }
    ensures row15 { named (codes "#@ always SB[1..0] = 1 + s\n") ≡ Refused 12 (Deck OutOfRange) }
    ensures row16 { named (codes "#@ always SB[4294967297..4294967296] = 1\n") ≡ Refused 12 (Deck OutOfRange) }
    ensures row17 { unnamed (codes "#@ always SB[0..9] = 1 + n\n") ≡ Refused 11 NoApplication }
    ensures row18 { named (codes "#@ always SB[0] = 1 + k\n") ≡ Refused 12 (Deck UnknownName) }
{}

/// The first line first.
pub fn order()
    ensures row1 { named (codes "#@ on turn * take a-b SB[0]\n#@ rule\n") ≡ Refused 12 (Deck BadLine) }
    ensures row2 { named (codes "#@ allow k 2\n#@ rule\n") ≡ Refused 12 (Deck NameTwice) }
{}

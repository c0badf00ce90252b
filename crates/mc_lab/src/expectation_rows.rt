#![tactic(auto, unfolding(crate::specs::Computed::expectation_report))]

// Worked rows: reports of the expectations of decks.
ghost use Rattle.std.specs.Prelude.{◌≡◌, ◌++◌, [], codes, Ok, Err};
ghost use Rattle.law_explore.specs.model_play.specs.declared.deck.DeckCause.TheVariants.{BadLine};
ghost use Rattle.mc_lab.specs.Computed.{expectation_report};
ghost use Rattle.mc_lab.specs.Expectations.{laid_out, DeckFault, NoAnswer, NoExpectation};

/// All expectations of a counter hold; one of them has a blank in its pattern.
pub fn all_hold()
    ensures { expectation_report (
        codes "format\n#> formatted\npower\n#> ready 0\n" ++
        codes "unit counter 0000000000000000000FB902000039020000460200000600020000000961074F05A0000000010" ++
        codes "0096F078405A00000000100000000\nload counter 2 0\nselect A000000001\n#> 9000\napdu 8001000002\n" ++
        codes "#> 0001 9000\napdu 8001000002\n#> 000? 9000\n#> *9000\ndump A000000001\n#> static 0002")
        ≡ Ok (codes "expected 7 failed 0\n") }
{}

/// Failed expectations are reported in order, with their patterns and statements as written but for the blanks
/// around them, and the last one counts too.
pub fn some_fail()
    ensures { expectation_report (
        codes "format\n #>   form  \n  power\t\n\n# a comment\n#>\n#> READY 1\n#> ready0\n" ++
        codes "dump  A000000001\n#> abs?nt\n\t#>\tabs?t\t\r\n")
        ≡ Ok (
        codes "line 2 expected form was formatted (line 1 format)\nline 6 expected  was ready 0 (line 3 power)\n" ++
        codes "line 7 expected READY 1 was ready 0 (line 3 power)\n" ++
        codes "line 11 expected abs?t was absent (line 9 dump  A000000001)\nexpected 6 failed 4\n") }
{}

/// A result is laid out as a pattern without `*`, as long as both last.
pub fn laid()
    ensures pattern { laid_out (codes "static 0384 03") (codes "static 038402") ≡ codes "static 0384 02" }
    ensures more { laid_out (codes "0001 9000") (codes "0001 02 9000") ≡ codes "0001 029000" }
    ensures fewer { laid_out (codes "0001 9000") (codes "6A82") ≡ codes "6A82" }
    ensures within { laid_out (codes "000 1 90 00") (codes "6A82") ≡ codes "6A8 2" }
    ensures two { laid_out (codes "0001  9000") (codes "00019001") ≡ codes "0001  9001" }
    ensures none { laid_out (codes "9000") (codes "no card") ≡ codes "no card" }
    ensures star { laid_out (codes "00* 9000") (codes "static 0384") ≡ codes "static 0384" }
{}

/// The first field begins with `#>`: a blank after it is not needed, and `##>` and `# >` are plain comments.
pub fn comments()
    ensures { expectation_report (codes "format\n#>formatted\n##> ready\n# > ready\n  #>FORM atted\n#>form\n")
        ≡ Ok (codes "line 6 expected form was formatted (line 1 format)\nexpected 3 failed 1\n") }
{}

/// A line that is cut, one whose write fails, and the mute card after it.
pub fn stops()
    ensures { expectation_report (
        codes "format\npower\n" ++
        codes "unit counter 0000000000000000000FB902000039020000460200000600020000000961074F05A0000000010" ++
        codes "0096F078405A00000000100000000\nload counter 2 0\nselect A000000001\n" ++
        codes "cut 2 0000000000000000\napdu 8001000002\n#> off at write 2\ndump A000000001\n#> off\n" ++
        codes "power\n#> ready 0\nselect A000000001\n#> 9000\n" ++
        codes "fail 3\n# armed for the next line\napdu 8001000002\n#> 6581\ndump A000000001\n#> mute\n")
        ≡ Ok (codes "expected 6 failed 0\n") }
{}

/// A statement without a result has no expectation, and neither has the beginning of a deck.
pub fn unanswered()
    ensures budget { expectation_report (codes "format\n#> formatted\nbudget 5\n#> *\n#> *\n") ≡ Err (NoAnswer 4) }
    ensures head { expectation_report (codes "#> formatted\nformat\n") ≡ Err (NoAnswer 1) }
    ensures cut { expectation_report (codes "format\ncut 1 0000000000000000\n\n#> *\npower\n") ≡ Err (NoAnswer 4) }
    ensures section { expectation_report (codes "format\napp a A000000001\nEXIT\nend\n#> *\n") ≡ Err (NoAnswer 5) }
{}

/// A text without an expectation is refused, after all other refusals.
pub fn none()
    ensures deck { expectation_report (codes "format\npower\n# ready 0\n") ≡ Err NoExpectation }
    ensures empty { expectation_report [] ≡ Err NoExpectation }
    ensures refused { expectation_report (codes "format\nreboot\n") ≡ Err (DeckFault 2 BadLine) }
{}

/// The refusals of the deck come first.
pub fn refused()
    ensures { expectation_report (codes "#> formatted\nformat\nreboot\n") ≡ Err (DeckFault 3 BadLine) }
{}

/// The lines of a section are assembly, and the statements around it have expectations.
pub fn sections()
    ensures outside { expectation_report (
        codes "format\napp a A000000001\nEXIT\nend\npower\n#> ready 0\nload a 0 0\n#> 9000\n")
        ≡ Ok (codes "expected 2 failed 0\n") }
{}

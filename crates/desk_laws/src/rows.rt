//! Worked rows: decks that make themselves, and a draft that the card refuses and that does not.
#![tactic(auto, unfolding(desk_draft::specs::Computed::deck))]

ghost use Rattle.std.specs.Prelude.{◌≡◌, ◌++◌, codes, Ok};
ghost use Rattle.desk_draft.specs.Computed.{deck};

/// Blanks, comments, skipped lines and line ends stay, and the last line may lack its own.
pub fn lines()
    ensures { let t = codes "# apdu (00)\r\n\r\n  app a\tA000000100 \n ; none\n\t NOP ; +1\nend \n" ++
        codes "#load\n load a 0 0 " in deck t ≡ Ok t }
{}

/// Labels have any name, with blanks before their colon and after it, and lead anywhere.
pub fn labels()
    ensures { let t = codes "app a A000000100\nSTATIC :NOP\n CLA:JUMP 1, CLA\nConst: BRANCH 0, INS\nend\n" in
        deck t ≡ Ok t }
{}

/// Operands are numbers, and registers with an offset; DATA gives bytes.
pub fn operands()
    ensures { let t = codes "app a A000000100\nDATA 0102\n PUSHW 0x10\n LOAD DB[ -2] , 1\n LOAD 3\n" ++
        codes " PRIM 1,2 ,3\nDATA 03\nend\n" in deck t ≡ Ok t }
{}

/// Statements stay, blanks and all.
pub fn statements()
    ensures { let t = codes "format\npower\n select  A000000100\ndelete A000000100 \ndump A000000100\n" ++
        codes "apdu\t8000 \nbudget 20\ncut 1 0000000000000000\n" in deck t ≡ Ok t }
{}

/// Where the card refuses a name, a draft has its bytes: this draft is no deck.
pub fn names()
    ensures { deck (codes "app a A000000100\n CMPB CLA, 1\nend\n")
        ≡ Ok (codes "app a A000000100\n CMPB PT[-13], 1\nend\n") }
{}

/// The rules of a deck stay, whatever stands in their braces, and whatever their moves select.
pub fn rules()
    ensures { let t = codes "app a A000000100\n EXIT\nend\nload a 0 0\n#@ app a\n" ++
        codes "#@ move select a\n#@ always {INS} 0 {y\n" in
        deck t ≡ Ok t }
{}

#![tactic(auto, unfolding(crate::specs::Computed::deck))]

ghost use Rattle.std.specs.Prelude.{◌≡◌, ◌++◌, [], codes, Ok, Err};
ghost use Rattle.mc_deck.specs.model_play.specs.declared.deck.DeckCause.TheVariants.{BadNumber, UnknownName};
ghost use Rattle.desk_draft.specs.Computed.{deck};

/// What ends a line stays, and the last line may lack it.
pub fn line_ends()
    ensures empty { deck [] ≡ Ok [] }
    ensures feeds { deck (codes "\n\n\r\n") ≡ Ok (codes "\n\n\r\n") }
    ensures returns { deck (codes "app a A000000100\r\nSTATIC x 1 00\r\nSESSION y 1\r\n LOAD x\r\nend\r\n" ++
        codes "load a\r\nselect a\r\napdu 80 00\r\n")
        ≡ Ok (codes "app a A000000100\r\nDATA 00\r\n\r\n LOAD SB[0],1\r\nend\r\nload a 1 1\r\n" ++
        codes "select A000000100\r\napdu 8000\r\n") }
    ensures mixed { deck (codes "app a A000000100\r\nSTATIC x 1\n LOAD x\r\nend\nload a")
        ≡ Ok (codes "app a A000000100\r\n\n LOAD SB[0],1\r\nend\nload a 1 0") }
    ensures last { deck (codes "app a A000000100\nSTATIC x 1\n LOAD x")
        ≡ Ok (codes "app a A000000100\n\n LOAD SB[0],1") }
{}

/// A carriage return that no line feed follows is a character of its field.
pub fn other_returns()
    ensures last { deck (codes "app a A000000100\nend\nload a\r") ≡ Err (3, UnknownName) }
    ensures two { deck (codes "app a A000000100\nSTATIC x 1\r\r\nend\n") ≡ Err (2, BadNumber) }
    ensures within { deck (codes "app a A000000100\nSTATIC x 1\n LOAD x\r\r\n LOAD \rx\nend\r\r\n")
        ≡ Ok (codes "app a A000000100\n\n LOAD x\r\r\n LOAD \rx\nend\r\r\n") }
{}

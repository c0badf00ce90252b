#![tactic(auto, unfolding(crate::specs::Computed::deck))]

ghost use Rattle.std.specs.Prelude.{◌≡◌, ◌++◌, codes, Ok, Err};
ghost use Rattle.mc_deck.specs.model_play.specs.declared.deck.DeckCause.TheVariants.{BadHex, BadLine, OutOfRange, UnknownName};
ghost use Rattle.desk_draft.specs.Computed.{deck};

/// Names in the braces of a rule become operands without a size, the names of the section of which the rules speak.
pub fn names_in_rules()
    ensures bytes { deck (codes "app a A000000100\nSTATIC x 2\nSTATIC y 3\nend\n" ++
        codes "#@ app a\n#@ on turn *CMPN {y},{y.size} 8*0 need n 1\n")
        ≡ Ok (codes "app a A000000100\n\n\nend\n#@ app a\n#@ on turn *CMPN SB[2],3 8*0 need n 1\n") }
    ensures others { deck (codes "app a A000000100\nSESSION s 1\nPUBLIC p 4 2\nCONST k 0x10\nend\n" ++
        codes "#@ app a\n#@ always {s}{p+1}{k} 0 {INS}\n")
        ≡ Ok (codes "app a A000000100\n\n\n\nend\n#@ app a\n#@ always DB[0]PB[5]0x10 0 PT[-12]\n") }
    ensures section { deck (codes "app a A000000100\nSTATIC x 2\nend\n" ++
        codes "app b A000000101\nSTATIC w 1\nSTATIC x 2\nend\n" ++
        codes "#@ app b\n#@ always {x} 0 1\n#@ app a\n #@  always\t{x}  0 1 \n")
        ≡ Ok (codes "app a A000000100\n\nend\napp b A000000101\n\n\nend\n" ++
        codes "#@ app b\n#@ always SB[1] 0 1\n#@ app a\n #@  always\tSB[0]  0 1 \n") }
    ensures comments { deck (codes "app a A000000100\nSTATIC x 2\nend\n" ++
        codes "#@ app a\n# {x}\n#> {x}\n#@x {x}\n#@ allow n 1 }\n")
        ≡ Ok (codes "app a A000000100\n\nend\n#@ app a\n# {x}\n#> {x}\n#@x {x}\n#@ allow n 1 }\n") }
{}

/// Without an application of which they speak, rules have the names of the command's header.
pub fn names_without_application()
    ensures header { deck (codes "app a A000000100\nSTATIC x 2\nend\n#@ on apdu* turns *CMPB {INS}* spend n 1\n")
        ≡ Ok (codes "app a A000000100\n\nend\n#@ on apdu* turns *CMPB PT[-12]* spend n 1\n") }
    ensures none { deck (codes "app a A000000100\nSTATIC x 2\nend\n#@ always {x} 0 1\n") ≡ Err (4, UnknownName) }
    ensures other { deck (codes "app a A000000100\nSTATIC x 2\nend\n#@ app b\n#@ always {x} 0 1\n")
        ≡ Err (5, UnknownName) }
    ensures above { deck (codes "#@ app a\napp a A000000100\nSTATIC x 2\nend\n#@ always {x} 0 1\n")
        ≡ Ok (codes "#@ app a\napp a A000000100\n\nend\n#@ always SB[0] 0 1\n") }
{}

/// A move has names and brackets as its statement has.
pub fn moves()
    ensures names { deck (codes "app a A000000100\nCONST x 1\nend\n#@ move select a\n#@ move  delete a \n" ++
        codes "#@ move select A000000102\n#@ move power\n")
        ≡ Ok (codes "app a A000000100\n\nend\n#@ move select A000000100\n#@ move  delete A000000100 \n" ++
        codes "#@ move select A000000102\n#@ move power\n") }
    ensures fields { deck (codes "app a A000000100\nCONST x 1\nend\n#@ move apdu 80 20 0000 (1234)\n")
        ≡ Ok (codes "app a A000000100\n\nend\n#@ move apdu 80200000021234\n") }
    ensures unknown { deck (codes "app a A000000100\nCONST x 1\nend\n#@ move select b\n") ≡ Err (4, BadHex) }
    ensures bytes { deck (codes "app a A000000100\nCONST x 1\nend\n#@ move apdu 80 (1)\n") ≡ Err (4, BadHex) }
    ensures load { deck (codes "app a A000000100\nCONST x 1\nend\n#@ move load b\n") ≡ Err (4, UnknownName) }
{}

/// What stands in braces is a name with its brace, or the rule is refused.
pub fn bad_braces()
    ensures unknown { deck (codes "app a A000000100\nSTATIC x 2\nend\n#@ app a\n#@ always {x} 0 {y}\n")
        ≡ Err (5, UnknownName) }
    ensures empty { deck (codes "app a A000000100\nSTATIC x 2\nend\n#@ app a\n#@ always {} 0 1\n")
        ≡ Err (5, UnknownName) }
    ensures blank { deck (codes "app a A000000100\nSTATIC x 2\nend\n#@ app a\n#@ always { x} 0 1\n")
        ≡ Err (5, UnknownName) }
    ensures size { deck (codes "app a A000000100\nCONST x 2\nend\n#@ app a\n#@ always {x.size} 0 1\n")
        ≡ Err (5, UnknownName) }
    ensures open { deck (codes "app a A000000100\nSTATIC x 2\nend\n#@ app a\n#@ always {x 0 1\n") ≡ Err (5, BadLine) }
    ensures beyond { deck (codes "app a A000000100\nSTATIC x 2\nend\n#@ app a\n#@ always {x+2} 0 1\n")
        ≡ Err (5, OutOfRange) }
    ensures first { deck (codes "app a A000000100\nSTATIC x 2\nend\n#@ app a\n#@ always {y\nload b\n")
        ≡ Err (5, BadLine) }
{}

/// The rules of a deck stay, whatever they name: they are comments, and become others only after a line that no deck
/// has.
pub fn rules_of_decks()
    ensures stay { let t = codes "app a A000000100\n EXIT\nend\nload a 0 0\n#@ app a\n" ++
        codes "#@ move select a\n#@ always {INS} 0 {y\n" in
        deck t ≡ Ok t }
    ensures loaded { deck (codes "app a A000000100\n EXIT\nend\n#@ move select a\nload a\n#@ move select a\n")
        ≡ Ok (codes "app a A000000100\n EXIT\nend\n#@ move select a\nload a 0 0\n#@ move select A000000100\n") }
{}

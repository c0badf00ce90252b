#![tactic(auto, unfolding(crate::specs::Computed::explored_app))]

// Worked rows: what small decks with the rules of an application come to.
ghost use Rattle.std.specs.Prelude.{◌≡◌, ◌++◌, codes, Ok, Err};
ghost use Rattle.law_histories.specs.Histories.{NoMove, NoRule};
ghost use Rattle.law_histories.specs.Computed.{app_deck, explored_app};

/// A deck without a move, or without an `on`, a `never` or an `always` line.
pub fn untested()
    ensures moves { explored_app 1 (app_deck (codes "EXIT\n") (codes "#@ never abend\n")) ≡ Err NoMove }
    ensures rules { explored_app 1 (app_deck (codes "EXIT\n") (codes "#@ move power\n#@ allow n 1\n")) ≡ Err NoRule }
{}

/// One turn more than is allowed, counted along the moves: the second.
pub fn spent()
    ensures { explored_app 3 (app_deck (codes "INCN SB[0],2\nEXIT\n")
        (codes "#@ allow n 1\n#@ on turn *INCN* spend n 1\nselect A000000001\n#@ move apdu 8001000000\n"))
        ≡ Ok (codes "depth 1 states 3\nbroken n after 2 lines\napdu 8001000000\napdu 8001000000\n") }
{}

/// A deck breaks its rule itself.
pub fn deck_breaks()
    ensures { explored_app 1 (app_deck (codes "INCN SB[0],2\nEXIT\n")
        (codes "#@ always SB[1] 0 1\nselect A000000001\napdu 8001000000\napdu 8001000000\n#@ move power\n"))
        ≡ Ok (codes "broken SB[1] after 0 lines\n") }
{}

/// A sum that its bytes hold, in each write that a cut hits; and one that waits for a commit, and is counted twice.
pub fn sums()
    ensures held { explored_app 1 (app_deck (codes "INCN SB[0],2\nEXIT\n")
        (codes "#@ sum n 0\n#@ on turn *INCN* add n 1\n#@ always SB[0..1] = 0 + n\nselect A000000001\n" ++
        codes "#@ move apdu 8001000000\n"))
        ≡ Ok (codes "depth 1 states 3\nexplored states 4 tries 19 depth 1\n") }
    ensures twice { explored_app 1 (app_deck (codes "PRIM 3,2\nINCN SB[0],2\nPRIM 3,1\nEXIT\n")
        (codes "#@ sum n 0\n#@ on turn *INCN* add n 2\n#@ always SB[0..1] = 0 + n\nselect A000000001\n" ++
        codes "#@ move apdu 8001000000\n"))
        ≡ Ok (codes "broken SB[0..1] after 1 lines\napdu 8001000000\n") }
{}

/// An abend, and a line that applies to no event.
pub fn events()
    ensures abend { explored_app 1 (app_deck (codes "POPB\nEXIT\n")
        (codes "#@ never abend\nselect A000000001\n#@ move apdu 8001000000\n"))
        ≡ Ok (codes "broken abend after 1 lines\napdu 8001000000\n") }
    ensures silent { explored_app 1 (app_deck (codes "INCN SB[0],2\nEXIT\n")
        (codes "#@ allow n 1\n#@ on turn *INCN* spend n 1\n#@ on session allow n 1\n#@ on command 99* allow n 1\n" ++
        codes "select A000000001\n#@ move apdu 8001000000\n#@ move select A000000001\n"))
        ≡ Ok (codes "depth 1 states 3\nsilent line 12\nexplored states 4 tries 20 depth 1\n") }
{}

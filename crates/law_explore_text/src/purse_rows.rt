#![tactic(auto, unfolding(crate::specs::Computed::explored_deck))]

// Worked rows: purses whose PIN is compared at most three times, and whose debits want a right guess.
ghost use Rattle.std.specs.Prelude.{◌≡◌, ◌++◌, codes, Ok};
ghost use Rattle.law_explore_text.specs.Computed.{explored_deck};
ghost use Rattle.law_explore_text.specs.Decks.{late_deck, pin_deck};

/// Four depths of a purse that counts a guess before it compares it.
pub fn pin_four()
    ensures { explored_deck 4 pin_deck
        ≡ Ok (codes "depth 1 states 4\ndepth 2 states 8\ndepth 3 states 14\ndepth 4 states 21\nexplored states 48 tries 1017 depth 4\n") }
{}

/// A purse that counts a wrong guess after it compared it: a cut in between allows a fourth.
pub fn late_guess()
    ensures { explored_deck 40 late_deck
        ≡ Ok (
        codes "depth 1 states 5\ndepth 2 states 8\ndepth 3 states 15\ndepth 4 states 22\nbroken guesses after 7 lines\n" ++
        codes "apdu 80200000029999\napdu 80200000029999\ncut 1 0000000000000000\napdu 80200000029999\npower\n" ++
        codes "select A000000100\napdu 80200000029999\n") }
{}

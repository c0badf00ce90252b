#![tactic(auto, unfolding(model_play::specs::Generator::deck_of_number, crate::specs::Played::deck_summary))]

ghost use Rattle.std.specs.Prelude.{◌≡◌, ◌∷◌, ◌++◌, [], codes, drop, length, take, Ok};
ghost use Rattle.model_play.specs.DeckGrammar.{Sent, Apdu, Select, Power, Dump};
ghost use Rattle.model_play.specs.Generator.{counter_aid, draw, deck_of_number, next, purse_aid, relay_aid};
ghost use Rattle.model_examples.specs.Played.{deck_summary, unit_line};
ghost use Rattle.model_examples.specs.Written.{hex};

/// The first six numbers that 1 draws.
pub fn first_draws()
    ensures first { draw (next 1) ≡ 16838 }
    ensures second { draw (next (next 1)) ≡ 5758 }
    ensures third { draw (next (next (next 1))) ≡ 10113 }
    ensures fourth { draw (next (next (next (next 1)))) ≡ 17515 }
    ensures fifth { draw (next (next (next (next (next 1))))) ≡ 31051 }
    ensures sixth { draw (next (next (next (next (next (next 1)))))) ≡ 5627 }
{}

/// The deck of 1: its length, its first turns, and its end.
pub fn deck_of_one()
    ensures lines { length (deck_of_number 1) ≡ 4012 }
    ensures turns { take 3 (drop 8 (deck_of_number 1))
        ≡ (9, Sent (Apdu (hex (codes "8001000002")))) ∷ (10, Sent (Select relay_aid)) ∷ (11, Sent (Apdu (hex (codes "8040000004000015FB"))))
        ∷ [] }
    ensures end { drop 4008 (deck_of_number 1)
        ≡ (4009, Power) ∷ (4010, Dump counter_aid) ∷ (4011, Dump purse_aid) ∷ (4012, Dump relay_aid) ∷ [] }
{}

/// The counts of a play with each kind of result, and the results of its `dump` lines.
pub fn summary()
    ensures { deck_summary (
        codes "format\npower\n" ++
        unit_line (codes "counter") (codes "A000000001") (codes "B9020000 39020000 46020000 060002") [] ++
        unit_line (codes "stray") (codes "A000000004") (codes "30") [] ++
        codes "load counter 2 0\nload stray 0 0\nselect A000000001\napdu 8001000002\ncut 3 0000000000000000\n" ++
        codes "apdu 8001000002\napdu 8001000002\npower\nselect A000000004\napdu 80010000\nselect A000000001\n" ++
        codes "fail 4\napdu 8001000002\napdu 8001000002\npower\ndump A000000001\ndump A000000009\n")
        ≡ Ok (
        codes "lines 17 replies 7 abends 1 cuts 1 offs 1 readies 3\nstatic 0001\nabsent\n") }
{}

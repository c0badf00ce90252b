#![tactic(auto)]

//! What closed tables of abstract states mean: their rules are kept in every play.

mod worked;

ghost use Rattle.law_prove.specs.model_prove.specs.Compares.{NoCompare, Bounds};
ghost use Rattle.law_prove.specs.model_prove.specs.Facts.{Facts};
ghost use Rattle.law_prove.specs.model_prove.specs.Keys.{PlaceKey};
ghost use Rattle.law_prove.specs.model_prove.specs.Steps.{after_delegation};
ghost use Rattle.law_prove_closed.specs.ClosedLaw.{ClosedLaw};
ghost use Rattle.law_prove_closed.specs.CommandLaws.{PatternLaw, ClassLaw, BeginLaw, ExitLaw};
ghost use Rattle.law_prove_closed.specs.Computed.{counter_deck};
ghost use Rattle.law_prove_closed.specs.Decks.{DeckLaw, DeckIsKept};
ghost use Rattle.law_prove_closed.specs.Laws.{DelegateLaw, AllRowsLaw, AllLeadsLaw};
ghost use Rattle.law_prove_closed.specs.Outcomes.{LeftLaw, NextLaw, NextEndLaw, ClosedNextLaw};
ghost use Rattle.law_prove_closed.specs.ReadLaws.{UnknownLaw, ShiftLaw, AddressLaw, SearchLaw, BlockLaw, FlagLaw};
ghost use Rattle.std.specs.Prelude.{◌≡◌, [], ◌∷◌};

pub use law_prove::model_machine;

/// After PRIM 7 closed tables have the place after the delegation, whatever public segment comes back, and the moments
/// to which an abend of a delegate and a stop in it lead; or what follows an abend of its own.
pub fn delegations_are_covered()
    ensures { DelegateLaw }
{}

/// A delegation leaves what is known of static and dynamic bytes, and nothing of public bytes nor of what lies above them,
/// which no outcome has but tables may.
pub fn delegations_leave_no_public_bytes()
    ensures { (k : PlaceKey) (kept : Facts)
        → (after_delegation (record {
          key = k;
          known = record {
            bytes = (0, 7 ∷ []) ∷ (0x8000, 3 ∷ []) ∷ (0xC000, 0 ∷ []) ∷ (0xC411, 5 ∷ []) ∷ [];
            kept = kept;
            compare = Bounds 0xC411 1 5 5;
          };
        })).known
        ≡ record { bytes = (0, 7 ∷ []) ∷ (0x8000, 3 ∷ []) ∷ []; kept = kept; compare = NoCompare } }
{}

/// At each place of closed tables what the row of its instruction leads to is covered, whichever instruction it is.
pub fn rows_are_covered()
    ensures { AllRowsLaw }
{}

/// So it is at each place of tables that lead into others: what its row leads to is covered by those.
pub fn rows_lead_into_tables()
    ensures { AllLeadsLaw }
{}

/// Each place that is left of tables by some outcomes is one of the tables, and one of the outcomes leads to it; so is
/// each moment.
pub fn keys_left_are_outcomes()
    ensures { LeftLaw }
{}

/// At a place of tables that include the outcomes of its key, with what is known of its frame, what the row of its
/// instruction leads to is covered by the keys of these outcomes: the next place has one of them.
pub fn next_places_are_outcomes()
    ensures { NextLaw }
{}

/// So it is where the budget ends at the place, and where no instruction is there.
pub fn next_ends_are_outcomes()
    ensures { NextEndLaw }
{}

/// The same is so of a row at each place of closed tables, with what they have there.
pub fn next_places_of_closed_tables_are_outcomes()
    ensures { ClosedNextLaw }
{}

/// Rules without sums of an application that a card can have are kept in every play of every deck of bytes if closed
/// tables are known for them.
pub fn closed_tables_keep_rules()
    ensures { ClosedLaw }
{}

/// The rules of a deck are kept in every play if the tables that a search finds are closed, all of which is computed.
pub fn decks_are_kept()
    ensures { DeckLaw }
{}

/// So are the rules of the counter: it counts once for each command that is answered with 9000.
pub fn counter_is_kept()
    ensures { DeckIsKept counter_deck }
{}

/// The ways that a pattern leaves open after a text decide whether it fits the text.
pub fn patterns_are_followed()
    ensures { PatternLaw }
{}

/// Each command of bytes that reaches an application is in a class of its rules: the class has the bytes of its header,
/// and exactly those lines match whose patterns fit the command.
pub fn commands_have_classes()
    ensures { ClassLaw }
{}

/// A command that is sent to the selected application begins its frame at a place that closed tables have, with the
/// allowances that its event leaves, and with what is known of its public segment and of the bytes of its session.
pub fn beginnings_are_covered()
    ensures { BeginLaw }
{}

/// After EXIT, EXITSW, EXITLA and EXITSWLA closed tables have the moment after the answer, which breaks no rule, or what
/// follows abend 09; and after those of a delegated frame the moment without a session.
pub fn exits_are_covered()
    ensures { ExitLaw }
{}

/// A pair of set and number that is no primitive abends, and closed tables have what follows.
pub fn unknown_pairs_are_covered()
    ensures { UnknownLaw }
{}

/// After SHIFT LEFT and SHIFT RIGHT closed tables have the place with the top shifted, and with the last bit that was
/// shifted out in C; or what follows an abend.
pub fn shifts_are_covered()
    ensures { ShiftLaw }
{}

/// After LOADI and INDEX closed tables have the place with the bytes at the address pushed, or with the address of the
/// entry; or what follows an abend.
pub fn addresses_are_covered()
    ensures { AddressLaw }
{}

/// After the search of a table closed tables have the place with the index of the byte pushed, or 0 if it is not there;
/// or what follows an abend.
pub fn searches_are_covered()
    ensures { SearchLaw }
{}

/// After the primitives that compare the bytes at two addresses closed tables have the place with the flags of the
/// subtraction; or what follows an abend.
pub fn blocks_are_covered()
    ensures { BlockLaw }
{}

/// After CHECK CASE and STORE CCR closed tables have the place with the flags by the top byte of the stack; or what
/// follows an abend.
pub fn flags_are_covered()
    ensures { FlagLaw }
{}

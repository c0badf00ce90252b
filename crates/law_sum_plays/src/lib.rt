#![tactic(auto)]

//! Closed tables with sums keep the rules in every play.

mod laws;
mod table_rows;

ghost use Rattle.law_sum_plays.specs.Decks.{DeckSumsLaw, proves_sums, transaction_deck, transaction_sums};
ghost use Rattle.law_sum_plays.specs.Decks.{transaction_with};
ghost use Rattle.law_sum_plays.specs.Laws.{QuietLaw, NameLaw, GuardLaw, BeginSumsLaw, RowsSufficeLaw, ClosedSumsLaw};
ghost use Rattle.law_sum_plays.specs.Rows.{SumsMove, AllSumRowsLaw};
ghost use Rattle.law_sum_plays.specs.law_prove_closed.specs.Decks.{DeckIsKept};
ghost use Rattle.std.specs.Prelude.{◌≡◌, codes, false};

/// Events that are no instructions leave the sums as power would leave them.
pub fn other_events_leave_sums()
    ensures { QuietLaw }
{}

/// After each history that breaks nothing the sums have the names that the rules give them.
pub fn sums_stay()
    ensures { NameLaw }
{}

/// A row leaves the protection unless it is the primitive of it; if nothing waited without protection, nothing waits
/// after a row at which totals are asked; and a row at which they are not asked leaves the static bytes as power would leave them.
pub fn rows_guard_static_bytes()
    ensures { GuardLaw }
{}

/// A command in a session and a delegation begin a frame at a place that closed tables have with their sums.
pub fn beginnings_are_covered()
    ensures { BeginSumsLaw }
{}

/// If each row leaves what its place says of sums, then closed tables with sums cover what each place leads to, they
/// are a sound covering under which no rule is broken, and the rules are kept in every play.
pub fn rows_suffice()
    ensures { RowsSufficeLaw }
{}

/// Rules, with their sums, of an application that a card can have are kept in every play of every deck of bytes if
/// closed tables of facts are known for them, and a table of sums that is closed beside those.
pub fn closed_sums_keep_rules()
    ensures { ClosedSumsLaw }
{}

pub use law_prove_closed;
pub use law_prove_closed::model_machine;

/// What a table of sums compares with the places after a row holds of what the row leaves.
pub fn rows_move_sums()
    ensures { AllSumRowsLaw }
{}

/// The rules of a deck are kept in every play if the tables that a search finds are closed, and a table of sums beside
/// them, all of which is computed.
pub fn sums_of_decks_are_kept()
    ensures { DeckSumsLaw }
{}

/// So a byte to which 3 is added in a transaction is the sum that its commits count, whenever power goes.
pub fn transaction_is_kept()
    ensures { DeckIsKept transaction_deck }
{}

/// It is not proved if the commit adds another number, nor if the sum is added to as the transaction begins: power may
/// go before the commit.
#[tactic(auto, unfolding(crate::specs::Decks::proves_sums))]
pub fn other_events_are_refused()
    ensures amount { proves_sums 200 transaction_sums
        (transaction_with (codes "#@ on turn *PRIM 3,1* add s 4\n")) ≡ false }
    ensures before { proves_sums 200 transaction_sums
        (transaction_with (codes "#@ on turn *PRIM 3,2* add s 3\n")) ≡ false }
{}

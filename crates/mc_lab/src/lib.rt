#![tactic(auto)]

//! The laboratory: expectations in the comments of a deck, compared with its play; and sweeps of a deck, with
//! their laws.

mod expectation_rows;
mod expected_deck;
mod expecting;
mod judging;
mod laying;
mod remark;
mod rows;
mod scanning;
mod stage;
mod sweep_account;
mod sweep_front;
mod sweep_laws;
mod sweep_line;
mod sweep_marks;
mod sweep_names;
mod sweep_play;
mod sweep_rows;
mod sweep_text;
mod sweep_trial;
mod sweep_word;
mod sweeping;
mod truth;

pub use expected_deck::{ExpectationRefusal, ExpectedDeck, read_expected_deck};
pub use expecting::expect;
pub use remark::{Mark, Remark};
pub use scanning::remarks;
pub use sweep_laws::{
    a_cut_hits_the_writes_of_its_line, between_two_changes, never_torn, no_change_stays_the_same,
    one_change_splits_at_its_gate,
};
pub use sweep_text::{Sums, put_sums, put_swept};
pub use sweep_word::SweepWord;
pub use sweeping::sweep;

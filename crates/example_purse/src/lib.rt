#![tactic(auto)]

//! A purse with a PIN and a debit, and its three promises in every play.

mod applied;
mod purse;
mod worked;

ghost use Rattle.std.specs.Prelude.{◌≡◌, Ok};
ghost use Rattle.model_text.specs.Assembly.{assembly_of};
ghost use Rattle.example_purse.specs.Purse.{purse_code, purse_text};
ghost use Rattle.example_purse.specs.Laws.{BooksLaw, GuessesLaw, InEveryPlayFrom, RightLaw, SaysBooks, SaysGuesses, SaysSessions, SessionsLaw};

pub use applied::{Counter, counter_keeps};
pub use purse::{CODE, TEXT};
pub use worked::{
    a_fourth_guess_is_compared, amount_read_again_is_raised, early_reset_is_guessed,
    early_session_is_open, late_try_is_guessed, own_history, own_play, unprotected_is_torn,
};

/// The text of the purse is assembled to its code.
#[tactic(auto, unfolding(model_text::specs::Assembly::assembly_of))]
pub fn text()
    ensures { assembly_of purse_text ≡ Ok purse_code }
{}

/// Of bytes, a comparison is right just where the PIN that was shown is the one in static bytes.
pub fn right_is_equal()
    ensures { RightLaw }
{}

/// In every play, whatever is cut, whichever writes fail and whatever else is on the card, at most three wrong PINs are
/// compared between two right ones and before the first. No PIN is compared without a try in static byte 2, which holds
/// the tries left: each comparison, right or wrong, costs one that was taken just before it, and three are there again
/// only just after a right one. It never has more than 3 less what was wrong since; and the PIN stays 1234. That a PIN
/// is compared while a try is left is not said. Comparisons count in every frame of the purse, also in one that another
/// application began by delegation, and in commands that were cut or refused later.
pub fn guesses()
    ensures { GuessesLaw }
{}

/// In every play the balance is 1,000 less the amounts of the durable debits, and the number of debits is theirs,
/// modulo 65,536. Each durable debit was made just after a command to the selected purse with INS 40 whose two bytes
/// of data are its amount, so that no command makes two and no other command one. A debit that was answered with 9000
/// is durable, and one that was answered with another status was not made; one that abended, was cut or met a failed
/// write has both halves or none.
pub fn books()
    ensures { BooksLaw }
{}

/// In every play each durable debit was made in a session in which the PIN was shown before it, after the last
/// selection with no end of a session between, and none by another application through delegation.
pub fn sessions()
    ensures { SessionsLaw }
{}

/// A purse that the card already holds when power first comes keeps the three promises too: from a history that its
/// static bytes begin with, they go on from there.
pub fn promises_go_on()
    ensures guesses { InEveryPlayFrom SaysGuesses }
    ensures books { InEveryPlayFrom SaysBooks }
    ensures sessions { InEveryPlayFrom SaysSessions }
{}

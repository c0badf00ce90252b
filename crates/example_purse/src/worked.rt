#![tactic(auto, unfolding(law_promise::specs::Computed::broken_at, law_promise::specs::Computed::history_of, law_promise::specs::Computed::brings_only))]

ghost use Rattle.std.specs.Prelude.{◌≡◌, [], ◌∷◌, Some, None, true};
ghost use Rattle.law_promise.specs.Computed.{IsBroken, brings_only, broken_at, history_of};
ghost use Rattle.example_purse.specs.Purse.{Commanded, Debited, Ended, Right, Selected, Tries, Wrong, purse_app, purse_name, purse_watch};
ghost use Rattle.example_purse.specs.Laws.{SaysBooks, SaysGuesses, SaysSessions};
ghost use Rattle.example_purse.specs.Worked.{app_of, app_with_name, are_ordered, costs_tries, early_reset, early_reset_deck, early_session, early_session_deck, is_at_most_three, keeps_balance, keeps_guesses, keeps_sessions, late_try, late_try_deck, own_deck, reads_again, two_firms, unprotected, unprotected_deck};

/// The purse's own play, with cuts in a showing and in debits, keeps what it promises after every line; what is
/// created in it under the purse's name is the purse.
pub fn own_play()
    ensures premise { brings_only purse_name purse_app own_deck ≡ true }
    ensures guesses { broken_at purse_watch keeps_guesses own_deck ≡ None }
    ensures costs { broken_at purse_watch (λ h fixed. costs_tries h) own_deck ≡ None }
    ensures balance { broken_at purse_watch keeps_balance own_deck ≡ None }
    ensures ordered { broken_at purse_watch (λ h fixed. are_ordered h) own_deck ≡ None }
    ensures sessions { broken_at purse_watch (λ h fixed. keeps_sessions h) own_deck ≡ None }
{}

/// What is counted of it: two debits are durable, the one that was cut after its commit among them.
pub fn own_history()
    ensures { history_of purse_watch own_deck
        ≡ Wrong ∷ Tries 1 ∷ Commanded 0x20 (0 ∷ 0 ∷ []) ∷ Selected ∷ Ended
        ∷ Ended ∷ Commanded 0x20 (0 ∷ 0 ∷ []) ∷ Wrong ∷ Tries 2 ∷ Commanded 0x20 (0 ∷ 0 ∷ []) ∷ Selected ∷ Ended
        ∷ Ended ∷ Debited true 100 ∷ Commanded 0x40 (0 ∷ 100 ∷ []) ∷ Tries 3 ∷ Right true ∷ Tries 1 ∷ Commanded 0x20 (0x12 ∷ 0x34 ∷ [])
        ∷ Wrong ∷ Tries 2 ∷ Commanded 0x20 (0 ∷ 0 ∷ []) ∷ Selected ∷ Ended
        ∷ Ended ∷ Commanded 0x40 (0 ∷ 100 ∷ []) ∷ Commanded 0x40 (0xFF ∷ 0xFF ∷ []) ∷ Debited true 100 ∷ Commanded 0x40 (0 ∷ 100 ∷ [])
        ∷ Tries 3 ∷ Right true ∷ Tries 2 ∷ Commanded 0x20 (0x12 ∷ 0x34 ∷ []) ∷ Commanded 0x40 (0 ∷ 100 ∷ []) ∷ Selected ∷ [] }
{}

/// If the try is counted after the comparison, four wrong PINs are compared, each cut off before its try is spent.
pub fn late_try_is_guessed()
    ensures at { broken_at purse_watch keeps_guesses late_try_deck ≡ Some 6 }
    ensures costs { broken_at purse_watch (λ h fixed. costs_tries h) late_try_deck ≡ Some 6 }
    ensures law { IsBroken purse_watch (app_of late_try) SaysGuesses late_try_deck }
{}

/// If the tries are set back before the comparison, a fourth wrong PIN is compared.
pub fn early_reset_is_guessed()
    ensures at { broken_at purse_watch keeps_guesses early_reset_deck ≡ Some 5 }
    ensures costs { broken_at purse_watch (λ h fixed. costs_tries h) early_reset_deck ≡ Some 5 }
    ensures law { IsBroken purse_watch (app_of early_reset) SaysGuesses early_reset_deck }
{}

/// In the first of these plays a fourth wrong PIN is compared after 18 lines, in the second after 8, with no right
/// one between.
pub fn a_fourth_guess_is_compared()
    ensures late_try { broken_at purse_watch (λ h fixed. is_at_most_three h) late_try_deck ≡ Some 18 }
    ensures early_reset { broken_at purse_watch (λ h fixed. is_at_most_three h) early_reset_deck ≡ Some 8 }
{}

/// If balance and number are not written as one, a cut between the two leaves a balance without its debit.
pub fn unprotected_is_torn()
    ensures at { broken_at purse_watch keeps_balance unprotected_deck ≡ Some 7 }
    ensures law { IsBroken purse_watch (app_of unprotected) SaysBooks unprotected_deck }
{}

/// If the session byte is set before the PIN is looked at, a debit is made after a wrong PIN.
pub fn early_session_is_open()
    ensures at { broken_at purse_watch (λ h fixed. keeps_sessions h) early_session_deck ≡ Some 6 }
    ensures law { IsBroken purse_watch (app_of early_session) SaysSessions early_session_deck }
{}

/// If the amount is read again after the comparison, over a delegation, what is called raises it above the balance.
pub fn amount_read_again_is_raised()
    ensures at { broken_at purse_watch keeps_balance two_firms ≡ Some 8 }
    ensures ordered { broken_at purse_watch (λ h fixed. are_ordered h) two_firms ≡ Some 8 }
    ensures law { IsBroken purse_watch (app_with_name reads_again) SaysBooks two_firms }
{}

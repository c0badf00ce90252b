// A deck played and compared with its expectations.
ghost use Rattle.std.specs.Prelude.{◌≡◌, ◌+◌, ◌^◌, ◌<◌, true, cond, IfOk};
ghost use Rattle.mc_text.specs.Texts.{sunk, Puts};
ghost use Rattle.mc_script.specs.Players.{IsUnfused};
ghost use Rattle.mc_lab.specs.Expectations.{count_failed, expect_text, steady_steps};
ghost use Rattle.mc_lab.specs.Judged.{done_of};
ghost use Rattle.mc_lab.specs.ExpectedDecks.{expected_deck_value, IsRising};

use crate::expected_deck::{ExpectedDeck, count_above};
use crate::judging::{judge, put_counts};
use crate::stage::play_lines;
use mc_nvm::Bench;
use mc_script::{Player, Text};
use mc_streams::{Sink, WriteFault};
use mc_words::Steps;
use std::sync::ledger::Ledger;

// The number of failed expectations after one more that held or failed.
fn counted(failed: usize, held: bool) -> usize
    requires { failed < 2 ^ 63 }
    ensures { result ≡ failed + cond held 0 1 }
{
    if held { failed } else { failed + 1 }
}

/// Plays a deck on a device and compares its results with its expectations. Writes a line for each
/// expectation that fails, in their order, and a last line with the number of expectations and the number
/// that failed, and returns the number that failed.
///
/// The device has no armed stop, and refuses no write by itself. It allocates no memory. A result is compared
/// as soon as its line was played and is then dropped; lines after the last expectation are not played.
///
/// # Errors
///
/// Returns `WriteFault` if the sink fails; the first bytes of the report were written then.
pub fn expect<N: Bench + Drop, T: Sink, L: Ledger>(
    expected_deck: &ExpectedDeck<'_>,
    device: N,
    out: &mut T,
    steps: &mut Steps<L>,
) -> Result<usize, WriteFault>
    requires fuses { IsUnfused (N.bench device) }
    requires steady { (N.bench device).steady ≡ true }
    requires rising { IsRising expected_deck.now }
    ensures reported { Puts (sunk T.Sink out.old)
        (expect_text (steady_steps (N.state device).words (expected_deck_value expected_deck.now).lines)
        (expected_deck_value expected_deck.now).expected) (done_of result) (sunk T.Sink out.new) }
    ensures failed { IfOk result (λ n. n ≡ count_failed
        (steady_steps (N.state device).words (expected_deck_value expected_deck.now).lines)
        (expected_deck_value expected_deck.now).expected) }
{
    let mut player = Player::new(device);
    let mut text = Text::new();
    let mut count = 0;
    let mut failed = 0;
    let expectations = expected_deck.expectations.as_slice();
    for expectation in expectations {
        let above = count_above(&expected_deck.deck, count, expectation.number);
        play_lines(
            &mut player,
            &expected_deck.deck,
            count,
            above,
            &mut text,
            steps,
        );
        count = above;
        let held = judge(out, expectation, &text)?;
        failed = counted(failed, held);
    }
    put_counts(out, expectations.len(), failed)?;
    Ok(failed)
}

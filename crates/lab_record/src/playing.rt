// A line that is played, of which nothing is recorded.
ghost use Rattle.std.specs.Prelude.{◌≤◌, ℕ, length, take};
ghost use Rattle.law_events.specs.law_promise.specs.model_play.specs.Play.{State};
ghost use Rattle.mc_deck.specs.Lines.{line_of, GoodLine};
ghost use Rattle.mc_script.specs.Players.{device_of};
ghost use Rattle.mc_script.specs.Benches.{IsPlaying};
ghost use Rattle.lab_record.specs.Benches.{IsSteadyAt};
ghost use Rattle.lab_record.specs.Steady.{state_after, steady_step};

use mc_deck::{Deck, Line};
use mc_nvm::Bench;
use mc_script::{Player, Silent};
use mc_words::Steps;
use std::sync::ledger::Ledger;

/// Plays a line, and records nothing.
pub fn play_line<N: Bench, L: Ledger>(player: &mut Player<N>, line: &Line<'_>, steps: &mut Steps<L>)
    requires playing { IsPlaying N.Bench player.old }
    requires good { GoodLine (line_of line.now) }
    ensures playing { IsPlaying N.Bench player.new }
    ensures at { (s : State) (n : ℕ) → IsSteadyAt N.Bench player.old s
        → IsSteadyAt N.Bench player.new (steady_step s (n, line_of line.now)).after }
    ensures keeps_device { N.same (device_of player.old) (device_of player.new) }
{
    let _answer = player.line(line, &mut Silent, steps);
}

/// Plays the lines of a deck before the one with a number, or all if it has no such line.
pub fn play_before<N: Bench, L: Ledger>(
    player: &mut Player<N>,
    deck: &Deck,
    i: usize,
    steps: &mut Steps<L>,
)
    requires { IsPlaying N.Bench player.old }
    ensures playing { IsPlaying N.Bench player.new }
    ensures at { (s : State) → IsSteadyAt N.Bench player.old s → i ≤ length deck.now
        → IsSteadyAt N.Bench player.new (state_after s (take i deck.now)) }
{
    let count = deck.len();
    for j in 0..i.min(count) {
        play_line(player, &deck.line(j).1, steps);
    }
}

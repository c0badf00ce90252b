// Lines of a play, one by one, and the budget of their commands.
ghost use Rattle.std.specs.Prelude.{◌≡◌, ◌≤◌, ℕ, true};
ghost use Rattle.mc_deck.specs.Lines.{line_of, GoodLine};
ghost use Rattle.law_explore_text.specs.model_play.specs.DeckGrammar as line;
ghost use Rattle.law_explore_text.specs.model_play.specs.Play.{State};
ghost use Rattle.mc_script.specs.Players.{device_of};
ghost use Rattle.mc_script.specs.Benches.{IsPlayerAt, IsPlaying};
ghost use Rattle.lab_search.specs.Playing.{state_after};
ghost use Rattle.lab_search.specs.Benches.{PlaysAs};

use mc_deck::{Deck, Line};
use mc_nvm::Bench;
use mc_script::{Answer, Player, Silent};
use mc_words::Steps;
use std::marker::Model;
use std::sync::ledger::Ledger;

/// The budget of a command: 1 to 65,536 instructions.
#[derive(Debug, Drop)]
pub struct Budget {
    count: u32,
}

impl Model for Budget {
    ghost use Rattle.std.specs.Prelude.{ℕ, ◌≤◌};

    ghost Value = { ℕ };

    ghost view = { λ b. b.count };

    ghost invariant = { λ b. (1 ≤ b.count) × (b.count ≤ 65536) };
}

impl Budget {
    /// Returns the budget of a player.
    pub fn of<N: Bench>(player: &Player<N>) -> Budget
        requires { IsPlaying N.Bench player.now }
        ensures { result ≡ player.now.budget }
    {
        Budget {
            count: player.budget(),
        }
    }

    /// Returns the line that sets the budget.
    pub fn line(&self) -> Line<'static>
        ensures good { GoodLine (line_of result) }
        ensures line { line_of result ≡ line.Budget self.now }
    {
        Line::Budget(self.count)
    }
}

/// Plays a line.
pub fn play<N: Bench, L: Ledger>(
    player: &mut Player<N>,
    line: &Line<'_>,
    steps: &mut Steps<L>,
) -> Option<Answer>
    requires playing { IsPlaying N.Bench player.old }
    requires good { GoodLine (line_of line.now) }
    ensures playing { IsPlaying N.Bench player.new }
    ensures plays { PlaysAs N.Bench player.old (line_of line.now) result player.new }
    ensures keeps_device { N.same (device_of player.old) (device_of player.new) }
{
    player.line(line, &mut Silent, steps)
}

/// Plays all lines of a deck.
pub fn play_all<N: Bench, L: Ledger>(player: &mut Player<N>, deck: &Deck, steps: &mut Steps<L>)
    requires playing { IsPlaying N.Bench player.old }
    ensures playing { IsPlaying N.Bench player.new }
    ensures at { (s : State) → IsPlayerAt N.Bench player.old s → (N.bench (device_of player.old)).steady ≡ true
        → IsPlayerAt N.Bench player.new (state_after s deck.now) }
    ensures steady { (s : State) → IsPlayerAt N.Bench player.old s
        → (N.bench (device_of player.old)).steady ≡ true → (N.bench (device_of player.new)).steady ≡ true }
    ensures keeps_device { N.same (device_of player.old) (device_of player.new) }
{
    player.deck(deck, steps);
}

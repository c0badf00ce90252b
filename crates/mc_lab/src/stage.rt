// Lines of a deck played one by one, and the text of the last one's result.
ghost use Rattle.std.specs.Prelude.{◌≡◌, ◌≤◌, List, length, option_map};
ghost use Rattle.law_explore.specs.model_play.specs.Play.{Step};
ghost use Rattle.mc_script.specs.Players.{answer_value};
ghost use Rattle.mc_script.specs.Benches.{IsPlaying};
ghost use Rattle.mc_lab.specs.Expectations.{result_text};
ghost use Rattle.mc_lab.specs.Benches.{Staged};

use mc_deck::Deck;
use mc_nvm::Bench;
use mc_script::{Answer, Player, Silent, Text, add_result};
use mc_words::Steps;
use std::sync::ledger::Ledger;

// Copies the text of a result of a player to `text`, empty if there is no result.
fn gather<N: Bench>(text: &mut Text, player: &Player<N>, answer: &Option<Answer>)
    requires { IsPlaying N.Bench player.now }
    ensures { text.new.items ≡ result_text (option_map (answer_value N.state player.now) answer.now) }
{
    text.clear();
    if let Some(answer) = answer {
        add_result(text, player, answer);
    }
}

/// Plays the lines of a deck from one place up to another, and leaves the text of the last one's result in
/// `text`.
pub fn play_lines<N: Bench, L: Ledger>(
    player: &mut Player<N>,
    deck: &Deck,
    from: usize,
    to: usize,
    text: &mut Text,
    steps: &mut Steps<L>,
)
    requires playing { IsPlaying N.Bench player.old }
    requires order { from ≤ to }
    requires most { to ≤ length deck.now }
    ensures staged { (whole : List Step) → Staged N.Bench whole deck.now player.old from text.old.items
        → Staged N.Bench whole deck.now player.new to text.new.items }
    ensures playing { IsPlaying N.Bench player.new }
{
    for at in from..to {
        let (_number, line) = deck.line(at);
        let answer = player.line(&line, &mut Silent, steps);
        gather(text, player, &answer);
    }
}

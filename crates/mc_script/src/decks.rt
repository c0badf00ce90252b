// All lines of a deck, of which nothing is written.
ghost use Rattle.model_play.specs.Play.{State};
ghost use Rattle.mc_script.specs.Players.{device_of};
ghost use Rattle.mc_script.specs.Benches.{DeckPlayed, IsPlayerAt, IsPlaying};

use crate::player::Player;
use crate::runner::Silent;
use mc_deck::Deck;
use mc_nvm::Bench;
use mc_words::Steps;
use std::sync::ledger::Ledger;

impl<N: Bench> Player<N> {
    /// Plays all lines of a deck, and writes nothing.
    pub fn deck<L: Ledger>(&mut self, deck: &Deck, steps: &mut Steps<L>)
        requires playing { IsPlaying N.Bench self.old }
        ensures done { (s : State) → IsPlayerAt N.Bench self.old s
            → DeckPlayed N.Bench self.old s deck.now self.new }
        ensures keeps_device { N.same (device_of self.old) (device_of self.new) }
    {
        for i in 0..deck.len() {
            let (_number, line) = deck.line(i);
            let _answer = self.line(&line, &mut Silent, steps);
        }
    }
}

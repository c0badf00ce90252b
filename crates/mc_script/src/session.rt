// What a play holds between two lines.
ghost use Rattle.std.specs.Prelude.{◌≡◌, ◌≤◌, IfSome};
ghost use Rattle.mc_card.specs.Parts.{IsReadyCard};
ghost use Rattle.mc_script.specs.Benches.{IsPlaying};
ghost use Rattle.mc_script.specs.Stops.{has_stop};

use crate::armed::Armed;
use crate::player::{Player, Power};
use mc_card::Card;
use mc_nvm::Bench;

impl<N: Bench> Player<N> {
    /// Returns the card, or `None` if no card runs.
    pub fn card(&self) -> Option<&Card<N>>
        requires { IsPlaying N.Bench self.now }
        ensures { IfSome result (λ card. IsReadyCard N.state card.now) }
    {
        match self.power {
            Power::On => Some(&self.card),
            _ => None,
        }
    }

    /// Returns the budget of the commands to come, 1 to 65,536 instructions.
    pub fn budget(&self) -> u32
        requires { IsPlaying N.Bench self.now }
        ensures budget { result ≡ self.now.budget }
        ensures low { 1 ≤ result }
        ensures high { result ≤ 65536 }
    {
        self.budget
    }

    /// Returns whether a stop is armed for the next card line.
    pub fn is_armed(&self) -> bool
        ensures { result ≡ has_stop self.now.armed }
    {
        match self.armed {
            Armed::Not => false,
            Armed::Cut { k: _, fill: _ } => true,
            Armed::Fail(_) => true,
        }
    }
}

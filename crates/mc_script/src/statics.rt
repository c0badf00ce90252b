// The static bytes that a player shows.
ghost use Rattle.std.specs.Prelude.{◌≡◌, ◌+◌, ◌≤◌, List, ℕ, length, take, drop, option_map, Some, IfSome};
ghost use Rattle.mc_script.specs.Players.{statics_in};
ghost use Rattle.mc_script.specs.Benches.{IsPlaying};

use crate::player::{Player, Power};
use mc_nvm::Bench;
use mc_words::Aid;

impl<N: Bench> Player<N> {
    /// Returns the length in bytes of the static segment of an application, or `None` exactly when a `dump`
    /// line of that name shows no bytes: if no card runs, or if the name is not on the card.
    pub fn static_len(&self, aid: &Aid) -> Option<u16>
        requires playing { IsPlaying N.Bench self.now }
        ensures value { result ≡ option_map length (statics_in N.state self.now aid.now) }
        ensures most { IfSome result (λ n. n ≤ 4096) }
    {
        match self.power {
            Power::On => self.card.static_len(aid),
            _ => None,
        }
    }

    /// Copies static bytes of an application for which `static_len` returns a length, from place `at` on,
    /// into `into`; they lie in its segment.
    pub fn static_of(&self, aid: &Aid, at: u16, into: &mut [u8])
        requires playing { IsPlaying N.Bench self.now }
        requires range { (fixed : List ℕ) × (statics_in N.state self.now aid.now ≡ Some fixed)
            × (at + length into.old ≤ length fixed) }
        ensures { (fixed : List ℕ) → statics_in N.state self.now aid.now ≡ Some fixed
            → into.new ≡ take (length into.old) (drop at fixed) }
    {
        self.card.static_of(aid, at, into);
    }
}

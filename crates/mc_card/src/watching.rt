// What an observer reads of a card between two turns.
ghost use Rattle.std.specs.Prelude.{◌≡◌, option_map};

use crate::card::Card;
use mc_machine::Chain;
use mc_nvm::Nvm;
use mc_store::Store;

impl<N: Nvm> Card<N> {
    /// Returns the chain of the command that runs, or `None` if none runs.
    pub fn chain(&self) -> Option<&Chain>
        ensures { option_map (λ c. c.now) result ≡ self.now.chain }
    {
        self.chain.running()
    }

    /// Returns the bank of the applications.
    pub fn bank(&self) -> &Store<N>
        ensures { result.now ≡ self.now.store }
    {
        &self.store
    }
}

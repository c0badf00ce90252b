// The session state of a card: what is selected, its session bytes, and the open load.
ghost use Rattle.std.specs.Prelude.{◌≡◌, option_map};
ghost use Rattle.mc_card.specs.Parts.{session_state_in};

use crate::card::Card;
use mc_manager::Load;
use mc_nvm::Nvm;
use mc_words::Aid;

impl<N: Nvm> Card<N> {
    /// Returns the name of the selected application, or `None` if none is selected.
    pub fn selected(&self) -> Option<Aid>
        ensures { option_map (λ aid. aid) result ≡ option_map
            (λ s. s.name) (session_state_in N.state self.now).selected }
    {
        match self.manager.selected() {
            Some(selection) => Some(selection.aid),
            None => None,
        }
    }

    /// Returns the session bytes of the selected application, at most 256. If none is selected they are
    /// unspecified.
    pub fn session(&self) -> &[u8]
        ensures { result.now ≡ self.now.session }
    {
        self.session.bytes()
    }

    /// Returns the open load, or `None` if none is open.
    pub fn load(&self) -> Option<&Load>
        ensures { option_map (λ load. load.now) result ≡ self.now.manager.load }
    {
        self.manager.load()
    }
}

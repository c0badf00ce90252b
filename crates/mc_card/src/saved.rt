// The session state of a card, saved and put back.
ghost use Rattle.std.specs.Prelude.{◌≡◌, ◌≤◌, length, option_map, IfOk};
ghost use Rattle.mc_card.specs.Parts.{device_in, words_in, session_state_in, IsReadyCard};
ghost use Rattle.mc_card.specs.Saved.{saved_of, session_state_on, FitsWords};

use crate::card::Card;
use mc_manager::{Load, Manager, Selection};
use mc_nvm::Nvm;
use mc_segs::Session;
use mc_words::{Aid, NoMemory};
use std::alloc::Global;
use std::marker::Model;

/// The session state of a card that was saved: its selection with the session bytes, and its open load, whose bytes are
/// in the words of the device.
#[derive(Drop)]
pub struct SavedSession {
    selected: Option<Selection>,
    session: Vec<u8>,
    load: Option<Load>,
}

impl Model for SavedSession {
    ghost use Rattle.std.specs.Prelude.{◌≤◌, length};
    ghost use Rattle.mc_card.specs.Saved.{SavedState};

    ghost Value = { SavedState };

    ghost view = { λ s. record { manager = record { selected = s.selected; load = s.load }; session = s.session.items } };

    ghost invariant = { λ s. length s.session.items ≤ 256 };
}

impl SavedSession {
    /// Returns the name of the selected application, or `None` if none is selected.
    pub fn selected(&self) -> Option<Aid>
        ensures { option_map (λ aid. aid) result ≡ option_map (λ s. s.aid) self.now.manager.selected }
    {
        match self.selected {
            Some(selection) => Some(selection.aid),
            None => None,
        }
    }

    /// Returns the session bytes of the selected application, at most 256. If none is selected they are
    /// unspecified.
    pub fn session(&self) -> &[u8]
        ensures value { result.now ≡ self.now.session }
        ensures bound { length result.now ≤ 256 }
    {
        self.session.as_slice()
    }

    /// Returns the open load, or `None` if none is open.
    pub fn load(&self) -> Option<&Load>
        ensures { option_map (λ load. load.now) result ≡ self.now.manager.load }
    {
        self.load.as_ref()
    }
}

// Returns a copy of the open load of a manager.
fn load_of(manager: &Manager) -> Option<Load>
    ensures { result ≡ manager.now.load }
{
    match manager.load() {
        Some(load) => Some(load.copy()),
        None => None,
    }
}

// Returns a copy of some bytes.
fn bytes_of(alloc: Global, bytes: &[u8]) -> Result<Vec<u8>, NoMemory>
    ensures { IfOk result (λ v. v.items ≡ bytes.now) }
{
    Ok(Vec::from_slice(alloc, bytes)?)
}

impl<N: Nvm> Card<N> {
    /// Saves the session state.
    ///
    /// # Errors
    ///
    /// Returns `NoMemory` if it is out of memory.
    pub fn saved(&self, alloc: Global) -> Result<SavedSession, NoMemory>
        ensures saved { IfOk result (λ s. s ≡ saved_of self.now) }
        // It fits the words of the device, and on them it is the session state of the card.
        ensures fits { IsReadyCard N.state self.now → FitsWords (words_in N.state self.now) (saved_of self.now) }
        ensures session_state { session_state_in N.state self.now
            ≡ session_state_on (words_in N.state self.now) (saved_of self.now) }
    {
        let bytes = self.session.bytes();
        Ok(SavedSession {
            selected: self.manager.selected(),
            session: bytes_of(alloc, bytes)?,
            load: load_of(&self.manager),
        })
    }

    /// Replaces the session state by one that was saved, which fits the words of the device.
    pub fn put_saved(&mut self, saved: &SavedSession)
        requires fits { FitsWords (words_in N.state self.old) saved.now }
        ensures session_state { session_state_in N.state self.new
            ≡ session_state_on (words_in N.state self.old) saved.now }
        ensures ready { IsReadyCard N.state self.old → IsReadyCard N.state self.new }
        ensures device { device_in self.new ≡ device_in self.old }
    {
        self.session = Session::of(saved.session());
        self.manager = Manager::of(saved.selected, &saved.load);
    }
}

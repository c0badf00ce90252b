// A command that the manager of a card handles, with the session bytes of a selection.
ghost use Rattle.std.specs.Prelude.{◌≡◌, ◌+◌, ◌≤◌, true, IsSome, length};
ghost use Rattle.mc_words.specs.model_device.specs.Bytes.{zeros};
ghost use Rattle.mc_words.specs.model_device.specs.Layout.{gaps};
ghost use Rattle.mc_apdu.specs.Command.{parts_of};
ghost use Rattle.mc_bank.specs.Bank.{app_of};
ghost use Rattle.mc_manager.specs.CommandDue.{most_ticks};
ghost use Rattle.mc_store.specs.Store.{apps_in, is_going, store_named};
ghost use Rattle.mc_store.specs.Power.{device_of, count_of};
ghost use Rattle.mc_card.specs.Parts.{device_in, card_in, IsReadyCard};
ghost use Rattle.mc_card.specs.Managing.{Directs};

use crate::card::Card;
use mc_apdu::{Apdu, Reply};
use mc_bank::{Bank, Slot};
use mc_manager::Ruling;
use mc_nvm::Nvm;
use mc_segs::Session;
use mc_store::Store;
use mc_words::{Steps, Stop};
use std::sync::ledger::Ledger;

impl<N: Nvm> Card<N> {
    /// Passes one command to the manager, which writes its reply to `reply`. A new selection begins with
    /// session bytes of zero. Returns the slot of the application that is to run the command, if one is:
    /// nothing but the contents of `reply` has changed then.
    ///
    /// # Errors
    ///
    /// Returns the `Stop` of the device. The contents of `reply` are unspecified then.
    pub(crate) fn direct<L: Ledger>(
        &mut self,
        apdu: &Apdu,
        reply: &mut Reply,
        steps: &mut Steps<L>,
    ) -> Result<Option<Slot>, Stop>
        requires ready { IsReadyCard N.state self.old }
        ensures done { Directs N.state N.wrote self.old (parts_of apdu.now) result reply.new self.new }
        ensures rises { steps.old ≤ steps.new }
        ensures ticks { steps.new ≤ steps.old
            + most_ticks (parts_of apdu.now) (2 + length (gaps (card_in N.state self.old))) }
        ensures keeps_device { N.same (device_in self.old) (device_in self.new) }
    {
        match self.manager.rule(&mut self.store, apdu, reply, steps)? {
            Ruling::Answer => Ok(None),
            Ruling::Fresh(slot) => {
                self.session = session_of(&self.store, slot);
                Ok(None)
            }
            Ruling::Pass(slot) => Ok(Some(slot)),
        }
    }
}

// Returns the session bytes of a new selection of the application in a slot: zeros.
fn session_of<N: Nvm>(store: &Store<N>, slot: Slot) -> Session
    requires going { is_going (N.state (device_of store.now)) (count_of store.now) ≡ true }
    requires there { IsSome (store_named (N.state (device_of store.now)) slot) }
    ensures { result ≡ zeros (app_of (apps_in (N.state (device_of store.now)).words)
        (store_named (N.state (device_of store.now)) slot)).session }
{
    Session::new(store.facts(slot).sizes.session)
}

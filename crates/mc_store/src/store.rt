ghost use Rattle.std.specs.Prelude.{◌≡◌, true, length};
ghost use Rattle.mc_words.specs.model_device.specs.Device.{Makes, IsImage};
ghost use Rattle.std.specs.Borrow.{Lends, sem};
ghost use Rattle.mc_store.specs.Power.{power_writes, power_answer, power_up_end, restart_end, device_of, device_after, over, PowersUp};
ghost use Rattle.mc_store.specs.contracts.store.Store.{the_row};

use crate::block::{find_block, name_of_block};
use crate::power::{Ready, Up, prepare};
use crate::reads::{read_code, read_section};
use crate::room::find_room;
use crate::{changes, creation, filling};
use mc_bank::{Bank, Facts, OpenRefusal, Part, Site, Sizes, Slot};
use mc_nvm::Nvm;
use mc_words::{Aid, Steps, Stop, Word};
use std::sync::ledger::Ledger;

/// The applications of a card, in the words of its device. It keeps the number of applications, so that a search for
/// room reads no more than the chain of holes.
#[derive(Drop)]
pub struct Store<N: Nvm> {
    pub(crate) device: N,
    pub(crate) count: u16,
}

impl<N: Nvm> Store<N> {
    /// Returns the store of the card in `dev`, whose power is on, and the number of device writes that recovery and
    /// migration made (at most 71).
    ///
    /// It is `restart` of a store that is `asleep` over `dev`.
    ///
    /// # Errors
    ///
    /// Returns the device with `Up::Stop` if a write was cut or failed, and with `Up::Unusable`, the first fault and
    /// its place, if the
    /// words are no card.
    pub fn power_up(dev: N) -> Result<(Store<N>, u16), (N, Up)>
        requires power { (N.state dev).on ≡ true }
        // Up to the first one that stops it makes the writes that recovery still has to make and then those of the
        // migration.
        ensures makes { Makes N.wrote dev (power_writes (N.state dev).words) (power_answer (power_up_end result))
            (device_after result) }
        // The applications are those that the words held; after a fault or a stop the words are as in `IsUnusable` or
        // `IsTorn`.
        ensures ends { PowersUp (N.state dev) (power_up_end result) (N.state (device_after result)) }
        // The device is the one that came in.
        ensures keeps_device { N.same dev (device_after result) }
    {
        let mut store = Store::asleep(dev);
        match store.restart() {
            Ok(writes) => Ok((store, writes)),
            Err(up) => Err((store.into_dev(), up)),
        }
    }

    /// Returns a store over a device whose card is not looked for yet. Until a `restart` succeeds only `into_dev` and
    /// `restart` may be called.
    pub fn asleep(dev: N) -> Store<N>
        ensures { device_of result ≡ dev }
    {
        Store {
            device: dev,
            count: 0,
        }
    }

    /// Looks for the card in the device of the store, whose power was turned on, and returns the number of device
    /// writes that recovery and migration made (at most 71).
    ///
    /// A journal that is open is finished first, and then a card of layout 1 is given layout 2, by six writes.
    ///
    /// # Errors
    ///
    /// Returns `Up::Stop` if a write was cut or failed, and `Up::Unusable`, the first fault and its place, if the
    /// words are no
    /// card. After either only `into_dev` and `restart` may be called.
    pub fn restart(&mut self) -> Result<u16, Up>
        requires power { (N.state (device_of self.old)).on ≡ true }
        // Up to the first one that stops it makes the writes that recovery still has to make and then those of the
        // migration.
        ensures makes { Makes N.wrote (device_of self.old) (power_writes (N.state (device_of self.old)).words)
            (power_answer (restart_end self.new result)) (device_of self.new) }
        // The applications are those that the words held; after a fault or a stop the words are as in `IsUnusable` or
        // `IsTorn`.
        ensures ends { PowersUp (N.state (device_of self.old)) (restart_end self.new result)
            (N.state (device_of self.new)) }
        // The device is the one that was there.
        ensures keeps_device { N.same (device_of self.old) (device_of self.new) }
    {
        let Ready { writes, count } = prepare(&mut self.device)?;
        self.count = count;
        Ok(writes)
    }

    /// Returns the number of words of the device, which never changes.
    pub fn device_len(&self) -> u32
        ensures len { result ≡ length (N.state (device_of self.now)).words }
        ensures image { IsImage (N.state (device_of self.now)).words }
    {
        self.device.len()
    }

    /// Returns the device as a bench sees it, for its fuses alone: what changes its words or its power leaves no card
    /// that the store knows.
    pub fn device_mut(&mut self) -> &mut N
        ensures value { result.now ≡ device_of self.old }
        ensures* writes_back { sem 𝓛 (Lends (the_row N.row) N.row self.entry result (λ w. over self.old w)) }
    {
        &mut self.device
    }

    /// Returns the device, whose words are the card.
    pub fn into_dev(self) -> N
        ensures { result ≡ device_of self }
    {
        let Store { device, count: _ } = self;
        device
    }
}

impl<N: Nvm> Bank for Store<N> {
    ghost use Rattle.mc_bank.specs.Slots.{slot_place};
    ghost use Rattle.mc_bank.specs.SlotLaws.{slot_sized};
    ghost use Rattle.mc_store.specs.Store.{apps_in, place_named, store_state, store_named, store_room, store_site_bytes, StoreDid};
    ghost use Rattle.mc_store.specs.Laws.{store_obeys, store_keeps, store_spares, store_leaves};

    ghost state = { λ s. store_state (N.state s.device) s.count };

    ghost named = { λ s k. store_named (N.state s.device) k };

    ghost room = { λ s. store_room (N.state s.device) };

    ghost site_bytes = { λ s. store_site_bytes (N.state s.device) };

    ghost did = { λ s i a e. StoreDid N.state N.wrote s.device s.count i a e.device e.count };

    ghost sized = { λ s k there. slot_sized (apps_in (N.state s.device).words) k
        (place_named (N.state s.device) (slot_place k)) there };

    ghost obeys = { λ s i a e did. store_obeys N.state N.wrote N.obeys s.device e.device s.count e.count i a did };

    ghost keeps = { λ s i a e did. store_keeps N.state N.wrote N.obeys s.device e.device s.count e.count i a did };

    ghost spares = { λ s n ws a e did. store_spares N.state N.wrote N.obeys s.device e.device s.count e.count n ws a
        did };

    ghost leaves = { λ s n ws a e did. store_leaves N.state N.wrote N.obeys s.device e.device s.count e.count n ws a
        did };

    fn find(&self, aid: &Aid) -> Option<Slot> {
        find_block(&self.device, aid)
    }

    fn count(&self) -> u16 {
        let _size = self.device.len();
        self.count
    }

    fn facts(&self, slot: Slot) -> Facts {
        let _size = self.device.len();
        Facts {
            aid: name_of_block(&self.device, slot.index()),
            sizes: slot.sizes(),
        }
    }

    #[inline(always)]
    fn code(&self, slot: Slot, at: u16, into: &mut [u8]) {
        read_code(self, slot, at, into);
    }

    fn fixed(&self, slot: Slot, at: u16, into: &mut [u8]) {
        read_section(self, slot, Part::Data, at, into);
    }

    fn fci(&self, slot: Slot, at: u16, into: &mut [u8]) {
        read_section(self, slot, Part::Fci, at, into);
    }

    fn commit(&mut self, slot: Slot, list: &[(u16, Word)]) -> Result<(), Stop> {
        changes::commit(self, slot, list)
    }

    fn open<L: Ledger>(&self, sizes: &Sizes, steps: &mut Steps<L>) -> Result<Site, OpenRefusal> {
        find_room(&self.device, self.count, sizes, steps)
    }

    fn fill(&mut self, site: &Site, part: Part, at: u16, piece: &[u8]) -> Result<(), Stop> {
        filling::fill(self, site, part, at, piece)
    }

    fn create(&mut self, site: &Site, aid: &Aid) -> Result<(), Stop> {
        creation::create(self, site, aid)
    }

    fn delete(&mut self, slot: Slot) -> Result<(), Stop> {
        changes::delete(self, slot)
    }
}

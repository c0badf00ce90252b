ghost use Rattle.std.specs.Prelude.{◌≡◌, ◌≢◌, ℕ, ◌+◌, ◌≤◌, false, List, [], ◌∷◌, length, take, drop, map, nat_le, Option, Some, None, is_some, IsSome, IfSome, IfOk, OnOk};
ghost use Rattle.model_card.specs.declared.card.Part.{Part};
ghost use Rattle.model_card.specs.declared.card.Sizes.{Sizes};
ghost use Rattle.model_card.specs.model_device.specs.Orders.{Answer, InOrder};
ghost use Rattle.model_card.specs.model_device.specs.Bytes.{lookup, insert, remove, splice};
ghost use Rattle.model_card.specs.Items.{Site as SiteValue, BankItem, Piece, Commit, Remove};
ghost use Rattle.model_card.specs.Manager.{word_parts, create_items};
ghost use Rattle.mc_bank.specs.Slots.{slot_number, slot_place, slot_sizes};
ghost use Rattle.mc_bank.specs.Bank.{BankState, app_of, name_or, sizes_of, FitsLimits, AreApps, part_len, search_result};
ghost use Rattle.mc_bank.specs.Bank.{IsGoodSite, HasParts, StayGood, BytesStay, CanCommit, apps_after_commit, app_of_site};
ghost use Rattle.mc_bank.specs.Bank.{item_done, Spares, Changes};

use mc_words::{Aid, Steps, Stop, Word};
use model_card::{OpenRefusal, Part, Sizes};
use std::marker::Model;
use std::sync::ledger::Ledger;

/// A name of an application that is on the card, for as long as it is there: the number of its place, and its sizes,
/// which stay while it is there.
#[derive(Clone, Copy, Debug, PartialEq, Eq)]
pub struct Slot {
    pub(crate) index: u16,
    pub(crate) sizes: Sizes,
}

impl Model for Slot {
    ghost use Rattle.std.specs.Prelude.{ℕ};
    ghost use Rattle.std.proofs.Common.{ap};
    ghost use Rattle.mc_bank.specs.Slots.{slot_number, slot_place, slot_sizes, AreDigits};
    ghost use Rattle.mc_bank.specs.SlotLaws.{slot_back};

    ghost Value = { ℕ };

    ghost view = { λ s. slot_number s.index s.sizes };

    ghost invariant = { λ s. AreDigits s.index s.sizes };

    ghost inverse = { λ k. record { index = slot_place k; sizes = slot_sizes k } };

    ghost inverse_ok = { λ s h. ap (λ p. record { index = p.0; sizes = p.1 }) (slot_back s.index s.sizes h) };
}

impl Slot {
    /// Creates the slot with this number, of an application of these sizes, as a bank returns it.
    pub fn new(index: u16, sizes: Sizes) -> Slot
        ensures number { result ≡ slot_number index sizes }
        ensures place { slot_place result ≡ index }
        ensures sizes { slot_sizes result ≡ sizes }
    {
        Slot { index, sizes }
    }

    /// Returns the number by which a bank knows the slot.
    pub fn index(&self) -> u16
        ensures { result ≡ slot_place self.now }
    {
        self.index
    }

    /// Returns the sizes of the slot's application.
    pub fn sizes(&self) -> Sizes
        ensures { result ≡ slot_sizes self.now }
    {
        self.sizes
    }
}

/// The place of an open load, with its sizes.
#[derive(Debug, Drop)]
pub struct Site {
    pub(crate) sizes: Sizes,
    pub(crate) place: u16,
}

impl Model for Site {
    ghost use Rattle.model_card.specs.Items.{Site as SiteValue};

    ghost Value = { SiteValue };

    ghost view = { λ s. record { sizes = s.sizes; place = s.place } };
}

impl Site {
    /// Creates the site of these sizes at a place, as a bank returns it.
    pub fn new(sizes: Sizes, place: u16) -> Site
        ensures { result ≡ record { sizes = sizes; place = place } }
    {
        Site { sizes, place }
    }

    /// Returns the sizes of the load.
    pub fn sizes(&self) -> Sizes
        ensures { result ≡ self.now.sizes }
    {
        self.sizes
    }

    /// Returns the number by which a bank knows the place.
    pub fn place(&self) -> u16
        ensures { result ≡ self.now.place }
    {
        self.place
    }
}

/// The name of an application and its sizes; `init` is the size of its whole static segment.
#[derive(Clone, Copy, Debug, PartialEq, Eq)]
pub struct Facts {
    pub aid: Aid,
    pub sizes: Sizes,
}

/// The applications of a card by their names: at most 32, each within the limits of its sizes. A change may stop, and
/// then the applications are the old or the new ones.
pub trait Bank {
    /// The applications, the counts of stops below the bank, whether it is stopped, and the greatest number of ticks
    /// of `open`.
    ghost state: { Self → BankState };

    /// The name of the application of a slot, if it has one.
    ghost named: { Self → ℕ → Option (List ℕ) };

    /// The place at which a load of some sizes has room, if there is one.
    ghost room: { Self → Sizes → Option ℕ };

    /// The bytes in a section of a site.
    ghost site_bytes: { Self → SiteValue → Part → List ℕ };

    /// One item: the bank before, the item, how it ended, the bank after.
    ghost did: { Self → BankItem → Answer → Self → Type 0 };

    /// A slot has the sizes of its application.
    ghost sized: { (b : Self) (k : ℕ) → IsSome (named b k)
        → slot_sizes k ≡ sizes_of (app_of (state b).apps (named b k)) };

    /// Returns the slot of a name, or `None` if the name is not there.
    fn find(&self, aid: &Aid) -> Option<Slot>
        requires going { (state self.now).stopped ≡ false }
        ensures there { is_some result ≡ is_some (lookup (state self.now).apps aid.now) }
        ensures slot { IfSome result (λ slot. named self.now slot ≡ Some aid.now) };

    /// Returns the number of applications, at most 32.
    fn count(&self) -> u16
        requires going { (state self.now).stopped ≡ false }
        ensures count { result ≡ length (state self.now).apps }
        ensures apps { AreApps (state self.now).apps };

    /// Returns the name of an application and its sizes.
    fn facts(&self, slot: Slot) -> Facts
        requires going { (state self.now).stopped ≡ false }
        requires there { IsSome (named self.now slot) }
        ensures name { named self.now slot ≡ Some result.aid }
        ensures app { IsSome (lookup (state self.now).apps result.aid) }
        ensures sizes { result.sizes ≡ sizes_of (app_of (state self.now).apps (named self.now slot)) }
        ensures limits { FitsLimits result.sizes };

    /// Copies bytes of the code from a place on into the whole of `into`; they lie in the code.
    fn code(&self, slot: Slot, at: u16, into: &mut [u8])
        requires going { (state self.now).stopped ≡ false }
        requires there { IsSome (named self.now slot) }
        requires range { at + length into.old ≤ length (app_of (state self.now).apps (named self.now slot)).code }
        ensures { into.new ≡ take (length into.old)
            (drop at (app_of (state self.now).apps (named self.now slot)).code) };

    /// Copies bytes of the static segment from a place on into the whole of `into`; they lie in the segment.
    fn fixed(&self, slot: Slot, at: u16, into: &mut [u8])
        requires going { (state self.now).stopped ≡ false }
        requires there { IsSome (named self.now slot) }
        requires range { at + length into.old ≤ length (app_of (state self.now).apps (named self.now slot)).fixed }
        ensures { into.new ≡ take (length into.old)
            (drop at (app_of (state self.now).apps (named self.now slot)).fixed) };

    /// Copies bytes of the FCI record from a place on into the whole of `into`; they lie in the record.
    fn fci(&self, slot: Slot, at: u16, into: &mut [u8])
        requires going { (state self.now).stopped ≡ false }
        requires there { IsSome (named self.now slot) }
        requires range { at + length into.old ≤ length (app_of (state self.now).apps (named self.now slot)).fci }
        ensures { into.new ≡ take (length into.old)
            (drop at (app_of (state self.now).apps (named self.now slot)).fci) };

    /// Sets 1 to 64 whole words of eight bytes of the static segment at once, with their numbers ascending. Bytes past
    /// the segment's end in its last word are no part of it.
    ///
    /// # Errors
    ///
    /// Returns the stop of a write; the segment is the old or the new one then.
    fn commit(&mut self, slot: Slot, list: &[(u16, Word)]) -> Result<(), Stop>
        requires going { (state self.old).stopped ≡ false }
        requires there { IsSome (named self.old slot) }
        requires list { CanCommit (app_of (state self.old).apps (named self.old slot)).fixed list.now }
        ensures items { InOrder did self.old (Commit (name_or (named self.old slot)) list.now ∷ []) result self.new }
        ensures apps { Changes (state self.old)
            (apps_after_commit (state self.old).apps (name_or (named self.old slot)) list.now) result (state self.new) }
        ensures slots { (k : ℕ) → named self.new k ≡ named self.old k }
        ensures good { StayGood (state self.old).apps (room self.old) (state self.new).apps (room self.new) }
        ensures bytes { BytesStay (state self.old).apps (room self.old) (site_bytes self.old) (site_bytes self.new) };

    /// Looks for room for a load of these sizes, which are within the limits, and returns its site.
    ///
    /// # Errors
    ///
    /// Returns `Apps` if 32 applications are there, else `NoRoom` if there is no room.
    fn open<L: Ledger>(&self, sizes: &Sizes, steps: &mut Steps<L>) -> Result<Site, OpenRefusal>
        requires going { (state self.now).stopped ≡ false }
        requires limits { FitsLimits sizes.now }
        ensures answer { result ≡ search_result sizes.now (nat_le 32 (length (state self.now).apps))
            (room self.now sizes.now) }
        ensures good { IfOk result (λ site. IsGoodSite (state self.now).apps (room self.now) site) }
        ensures parts { IfOk result (λ site. HasParts site (site_bytes self.now site)) }
        ensures rises { steps.old ≤ steps.new }
        ensures ticks { steps.new ≤ steps.old + (state self.now).ticks }
        ensures full { 32 ≤ length (state self.now).apps → steps.new ≡ steps.old };

    /// Sets bytes of a section of a good site, and no other bytes of it. The bytes of other sites may change.
    ///
    /// # Errors
    ///
    /// Returns the stop of a write; the applications are as before then.
    fn fill(&mut self, site: &Site, part: Part, at: u16, piece: &[u8]) -> Result<(), Stop>
        requires going { (state self.old).stopped ≡ false }
        requires good { IsGoodSite (state self.old).apps (room self.old) site.now }
        requires range { at + length piece.now ≤ part_len part site.now.sizes }
        ensures items { InOrder did self.old (map
            (λ c. Piece site.now part c.0 c.1) (word_parts at piece.now)) result self.new }
        ensures apps { Changes (state self.old) (state self.old).apps result (state self.new) }
        ensures piece { OnOk result (site_bytes self.new site.now part
            ≡ splice (site_bytes self.old site.now part) at piece.now) }
        ensures others { OnOk result ((p : Part) → p ≢ part
            → site_bytes self.new site.now p ≡ site_bytes self.old site.now p) }
        ensures slots { (k : ℕ) → named self.new k ≡ named self.old k }
        ensures good { StayGood (state self.old).apps (room self.old) (state self.new).apps (room self.new) };

    /// Makes an application of the bytes at a good site, under a name that is not there. Its static bytes are the
    /// data, followed by zeros.
    ///
    /// # Errors
    ///
    /// Returns the stop of a write; the application is there or not then.
    fn create(&mut self, site: &Site, aid: &Aid) -> Result<(), Stop>
        requires going { (state self.old).stopped ≡ false }
        requires good { IsGoodSite (state self.old).apps (room self.old) site.now }
        requires fresh { lookup (state self.old).apps aid.now ≡ None }
        ensures items { InOrder did self.old (create_items site.now aid.now) result self.new }
        ensures apps { Changes (state self.old)
            (insert (state self.old).apps aid.now (app_of_site site.now (site_bytes self.old site.now))) result
            (state self.new) }
        ensures slots { (k : ℕ) → IsSome (named self.old k) → named self.new k ≡ named self.old k };

    /// Removes an application from the card.
    ///
    /// # Errors
    ///
    /// Returns the stop of a write; the application is there or not then.
    fn delete(&mut self, slot: Slot) -> Result<(), Stop>
        requires going { (state self.old).stopped ≡ false }
        requires there { IsSome (named self.old slot) }
        ensures items { InOrder did self.old (Remove (name_or (named self.old slot)) ∷ []) result self.new }
        ensures apps { Changes (state self.old) (remove (state self.old).apps (name_or (named self.old slot))) result
            (state self.new) }
        ensures slots { (k : ℕ) → (n : List ℕ) → named self.old k ≡ Some n → n ≢ name_or (named self.old slot)
            → named self.new k ≡ Some n };

    /// An item by the relation changes the applications by its definition.
    ghost obeys: { (b : Self) (i : BankItem) (a : Answer) (e : Self) → did b i a e
        → Changes (state b) (item_done (site_bytes b) i (state b).apps) a (state e) };

    /// An item keeps the slots of all applications but the one that it deletes.
    ghost keeps: { (b : Self) (i : BankItem) (a : Answer) (e : Self) → did b i a e → (k : ℕ) (n : List ℕ)
        → named b k ≡ Some n → Spares n i → named e k ≡ Some n };

    /// A commit keeps good sites.
    ghost spares: { (b : Self) (n : List ℕ) (ws : List (ℕ × List ℕ)) (a : Answer) (e : Self) → did b (Commit n ws) a e
        → StayGood (state b).apps (room b) (state e).apps (room e) };

    /// A commit keeps the bytes of good sites.
    ghost leaves: { (b : Self) (n : List ℕ) (ws : List (ℕ × List ℕ)) (a : Answer) (e : Self) → did b (Commit n ws) a e
        → BytesStay (state b).apps (room b) (site_bytes b) (site_bytes e) };
}

// The key of a card and of what runs on it.
ghost use Rattle.std.specs.Prelude.{◌≡◌, ℕ, ⊤, Some, IfOk, OnOk, slice_get};
ghost use Rattle.std.specs.List.{IsDistinct};
ghost use Rattle.law_explore.specs.model_device.specs.PowerUp.{Base};
ghost use Rattle.law_explore.specs.model_play.specs.Play as play;
ghost use Rattle.lab_branch.specs.Rosters.{roster_value, roster_eq};
ghost use Rattle.lab_key.specs.Keys.{IsReadable, apps_on, live_on, live_value, KeyShows};
ghost use Rattle.lab_key.specs.Shown.{IsShown, ShowsSome};
ghost use Rattle.lab_key.specs.KeyOf.{KeyOf};

use crate::session::SessionKey;
use indexmap::IndexSet;
use lab_branch::{Application, Roster, read_applications, static_bytes};
use mc_nvm::Nvm;
use mc_script::Live;
use mc_words::NoMemory;
use std::alloc::Global;

/// The key of what runs on a device: no card, which may be mute after a failed write, or a card with its session state.
#[derive(PartialEq, Eq, Hash, Drop)]
pub(crate) enum LiveKey {
    Unpowered,
    Muted,
    Running(SessionKey),
}

/// The key of a card and of what runs on it: its roster by its number among some rosters, the static bytes of its
/// applications, and its session state if it runs. Two of them are equal exactly if the cards agree in all that a
/// terminal or a power cut can tell apart; what free words and a closed journal hold does not count.
#[derive(PartialEq, Eq, Hash, Drop)]
pub struct CardKey {
    pub(crate) roster: usize,
    pub(crate) statics: Vec<u8>,
    pub(crate) live: LiveKey,
}

/// What the keys of many cards have in common: a roster by its number, and what runs.
#[derive(PartialEq, Eq, Hash, Drop)]
pub struct Stage {
    pub(crate) roster: usize,
    pub(crate) live: LiveKey,
}

/// The key of a card that is kept: the number of its stage, and the static bytes of its applications.
#[derive(PartialEq, Eq, Hash, Drop)]
pub struct PlaceKey {
    pub(crate) stage: usize,
    pub(crate) statics: Vec<u8>,
}

impl CardKey {
    /// Reads the key of the card on a device and of what runs there. A roster that is new gets the next number.
    ///
    /// The whole card is read, which costs less than the power-up of a move that was cut: so a roster needs no test of
    /// what a move has left of it.
    ///
    /// # Errors
    ///
    /// Returns `NoMemory` if it is out of memory.
    pub fn read<N: Nvm>(
        alloc: Global,
        device: &N,
        rosters: &mut IndexSet<Roster>,
        live: &Live,
    ) -> Result<CardKey, NoMemory>
        requires { ShowsSome (N.state device.now).words live.now }
        // It is the key of the base that the words hold, and of what was saved there.
        ensures of { (b : Base) (l : play.Live) → IsShown (N.state device.now).words live.now b l
            → IfOk result (λ key. KeyOf rosters.new.keys key b l) }
        // The keys that were read before stay those of their cards.
        ensures keeps { (key : CardKey) (b : Base) (l : play.Live) → KeyOf rosters.old.keys key b l
            → KeyOf rosters.new.keys key b l }
    {
        let applications = applications_of(alloc, device, live)?;
        let statics = static_bytes(alloc, applications.as_slice())?;
        let live = LiveKey::read(alloc, device, live)?;
        let roster = number_of(rosters, Roster::new(alloc, applications)?)?;
        Ok(CardKey {
            roster,
            statics,
            live,
        })
    }
}

// Reads the applications of a card that runs, and none if no card does.
fn applications_of<N: Nvm>(
    alloc: Global,
    device: &N,
    live: &Live,
) -> Result<Vec<Application>, NoMemory>
    requires { IsReadable (N.state device.now).words live.now }
    ensures { IfOk result (λ applications. applications.items ≡ apps_on (N.state device.now).words live.now) }
{
    match live {
        Live::Running(_) => read_applications(alloc, device),
        Live::Unpowered => Ok(Vec::new(alloc)),
        Live::Muted => Ok(Vec::new(alloc)),
    }
}

// Returns the number of a roster among some: its own, or the next if it is new.
fn number_of(rosters: &mut IndexSet<Roster>, roster: Roster) -> Result<usize, NoMemory>
    ensures found { IfOk result (λ number. (r : Roster) × (slice_get rosters.new.keys number ≡ Some r)
        × (roster_value r ≡ roster_value roster)) }
    ensures keeps { (n : ℕ) (r : Roster) → slice_get rosters.old.keys n ≡ Some r
        → slice_get rosters.new.keys n ≡ Some r }
    ensures distinct { IsDistinct roster_eq rosters.new.keys }
{
    let Ok(inserted) = rosters.insert_full(roster) else {
        return Err(NoMemory);
    };
    Ok(inserted.0)
}

impl LiveKey {
    // Reads the key of what runs on a device.
    fn read<N: Nvm>(alloc: Global, device: &N, live: &Live) -> Result<LiveKey, NoMemory>
        requires { IsReadable (N.state device.now).words live.now }
        ensures { IfOk result (λ key. live_value key ≡ live_on (N.state device.now).words live.now) }
    {
        match live {
            Live::Running(saved) => Ok(LiveKey::Running(SessionKey::read(alloc, device, saved)?)),
            Live::Unpowered => Ok(LiveKey::Unpowered),
            Live::Muted => Ok(LiveKey::Muted),
        }
    }
}

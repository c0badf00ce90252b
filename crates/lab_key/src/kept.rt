// The cards of an exploration, each once, with what puts it back on a device.
ghost use Rattle.std.specs.Prelude.{◌≡◌, ℕ, List, IfOk};
ghost use Rattle.law_explore.specs.model_device.specs.PowerUp.{Base};
ghost use Rattle.law_explore.specs.model_play.specs.Play as play;
ghost use Rattle.lab_key.specs.Shown.{IsShown, ShowsSome};
ghost use Rattle.lab_key.specs.Kept.{IsKeptCard, IsOfDevice, IsSavedOf};

use crate::key::{CardKey, PlaceKey, Stage};
use indexmap::{IndexMap, IndexSet};
use lab_branch::{BranchNvm, Roster};
use mc_script::Live;
use mc_words::{NoMemory, Word};
use std::alloc::Global;

/// What puts a card back on a device: the words that differ from its root, each with its place, and what ran on them.
#[derive(Clone, Copy)]
pub struct Saved<'a> {
    pub words: &'a [(u16, Word)],
    pub live: &'a Live,
}

/// The rosters, the stages with what ran there, and the cards that were found, each once with its number, and for each
/// card the words that put it back.
///
/// What ran is kept once for all cards of a stage: it takes much more room than the words and the key of a card.
#[derive(Drop)]
pub struct Rosters {
    rosters: IndexSet<Roster>,
    stages: IndexMap<Stage, Live>,
    cards: IndexMap<PlaceKey, Vec<(u16, Word)>>,
}

impl Rosters {
    /// Returns no roster and no card.
    pub fn new(alloc: Global) -> Rosters {
        Rosters {
            rosters: IndexSet::new(alloc),
            stages: IndexMap::new(alloc),
            cards: IndexMap::new(alloc),
        }
    }

    /// Returns what puts the card with a number back, or `None` if there is none.
    pub fn saved(&self, card: usize) -> Option<Saved<'_>>
        ensures { (root : List (List ℕ)) (b : Base) (l : play.Live) → IsKeptCard root self.now card b l
            → IsSavedOf root b l result }
    {
        let Some((key, words)) = self.cards.get_index(card) else {
            return None;
        };
        match self.stages.get_index(key.stage) {
            Some((_, live)) => Some(Saved {
                words: words.as_slice(),
                live,
            }),
            None => None,
        }
    }

    /// Keeps the card that is on a device, with what runs on it, and returns its number: that of the same card if it was
    /// kept before, and else the next.
    ///
    /// # Errors
    ///
    /// Returns `NoMemory` if it is out of memory.
    pub fn keep(&mut self, alloc: Global, device: &BranchNvm, live: Live) -> Result<usize, NoMemory>
        requires { ShowsSome device.now.device.words live }
        // The card has this number.
        ensures of { (b : Base) (l : play.Live) → IsShown device.now.device.words live b l
            → IsOfDevice device.now.root b → IfOk result (λ n. IsKeptCard device.now.root self.new n b l) }
        // The cards that were kept before have their numbers.
        ensures keeps { (b : Base) (l : play.Live) → IsShown device.now.device.words live b l
            → IsOfDevice device.now.root b → (n : ℕ) (c : Base) (m : play.Live)
            → IsKeptCard device.now.root self.old n c m → IsKeptCard device.now.root self.new n c m }
    {
        let key = CardKey::read(alloc, device, &mut self.rosters, &live)?;
        let words = device.differences(alloc)?;
        let CardKey {
            roster,
            statics,
            live: running,
        } = key;
        let stage = Stage {
            roster,
            live: running,
        };
        let Ok(staged) = self.stages.insert_full(stage, live) else {
            return Err(NoMemory);
        };
        let place = PlaceKey {
            stage: staged.0,
            statics,
        };
        let Ok(kept) = self.cards.insert_full(place, words) else {
            return Err(NoMemory);
        };
        Ok(kept.0)
    }
}

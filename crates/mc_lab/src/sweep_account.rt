// The observed state of a card after a power line.
ghost use Rattle.std.specs.Prelude.{◌≡◌, [], length, map, IfOk, Some};
ghost use Rattle.mc_lab.specs.Sweeps.{are_same_held, is_same, is_same_held};
ghost use Rattle.mc_lab.specs.SweepBodies.{account_value, held_value, state_by_fault};

use arrayvec::ArrayVec;
use mc_blocks::Unusable;
use mc_words::NoMemory;
use std::alloc::{AllocError, Global};

/// The static bytes of the application of a name, or `None` if it is absent.
pub type Held = Option<ArrayVec<u8, 4096>>;

/// The observed state of a card after a power line: why the words are not a card, or the static bytes under
/// each name of a deck.
#[derive(Drop)]
pub struct Account {
    pub fault: Option<Unusable>,
    pub held: Vec<Held>,
}

// Whether the static bytes are equal, or both absent.
fn is_same_held(a: &Held, b: &Held) -> bool
    ensures { result ≡ is_same_held (held_value a.now) (held_value b.now) }
{
    match (a, b) {
        (None, None) => true,
        (Some(a), Some(b)) => a.as_slice() == b.as_slice(),
        (None, Some(_)) => false,
        (Some(_), None) => false,
    }
}

// Whether the words are not a card for equal causes at equal places.
fn is_same_fault(a: &Unusable, b: &Unusable) -> bool
    ensures { result ≡ is_same (state_by_fault (Some a.now) []) (state_by_fault (Some b.now) []) }
{
    a.cause.word() == b.cause.word() && a.place == b.place
}

// Whether the static bytes under each name are equal.
fn are_same_held(a: &[Held], b: &[Held]) -> bool
    ensures { result ≡ are_same_held (map held_value a.now) (map held_value b.now) }
{
    if a.len() != b.len() {
        return false;
    }
    for i in 0..a.len() {
        if !is_same_held(&a[i], &b[i]) {
            return false;
        }
    }
    true
}

impl Account {
    /// Returns an account with room for `count` names.
    ///
    /// # Errors
    ///
    /// Returns `NoMemory` if it is out of memory.
    pub fn new(alloc: Global, count: usize) -> Result<Account, NoMemory>
        ensures { IfOk result (λ account. length account.held.items ≡ count) }
    {
        let mut held = Vec::with_capacity(alloc, count)?;
        for _name in 0..count {
            if let Err(e) = held.push(None) {
                return Err(AllocError::from(e).into());
            }
        }
        Ok(Account { fault: None, held })
    }

    /// Returns whether two observed states are equal.
    pub fn is_same(&self, other: &Account) -> bool
        ensures { result ≡ is_same (account_value self.now) (account_value other.now) }
    {
        match (&self.fault, &other.fault) {
            (None, None) => are_same_held(self.held.as_slice(), other.held.as_slice()),
            (Some(a), Some(b)) => is_same_fault(a, b),
            _ => false,
        }
    }
}

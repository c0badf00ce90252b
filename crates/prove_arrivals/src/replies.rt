// The answers of commands.
ghost use Rattle.std.specs.Prelude.{◌≡◌, ℕ, true, List, map, flat_map, IfOk};
ghost use Rattle.prove_facts.specs.model_prove.specs.Arrivals as arrivals;
ghost use Rattle.prove_facts.specs.model_prove.specs.Arrivals.{Setting};
ghost use Rattle.prove_keys.specs.Keys.{amounts_of};
ghost use Rattle.prove_arrivals.specs.Replying.{reply_arrivals};
ghost use Rattle.prove_arrivals.specs.Subjects.{Accepts, IsOver, IsSubject, known_in, start_in};

use crate::endings::answered;
use crate::landings::idle;
use crate::subject::Subject;
use model_device::NoMemory;
use prove_keys::Begun;
use prove_spots::Spot;
use std::alloc::Global;

/// The address of the length of a reply, before that of its status.
pub const LENGTH: u16 = 0xC40D;

// For each reply that the bytes of a place allow which `answer` lines match.
fn replies_of(alloc: Global, subject: &Subject<'_>, spot: &Spot) -> Result<Vec<Vec<bool>>, NoMemory>
    ensures { (names : List (List ℕ)) (s : Setting) → IsSubject names s subject.now
        → IfOk result (λ list. map (λ m. m.items) list.items ≡ arrivals.replies s (known_in spot.now)) }
{
    let bytes = spot.bytes();
    let la_high = bytes.at(LENGTH);
    let la_low = bytes.at(LENGTH + 1);
    let sw_high = bytes.at(LENGTH + 2);
    let sw_low = bytes.at(LENGTH + 3);
    subject
        .replies
        .replies(alloc, &la_high, &la_low, &sw_high, &sw_low)
}

// Whether the tables include answers of a command of a class, whose results match these lines.
fn all_answered(
    alloc: Global,
    subject: &Subject<'_>,
    number: usize,
    list: &[Vec<bool>],
    amounts: &[u32],
    spot: &Spot,
) -> Result<bool, NoMemory>
    ensures { IfOk result (λ holds. holds ≡ true → (names : List (List ℕ)) (s : Setting)
        → IsOver names s subject.now amounts.now → Accepts names subject.now
        (flat_map (λ m. reply_arrivals names s subject.now number amounts.now spot.now m.items) list.now)) }
{
    for results in list {
        if !answered(alloc, subject, number, results.as_slice(), amounts, spot)? {
            return Ok(false);
        }
    }
    Ok(true)
}

// Whether the tables include the answers of a command of a class that exits.
fn replied(
    alloc: Global,
    subject: &Subject<'_>,
    number: usize,
    amounts: &[u32],
    spot: &Spot,
) -> Result<bool, NoMemory>
    ensures { IfOk result (λ holds. holds ≡ true → (names : List (List ℕ)) (s : Setting)
        → IsOver names s subject.now amounts.now → Accepts names subject.now
        (arrivals.exited s (start_in subject.now (Begun.Class number)) (known_in spot.now)
        (amounts_of names amounts.now))) }
{
    let list = replies_of(alloc, subject, spot)?;
    let holds = all_answered(alloc, subject, number, list.as_slice(), amounts, spot)?;
    Ok(holds)
}

/// Returns whether the tables include the exit of a frame.
///
/// # Errors
///
/// Returns `NoMemory` if it is out of memory.
pub fn exited(
    alloc: Global,
    subject: &Subject<'_>,
    begun: Begun,
    amounts: &[u32],
    spot: &Spot,
) -> Result<bool, NoMemory>
    ensures { IfOk result (λ holds. holds ≡ true → (names : List (List ℕ)) (s : Setting)
        → IsOver names s subject.now amounts.now
        → Accepts names subject.now
        (arrivals.exited s (start_in subject.now begun) (known_in spot.now) (amounts_of names amounts.now))) }
{
    match begun {
        Begun::Delegated => idle(alloc, subject, amounts, spot.kept()),
        Begun::Class(number) => replied(alloc, subject, number, amounts, spot),
    }
}

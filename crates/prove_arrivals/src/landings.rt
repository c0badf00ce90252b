// The moments and the places to which outcomes lead.
ghost use Rattle.std.specs.Prelude.{◌≡◌, ℕ, Bool, true, List, [], ◌∷◌, length, IfOk, IfSome};
ghost use Rattle.prove_facts.specs.model_prove.specs.Arrivals as arrivals;
ghost use Rattle.prove_facts.specs.model_prove.specs.Arrivals.{AtMoment, AtPlace, Setting};
ghost use Rattle.prove_facts.specs.model_prove.specs.Facts.{Facts, within};
ghost use Rattle.prove_facts.specs.model_prove.specs.Keys as known;
ghost use Rattle.prove_facts.specs.model_prove.specs.Tables.{includes};
ghost use Rattle.prove_facts.specs.Facts.{facts_of};
ghost use Rattle.prove_keys.specs.Keys.{amounts_of, moment_of, place_of};
ghost use Rattle.prove_arrivals.specs.Subjects.{Accepts, IsOver, IsSubject, classes_in, known_in, spot_in, tables_in};

use crate::subject::Subject;
use model_device::NoMemory;
use prove_facts::{Fact, Facts};
use prove_keys::{Begun, MomentKey, PlaceKey};
use prove_spots::{Spot, with_part};
use std::alloc::Global;

// The key of a moment.
fn moment(alloc: Global, selected: bool, amounts: &[u32]) -> Result<MomentKey, NoMemory>
    ensures { let there : Bool = selected in IfOk result (λ key. (names : List (List ℕ)) → moment_of names key
        ≡ record { selected = there; allowances = amounts_of names amounts.now }) }
{
    Ok(MomentKey {
        selected,
        amounts: Vec::from_slice(alloc, amounts)?,
    })
}

// Whether the tables include a moment.
fn at_moment(
    alloc: Global,
    subject: &Subject<'_>,
    selected: bool,
    amounts: &[u32],
    facts: &Facts,
) -> Result<bool, NoMemory>
    ensures { let there : Bool = selected in IfOk result (λ holds. holds ≡ true → (names : List (List ℕ)) (s : Setting)
        → IsOver names s subject.now amounts.now → includes (tables_in names subject.now)
        (AtMoment (record { selected = there; allowances = amounts_of names amounts.now }) facts.now) ≡ true) }
{
    let key = moment(alloc, selected, amounts)?;
    Ok(subject.tables.holds_moment(&key, facts))
}

/// Returns whether the tables include a moment without a session.
///
/// # Errors
///
/// Returns `NoMemory` if it is out of memory.
pub fn idle(
    alloc: Global,
    subject: &Subject<'_>,
    amounts: &[u32],
    facts: &Facts,
) -> Result<bool, NoMemory>
    ensures { IfOk result (λ holds. holds ≡ true → (names : List (List ℕ)) (s : Setting)
        → IsOver names s subject.now amounts.now
        → Accepts names subject.now (arrivals.idle (amounts_of names amounts.now) facts.now)) }
{
    let holds = at_moment(alloc, subject, false, amounts, facts)?;
    Ok(holds)
}

/// Returns whether the tables include a moment of a session, with what is known at a place.
///
/// # Errors
///
/// Returns `NoMemory` if it is out of memory.
pub fn in_session(
    alloc: Global,
    subject: &Subject<'_>,
    amounts: &[u32],
    spot: &Spot,
) -> Result<bool, NoMemory>
    ensures { IfOk result (λ holds. holds ≡ true → (names : List (List ℕ)) (s : Setting)
        → IsOver names s subject.now amounts.now
        → Accepts names subject.now (arrivals.in_session s (known_in spot.now) (amounts_of names amounts.now))) }
{
    let end = 0x8000 + subject.sizes.session as u32;
    let Some(facts) = with_part(alloc, spot.kept(), spot.bytes(), 0x8000, end)? else {
        return Ok(false);
    };
    let holds = at_moment(alloc, subject, true, amounts, &facts)?;
    Ok(holds)
}

// Whether two lists of facts are the same.
fn are_same(facts: &[Fact], others: &[Fact]) -> bool
    ensures { result ≡ true → facts_of facts.now ≡ facts_of others.now }
{
    facts == others
}

// Whether power would leave the static bytes of a place as they are read; `fixed` is the number of static bytes.
fn is_settled(alloc: Global, spot: &Spot, fixed: u16) -> Result<bool, NoMemory>
    ensures { IfOk result (λ settled. settled ≡ true → spot.now.kept ≡ within 0 fixed spot.now.bytes) }
{
    let read = spot.bytes().part(alloc, 0, fixed as u32)?;
    Ok(are_same(read.list(), spot.kept().list()))
}

// Whether the tables include a place with this key, if power would leave the static bytes as they are read: what the
// tables keep of these need not be unpacked then.
fn at_settled(
    alloc: Global,
    subject: &Subject<'_>,
    key: &PlaceKey,
    spot: &Spot,
) -> Result<bool, NoMemory>
    ensures { IfOk result (λ holds. holds ≡ true → (names : List (List ℕ)) (s : Setting)
        → IsSubject names s subject.now → includes (tables_in names subject.now)
        (AtPlace (place_of names (classes_in subject.now) key.now) (known_in spot.now)) ≡ true) }
{
    if spot.protected() {
        return Ok(false);
    }
    if !is_settled(alloc, spot, subject.sizes.fixed)? {
        return Ok(false);
    }
    Ok(subject.tables.holds_settled(key, spot.bytes(), spot.last()))
}

/// Returns whether the tables include a place.
///
/// # Errors
///
/// Returns `NoMemory` if it is out of memory.
pub fn at_place(
    alloc: Global,
    subject: &Subject<'_>,
    begun: Begun,
    amounts: &[u32],
    spot: &Spot,
) -> Result<bool, NoMemory>
    ensures { IfOk result (λ holds. holds ≡ true → (names : List (List ℕ)) (s : Setting)
        → IsOver names s subject.now amounts.now
        → includes (tables_in names subject.now)
        (AtPlace (spot_in names subject.now begun amounts.now spot.now).key (known_in spot.now)) ≡ true) }
{
    let key = spot.key(alloc, begun, amounts)?;
    if at_settled(alloc, subject, &key, spot)? {
        return Ok(true);
    }
    let fixed = subject.sizes.fixed;
    let holds = subject
        .tables
        .holds_place(alloc, &key, fixed, spot.bytes(), spot.kept(), spot.last())?;
    Ok(holds)
}

ghost use Rattle.std.specs.Prelude.{◌≡◌, ◌≤◌, ◌+◌, length, Some, None, Ok, Err, IfOk, OnErr, MatchOption, MatchResult};
ghost use Rattle.model_card.specs.Units.{bytes_at, code_at, empty_at, end_at, field_at, length_at, refused_name, name_of, unit_read, IsUnit, UnitParts};
ghost use Rattle.mc_unit.specs.Parts.{parts_of};

use crate::name::aid_of;
use mc_words::Aid;
use model_card::{AidFault, UnitRefusal};

/// A load unit: its card number of eight bytes, its code, the first bytes of its static segment, its
/// DIR and FCI records, and the name in the DIR record. All but the name is borrowed.
#[derive(Clone, Copy, Debug, PartialEq, Eq)]
pub struct Unit<'a> {
    pub number: &'a [u8],
    pub code: &'a [u8],
    pub init: &'a [u8],
    pub dir: &'a [u8],
    pub fci: &'a [u8],
    pub aid: Aid,
}

/// Reads a plain load unit: the card number, and then code, data, DIR, FCI, signature and key transformation
/// unit, each a two-byte length and its bytes. Code has 1 to 8,192 bytes, data have at most 4,096, DIR and
/// FCI at most 128, signature and key none.
///
/// # Errors
///
/// Returns the first refusal that reading from the front meets: a length is tested before the bytes that it
/// counts, the bytes after the last field next, and the name in the DIR record last.
#[tactic(auto, using(crate::proofs::Reading::is_found, crate::proofs::Reading::is_only))]
pub fn read_unit(bytes: &[u8]) -> Result<Unit<'_>, UnitRefusal>
    ensures read { MatchResult result (λ u. unit_read bytes.now ≡ Ok (parts_of u)) (λ e. unit_read bytes.now ≡ Err e) }
    // A unit that is read is in the grammar.
    ensures found { IfOk result (λ u. IsUnit bytes.now (parts_of u)) }
    // Bytes that are refused are not in the grammar.
    ensures only { OnErr result ((u : UnitParts) → IsUnit bytes.now u → ⊥) }
{
    unit_from(bytes)
}

#[tactic(auto, unfolding(model_card::specs::Units::unit_read))]
fn unit_from(bytes: &[u8]) -> Result<Unit<'_>, UnitRefusal>
    ensures { MatchResult result (λ u. unit_read bytes.now ≡ Ok (parts_of u)) (λ e. unit_read bytes.now ≡ Err e) }
{
    let (number, rest) = bytes_at(bytes, 8)?;
    let (code, rest) = code_at(rest)?;
    let (init, rest) = field_at(rest, 4096)?;
    let (dir, rest) = field_at(rest, 128)?;
    let (fci, rest) = field_at(rest, 128)?;
    let rest = empty_at(rest, UnitRefusal::Signed)?;
    let rest = empty_at(rest, UnitRefusal::Enciphered)?;
    end_at(rest)?;
    let aid = name_from(dir)?;
    Ok(Unit {
        number,
        code,
        init,
        dir,
        fci,
        aid,
    })
}

// The name in the DIR record of a unit.
fn name_from(dir: &[u8]) -> Result<Aid, UnitRefusal>
    ensures { MatchResult result (λ a. refused_name (name_of dir.now) ≡ Ok a)
        (λ e. refused_name (name_of dir.now) ≡ Err e) }
{
    match aid_of(dir) {
        Ok(aid) => Ok(aid),
        Err(AidFault::NoAid) => Err(UnitRefusal::NoAid),
        Err(AidFault::AidLength) => Err(UnitRefusal::AidLength),
    }
}

// The first `count` bytes, and the bytes after them.
fn bytes_at(bytes: &[u8], count: usize) -> Result<(&[u8], &[u8]), UnitRefusal>
    ensures { MatchResult result (λ x. bytes_at count bytes.now ≡ Ok (x.0.now, x.1.now))
        (λ e. bytes_at count bytes.now ≡ Err e) }
{
    if bytes.len() < count {
        return Err(UnitRefusal::Short);
    }
    Ok(bytes.split_at(count))
}

// A two-byte length, and the bytes after it.
fn length_at(bytes: &[u8]) -> Result<(usize, &[u8]), UnitRefusal>
    ensures { MatchResult result (λ x. length_at bytes.now ≡ Ok (x.0, x.1.now)) (λ e. length_at bytes.now ≡ Err e) }
{
    match bytes {
        [high, low, rest @ ..] => Ok((u16::from_be_bytes([*high, *low]) as usize, rest)),
        _ => Err(UnitRefusal::Short),
    }
}

// The code field, which is not empty.
#[tactic(auto, unfolding(model_card::specs::Units::code_at))]
fn code_at(bytes: &[u8]) -> Result<(&[u8], &[u8]), UnitRefusal>
    ensures { MatchResult result (λ x. code_at bytes.now ≡ Ok (x.0.now, x.1.now)) (λ e. code_at bytes.now ≡ Err e) }
{
    let (count, rest) = length_at(bytes)?;
    if count == 0 {
        return Err(UnitRefusal::NoCode);
    }
    if count > 8192 {
        return Err(UnitRefusal::TooLarge);
    }
    bytes_at(rest, count)
}

// A field of at most `most` bytes.
#[tactic(auto, unfolding(model_card::specs::Units::field_at))]
fn field_at(bytes: &[u8], most: usize) -> Result<(&[u8], &[u8]), UnitRefusal>
    ensures { MatchResult result (λ x. field_at most bytes.now ≡ Ok (x.0.now, x.1.now))
        (λ e. field_at most bytes.now ≡ Err e) }
{
    let (count, rest) = length_at(bytes)?;
    if count > most {
        return Err(UnitRefusal::TooLarge);
    }
    bytes_at(rest, count)
}

// The bytes after a field that has to be empty, or the given refusal if it is not.
#[tactic(auto, unfolding(model_card::specs::Units::empty_at))]
fn empty_at(bytes: &[u8], refusal: UnitRefusal) -> Result<&[u8], UnitRefusal>
    ensures { MatchResult result (λ rest. empty_at refusal bytes.now ≡ Ok rest.now)
        (λ e. empty_at refusal bytes.now ≡ Err e) }
{
    let (count, rest) = length_at(bytes)?;
    if count != 0 {
        return Err(refusal);
    }
    Ok(rest)
}

// A test that no bytes follow.
fn end_at(bytes: &[u8]) -> Result<(), UnitRefusal>
    ensures { MatchResult result (λ _. end_at bytes.now ≡ Ok tt) (λ e. end_at bytes.now ≡ Err e) }
{
    match bytes {
        [] => Ok(()),
        _ => Err(UnitRefusal::Tail),
    }
}

// Load units that own their bytes.
ghost use Rattle.std.specs.Prelude.{◌≡◌, ◌≤◌, length, IfOk};
ghost use Rattle.model_play.specs.model_card.specs.Units.{object};
ghost use Rattle.model_play.specs.DeckGrammar.{made_unit};
ghost use Rattle.mc_unit.specs.Parts.{parts_of};
ghost use Rattle.mc_deck.specs.Lines.{owned_parts, NumberWithin};

use crate::bytes::Bytes;
use mc_unit::Unit;
use mc_words::Aid;
use std::alloc::{AllocError, Global};

/// A load unit that owns its bytes.
#[derive(Drop)]
pub struct OwnedUnit {
    pub number: Bytes,
    pub code: Bytes,
    pub init: Bytes,
    pub dir: Bytes,
    pub fci: Bytes,
    pub aid: Aid,
}

/// Returns a copy of a unit.
pub fn copied(alloc: Global, unit: &Unit<'_>) -> Result<OwnedUnit, AllocError>
    ensures { IfOk result (λ u. owned_parts u ≡ parts_of unit.now) }
{
    Ok(OwnedUnit {
        number: Bytes::copied(alloc, unit.number)?,
        code: Bytes::copied(alloc, unit.code)?,
        init: Bytes::copied(alloc, unit.init)?,
        dir: Bytes::copied(alloc, unit.dir)?,
        fci: Bytes::copied(alloc, unit.fci)?,
        aid: unit.aid,
    })
}

// Returns a record of a name: an object with the name in another object, each with a tag and a length of one
// byte.
fn record_of(alloc: Global, outer: u8, inner: u8, aid: &Aid) -> Result<Bytes, AllocError>
    ensures value { IfOk result (λ b. b ≡ object outer (object inner aid.now)) }
    ensures name { IfOk result (λ b. NumberWithin 5 16 (length aid.now)) }
{
    let name = aid.bytes();
    let len = name.len() as u8;
    let mut bytes = Vec::with_capacity(alloc, name.len() + 4)?;
    bytes.extend_from_slice(&[outer, len + 2, inner, len])?;
    bytes.extend_from_slice(name)?;
    Ok(Bytes::from_vec(bytes))
}

/// Returns the unit of a section: its code and its data, a card number of zeros, and the DIR and FCI records
/// of its name.
pub fn made(alloc: Global, aid: &Aid, code: Vec<u8>, init: Vec<u8>) -> Result<OwnedUnit, AllocError>
    ensures value { IfOk result (λ u. owned_parts u ≡ made_unit aid.now code.items init.items) }
    ensures name { IfOk result (λ u. NumberWithin 5 16 (length aid.now)) }
{
    Ok(OwnedUnit {
        number: Bytes::copied(alloc, &[0; 8])?,
        code: Bytes::from_vec(code),
        init: Bytes::from_vec(init),
        dir: record_of(alloc, 0x61, 0x4F, aid)?,
        fci: record_of(alloc, 0x6F, 0x84, aid)?,
        aid: *aid,
    })
}

/// Borrows the unit.
pub fn keeps_device(unit: &OwnedUnit) -> Unit<'_>
    ensures { parts_of result ≡ owned_parts unit.now }
{
    Unit {
        number: unit.number.as_slice(),
        code: unit.code.as_slice(),
        init: unit.init.as_slice(),
        dir: unit.dir.as_slice(),
        fci: unit.fci.as_slice(),
        aid: unit.aid,
    }
}

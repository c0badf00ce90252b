// What is known of bytes as a moment ends.
ghost use Rattle.std.specs.Prelude.{◌≡◌, ◌+◌, ◌-◌, true, [], ◌∷◌, map, IfOk, IfSome};
ghost use Rattle.model_device.specs.Bytes.{zeros};
ghost use Rattle.prove_facts.specs.model_prove.specs.Arrivals.{Setting};
ghost use Rattle.prove_facts.specs.model_prove.specs.Between as between;
ghost use Rattle.prove_facts.specs.model_prove.specs.Facts as known;
ghost use Rattle.prove_facts.specs.Sets.{set_of};
ghost use Rattle.prove_scenes.specs.Scenes.{IsSized};

use model_device::NoMemory;
use prove_facts::{Facts, Values};
use prove_keys::{DYNAMIC, PUBLIC};
use prove_scenes::Sizes;
use prove_spots::{know_all, only_values, with_part};
use std::alloc::Global;

/// The place of CLA in the public segment.
pub const HEADER: u16 = PUBLIC + 1028;

// Makes values those of the bytes from an address on, unless they go past the last address.
fn know_values(facts: &mut Facts, at: u16, list: &[Values]) -> Result<bool, NoMemory>
    ensures { IfOk result (λ there. there ≡ true → facts.new ≡ known.know_all at (map set_of list.now) facts.old) }
{
    if at as usize + list.len() > 65536 {
        return Ok(false);
    }
    know_all(facts, at, list)?;
    Ok(true)
}

/// Makes bytes those from an address on, unless they go past the last address; returns whether they do not.
///
/// # Errors
///
/// Returns `NoMemory` if it is out of memory.
pub fn know_bytes(alloc: Global, facts: &mut Facts, at: u16, bytes: &[u8]) -> Result<bool, NoMemory>
    ensures { IfOk result (λ there. there ≡ true → facts.new ≡ known.know_bytes at bytes.now facts.old) }
{
    let list = only_values(alloc, bytes)?;
    know_values(facts, at, list.as_slice())
}

/// Returns n zeros.
///
/// # Errors
///
/// Returns `NoMemory` if it is out of memory.
pub fn zero_bytes(alloc: Global, n: u16) -> Result<Vec<u8>, NoMemory>
    ensures { IfOk result (λ bytes. bytes.items ≡ zeros n) }
{
    Ok(vec![in alloc; 0; n as usize]?)
}

// Makes the session bytes zeros; returns whether they do not go past the last address.
fn know_session(alloc: Global, facts: &mut Facts, session: u16) -> Result<bool, NoMemory>
    ensures { IfOk result (λ there. there ≡ true → facts.new ≡ known.know_bytes 0x8000 (zeros session) facts.old) }
{
    let bytes = zero_bytes(alloc, session)?;
    know_bytes(alloc, facts, DYNAMIC, bytes.as_slice())
}

/// Returns the facts of the static bytes, with session bytes that are zero.
///
/// # Errors
///
/// Returns `NoMemory` if it is out of memory.
pub fn with_zero_session(
    alloc: Global,
    sizes: &Sizes,
    facts: &Facts,
) -> Result<Option<Facts>, NoMemory>
    ensures { IfOk result (λ r. IfSome r (λ zeroed. (s : Setting) → IsSized s.app sizes.now
        → zeroed ≡ between.with_zero_session s facts.now)) }
{
    let mut zeroed = facts.part(alloc, 0, sizes.fixed as u32)?;
    if know_session(alloc, &mut zeroed, sizes.session)? {
        return Ok(Some(zeroed));
    }
    Ok(None)
}

/// Returns the facts of the static and session bytes alone.
///
/// # Errors
///
/// Returns `NoMemory` if it is out of memory.
pub fn own_facts(alloc: Global, sizes: &Sizes, facts: &Facts) -> Result<Option<Facts>, NoMemory>
    ensures { IfOk result (λ r. IfSome r (λ own. (s : Setting) → IsSized s.app sizes.now
        → own ≡ between.own_facts s facts.now)) }
{
    let fixed = facts.part(alloc, 0, sizes.fixed as u32)?;
    let end = DYNAMIC as u32 + sizes.session as u32;
    with_part(alloc, &fixed, facts, DYNAMIC, end)
}

// The values of the high byte of Lc.
fn high_lc() -> Values
    ensures { set_of result ≡ 0 ∷ 1 ∷ 2 ∷ 3 ∷ 4 ∷ [] }
{
    Values::below(5)
}

// Makes the four bytes before CLA zeros, and those from CLA on a header.
fn know_header(alloc: Global, facts: &mut Facts, header: &[Values]) -> Result<bool, NoMemory>
    ensures { IfOk result (λ there. there ≡ true → facts.new
        ≡ known.know_bytes (between.header_at - 4) (zeros 4)
        (known.know_all between.header_at (map set_of header.now) facts.old)) }
{
    if !know_values(facts, HEADER, header)? {
        return Ok(false);
    }
    know_bytes(alloc, facts, HEADER - 4, &[0, 0, 0, 0])
}

// Makes La 0000 and SW 9000, and the high byte of Lc at most 4.
fn know_lengths(alloc: Global, facts: &mut Facts) -> Result<bool, NoMemory>
    ensures { IfOk result (λ there. there ≡ true → facts.new
        ≡ known.know (between.header_at + 5) (0 ∷ 1 ∷ 2 ∷ 3 ∷ 4 ∷ [])
        (known.know_bytes (between.header_at + 9) (0 ∷ 0 ∷ 0x90 ∷ 0 ∷ []) facts.old)) }
{
    if !know_bytes(alloc, facts, HEADER + 9, &[0, 0, 0x90, 0])? {
        return Ok(false);
    }
    facts.set(HEADER + 5, high_lc())?;
    Ok(true)
}

/// Makes known what the public bytes of a command are whose header has these values; returns whether they do not go
/// past the last address.
///
/// # Errors
///
/// Returns `NoMemory` if it is out of memory.
pub fn know_command(alloc: Global, facts: &mut Facts, header: &[Values]) -> Result<bool, NoMemory>
    ensures { IfOk result (λ there. there ≡ true
        → facts.new ≡ between.public_facts (map set_of header.now) facts.old) }
{
    if !know_lengths(alloc, facts)? {
        return Ok(false);
    }
    know_header(alloc, facts, header)
}

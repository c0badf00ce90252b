ghost use Rattle.std.specs.Prelude.{◌≡◌, ◌≤◌, ◌<◌, ◌++◌, ℕ, List, length, Ok, IsOk, IfOk, OnOk};
ghost use Rattle.model_card.specs.model_device.specs.Limits.{most_code};
ghost use Rattle.model_card.specs.model_device.specs.Bytes.{zeros};
ghost use Rattle.model_card.specs.Units.{field, name_of, unit_bytes, unit_read, FitsUnit};

use mc_words::NoMemory;
use std::alloc::Global;

/// Returns the bytes of a load unit with these fields: code, the first bytes of the static segment, DIR and
/// FCI. They are within the limits of `read_unit`, and the DIR record has a name. The card number is zero,
/// and signature and key transformation unit are empty.
///
/// # Errors
///
/// Returns `NoMemory` if out of memory.
#[tactic(auto, using(crate::proofs::Reading::is_written))]
pub fn write_unit(
    alloc: Global,
    code: &[u8],
    init: &[u8],
    dir: &[u8],
    fci: &[u8],
) -> Result<Vec<u8>, NoMemory>
    requires limits { FitsUnit code.now init.now dir.now fci.now }
    requires name { IsOk (name_of dir.now) }
    ensures bytes { IfOk result (λ v. v.items ≡ unit_bytes code.now init.now dir.now fci.now) }
    // It is read back with the same fields.
    ensures again { IfOk result (λ v. (aid : List ℕ) → name_of dir.now ≡ Ok aid
        → unit_read v.items
        ≡ Ok (record { number = zeros 8; code = code.now; init = init.now; dir = dir.now; fci = fci.now; aid = aid })) }
{
    write_fields(alloc, code, init, dir, fci)
}

// A card number of zeros, the four fields, and no signature and key.
fn write_fields(
    alloc: Global,
    code: &[u8],
    init: &[u8],
    dir: &[u8],
    fci: &[u8],
) -> Result<Vec<u8>, NoMemory>
    requires { FitsUnit code.now init.now dir.now fci.now }
    ensures { IfOk result (λ v. v.items ≡ unit_bytes code.now init.now dir.now fci.now) }
{
    let len = 20 + code.len() + init.len() + dir.len() + fci.len();
    let mut out = Vec::with_capacity(alloc, len)?;
    out.extend_from_slice(&[0; 8])?;
    push_field(&mut out, code)?;
    push_field(&mut out, init)?;
    push_field(&mut out, dir)?;
    push_field(&mut out, fci)?;
    out.extend_from_slice(&[0; 4])?;
    Ok(out)
}

// A two-byte length, and the bytes.
fn push_field(out: &mut Vec<u8>, bytes: &[u8]) -> Result<(), NoMemory>
    requires { length bytes.now ≤ most_code }
    ensures { OnOk result (out.new.items ≡ out.old.items ++ field bytes.now) }
{
    let len = bytes.len() as u16;
    out.extend_from_slice(&len.to_be_bytes())?;
    out.extend_from_slice(bytes)?;
    Ok(())
}

// Facts of two lists, parted by an address.
ghost use Rattle.std.specs.Prelude.{◌≡◌, ◌++◌, true, IfOk, IfSome};
ghost use Rattle.prove_facts.specs.model_prove.specs.Facts.{within};

use model_device::NoMemory;
use prove_facts::Facts;
use std::alloc::Global;

// Whether all facts are of addresses below one.
fn are_below(facts: &Facts, end: u16) -> bool
    ensures { result ≡ true → within 0 end facts.now ≡ facts.now }
{
    match facts.list() {
        [.., last] => last.at < end,
        [] => true,
    }
}

/// Returns facts with those of others from one address to below another after them, unless one of them is of the first
/// address or above it.
///
/// # Errors
///
/// Returns `NoMemory` if it is out of memory.
pub fn with_part(
    alloc: Global,
    facts: &Facts,
    more: &Facts,
    from: u16,
    to: u32,
) -> Result<Option<Facts>, NoMemory>
    ensures { IfOk result (λ found. IfSome found (λ both. both ≡ facts.now ++ within from to more.now)) }
{
    if !are_below(facts, from) {
        return Ok(None);
    }
    let mut both = facts.copied(alloc)?;
    both.append_part(more, from as u32, to)?;
    Ok(Some(both))
}

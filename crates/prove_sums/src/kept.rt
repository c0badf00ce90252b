// Loaded blocks of which some are kept.
ghost use Rattle.std.specs.Prelude.{◌≡◌, ◌+◌, nat_le, List, filter, IfOk};
ghost use Rattle.prove_forms.specs.model_sums.specs.Sums as sums;
ghost use Rattle.prove_sums.specs.Kept.{if_kept, is_kept};
ghost use Rattle.prove_sums.specs.Values.{MoreIs, MoresAre, if_any};

use crate::values::{More, add_any};
use model_device::NoMemory;
use prove_keys::PUBLIC;
use prove_scenes::Scene;
use prove_works::{Reach, some_reached};
use std::alloc::Global;

/// Which loaded blocks are kept: those below an address, those without public bytes, or those of which no byte is
/// reached by an access.
#[derive(Clone, Copy)]
pub enum Kept<'a> {
    Below(u16),
    NotPublic,
    NotReached(&'a Scene, u16, &'a Reach),
}

// Whether n bytes at an address end at another or before it.
fn is_under(at: u16, n: u16, end: u16) -> bool
    ensures { result ≡ nat_le (at + n) end }
{
    at as u32 + n as u32 <= end as u32
}

// Whether a loaded block is kept.
fn is_kept(kept: &Kept<'_>, more: &More) -> bool
    ensures { (r : sums.More) → MoreIs more.now r → result ≡ is_kept kept.now r }
{
    match *kept {
        Kept::Below(dt) => is_under(more.at, more.n, dt),
        Kept::NotPublic => is_under(more.at, more.n, PUBLIC) && is_under(more.from, more.n, PUBLIC),
        Kept::NotReached(scene, dt, reach) => {
            !some_reached(scene, dt, reach, more.at, more.n)
                && !some_reached(scene, dt, reach, more.from, more.n)
        }
    }
}

// A copy of a loaded block, if it is kept.
fn copied_kept(alloc: Global, kept: &Kept<'_>, more: &More) -> Result<Option<More>, NoMemory>
    ensures { IfOk result (λ copy. (r : sums.More) → MoreIs more.now r
        → MoresAre (if_any copy) (if_kept kept.now r)) }
{
    if !is_kept(kept, more) {
        return Ok(None);
    }
    Ok(Some(more.copied(alloc)?))
}

/// Returns the loaded blocks that are kept.
///
/// # Errors
///
/// Returns `NoMemory` if it is out of memory.
pub fn kept_mores(alloc: Global, mores: &[More], kept: &Kept<'_>) -> Result<Vec<More>, NoMemory>
    ensures { IfOk result (λ left. (rs : List sums.More) → MoresAre mores.now rs
        → MoresAre left.items (filter (is_kept kept.now) rs)) }
{
    let mut left = Vec::new(alloc);
    for more in mores {
        let copy = copied_kept(alloc, kept, more)?;
        add_any(&mut left, copy)?;
    }
    Ok(left)
}

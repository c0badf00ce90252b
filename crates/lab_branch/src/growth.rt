// Lists that grow.
ghost use Rattle.std.specs.Prelude.{◌≡◌, ◌++◌, ◌∷◌, ◌≤◌, [], vec_capacity, vec_len, OnErr, OnOk};

use mc_words::NoMemory;

/// Appends a value to a list.
///
/// # Errors
///
/// Returns `NoMemory` if it is out of memory. It takes none if the list has room.
pub fn push<T: Drop>(list: &mut Vec<T>, value: T) -> Result<(), NoMemory>
    ensures items { OnOk result (list.new.items ≡ list.old.items ++ value ∷ []) }
    ensures memory { OnErr result (vec_capacity list.old ≤ vec_len list.old) }
{
    match list.push(value) {
        Ok(()) => Ok(()),
        Err(_) => Err(NoMemory),
    }
}

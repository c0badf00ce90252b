// Lists that grow.
ghost use Rattle.std.specs.Prelude.{◌≡◌, [], ◌∷◌, ◌++◌, OnOk};

use model_device::NoMemory;

/// Appends a value to a list.
///
/// # Errors
///
/// Returns `NoMemory` if it is out of memory.
pub fn push<T: Drop>(list: &mut Vec<T>, value: T) -> Result<(), NoMemory>
    ensures { OnOk result (list.new.items ≡ list.old.items ++ value ∷ []) }
{
    match list.push(value) {
        Ok(()) => Ok(()),
        Err(_) => Err(NoMemory),
    }
}

/// Puts a value before a list.
///
/// # Errors
///
/// Returns `NoMemory` if it is out of memory.
pub fn prepend<T: Drop>(list: &mut Vec<T>, value: T) -> Result<(), NoMemory>
    ensures { OnOk result (list.new.items ≡ value ∷ list.old.items) }
{
    match list.insert(0, value) {
        Ok(()) => Ok(()),
        Err(_) => Err(NoMemory),
    }
}

// The number that bytes of known origins are.
ghost use Rattle.std.specs.Prelude.{◌≡◌, Option, Some, None, IfOk};
ghost use Rattle.model_sums.specs.Origins as origins;
ghost use Rattle.prove_forms.specs.Forms.{OptionalIs};
ghost use Rattle.prove_forms.specs.Origins.{origin_value, origin_values};

use crate::forms::Form;
use crate::origins::Origin;
use model_device::NoMemory;
use std::alloc::Global;

// Returns the number that a byte is, if its origin is known.
fn form_of_byte(alloc: Global, origin: Origin) -> Result<Option<Form>, NoMemory>
    ensures { IfOk result (λ form. OptionalIs form (origins.form_of_byte (origin_value origin))) }
{
    match origin {
        Origin::Unknown => Ok(None),
        Origin::Constant(value) => Ok(Some(Form::number(alloc, value as u128))),
        Origin::Public(at) => Ok(Some(Form::public_byte(alloc, at)?)),
    }
}

/// Returns the number that bytes of these origins are, the highest first, or `None` if one of them is not known.
///
/// # Errors
///
/// Returns `NoMemory` if it is out of memory.
pub fn form_of(alloc: Global, bytes: &[Origin]) -> Result<Option<Form>, NoMemory>
    ensures { IfOk result (λ form. OptionalIs form (origins.form_of (origin_values bytes.now))) }
{
    let mut form = Form::number(alloc, 0);
    let mut power: u128 = 1;
    let mut left = bytes.len();
    while left > 0 {
        left -= 1;
        let Some(byte) = form_of_byte(alloc, bytes[left])? else {
            return Ok(None);
        };
        form = byte.multiple(alloc, power)?.plus(alloc, &form)?;
        power = power.wrapping_mul(256);
    }
    Ok(Some(form))
}

// Forms, if they are known.
ghost use Rattle.std.specs.Prelude.{Option, IfOk};
ghost use Rattle.prove_forms.specs.model_sums.specs.Forms as forms;
ghost use Rattle.prove_forms.specs.model_sums.specs.Writes as writes;
ghost use Rattle.prove_forms.specs.Forms.{OptionalIs};

use model_device::NoMemory;
use prove_forms::Form;
use std::alloc::Global;

// Copies a form, if it is known.
pub fn copied_if(alloc: Global, form: &Option<Form>) -> Result<Option<Form>, NoMemory>
    ensures { IfOk result (λ copy. (f : Option forms.Form) → OptionalIs form.now f → OptionalIs copy f) }
{
    match form {
        Some(form) => Ok(Some(form.copied(alloc)?)),
        None => Ok(None),
    }
}

// The sum of two forms, if both are known.
pub fn plus_if(
    alloc: Global,
    form: &Option<Form>,
    by: &Option<Form>,
) -> Result<Option<Form>, NoMemory>
    ensures { IfOk result (λ sum. (f g : Option forms.Form) → OptionalIs form.now f → OptionalIs by.now g
        → OptionalIs sum (writes.plus_if f g)) }
{
    match (form, by) {
        (Some(form), Some(by)) => Ok(Some(form.plus(alloc, by)?)),
        _ => Ok(None),
    }
}

// Minus a form, if it is known.
pub fn negative_if(alloc: Global, n: u16, form: &Option<Form>) -> Result<Option<Form>, NoMemory>
    ensures { IfOk result (λ less. (f : Option forms.Form) → OptionalIs form.now f
        → OptionalIs less (writes.negative_if n f)) }
{
    match form {
        Some(form) => Ok(Some(form.negative(alloc, n)?)),
        None => Ok(None),
    }
}

// Numbers in bytes.
ghost use Rattle.std.specs.Prelude.{◌≡◌, ◌%◌, ◌^◌};
ghost use Rattle.model_device.specs.Bytes.{num};
ghost use Rattle.prove_forms.specs.model_sums.specs.Forms as forms;
ghost use Rattle.prove_forms.specs.Forms.{FormIs};

use prove_forms::Form;
use std::alloc::Global;

// The number that bytes are, modulo 256 ^ 16.
fn low_number(bytes: &[u8]) -> u128
    ensures { result ≡ num bytes.now % 256 ^ 16 }
{
    let mut number: u128 = 0;
    for byte in bytes {
        number = number.wrapping_mul(256).wrapping_add(*byte as u128);
    }
    number
}

/// Returns the number that bytes are as a form.
pub fn number_form(alloc: Global, bytes: &[u8]) -> Form
    ensures { FormIs result (forms.number (num bytes.now)) }
{
    Form {
        constant: low_number(bytes),
        terms: Vec::new(alloc),
        exact: bytes.len() <= 16,
    }
}

// The listing of code.
ghost use Rattle.std.specs.Prelude.{◌≡◌, ◌≤◌, ◌++◌, length, codes, Ok, IfOk, IfErr, OnOk};
ghost use Rattle.model_text.specs.model_device.specs.Limits.{most_code};
ghost use Rattle.model_text.specs.Listing.{listing_of_code, text_of};
ghost use Rattle.model_text.specs.model_machine.specs.Code.{Shaped};
ghost use Rattle.model_text.specs.Assembly.{assembly_of};
ghost use Rattle.mc_asm.specs.Refusals.{RefusesListing};

use crate::refusal::ListRefusal;
use mc_isa::{decode, text_of};
use model_text::model_machine::Ins;
use std::alloc::{AllocError, Global};

// Appends the line of an instruction to a text.
fn put_line(text: &mut Vec<u8>, ins: &Ins) -> Result<(), AllocError>
    requires { Shaped ins.now }
    ensures { OnOk result (text.new.items ≡ text.old.items ++ text_of ins.now ++ codes "\n") }
{
    text.extend_from_slice(text_of(ins).as_slice())?;
    text.extend_from_slice(b"\n")
}

// The listing of code.
fn listing_of(alloc: Global, code: &[u8]) -> Result<Vec<u8>, ListRefusal>
    requires { length code.now ≤ most_code }
    ensures text { IfOk result (λ v. listing_of_code code.now ≡ Ok v.items) }
    ensures refused { IfErr result (λ e. RefusesListing (listing_of_code code.now) e) }
{
    let mut text = Vec::new(alloc);
    let mut place = 0;
    while (place as usize) < code.len() {
        match decode(code, place) {
            Err(fault) => return Err(ListRefusal::At(place, fault)),
            Ok((ins, next)) => {
                put_line(&mut text, &ins)?;
                place = next;
            }
        }
    }
    Ok(text)
}

/// Returns the listing of code of at most 8,192 bytes: a line for each instruction, from place 0 on, with a
/// line feed after it. The line is the word, and after a blank its operands with commas between them: bytes,
/// lengths, offsets and displacements in decimal, words and addresses of code as `0x` and four hexadecimal
/// digits.
///
/// # Errors
///
/// Returns `At` with the first place at which no instruction is decoded, and why. Returns `NoMemory` if out
/// of memory.
pub fn list(alloc: Global, code: &[u8]) -> Result<Vec<u8>, ListRefusal>
    requires { length code.now ≤ most_code }
    ensures text { IfOk result (λ v. listing_of_code code.now ≡ Ok v.items) }
    ensures refused { IfErr result (λ e. RefusesListing (listing_of_code code.now) e) }
    // The listing assembles to the code.
    ensures again { IfOk result (λ v. assembly_of v.items ≡ Ok code.now) }
{
    listing_of(alloc, code)
}

// The listing of code, in a text that has room for it.
ghost use Rattle.std.specs.Prelude.{◌≡◌, ◌+◌, ◌*◌, ◌≤◌, ◌++◌, length, codes, Ok, Err, IfErr, MatchResult, OnOk, vec_len, vec_capacity};
ghost use Rattle.mc_base.specs.mc_words.specs.model_device.specs.Limits.{most_code};
ghost use Rattle.mc_text.specs.model_text.specs.Assembly.{assembly_of};
ghost use Rattle.mc_text.specs.model_text.specs.Listing.{listing_of_code, text_of};
ghost use Rattle.mc_text.specs.model_machine.specs.Code.{Shaped};

use mc_filter::append;
use mc_isa::{DecodeFault, Ins, decode, text_of};

/// The most bytes of a line of a listing, with its line feed.
pub const LONGEST_LINE: usize = 41;

// Appends the line of an instruction.
fn put_line(text: &mut Vec<u8>, ins: &Ins)
    requires shaped { Shaped ins.now }
    requires room { vec_len text.old + LONGEST_LINE ≤ vec_capacity text.old }
    ensures text { text.new.items ≡ text.old.items ++ text_of ins.now ++ codes "\n" }
    ensures len { vec_len text.new ≤ vec_len text.old + LONGEST_LINE }
    ensures room { vec_capacity text.old ≤ vec_capacity text.new }
{
    append(text, text_of(ins).as_slice());
    append(text, b"\n");
}

/// Writes the listing of code, as [`mc_asm::list`], into an empty text that has room for a line for each byte. It takes
/// no memory.
///
/// # Errors
///
/// Returns the first place at which no instruction is decoded, and why.
pub fn list_within(text: &mut Vec<u8>, code: &[u8]) -> Result<(), (u16, DecodeFault)>
    requires code { length code.now ≤ most_code }
    requires empty { vec_len text.old ≡ 0 }
    requires room { LONGEST_LINE * length code.now ≤ vec_capacity text.old }
    ensures text { OnOk result (listing_of_code code.now ≡ Ok text.new.items) }
    ensures refused { IfErr result (λ e. listing_of_code code.now ≡ Err e) }
    ensures room { vec_capacity text.old ≤ vec_capacity text.new }
{
    let mut place = 0;
    while (place as usize) < code.len() {
        match decode(code, place) {
            Err(fault) => return Err((place, fault)),
            Ok((ins, next)) => {
                put_line(text, &ins);
                place = next;
            }
        }
    }
    Ok(())
}

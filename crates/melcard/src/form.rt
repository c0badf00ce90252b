// The texts that are made from an input.
ghost use Rattle.std.specs.Prelude.{◌≡◌, ◌≢◌, ◌*◌, ◌≤◌, length, Ok, IfErr, MatchResult, vec_len, vec_capacity};
ghost use Rattle.mc_base.specs.mc_words.specs.model_device.specs.Limits.{most_code};
ghost use Rattle.mc_text.specs.model_text.specs.Assembly.{assembly_of};
ghost use Rattle.mc_deck.specs.model_play.specs.DeckGrammar.{deck_read};
ghost use Rattle.mc_text.specs.model_text.specs.Listing.{listing_of_code};
ghost use Rattle.mc_text.specs.model_text.specs.Text.{code_text_read};
ghost use Rattle.mc_filter.specs.Inputs.{input_limit};
ghost use Rattle.melcard.specs.Verdicts.{of_assembly, of_code, of_listing, IsCheckOf, IsTextOf, Whole};
ghost use Rattle.melcard.specs.Judging.{RejectsAs};
ghost use Rattle.melcard.specs.Rooms.{HasRoom};
ghost use Rattle.mc_filter.specs.declared.rejection.Rejection.TheVariants.{NoMemory};
ghost use Rattle.melcard.specs.declared.job.Form.TheVariants.{Listing};

use crate::checking::verdicts_of;
use crate::code::{CodeRefusal, read_code};
use crate::job::Form;
use crate::listing::list_within;
use crate::room::Room;
use crate::text::hex_line;
use mc_asm::{AsmRefusal, assemble};
use mc_filter::{Rejection, deck_of, refusal_line, refused, too_long_line};
use std::alloc::Global;

// The code of an assembly text.
fn assembled(alloc: Global, text: &[u8]) -> Result<Vec<u8>, Rejection>
    ensures { MatchResult result (λ t. Whole t.items
        ≡ of_assembly (assembly_of text.now)) (RejectsAs (λ v. v ≡ of_assembly (assembly_of text.now))) }
{
    match assemble(alloc, text) {
        Ok(code) => Ok(hex_line(alloc, code.as_slice())?),
        Err(AsmRefusal::At(line, cause)) => Err(refused(alloc, "line", line, cause.word())),
        Err(AsmRefusal::NoMemory) => Err(Rejection::NoMemory),
    }
}

// The listing of code, in a text that has room for it.
#[tactic(auto, using(crate::proofs::CodeLemmas::short_word))]
fn listed(room: Vec<u8>, code: &[u8]) -> Result<Vec<u8>, Rejection>
    requires code { length code.now ≤ most_code }
    requires empty { vec_len room ≡ 0 }
    requires room { 41 * most_code ≤ vec_capacity room }
    ensures text { MatchResult result (λ t. Whole t.items
        ≡ of_listing (listing_of_code code.now)) (RejectsAs (λ v. v ≡ of_listing (listing_of_code code.now))) }
    ensures memory { IfErr result (λ e. e ≢ NoMemory) }
{
    let mut text = room;
    match list_within(&mut text, code) {
        Ok(()) => Ok(text),
        Err((place, fault)) => {
            let line = refusal_line(text, "place", place as u32, fault.word());
            Err(Rejection::Refusal(line))
        }
    }
}

// The listing of code given as hexadecimal digits, in memory that has room for it.
fn read_and_listed(room: Room, text: &[u8]) -> Result<Vec<u8>, Rejection>
    requires input { length text.now ≤ input_limit }
    requires room { HasRoom room }
    ensures text { MatchResult result (λ t. Whole t.items
        ≡ of_code (code_text_read text.now)) (RejectsAs (λ v. v ≡ of_code (code_text_read text.now))) }
    ensures memory { IfErr result (λ e. e ≢ NoMemory) }
{
    match read_code(room.digits, room.code, text) {
        Ok(code) => listed(room.text, code.as_slice()),
        Err(CodeRefusal::BadHex(line)) => {
            let line = refusal_line(room.text, "line", line, "BadHex");
            Err(Rejection::Refusal(line))
        }
        Err(CodeRefusal::TooLarge) => Err(Rejection::Refusal(too_long_line(room.text))),
    }
}

// The stack checker's verdicts on the code of a deck.
fn checked(alloc: Global, text: &[u8]) -> Result<Vec<u8>, Rejection>
    ensures { MatchResult result (λ t. IsCheckOf (deck_read text.now) (Whole t.items))
        (RejectsAs (IsCheckOf (deck_read text.now))) }
{
    let deck = deck_of(alloc, text)?;
    Ok(verdicts_of(alloc, &deck)?)
}

/// Returns the text due for an input within the limit, in memory that was taken for it.
///
/// # Errors
///
/// Returns the line that refuses the input, or `NoMemory` if it is out of memory, which a listing is not.
pub fn text_of(alloc: Global, form: Form, room: Room, input: &[u8]) -> Result<Vec<u8>, Rejection>
    requires input { length input.now ≤ input_limit }
    requires room { form ≡ Listing → HasRoom room }
    ensures text { MatchResult result (λ t. IsTextOf form input.now (Whole t.items))
        (RejectsAs (IsTextOf form input.now)) }
    ensures memory { form ≡ Listing → IfErr result (λ e. e ≢ NoMemory) }
{
    match form {
        Form::Code => assembled(alloc, input),
        Form::Listing => read_and_listed(room, input),
        Form::Verdicts => checked(alloc, input),
    }
}

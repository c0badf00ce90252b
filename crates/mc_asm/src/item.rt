// The item of a word with its operands.
ghost use Rattle.std.specs.Prelude.{◌≡◌, ◌+◌, ◌<◌, ◌≤◌, ℕ, [], ◌∷◌, length, map, option_map, take, Some, None, Ok, Err, IfOk, Result};
ghost use Rattle.std.specs.List.{AllByRecursion};
ghost use Rattle.model_text.specs.model_machine.specs.Code.{Shaped};
ghost use Rattle.model_text.specs.Text.{ok_as};
ghost use Rattle.model_text.specs.Assembly.{byte, both, item_of_word, Bare, OfByte, OfBytes, OfWord, OfWords, RawByte, ByDistance, ByPlace, Primitive, Addressed, AddressedByte, AddressedWord, Plain};
ghost use Rattle.model_text.specs.model_machine.specs.declared.instruction.Ins.TheVariants.{Branch, Retio, Prim, Loada};
ghost use Rattle.mc_asm.specs.Forms.{form_of, of_byte, of_word, of_words, by_place, addressed_byte, addressed_word, BareShaped};
ghost use Rattle.mc_asm.specs.Parts.{pair_of};
ghost use Rattle.mc_asm.specs.Items.{item_of, texts, Ready};

use crate::number::{byte, displacement, word};
use crate::operand::{address, both, condition, is_label};
use crate::words::{
    AddressedByteWord, AddressedWordWord, ByteWord, Form, PlaceWord, WordWord, WordsWord,
};
use model_text::AsmCause;
use model_text::model_machine::Ins;

/// The item of a line, from which its code is made.
#[derive(Clone, Copy)]
pub enum Item<'a> {
    /// A line without a word.
    Nothing,
    /// A byte that is no instruction.
    Raw(u8),
    Plain(Ins),
    /// A jump or call on a condition, to the place of a label.
    ToPlace(PlaceWord, u8, &'a [u8]),
    /// A branch on a condition, by the distance to a label.
    ToDistance(u8, &'a [u8]),
}

// An instruction without operands.
fn bare(ins: Ins, operands: &[&[u8]]) -> Result<Ins, AsmCause>
    requires { Shaped ins }
    ensures value { ok_as (λ i. Plain i) result ≡ item_of_word (Bare ins) (texts operands.now) }
    ensures shaped { IfOk result Shaped }
{
    match operands {
        [] => Ok(ins),
        _ => Err(AsmCause::BadOperands),
    }
}

// An instruction with one byte.
fn with_byte(name: ByteWord, operands: &[&[u8]]) -> Result<Ins, AsmCause>
    ensures value { ok_as (λ i. Plain i) result ≡ item_of_word (OfByte (of_byte name)) (texts operands.now) }
    ensures shaped { IfOk result Shaped }
{
    match operands {
        [n] => Ok(name.with(byte(n)?)),
        _ => Err(AsmCause::BadOperands),
    }
}

// The return with two bytes.
fn with_bytes(operands: &[&[u8]]) -> Result<Ins, AsmCause>
    ensures value { ok_as (λ i. Plain i) result ≡ item_of_word (OfBytes Retio) (texts operands.now) }
    ensures shaped { IfOk result Shaped }
{
    match operands {
        [i, o] => {
            let (i, o) = both(byte(i), byte(o))?;
            Ok(Ins::Retio { i, o })
        }
        _ => Err(AsmCause::BadOperands),
    }
}

// An instruction with one word.
fn with_word(name: WordWord, operands: &[&[u8]]) -> Result<Ins, AsmCause>
    ensures value { ok_as (λ i. Plain i) result ≡ item_of_word (OfWord (of_word name)) (texts operands.now) }
    ensures shaped { IfOk result Shaped }
{
    match operands {
        [w] => Ok(name.with(word(w)?)),
        _ => Err(AsmCause::BadOperands),
    }
}

// An instruction with two words.
fn with_words(name: WordsWord, operands: &[&[u8]]) -> Result<Ins, AsmCause>
    ensures value { ok_as (λ i. Plain i) result ≡ item_of_word (OfWords (of_words name)) (texts operands.now) }
    ensures shaped { IfOk result Shaped }
{
    match operands {
        [v, w] => {
            let (sw, la) = both(word(v), word(w))?;
            Ok(name.with(sw, la))
        }
        _ => Err(AsmCause::BadOperands),
    }
}

// A byte that is no instruction.
fn raw<'a>(operands: &[&'a [u8]]) -> Result<Item<'a>, AsmCause>
    ensures { ok_as item_of result ≡ item_of_word RawByte (texts operands.now) }
{
    match operands {
        [n] => Ok(Item::Raw(byte(n)?)),
        _ => Err(AsmCause::BadOperands),
    }
}

// A branch on a condition, to a label or by a displacement.
fn branch_to<'a>(cond: &[u8], target: &'a [u8]) -> Result<Item<'a>, AsmCause>
    ensures value { ok_as item_of result ≡ item_of_word (ByDistance Branch) (cond.now ∷ target.now ∷ []) }
    ensures ready { IfOk result Ready }
{
    if is_label(target) {
        return Ok(Item::ToDistance(condition(cond)?, target));
    }
    let (cond, d) = both(condition(cond), displacement(target))?;
    Ok(Item::Plain(Ins::Branch { cond, d }))
}

// The two operands of a word, if it has two.
fn two<'a>(operands: &[&'a [u8]]) -> Option<(&'a [u8], &'a [u8])>
    ensures { option_map (λ p. (p.0.now, p.1.now)) result ≡ pair_of (texts operands.now) }
{
    match operands {
        [first, second] => Some((first, second)),
        _ => None,
    }
}

// A branch.
#[tactic(auto, using(crate::proofs::ItemLemmas::distance_of_pair))]
fn branch<'a>(operands: &[&'a [u8]]) -> Result<Item<'a>, AsmCause>
    ensures value { ok_as item_of result ≡ item_of_word (ByDistance Branch) (texts operands.now) }
    ensures ready { IfOk result Ready }
{
    match two(operands) {
        Some((cond, target)) => branch_to(cond, target),
        None => Err(AsmCause::BadOperands),
    }
}

// A jump or call on a condition, to a label or an address.
fn transfer_to<'a>(name: PlaceWord, cond: &[u8], target: &'a [u8]) -> Result<Item<'a>, AsmCause>
    ensures value { ok_as item_of result ≡ item_of_word (ByPlace (by_place name)) (cond.now ∷ target.now ∷ []) }
    ensures ready { IfOk result Ready }
{
    if is_label(target) {
        return Ok(Item::ToPlace(name, condition(cond)?, target));
    }
    let (cond, to) = both(condition(cond), word(target))?;
    Ok(Item::Plain(name.with(cond, to)))
}

// A jump or call, to the address on the stack if it has no operand.
#[tactic(auto, using(crate::proofs::ItemLemmas::place_of_pair))]
fn transfer<'a>(name: PlaceWord, operands: &[&'a [u8]]) -> Result<Item<'a>, AsmCause>
    ensures value { ok_as item_of result ≡ item_of_word (ByPlace (by_place name)) (texts operands.now) }
    ensures ready { IfOk result Ready }
{
    if operands.is_empty() {
        return Ok(Item::Plain(name.with(0, 0)));
    }
    match two(operands) {
        Some((cond, target)) => transfer_to(name, cond, target),
        None => Err(AsmCause::BadOperands),
    }
}

// Two operands of one byte.
fn two_bytes(a: &[u8], b: &[u8]) -> Result<(u8, u8), AsmCause>
    ensures { result ≡ both (byte a.now) (byte b.now) }
{
    both(byte(a), byte(b))
}

// Three operands of one byte.
fn three_bytes(a: &[u8], b: &[u8], c: &[u8]) -> Result<(u8, (u8, u8)), AsmCause>
    ensures { result ≡ both (byte a.now) (both (byte b.now) (byte c.now)) }
{
    both(byte(a), two_bytes(b, c))
}

// A primitive with two arguments.
#[tactic(auto, using(crate::proofs::ItemLemmas::primitive_three))]
fn with_two_arguments(number: &[u8], a: &[u8], b: &[u8]) -> Result<Ins, AsmCause>
    ensures value { ok_as (λ i. Plain i) result ≡ item_of_word Primitive (number.now ∷ a.now ∷ b.now ∷ []) }
    ensures shaped { IfOk result Shaped }
{
    let (number, (a, b)) = both(byte(number), two_bytes(a, b))?;
    Ok(Ins::Prim {
        set: 2,
        number,
        args: [a, b, 0],
    })
}

// A primitive with three arguments.
#[tactic(auto, using(crate::proofs::ItemLemmas::primitive_four))]
fn with_three_arguments(number: &[u8], a: &[u8], b: &[u8], c: &[u8]) -> Result<Ins, AsmCause>
    ensures value { ok_as (λ i. Plain i) result ≡ item_of_word Primitive (number.now ∷ a.now ∷ b.now ∷ c.now ∷ []) }
    ensures shaped { IfOk result Shaped }
{
    let (number, (a, (b, c))) = both(byte(number), three_bytes(a, b, c))?;
    Ok(Ins::Prim {
        set: 3,
        number,
        args: [a, b, c],
    })
}

// A primitive's number and up to three arguments.
#[tactic(auto, using(crate::proofs::ItemLemmas::primitive_two, crate::proofs::ItemLemmas::no_primitive))]
fn primitive(operands: &[&[u8]]) -> Result<Ins, AsmCause>
    ensures value { ok_as (λ i. Plain i) result ≡ item_of_word Primitive (texts operands.now) }
    ensures shaped { IfOk result Shaped }
{
    match operands {
        [number] => Ok(Ins::Prim {
            set: 0,
            number: byte(number)?,
            args: [0, 0, 0],
        }),
        [number, a] => {
            let (number, a) = both(byte(number), byte(a))?;
            Ok(Ins::Prim {
                set: 1,
                number,
                args: [a, 0, 0],
            })
        }
        [number, a, b] => with_two_arguments(number, a, b),
        [number, a, b, c] => with_three_arguments(number, a, b, c),
        _ => Err(AsmCause::BadOperands),
    }
}

// An address alone, or nothing for the top of the stack.
fn addressed(operands: &[&[u8]]) -> Result<Ins, AsmCause>
    ensures value { ok_as (λ i. Plain i) result ≡ item_of_word (Addressed Loada) (texts operands.now) }
    ensures shaped { IfOk result Shaped }
{
    match operands {
        [] => Ok(Ins::Loada { tag: 0, off: 0 }),
        [place] => {
            let (tag, off) = address(place)?;
            Ok(Ins::Loada { tag, off })
        }
        _ => Err(AsmCause::BadOperands),
    }
}

// An address, or none for the top of the stack, and a byte.
fn addressed_byte(name: AddressedByteWord, operands: &[&[u8]]) -> Result<Ins, AsmCause>
    ensures value { ok_as (λ i. Plain i) result ≡ item_of_word (AddressedByte (addressed_byte name))
        (texts operands.now) }
    ensures shaped { IfOk result Shaped }
{
    match operands {
        [n] => Ok(name.with(0, 0, byte(n)?)),
        [place, n] => {
            let ((tag, off), n) = both(address(place), byte(n))?;
            Ok(name.with(tag, off, n))
        }
        _ => Err(AsmCause::BadOperands),
    }
}

// An address, or none for the top of the stack, and a word.
fn addressed_word(name: AddressedWordWord, operands: &[&[u8]]) -> Result<Ins, AsmCause>
    ensures value { ok_as (λ i. Plain i) result ≡ item_of_word (AddressedWord (addressed_word name))
        (texts operands.now) }
    ensures shaped { IfOk result Shaped }
{
    match operands {
        [w] => Ok(name.with(0, 0, word(w)?)),
        [place, w] => {
            let ((tag, off), w) = both(address(place), word(w))?;
            Ok(name.with(tag, off, w))
        }
        _ => Err(AsmCause::BadOperands),
    }
}

/// Returns the item of a word with its operands.
///
/// # Errors
///
/// Returns the cause for which the operands are refused; of several, the first in the table of causes.
pub fn worded<'a>(form: Form, operands: &[&'a [u8]]) -> Result<Item<'a>, AsmCause>
    requires { BareShaped form }
    ensures value { ok_as item_of result ≡ item_of_word (form_of form) (texts operands.now) }
    ensures ready { IfOk result Ready }
{
    let ins = match form {
        Form::RawByte => return raw(operands),
        Form::ByDistance => return branch(operands),
        Form::ByPlace(name) => return transfer(name, operands),
        Form::Bare(ins) => bare(ins, operands)?,
        Form::OfByte(name) => with_byte(name, operands)?,
        Form::Retio => with_bytes(operands)?,
        Form::OfWord(name) => with_word(name, operands)?,
        Form::OfWords(name) => with_words(name, operands)?,
        Form::Primitive => primitive(operands)?,
        Form::Addressed => addressed(operands)?,
        Form::AddressedByte(name) => addressed_byte(name, operands)?,
        Form::AddressedWord(name) => addressed_word(name, operands)?,
    };
    Ok(Item::Plain(ins))
}

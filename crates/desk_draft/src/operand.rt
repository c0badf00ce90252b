// One operand, and what it becomes.
ghost use Rattle.std.specs.Prelude.{◌≡◌, ◌++◌, ◌==◌, ℕ, List, bytes_eq, codes, OnOk};
ghost use Rattle.mc_text.specs.model_device.specs.Bytes.{lookup};
ghost use Rattle.mc_text.specs.model_text.specs.Text.{decimal_number, first_cut, ok_as};
ghost use Rattle.mc_text.specs.model_text.specs.Listing.{address_text};
ghost use Rattle.desk_draft.specs.Declarations.{NameMeaning};
ghost use Rattle.desk_draft.specs.Operands.{bytes_text, named_text, operand_text, plain_operand, shifted_text, size_text};
ghost use Rattle.desk_draft.specs.Views.{register_tag, text_of_operand, AreNames};

use crate::meaning::{Meaning, Names, Register, look_up};
use mc_deck::model_play::DeckCause;
use mc_text::{cut, decimal_number, push, push_decimal, push_signed};
use std::alloc::AllocError;

/// What an operand becomes: a text, a place, a place and a size, or a size alone.
#[derive(Clone, Copy)]
pub enum Operand<'a> {
    Text(&'a [u8]),
    Place {
        register: Register,
        at: i32,
    },
    Sized {
        register: Register,
        at: i32,
        size: u16,
    },
    Size(u16),
}

// Bytes, with their size where it is wanted.
fn bytes<'a>(sized: bool, register: Register, at: i32, size: u16) -> Operand<'a>
    ensures { text_of_operand result ≡ bytes_text sized (register_tag register) at size }
{
    if sized {
        Operand::Sized { register, at, size }
    } else {
        Operand::Place { register, at }
    }
}

// An operand that is a name, or else none.
fn named<'a>(names: &Names<'a>, sized: bool, text: &'a [u8]) -> Operand<'a>
    ensures { (l : List (List ℕ × NameMeaning)) → AreNames names.now l
        → text_of_operand result ≡ named_text sized text.now (lookup l text.now) }
{
    match look_up(names, text) {
        Some(Meaning::Bytes { register, at, size }) => bytes(sized, register, at as i32, size),
        Some(Meaning::Number(number)) => Operand::Text(number),
        None => Operand::Text(text),
    }
}

// Whether what stands after a name is `size`.
fn is_size(part: &[u8]) -> bool
    ensures { result ≡ bytes_eq part.now (codes "size") }
{
    part == b"size".as_slice()
}

// The size of a name of bytes, or else the operand as it is.
fn size_alone<'a>(names: &Names<'a>, text: &'a [u8], name: &'a [u8]) -> Operand<'a>
    ensures { (l : List (List ℕ × NameMeaning)) → AreNames names.now l
        → text_of_operand result ≡ size_text text.now (lookup l name.now) }
{
    match look_up(names, name) {
        Some(Meaning::Bytes { size, .. }) => Operand::Size(size),
        _ => Operand::Text(text),
    }
}

// An operand without `+`: a name, or a name and `.size`.
fn plain<'a>(names: &Names<'a>, sized: bool, text: &'a [u8]) -> Operand<'a>
    ensures { (l : List (List ℕ × NameMeaning)) → AreNames names.now l
        → text_of_operand result ≡ plain_operand l sized text.now (first_cut (λ c. c == 46) text.now) }
{
    let (name, part) = cut(text, b'.');
    match part {
        None => named(names, sized, text),
        Some(part) => {
            if is_size(part) {
                size_alone(names, text, name)
            } else {
                Operand::Text(text)
            }
        }
    }
}

// An operand that is a name, `+` and a number of bytes: the place further on, and what is left of the size.
fn shifted<'a>(
    names: &Names<'a>,
    sized: bool,
    text: &'a [u8],
    name: &'a [u8],
    places: &[u8],
) -> Result<Operand<'a>, DeckCause>
    ensures { (l : List (List ℕ × NameMeaning)) → AreNames names.now l
        → ok_as text_of_operand result
        ≡ shifted_text sized text.now (lookup l name.now) (decimal_number places.now) }
{
    let Some(count) = decimal_number(places) else {
        return Ok(Operand::Text(text));
    };
    let Some(Meaning::Bytes { register, at, size }) = look_up(names, name) else {
        return Ok(Operand::Text(text));
    };
    if count >= size as u64 {
        return Err(DeckCause::OutOfRange);
    }
    let count = count as u16;
    Ok(bytes(sized, register, at as i32 + count as i32, size - count))
}

/// Returns what an operand becomes; `sized` is whether a name of bytes stands for its size, too.
///
/// # Errors
///
/// `OutOfRange` if a place is not among the bytes of its name.
pub fn operand_of<'a>(
    names: &Names<'a>,
    sized: bool,
    text: &'a [u8],
) -> Result<Operand<'a>, DeckCause>
    ensures { (l : List (List ℕ × NameMeaning)) → AreNames names.now l
        → ok_as text_of_operand result ≡ operand_text l sized text.now }
{
    let (name, places) = cut(text, b'+');
    match places {
        Some(places) => shifted(names, sized, text, name, places),
        None => Ok(plain(names, sized, text)),
    }
}

// Adds a place, as `SB[2]`.
fn push_place(deck: &mut Vec<u8>, register: Register, at: i32) -> Result<(), AllocError>
    ensures { OnOk result (deck.new.items ≡ deck.old.items ++ address_text (register_tag register) at) }
{
    push(deck, register.name())?;
    push(deck, b"[")?;
    push_signed(deck, at)?;
    push(deck, b"]")
}

/// Adds the text of an operand.
pub fn push_operand(deck: &mut Vec<u8>, operand: &Operand<'_>) -> Result<(), AllocError>
    ensures { OnOk result (deck.new.items ≡ deck.old.items ++ text_of_operand operand.now) }
{
    match operand {
        Operand::Text(text) => push(deck, text),
        Operand::Place { register, at } => push_place(deck, *register, *at),
        Operand::Sized { register, at, size } => {
            push_place(deck, *register, *at)?;
            push(deck, b",")?;
            push_decimal(deck, *size as usize)
        }
        Operand::Size(size) => push_decimal(deck, *size as usize),
    }
}

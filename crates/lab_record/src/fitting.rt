// The `on` lines that fit an event, and what they move.
ghost use Rattle.std.specs.Prelude.{◌≡◌, IfOk};
ghost use Rattle.mc_words.specs.model_device.specs.Bytes.{num};
ghost use Rattle.mc_isa.specs.model_text.specs.Listing.{hex_text};
ghost use Rattle.lab_app_rules.specs.declared.rules.Amount.TheVariants as amount;
ghost use Rattle.lab_record.specs.Fitting.{amount_of, are_sums, fitting_from, is_fitting, moves_sum};

use lab_app_rules::{Amount, Effect, Event, On};
use lab_branch::push;
use lab_history::number_bytes;
use lab_match::fits;
use mc_text::digit;
use mc_words::NoMemory;
use std::alloc::Global;

/// The first address of the public segment.
const PUBLIC: usize = 0xC000;

/// Returns bytes in hexadecimal.
///
/// # Errors
///
/// Returns `NoMemory` if it is out of memory.
pub fn hex_of(alloc: Global, bytes: &[u8]) -> Result<Vec<u8>, NoMemory>
    ensures { IfOk result (λ text. text.items ≡ hex_text bytes.now) }
{
    let mut text = Vec::new(alloc);
    for byte in bytes {
        push(&mut text, digit(*byte / 16))?;
        push(&mut text, digit(*byte % 16))?;
    }
    Ok(text)
}

/// Returns whether an `on` line is about an event, and its first pattern fits a text.
pub fn is_fitting(on: &On, event: Event, text: &[u8]) -> bool
    ensures { result ≡ is_fitting event text.now on.now }
{
    on.event == event && fits(on.pattern.as_slice(), text)
}

/// Returns the numbers of the `on` lines of an event whose first pattern fits a text.
///
/// # Errors
///
/// Returns `NoMemory` if it is out of memory.
pub fn fitting(alloc: Global, ons: &[On], event: Event, text: &[u8]) -> Result<Vec<usize>, NoMemory>
    ensures { IfOk result (λ lines. lines.items ≡ fitting_from 0 event text.now ons.now) }
{
    let mut lines = Vec::new(alloc);
    for (i, on) in ons.iter().enumerate() {
        if is_fitting(on, event, text) {
            push(&mut lines, i)?;
        }
    }
    Ok(lines)
}

/// Returns the bytes of the number that is moved, by the public segment before the instruction.
///
/// # Errors
///
/// Returns `NoMemory` if it is out of memory.
pub fn number_of(alloc: Global, amount: Amount, public: &[u8]) -> Result<Vec<u8>, NoMemory>
    ensures { IfOk result (λ number. num number.items ≡ amount_of amount public.now) }
{
    match amount {
        Amount::Number(k) => Ok(Vec::from_slice(alloc, &number_bytes(k))?),
        Amount::Public { at, n } => public_number(alloc, at, n, public),
    }
}

// The number in n public bytes from an address on.
fn public_number(alloc: Global, at: u16, n: u16, public: &[u8]) -> Result<Vec<u8>, NoMemory>
    ensures { IfOk result (λ number. num number.items ≡ amount_of (amount.Public at n) public.now) }
{
    let first = (at as usize).saturating_sub(PUBLIC).min(public.len());
    let last = (first + n as usize).min(public.len());
    Ok(Vec::from_slice(alloc, &public[first..last])?)
}

// Whether the `on` line with a number is about a sum.
fn moves_sum(ons: &[On], i: usize) -> bool
    ensures { result ≡ moves_sum ons.now i }
{
    match ons.get(i) {
        Some(on) => match on.effect {
            Effect::Add(_) => true,
            Effect::Take(_) => true,
            _ => false,
        },
        None => false,
    }
}

/// Returns whether some of the `on` lines with these numbers are about a sum.
pub fn move_sums(ons: &[On], lines: &[usize]) -> bool
    ensures { result ≡ are_sums ons.now lines.now }
{
    for i in lines {
        if moves_sum(ons, *i) {
            return true;
        }
    }
    false
}

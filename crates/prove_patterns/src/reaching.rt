// What may be left of several patterns after bytes that are known in part.
ghost use Rattle.std.specs.Prelude.{◌≡◌, ◌≤◌, ◌++◌, ℕ, IfOk, IfSome, OnOk};
ghost use Rattle.std.specs.List.{flat_map};
ghost use Rattle.prove_facts.specs.model_prove.specs.Texts.{is_among, with_opens, both_opens, after_each, after_bytes, after_digit, after_any, hex_digits};
ghost use Rattle.prove_facts.specs.Sets.{set_of};
ghost use Rattle.prove_patterns.specs.Opens.{opens_of, many_of};

use crate::opens::{Opens, all_after, each_after, same_opens};
use crate::ways::{Open, digit_sign};
use model_device::NoMemory;
use prove_facts::{Values, prepend, push};
use std::alloc::Global;

/// What may be left of several patterns, each possibility once.
pub type Many<'a> = Vec<Opens<'a>>;

// Whether a possibility is among some.
fn is_among(opens: &[Open<'_>], many: &[Opens<'_>]) -> bool
    ensures { result ≡ is_among (opens_of opens.now) (many_of many.now) }
{
    for one in many {
        if same_opens(opens, one.as_slice()) {
            return true;
        }
    }
    false
}

// Puts a possibility before some, unless it is there.
fn add_opens<'a>(many: &mut Many<'a>, opens: Opens<'a>) -> Result<(), NoMemory>
    ensures { OnOk result (many_of many.new.items ≡ with_opens (opens_of opens.entry.items) (many_of many.old.items)) }
{
    if is_among(opens.as_slice(), many.as_slice()) {
        return Ok(());
    }
    prepend(many, opens)
}

// Puts possibilities before some, but those that are there.
fn add_many<'a>(many: &mut Many<'a>, mut more: Many<'a>) -> Result<(), NoMemory>
    ensures { OnOk result (many_of many.new.items ≡ both_opens (many_of more.entry.items) (many_of many.old.items)) }
{
    while let Some(opens) = more.pop() {
        add_opens(many, opens)?;
    }
    Ok(())
}

// What may be left after each digit.
fn after_each<'a>(alloc: Global, opens: &[Open<'a>]) -> Result<Many<'a>, NoMemory>
    ensures { IfOk result (λ many. many_of many.items ≡ after_each hex_digits (opens_of opens.now)) }
{
    let mut many = Vec::new(alloc);
    let mut digit = 16;
    while digit > 0 {
        digit -= 1;
        add_opens(&mut many, each_after(alloc, digit_sign(digit), opens)?)?;
    }
    Ok(many)
}

// What may be left after any digit.
fn after_digit<'a>(alloc: Global, from: &[Opens<'a>]) -> Result<Many<'a>, NoMemory>
    ensures { IfOk result (λ many. many_of many.items ≡ after_digit (many_of from.now)) }
{
    let mut many = Vec::new(alloc);
    let mut i = from.len();
    while i > 0 {
        i -= 1;
        add_many(&mut many, after_each(alloc, from[i].as_slice())?)?;
    }
    Ok(many)
}

// Adds what may be left after one more byte of any value.
fn add_bytes<'a>(alloc: Global, many: &mut Many<'a>) -> Result<(), NoMemory>
    ensures { OnOk result (many_of many.new.items
        ≡ both_opens (after_digit (after_digit (many_of many.old.items))) (many_of many.old.items)) }
{
    let half = after_digit(alloc, many.as_slice())?;
    let whole = after_digit(alloc, half.as_slice())?;
    add_many(many, whole)
}

/// Returns what may be left after any number of bytes, or `None` if the search for it gives up, after 10,000
/// rounds.
///
/// # Errors
///
/// Returns `NoMemory` if it is out of memory.
pub fn after_any<'a>(alloc: Global, from: Many<'a>) -> Result<Option<Many<'a>>, NoMemory>
    ensures { (n : ℕ) → 10000 ≤ n → IfOk result (λ r. IfSome r (λ many.
        many_of many.items ≡ after_any n (many_of from.entry.items))) }
{
    let mut many = from;
    for _round in 0..10_000u32 {
        let before = many.len();
        add_bytes(alloc, &mut many)?;
        if many.len() == before {
            return Ok(Some(many));
        }
    }
    Ok(None)
}

/// Returns what may be left after a byte of a set.
///
/// # Errors
///
/// Returns `NoMemory` if it is out of memory.
pub fn after_bytes<'a>(
    alloc: Global,
    set: &Values,
    opens: &[Open<'a>],
) -> Result<Many<'a>, NoMemory>
    ensures { IfOk result (λ many. many_of many.items ≡ after_bytes (set_of set.now) (opens_of opens.now)) }
{
    let mut many = Vec::new(alloc);
    let mut end: u16 = 256;
    while end > 0 {
        end -= 1;
        let byte = end as u8;
        if set.has(byte) {
            add_opens(&mut many, all_after(alloc, byte, opens)?)?;
        }
    }
    Ok(many)
}

// Appends possibilities.
fn append<'a>(many: &mut Many<'a>, more: Many<'a>) -> Result<(), NoMemory>
    ensures { OnOk result (many.new.items ≡ many.old.items ++ more.entry.items) }
{
    for opens in more {
        push(many, opens)?;
    }
    Ok(())
}

/// Returns what each possibility may become after a byte of a set, possibility by possibility.
///
/// # Errors
///
/// Returns `NoMemory` if it is out of memory.
pub fn each_after_bytes<'a>(
    alloc: Global,
    set: &Values,
    from: &[Opens<'a>],
) -> Result<Many<'a>, NoMemory>
    ensures { IfOk result (λ many. many_of many.items ≡ flat_map (after_bytes (set_of set.now)) (many_of from.now)) }
{
    let mut many = Vec::new(alloc);
    for opens in from {
        append(&mut many, after_bytes(alloc, set, opens.as_slice())?)?;
    }
    Ok(many)
}

// What is left of one pattern, on each open way.
ghost use Rattle.std.specs.Prelude.{◌≡◌, ◌<◌, ◌≤◌, ℕ, length, get_or, IfOk, OnOk, []};
ghost use Rattle.model_device.specs.Bytes.{has_name};
ghost use Rattle.prove_facts.specs.model_prove.specs.Texts.{with_way, both_ways, openings, way_after, after_character, after_text, is_match};
ghost use Rattle.prove_patterns.specs.Ways.{texts, ways_of, byte_digits, digit_sign};

use model_device::NoMemory;
use prove_facts::prepend;
use std::alloc::Global;

/// What is left of a pattern on each open way.
pub type Open<'a> = Vec<&'a [u8]>;

// Whether a way is among some.
fn has_way(way: &[u8], ways: &[&[u8]]) -> bool
    ensures { result ≡ has_name way.now (texts ways.now) }
{
    for one in ways {
        if *one == way {
            return true;
        }
    }
    false
}

// Puts a way before some, unless it is there.
fn add_way<'a>(ways: &mut Open<'a>, way: &'a [u8]) -> Result<(), NoMemory>
    ensures { OnOk result (texts ways.new.items ≡ with_way way.now (texts ways.old.items)) }
{
    if has_way(way, ways.as_slice()) {
        return Ok(());
    }
    prepend(ways, way)
}

// The number of stars at the front of a pattern.
fn stars_of(pattern: &[u8]) -> usize
    ensures within { result ≤ length pattern.now }
    ensures stars { (i : ℕ) → i < result → get_or pattern.now i 0 ≡ 42 }
    ensures other { result < length pattern.now → get_or pattern.now result 0 ≡ 42 → ⊥ }
{
    for (i, sign) in pattern.iter().enumerate() {
        if *sign != b'*' {
            return i;
        }
    }
    pattern.len()
}

// Puts the openings of a pattern before some ways, but those that are there.
fn add_openings<'a>(ways: &mut Open<'a>, pattern: &'a [u8]) -> Result<(), NoMemory>
    ensures { OnOk result (texts ways.new.items ≡ both_ways (openings pattern.now) (texts ways.old.items)) }
{
    let mut i = stars_of(pattern);
    add_way(ways, &pattern[i..])?;
    while i > 0 {
        i -= 1;
        add_way(ways, &pattern[i..])?;
    }
    Ok(())
}

/// Returns a pattern, and what is left of it where stars at its front are nothing.
///
/// # Errors
///
/// Returns `NoMemory` if it is out of memory.
pub fn openings<'a>(alloc: Global, pattern: &'a [u8]) -> Result<Open<'a>, NoMemory>
    ensures { IfOk result (λ o. texts o.items ≡ openings pattern.now) }
{
    let mut ways = Vec::new(alloc);
    let mut i = stars_of(pattern);
    prepend(&mut ways, &pattern[i..])?;
    while i > 0 {
        i -= 1;
        add_way(&mut ways, &pattern[i..])?;
    }
    Ok(ways)
}

// What is left of one way after a character.
fn way_after<'a>(character: u8, way: &'a [u8]) -> Option<&'a [u8]>
    ensures { ways_of result ≡ way_after character way.now }
{
    match way {
        [] => None,
        [sign, rest @ ..] => {
            if *sign == b'*' {
                Some(way)
            } else if *sign == b'?' || character == *sign {
                Some(rest)
            } else {
                None
            }
        }
    }
}

/// Returns what is left of a pattern after a character.
///
/// # Errors
///
/// Returns `NoMemory` if it is out of memory.
pub fn after_character<'a>(
    alloc: Global,
    character: u8,
    ways: &[&'a [u8]],
) -> Result<Open<'a>, NoMemory>
    ensures { IfOk result (λ o. texts o.items ≡ after_character character (texts ways.now)) }
{
    let mut found = Vec::new(alloc);
    let mut i = ways.len();
    while i > 0 {
        i -= 1;
        if let Some(way) = way_after(character, ways[i]) {
            add_openings(&mut found, way)?;
        }
    }
    Ok(found)
}

/// Returns a hexadecimal digit, in small letters.
pub fn digit_sign(digit: u8) -> u8
    requires { digit < 16 }
    ensures { result ≡ digit_sign digit }
{
    if digit < 10 { 48 + digit } else { 87 + digit }
}

/// Returns what is left of a pattern after the two digits of a byte.
///
/// # Errors
///
/// Returns `NoMemory` if it is out of memory.
pub fn after_byte<'a>(alloc: Global, byte: u8, ways: &[&'a [u8]]) -> Result<Open<'a>, NoMemory>
    ensures { IfOk result (λ o. texts o.items ≡ after_text (byte_digits byte) (texts ways.now)) }
{
    let half = after_character(alloc, digit_sign(byte / 16), ways)?;
    after_character(alloc, digit_sign(byte % 16), half.as_slice())
}

/// Returns whether the text so far matches.
pub fn is_match(ways: &[&[u8]]) -> bool
    ensures { result ≡ is_match (texts ways.now) }
{
    has_way(&[], ways)
}

// Headers of commands that the patterns do not tell apart.
ghost use Rattle.std.specs.Prelude.{◌≡◌, ◌<◌, ◌+◌, ◌*◌, ◌++◌, map, length, set, IfOk, OnOk, [], ◌∷◌};
ghost use Rattle.std.specs.List.{flat_map};
ghost use Rattle.prove_facts.specs.model_prove.specs.Between.{with_left, by_left, with_header_byte};
ghost use Rattle.prove_facts.specs.model_prove.specs.Texts as texts;
ghost use Rattle.prove_facts.specs.Sets.{set_of};
ghost use Rattle.prove_patterns.specs.Opens.{opens_of};
ghost use Rattle.prove_patterns.specs.Ways.{digit_sign, values_from};
ghost use Rattle.prove_patterns.specs.Headers.{groups_of, header_of, headers_of, headers_with, headers_from, group_with, place_of, bytes_of, all_except};

use crate::opens::{Opens, each_after, same_opens};
use crate::ways::{Open, digit_sign};
use model_device::NoMemory;
use prove_facts::{Values, push};
use std::alloc::Global;

/// Headers that the patterns do not tell apart so far: what is left of the patterns, and the values of their bytes.
#[derive(Drop)]
pub struct Header<'a> {
    pub left: Opens<'a>,
    pub sets: Vec<Values>,
}

/// Values of a byte that leave the same of the patterns.
#[derive(Drop)]
pub struct Group<'a> {
    pub left: Opens<'a>,
    pub values: Values,
}

/// The values of the bytes of a header that may reach an application: class 00, the other classes, the instruction of
/// SELECT and the others, the first parameters of a SELECT that is not by a name, and all values.
#[derive(Clone, Copy)]
pub struct Bytes {
    pub zero_class: Values,
    pub other_class: Values,
    pub select: Values,
    pub not_select: Values,
    pub not_by_name: Values,
    pub every: Values,
}

// The number of groups before the first that leaves the same.
fn place_of(groups: &[Group<'_>], left: &[Open<'_>]) -> usize
    ensures { result ≡ place_of (opens_of left.now) (groups_of groups.now) }
{
    for (i, group) in groups.iter().enumerate() {
        if same_opens(group.left.as_slice(), left) {
            return i;
        }
    }
    groups.len()
}

// Puts a value into the group at a place.
fn add_value(groups: &mut Vec<Group<'_>>, place: usize, byte: u8)
    requires { place < length groups.old.items }
    ensures { groups_of groups.new.items ≡ group_with place byte (groups_of groups.old.items) }
{
    let group = &mut groups[place];
    group.values = group.values.with(byte);
}

// Puts a value to those that leave the same.
fn add_left<'a>(groups: &mut Vec<Group<'a>>, byte: u8, left: Opens<'a>) -> Result<(), NoMemory>
    ensures { OnOk result (groups_of groups.new.items
        ≡ with_left byte (opens_of left.entry.items) (groups_of groups.old.items)) }
{
    let place = place_of(groups.as_slice(), left.as_slice());
    if place < groups.len() {
        add_value(groups, place, byte);
        return Ok(());
    }
    let values = Values::one(byte);
    push(groups, Group { left, values })
}

// Puts the values of a byte with one high digit to those that leave the same; `half` is what that digit leaves of the
// patterns.
fn add_low<'a>(
    alloc: Global,
    groups: &mut Vec<Group<'a>>,
    set: &Values,
    high: u8,
    half: &[Open<'a>],
) -> Result<(), NoMemory>
    requires { high < 16 }
    ensures { OnOk result ((o : texts.Opens) → opens_of half.now ≡ map (texts.after_character (digit_sign high)) o
        → groups_of groups.old.items ≡ by_left o (values_from set.now.words (16 * high + 16))
        → groups_of groups.new.items ≡ by_left o (values_from set.now.words (16 * high))) }
{
    let mut end: u8 = 16;
    while end > 0 {
        end -= 1;
        let byte = 16 * high + end;
        if set.has(byte) {
            add_left(groups, byte, each_after(alloc, digit_sign(end), half)?)?;
        }
    }
    Ok(())
}

// The values of a byte, by what they leave of the patterns.
fn by_left<'a>(alloc: Global, opens: &[Open<'a>], set: &Values) -> Result<Vec<Group<'a>>, NoMemory>
    ensures { IfOk result (λ g. groups_of g.items ≡ by_left (opens_of opens.now) (set_of set.now)) }
{
    let mut groups = Vec::new(alloc);
    let mut high: u8 = 16;
    while high > 0 {
        high -= 1;
        let half = each_after(alloc, digit_sign(high), opens)?;
        add_low(alloc, &mut groups, set, high, half.as_slice())?;
    }
    Ok(groups)
}

// Sets with one more.
fn with_set(alloc: Global, sets: &[Values], set: Values) -> Result<Vec<Values>, NoMemory>
    ensures { IfOk result (λ s. map set_of s.items ≡ map set_of sets.now ++ set_of set ∷ []) }
{
    let mut more = Vec::from_slice(alloc, sets)?;
    push(&mut more, set)?;
    Ok(more)
}

// Headers with one byte more, of these values.
fn with_header_byte<'a>(
    alloc: Global,
    set: &Values,
    header: &Header<'a>,
) -> Result<Vec<Header<'a>>, NoMemory>
    ensures { IfOk result (λ h. headers_of h.items ≡ with_header_byte (set_of set.now) (header_of header.now)) }
{
    let groups = by_left(alloc, header.left.as_slice(), set)?;
    let mut headers = Vec::new(alloc);
    for group in groups {
        let sets = with_set(alloc, header.sets.as_slice(), group.values)?;
        push(
            &mut headers,
            Header {
                left: group.left,
                sets,
            },
        )?;
    }
    Ok(headers)
}

// Appends headers.
fn append<'a>(headers: &mut Vec<Header<'a>>, more: Vec<Header<'a>>) -> Result<(), NoMemory>
    ensures { OnOk result (headers.new.items ≡ headers.old.items ++ more.entry.items) }
{
    for header in more {
        push(headers, header)?;
    }
    Ok(())
}

// All headers with one byte more, of these values.
fn each_with_byte<'a>(
    alloc: Global,
    set: &Values,
    from: &[Header<'a>],
) -> Result<Vec<Header<'a>>, NoMemory>
    ensures { IfOk result (λ h. headers_of h.items
        ≡ flat_map (with_header_byte (set_of set.now)) (headers_of from.now)) }
{
    let mut headers = Vec::new(alloc);
    for header in from {
        append(&mut headers, with_header_byte(alloc, set, header)?)?;
    }
    Ok(headers)
}

// All values but one.
fn all_but_one(byte: u8) -> Values
    ensures { set_of result ≡ all_except (byte ∷ []) }
{
    Values::one(byte).not()
}

// All values but three.
fn all_but_three(a: u8, b: u8, c: u8) -> Values
    ensures { set_of result ≡ all_except (a ∷ b ∷ c ∷ []) }
{
    Values::one(a).with(b).with(c).not()
}

// The headers of these bytes.
fn headers_with<'a>(
    alloc: Global,
    bytes: &Bytes,
    start: &Header<'a>,
) -> Result<Vec<Header<'a>>, NoMemory>
    ensures { IfOk result (λ h. headers_of h.items ≡ headers_with (bytes_of bytes.now) (header_of start.now)) }
{
    let zero_class = with_header_byte(alloc, &bytes.zero_class, start)?;
    let others = with_header_byte(alloc, &bytes.other_class, start)?;
    let named = each_with_byte(alloc, &bytes.select, zero_class.as_slice())?;
    let mut all = each_with_byte(alloc, &bytes.not_by_name, named.as_slice())?;
    let mut plain = each_with_byte(alloc, &bytes.not_select, zero_class.as_slice())?;
    append(
        &mut plain,
        each_with_byte(alloc, &bytes.every, others.as_slice())?,
    )?;
    append(
        &mut all,
        each_with_byte(alloc, &bytes.every, plain.as_slice())?,
    )?;
    each_with_byte(alloc, &bytes.every, all.as_slice())
}

/// Returns the headers that reach an application, by what they leave of patterns: not of class FF or BE, and not
/// 00 A4 04.
///
/// # Errors
///
/// Returns `NoMemory` if it is out of memory.
pub fn headers<'a>(alloc: Global, opens: Opens<'a>) -> Result<Vec<Header<'a>>, NoMemory>
    ensures { IfOk result (λ h. headers_of h.items ≡ headers_from (opens_of opens.entry.items)) }
{
    let bytes = Bytes {
        zero_class: Values::one(0),
        other_class: all_but_three(0, 0xBE, 0xFF),
        select: Values::one(0xA4),
        not_select: all_but_one(0xA4),
        not_by_name: all_but_one(4),
        every: Values::ALL,
    };
    let start = Header {
        left: opens,
        sets: Vec::new(alloc),
    };
    headers_with(alloc, &bytes, &start)
}

ghost use Rattle.std.specs.Prelude.{◌≡◌, ◌+◌, ◌<◌, ◌≤◌, [], ◌∷◌, length, nat_lt, position, bytes_eq, option_map, Some, None, Ok, Err, IfSome, MatchOption, MatchResult};
ghost use Rattle.model_card.specs.Units.{byte_at, checked_name, name_among, name_of, object_at, size_at, tag_len, template_of, value_at};
ghost use Rattle.mc_unit.specs.Parts.{object_of};

use mc_words::Aid;
use model_card::AidFault;

// A data object at the front of some bytes, and the bytes after it.
#[derive(Clone, Copy)]
struct Object<'a> {
    tag: &'a [u8],
    value: &'a [u8],
    rest: &'a [u8],
}

/// Returns the name in a DIR record. The record begins with a template, an object with the tag 61, and the
/// first object in it with the tag 4F holds the name; the bytes after either of them are not read. Objects
/// are tag, length and value as in ISO/IEC 7816-4, with lengths of one byte below 80, or of 81 and a byte.
///
/// # Errors
///
/// Returns `NoAid` if no such object is reached, or an object before it does not fit, and `AidLength` if the
/// name's length is not 5 to 16.
#[tactic(auto, unfolding(model_card::specs::Units::name_of))]
pub fn aid_of(dir: &[u8]) -> Result<Aid, AidFault>
    ensures { MatchResult result (λ a. name_of dir.now ≡ Ok a) (λ e. name_of dir.now ≡ Err e) }
{
    let Some(template) = template_of(dir) else {
        return Err(AidFault::NoAid);
    };
    let Some(value) = name_in(template) else {
        return Err(AidFault::NoAid);
    };
    match Aid::new(value) {
        Some(aid) => Ok(aid),
        None => Err(AidFault::AidLength),
    }
}

// The value of the object with the tag 61 that the record begins with.
#[tactic(auto, unfolding(model_card::specs::Units::template_of))]
fn template_of(dir: &[u8]) -> Option<&[u8]>
    ensures { MatchOption result (template_of dir.now ≡ None) (λ t. template_of dir.now ≡ Some t.now) }
{
    let Object { tag, value, .. } = object_at(dir)?;
    if is_tag(tag, 0x61) { Some(value) } else { None }
}

// The value of the first object with the tag 4F.
#[tactic(auto, using(crate::proofs::Names::name_nowhere))]
fn name_in(template: &[u8]) -> Option<&[u8]>
    ensures { MatchOption result (name_among (length template.now) template.now ≡ None)
        (λ v. name_among (length template.now) template.now ≡ Some v.now) }
{
    let mut rest = template;
    while let Some(
        Object {
            tag,
            value,
            rest: behind,
        },
    ) = object_at(rest)
    {
        if is_tag(tag, 0x4F) {
            return Some(value);
        }
        rest = behind;
    }
    None
}

// Whether a tag is this one byte.
fn is_tag(tag: &[u8], byte: u8) -> bool
    ensures { result ≡ bytes_eq tag.now (byte ∷ []) }
{
    match tag {
        [only] => *only == byte,
        _ => false,
    }
}

#[tactic(auto, unfolding(model_card::specs::Units::object_at))]
fn object_at(bytes: &[u8]) -> Option<Object<'_>>
    ensures value { MatchOption result (object_at bytes.now ≡ None) (λ o. object_at bytes.now ≡ Some (object_of o)) }
    ensures shorter { IfSome result (λ o. length o.rest.now + 2 ≤ length bytes.now) }
{
    let (tag, behind) = bytes.split_at(tag_len(bytes)?);
    let (size, behind) = size_at(behind)?;
    if behind.len() < size {
        return None;
    }
    let (value, rest) = behind.split_at(size);
    Some(Object { tag, value, rest })
}

// The number of bytes of the tag at the front.
fn tag_len(bytes: &[u8]) -> Option<usize>
    ensures value { result ≡ tag_len bytes.now }
    ensures low { IfSome result (λ n. 1 ≤ n) }
    ensures high { IfSome result (λ n. n ≤ length bytes.now) }
{
    let [first, behind @ ..] = bytes else {
        return None;
    };
    if *first % 32 != 31 {
        return Some(1);
    }
    match tag_end(behind) {
        Some(last) => Some(last + 2),
        None => None,
    }
}

// The index of the first byte that ends a tag.
fn tag_end(bytes: &[u8]) -> Option<usize>
    ensures value { result ≡ position (λ b. nat_lt b 128) bytes.now }
    ensures bound { IfSome result (λ i. i < length bytes.now) }
{
    bytes.iter().position(|b| *b < 0x80)
}

// The length at the front, and the bytes after it.
fn size_at(bytes: &[u8]) -> Option<(usize, &[u8])>
    ensures value { MatchOption result (size_at bytes.now ≡ None) (λ s. size_at bytes.now ≡ Some (s.0, s.1.now)) }
    ensures shorter { IfSome result (λ s. length s.1.now + 1 ≤ length bytes.now) }
{
    match bytes {
        [size, rest @ ..] if *size < 0x80 => Some((*size as usize, rest)),
        [0x81, size, rest @ ..] => Some((*size as usize, rest)),
        _ => None,
    }
}

// The operands in the bytes after an instruction byte. Each call fails with `Past` if the bytes are too few.
ghost use Rattle.std.specs.Prelude.{◌≡◌, ◌+◌, ◌<◌, ◌≤◌, length, slice_index, replicate, ◌∷◌, ◌++◌, take, drop, ◌-◌};
ghost use Rattle.std.specs.Int.{w8, cast_signed};
ghost use Rattle.model_text.specs.model_device.specs.Bytes.{be2, zeros};
ghost use Rattle.model_text.specs.model_machine.specs.Code.{offset_in, target_in, behind, total, U8, U16, I16};
ghost use Rattle.mc_isa.specs.Reading.{ReadsOperand};

use model_text::model_machine::DecodeFault;

// One byte.
#[inline(always)]
pub fn byte(rest: &[u8]) -> Result<u8, DecodeFault>
    ensures { ReadsOperand result 1 rest.now (slice_index rest.now 0) }
{
    match rest {
        [b, ..] => Ok(*b),
        _ => Err(DecodeFault::Past),
    }
}

// Two bytes.
#[inline(always)]
pub fn bytes(rest: &[u8]) -> Result<(u8, u8), DecodeFault>
    ensures { ReadsOperand result 2 rest.now (slice_index rest.now 0, slice_index rest.now 1) }
{
    match rest {
        [a, b, ..] => Ok((*a, *b)),
        _ => Err(DecodeFault::Past),
    }
}

// A word.
#[inline(always)]
pub fn word(rest: &[u8]) -> Result<u16, DecodeFault>
    ensures { ReadsOperand result 2 rest.now (be2 rest.now 0) }
{
    match rest {
        [high, low, ..] => Ok(256 * *high as u16 + *low as u16),
        _ => Err(DecodeFault::Past),
    }
}

// Two words.
#[inline(always)]
pub fn words(rest: &[u8]) -> Result<(u16, u16), DecodeFault>
    ensures { ReadsOperand result 4 rest.now (be2 rest.now 0, be2 rest.now 2) }
{
    match rest {
        [a, b, c, d, ..] => Ok((256 * *a as u16 + *b as u16, 256 * *c as u16 + *d as u16)),
        _ => Err(DecodeFault::Past),
    }
}

// A displacement.
#[inline(always)]
pub fn displacement(rest: &[u8]) -> Result<i8, DecodeFault>
    ensures { ReadsOperand result 1 rest.now (cast_signed w8 (slice_index rest.now 0)) }
{
    match rest {
        [b, ..] => Ok(b.cast_signed()),
        _ => Err(DecodeFault::Past),
    }
}

// The address of a jump or call: 0 and no bytes if the condition is 0.
#[inline(always)]
pub fn target(condition: u8, rest: &[u8]) -> Result<u16, DecodeFault>
    ensures { ReadsOperand result (total (behind condition U16)) rest.now (target_in condition rest.now) }
{
    if condition == 0 {
        return Ok(0);
    }
    word(rest)
}

// The number of bytes of the address after a condition.
#[inline(always)]
pub fn target_size(condition: u8) -> u16
    ensures { result ≡ total (behind condition U16) }
{
    if condition == 0 { 0 } else { 2 }
}

// The offset of an address: 0 and no bytes if the tag is 0.
#[inline(always)]
pub fn offset(tag: u8, rest: &[u8]) -> Result<i16, DecodeFault>
    ensures { ReadsOperand result (total (behind tag I16)) rest.now (offset_in tag rest.now 0) }
{
    if tag == 0 {
        return Ok(0);
    }
    match rest {
        [high, low, ..] => Ok((256 * *high as u16 + *low as u16).cast_signed()),
        _ => Err(DecodeFault::Past),
    }
}

// The number of a primitive and its arguments; a set has as many arguments as its number, and the others are
// 0.
pub fn arguments(set: u8, rest: &[u8]) -> Result<(u8, [u8; 3]), DecodeFault>
    requires { set < 4 }
    ensures { ReadsOperand result (total (U8 ∷ replicate set U8)) rest.now
        (slice_index rest.now 0, take set (drop 1 rest.now) ++ zeros (3 - set)) }
{
    match (set, rest) {
        (0, [number, ..]) => Ok((*number, [0, 0, 0])),
        (1, [number, a, ..]) => Ok((*number, [*a, 0, 0])),
        (2, [number, a, b, ..]) => Ok((*number, [*a, *b, 0])),
        (3, [number, a, b, c, ..]) => Ok((*number, [*a, *b, *c])),
        _ => Err(DecodeFault::Past),
    }
}

// The number of bytes of the offset after a tag.
#[inline(always)]
pub fn offset_size(tag: u8) -> u16
    ensures { result ≡ total (behind tag I16) }
{
    if tag == 0 { 0 } else { 2 }
}

// A byte, and the offset after it.
#[inline(always)]
pub fn byte_and_offset(tag: u8, rest: &[u8]) -> Result<(u8, i16), DecodeFault>
    ensures { ReadsOperand result (total (U8 ∷ behind tag I16)) rest.now
        (slice_index rest.now 0, offset_in tag rest.now 1) }
{
    match (tag, rest) {
        (0, [b, ..]) => Ok((*b, 0)),
        (1..=255, [b, high, low, ..]) => Ok((*b, (256 * *high as u16 + *low as u16).cast_signed())),
        _ => Err(DecodeFault::Past),
    }
}

// A word, and the offset after it.
#[inline(always)]
pub fn word_and_offset(tag: u8, rest: &[u8]) -> Result<(u16, i16), DecodeFault>
    ensures { ReadsOperand result (total (U16 ∷ behind tag I16)) rest.now (be2 rest.now 0, offset_in tag rest.now 2) }
{
    match (tag, rest) {
        (0, [a, b, ..]) => Ok((256 * *a as u16 + *b as u16, 0)),
        (1..=255, [a, b, high, low, ..]) => Ok((
            256 * *a as u16 + *b as u16,
            (256 * *high as u16 + *low as u16).cast_signed(),
        )),
        _ => Err(DecodeFault::Past),
    }
}

// Operands by their form.
ghost use Rattle.std.specs.Prelude.{◌≡◌, ◌+◌, ◌<◌, ◌≤◌, ◌==◌, ℕ, List, length, option_map, Some, None, Ok, Err, IfOk, IfSome, Result};
ghost use Rattle.model_text.specs.Assembly.{is_label, condition, address, place_among, both, first_cause};
ghost use Rattle.model_text.specs.Listing.{register_names};
ghost use Rattle.model_text.specs.declared.assembler.AsmCause.{AsmCause};
ghost use Rattle.mc_asm.specs.Parts.{two_parts};

use crate::number::offset;
use mc_text::{cut, has_name_characters, is_digit};
use model_text::AsmCause;

/// Returns whether a text has the form of a label: 1 to 32 letters, digits and underscores, of which the
/// first is no digit.
pub fn is_label(text: &[u8]) -> bool
    ensures { result ≡ is_label text.now }
{
    match text {
        [] => false,
        [first, ..] => !is_digit(*first) && text.len() <= 32 && has_name_characters(text),
    }
}

/// Returns the number of a condition, from 1 for EQ to 7 for ALL.
pub fn condition(text: &[u8]) -> Result<u8, AsmCause>
    ensures value { result ≡ condition text.now }
    ensures range { IfOk result (λ c. (0 < c) × (c < 8)) }
{
    match text {
        b"EQ" => Ok(1),
        b"LT" => Ok(2),
        b"LE" => Ok(3),
        b"GT" => Ok(4),
        b"GE" => Ok(5),
        b"NE" => Ok(6),
        b"ALL" => Ok(7),
        _ => Err(AsmCause::BadOperands),
    }
}

// The tag of a register, from 1 for SB to 7 for PT.
fn register(text: &[u8]) -> Option<u8>
    ensures value { result ≡ place_among 1 register_names text.now }
    ensures range { IfSome result (λ tag. (0 < tag) × (tag < 8)) }
{
    match text {
        b"SB" => Some(1),
        b"ST" => Some(2),
        b"DB" => Some(3),
        b"LB" => Some(4),
        b"DT" => Some(5),
        b"PB" => Some(6),
        b"PT" => Some(7),
        _ => None,
    }
}

// The two parts of a text, if a character separates it exactly once.
#[tactic(auto, using(crate::proofs::TextLemmas::two_parts_cut))]
fn two_parts(text: &[u8], character: u8) -> Option<(&[u8], &[u8])>
    ensures { option_map (λ p. (p.0.now, p.1.now)) result ≡ two_parts character text.now }
{
    let (first, rest) = cut(text, character);
    let (second, more) = cut(rest?, character);
    match more {
        None => Some((first, second)),
        Some(_) => None,
    }
}

/// Reads an address `REG[off]`, and returns the register's tag and the offset.
#[tactic(auto, using(crate::proofs::OperandLemmas::address_parts, crate::proofs::OperandLemmas::offset_kept))]
pub fn address(text: &[u8]) -> Result<(u8, i16), AsmCause>
    ensures value { result ≡ address text.now }
    ensures range { IfOk result (λ a. (0 < a.0) × (a.0 < 8)) }
{
    let Some((name, rest)) = two_parts(text, b'[') else {
        return Err(AsmCause::BadOperands);
    };
    let Some(tag) = register(name) else {
        return Err(AsmCause::BadOperands);
    };
    match two_parts(rest, b']') {
        Some((off, [])) => Ok((tag, offset(off)?)),
        _ => Err(AsmCause::BadOperands),
    }
}

/// Returns two operands.
///
/// # Errors
///
/// Returns the cause for which one of them is refused; of two, the first in the table of causes.
pub fn both<A: Copy, B: Copy>(
    first: Result<A, AsmCause>,
    second: Result<B, AsmCause>,
) -> Result<(A, B), AsmCause>
    ensures { result ≡ both first second }
{
    match (first, second) {
        (Ok(first), Ok(second)) => Ok((first, second)),
        (Ok(_), Err(cause)) => Err(cause),
        (Err(cause), Ok(_)) => Err(cause),
        (Err(cause), Err(other)) => Err(first_cause(cause, other)),
    }
}

// The one of two causes in a line that is first in the table of causes.
fn first_cause(cause: AsmCause, other: AsmCause) -> AsmCause
    ensures { result ≡ first_cause cause other }
{
    match (cause, other) {
        (AsmCause::BadOperands, _) => cause,
        (_, AsmCause::BadOperands) => other,
        (AsmCause::BadNumber, _) => cause,
        (_, AsmCause::BadNumber) => other,
        _ => cause,
    }
}

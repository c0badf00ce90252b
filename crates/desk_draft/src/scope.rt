// What a section declares.
ghost use Rattle.std.specs.Prelude.{◌≡◌, pos, ◌+◌, ◌-◌, ◌<◌, ◌≤◌, ◌^◌, ℕ, List, ◌∷◌, length, nat_le, is_none, option_map, unwrap_or, Err, IfErr, IfOk};
ghost use Rattle.mc_text.specs.model_device.specs.Bytes.{has_name, lookup};
ghost use Rattle.mc_text.specs.model_text.specs.Text.{ok_as};
ghost use Rattle.mc_text.specs.model_text.specs.Listing.{condition_names, register_names};
ghost use Rattle.mc_deck.specs.model_play.specs.DeckGrammar.{number_field};
ghost use Rattle.mc_text.specs.Reading.{capped_number};
ghost use Rattle.mc_asm.specs.Items.{texts};
ghost use Rattle.mc_deck.specs.declared.refusal.Fault.TheVariants.{NoMemory};
ghost use Rattle.desk_draft.specs.Declarations.{const_scope, constant, data_count, data_scope, decimal_field, empty_scope, header_names, label_name, most_session, optional_hex, public_scope, public_span, session_scope, static_count, static_scope, Bytes, NameMeaning};
ghost use Rattle.desk_draft.specs.Views.{is_count_of, meaning_of, only_within, register_tag, scope_by, scope_of, AreNames, NamesOne, TakesScope};

use crate::declaration::Declaration;
use crate::hexadecimal::byte_count;
use crate::meaning::{Meaning, Names, Register, look_up, no_names, put_name};
use mc_asm::{is_label, natural};
use mc_deck::model_play::DeckCause;
use mc_deck::{Fault, number_field};
use mc_text::decimal_number;
use std::alloc::Global;

/// What stands in a section before a line: its names, the numbers of its static and session bytes, and the number of
/// its DATA bytes, if it has a DATA line.
#[derive(Drop)]
pub struct Scope<'a> {
    pub names: Names<'a>,
    pub fixed: u16,
    pub session: u16,
    pub data_bytes: Option<usize>,
}

// The most static bytes of an application, the most session bytes, and the most public bytes.
const MOST_STATIC: u16 = 4096;

const MOST_SESSION: u16 = 256;

const MOST_PUBLIC: u32 = 1041;

/// Returns a section before its first line.
pub fn empty_scope<'a>(alloc: Global) -> Scope<'a>
    ensures names { AreNames result.names header_names }
    ensures value { scope_of result header_names ≡ empty_scope }
{
    Scope {
        names: no_names(alloc),
        fixed: 0,
        session: 0,
        data_bytes: None,
    }
}

// Whether a word is a register.
fn is_register(word: &[u8]) -> bool
    ensures { result ≡ has_name word.now register_names }
{
    matches!(word, b"SB" | b"ST" | b"DB" | b"LB" | b"DT" | b"PB" | b"PT")
}

// Whether a word is a condition.
fn is_condition(word: &[u8]) -> bool
    ensures { result ≡ has_name word.now condition_names }
{
    matches!(word, b"EQ" | b"LT" | b"LE" | b"GT" | b"GE" | b"NE" | b"ALL")
}

// Refuses a text that is no label, or a register or a condition.
#[tactic(auto, using(crate::proofs::ScopeLemmas::no_label, crate::proofs::ScopeLemmas::a_register, crate::proofs::ScopeLemmas::a_condition, crate::proofs::ScopeLemmas::a_name))]
fn check_name(text: &[u8]) -> Result<(), DeckCause>
    ensures { ok_as (λ u. text.now) result ≡ label_name text.now }
{
    if !is_label(text) {
        return Err(DeckCause::BadName);
    }
    if is_register(text) {
        return Err(DeckCause::BadName);
    }
    if is_condition(text) {
        return Err(DeckCause::BadName);
    }
    Ok(())
}

// The number of bytes that a field gives, where there is one.
#[tactic(auto, using(crate::proofs::ScopeLemmas::hex_none, crate::proofs::ScopeLemmas::hex_some, crate::proofs::ScopeLemmas::hex_bad))]
fn count_given(hex: Option<&[u8]>) -> Result<Option<usize>, DeckCause>
    ensures { result ≡ ok_as (option_map length) (optional_hex (option_map (λ t. t.now) hex.entry)) }
{
    let Some(hex) = hex else {
        return Ok(None);
    };
    match byte_count(hex) {
        Some(count) => Ok(Some(count)),
        None => Err(DeckCause::BadHex),
    }
}

// Whether a number of bytes, where there is one, is a size.
fn is_size(count: Option<usize>, size: u32) -> bool
    ensures { result ≡ is_count_of size count }
{
    match count {
        Some(count) => count == size as usize,
        None => true,
    }
}

// The number of bytes of a STATIC line after some static bytes.
#[tactic(auto, using(crate::proofs::ScopeLemmas::count_bad_hex, crate::proofs::ScopeLemmas::count_bad_number, crate::proofs::ScopeLemmas::count_bad_size, crate::proofs::ScopeLemmas::count_good))]
fn static_count(fixed: u16, size: &[u8], hex: Option<&[u8]>) -> Result<u16, DeckCause>
    ensures value { result ≡ static_count fixed size.now (option_map (λ t. t.now) hex.entry) }
    ensures few { IfOk result (λ n. fixed + n ≤ 4096) }
    ensures some { IfOk result (λ n. 0 < n) }
{
    let count = count_given(hex)?;
    let size = number_field(size, 1, MOST_STATIC.saturating_sub(fixed) as u32)?;
    if !is_size(count, size) {
        return Err(DeckCause::OutOfRange);
    }
    Ok(size as u16)
}

// The number of bytes of a SESSION line after some session bytes.
fn session_count(session: u16, size: &[u8]) -> Result<u16, DeckCause>
    ensures value { result ≡ number_field 1 (most_session - session) size.now }
    ensures few { IfOk result (λ n. session + n ≤ 256) }
    ensures some { IfOk result (λ n. 0 < n) }
{
    let size = number_field(size, 1, MOST_SESSION.saturating_sub(session) as u32)?;
    Ok(size as u16)
}

// The place of a PUBLIC line. One that no segment has is 4,294,967,296.
fn place_field(at: &[u8]) -> Result<u64, DeckCause>
    ensures value { result ≡ ok_as capped_number (decimal_field at.now) }
    ensures bound { IfOk result (λ n. n ≤ 4294967296) }
{
    match decimal_number(at) {
        Some(at) => Ok(at),
        None => Err(DeckCause::BadNumber),
    }
}

// The place and the number of bytes of a PUBLIC line.
#[tactic(auto, using(crate::proofs::ScopeLemmas::span_bad_place, crate::proofs::ScopeLemmas::span_bad_size, crate::proofs::ScopeLemmas::span_high, crate::proofs::ScopeLemmas::span_good))]
fn public_span(at: &[u8], size: &[u8]) -> Result<(u16, u16), DeckCause>
    ensures value { result ≡ public_span at.now size.now }
    ensures low { IfOk result (λ p. p.0 < 1041) }
{
    let at = place_field(at)?;
    let size = number_field(size, 1, MOST_PUBLIC)?;
    if at + size as u64 > MOST_PUBLIC as u64 {
        return Err(DeckCause::OutOfRange);
    }
    Ok((at as u16, size as u16))
}

// A number that is not above `high`.
fn within(number: Option<u64>, high: u64) -> Result<(), DeckCause>
    ensures { result ≡ only_within high number }
{
    let Some(number) = number else {
        return Err(DeckCause::BadNumber);
    };
    if number > high {
        return Err(DeckCause::OutOfRange);
    }
    Ok(())
}

// Refuses a text that is no number of two bytes, signed or not.
#[tactic(auto, using(crate::proofs::ScopeLemmas::constant_minus, crate::proofs::ScopeLemmas::constant_plain))]
fn check_constant(text: &[u8]) -> Result<(), DeckCause>
    ensures { ok_as (λ u. text.now) result ≡ constant text.now }
{
    match text {
        [b'-', digits @ ..] => within(decimal_number(digits), 32768),
        _ => within(natural(text), 65535),
    }
}

// Gives a name its meaning, unless the section has the name.
#[tactic(auto, using(crate::proofs::ScopeLemmas::name_twice, crate::proofs::ScopeLemmas::name_new))]
fn declare<'a>(names: &mut Names<'a>, name: &'a [u8], meaning: Meaning<'a>) -> Result<(), Fault>
    ensures { (l : List (List ℕ × NameMeaning)) → AreNames names.old l
        → NamesOne names.new l name.now (meaning_of meaning.entry) result }
{
    match look_up(names, name) {
        Some(_) => Err(Fault::Cause(DeckCause::NameTwice)),
        None => {
            put_name(names, name, meaning)?;
            Ok(())
        }
    }
}

// The bytes from a place of a segment on.
fn bytes_at<'a>(register: Register, at: u16, size: u16) -> Meaning<'a>
    requires { at ≤ 32767 }
    ensures { meaning_of result ≡ Bytes (register_tag register) (pos at) size }
{
    Meaning::Bytes {
        register,
        at: at as i16,
        size,
    }
}

// The next static bytes.
#[tactic(auto, using(crate::proofs::ScopeLemmas::static_data, crate::proofs::ScopeLemmas::static_name, crate::proofs::ScopeLemmas::static_refused, crate::proofs::ScopeLemmas::static_twice, crate::proofs::ScopeLemmas::static_taken))]
fn declare_static<'a>(
    scope: &mut Scope<'a>,
    name: &'a [u8],
    size: &[u8],
    hex: Option<&[u8]>,
) -> Result<(), Fault>
    ensures { (l : List (List ℕ × NameMeaning)) → AreNames scope.old.names l
        → TakesScope scope.new result (static_scope (scope_of scope.old l) name.now size.now
        (option_map (λ t. t.now) hex.entry)) }
{
    if scope.data_bytes.is_some() {
        return Err(Fault::Cause(DeckCause::BadLine));
    }
    check_name(name)?;
    let size = static_count(scope.fixed, size, hex)?;
    let meaning = bytes_at(Register::Sb, scope.fixed, size);
    declare(&mut scope.names, name, meaning)?;
    scope.fixed += size;
    Ok(())
}

// The next session bytes.
#[tactic(auto, using(crate::proofs::ScopeLemmas::session_name, crate::proofs::ScopeLemmas::session_refused, crate::proofs::ScopeLemmas::session_twice, crate::proofs::ScopeLemmas::session_taken))]
fn declare_session<'a>(scope: &mut Scope<'a>, name: &'a [u8], size: &[u8]) -> Result<(), Fault>
    ensures { (l : List (List ℕ × NameMeaning)) → AreNames scope.old.names l
        → TakesScope scope.new result (session_scope (scope_of scope.old l) name.now size.now) }
{
    check_name(name)?;
    let size = session_count(scope.session, size)?;
    let meaning = bytes_at(Register::Db, scope.session, size);
    declare(&mut scope.names, name, meaning)?;
    scope.session += size;
    Ok(())
}

// The public bytes from a place on.
#[tactic(auto, using(crate::proofs::ScopeLemmas::public_name, crate::proofs::ScopeLemmas::public_refused, crate::proofs::ScopeLemmas::public_twice, crate::proofs::ScopeLemmas::public_taken))]
fn declare_public<'a>(
    scope: &mut Scope<'a>,
    name: &'a [u8],
    at: &[u8],
    size: &[u8],
) -> Result<(), Fault>
    ensures { (l : List (List ℕ × NameMeaning)) → AreNames scope.old.names l
        → TakesScope scope.new result (public_scope (scope_of scope.old l) name.now at.now size.now) }
{
    check_name(name)?;
    let (at, size) = public_span(at, size)?;
    let meaning = bytes_at(Register::Pb, at, size);
    declare(&mut scope.names, name, meaning)?;
    Ok(())
}

// A number with a name.
#[tactic(auto, using(crate::proofs::ScopeLemmas::const_name, crate::proofs::ScopeLemmas::const_refused, crate::proofs::ScopeLemmas::const_twice, crate::proofs::ScopeLemmas::const_taken))]
fn declare_constant<'a>(
    scope: &mut Scope<'a>,
    name: &'a [u8],
    number: &'a [u8],
) -> Result<(), Fault>
    ensures { (l : List (List ℕ × NameMeaning)) → AreNames scope.old.names l
        → TakesScope scope.new result (const_scope (scope_of scope.old l) name.now number.now) }
{
    check_name(name)?;
    check_constant(number)?;
    declare(&mut scope.names, name, Meaning::Number(number))?;
    Ok(())
}

/// Takes a declaration into what a section declares.
///
/// # Errors
///
/// The first cause of `BadLine`, `BadName`, `BadHex`, `BadNumber`, `OutOfRange` and `NameTwice` that the declaration
/// has.
pub fn take_declaration<'a>(
    scope: &mut Scope<'a>,
    declaration: &Declaration<'a>,
) -> Result<(), Fault>
    ensures { (l : List (List ℕ × NameMeaning)) → AreNames scope.old.names l
        → TakesScope scope.new result (scope_by (scope_of scope.old l) declaration.now) }
{
    match *declaration {
        Declaration::Static { name, size, hex } => declare_static(scope, name, size, hex),
        Declaration::Session { name, size } => declare_session(scope, name, size),
        Declaration::Public { name, at, size } => declare_public(scope, name, at, size),
        Declaration::Const { name, number } => declare_constant(scope, name, number),
        Declaration::Malformed => Err(Fault::Cause(DeckCause::BadLine)),
    }
}

// The number of bytes of a DATA line with these fields, none where the deck's reader refuses it.
fn data_count(fields: &[&[u8]]) -> usize
    ensures { result ≡ data_count (texts fields.now) }
{
    match fields {
        [_, hex] => byte_count(hex).unwrap_or(0),
        _ => 0,
    }
}

// The sum of two numbers of bytes. One that does not fit in eight bytes counts as out of memory, and no other one.
fn count_sum(before: usize, more: usize) -> Result<usize, Fault>
    ensures value { IfOk result (λ sum. sum ≡ before + more) }
    ensures memory { IfErr result (λ e. e ≡ NoMemory) }
    ensures high { IfErr result (λ e. 2 ^ 64 ≤ before + more) }
{
    match before.checked_add(more) {
        Some(sum) => Ok(sum),
        None => Err(Fault::NoMemory),
    }
}

/// Takes the number of bytes of a DATA line with these fields. A number that does not fit in eight bytes counts as out
/// of memory, and nothing else does.
///
/// # Errors
///
/// `BadLine` if the section has a STATIC line.
pub fn take_data(scope: &mut Scope<'_>, fields: &[&[u8]]) -> Result<(), Fault>
    ensures takes { (l : List (List ℕ × NameMeaning)) → AreNames scope.old.names l
        → TakesScope scope.new result (data_scope (scope_of scope.old l) (texts fields.now)) }
    ensures memory { result ≡ Err NoMemory
        → 2 ^ 64 ≤ unwrap_or scope.old.data_bytes 0 + data_count (texts fields.now) }
{
    if scope.fixed > 0 {
        return Err(Fault::Cause(DeckCause::BadLine));
    }
    let sum = count_sum(scope.data_bytes.unwrap_or(0), data_count(fields))?;
    scope.data_bytes = Some(sum);
    Ok(())
}

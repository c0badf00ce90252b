// A statement between sections, and what it becomes.
ghost use Rattle.std.specs.Prelude.{◌≡◌, ◌++◌, ◌∷◌, ◌&&◌, [], ℕ, List, bytes_eq, codes, is_none, not, ok_or, option_map, OnOk};
ghost use Rattle.mc_text.specs.model_device.specs.Bytes.{has_name, lookup};
ghost use Rattle.mc_text.specs.model_text.specs.Text.{fields, hex_bytes, is_within, ok_as};
ghost use Rattle.mc_text.specs.model_text.specs.Listing.{hex_text};
ghost use Rattle.mc_deck.specs.model_play.specs.declared.deck.DeckCause.TheVariants.{UnknownName};
ghost use Rattle.mc_asm.specs.Items.{texts};
ghost use Rattle.desk_draft.specs.Statements.{after_open, aid_or_name, text_in_brackets, command_field, command_text, counted_hex, is_aid, load_text, named_text, naming_words, one_field_text, only_of, plain_hex, stated_text, statement_text, Loadable};
ghost use Rattle.desk_draft.specs.Views.{loadable_of, part_text, AreSections, Pushes};

use crate::hexadecimal::byte_count;
use crate::part::{after_word, part_in};
use mc_deck::model_play::DeckCause;
use mc_deck::{Fault, fields};
use mc_text::{cut_blank, push, push_byte, push_decimal};
use std::alloc::AllocError;
use std::collections::BTreeMap;

/// What a statement needs of a section: its AID as it was written, and the sizes of its static bytes and of its
/// session.
#[derive(Clone, Copy)]
pub struct Sizes<'a> {
    pub aid: &'a [u8],
    pub fixed: usize,
    pub session: u16,
}

/// The sections that have ended, by their names.
pub type Sections<'a> = BTreeMap<&'a [u8], Sizes<'a>>;

// The number of bytes of a field in brackets, 1 to 255.
fn counted(hex: &[u8]) -> Result<u8, DeckCause>
    ensures { ok_as (λ n. hex_text (n ∷ []) ++ hex.now) result ≡ counted_hex hex.now (hex_bytes hex.now) }
{
    let Some(count) = byte_count(hex) else {
        return Err(DeckCause::BadHex);
    };
    if count == 0 {
        return Err(DeckCause::BadHex);
    }
    if count > 255 {
        return Err(DeckCause::OutOfRange);
    }
    Ok(count as u8)
}

// Adds a field in brackets: the number of its bytes in one byte, and the field.
#[tactic(auto, using(crate::proofs::StatementLemmas::two_pushed))]
fn push_counted(deck: &mut Vec<u8>, hex: &[u8]) -> Result<(), Fault>
    ensures { Pushes deck.old.items (counted_hex hex.now (hex_bytes hex.now)) result deck.new.items }
{
    let count = counted(hex)?;
    push_byte(deck, count)?;
    push(deck, hex)?;
    Ok(())
}

// What stands after an opening bracket.
fn after_open(text: &[u8]) -> Option<&[u8]>
    ensures { option_map (λ t. t.now) result ≡ after_open text.now }
{
    match text {
        [b'(', inner @ ..] => Some(inner),
        _ => None,
    }
}

// What stands in round brackets.
fn text_in_brackets(field: &[u8]) -> Option<&[u8]>
    ensures { option_map (λ t. t.now) result ≡ text_in_brackets field.now }
{
    match field {
        [front @ .., b')'] => after_open(front),
        _ => None,
    }
}

// Whether a field has whole bytes.
fn plain(field: &[u8]) -> Result<(), DeckCause>
    ensures { ok_as (λ u. field.now) result ≡ plain_hex field.now (hex_bytes field.now) }
{
    match byte_count(field) {
        Some(_) => Ok(()),
        None => Err(DeckCause::BadHex),
    }
}

// Adds a field without brackets.
#[tactic(auto, using(crate::proofs::StatementLemmas::one_pushed))]
fn push_plain(deck: &mut Vec<u8>, field: &[u8]) -> Result<(), Fault>
    ensures { Pushes deck.old.items (plain_hex field.now (hex_bytes field.now)) result deck.new.items }
{
    plain(field)?;
    push(deck, field)?;
    Ok(())
}

// Adds a field of a command.
fn push_field(deck: &mut Vec<u8>, field: &[u8]) -> Result<(), Fault>
    ensures { Pushes deck.old.items (command_field field.now) result deck.new.items }
{
    match text_in_brackets(field) {
        Some(inner) => push_counted(deck, inner),
        None => push_plain(deck, field),
    }
}

// Adds a part between blanks, which is no field where it is empty.
fn push_part(deck: &mut Vec<u8>, part: &[u8]) -> Result<(), Fault>
    ensures { Pushes deck.old.items (part_text part.now) result deck.new.items }
{
    if part.is_empty() {
        return Ok(());
    }
    push_field(deck, part)
}

// Adds the fields of a command, joined.
fn push_command(deck: &mut Vec<u8>, text: &[u8]) -> Result<(), Fault>
    ensures { Pushes deck.old.items (command_text (fields text.now)) result deck.new.items }
{
    let mut rest = Some(text);
    while let Some(left) = rest {
        let (part, behind) = cut_blank(left);
        push_part(deck, part)?;
        rest = behind;
    }
    Ok(())
}

/// Returns the sizes of the section with a name, or `None` if no section has it.
pub fn sizes_of<'a>(sections: &Sections<'a>, name: &'a [u8]) -> Option<Sizes<'a>>
    ensures { (l : List (List ℕ × Loadable)) → AreSections sections.now l
        → option_map loadable_of result ≡ lookup l name.now }
{
    sections.get(&name).copied()
}

// Adds the name of a section and its sizes.
#[tactic(auto, using(crate::proofs::StatementLemmas::load_pushed))]
fn push_sizes(deck: &mut Vec<u8>, name: &[u8], sizes: &Sizes<'_>) -> Result<(), AllocError>
    ensures { OnOk result (deck.new.items ≡ deck.old.items ++ load_text name.now (loadable_of sizes.now)) }
{
    push(deck, name)?;
    push(deck, b" ")?;
    push_decimal(deck, sizes.fixed)?;
    push(deck, b" ")?;
    push_decimal(deck, sizes.session as usize)
}

// Adds the name of a section and the sizes that a `load` of it stands for.
#[tactic(auto, using(crate::proofs::StatementLemmas::load_found, crate::proofs::StatementLemmas::load_unknown))]
fn push_load<'a>(deck: &mut Vec<u8>, sections: &Sections<'a>, name: &'a [u8]) -> Result<(), Fault>
    ensures { (l : List (List ℕ × Loadable)) → AreSections sections.now l
        → Pushes deck.old.items (ok_as (load_text name.now) (ok_or (lookup l name.now) UnknownName)) result
        deck.new.items }
{
    match sizes_of(sections, name) {
        None => Err(Fault::Cause(DeckCause::UnknownName)),
        Some(sizes) => {
            push_sizes(deck, name, &sizes)?;
            Ok(())
        }
    }
}

// Whether an AID may have this many bytes.
fn is_aid_length(count: usize) -> bool
    ensures { result ≡ is_within 5 16 count }
{
    count >= 5 && count <= 16
}

// Whether a field is an AID.
#[tactic(auto, using(crate::proofs::StatementLemmas::aid_some, crate::proofs::StatementLemmas::aid_none))]
fn is_aid(field: &[u8]) -> bool
    ensures { result ≡ is_aid field.now }
{
    match byte_count(field) {
        Some(count) => is_aid_length(count),
        None => false,
    }
}

// The AID of the section that a field names, and else the field.
#[tactic(auto, using(crate::proofs::StatementLemmas::aid_stays, crate::proofs::StatementLemmas::aid_named, crate::proofs::StatementLemmas::aid_unnamed))]
fn aid_of<'a>(sections: &Sections<'a>, field: &'a [u8]) -> &'a [u8]
    ensures { (l : List (List ℕ × Loadable)) → AreSections sections.now l
        → result.now ≡ aid_or_name l field.now }
{
    if is_aid(field) {
        return field;
    }
    match sizes_of(sections, field) {
        Some(sizes) => sizes.aid,
        None => field,
    }
}

// Whether a word may name a section.
fn is_naming(word: &[u8]) -> bool
    ensures { result ≡ has_name word.now naming_words }
{
    matches!(word, b"select" | b"delete" | b"dump")
}

/// Returns whether a field may name a section by its word, and neither is an AID nor the name of a section.
pub fn is_unnamed<'a>(sections: &Sections<'a>, word: &[u8], field: &'a [u8]) -> bool
    ensures { (l : List (List ℕ × Loadable)) → AreSections sections.now l
        → result ≡ (has_name word.now naming_words && (not (is_aid field.now) && is_none (lookup l field.now))) }
{
    is_naming(word) && !is_aid(field) && sizes_of(sections, field).is_none()
}

// Whether a word is `load`.
fn is_load(word: &[u8]) -> bool
    ensures { result ≡ bytes_eq word.now (codes "load") }
{
    word == b"load".as_slice()
}

// Whether a word is `apdu`.
fn is_apdu(word: &[u8]) -> bool
    ensures { result ≡ bytes_eq word.now (codes "apdu") }
{
    word == b"apdu".as_slice()
}

// Adds the one field of a statement.
#[tactic(auto, using(crate::proofs::StatementLemmas::load_field, crate::proofs::StatementLemmas::naming_field, crate::proofs::StatementLemmas::other_field))]
fn push_one_field<'a>(
    deck: &mut Vec<u8>,
    sections: &Sections<'a>,
    word: &[u8],
    field: &'a [u8],
) -> Result<(), Fault>
    ensures { (l : List (List ℕ × Loadable)) → AreSections sections.now l
        → Pushes deck.old.items (one_field_text l word.now field.now) result deck.new.items }
{
    if is_load(word) {
        return push_load(deck, sections, field);
    }
    if is_naming(word) {
        push(deck, aid_of(sections, field))?;
        return Ok(());
    }
    push(deck, field)?;
    Ok(())
}

// The one field of a list that has one.
fn only<'a>(fields: &[&'a [u8]]) -> Option<&'a [u8]>
    ensures { option_map (λ t. t.now) result ≡ only_of (texts fields.now) }
{
    match fields {
        [field] => Some(field),
        _ => None,
    }
}

// Adds what stands after the word of a statement other than `apdu`, which has these fields after its word.
#[tactic(auto, using(crate::proofs::StatementLemmas::named_one, crate::proofs::StatementLemmas::named_other))]
fn push_named<'a>(
    deck: &mut Vec<u8>,
    sections: &Sections<'a>,
    word: &[u8],
    fields: &[&'a [u8]],
    text: &'a [u8],
) -> Result<(), Fault>
    ensures { (l : List (List ℕ × Loadable)) → AreSections sections.now l
        → Pushes deck.old.items (named_text l word.now (texts fields.now) text.now) result deck.new.items }
{
    match only(fields) {
        Some(field) => push_one_field(deck, sections, word, field),
        None => {
            push(deck, text)?;
            Ok(())
        }
    }
}

// Adds what stands after the word of a statement with these fields.
#[tactic(auto, using(crate::proofs::StatementLemmas::command_stated, crate::proofs::StatementLemmas::named_stated))]
fn push_stated<'a>(
    deck: &mut Vec<u8>,
    sections: &Sections<'a>,
    fields: &[&'a [u8]],
    text: &'a [u8],
) -> Result<(), Fault>
    ensures { (l : List (List ℕ × Loadable)) → AreSections sections.now l
        → Pushes deck.old.items (stated_text l (texts fields.now) text.now) result deck.new.items }
{
    match fields {
        [] => {
            push(deck, text)?;
            Ok(())
        }
        [word, rest @ ..] => {
            if is_apdu(word) {
                return push_command(deck, text);
            }
            push_named(deck, sections, word, rest, text)
        }
    }
}

// Adds what stands after the word of a line.
#[tactic(auto, using(crate::proofs::StatementLemmas::stated_five))]
fn push_rest<'a>(
    deck: &mut Vec<u8>,
    sections: &Sections<'a>,
    line: &'a [u8],
    rest: &'a [u8],
) -> Result<(), Fault>
    ensures { (l : List (List ℕ × Loadable)) → AreSections sections.now l
        → Pushes deck.old.items (stated_text l (fields line.now) rest.now) result deck.new.items }
{
    push_stated(deck, sections, fields(line).as_slice(), rest)
}

/// Adds the deck's line of a statement, where these sections stand before it.
///
/// # Errors
///
/// `UnknownName` for a `load` of one field that no section has as its name; of an `apdu`, `BadHex` for a field that is
/// empty or no whole bytes, and `OutOfRange` for more than 255 bytes in brackets.
pub fn push_statement<'a>(
    deck: &mut Vec<u8>,
    sections: &Sections<'a>,
    line: &'a [u8],
) -> Result<(), Fault>
    ensures { (l : List (List ℕ × Loadable)) → AreSections sections.now l
        → Pushes deck.old.items (statement_text l line.now) result deck.new.items }
{
    let part = part_in(line, after_word(line));
    push(deck, part.before)?;
    push_rest(deck, sections, line, part.core)?;
    push(deck, part.after)?;
    Ok(())
}

// A rule of a draft, and what it becomes.
ghost use Rattle.std.specs.Prelude.{◌≡◌, ◌≤◌, ◌++◌, ◌==◌, ◌&&◌, ℕ, List, bytes_eq, codes, length, not, option_map};
ghost use Rattle.mc_text.specs.model_text.specs.Text.{fields, first_cut, ok_as, only_if};
ghost use Rattle.mc_deck.specs.model_play.specs.declared.deck.DeckCause.TheVariants.{UnknownName};
ghost use Rattle.mc_asm.specs.Items.{texts};
ghost use Rattle.desk_draft.specs.Declarations.{NameMeaning};
ghost use Rattle.desk_draft.specs.Parts.{before_rest};
ghost use Rattle.desk_draft.specs.Rules.{brace_text, braces_text, has_second, is_rule, is_unknown, moved_text, opened_text, rule_text, two_of};
ghost use Rattle.desk_draft.specs.Statements.{Loadable};
ghost use Rattle.desk_draft.specs.Views.{AreNames, AreSections, Pushes};

use crate::meaning::Names;
use crate::operand::{operand_of, push_operand};
use crate::part::{after_word, before_rest, first_word};
use crate::statement::{Sections, is_unnamed, push_statement};
use mc_deck::model_play::DeckCause;
use mc_deck::{Fault, fields};
use mc_text::{cut, push};
use std::alloc::Global;

/// Returns whether a line is a rule.
pub fn is_rule(line: &[u8]) -> bool
    ensures { result ≡ is_rule line.now }
{
    first_word(line) == b"#@".as_slice()
}

// Whether the second word of a line is this one.
fn has_second(line: &[u8], word: &[u8]) -> bool
    ensures { result ≡ has_second line.now word.now }
{
    first_word(after_word(line)) == word
}

/// Returns whether a line is a rule about an application.
pub fn names_app(line: &[u8]) -> bool
    ensures { result ≡ (is_rule line.now && has_second line.now (codes "app")) }
{
    is_rule(line) && has_second(line, b"app")
}

// Adds what a text in braces becomes, which is no name if it stays.
fn push_made(deck: &mut Vec<u8>, made: &[u8], text: &[u8]) -> Result<(), Fault>
    ensures { Pushes deck.old.items (only_if (not (bytes_eq made.now text.now)) UnknownName made.now) result
        deck.new.items }
{
    if made == text {
        return Err(Fault::Cause(DeckCause::UnknownName));
    }
    push(deck, made)?;
    Ok(())
}

// Adds what a text in braces becomes.
fn push_brace<'a>(
    alloc: Global,
    deck: &mut Vec<u8>,
    names: &Names<'a>,
    text: &'a [u8],
) -> Result<(), Fault>
    ensures { (l : List (List ℕ × NameMeaning)) → AreNames names.now l
        → Pushes deck.old.items (brace_text l text.now) result deck.new.items }
{
    let operand = operand_of(names, false, text)?;
    let mut made = Vec::new(alloc);
    push_operand(&mut made, &operand)?;
    push_made(deck, made.as_slice(), text)
}

// Adds what stands after an opening brace becomes.
fn push_opened<'a>(
    alloc: Global,
    deck: &mut Vec<u8>,
    names: &Names<'a>,
    piece: &'a [u8],
) -> Result<(), Fault>
    ensures { (l : List (List ℕ × NameMeaning)) → AreNames names.now l
        → Pushes deck.old.items (opened_text l (first_cut (λ c. c == 125) piece.now)) result deck.new.items }
{
    let (text, behind) = cut(piece, b'}');
    match behind {
        None => Err(Fault::Cause(DeckCause::BadLine)),
        Some(rest) => {
            push_brace(alloc, deck, names, text)?;
            push(deck, rest)?;
            Ok(())
        }
    }
}

// Adds what a text becomes that has names in braces.
fn push_braces<'a>(
    alloc: Global,
    deck: &mut Vec<u8>,
    names: &Names<'a>,
    text: &'a [u8],
) -> Result<(), Fault>
    ensures { (l : List (List ℕ × NameMeaning)) → AreNames names.now l
        → Pushes deck.old.items (braces_text l text.now) result deck.new.items }
{
    let (first, mut rest) = cut(text, b'{');
    push(deck, first)?;
    while let Some(left) = rest {
        let (piece, behind) = cut(left, b'{');
        push_opened(alloc, deck, names, piece)?;
        rest = behind;
    }
    Ok(())
}

// The two fields of a list that has two.
fn only_two<'a>(fields: &[&'a [u8]]) -> Option<(&'a [u8], &'a [u8])>
    ensures { option_map (λ p. (p.0.now, p.1.now)) result ≡ two_of (texts fields.now) }
{
    match fields {
        [word, field] => Some((word, field)),
        _ => None,
    }
}

// Whether a statement with these fields selects or deletes by a name that no section has.
fn is_unknown<'a>(sections: &Sections<'a>, fields: &[&'a [u8]]) -> bool
    ensures { (l : List (List ℕ × Loadable)) → AreSections sections.now l → result ≡ is_unknown l (texts fields.now) }
{
    match only_two(fields) {
        Some(pair) => is_unnamed(sections, pair.0, pair.1),
        None => false,
    }
}

// Adds what the statement of a move becomes.
fn push_moved<'a>(
    deck: &mut Vec<u8>,
    sections: &Sections<'a>,
    statement: &'a [u8],
) -> Result<(), Fault>
    ensures { (l : List (List ℕ × Loadable)) → AreSections sections.now l
        → Pushes deck.old.items (moved_text l statement.now) result deck.new.items }
{
    if is_unknown(sections, fields(statement).as_slice()) {
        return Err(Fault::Cause(DeckCause::BadHex));
    }
    push_statement(deck, sections, statement)
}

// Adds a move, whose statement is the end of the line.
fn push_move<'a>(
    deck: &mut Vec<u8>,
    sections: &Sections<'a>,
    line: &'a [u8],
    statement: &'a [u8],
) -> Result<(), Fault>
    requires { length statement.now ≤ length line.now }
    ensures { (l : List (List ℕ × Loadable)) → AreSections sections.now l
        → Pushes deck.old.items
        (ok_as (λ t. before_rest line.now statement.now ++ t) (moved_text l statement.now)) result deck.new.items }
{
    push(deck, before_rest(line, statement))?;
    push_moved(deck, sections, statement)
}

/// Adds the deck's line of a rule, where these sections and names stand before it.
///
/// # Errors
///
/// `UnknownName` for braces without a name, `BadLine` for an opening brace without a closing one, `OutOfRange` if a
/// place is not among the bytes of its name; of a move, the refusals of its statement, and `BadHex` for a name that no
/// section has.
pub fn push_rule<'a>(
    alloc: Global,
    deck: &mut Vec<u8>,
    sections: &Sections<'a>,
    names: &Names<'a>,
    line: &'a [u8],
) -> Result<(), Fault>
    ensures { (s : List (List ℕ × Loadable)) (l : List (List ℕ × NameMeaning)) → AreSections sections.now s
        → AreNames names.now l → Pushes deck.old.items (rule_text s l line.now) result deck.new.items }
{
    if has_second(line, b"move") {
        return push_move(deck, sections, line, after_word(after_word(line)));
    }
    push_braces(alloc, deck, names, line)
}

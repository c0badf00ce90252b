// An instruction, and what it becomes.
ghost use Rattle.std.specs.Prelude.{◌≡◌, ◌==◌, ◌&&◌, ℕ, List, length};
ghost use Rattle.mc_text.specs.model_text.specs.Text.{first_cut, pieces};
ghost use Rattle.mc_text.specs.model_device.specs.Bytes.{has_name};
ghost use Rattle.desk_draft.specs.Declarations.{NameMeaning};
ghost use Rattle.desk_draft.specs.Operands.{after_text, body_text, instruction_text, jump_words, labelled_text, moving_words, one_block_words, piece_text, pieces_text, sized_words, two_block_words};
ghost use Rattle.desk_draft.specs.Views.{AreNames, Pushes};

use crate::meaning::Names;
use crate::operand::{operand_of, push_operand};
use crate::part::{after_front, after_word, before_rest, first_word, part_of, without_comment};
use mc_deck::Fault;
use mc_text::{cut, push};

// Whether a word goes to a place of the code.
fn is_jump(word: &[u8]) -> bool
    ensures { result ≡ has_name word.now jump_words }
{
    matches!(word, b"BRANCH" | b"JUMP" | b"CALL")
}

// Whether a word moves bytes to the stack or from it.
fn is_moving(word: &[u8]) -> bool
    ensures { result ≡ has_name word.now moving_words }
{
    matches!(word, b"LOAD" | b"STORE")
}

// Whether a word changes or tests one block of bytes.
fn is_one_block(word: &[u8]) -> bool
    ensures { result ≡ has_name word.now one_block_words }
{
    matches!(word, b"CLEARN" | b"TESTN" | b"INCN" | b"DECN" | b"NOTN")
}

// Whether a word works on a block of bytes and the top of the stack.
fn is_two_blocks(word: &[u8]) -> bool
    ensures { result ≡ has_name word.now two_block_words }
{
    matches!(
        word,
        b"CMPN" | b"ADDN" | b"SUBN" | b"ANDN" | b"ORN" | b"XORN"
    )
}

// Whether the second operand of a word is the length of its first.
#[tactic(auto, using(crate::proofs::WordLemmas::sized_by_families))]
fn is_sized(word: &[u8]) -> bool
    ensures { result ≡ has_name word.now sized_words }
{
    is_moving(word) || is_one_block(word) || is_two_blocks(word)
}

// Whether a text of operands has one alone.
#[tactic(none)]
fn is_one(text: &[u8]) -> bool
    ensures { result ≡ (length (pieces (λ c. c == 44) text.now) == 1) }
{
    let (_, behind) = cut(text, b',');
    match behind {
        None => true,
        Some(_) => false,
    }
}

// Whether the size of an operand is added, which is the only one of its word.
fn adds_size(word: &[u8], after: &[u8]) -> bool
    ensures { result ≡ (has_name word.now sized_words && (length (pieces (λ c. c == 44) after.now) == 1)) }
{
    is_sized(word) && is_one(after)
}

// Adds what one operand becomes, with the blanks around it.
#[tactic(auto, using(crate::proofs::PushLemmas::piece_pushed, crate::proofs::PushLemmas::piece_faulty))]
fn push_piece<'a>(
    deck: &mut Vec<u8>,
    names: &Names<'a>,
    sized: bool,
    piece: &'a [u8],
) -> Result<(), Fault>
    ensures { (l : List (List ℕ × NameMeaning)) → AreNames names.now l
        → Pushes deck.old.items (piece_text l sized piece.now) result deck.new.items }
{
    let part = part_of(piece);
    let operand = operand_of(names, sized, part.core)?;
    push(deck, part.before)?;
    push_operand(deck, &operand)?;
    push(deck, part.after)?;
    Ok(())
}

// Adds what operands become, each between its commas.
fn push_pieces<'a>(
    deck: &mut Vec<u8>,
    names: &Names<'a>,
    sized: bool,
    text: &'a [u8],
) -> Result<(), Fault>
    ensures { (l : List (List ℕ × NameMeaning)) → AreNames names.now l
        → Pushes deck.old.items (pieces_text l sized (pieces (λ c. c == 44) text.now)) result deck.new.items }
{
    let (first, mut rest) = cut(text, b',');
    push_piece(deck, names, sized, first)?;
    while let Some(left) = rest {
        push(deck, b",")?;
        let (piece, behind) = cut(left, b',');
        push_piece(deck, names, sized, piece)?;
        rest = behind;
    }
    Ok(())
}

// Adds what stands after a word.
#[tactic(auto, using(crate::proofs::PushLemmas::jump_pushed, crate::proofs::PushLemmas::operands_pushed))]
fn push_after<'a>(
    deck: &mut Vec<u8>,
    names: &Names<'a>,
    word: &[u8],
    after: &'a [u8],
) -> Result<(), Fault>
    ensures { (l : List (List ℕ × NameMeaning)) → AreNames names.now l
        → Pushes deck.old.items (after_text l word.now after.now) result deck.new.items }
{
    if is_jump(word) {
        push(deck, after)?;
        return Ok(());
    }
    push_pieces(deck, names, adds_size(word, after), after)
}

// Adds the part of a line after its label.
fn push_body<'a>(deck: &mut Vec<u8>, names: &Names<'a>, body: &'a [u8]) -> Result<(), Fault>
    ensures { (l : List (List ℕ × NameMeaning)) → AreNames names.now l
        → Pushes deck.old.items (body_text l body.now) result deck.new.items }
{
    let after = after_word(body);
    push(deck, before_rest(body, after))?;
    push_after(deck, names, first_word(body), after)
}

// Adds a line without its comment, whose label stays.
fn push_labelled<'a>(deck: &mut Vec<u8>, names: &Names<'a>, code: &'a [u8]) -> Result<(), Fault>
    ensures { (l : List (List ℕ × NameMeaning)) → AreNames names.now l
        → Pushes deck.old.items (labelled_text l (first_cut (λ c. c == 58) code.now)) result deck.new.items }
{
    let (front, behind) = cut(code, b':');
    match behind {
        None => push_body(deck, names, front),
        Some(body) => {
            push(deck, front)?;
            push(deck, b":")?;
            push_body(deck, names, body)
        }
    }
}

/// Adds the deck's line of an instruction, where these names are in force.
///
/// # Errors
///
/// `OutOfRange` if a place is not among the bytes of its name.
pub fn push_instruction<'a>(
    deck: &mut Vec<u8>,
    names: &Names<'a>,
    line: &'a [u8],
) -> Result<(), Fault>
    ensures { (l : List (List ℕ × NameMeaning)) → AreNames names.now l
        → Pushes deck.old.items (instruction_text l line.now) result deck.new.items }
{
    let code = without_comment(line);
    push_labelled(deck, names, code)?;
    push(deck, after_front(line, code))?;
    Ok(())
}

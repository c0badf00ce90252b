// Lines: a label, and a word with its operands.
ghost use Rattle.std.specs.Prelude.{◌≡◌, ◌+◌, ◌≤◌, length, take, map, option_map, Some, None, Ok, Err, IfOk, OnOk};
ghost use Rattle.arrayvec.specs.ArrayVec.{array_vec_len};
ghost use Rattle.model_text.specs.Text.{first_cut, is_blank, ok_as};
ghost use Rattle.model_text.specs.Assembly.{operands, word_and_operands, label_and_rest, line_read};
ghost use Rattle.mc_asm.specs.Items.{item_of, line_of, texts, Ready};

use crate::item::{Item, worded};
use crate::operand::is_label;
use crate::words::form_named;
use arrayvec::ArrayVec;
use mc_text::{cut, cut_blank, trim};
use model_text::AsmCause;

/// A line of a text without its end, and its number.
#[derive(Clone, Copy, Debug, PartialEq, Eq)]
pub struct NumberedLine<'a> {
    pub number: u32,
    pub text: &'a [u8],
}

/// A line's label and its item.
#[derive(Clone, Copy)]
pub struct Line<'a> {
    pub label: Option<&'a [u8]>,
    pub item: Item<'a>,
}

// The operands after a word: the first five, since no word has more than four.
fn operands<'a>(text: Option<&'a [u8]>) -> ArrayVec<&'a [u8], 5>
    ensures { texts result.items ≡ take 5 (operands (option_map (λ t. t.now) text.entry)) }
{
    let mut parts = ArrayVec::new();
    let mut rest = text;
    while let Some(left) = rest {
        if parts.is_full() {
            return parts;
        }
        let (part, behind) = cut(left, b',');
        parts.push(trim(part));
        rest = behind;
    }
    parts
}

// The item of a word and its operands, `Nothing` if there is no word.
#[tactic(auto, using(crate::proofs::LineLemmas::first_five))]
fn word_and_operands(text: &[u8]) -> Result<Item<'_>, AsmCause>
    ensures value { ok_as item_of result ≡ word_and_operands (first_cut is_blank text.now) }
    ensures ready { IfOk result Ready }
{
    let (word, rest) = cut_blank(text);
    if word.is_empty() {
        return Ok(Item::Nothing);
    }
    let Some(form) = form_named(word) else {
        return Err(AsmCause::UnknownWord);
    };
    worded(form, operands(rest).as_slice())
}

// A label before its colon, and the rest of the line, of which there is none without a colon.
fn labelled<'a>(front: &'a [u8], behind: Option<&'a [u8]>) -> Result<Line<'a>, AsmCause>
    ensures value { ok_as line_of result ≡ label_and_rest front.now (option_map (λ t. t.now) behind.entry) }
    ensures ready { IfOk result (λ l. Ready l.item) }
{
    let Some(rest) = behind else {
        let item = word_and_operands(trim(front))?;
        return Ok(Line { label: None, item });
    };
    let label = trim(front);
    if !is_label(label) {
        return Err(AsmCause::UnknownWord);
    }
    let item = word_and_operands(trim(rest))?;
    Ok(Line {
        label: Some(label),
        item,
    })
}

/// Reads a line `[LABEL:] [WORD [OPERANDS]] [; comment]`.
///
/// # Errors
///
/// Returns the cause why the line is refused.
#[tactic(auto, unfolding(model_text::specs::Assembly::line_read))]
pub fn read_line(line: &[u8]) -> Result<Line<'_>, AsmCause>
    ensures value { ok_as line_of result ≡ line_read line.now }
    ensures ready { IfOk result (λ l. Ready l.item) }
{
    let (text, _comment) = cut(line, b';');
    let (front, behind) = cut(text, b':');
    labelled(front, behind)
}

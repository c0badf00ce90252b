// One line of what is explained.
ghost use Rattle.std.specs.Prelude.{◌≡◌, IfOk, OnOk};
ghost use Rattle.desk_explain.specs.Explained.{causes};

use crate::column::column_at;
use crate::part::Part;
use crate::sentence::{Sentence, warning_sentence};
use crate::warning::Warning;
use mc_text::push;
use std::alloc::{AllocError, Global};

/// What is said of a place: the number of its line, its column, the word of the cause, and a text. A warning refuses
/// nothing.
#[derive(Drop)]
pub struct Entry {
    pub number: u32,
    pub column: u32,
    pub word: &'static str,
    pub text: Vec<u8>,
}

// Adds the text of a place.
fn push_part(text: &mut Vec<u8>, part: &[u8]) -> Result<(), AllocError> {
    if part.is_empty() {
        return push(text, b"nothing stands here");
    }
    push(text, b"`")?;
    push(text, part)?;
    push(text, b"` stands here")
}

/// Adds what was expected, and what to do.
pub fn push_sentence(text: &mut Vec<u8>, sentence: Sentence) -> Result<(), AllocError> {
    push(text, b"; expected ")?;
    push(text, sentence.expected.as_bytes())?;
    push(text, b"; ")?;
    push(text, sentence.advice.as_bytes())
}

/// Returns an entry of a part of a line: its text, what was expected, and what to do.
pub fn entry_of(
    alloc: Global,
    number: u32,
    line: &[u8],
    part: Part<'_>,
    word: &'static str,
    sentence: Sentence,
) -> Result<Entry, AllocError>
    ensures number { IfOk result (λ e. e.number ≡ number) }
    ensures word { IfOk result (λ e. e.word.now ≡ word.now) }
{
    let mut text = Vec::new(alloc);
    push_part(&mut text, part.text)?;
    push_sentence(&mut text, sentence)?;
    Ok(Entry {
        number,
        column: column_at(line, part.at),
        word,
        text,
    })
}

/// Adds a warning of a part of a line.
#[tactic(auto, using(crate::proofs::ExplainLemmas::warned))]
pub fn warn(
    alloc: Global,
    entries: &mut Vec<Entry>,
    number: u32,
    line: &[u8],
    part: Part<'_>,
    warning: Warning,
) -> Result<(), AllocError>
    ensures { OnOk result (causes entries.new.items ≡ causes entries.old.items) }
{
    let entry = entry_of(
        alloc,
        number,
        line,
        part,
        "warning",
        warning_sentence(warning),
    )?;
    entries.push(entry)?;
    Ok(())
}

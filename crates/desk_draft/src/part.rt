// Parts of a line, with the blanks around them.
ghost use Rattle.std.specs.Prelude.{◌≡◌, ◌≤◌, drop, length};
ghost use Rattle.desk_draft.specs.Parts.{after_word, before_rest, first_word, part_of, part_in, without_comment};
ghost use Rattle.desk_draft.specs.Views.{part_value};

use mc_text::{cut, cut_blank, trim, trim_front};

/// A part of a text, with what stands before it and after it.
#[derive(Clone, Copy)]
pub struct Part<'a> {
    pub before: &'a [u8],
    pub core: &'a [u8],
    pub after: &'a [u8],
}

/// Returns what stands in a text before its rest.
pub fn before_rest<'a>(text: &'a [u8], rest: &[u8]) -> &'a [u8]
    requires { length rest.now ≤ length text.now }
    ensures { result.now ≡ before_rest text.now rest.now }
{
    text.split_at(text.len() - rest.len()).0
}

/// Returns what stands in a text after its front.
pub fn after_front<'a>(text: &'a [u8], front: &[u8]) -> &'a [u8]
    requires { length front.now ≤ length text.now }
    ensures { result.now ≡ drop (length front.now) text.now }
{
    text.split_at(front.len()).1
}

/// Returns the part of a text that its rest is without the blanks around it.
#[tactic(auto, using(crate::proofs::PartLemmas::begun_short, crate::proofs::PartLemmas::core_short))]
pub fn part_in<'a>(text: &'a [u8], rest: &'a [u8]) -> Part<'a>
    requires { length rest.now ≤ length text.now }
    ensures { part_value result ≡ part_in text.now rest.now }
{
    let begun = trim_front(rest);
    let core = trim(rest);
    Part {
        before: before_rest(text, begun),
        core,
        after: begun.split_at(core.len()).1,
    }
}

/// Returns a text without the blanks around it, between them.
pub fn part_of(text: &[u8]) -> Part<'_>
    ensures { part_value result ≡ part_of text.now }
{
    part_in(text, text)
}

/// Returns the first word of a text, which is empty in a text of blanks.
#[tactic(auto, using(crate::proofs::PartLemmas::word_short))]
pub fn first_word(text: &[u8]) -> &[u8]
    ensures value { result.now ≡ first_word text.now }
    ensures short { length result.now ≤ length text.now }
{
    let (word, _) = cut_blank(trim_front(text));
    word
}

/// Returns what stands in a text after its first word.
#[tactic(auto, using(crate::proofs::PartLemmas::after_short, crate::proofs::PartLemmas::front_short))]
pub fn after_word(text: &[u8]) -> &[u8]
    ensures value { result.now ≡ after_word text.now }
    ensures short { length result.now ≤ length text.now }
{
    let begun = trim_front(text);
    let (word, _) = cut_blank(begun);
    begun.split_at(word.len()).1
}

/// Returns a line of a section without its comment.
#[tactic(auto, using(crate::proofs::PartLemmas::uncommented_short))]
pub fn without_comment(line: &[u8]) -> &[u8]
    ensures value { result.now ≡ without_comment line.now }
    ensures short { length result.now ≤ length line.now }
{
    cut(line, b';').0
}

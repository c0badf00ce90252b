// Results laid out as patterns.
ghost use Rattle.std.specs.Prelude.{◌≡◌, ◌+◌, ◌<◌, ◌≤◌, ◌++◌, ◌∷◌, [], length};
ghost use Rattle.arrayvec.specs.ArrayVec.{array_vec_len};
ghost use Rattle.law_explore.specs.model_text.specs.Text.{is_blank, pieces};
ghost use Rattle.law_explore.specs.model_events.specs.Patterns.{without_blanks};
ghost use Rattle.mc_text.specs.Texts.{sunk, Puts};
ghost use Rattle.mc_lab.specs.Expectations.{laid_by, laid_out, lays_out};

use mc_script::Text;
use mc_streams::{Sink, WriteFault};
use mc_text::{cut, cut_blank, is_blank, put};

// Whether results are laid out as a pattern: it has a blank, and no `*`.
fn lays_out(pattern: &[u8]) -> bool
    ensures { result ≡ lays_out pattern.now }
{
    cut(pattern, b'*').1.is_none() && cut_blank(pattern).1.is_some()
}

// Adds a character that is not a blank.
fn keep(kept: &mut Text, character: u8)
    requires { array_vec_len kept.old < 8211 }
    ensures text { kept.new.items ≡ kept.old.items ++ without_blanks (character ∷ []) }
    ensures few { array_vec_len kept.new ≤ array_vec_len kept.old + 1 }
{
    if is_blank(character) {
        return;
    }
    kept.push(character);
}

// A text without blanks.
fn without_blanks(text: &[u8]) -> Text
    requires { length text.now ≤ 8211 }
    ensures { result.items ≡ without_blanks text.now }
{
    let mut kept = Text::new();
    for character in text {
        keep(&mut kept, *character);
    }
    kept
}

// Writes a text, with a blank after as many characters as each word of a pattern has, but for the last one.
fn put_by_words<T: Sink>(out: &mut T, pattern: &[u8], text: &[u8]) -> Result<(), WriteFault>
    ensures { Puts (sunk T.Sink out.old) (laid_by (pieces is_blank pattern.now) text.now) result
        (sunk T.Sink out.new) }
{
    let mut signs = pattern;
    let mut rest = text;
    loop {
        let (word, behind) = cut_blank(signs);
        let Some(behind) = behind else {
            return put(out, rest);
        };
        let (front, left) = rest.split_at(word.len().min(rest.len()));
        put(out, front)?;
        if left.is_empty() {
            return Ok(());
        }
        put(out, b" ")?;
        signs = behind;
        rest = left;
    }
}

/// Writes a result with blanks where a pattern without `*` has them, counted in characters that are not blanks,
/// as long as both last. If the pattern has a `*` or no blank, it writes the result as it is.
///
/// # Errors
///
/// Returns `WriteFault` if the sink fails.
pub fn put_laid_out<T: Sink>(out: &mut T, pattern: &[u8], text: &Text) -> Result<(), WriteFault>
    ensures { Puts (sunk T.Sink out.old) (laid_out pattern.now text.now.items) result
        (sunk T.Sink out.new) }
{
    if lays_out(pattern) {
        put_by_words(out, pattern, without_blanks(text.as_slice()).as_slice())
    } else {
        put(out, text.as_slice())
    }
}

// The lines of a draft.
ghost use Rattle.std.specs.Prelude.{◌≡◌, ◌&&◌, ◌||◌, length, map, not, option_map, IfOk, vec_len};
ghost use Rattle.mc_text.specs.model_text.specs.Text.{fields};
ghost use Rattle.mc_text.specs.model_text.specs.Text.{is_end};
ghost use Rattle.desk_draft.specs.Declarations.{declaration_in, gives};
ghost use Rattle.desk_draft.specs.Parts.{ended_lines, fed_line};
ghost use Rattle.desk_draft.specs.Views.{ended_line_of, gives_later_each, line_texts, piece_line};

use crate::declaration::gives;
use mc_deck::ends_section;
use mc_text::cut;
use std::alloc::{AllocError, Global};

/// A line, and the bytes that end it: a line feed, with the carriage return right before it where there is one.
#[derive(Clone, Copy)]
pub struct EndedLine<'a> {
    pub text: &'a [u8],
    pub ending: &'static [u8],
}

// The line that a piece of a text is where a line feed follows it.
fn fed_line(piece: &[u8]) -> EndedLine<'_>
    ensures { ended_line_of result ≡ fed_line piece.now }
{
    match piece {
        [text @ .., b'\r'] => EndedLine {
            text,
            ending: b"\r\n",
        },
        _ => EndedLine {
            text: piece,
            ending: b"\n",
        },
    }
}

// The line that a piece of a text is, by what follows its line feed.
fn ended_line<'a>(piece: &'a [u8], behind: Option<&[u8]>) -> EndedLine<'a>
    ensures { ended_line_of result ≡ piece_line piece.now (option_map (λ t. t.now) behind.entry) }
{
    match behind {
        Some(_) => fed_line(piece),
        None => EndedLine {
            text: piece,
            ending: b"",
        },
    }
}

/// Returns the lines of a text. The last one is empty where the text ends with a line feed.
pub fn ended_lines(alloc: Global, text: &[u8]) -> Result<Vec<EndedLine<'_>>, AllocError>
    ensures { IfOk result (λ v. map ended_line_of v.items ≡ ended_lines text.now) }
{
    let mut lines = Vec::new(alloc);
    let mut rest = Some(text);
    while let Some(left) = rest {
        let (piece, behind) = cut(left, b'\n');
        lines.push(ended_line(piece, behind))?;
        rest = behind;
    }
    Ok(lines)
}

// Whether a STATIC line gives bytes from a line on, where one does or not after the line.
fn gives_from(line: &[u8], after: bool) -> bool
    ensures { result ≡ (not (is_end (fields line.now)) && (gives (declaration_in line.now) || after)) }
{
    !ends_section(line) && (gives(line) || after)
}

/// Returns for each line whether a STATIC line after it gives bytes before its section's end.
pub fn gives_later(alloc: Global, lines: &[EndedLine<'_>]) -> Result<Vec<bool>, AllocError>
    ensures { IfOk result (λ v. v.items ≡ gives_later_each (line_texts lines.now)) }
{
    let mut later = vec![in alloc; false; lines.len()]?;
    let mut given = false;
    let mut i = lines.len();
    while i > 0 {
        i -= 1;
        later[i] = given;
        given = gives_from(lines[i].text, given);
    }
    Ok(later)
}

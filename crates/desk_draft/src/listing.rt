// The listing of a draft.
ghost use Rattle.std.specs.Prelude.{◌≡◌, ◌++◌, flat_map, map, Ok, IfErr, IfOk, OnOk};
ghost use Rattle.mc_deck.specs.Refused.{DeckRefuses};
ghost use Rattle.mc_text.specs.model_device.specs.Bytes.{bytes2};
ghost use Rattle.mc_text.specs.model_text.specs.Listing.{hex_text};
ghost use Rattle.desk_draft.specs.Listings.{draft_listing, listing_head, listing_line, listing_of};
ghost use Rattle.desk_draft.specs.Sources.{code_line_value, source_value, sources_value};

use crate::desk::read_desk;
use crate::source::{CodeLine, Source};
use mc_deck::DeckRefusal;
use mc_text::{push, push_bytes, push_decimal};
use std::alloc::{AllocError, Global};

// Adds a place in upper case hexadecimal.
fn push_place(text: &mut Vec<u8>, place: u16) -> Result<(), AllocError>
    ensures { OnOk result (text.new.items ≡ text.old.items ++ hex_text (bytes2 place)) }
{
    push_bytes(text, &[(place / 256) as u8, (place % 256) as u8])
}

// Adds the line of a section that has code.
fn push_line(text: &mut Vec<u8>, code: &[u8], line: &CodeLine<'_>) -> Result<(), AllocError>
    ensures { OnOk result (text.new.items ≡ text.old.items ++ listing_line (code_line_value code.now line.now)) }
{
    push_place(text, line.place)?;
    push(text, b" ")?;
    push_bytes(text, line.bytes(code))?;
    push(text, b" ")?;
    push_decimal(text, line.number as usize)?;
    push(text, b" ")?;
    push(text, line.text)?;
    push(text, b"\n")
}

// Adds the first line of a section.
fn push_head(text: &mut Vec<u8>, source: &Source<'_>) -> Result<(), AllocError>
    ensures { OnOk result (text.new.items ≡ text.old.items ++ listing_head (source_value source.now)) }
{
    push(text, b"app ")?;
    push(text, source.name)?;
    push(text, b" ")?;
    push(text, source.sizes.aid)?;
    push(text, b" code ")?;
    push_decimal(text, source.code.len())?;
    push(text, b" static ")?;
    push_decimal(text, source.sizes.fixed)?;
    push(text, b" session ")?;
    push_decimal(text, source.sizes.session as usize)?;
    push(text, b"\n")
}

// Adds the lines of a section that have code.
fn push_lines(text: &mut Vec<u8>, source: &Source<'_>) -> Result<(), AllocError>
    ensures { OnOk result (text.new.items
        ≡ text.old.items ++ flat_map listing_line (source_value source.now).lines) }
{
    for line in &source.lines {
        push_line(text, source.code.as_slice(), line)?;
    }
    Ok(())
}

/// Returns the listing of sections with their code: of each the line `app NAME AID code N static S session T`, and for
/// each line that has code `PLACE BYTES M TEXT`.
pub fn listing_of(alloc: Global, sources: &[Source<'_>]) -> Result<Vec<u8>, AllocError>
    ensures { IfOk result (λ text. text.items ≡ listing_of (sources_value sources.now)) }
{
    let mut text = Vec::new(alloc);
    for source in sources {
        push_head(&mut text, source)?;
        push_lines(&mut text, source)?;
    }
    Ok(text)
}

/// Returns the listing of a draft.
///
/// # Errors
///
/// Returns the refusals of [`read_desk`].
#[tactic(auto, using(crate::proofs::DeskLemmas::listing_made, crate::proofs::DeskLemmas::listing_refused))]
pub fn list(alloc: Global, draft: &[u8]) -> Result<Vec<u8>, DeckRefusal>
    ensures listing { IfOk result (λ text. draft_listing draft.now ≡ Ok text.items) }
    ensures refused { IfErr result (λ e. DeckRefuses (draft_listing draft.now) e) }
{
    let desk = read_desk(alloc, draft)?;
    Ok(listing_of(alloc, desk.sources.as_slice())?)
}

// The sections of a draft, as a watcher looks for them.
ghost use Rattle.std.specs.Prelude.{◌≡◌, bytes_eq, drop, map, option_map, take, IfOk};
ghost use Rattle.mc_isa.specs.model_text.specs.Text.{hex_bytes};
ghost use Rattle.desk_draft.specs.Listings.{has_byte_at, line_at};
ghost use Rattle.desk_draft.specs.Sources.{code_line_value, source_value, sources_value};
ghost use Rattle.desk_cover.specs.Sections.{aid_bytes};

use desk_draft::{CodeLine, Source};
use hex::FromHexError;
use std::alloc::{AllocError, Global};
use std::marker::Model;

/// A section of a draft with the bytes of its AID, none if its AID spells none.
/// Its view in contracts is the section of the definition.
#[derive(Drop)]
pub struct Section<'s> {
    source: &'s Source<'s>,
    aid: Vec<u8>,
}

impl<'s> Model for Section<'s> {
    ghost use Rattle.std.specs.Prelude.{◌≡◌};
    ghost use Rattle.desk_draft.specs.Listings.{Source};
    ghost use Rattle.desk_draft.specs.Sources.{source_value};
    ghost use Rattle.desk_cover.specs.Sections.{aid_bytes};

    ghost Value = { Source };

    ghost view = { λ s. source_value s.source.now };

    ghost invariant = { λ s. s.aid.items ≡ aid_bytes s.source.now.sizes.aid.now };
}

/// The sections of a draft, in order. Its view in contracts is their list.
#[derive(Drop)]
pub struct Sections<'s> {
    all: Vec<Section<'s>>,
}

impl<'s> Model for Sections<'s> {
    ghost use Rattle.std.specs.Prelude.{List};
    ghost use Rattle.desk_draft.specs.Listings.{Source};

    ghost Value = { List Source };

    ghost view = { λ s. s.all.items };
}

// The bytes that hexadecimal digits spell, or `None` if they spell none.
#[tactic(auto, using(mc_deck::proofs::HexLemmas::bytes_spelled, mc_deck::proofs::HexLemmas::bytes_misspelled))]
fn spelled(alloc: Global, digits: &[u8]) -> Result<Option<Vec<u8>>, AllocError>
    ensures { IfOk result (λ r. option_map (λ bytes. bytes.items) r ≡ hex_bytes digits.now) }
{
    match hex::decode(alloc, digits) {
        Ok(bytes) => Ok(Some(bytes)),
        Err(FromHexError::OutOfMemory) => Err(AllocError),
        Err(_) => Ok(None),
    }
}

// The bytes of an AID as it is written, none if it spells none.
fn aid_of(alloc: Global, digits: &[u8]) -> Result<Vec<u8>, AllocError>
    ensures { IfOk result (λ aid. aid.items ≡ aid_bytes digits.now) }
{
    match spelled(alloc, digits)? {
        Some(bytes) => Ok(bytes),
        None => Ok(Vec::new(alloc)),
    }
}

/// Returns the bytes of a line in the code of its section.
#[tactic(auto, using(desk_draft::proofs::SourceLemmas::bytes_there))]
pub fn bytes_of<'c>(code: &'c [u8], line: &CodeLine<'_>) -> &'c [u8]
    ensures { result.now ≡ take line.now.size (drop line.now.place code.now) }
{
    let rest = code.split_at((line.place as usize).min(code.len())).1;
    rest.split_at((line.size as usize).min(rest.len())).0
}

// Whether a line of this code has the byte at a place.
fn has_place(code: &[u8], line: &CodeLine<'_>, place: u16) -> bool
    ensures { result ≡ has_byte_at (code_line_value code.now line.now) place }
{
    line.place <= place && (place as usize) < line.place as usize + bytes_of(code, line).len()
}

impl<'s> Section<'s> {
    // Returns a section with the bytes of its AID.
    fn new(alloc: Global, source: &'s Source<'s>) -> Result<Section<'s>, AllocError>
        ensures { IfOk result (λ section. section ≡ source_value source.now) }
    {
        let aid = aid_of(alloc, source.sizes.aid)?;
        Ok(Section { source, aid })
    }

    /// Returns whether the AID of the section spells a name.
    pub fn has_name(&self, name: &[u8]) -> bool
        ensures { result ≡ bytes_eq name.now (aid_bytes self.now.sizes.aid) }
    {
        name == self.aid.as_slice()
    }

    /// Returns the code of the section.
    pub fn code(&self) -> &'s [u8]
        ensures { result.now ≡ self.now.code }
    {
        self.source.code.as_slice()
    }

    /// Returns the lines of the section that have code, in order.
    pub fn lines(&self) -> &'s [CodeLine<'s>]
        ensures { map (code_line_value self.now.code) result.now ≡ self.now.lines }
    {
        self.source.lines.as_slice()
    }

    /// Returns the line whose code has the byte at a place, or `None` if none has it.
    pub fn line_at(&self, place: u16) -> Option<CodeLine<'s>>
        ensures { option_map (code_line_value self.now.code) result ≡ line_at self.now.lines place }
    {
        let code = self.code();
        for line in self.lines() {
            if has_place(code, line, place) {
                return Some(*line);
            }
        }
        None
    }
}

impl<'s> Sections<'s> {
    /// Returns the sections of a draft.
    ///
    /// # Errors
    ///
    /// Returns `AllocError` if out of memory.
    pub fn new(alloc: Global, sources: &'s [Source<'s>]) -> Result<Self, AllocError>
        ensures { IfOk result (λ sections. sections ≡ sources_value sources.now) }
    {
        let mut all = Vec::new(alloc);
        for source in sources {
            all.push(Section::new(alloc, source)?)?;
        }
        Ok(Sections { all })
    }

    /// Returns the sections, in order.
    pub fn all(&self) -> &[Section<'s>]
        ensures { result.now ≡ self.now }
    {
        self.all.as_slice()
    }
}

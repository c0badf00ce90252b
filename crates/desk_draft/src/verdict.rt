// The source line of a place that the stack checker refuses.
ghost use Rattle.std.specs.Prelude.{◌≡◌, ◌<◌, ◌++◌, ◌∷◌, [], ℕ, List, length, option_map, slice_get, IfOk, None, OnOk, Some};
ghost use Rattle.mc_text.specs.model_text.specs.Text.{fields, lines};
ghost use Rattle.mc_asm.specs.Items.{texts};
ghost use Rattle.desk_draft.specs.Listings.{Desk};
ghost use Rattle.desk_draft.specs.Listings as listings;
ghost use Rattle.desk_draft.specs.Loads.{AreLoads, AreNamed};
ghost use Rattle.desk_draft.specs.Sources.{code_line_value, source_value, sources_value};
ghost use Rattle.desk_draft.specs.Verdicts.{line_text, loaded_source, second_field, source_line, source_named, source_part};

use crate::source::{CodeLine, Source};
use mc_deck::fields;
use mc_text::{next_line, push, push_decimal};
use std::alloc::{AllocError, Global};
use std::collections::BTreeMap;

/// The lines of a deck, and the sections of its draft by their names: which section a `load` line loads.
#[derive(Drop)]
pub struct Loads<'a, 'd> {
    lines: Vec<&'d [u8]>,
    sources: Named<'a, 'd>,
}

// The lines of a text.
fn lines_of(alloc: Global, text: &[u8]) -> Result<Vec<&[u8]>, AllocError>
    ensures { IfOk result (λ v. texts v.items ≡ lines text.now) }
{
    let mut lines = Vec::new(alloc);
    let mut rest = text;
    while let Some((line, behind)) = next_line(rest) {
        lines.push(line)?;
        rest = behind;
    }
    Ok(lines)
}

// The line at an index.
fn line_at<'d>(lines: &Vec<&'d [u8]>, i: usize) -> &'d [u8]
    requires { i < length lines.now.items }
    ensures { option_map (λ t. t.now) (slice_get lines.now.items i) ≡ Some result.now }
{
    lines[i]
}

// The second of some fields.
fn second_of<'a>(fields: &[&'a [u8]]) -> Option<&'a [u8]>
    ensures { option_map (λ t. t.now) result ≡ second_field (texts fields.now) }
{
    match fields {
        [_, field, ..] => Some(field),
        _ => None,
    }
}

// The second field of a line.
#[tactic(auto, using(crate::proofs::LoadLemmas::second_five))]
fn second_field(line: &[u8]) -> Option<&[u8]>
    ensures { option_map (λ t. t.now) result ≡ second_field (fields line.now) }
{
    second_of(fields(line).as_slice())
}

// The sections of a draft by their names, the first of each name.
type Named<'a, 'd> = BTreeMap<&'d [u8], &'d Source<'a>>;

// The section of a name.
fn named<'a, 'd>(by_name: &Named<'a, 'd>, name: &'d [u8]) -> Option<&'d Source<'a>>
    ensures { (l : List listings.Source) → AreNamed by_name.now l
        → option_map (λ s. source_value s.now) result ≡ source_named l name.now }
{
    by_name.get(&name).copied()
}

// Keeps a section under its name, which no section before it has.
fn insert_source<'a, 'd>(
    by_name: &mut Named<'a, 'd>,
    source: &'d Source<'a>,
) -> Result<(), AllocError>
    ensures { OnOk result ((l : List listings.Source) → None ≡ source_named l source.now.name.now
        → AreNamed by_name.old l → AreNamed by_name.new (l ++ source_value source.now ∷ [])) }
{
    by_name.insert(source.name, source)?;
    Ok(())
}

// Keeps a section under its name, unless an earlier one has that name.
fn put_source<'a, 'd>(by_name: &mut Named<'a, 'd>, source: &'d Source<'a>) -> Result<(), AllocError>
    ensures { OnOk result ((l : List listings.Source) → AreNamed by_name.old l
        → AreNamed by_name.new (l ++ source_value source.now ∷ [])) }
{
    match named(by_name, source.name) {
        Some(_) => Ok(()),
        None => insert_source(by_name, source),
    }
}

impl<'a, 'd> Loads<'a, 'd> {
    ghost use Rattle.std.specs.Prelude.{◌≡◌, ℕ, List, option_map, IfOk};
    ghost use Rattle.desk_draft.specs.Listings.{Desk};
    ghost use Rattle.desk_draft.specs.Loads.{AreLoads, IsLine};
    ghost use Rattle.desk_draft.specs.Sources.{code_line_value, source_value, sources_value};
    ghost use Rattle.desk_draft.specs.Verdicts.{line_text, loaded_source, source_line};

    /// Returns the `load` lines of the deck with this text, of a draft with these sections.
    pub fn new(alloc: Global, text: &'d [u8], sources: &'d [Source<'a>]) -> Result<Self, AllocError>
        ensures { IfOk result (λ l. AreLoads l text.now (sources_value sources.now)) }
    {
        let mut by_name: Named<'a, 'd> = BTreeMap::new(alloc);
        for source in sources {
            put_source(&mut by_name, source)?;
        }
        Ok(Loads {
            lines: lines_of(alloc, text)?,
            sources: by_name,
        })
    }

    // Returns the text of the line with a number, which is empty if there is none.
    fn line(&self, number: u32) -> &'d [u8]
        ensures { (d : Desk) → AreLoads self.now d.deck d.sources → result.now ≡ line_text d.deck number }
    {
        if number == 0 {
            return &[];
        }
        if number as usize > self.lines.len() {
            return &[];
        }
        line_at(&self.lines, number as usize - 1)
    }

    /// Returns the section that the `load` line with a number names, or `None` if it names a unit.
    pub fn source(&self, number: u32) -> Option<&'d Source<'a>>
        ensures { (d : Desk) → AreLoads self.now d.deck d.sources
            → option_map (λ s. source_value s.now) result ≡ loaded_source d number }
    {
        let name = second_field(self.line(number))?;
        named(&self.sources, name)
    }

    /// Returns the line of the draft whose code has the byte at a place of the code that the `load` line with a number
    /// loads, or `None` if none has it.
    pub fn line_at(&self, number: u32, place: u16) -> Option<CodeLine<'a>>
        ensures { (d : Desk) → AreLoads self.now d.deck d.sources
            → IsLine result (source_line (loaded_source d number) place) }
    {
        self.source(number)?.line_at(place)
    }
}

/// Adds ` ; ` with the number and the text of a source line, nothing if there is none.
pub fn push_source_part(text: &mut Vec<u8>, line: Option<CodeLine<'_>>) -> Result<(), AllocError>
    ensures { OnOk result ((code : List ℕ)
        → text.new.items ≡ text.old.items ++ source_part (option_map (code_line_value code) line.entry)) }
{
    let Some(line) = line else {
        return Ok(());
    };
    push(text, b" ; ")?;
    push_decimal(text, line.number as usize)?;
    push(text, b" ")?;
    push(text, line.text)
}

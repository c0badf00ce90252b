// Decks, read line by line.
ghost use Rattle.std.specs.Prelude.{◌≡◌, ◌≢◌, ◌==◌, ◌≤◌, ◌<◌, ◌++◌, ◌∷◌, [], ⊤, true, length, option_map, Ok, Err, Some, None, IfOk, IfErr, OnOk, MatchOption, MatchResult};
ghost use Rattle.std.specs.List.{AllByRecursion};
ghost use Rattle.model_play.specs.model_text.specs.Text.{begins, fields};
ghost use Rattle.model_play.specs.DeckGrammar.{between, deck_read, turn_at, turn_in, turn_of, with_unit, Context, Named, Within};
ghost use Rattle.model_play.specs.ReadyAgain.{IsLine};
ghost use Rattle.mc_asm.specs.Items.{texts};
ghost use Rattle.mc_asm.specs.Passes.{numbered_lines};
ghost use Rattle.mc_deck.specs.Refused.{DeckRefuses};
ghost use Rattle.mc_deck.specs.declared.refusal.DeckRefusal.TheVariants.{NoMemory};
ghost use Rattle.mc_deck.specs.Lines.{owned_parts, GoodUnit};
ghost use Rattle.mc_deck.specs.Sections.{section_of};
ghost use Rattle.mc_deck.specs.Statements.{grammar_statement, StatementFits, InContext};
ghost use Rattle.mc_deck.specs.Readers.{line_stated, lines_of, mode_of, StandsForContext, TurnTaken, LineTurned};

use crate::deck::Deck;
use crate::line::OwnedLine;
use crate::names::{Names, give_name, no_names};
use crate::plain::plain_command;
use crate::refusal::{DeckRefusal, Fault};
use crate::section::{Section, ends_section, section_unit};
use crate::statement::{Statement, keyword_named, read_statement};
use crate::text::fields;
use crate::unit::OwnedUnit;
use mc_asm::NumberedLine;
use mc_text::next_line;
use model_play::DeckCause;
use std::alloc::Global;

// The number of the first line that no deck has.
const TOO_MANY: u32 = 20001;

/// A reader after some lines: the units that were named, whether a `power` came, and the lines.
#[derive(Drop)]
pub struct Reader<'a> {
    pub names: Names<'a>,
    pub powered: bool,
    pub lines: Vec<(u32, OwnedLine)>,
}

// Returns whether a field begins with `#`.
fn is_comment(field: &[u8]) -> bool
    ensures { result ≡ begins 35 field.now }
{
    match field {
        [first, ..] => *first == b'#',
        [] => false,
    }
}

// Returns the statement of a word and the fields after it, or `None` if the line is skipped.
#[tactic(auto, using(crate::proofs::ReaderLemmas::line_refused))]
fn worded<'a>(
    alloc: Global,
    names: &Names<'a>,
    powered: bool,
    number: u32,
    word: &[u8],
    fields: &[&'a [u8]],
) -> Result<Option<Statement<'a>>, DeckRefusal>
    requires { AllByRecursion (λ t. 0 < length t.now) fields.now }
    ensures value { (c : Context) → InContext names.now powered c
        → MatchResult result
        (λ o. line_stated c number (word.now ∷ texts fields.now)
        ≡ Ok (option_map (grammar_statement names.now.units.items c number) o))
        (λ e. DeckRefuses (line_stated c number (word.now ∷ texts fields.now)) e) }
    ensures fits { (c : Context) → InContext names.now powered c
        → IfOk result (λ o. MatchOption o ⊤ (StatementFits (length names.now.units.items) powered)) }
{
    if is_comment(word) {
        return Ok(None);
    }
    let Some(keyword) = keyword_named(word) else {
        return Err(DeckRefusal::At(number, DeckCause::BadLine));
    };
    match read_statement(alloc, names, powered, keyword, fields) {
        Ok(statement) => Ok(Some(statement)),
        Err(Fault::Cause(cause)) => Err(DeckRefusal::At(number, cause)),
        Err(Fault::NoMemory) => Err(DeckRefusal::NoMemory),
    }
}

// Returns the statement of these fields, or `None` if the line is skipped.
fn statement_of<'a>(
    alloc: Global,
    names: &Names<'a>,
    powered: bool,
    number: u32,
    fields: &[&'a [u8]],
) -> Result<Option<Statement<'a>>, DeckRefusal>
    requires { AllByRecursion (λ t. 0 < length t.now) fields.now }
    ensures value { (c : Context) → InContext names.now powered c
        → MatchResult result
        (λ o. line_stated c number (texts fields.now)
        ≡ Ok (option_map (grammar_statement names.now.units.items c number) o))
        (λ e. DeckRefuses (line_stated c number (texts fields.now)) e) }
    ensures fits { (c : Context) → InContext names.now powered c
        → IfOk result (λ o. MatchOption o ⊤ (StatementFits (length names.now.units.items) powered)) }
{
    match fields {
        [] => Ok(None),
        [word, rest @ ..] => worded(alloc, names, powered, number, word, rest),
    }
}

// Returns the statement of a line, or `None` if it is skipped.
#[tactic(auto, using(crate::proofs::ReaderLemmas::line_five))]
fn read_line<'a>(
    alloc: Global,
    names: &Names<'a>,
    powered: bool,
    number: u32,
    text: &'a [u8],
) -> Result<Option<Statement<'a>>, DeckRefusal>
    ensures value { (c : Context) → InContext names.now powered c
        → MatchResult result
        (λ o. line_stated c number (fields text.now)
        ≡ Ok (option_map (grammar_statement names.now.units.items c number) o))
        (λ e. DeckRefuses (line_stated c number (fields text.now)) e) }
    ensures fits { (c : Context) → InContext names.now powered c
        → IfOk result (λ o. MatchOption o ⊤ (StatementFits (length names.now.units.items) powered)) }
{
    if let Some(bytes) = plain_command(text) {
        return Ok(Some(Statement::Line(OwnedLine::Short(bytes))));
    }
    statement_of(alloc, names, powered, number, fields(text).as_slice())
}

// Appends a line with its number.
fn push_line(
    lines: &mut Vec<(u32, OwnedLine)>,
    number: u32,
    line: OwnedLine,
) -> Result<(), DeckRefusal>
    ensures lines { OnOk result (lines.new.items ≡ lines.old.items ++ (number, line) ∷ []) }
    ensures memory { IfErr result (λ e. e ≡ NoMemory) }
{
    match lines.push((number, line)) {
        Ok(()) => Ok(()),
        Err(_) => Err(DeckRefusal::NoMemory),
    }
}

// Adds a unit under its name, and the line of this number.
fn take_unit<'a>(
    reader: &mut Reader<'a>,
    number: u32,
    name: &'a [u8],
    unit: OwnedUnit,
) -> Result<(), DeckRefusal>
    requires { GoodUnit (owned_parts unit) }
    ensures took { OnOk result ((c : Context) → StandsForContext reader.old c
        → StandsForContext reader.new (with_unit c name.now (owned_parts unit))) }
    ensures lines { OnOk result ((c : Context) → StandsForContext reader.old c
        → lines_of reader.new ≡ lines_of reader.old ++ (number, Named) ∷ []) }
    ensures memory { IfErr result (λ e. e ≡ NoMemory) }
{
    give_name(&mut reader.names, name, unit)?;
    push_line(&mut reader.lines, number, OwnedLine::Named)?;
    Ok(())
}

// Does what a statement at the line of this number asks for. Returns the section that it opens, or `None`.
fn take_statement<'a>(
    alloc: Global,
    reader: &mut Reader<'a>,
    number: u32,
    statement: Statement<'a>,
) -> Result<Option<Section<'a>>, DeckRefusal>
    requires { StatementFits (length reader.old.names.units.items) reader.old.powered statement }
    ensures took { IfOk result (λ s. (c : Context) → StandsForContext reader.old c
        → TurnTaken reader.old reader.new s
        (turn_of number (grammar_statement reader.old.names.units.items c number statement.entry))) }
    ensures memory { IfErr result (λ e. e ≡ NoMemory) }
{
    match statement {
        Statement::Line(line) => {
            push_line(&mut reader.lines, number, line)?;
            Ok(None)
        }
        Statement::Power => {
            push_line(&mut reader.lines, number, OwnedLine::Power)?;
            reader.powered = true;
            Ok(None)
        }
        Statement::Unit(name, unit) => {
            take_unit(reader, number, name, unit)?;
            Ok(None)
        }
        Statement::Section(name, aid) => Ok(Some(Section {
            first: number,
            name,
            aid,
            lines: Vec::new(alloc),
        })),
    }
}

// Reads a line between statements. Returns the section that it opens, or `None`.
fn between<'a>(
    alloc: Global,
    reader: &mut Reader<'a>,
    number: u32,
    text: &'a [u8],
) -> Result<Option<Section<'a>>, DeckRefusal>
    requires { (c : Context) × StandsForContext reader.old c }
    ensures turned { (c : Context) → StandsForContext reader.old c
        → MatchResult result (λ s. LineTurned reader.old reader.new s (between c number (fields text.now)))
        (λ e. DeckRefuses (between c number (fields text.now)) e) }
{
    match read_line(alloc, &reader.names, reader.powered, number, text) {
        Err(refusal) => Err(refusal),
        Ok(None) => Ok(None),
        Ok(Some(statement)) => take_statement(alloc, reader, number, statement),
    }
}

// Appends a line to a section.
fn push_text<'a>(
    lines: &mut Vec<NumberedLine<'a>>,
    number: u32,
    text: &'a [u8],
) -> Result<(), DeckRefusal>
    ensures lines { OnOk result (numbered_lines lines.new.items
        ≡ numbered_lines lines.old.items ++ (number, text.now) ∷ []) }
    ensures memory { IfErr result (λ e. e ≡ NoMemory) }
{
    match lines.push(NumberedLine { number, text }) {
        Ok(()) => Ok(()),
        Err(_) => Err(DeckRefusal::NoMemory),
    }
}

// Reads a line of a section, which ends it or goes on.
fn within<'a>(
    alloc: Global,
    reader: &mut Reader<'a>,
    section: Section<'a>,
    number: u32,
    text: &'a [u8],
) -> Result<Option<Section<'a>>, DeckRefusal>
    ensures turned { (c : Context) → StandsForContext reader.old c
        → MatchResult result
        (λ s. LineTurned reader.old reader.new s (turn_in (Within (section_of section.entry) c) (number, text.now)))
        (λ e. DeckRefuses (turn_in (Within (section_of section.entry) c) (number, text.now)) e) }
{
    let mut section = section;
    if ends_section(text) {
        let unit = match section_unit(alloc, &section, number) {
            Ok(unit) => unit,
            Err(refusal) => return Err(refusal),
        };
        take_unit(reader, section.first, section.name, unit)?;
        return Ok(None);
    }
    push_text(&mut section.lines, number, text)?;
    Ok(Some(section))
}

// Reads a line, between statements or in a section that is open. No deck has a line 20,001.
fn turn<'a>(
    alloc: Global,
    reader: &mut Reader<'a>,
    section: Option<Section<'a>>,
    number: u32,
    text: &'a [u8],
) -> Result<Option<Section<'a>>, DeckRefusal>
    requires { (c : Context) × StandsForContext reader.old c }
    ensures turned { (c : Context) → StandsForContext reader.old c
        → MatchResult result
        (λ s. LineTurned reader.old reader.new s
        (turn_at (number == 20001) (mode_of section.entry c) (number, text.now)))
        (λ e. DeckRefuses (turn_at (number == 20001) (mode_of section.entry c) (number, text.now)) e) }
    ensures few { OnOk result (number ≢ 20001) }
{
    if number == TOO_MANY {
        return Err(DeckRefusal::At(number, DeckCause::TooManyLines));
    }
    match section {
        None => between(alloc, reader, number, text),
        Some(section) => within(alloc, reader, section, number, text),
    }
}

// Returns the deck of the lines that were read.
fn deck_of(reader: Reader<'_>) -> Deck
    requires stands { (c : Context) × StandsForContext reader c }
    requires bytes { AllByRecursion (λ l. IsLine l.1) (lines_of reader) }
    ensures { result ≡ lines_of reader.entry }
{
    let Reader { names, lines, .. } = reader;
    let Names { units, .. } = names;
    Deck { units, lines }
}

/// Reads a deck: statements line by line, as `format`, `power`, `unit NAME HEX`, `app NAME AID` with the lines of its
/// assembly text up to `end`, `load NAME STATIC SESSION`, `select AID`, `apdu HEX` and others. A line ends with a line
/// feed, which the last may lack; an empty line and one that begins with `#` are skipped. The grammar is this project's
/// own.
///
/// # Errors
///
/// Returns `At` with the number of the first refused line, counted from 1, and its cause, or `NoMemory` if
/// out of memory.
#[tactic(auto, unfolding(model_play::specs::DeckGrammar::deck_read))]
pub fn read_deck(alloc: Global, text: &[u8]) -> Result<Deck, DeckRefusal>
    ensures lines { IfOk result (λ d. deck_read text.now ≡ Ok d) }
    ensures refused { IfErr result (λ e. DeckRefuses (deck_read text.now) e) }
{
    let mut reader = Reader {
        names: no_names(alloc),
        powered: false,
        lines: Vec::new(alloc),
    };
    let mut section = None;
    let mut number = 0;
    let mut rest = text;
    while let Some((line, behind)) = next_line(rest) {
        number += 1;
        match turn(alloc, &mut reader, section, number, line) {
            Ok(next) => section = next,
            Err(refusal) => return Err(refusal),
        }
        rest = behind;
    }
    match section {
        None => Ok(deck_of(reader)),
        Some(section) => Err(DeckRefusal::At(section.first, DeckCause::NoEnd)),
    }
}

// Drafts, line by line.
ghost use Rattle.std.specs.Prelude.{◌≡◌, ◌<◌, ◌≤◌, ◌^◌, length, slice_get, ◌+◌, ◌++◌, ◌∷◌, ◌&&◌, [], ℕ, Bool, List, true, option_map, codes, cond, IfErr, IfOk, IfSome, MatchResult, Ok, OnOk, Some, None};
ghost use Rattle.mc_text.specs.model_device.specs.Bytes.{zeros};
ghost use Rattle.mc_text.specs.model_text.specs.Text.{fields};
ghost use Rattle.mc_text.specs.model_text.specs.Listing.{hex_text};
ghost use Rattle.mc_deck.specs.model_play.specs.DeckGrammar.{is_data};
ghost use Rattle.mc_text.specs.model_text.specs.Text.{is_end};
ghost use Rattle.mc_asm.specs.Items.{texts};
ghost use Rattle.mc_deck.specs.Refused.{DeckRefuses, Faulty};
ghost use Rattle.mc_deck.specs.declared.refusal.DeckRefusal.TheVariants.{NoMemory};
ghost use Rattle.desk_draft.specs.Declarations.{declaration_in, DeclarationWord, NameMeaning};
ghost use Rattle.desk_draft.specs.Rules.{is_rule, rule_text};
ghost use Rattle.desk_draft.specs.Drafts.{by_name, closed_section, coded_turn, deck_of, draft_read, draft_turn, ended_rules, marked_turn, new_section, opening_line, rule_names, scope_turn, section_line, sizes_of, spoken_text, static_size, Before, DraftTurn, Rules};
ghost use Rattle.desk_draft.specs.Drafts;
ghost use Rattle.desk_draft.specs.Views.{loadable_of, refusal_at, scope_of, static_line, text_by, AreNames, Declares, EndedLineTurned, Knows, LineTurned, OpensSection, Pushes, ScopeTurned, Stands, StandsSection};
ghost use Rattle.desk_draft.specs.Written.{draft_value, Each, IsSection, IsSourceLine, KeepsSections};

use crate::declaration::{Declaration, declaration_in};
use crate::instruction::push_instruction;
use crate::known::{Known, differs, end_section, hear, mark, nothing_known};
use crate::line::{EndedLine, ended_lines, gives_later};
use crate::meaning::no_names;
use crate::rule::{is_rule, push_rule};
use crate::scope::{Scope, empty_scope, take_data, take_declaration};
use crate::statement::{Sizes, push_statement};
use crate::text::push_zeros;
use mc_deck::{DeckRefusal, Fault, ends_section, fields, has_data};
use mc_text::push;
use std::alloc::{AllocError, Global};

/// A line of a section: its number, its text in the draft, and where its text in the deck begins and ends.
#[derive(Clone, Copy)]
pub struct SourceLine<'a> {
    pub number: u32,
    pub draft: &'a [u8],
    pub start: usize,
    pub end: usize,
}

/// A section: its name, what a `load` of it stands for, and its lines between the first and its `end`.
#[derive(Drop)]
pub struct Section<'a> {
    pub name: &'a [u8],
    pub sizes: Sizes<'a>,
    pub lines: Vec<SourceLine<'a>>,
}

/// A draft that was read: its deck, and its sections in order.
#[derive(Drop)]
pub struct Draft<'a> {
    pub deck: Vec<u8>,
    pub sections: Vec<Section<'a>>,
}

// A section that is open: its name, its AID as it was written, what it declares, and its lines so far.
#[derive(Drop)]
struct OpenSection<'a> {
    name: &'a [u8],
    aid: &'a [u8],
    scope: Scope<'a>,
    lines: Vec<SourceLine<'a>>,
}

// The deck of the lines so far, the sections that have ended, and what the lines so far have named.
#[derive(Drop)]
struct Writer<'a> {
    deck: Vec<u8>,
    sections: Vec<Section<'a>>,
    known: Known<'a>,
}

// The section with a name and an AID, if it begins with the word `app`.
#[tactic(auto, using(crate::proofs::DraftLemmas::opens_app, crate::proofs::DraftLemmas::opens_none))]
fn headed<'a>(alloc: Global, word: &[u8], name: &'a [u8], aid: &'a [u8]) -> Option<OpenSection<'a>>
    ensures opens { OpensSection result (new_section (word.now ∷ name.now ∷ aid.now ∷ [])) }
    ensures empty { IfSome result (λ s. s.lines.items ≡ []) }
{
    if word != b"app".as_slice() {
        return None;
    }
    Some(OpenSection {
        name,
        aid,
        scope: empty_scope(alloc),
        lines: Vec::new(alloc),
    })
}

// The section that a line with these fields opens.
fn opened_by<'a>(alloc: Global, fields: &[&'a [u8]]) -> Option<OpenSection<'a>>
    ensures opens { OpensSection result (new_section (texts fields.now)) }
    ensures empty { IfSome result (λ s. s.lines.items ≡ []) }
{
    match fields {
        [word, name, aid] => headed(alloc, word, name, aid),
        _ => None,
    }
}

// The section that a line opens.
#[tactic(auto, using(crate::proofs::DraftLemmas::opens_five))]
fn new_section<'a>(alloc: Global, line: &'a [u8]) -> Option<OpenSection<'a>>
    ensures opens { OpensSection result (new_section (fields line.now)) }
    ensures empty { IfSome result (λ s. s.lines.items ≡ []) }
{
    opened_by(alloc, fields(line).as_slice())
}

// The static bytes of a section: those of its STATIC lines, and of its DATA lines where it has none.
fn static_size(scope: &Scope<'_>) -> usize
    ensures { (l : List (List ℕ × NameMeaning)) → result ≡ static_size (scope_of scope.now l) }
{
    if scope.fixed > 0 {
        return scope.fixed as usize;
    }
    scope.data_bytes.unwrap_or(0)
}

// What a `load` of a section's name stands for.
fn sizes_of<'a>(section: &OpenSection<'a>) -> Sizes<'a>
    ensures { (t : Drafts.OpenSection) → StandsSection section.now t → loadable_of result ≡ sizes_of t }
{
    Sizes {
        aid: section.aid,
        fixed: static_size(&section.scope),
        session: section.scope.session,
    }
}

// Keeps a section that has ended.
fn close_section<'a>(writer: &mut Writer<'a>, section: OpenSection<'a>) -> Result<(), AllocError>
    ensures kept { OnOk result ((ss : List Drafts.Section) (r : Rules) (t : Drafts.OpenSection)
        → Knows writer.old.known ss r → StandsSection section.entry t
        → Knows writer.new.known (ss ++ closed_section t ∷ []) (ended_rules t r)) }
    ensures sections { OnOk result ((deck : List ℕ) (ss : List Drafts.Section) (t : Drafts.OpenSection)
        → StandsSection section.entry t → Each (IsSection deck) writer.old.sections.items ss
        → Each (IsSourceLine deck) section.entry.lines.items t.lines
        → Each (IsSection deck) writer.new.sections.items (ss ++ closed_section t ∷ [])) }
    ensures deck { writer.new.deck.items ≡ writer.old.deck.items }
{
    let sizes = sizes_of(&section);
    end_section(&mut writer.known, section.name, sizes, section.scope.names)?;
    writer.sections.push(Section {
        name: section.name,
        sizes,
        lines: section.lines,
    })?;
    Ok(())
}

// Adds a line of a section.
fn push_source_line<'a>(
    lines: &mut Vec<SourceLine<'a>>,
    line: SourceLine<'a>,
) -> Result<(), AllocError>
    ensures { OnOk result (lines.new.items ≡ lines.old.items ++ line.entry ∷ []) }
{
    lines.push(line)?;
    Ok(())
}

// Adds zeros as a line of data, where a STATIC line after them gives bytes.
fn push_default(deck: &mut Vec<u8>, count: u16, later: bool) -> Result<(), AllocError>
    ensures { OnOk result (deck.new.items ≡ deck.old.items ++ cond later (codes "DATA " ++ hex_text (zeros count)) []) }
{
    if !later {
        return Ok(());
    }
    push(deck, b"DATA ")?;
    push_zeros(deck, count)
}

// Adds the line of bytes that a STATIC line gives.
fn push_given(deck: &mut Vec<u8>, hex: &[u8]) -> Result<(), AllocError>
    ensures { OnOk result (deck.new.items ≡ deck.old.items ++ codes "DATA " ++ hex.now) }
{
    push(deck, b"DATA ")?;
    push(deck, hex)
}

// Adds the deck's line of static bytes, which gives them or not.
fn push_static(
    deck: &mut Vec<u8>,
    hex: Option<&[u8]>,
    added: u16,
    later: bool,
) -> Result<(), AllocError>
    ensures { OnOk result (deck.new.items ≡ deck.old.items
        ++ static_line later added (option_map (λ t. t.now) hex.entry)) }
{
    match hex {
        Some(hex) => push_given(deck, hex),
        None => push_default(deck, added, later),
    }
}

// Adds the deck's line of a declaration that adds static bytes, where a STATIC line after it gives bytes or not.
fn push_declaration(
    deck: &mut Vec<u8>,
    declaration: &Declaration<'_>,
    added: u16,
    later: bool,
) -> Result<(), AllocError>
    ensures { OnOk result (deck.new.items ≡ deck.old.items ++ text_by later added declaration.now) }
{
    match *declaration {
        Declaration::Static { hex, .. } => push_static(deck, hex, added, later),
        _ => Ok(()),
    }
}

// Adds the deck's line of a declaration, which the section takes.
#[tactic(auto, using(crate::proofs::DraftLemmas::declaration_turned, crate::proofs::DraftLemmas::declaration_faulty))]
fn declaration_line<'a>(
    deck: &mut Vec<u8>,
    scope: &mut Scope<'a>,
    declaration: &Declaration<'a>,
    later: bool,
) -> Result<(), Fault>
    ensures { (l : List (List ℕ × NameMeaning)) (line : List ℕ) (w : DeclarationWord) (fs : List (List ℕ))
        → AreNames scope.old.names l → Declares declaration.now w fs
        → ScopeTurned deck.old.items deck.new.items scope.new result
        (coded_turn (scope_of scope.old l) line later (Some (w, fs))) }
{
    let before = scope.fixed;
    take_declaration(scope, declaration)?;
    push_declaration(deck, declaration, scope.fixed.saturating_sub(before), later)?;
    Ok(())
}

// Adds a DATA line, which the section takes.
fn data_line<'a>(deck: &mut Vec<u8>, scope: &mut Scope<'a>, line: &'a [u8]) -> Result<(), Fault>
    ensures { (l : List (List ℕ × NameMeaning)) (later : Bool) → AreNames scope.old.names l
        → ScopeTurned deck.old.items deck.new.items scope.new result
        (scope_turn true (scope_of scope.old l) line.now later) }
{
    take_data(scope, fields(line).as_slice())?;
    push(deck, line)?;
    Ok(())
}

// Adds the deck's line of a line that is no DATA line: a declaration or an instruction.
#[tactic(auto, using(crate::proofs::DraftLemmas::coded_some, crate::proofs::DraftLemmas::coded_none, crate::proofs::DraftLemmas::instruction_turned))]
fn coded_line<'a>(
    deck: &mut Vec<u8>,
    scope: &mut Scope<'a>,
    line: &'a [u8],
    later: bool,
) -> Result<(), Fault>
    ensures { (l : List (List ℕ × NameMeaning)) → AreNames scope.old.names l
        → ScopeTurned deck.old.items deck.new.items scope.new result
        (coded_turn (scope_of scope.old l) line.now later (declaration_in line.now)) }
{
    match declaration_in(line) {
        Some(declaration) => declaration_line(deck, scope, &declaration, later),
        None => push_instruction(deck, &scope.names, line),
    }
}

// Adds the deck's line of a line of a section that does not end it.
#[tactic(auto, using(crate::proofs::DraftLemmas::scope_by_data, crate::proofs::DraftLemmas::scope_by_code))]
fn scope_line<'a>(
    deck: &mut Vec<u8>,
    scope: &mut Scope<'a>,
    line: &'a [u8],
    later: bool,
) -> Result<(), Fault>
    ensures { (l : List (List ℕ × NameMeaning)) → AreNames scope.old.names l
        → ScopeTurned deck.old.items deck.new.items scope.new result
        (scope_turn (is_data (fields line.now)) (scope_of scope.old l) line.now later) }
{
    if has_data(line) {
        return data_line(deck, scope, line);
    }
    coded_line(deck, scope, line, later)
}

// Adds the deck's line of a rule, whose names are those of the section of which it speaks.
fn push_ruled<'a>(
    alloc: Global,
    deck: &mut Vec<u8>,
    known: &Known<'a>,
    line: &'a [u8],
) -> Result<(), Fault>
    ensures { (b : Before) → Knows known.now b.sections b.rules
        → Pushes deck.old.items (rule_text (by_name b.sections) (rule_names b.rules) line.now) result deck.new.items }
{
    match known.scopes.get(&known.app) {
        Some(names) => push_rule(alloc, deck, &known.sections, names, line),
        None => push_rule(alloc, deck, &known.sections, &no_names(alloc), line),
    }
}

// Whether a line is a rule of a draft.
fn is_ruled(known: &Known<'_>, line: &[u8]) -> bool
    ensures { result ≡ (known.now.is_draft && is_rule line.now) }
{
    known.is_draft && is_rule(line)
}

// Adds the deck's line of a rule or a statement.
fn push_spoken<'a>(
    alloc: Global,
    deck: &mut Vec<u8>,
    known: &Known<'a>,
    line: &'a [u8],
) -> Result<(), Fault>
    ensures { (b : Before) → Knows known.now b.sections b.rules
        → Pushes deck.old.items (spoken_text b line.now) result deck.new.items }
{
    if is_ruled(known, line) {
        return push_ruled(alloc, deck, known, line);
    }
    push_statement(deck, &known.sections, line)
}

// Adds the deck's line of a line between sections, and returns the section that it opens.
#[tactic(auto, using(crate::proofs::DraftLemmas::opening_turned, crate::proofs::DraftLemmas::spoken_turned, crate::proofs::DraftLemmas::spoken_refused))]
fn between<'a>(
    alloc: Global,
    writer: &mut Writer<'a>,
    line: &'a [u8],
) -> Result<Option<OpenSection<'a>>, Fault>
    ensures turned { (b : Before) → Stands writer.old.known None b
        → MatchResult result
        (λ s. LineTurned writer.old.deck.items writer.new.deck.items writer.new.known s
        (opening_line (new_section (fields line.now)) b line.now))
        (λ e. Faulty (opening_line (new_section (fields line.now)) b line.now) e) }
    ensures kept { (b : Before) → Stands writer.old.known None b
        → KeepsSections writer.old.deck.items writer.old.sections.items None b
        → IfOk result (λ s. (t : DraftTurn) → opening_line (new_section (fields line.now)) b line.now ≡ Ok t
        → KeepsSections writer.new.deck.items writer.new.sections.items s t.before) }
{
    match new_section(alloc, line) {
        Some(section) => {
            push(&mut writer.deck, line)?;
            Ok(Some(section))
        }
        None => {
            push_spoken(alloc, &mut writer.deck, &writer.known, line)?;
            hear(&mut writer.known, line);
            Ok(None)
        }
    }
}

// Adds the deck's line of the `end` of a section.
fn end_line<'a>(
    writer: &mut Writer<'a>,
    section: OpenSection<'a>,
    line: &'a [u8],
) -> Result<(), AllocError>
    ensures kept { OnOk result ((ss : List Drafts.Section) (r : Rules) (t : Drafts.OpenSection)
        → Knows writer.old.known ss r → StandsSection section.entry t
        → Knows writer.new.known (ss ++ closed_section t ∷ []) (ended_rules t r)) }
    ensures sections { OnOk result ((deck : List ℕ) (ss : List Drafts.Section) (t : Drafts.OpenSection)
        → StandsSection section.entry t → Each (IsSection deck) writer.old.sections.items ss
        → Each (IsSourceLine deck) section.entry.lines.items t.lines
        → Each (IsSection deck) writer.new.sections.items (ss ++ closed_section t ∷ [])) }
    ensures deck { OnOk result (writer.new.deck.items ≡ writer.old.deck.items ++ line.now) }
{
    close_section(writer, section)?;
    push(&mut writer.deck, line)
}

// Adds the deck's line of a line of a section that does not end it, and keeps the line.
fn keep_line<'a>(
    deck: &mut Vec<u8>,
    section: &mut OpenSection<'a>,
    number: u32,
    line: &'a [u8],
    later: bool,
) -> Result<(), Fault>
    ensures turned { (l : List (List ℕ × NameMeaning)) → AreNames section.old.scope.names l
        → ScopeTurned deck.old.items deck.new.items section.new.scope result
        (scope_turn (is_data (fields line.now)) (scope_of section.old.scope l) line.now later) }
    ensures lines { OnOk result ((ts : List Drafts.SourceLine) (text : List ℕ)
        → Each (IsSourceLine deck.old.items) section.old.lines.items ts
        → deck.new.items ≡ deck.old.items ++ text
        → Each (IsSourceLine deck.new.items) section.new.lines.items
        (ts ++ record { number = number; draft = line.now; deck = text } ∷ [])) }
    ensures name { section.new.name ≡ section.old.name }
    ensures aid { section.new.aid ≡ section.old.aid }
{
    let start = deck.len();
    scope_line(deck, &mut section.scope, line, later)?;
    let source_line = SourceLine {
        number,
        draft: line,
        start,
        end: deck.len(),
    };
    push_source_line(&mut section.lines, source_line)?;
    Ok(())
}

// Adds the deck's line of a line of a section, and returns the section if it goes on.
#[tactic(auto, using(crate::proofs::DraftLemmas::line_kept, crate::proofs::DraftLemmas::line_faulty))]
fn within<'a>(
    writer: &mut Writer<'a>,
    section: OpenSection<'a>,
    number: u32,
    line: &'a [u8],
    later: bool,
) -> Result<Option<OpenSection<'a>>, Fault>
    ensures turned { (b : Before) (t : Drafts.OpenSection) → Knows writer.old.known b.sections b.rules
        → StandsSection section.entry t
        → MatchResult result
        (λ s. LineTurned writer.old.deck.items writer.new.deck.items writer.new.known s
        (section_line (is_end (fields line.now)) b t number line.now later))
        (λ e. Faulty (section_line (is_end (fields line.now)) b t number line.now later) e) }
    ensures kept { (b : Before) (t : Drafts.OpenSection) → StandsSection section.entry t
        → Each (IsSection writer.old.deck.items) writer.old.sections.items b.sections
        → Each (IsSourceLine writer.old.deck.items) section.entry.lines.items t.lines
        → IfOk result (λ s. (u : DraftTurn)
        → section_line (is_end (fields line.now)) b t number line.now later ≡ Ok u
        → KeepsSections writer.new.deck.items writer.new.sections.items s u.before) }
{
    let mut section = section;
    if ends_section(line) {
        end_line(writer, section, line)?;
        return Ok(None);
    }
    keep_line(&mut writer.deck, &mut section, number, line, later)?;
    Ok(Some(section))
}

// Adds the deck's line of a line without what ends it, and returns the section that is open after it.
fn line_turn<'a>(
    alloc: Global,
    writer: &mut Writer<'a>,
    section: Option<OpenSection<'a>>,
    number: u32,
    line: &'a [u8],
    later: bool,
) -> Result<Option<OpenSection<'a>>, Fault>
    ensures turned { (b : Before) → Stands writer.old.known section.entry b
        → MatchResult result
        (λ s. LineTurned writer.old.deck.items writer.new.deck.items writer.new.known s
        (draft_turn b.mode b number line.now later))
        (λ e. Faulty (draft_turn b.mode b number line.now later) e) }
    ensures kept { (b : Before) → Stands writer.old.known section.entry b
        → KeepsSections writer.old.deck.items writer.old.sections.items section.entry b
        → IfOk result (λ s. (t : DraftTurn) → draft_turn b.mode b number line.now later ≡ Ok t
        → KeepsSections writer.new.deck.items writer.new.sections.items s t.before) }
{
    match section {
        None => between(alloc, writer, line),
        Some(section) => within(writer, section, number, line, later),
    }
}

// Adds the deck's line of a line without what ends it, and takes whether it became another one.
#[tactic(auto, using(crate::proofs::DraftLemmas::mark_faulty))]
fn marked_turn<'a>(
    alloc: Global,
    writer: &mut Writer<'a>,
    section: Option<OpenSection<'a>>,
    number: u32,
    line: &'a [u8],
    later: bool,
) -> Result<Option<OpenSection<'a>>, Fault>
    ensures turned { (b : Before) → Stands writer.old.known section.entry b
        → MatchResult result
        (λ s. LineTurned writer.old.deck.items writer.new.deck.items writer.new.known s
        (marked_turn b number line.now later))
        (λ e. Faulty (marked_turn b number line.now later) e) }
    ensures kept { (b : Before) → Stands writer.old.known section.entry b
        → KeepsSections writer.old.deck.items writer.old.sections.items section.entry b
        → IfOk result (λ s. (t : DraftTurn) → marked_turn b number line.now later ≡ Ok t
        → KeepsSections writer.new.deck.items writer.new.sections.items s t.before) }
{
    let start = writer.deck.len();
    let section = line_turn(alloc, writer, section, number, line, later)?;
    let other = differs(writer.deck.as_slice(), start, line);
    mark(&mut writer.known, other);
    Ok(section)
}

// Adds the deck's line of a line, and returns the section that is open after it.
#[tactic(auto, using(crate::proofs::DraftLemmas::line_ended))]
fn turn<'a>(
    alloc: Global,
    writer: &mut Writer<'a>,
    section: Option<OpenSection<'a>>,
    number: u32,
    line: &EndedLine<'a>,
    later: bool,
) -> Result<Option<OpenSection<'a>>, Fault>
    ensures turned { (b : Before) → Stands writer.old.known section.entry b
        → MatchResult result
        (λ s. EndedLineTurned writer.old.deck.items writer.new.deck.items line.now.ending.now writer.new.known s
        (marked_turn b number line.now.text.now later))
        (λ e. Faulty (marked_turn b number line.now.text.now later) e) }
    ensures kept { (b : Before) → Stands writer.old.known section.entry b
        → KeepsSections writer.old.deck.items writer.old.sections.items section.entry b
        → IfOk result (λ s. (t : DraftTurn) → marked_turn b number line.now.text.now later ≡ Ok t
        → KeepsSections writer.new.deck.items writer.new.sections.items s t.before) }
{
    let section = marked_turn(alloc, writer, section, number, line.text, later)?;
    push(&mut writer.deck, line.ending)?;
    Ok(section)
}

// The refusal of a line.
fn refused(number: u32, fault: Fault) -> DeckRefusal
    ensures { result ≡ refusal_at number fault }
{
    match fault {
        Fault::Cause(cause) => DeckRefusal::At(number, cause),
        Fault::NoMemory => DeckRefusal::NoMemory,
    }
}

// The number of the line at an index, from 1 on. One that does not fit in four bytes, for which a draft has to be over
// four thousand million bytes long, counts as out of memory, and no other one.
fn number_of(index: usize) -> Result<u32, DeckRefusal>
    ensures value { IfOk result (λ n. n ≡ index + 1) }
    ensures memory { IfErr result (λ e. e ≡ NoMemory) }
    ensures high { IfErr result (λ e. 2 ^ 32 ≤ index + 1) }
{
    if index >= u32::MAX as usize {
        return Err(DeckRefusal::NoMemory);
    }
    Ok(index as u32 + 1)
}

// The line at an index.
fn line_at<'a>(lines: &Vec<EndedLine<'a>>, i: usize) -> EndedLine<'a>
    requires { i < length lines.now.items }
    ensures { slice_get lines.now.items i ≡ Some result }
{
    lines[i]
}

// Whether a STATIC line after the line at an index gives bytes.
fn later_at(later: &Vec<bool>, i: usize) -> bool
    requires { i < length later.now.items }
    ensures { slice_get later.now.items i ≡ Some result }
{
    later[i]
}

/// Reads a draft: its deck, whose line N is that of line N of the draft, and its sections. In the sections of a draft
/// `STATIC NAME SIZE [HEX]`, `SESSION NAME SIZE`, `PUBLIC NAME AT SIZE` and `CONST NAME NUMBER` declare names, which
/// may stand in place of operands; between them sections are named by their names, the fields of a command may be
/// apart, and rules have names in braces. Every deck is a draft, and is its own deck. A draft is read in time that
/// grows with its length alone.
///
/// # Errors
///
/// Returns `At` with the number of the first refused line, counted from 1, and its cause, or `NoMemory` if out of
/// memory.
pub fn read_draft(alloc: Global, draft: &[u8]) -> Result<Draft<'_>, DeckRefusal>
    ensures draft { IfOk result (λ d. draft_read draft.now ≡ Ok (draft_value d)) }
    ensures refused { IfErr result (λ e. DeckRefuses (draft_read draft.now) e) }
{
    let lines = ended_lines(alloc, draft)?;
    let later = gives_later(alloc, lines.as_slice())?;
    let mut writer = Writer {
        deck: Vec::new(alloc),
        sections: Vec::new(alloc),
        known: nothing_known(alloc),
    };
    let mut section = None;
    for i in 0..lines.len() {
        let number = number_of(i)?;
        let line = line_at(&lines, i);
        let gives = later_at(&later, i);
        match turn(alloc, &mut writer, section, number, &line, gives) {
            Ok(next) => section = next,
            Err(fault) => return Err(refused(number, fault)),
        }
    }
    let Writer { deck, sections, .. } = writer;
    Ok(Draft { deck, sections })
}

/// Returns the deck of a draft, as [`read_draft`] reads it.
///
/// # Errors
///
/// Returns the refusals of [`read_draft`].
#[tactic(auto, using(crate::proofs::ReadLemmas::deck_made, crate::proofs::ReadLemmas::deck_refused))]
pub fn deck_of(alloc: Global, draft: &[u8]) -> Result<Vec<u8>, DeckRefusal>
    ensures deck { IfOk result (λ v. deck_of draft.now ≡ Ok v.items) }
    ensures refused { IfErr result (λ e. DeckRefuses (deck_of draft.now) e) }
{
    let Draft { deck, .. } = read_draft(alloc, draft)?;
    Ok(deck)
}

// What the lines of a draft so far have named.
ghost use Rattle.std.specs.Prelude.{◌≡◌, ◌++◌, ◌∷◌, ◌||◌, [], ℕ, List, bytes_eq, drop, not, OnOk, None};
ghost use Rattle.mc_text.specs.model_device.specs.Bytes.{lookup};
ghost use Rattle.desk_draft.specs.Declarations.{NameMeaning};
ghost use Rattle.desk_draft.specs.Drafts.{app_after, closed_section, ended_rules, marked_rules, nothing_before, rules_after, sizes_of, Rules};
ghost use Rattle.desk_draft.specs.Drafts;
ghost use Rattle.desk_draft.specs.Statements.{Loadable};
ghost use Rattle.desk_draft.specs.Views.{loadable_of, AreNames, AreScopes, AreSections, Knows};

use crate::meaning::Names;
use crate::part::{after_word, first_word};
use crate::rule::names_app;
use crate::statement;
use crate::statement::{Sections, Sizes};
use std::alloc::{AllocError, Global};
use std::collections::BTreeMap;

/// What sections declare, by the sections' names.
pub type Scopes<'a> = BTreeMap<&'a [u8], Names<'a>>;

/// What is known before a line: the sections that have ended, by their names; what each of them declares; the
/// application of which rules speak; and whether a line became another one, which no line of a deck does.
#[derive(Drop)]
pub struct Known<'a> {
    pub sections: Sections<'a>,
    pub scopes: Scopes<'a>,
    pub app: &'a [u8],
    pub is_draft: bool,
}

/// Returns what is known before the first line.
pub fn nothing_known<'a>(alloc: Global) -> Known<'a>
    ensures { Knows result [] nothing_before.rules }
{
    Known {
        sections: BTreeMap::new(alloc),
        scopes: BTreeMap::new(alloc),
        app: b"",
        is_draft: false,
    }
}

// Keeps the sizes of a section under its name, which no section before it has.
fn insert_section<'a>(
    sections: &mut Sections<'a>,
    name: &'a [u8],
    sizes: Sizes<'a>,
) -> Result<(), AllocError>
    ensures { OnOk result ((l : List (List ℕ × Loadable)) → None ≡ lookup l name.now → AreSections sections.old l
        → AreSections sections.new (l ++ (name.now, loadable_of sizes.entry) ∷ [])) }
{
    sections.insert(name, sizes)?;
    Ok(())
}

// Keeps the sizes of a section under its name, unless an earlier one has that name.
#[tactic(auto, using(crate::proofs::SectionLemmas::section_there))]
fn put_section<'a>(
    sections: &mut Sections<'a>,
    name: &'a [u8],
    sizes: Sizes<'a>,
) -> Result<(), AllocError>
    ensures { OnOk result ((l : List (List ℕ × Loadable)) → AreSections sections.old l
        → AreSections sections.new (l ++ (name.now, loadable_of sizes.entry) ∷ [])) }
{
    match statement::sizes_of(sections, name) {
        Some(_) => Ok(()),
        None => insert_section(sections, name, sizes),
    }
}

// Keeps what a section declares under its name.
fn put_scope<'a>(
    scopes: &mut Scopes<'a>,
    name: &'a [u8],
    names: Names<'a>,
) -> Result<(), AllocError>
    ensures { OnOk result ((l : List (List ℕ × List (List ℕ × NameMeaning))) (n : List (List ℕ × NameMeaning))
        → AreScopes scopes.old l → AreNames names.entry n → AreScopes scopes.new ((name.now, n) ∷ l)) }
{
    scopes.insert(name, names)?;
    Ok(())
}

/// Keeps the sizes of a section that has ended, and what it declares.
pub fn end_section<'a>(
    known: &mut Known<'a>,
    name: &'a [u8],
    sizes: Sizes<'a>,
    names: Names<'a>,
) -> Result<(), AllocError>
    ensures { OnOk result ((ss : List Drafts.Section) (r : Rules) (t : Drafts.OpenSection) → Knows known.old ss r
        → name.now ≡ t.name → loadable_of sizes.entry ≡ sizes_of t → AreNames names.entry t.scope.names
        → Knows known.new (ss ++ closed_section t ∷ []) (ended_rules t r)) }
{
    put_section(&mut known.sections, name, sizes)?;
    put_scope(&mut known.scopes, name, names)?;
    Ok(())
}

// The application of which rules speak after a line.
fn app_after<'a>(app: &'a [u8], line: &'a [u8]) -> &'a [u8]
    ensures { result.now ≡ app_after app.now line.now }
{
    if names_app(line) {
        return first_word(after_word(after_word(line)));
    }
    app
}

/// Takes the application of a line that is a rule about one.
pub fn hear<'a>(known: &mut Known<'a>, line: &'a [u8])
    ensures { (ss : List Drafts.Section) (r : Rules) → Knows known.old ss r
        → Knows known.new ss (rules_after r line.now) }
{
    known.app = app_after(known.app, line);
}

// The end of a deck from a place on.
#[tactic(auto, using(crate::proofs::RuleLemmas::none_after))]
fn end_of(deck: &[u8], start: usize) -> &[u8]
    ensures { result.now ≡ drop start deck.now }
{
    if start > deck.len() {
        return b"";
    }
    deck.split_at(start).1
}

/// Returns whether the end of a deck from a place on is another text than a line.
pub fn differs(deck: &[u8], start: usize, line: &[u8]) -> bool
    ensures { result ≡ not (bytes_eq (drop start deck.now) line.now) }
{
    end_of(deck, start) != line
}

// Whether one of two is true.
fn either(one: bool, other: bool) -> bool
    ensures { result ≡ (one || other) }
{
    one || other
}

/// Takes whether a line became another one.
pub fn mark(known: &mut Known<'_>, differs: bool)
    ensures { (ss : List Drafts.Section) (r : Rules) → Knows known.old ss r
        → Knows known.new ss (marked_rules r differs) }
{
    known.is_draft = either(known.is_draft, differs);
}

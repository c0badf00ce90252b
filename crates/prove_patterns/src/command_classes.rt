// The classes of commands that the patterns of the lines tell apart.
ghost use Rattle.std.specs.Prelude.{◌≡◌, ◌<◌, ◌≤◌, ℕ, List, map, length, get_or, slice_set, true, IfOk, IfSome, OnOk, [], ◌∷◌};
ghost use Rattle.prove_facts.specs.model_prove.specs.Sets.{union};
ghost use Rattle.prove_facts.specs.model_prove.specs.Digits.{same};
ghost use Rattle.prove_facts.specs.model_prove.specs.Texts.{after_any};
ghost use Rattle.prove_facts.specs.model_prove.specs.Between.{union_all, with_class, with_classes, classes};
ghost use Rattle.prove_facts.specs.model_rules.specs.Rules.{AppRules};
ghost use Rattle.lab_app_rules.specs.Rules.{AreLines};
ghost use Rattle.prove_facts.specs.Sets.{set_of};
ghost use Rattle.prove_patterns.specs.Opens.{many_of};
ghost use Rattle.prove_patterns.specs.Headers.{header_of, headers_of};
ghost use Rattle.prove_patterns.specs.Classes.{class_value, class_values, classes_onto, class_place, class_joined};

use crate::combining::same_matches;
use crate::command_headers::{Header, headers};
use crate::lines::opened_commands;
use crate::opens::{Opens, matches_of};
use crate::reaching::after_any;
use lab_app_rules::On;
use model_device::NoMemory;
use prove_facts::{Values, push};
use std::alloc::Global;

/// A class of commands: which lines match, and the values of the header's bytes.
#[derive(Drop)]
pub struct Class {
    pub matches: Vec<bool>,
    pub sets: Vec<Values>,
}

// The number of classes before the first of the same lines.
fn place_of(classes: &[Class], matches: &[bool]) -> usize
    ensures { result ≡ class_place matches.now (class_values classes.now) }
{
    for (i, class) in classes.iter().enumerate() {
        if same_matches(matches, class.matches.as_slice()) {
            return i;
        }
    }
    classes.len()
}

// Puts a set to the one at a place.
fn join_set(others: &mut Vec<Values>, i: usize, set: &Values)
    requires { i < length others.old.items }
    ensures { map set_of others.new.items ≡ slice_set (map set_of others.old.items) i
        (union (set_of set.now) (get_or (map set_of others.old.items) i [])) }
{
    let other = others[i];
    others[i] = set.or(&other);
}

// Puts sets to others, set by set.
fn union_all(sets: &[Values], others: &mut Vec<Values>) -> Result<(), NoMemory>
    ensures { OnOk result (map set_of others.new.items
        ≡ union_all (map set_of sets.now) (map set_of others.old.items)) }
{
    for (i, set) in sets.iter().enumerate() {
        if i < others.len() {
            join_set(others, i, set);
        } else {
            push(others, *set)?;
        }
    }
    Ok(())
}

// Puts the sets of a class to those of the class at a place.
fn join_at(classes: &mut Vec<Class>, place: usize, sets: &[Values]) -> Result<(), NoMemory>
    requires { place < length classes.old.items }
    ensures { OnOk result (class_values classes.new.items
        ≡ class_joined place (map set_of sets.now) (class_values classes.old.items)) }
{
    let class = &mut classes[place];
    union_all(sets, &mut class.sets)
}

// Classes with the headers of one more.
fn add_class(classes: &mut Vec<Class>, class: Class) -> Result<(), NoMemory>
    ensures { OnOk result (class_values classes.new.items
        ≡ with_class (class_value class) (class_values classes.old.items)) }
{
    let place = place_of(classes.as_slice(), class.matches.as_slice());
    if place < classes.len() {
        return join_at(classes, place, class.sets.as_slice());
    }
    push(classes, class)
}

// Classes with those of a header, which any bytes may follow.
fn add_classes(
    alloc: Global,
    classes: &mut Vec<Class>,
    sets: &[Values],
    many: &[Opens<'_>],
) -> Result<(), NoMemory>
    ensures { OnOk result (class_values classes.new.items
        ≡ with_classes (map set_of sets.now) (many_of many.now) (class_values classes.old.items)) }
{
    let mut i = many.len();
    while i > 0 {
        i -= 1;
        let matches = matches_of(alloc, many[i].as_slice())?;
        let sets = Vec::from_slice(alloc, sets)?;
        add_class(classes, Class { matches, sets })?;
    }
    Ok(())
}

// Adds the classes of a header, and returns whether the search for them ended.
fn add_header(alloc: Global, classes: &mut Vec<Class>, header: Header<'_>) -> Result<bool, NoMemory>
    ensures { (n : ℕ) → 10000 ≤ n → IfOk result (λ b. b ≡ true → class_values classes.new.items
        ≡ with_classes (header_of header.entry).sets (after_any n ((header_of header.entry).left ∷ []))
        (class_values classes.old.items)) }
{
    let mut from = Vec::new(alloc);
    push(&mut from, header.left)?;
    let Some(many) = after_any(alloc, from)? else {
        return Ok(false);
    };
    add_classes(alloc, classes, header.sets.as_slice(), many.as_slice())?;
    Ok(true)
}

/// Returns the classes of some headers, or `None` if the search for them gives up.
///
/// # Errors
///
/// Returns `NoMemory` if it is out of memory.
pub fn classes_of(
    alloc: Global,
    mut headers: Vec<Header<'_>>,
) -> Result<Option<Vec<Class>>, NoMemory>
    ensures { (n : ℕ) → 10000 ≤ n → IfOk result (λ r. IfSome r (λ cs. class_values cs.items
        ≡ classes_onto n (headers_of headers.entry.items) [])) }
{
    let mut classes = Vec::new(alloc);
    while let Some(header) = headers.pop() {
        if !add_header(alloc, &mut classes, header)? {
            return Ok(None);
        }
    }
    Ok(Some(classes))
}

/// Returns the classes that some command is in, in the order of the definition, or `None` if the search for them gives
/// up.
///
/// # Errors
///
/// Returns `NoMemory` if it is out of memory.
pub fn classes(alloc: Global, ons: &[On]) -> Result<Option<Vec<Class>>, NoMemory>
    ensures { (names : List (List ℕ)) (a : AppRules) → AreLines names a.ons ons.now
        → IfOk result (λ r. IfSome r (λ cs. class_values cs.items ≡ classes a)) }
{
    let opens = opened_commands(alloc, ons)?;
    classes_of(alloc, headers(alloc, opens)?)
}

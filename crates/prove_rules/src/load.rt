// The application of a name: as the deck's first line creates it that loads it.
ghost use Rattle.std.specs.Prelude.{◌≡◌, ◌<◌, ◌≤◌, ◌&&◌, codes, false, not, length, slice_get, MatchOption, None, Ok};
ghost use Rattle.mc_text.specs.model_text.specs.Text.{fields, lines, with_numbers};
ghost use Rattle.mc_words.specs.model_device.specs.Bytes.{lookup, AreBytes};
ghost use Rattle.model_rule_text.specs.model_text.specs.Text.{begins_with};
ghost use Rattle.model_rule_text.specs.model_play.specs.DeckGrammar.{deck_read};
ghost use Rattle.model_rule_text.specs.Reading.{load_names};
ghost use Rattle.prove_rules.specs.Loads.{first_named, is_second, loaded_at, loaded_line, loads_in, IsLoadOf};

use lab_app_rules::Load;
use lab_match::{begins_with, first_field, stays_inside};
use mc_deck::{Deck, Line};
use mc_text::next_line;
use mc_words::Aid;

/// What a line of a deck loads: the name of the application, and how it is created.
#[derive(Clone, Copy, Debug)]
pub struct Found<'a> {
    pub aid: Aid,
    pub load: Load<'a>,
}

// Whether the second field of a line is a name.
fn is_second(line: &[u8], name: &[u8]) -> bool
    ensures { result ≡ is_second (fields line.now) name.now }
{
    let Some((_, rest)) = first_field(line) else {
        return false;
    };
    match first_field(rest) {
        Some((field, _)) => field == name,
        None => false,
    }
}

// Whether a line loads the unit or section of a name, by whether it is in a section.
fn is_load(inside: bool, line: &[u8], name: &[u8]) -> bool
    ensures { result ≡ ((not inside && begins_with (codes "load") (fields line.now))
        && is_second (fields line.now) name.now) }
{
    !inside && begins_with(line, b"load") && is_second(line, name)
}

// The number of the first line that loads a name, or `None` if no line does.
fn load_line(text: &[u8], name: &[u8]) -> Option<u32>
    requires { length (lines text.now) ≤ 20000 }
    ensures { result ≡ first_named (load_names false (with_numbers 1 (lines text.now))) name.now }
{
    let mut inside = false;
    let mut number: u32 = 0;
    let mut rest = text;
    while let Some((line, after)) = next_line(rest) {
        number += 1;
        if is_load(inside, line, name) {
            return Some(number);
        }
        inside = stays_inside(inside, line);
        rest = after;
    }
    None
}

// A byte is below 256; a caller learns it here of a text.
fn bytes_of(bytes: &[u8]) -> &[u8]
    ensures same { result.now ≡ bytes.now }
    ensures bytes { AreBytes bytes.now }
{
    bytes
}

// What the line at a place of a deck loads.
fn load_in(deck: &Deck, i: usize) -> Option<Found<'_>>
    requires { i < length deck.now }
    ensures { MatchOption result (loaded_line (slice_get deck.now i) ≡ None)
        (IsLoadOf (loaded_line (slice_get deck.now i))) }
{
    let (_, line) = deck.line(i);
    match line {
        Line::Load {
            unit,
            fixed,
            session,
        } => Some(Found {
            aid: unit.aid,
            load: Load {
                code: bytes_of(unit.code),
                data: bytes_of(unit.init),
                fixed,
                session,
            },
        }),
        _ => None,
    }
}

// What the line of a number loads. The lines of a deck are in the order of their numbers.
fn load_at(deck: &Deck, number: u32) -> Option<Found<'_>>
    ensures { MatchOption result (loaded_at number deck.now ≡ None) (IsLoadOf (loaded_at number deck.now)) }
{
    for i in 0..deck.len() {
        let (there, _) = deck.line(i);
        if there == number {
            return load_in(deck, i);
        }
        if there > number {
            return None;
        }
    }
    None
}

/// Returns the application of a name as the deck's first line creates it that loads it, or `None` if no line does.
pub fn load_of<'a>(deck: &'a Deck, text: &[u8], name: &[u8]) -> Option<Found<'a>>
    requires few { length (lines text.now) ≤ 20000 }
    requires deck { deck_read text.now ≡ Ok deck.now }
    ensures { MatchOption result (lookup (loads_in text.now deck.now) name.now ≡ None)
        (IsLoadOf (lookup (loads_in text.now deck.now) name.now)) }
{
    match load_line(text, name) {
        Some(number) => load_at(deck, number),
        None => None,
    }
}

// Decks with their expectations.
ghost use Rattle.std.specs.Prelude.{◌≡◌, ◌+◌, ◌^◌, ◌<◌, ◌≤◌, drop, length, IfErr, IfOk};
ghost use Rattle.mc_deck.specs.Lines.{line_of};
ghost use Rattle.mc_lab.specs.Rising.{count_below, last_of, Rising};
ghost use Rattle.mc_lab.specs.Remarked.{remark_number, remark_values};
ghost use Rattle.mc_lab.specs.Expectations.{first_unanswered, has_result, is_answered, line_number, expected_deck_read};
ghost use Rattle.mc_lab.specs.ExpectedDecks.{refusal_of, expected_deck_value, IsRising, RefusesExpectedDeck};

use crate::remark::{Mark, Remark};
use crate::scanning::remarks;
use mc_deck::{Deck, DeckCause, DeckRefusal, Line, read_deck};
use mc_words::NoMemory;
use std::alloc::Global;
use thiserror::Error;

/// A deck and its expectations, remarks whose texts are patterns.
#[derive(Drop)]
pub struct ExpectedDeck<'a> {
    pub deck: Deck,
    pub expectations: Vec<Remark<'a>>,
}

/// Why a text is not a deck with expectations.
#[derive(Clone, Copy, Debug, PartialEq, Eq, Error)]
pub enum ExpectationRefusal {
    /// The first refused line of the deck, counted from 1, and its cause.
    #[error("line {0}: refused")]
    Deck(u32, DeckCause),
    /// The line of the first expectation without a statement above it that has a result.
    #[error("line {0}: no answer")]
    NoAnswer(u32),
    /// The text has no expectation.
    #[error("no expectation")]
    NoExpectation,
    /// Out of memory.
    #[error("out of memory")]
    NoMemory,
}

impl From<NoMemory> for ExpectationRefusal {
    ghost use Rattle.std.specs.Prelude.{◌≡◌};
    ghost use Rattle.mc_lab.specs.declared.expected_deck.ExpectationRefusal.TheVariants.{NoMemory};

    ghost from_gives = { λ f e. e ≡ NoMemory };

    fn from(_error: NoMemory) -> Self {
        ExpectationRefusal::NoMemory
    }
}

/// Returns the number of lines of a deck above a line of its text, if that is at least `from`.
pub fn count_above(deck: &Deck, from: usize, number: u32) -> usize
    requires { from + count_below line_number number (drop from deck.now) ≡ count_below line_number number deck.now }
    ensures count { result ≡ count_below line_number number deck.now }
    ensures most { result ≤ length deck.now }
{
    let mut count = from;
    while count < deck.len() {
        let (line, _) = deck.line(count);
        if line >= number {
            return count;
        }
        count += 1;
    }
    count
}

// Whether a statement has a result.
fn has_result(line: &Line<'_>) -> bool
    ensures { result ≡ has_result (line_of line.now) }
{
    !matches!(
        line,
        Line::Named | Line::Budget(_) | Line::Cut { .. } | Line::Fail(_) | Line::Poke { .. }
    )
}

// Whether the last of the first `count` lines of a deck has a result.
fn is_answered(deck: &Deck, count: usize) -> bool
    requires { count ≤ length deck.now }
    ensures { result ≡ is_answered (last_of count deck.now) }
{
    if count == 0 {
        return false;
    }
    let (_, line) = deck.line(count - 1);
    has_result(&line)
}

// The line of the first expectation without a statement above it that has a result.
fn first_unanswered(deck: &Deck, expectations: &[Remark<'_>]) -> Option<u32>
    requires lines { Rising line_number 1 deck.now }
    requires expectations { Rising remark_number 1 (remark_values expectations.now) }
    ensures { result ≡ first_unanswered deck.now (remark_values expectations.now) }
{
    let mut count = 0;
    for expectation in expectations {
        count = count_above(deck, count, expectation.number);
        if !is_answered(deck, count) {
            return Some(expectation.number);
        }
    }
    None
}

// The refusal of a deck, as one of a deck with expectations.
fn refusal_of(refusal: DeckRefusal) -> ExpectationRefusal
    ensures { result ≡ refusal_of refusal }
{
    match refusal {
        DeckRefusal::At(number, cause) => ExpectationRefusal::Deck(number, cause),
        DeckRefusal::NoMemory => ExpectationRefusal::NoMemory,
    }
}

/// Reads a deck and its expectations.
///
/// # Errors
///
/// Returns the refusal of the deck, or else the line of the first expectation without a statement above it
/// that has a result, or else `NoExpectation` if there is none; or `NoMemory` if it is out of memory.
pub fn read_expected_deck(
    alloc: Global,
    text: &[u8],
) -> Result<ExpectedDeck<'_>, ExpectationRefusal>
    requires { length text.now < 2 ^ 32 }
    ensures expected_deck { IfOk result (λ t. expected_deck_read text.now ≡ Ok (expected_deck_value t)) }
    ensures rising { IfOk result IsRising }
    ensures refused { IfErr result (RefusesExpectedDeck (expected_deck_read text.now)) }
{
    let deck = match read_deck(alloc, text) {
        Ok(deck) => deck,
        Err(refusal) => return Err(refusal_of(refusal)),
    };
    let expectations = remarks(alloc, text, Mark::Expectation)?;
    if let Some(number) = first_unanswered(&deck, expectations.as_slice()) {
        return Err(ExpectationRefusal::NoAnswer(number));
    }
    if expectations.is_empty() {
        return Err(ExpectationRefusal::NoExpectation);
    }
    Ok(ExpectedDeck { deck, expectations })
}

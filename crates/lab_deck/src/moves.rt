// The moves of a deck.
ghost use Rattle.std.specs.Prelude.{◌≡◌, ◌≤◌, ◌&&◌, List, codes, length, not, IfErr, IfOk, OnOk};
ghost use Rattle.law_histories.specs.model_text.specs.Text.{fields, lines};
ghost use Rattle.law_histories.specs.law_explore.specs.Rules as model;
ghost use Rattle.law_histories.specs.Histories.{is_rule_of};
ghost use Rattle.mc_deck.specs.Refused.{DeckRefuses, Faulty};
ghost use Rattle.lab_rules.specs.Fields.{IsOneLine};
ghost use Rattle.lab_rules.specs.Meanings.{AreRules};
ghost use Rattle.lab_deck.specs.Moves.{moves_only, moves_read, moves_with, AreMovesRead, AreOnlyMoves};

use crate::named::is_rule_of;
use lab_match::stays_inside;
use lab_rules::{Move, Rules, add_line, refusal_at};
use mc_deck::{DeckRefusal, Fault};
use mc_text::next_line;
use std::alloc::Global;

// Whether a line is a move, by whether it is in a section.
fn is_move(inside: bool, line: &[u8]) -> bool
    ensures { result ≡ (not inside && is_rule_of (codes "move") (fields line.now)) }
{
    !inside && is_rule_of(b"move", line)
}

// Adds the move of a line of a deck, if it is one, by whether it is in a section.
fn add_move<'a>(
    alloc: Global,
    rules: &mut Rules<'a>,
    inside: bool,
    number: u32,
    line: &'a [u8],
) -> Result<(), Fault>
    requires { IsOneLine line.now }
    ensures added { OnOk result ((ms : List model.Move) → AreRules rules.old (moves_only ms)
        → AreOnlyMoves rules.new (moves_with inside (number, line.now) ms)) }
    ensures refused { IfErr result (λ e. (ms : List model.Move) → AreRules rules.old (moves_only ms)
        → Faulty (moves_with inside (number, line.now) ms) e) }
{
    if !is_move(inside, line) {
        return Ok(());
    }
    add_line(alloc, rules, false, number, line)
}

/// Reads the moves of a deck's text, which has at most 20,000 lines: those of its lines outside of sections that are rules
/// and begin with `move`.
///
/// # Errors
///
/// Returns the refusal of the first of them whose statement is no move, or `NoMemory` if it is out of memory.
pub fn read_moves(alloc: Global, text: &[u8]) -> Result<Vec<Move<'_>>, DeckRefusal>
    requires { length (lines text.now) ≤ 20000 }
    ensures read { IfOk result (λ ms. AreMovesRead ms.items (moves_read text.now)) }
    ensures refused { IfErr result (λ e. DeckRefuses (moves_read text.now) e) }
{
    let mut rules = Rules {
        moves: Vec::new(alloc),
        allowances: Vec::new(alloc),
        ons: Vec::new(alloc),
    };
    let mut inside = false;
    let mut number: u32 = 0;
    let mut rest = text;
    while let Some((line, behind)) = next_line(rest) {
        number += 1;
        match add_move(alloc, &mut rules, inside, number, line) {
            Ok(()) => {}
            Err(fault) => return Err(refusal_at(number, fault)),
        }
        inside = stays_inside(inside, line);
        rest = behind;
    }
    let Rules {
        moves,
        allowances: _,
        ons: _,
    } = rules;
    Ok(moves)
}

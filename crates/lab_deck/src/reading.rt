// A deck with the rules of one application, and its moves.
ghost use Rattle.std.specs.Prelude.{◌≡◌, ◌≤◌, ◌||◌, ℕ, length, IfErr, IfOk, List, Ok};
ghost use Rattle.mc_text.specs.model_text.specs.Text.{lines};
ghost use Rattle.mc_deck.specs.model_play.specs.DeckGrammar.{deck_read, DeckLine};
ghost use Rattle.law_histories.specs.model_rule_text.specs.Reading.{app_rules_read};
ghost use Rattle.prove_facts.specs.model_rules.specs.Rules.{AppRules, Target};
ghost use Rattle.law_histories.specs.law_explore.specs.Rules.{is_some_of};
ghost use Rattle.law_histories.specs.Histories.{app_exploration_read, can_break};
ghost use Rattle.lab_app_rules.specs.Rules.{AreRules};
ghost use Rattle.prove_rules.specs.Refused.{RefusesRules};
ghost use Rattle.lab_app_rules.specs.Sums.{AreSums};
ghost use Rattle.lab_deck.specs.Moves.{moves_read};
ghost use Rattle.lab_deck.specs.Applications.{AreMovesRefused, IsApplicationRead, RefusesApplication};

use crate::counting::counting;
use crate::read_moves;
use crate::refusal::{ApplicationRefusal, first_refusal, move_refusal};
use lab_app_rules::Rules;
use lab_rules::Exploration;
use mc_deck::{Deck, DeckRefusal};
use mc_words::Aid;
use prove_rules::{RuleRefusal, read_named_rules};
use std::alloc::Global;

/// A deck with rules of one application: its moves, as an exploration whose one allowance stays 0, and whose one `on` line
/// counts instructions; the rules, and the application's AID.
#[derive(Drop)]
pub struct Application<'a> {
    pub moves: Exploration<'a>,
    pub rules: Rules<'a>,
    pub aid: Aid,
}

// Whether a list has an item.
fn has_some<T>(list: &[T]) -> bool
    ensures { result ≡ is_some_of list.now }
{
    !list.is_empty()
}

// Whether one of four is true.
fn any_of(on: bool, never: bool, range: bool, block: bool) -> bool
    ensures { result ≡ (on || never || range || block) }
{
    on || never || range || block
}

// Whether rules have an `on`, a `never` or an `always` line.
fn can_break(rules: &Rules<'_>) -> bool
    ensures { (a : AppRules) (g : Target) → AreRules a g rules.now → AreSums a rules.now → result ≡ can_break a }
{
    let on = has_some(rules.ons.as_slice());
    let never = rules.never.is_some();
    let range = has_some(rules.always.as_slice());
    let block = has_some(rules.balances.as_slice());
    any_of(on, never, range, block)
}

// The refusal of the first move that is refused, or `None` if all are read.
fn refused_move(alloc: Global, text: &[u8]) -> Option<DeckRefusal>
    requires { length (lines text.now) ≤ 20000 }
    ensures { AreMovesRefused (moves_read text.now) result }
{
    match read_moves(alloc, text) {
        Ok(_) => return None,
        Err(refusal) => Some(refusal),
    }
}

// The refusal of a rule, or that of a move if its line is before.
fn refused_rule(alloc: Global, text: &[u8], refusal: RuleRefusal) -> ApplicationRefusal
    requires { length (lines text.now) ≤ 20000 }
    ensures { (d : List (ℕ × DeckLine)) → deck_read text.now ≡ Ok d → RefusesRules (app_rules_read text.now) refusal
        → RefusesApplication (app_exploration_read text.now) result }
{
    let of_move = refused_move(alloc, text);
    first_refusal(refusal, of_move)
}

/// Reads the moves and the rules of a deck that names an application; `deck` is what was read of the text.
///
/// # Errors
///
/// Returns the refusal of the first line that is no move and no rule of an application; or else `NoMove` if no line is a
/// move, and `NoRule` if none is an `on`, a `never` or an `always` line; or `NoMemory` if it is out of memory.
pub fn read_application<'a>(
    alloc: Global,
    deck: &'a Deck,
    text: &'a [u8],
) -> Result<Application<'a>, ApplicationRefusal>
    requires { deck_read text.now ≡ Ok deck.now }
    ensures read { IfOk result (λ x. IsApplicationRead x (app_exploration_read text.now)) }
    ensures refused { IfErr result (RefusesApplication (app_exploration_read text.now)) }
{
    let (rules, aid) = match read_named_rules(alloc, deck, text) {
        Ok(named) => named,
        Err(refusal) => return Err(refused_rule(alloc, text, refusal)),
    };
    let moves = match read_moves(alloc, text) {
        Ok(moves) => moves,
        Err(refusal) => return Err(move_refusal(refusal)),
    };
    if moves.is_empty() {
        return Err(ApplicationRefusal::NoMove);
    }
    if !can_break(&rules) {
        return Err(ApplicationRefusal::NoRule);
    }
    match counting(alloc, text, moves) {
        Ok(moves) => Ok(Application { moves, rules, aid }),
        Err(_) => Err(ApplicationRefusal::NoMemory),
    }
}

// The exploration that a deck's moves are, with one rule that counts the instructions of each try.
ghost use Rattle.std.specs.Prelude.{◌≡◌, List, ℕ, IfOk, Ok};
ghost use Rattle.mc_deck.specs.model_play.specs.DeckGrammar.{deck_read, DeckLine};
ghost use Rattle.law_histories.specs.law_explore.specs.Rules as model;
ghost use Rattle.lab_rules.specs.Meanings.{AlikeLists, AreRules, IsMove, IsOn};
ghost use Rattle.lab_deck.specs.Applications.{counter, counting};

use lab_rules::{Allowance, Effect, Exploration, Move, Occasion, OnRule, Rules};
use mc_deck::read_deck;
use mc_words::NoMemory;
use prove_facts::push;
use std::alloc::Global;

/// The name of the allowance whose line counts instructions.
const NAME: &[u8] = b"turns";

// The rule that applies to each instruction of each move.
fn counter(alloc: Global) -> Result<OnRule, NoMemory>
    ensures { IfOk result (λ on. IsOn counting.allowances on counter) }
{
    let moves = Vec::from_slice(alloc, b"*")?;
    let pattern = Vec::from_slice(alloc, b"*")?;
    Ok(OnRule {
        line: 0,
        moves,
        occasion: Occasion::Turn,
        pattern,
        effect: Effect::Allow,
        allowance: 0,
        amount: 0,
    })
}

// The rules that count the instructions of some moves.
fn counted<'a>(alloc: Global, moves: Vec<Move<'a>>) -> Result<Rules<'a>, NoMemory>
    ensures { IfOk result (λ rules. (ms : List model.Move) → AlikeLists IsMove moves.entry.items ms
        → AreRules rules (record counting { moves = ms })) }
{
    let mut allowances = Vec::new(alloc);
    push(
        &mut allowances,
        Allowance {
            name: NAME,
            amount: 0,
        },
    )?;
    let mut ons = Vec::new(alloc);
    push(&mut ons, counter(alloc)?)?;
    Ok(Rules {
        moves,
        allowances,
        ons,
    })
}

// The deck of a text that can be read.
fn deck_of(alloc: Global, text: &[u8]) -> Result<mc_deck::Deck, NoMemory>
    ensures { IfOk result (λ deck. deck_read text.now ≡ Ok deck) }
{
    match read_deck(alloc, text) {
        Ok(deck) => Ok(deck),
        Err(_) => Err(NoMemory),
    }
}

/// Returns the exploration of the deck of a text that can be read, with these moves and with one rule, which counts the
/// instructions of each try and leaves its allowance 0.
///
/// # Errors
///
/// Returns `NoMemory` if it is out of memory.
pub fn counting<'a>(
    alloc: Global,
    text: &[u8],
    moves: Vec<Move<'a>>,
) -> Result<Exploration<'a>, NoMemory>
    ensures deck { IfOk result (λ x. deck_read text.now ≡ Ok x.deck) }
    ensures rules { IfOk result (λ x. (ms : List model.Move) → AlikeLists IsMove moves.entry.items ms
        → AreRules x.rules (record counting { moves = ms })) }
{
    let deck = deck_of(alloc, text)?;
    let rules = counted(alloc, moves)?;
    Ok(Exploration { deck, rules })
}

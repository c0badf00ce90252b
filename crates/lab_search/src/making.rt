// A move made on a player that a state was put back on: whole, or cut and recovered.
ghost use Rattle.std.specs.Prelude.{◌≡◌, ◌≤◌, ℕ, true, None, option_map, IfOk};
ghost use Rattle.law_explore_text.specs.model_play.specs.DeckGrammar as line;
ghost use Rattle.arrayvec.specs.ArrayVec.{array_vec_len};
ghost use Rattle.law_explore_text.specs.model_play.specs.DeckGrammar.{DeckLine};
ghost use Rattle.law_explore_text.specs.model_play.specs.Play as play;
ghost use Rattle.law_explore_text.specs.model_play.specs.Play.{State, AfterPower, start, is_card_line, armed_stop_in};
ghost use Rattle.law_explore_text.specs.model_device.specs.PowerUp.{Base};
ghost use Rattle.law_explore_text.specs.law_explore.specs.Rules as rule;
ghost use Rattle.law_explore_text.specs.law_explore.specs.States as model;
ghost use Rattle.law_explore_text.specs.law_explore.specs.States.{play_of};
ghost use Rattle.law_explore_text.specs.law_explore.specs.Tries.{recovery, result_text};
ghost use Rattle.lab_rules.specs.Moves.{move_deck};
ghost use Rattle.lab_rules.specs.Meanings.{IsMove};
ghost use Rattle.mc_script.specs.Players.{answer_value, device_of};
ghost use Rattle.mc_script.specs.Benches.{IsPlayerAt, IsPlaying};
ghost use Rattle.lab_search.specs.Playing.{FailsNot};
ghost use Rattle.lab_search.specs.Benches.{CountsAs, IsLiveAfter, MadeAs, PlaysAs};
ghost use Rattle.lab_search.specs.Reports.{fill_value, manner_value};
ghost use Rattle.lab_key.specs.Shown.{IsKeptBase, IsShown, ShowsSome};
ghost use Rattle.lab_search.specs.Shown.{settled_play};
ghost use Rattle.lab_search.specs.Trying.{CanCut, CountsWrite, armed_for, is_missed, TriedAs};

use crate::counter::play_counted;
use crate::journey::{Fill, Manner};
use crate::playing::{Budget, play};
use lab_rules::{Move, OnRule};
use mc_deck::Line;
use mc_nvm::Bench;
use mc_script::{Answer, Live, Player, Text, add_result, was_cut};
use mc_words::{NoMemory, Steps};
use std::alloc::Global;
use std::sync::ledger::Ledger;

/// A move of a deck, and for each `on` line whether it applies to the move.
#[derive(Clone, Copy)]
pub struct Candidate<'a> {
    pub chosen: &'a Move<'a>,
    pub ons: &'a [OnRule],
    pub applies: &'a [bool],
}

/// Puts a state back on a player before its first line: sets the budget, powers up, and puts back what ran.
pub fn restore<N: Bench, L: Ledger>(
    player: &mut Player<N>,
    budget: &Budget,
    saved: &Live,
    steps: &mut Steps<L>,
)
    requires start { IsPlayerAt N.Bench player.old (start (N.state (device_of player.old)).words) }
    requires steady { (N.bench (device_of player.old)).steady ≡ true }
    requires shown { ShowsSome (N.state (device_of player.old)).words saved.now }
    ensures playing { IsPlaying N.Bench player.new }
    ensures at { (b : Base) (l : play.Live) → IsShown (N.state (device_of player.old)).words saved.now b l
        → IsPlayerAt N.Bench player.new (AfterPower (settled_play b l budget.now)) }
    ensures steady { (N.bench (device_of player.new)).steady ≡ true }
    ensures keeps_device { N.same (device_of player.old) (device_of player.new) }
{
    let _set = play(player, &budget.line(), steps);
    let _powered = play(player, &Line::Power, steps);
    player.put_live(saved);
}

// Arms the cut of a move that is cut.
fn arm<N: Bench, L: Ledger>(player: &mut Player<N>, manner: Manner, steps: &mut Steps<L>)
    requires { IsPlaying N.Bench player.old }
    ensures playing { IsPlaying N.Bench player.new }
    ensures at { (s : State) (n : ℕ) → CountsWrite manner → IsPlayerAt N.Bench player.old s
        → (N.bench (device_of player.old)).steady ≡ true → FailsNot (armed_stop_in s)
        → IsPlayerAt N.Bench player.new (armed_for n manner s) }
    ensures steady { CountsWrite manner → (s : State) → IsPlayerAt N.Bench player.old s
        → (N.bench (device_of player.old)).steady ≡ true → FailsNot (armed_stop_in s)
        → (N.bench (device_of player.new)).steady ≡ true }
    ensures keeps_device { N.same (device_of player.old) (device_of player.new) }
{
    match manner {
        Manner::Whole => {}
        Manner::Cut { made, fill } => arm_cut(player, made.saturating_add(1), fill, steps),
    }
}

// Arms a cut.
fn arm_cut<N: Bench, L: Ledger>(player: &mut Player<N>, k: u32, fill: Fill, steps: &mut Steps<L>)
    requires playing { IsPlaying N.Bench player.old }
    requires some { 1 ≤ k }
    ensures playing { IsPlaying N.Bench player.new }
    ensures plays { PlaysAs N.Bench player.old (line.Cut k (fill_value fill)) None player.new }
    ensures keeps_device { N.same (device_of player.old) (device_of player.new) }
{
    let cut = Line::Cut {
        k,
        fill: fill.word(),
    };
    let _armed = play(player, &cut, steps);
}

// Powers a card up after a move that was cut.
fn recover<N: Bench, L: Ledger>(player: &mut Player<N>, manner: Manner, steps: &mut Steps<L>)
    requires { IsPlaying N.Bench player.old }
    ensures playing { IsPlaying N.Bench player.new }
    ensures at { (s : State) (n : ℕ) → IsPlayerAt N.Bench player.old s
        → (N.bench (device_of player.old)).steady ≡ true → FailsNot (armed_stop_in s)
        → IsPlayerAt N.Bench player.new (recovery n (manner_value manner) s) }
    ensures keeps_device { N.same (device_of player.old) (device_of player.new) }
{
    match manner {
        Manner::Whole => {}
        Manner::Cut { made: _, fill: _ } => {
            let _recovered = play(player, &Line::Power, steps);
        }
    }
}

// Whether a cut hit no write of a line.
fn is_missed(manner: Manner, answer: &Option<Answer>) -> bool
    ensures { result ≡ is_missed manner answer.now }
{
    match manner {
        Manner::Whole => false,
        Manner::Cut { made: _, fill: _ } => !was_cut(answer),
    }
}

// Writes the result of a line, as a transcript has it after its number and a blank.
fn put_result<N: Bench>(text: &mut Text, player: &Player<N>, answer: &Option<Answer>)
    requires { IsPlaying N.Bench player.now }
    ensures text { text.new.items ≡ result_text (option_map (answer_value N.state player.now) answer.now) }
    ensures short { array_vec_len text.new ≤ 8210 }
{
    text.clear();
    if let Some(answer) = answer {
        add_result(text, player, answer);
    }
}

// Plays a move, and counts the executed instructions that its `on` lines match.
fn play_move<N: Bench, L: Ledger>(
    player: &mut Player<N>,
    candidate: &Candidate<'_>,
    counts: &mut [u64],
    steps: &mut Steps<L>,
) -> Option<Answer>
    requires { IsPlaying N.Bench player.old }
    ensures playing { IsPlaying N.Bench player.new }
    ensures plays { (l : DeckLine) → candidate.now.chosen.now.deck ≡ move_deck l
        → PlaysAs N.Bench player.old l result player.new }
    ensures counts { (l : DeckLine) → candidate.now.chosen.now.deck ≡ move_deck l
        → CountsAs N.Bench candidate.now.ons.now candidate.now.applies.now player.old l counts.old
        counts.new }
    ensures keeps_device { N.same (device_of player.old) (device_of player.new) }
{
    let line = candidate.chosen.line();
    play_counted(
        player,
        &line,
        candidate.ons,
        candidate.applies,
        counts,
        steps,
    )
}

// Makes a move in a manner from the state that a player is at, and writes the text of its result. Returns whether it was
// made, which a cut that hits no write is not.
fn make<N: Bench, L: Ledger>(
    player: &mut Player<N>,
    candidate: &Candidate<'_>,
    manner: Manner,
    counts: &mut [u64],
    text: &mut Text,
    steps: &mut Steps<L>,
) -> bool
    requires { IsPlaying N.Bench player.old }
    ensures playing { IsPlaying N.Bench player.new }
    ensures made { (c : model.CardState) (m : rule.Move) → IsPlayerAt N.Bench player.old (play_of c)
        → (N.bench (device_of player.old)).steady ≡ true → IsKeptBase c.live c.base
        → IsMove candidate.now.chosen.now m → is_card_line m.line ≡ true → CanCut c manner
        → MadeAs N.Bench c m manner candidate.now.ons.now candidate.now.applies.now counts.old counts.new
        text.new.items player.new result }
    ensures short { array_vec_len text.new ≤ 8210 }
    ensures keeps_device { N.same (device_of player.old) (device_of player.new) }
{
    arm(player, manner, steps);
    let answer = play_move(player, candidate, counts, steps);
    put_result(text, player, &answer);
    if is_missed(manner, &answer) {
        return false;
    }
    recover(player, manner, steps);
    true
}

// Saves what runs after a move that was made.
fn live_after<N: Bench>(
    alloc: Global,
    player: &Player<N>,
    made: bool,
) -> Result<Option<Live>, NoMemory>
    requires { IsPlaying N.Bench player.now }
    ensures shows { IfOk result (IsLiveAfter N.Bench player.now made) }
{
    if !made {
        return Ok(None);
    }
    Ok(Some(player.live(alloc)?))
}

/// Makes a try on a player before its first line, the words of whose device show a state. Returns what runs after the
/// move, or `None` if a cut hit no write.
///
/// # Errors
///
/// Returns `NoMemory` if it is out of memory.
pub fn try_on<N: Bench, L: Ledger>(
    alloc: Global,
    player: &mut Player<N>,
    budget: &Budget,
    saved: &Live,
    candidate: &Candidate<'_>,
    manner: Manner,
    counts: &mut [u64],
    text: &mut Text,
    steps: &mut Steps<L>,
) -> Result<Option<Live>, NoMemory>
    requires start { IsPlayerAt N.Bench player.old (start (N.state (device_of player.old)).words) }
    requires steady { (N.bench (device_of player.old)).steady ≡ true }
    requires shown { ShowsSome (N.state (device_of player.old)).words saved.now }
    ensures tried { (c : model.CardState) (m : rule.Move)
        → IsShown (N.state (device_of player.old)).words saved.now c.base c.live
        → c.budget ≡ budget.now → IsMove candidate.now.chosen.now m → is_card_line m.line ≡ true → CanCut c manner
        → TriedAs c m manner candidate.now.ons.now candidate.now.applies.now counts.old counts.new text.new.items
        (N.state (device_of player.new)).words result }
    ensures short { array_vec_len text.new ≤ 8210 }
    ensures keeps_device { N.same (device_of player.old) (device_of player.new) }
{
    restore(player, budget, saved, steps);
    let made = make(player, candidate, manner, counts, text, steps);
    live_after(alloc, player, made)
}

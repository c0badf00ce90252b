// The beginning of an exploration: its deck is played, and leads to the first state.
ghost use Rattle.std.specs.Prelude.{◌≡◌, ℕ, true, List, IfOk};
ghost use Rattle.law_explore_text.specs.model_device.specs.Device.{blank_words, device_words};
ghost use Rattle.law_explore_text.specs.model_play.specs.Play.{Unarmed, State, armed_stop_in};
ghost use Rattle.law_explore_text.specs.law_explore.specs.Rules as rule;
ghost use Rattle.law_explore_text.specs.law_explore.specs.Safety.{IsSettled};
ghost use Rattle.law_explore_text.specs.law_explore.specs.States.{first_warm, play_of_deck, warm_in};
ghost use Rattle.lab_branch.specs.Branches.{blank_branch, branch_bench};
ghost use Rattle.law_explore_text.specs.model_play.specs.DeckGrammar.{DeckLine};
ghost use Rattle.mc_script.specs.Players.{device_of, IsUnfused};
ghost use Rattle.mc_script.specs.Benches.{IsPlayerAt, IsPlaying};
ghost use Rattle.lab_search.specs.Kept.{is_armed, Begins, IsExplorationOf};
ghost use Rattle.lab_search.specs.Beginnings.{is_ready_answer, without_stop, IsFirst, IsPowered};

use crate::playing::{Budget, play, play_all};
use crate::trying::{Laboratory, runs};
use lab_branch::BranchNvm;
use lab_key::{CardState, Rosters};
use lab_rules::Exploration;
use mc_deck::{Deck, Line};
use mc_nvm::Bench;
use mc_script::{Answer, Live, Player, Silent, Text};
use mc_words::{NoMemory, Steps};
use std::alloc::Global;
use std::sync::ledger::Ledger;

/// What leads from the end of a deck to the first state: whether a stop is armed there, and whether a card
/// runs there only after one more `power`.
#[derive(Clone, Copy)]
pub struct Lead {
    pub armed: bool,
    pub power: bool,
}

/// The beginning of an exploration: its first state with the laboratory and the rosters that keep it, and the way there
/// from the end of the deck.
#[derive(Drop)]
pub struct Beginning {
    pub laboratory: Laboratory,
    pub rosters: Rosters,
    pub first: CardState,
    pub lead: Lead,
}

// Drops a stop that is armed for the next card line, and returns whether there was one.
fn drop_stop<N: Bench, L: Ledger>(player: &mut Player<N>, steps: &mut Steps<L>) -> bool
    requires { IsPlaying N.Bench player.old }
    ensures playing { IsPlaying N.Bench player.new }
    ensures armed { (s : State) → IsPlayerAt N.Bench player.old s → result ≡ is_armed (armed_stop_in s) }
    ensures at { (s : State) → IsPlayerAt N.Bench player.old s
        → (N.bench (device_of player.old)).steady ≡ true → IsPlayerAt N.Bench player.new (without_stop s) }
    ensures steady { (N.bench (device_of player.old)).steady ≡ true → (N.bench (device_of player.new)).steady ≡ true }
    ensures keeps_device { N.same (device_of player.old) (device_of player.new) }
{
    if !player.is_armed() {
        return false;
    }
    play_idle(player, steps);
    true
}

// Plays a command that is too short to be one.
fn play_idle<N: Bench, L: Ledger>(player: &mut Player<N>, steps: &mut Steps<L>)
    requires { IsPlaying N.Bench player.old }
    ensures playing { IsPlaying N.Bench player.new }
    ensures at { (s : State) → IsPlayerAt N.Bench player.old s
        → (N.bench (device_of player.old)).steady ≡ true → IsPlayerAt N.Bench player.new (without_stop s) }
    ensures steady { (N.bench (device_of player.old)).steady ≡ true → (N.bench (device_of player.new)).steady ≡ true }
    ensures keeps_device { N.same (device_of player.old) (device_of player.new) }
{
    let _dropped = player.line(&Line::Apdu(&[0]), &mut Silent, steps);
}

// Whether a power line found a card.
fn is_ready(answer: &Option<Answer>) -> bool
    ensures { result ≡ is_ready_answer answer.now }
{
    match answer {
        Some(Answer::Ready(_)) => true,
        _ => false,
    }
}

// Powers a card up if none runs. Returns whether one runs only since then, and what runs. Without a card the power line
// leaves the words as recovery leaves them, and what runs is as it was before it.
fn power_up<N: Bench, L: Ledger>(
    alloc: Global,
    player: &mut Player<N>,
    steps: &mut Steps<L>,
) -> Result<(bool, Live), NoMemory>
    requires { IsPlaying N.Bench player.old }
    ensures playing { IsPlaying N.Bench player.new }
    ensures powered { IfOk result (λ r. (s : State) → IsPlayerAt N.Bench player.old s
        → (N.bench (device_of player.old)).steady ≡ true → armed_stop_in s ≡ Unarmed
        → IsSettled (first_warm (warm_in s)).live (first_warm (warm_in s)).base (first_warm (warm_in s)).owed
        → IsPowered (warm_in s) (N.state (device_of player.new)).words r.0 r.1 player.new.budget) }
    ensures keeps_device { N.same (device_of player.old) (device_of player.new) }
{
    let before = player.live(alloc)?;
    if runs(&before) {
        return Ok((false, before));
    }
    let answer = play(player, &Line::Power, steps);
    if !is_ready(&answer) {
        return Ok((false, before));
    }
    Ok((true, player.live(alloc)?))
}

// Leads from the end of a deck to the first state. Returns the budget, the way there, and what runs.
fn lead_on<N: Bench, L: Ledger>(
    alloc: Global,
    player: &mut Player<N>,
    steps: &mut Steps<L>,
) -> Result<(Budget, Lead, Live), NoMemory>
    requires { IsPlaying N.Bench player.old }
    ensures playing { IsPlaying N.Bench player.new }
    ensures first { IfOk result (λ r. (ls : List (ℕ × DeckLine))
        → IsPlayerAt N.Bench player.old (play_of_deck ls) → (N.bench (device_of player.old)).steady ≡ true
        → IsFirst ls (N.state (device_of player.new)).words r.0 r.1 r.2) }
    ensures keeps_device { N.same (device_of player.old) (device_of player.new) }
{
    let armed = drop_stop(player, steps);
    let (power, live) = power_up(alloc, player, steps)?;
    Ok((Budget::of(player), Lead { armed, power }, live))
}

// Plays a deck on a blank device, and leads from its end to the first state. Returns the device, and the budget, the
// way there, and what runs.
fn play_on<N: Bench, L: Ledger>(
    alloc: Global,
    device: N,
    deck: &Deck,
    steps: &mut Steps<L>,
) -> (N, Result<(Budget, Lead, Live), NoMemory>)
    requires unfused { IsUnfused (N.bench device) }
    requires steady { (N.bench device).steady ≡ true }
    requires blank { (N.state device).words ≡ blank_words device_words }
    ensures first { IfOk result.1 (λ r. IsFirst deck.now (N.state result.0).words r.0 r.1 r.2) }
    ensures keeps_device { N.same device result.0 }
{
    let mut player = Player::new(device);
    play_all(&mut player, deck, steps);
    let first = lead_on(alloc, &mut player, steps);
    (player.into_dev(), first)
}

// Plays a deck on a blank device with a root, and makes the words of the first state its root.
fn play_deck<L: Ledger>(
    alloc: Global,
    device: &mut BranchNvm,
    deck: &Deck,
    steps: &mut Steps<L>,
) -> Result<(Budget, Lead, Live), NoMemory>
    requires { device.old ≡ blank_branch device_words }
    ensures first { IfOk result (λ r. IsFirst deck.now device.new.device.words r.0 r.1 r.2) }
    ensures root { device.new.root ≡ device.new.device.words }
{
    let (_device, first) = play_on(alloc, &mut *device, deck, steps);
    device.take_root();
    first
}

// A player before its first line, on the heap.
fn player(alloc: Global, device: BranchNvm) -> Result<Box<Player<BranchNvm>>, NoMemory>
    requires { IsUnfused (branch_bench device) }
    ensures { IfOk result (λ player. device_of player.value ≡ device) }
{
    match Box::new(alloc, Player::new(device)) {
        Ok(player) => Ok(player),
        Err(_) => Err(NoMemory),
    }
}

// An empty text on the heap.
fn text(alloc: Global) -> Result<Box<Text>, NoMemory> {
    match Box::new(alloc, Text::new()) {
        Ok(text) => Ok(text),
        Err(_) => Err(NoMemory),
    }
}

/// Plays the deck of an exploration, and returns its beginning.
///
/// # Errors
///
/// Returns `NoMemory` if it is out of memory.
pub fn begin<L: Ledger>(
    alloc: Global,
    exploration: &Exploration<'_>,
    steps: &mut Steps<L>,
) -> Result<Beginning, NoMemory>
    ensures { IfOk result (λ b. (x : rule.Exploration) → IsExplorationOf exploration.now x → Begins b x) }
{
    let mut device = BranchNvm::new(alloc)?;
    let (budget, lead, live) = play_deck(alloc, &mut device, &exploration.deck, steps)?;
    let mut rosters = Rosters::new(alloc);
    let runs = runs(&live);
    let card = rosters.keep(alloc, &device, live)?;
    device.return_to_root();
    let laboratory = Laboratory {
        player: player(alloc, device)?,
        budget,
        text: text(alloc)?,
        plain: text(alloc)?,
        counts: vec![in alloc; 0; exploration.rules.ons.len()]?,
    };
    let first = CardState {
        card,
        runs,
        allowances: exploration.rules.amounts()?,
    };
    Ok(Beginning {
        laboratory,
        rosters,
        first,
        lead,
    })
}

// The lines before a line: they are played once, and what a play holds after them is kept.
ghost use Rattle.std.specs.Prelude.{◌≡◌, ◌≤◌, ℕ, true, List, length, take, Some, IfSome};
ghost use Rattle.law_explore.specs.model_device.specs.Card.{Card};
ghost use Rattle.law_explore.specs.model_device.specs.Image.{Two};
ghost use Rattle.law_explore.specs.model_device.specs.PowerUp.{OnCard};
ghost use Rattle.law_explore.specs.model_play.specs.Play.{State, BeforePower, AfterPower, Unarmed, Warm, start};
ghost use Rattle.mc_store.specs.Power.{HoldsBase};
ghost use Rattle.mc_script.specs.Players.{device_of, IsUnfused};
ghost use Rattle.mc_script.specs.Benches.{IsPlaying};
ghost use Rattle.mc_lab.specs.Sweeps.{state_on_blank};
ghost use Rattle.mc_lab.specs.Benches.{IsPoweredUp, IsSteadyAt};
ghost use Rattle.mc_lab.specs.SweepFronts.{is_card, IsKeptAt, ShowsPlay};

use crate::sweep_play::play_line;
use mc_deck::{Deck, Line};
use mc_nvm::Bench;
use mc_script::{Live, Player, Silent};
use mc_words::Steps;
use std::alloc::Global;
use std::sync::ledger::Ledger;

/// What a play with a card that runs holds besides the words of its device: the budget, and the session state.
#[derive(Drop)]
pub struct Kept {
    budget: u32,
    live: Live,
}

// Returns what a play holds besides the words of its device, if a card runs, no stop is armed and there is room for it.
fn keep<N: Bench>(alloc: Global, player: &Player<N>) -> Option<Kept>
    requires { IsPlaying N.Bench player.now }
    ensures { IfSome result (λ k. (s : State) → IsSteadyAt N.Bench player.now s
        → IsKeptAt (N.state (device_of player.now)).words (Some k) s) }
{
    if player.is_armed() {
        return None;
    }
    let budget = player.budget();
    match player.live(alloc) {
        Ok(live) => kept_card(budget, live),
        Err(_) => None,
    }
}

// Returns what is kept of a play with a card that runs.
fn kept_card(budget: u32, live: Live) -> Option<Kept>
    ensures { IfSome result (λ k. (k ≡ record { budget = budget; live = live }) × (is_card live ≡ true)) }
{
    match live {
        Live::Running(saved) => Some(Kept {
            budget,
            live: Live::Running(saved),
        }),
        _ => None,
    }
}

// Returns a play on a device with the words after some lines, with what was kept of the play then; or a play before its
// first line.
fn resume<N: Bench, L: Ledger>(device: N, kept: &Option<Kept>, steps: &mut Steps<L>) -> Player<N>
    requires fuses { IsUnfused (N.bench device) }
    requires steady { (N.bench device).steady ≡ true }
    requires kept { (s : State) × IsKeptAt (N.state device).words kept.now s }
    ensures at { (s : State) → IsKeptAt (N.state device).words kept.now s → IsSteadyAt N.Bench result s }
    ensures keeps_device { N.same device (device_of result) }
{
    let mut player = Player::new(device);
    match kept {
        None => player,
        Some(kept) => {
            put_back(&mut player, kept, steps);
            player
        }
    }
}

// Powers up a card of which no write is owed.
fn power_up<N: Bench, L: Ledger>(player: &mut Player<N>, steps: &mut Steps<L>)
    requires { IsPlaying N.Bench player.old }
    ensures playing { IsPlaying N.Bench player.new }
    ensures up { (m : List (List ℕ)) (b : ℕ) (c : Card) → IsSteadyAt N.Bench player.old (BeforePower m b Unarmed)
        → HoldsBase (OnCard c) 0 Two m → c.layout ≡ 2 → IsPoweredUp N.Bench player.new m b c }
    ensures keeps_device { N.same (device_of player.old) (device_of player.new) }
{
    let _powered = player.line(&Line::Power, &mut Silent, steps);
}

// Puts back what was kept of a play: sets the budget, powers up, and puts back what ran.
fn put_back<N: Bench, L: Ledger>(player: &mut Player<N>, kept: &Kept, steps: &mut Steps<L>)
    requires start { (m : List (List ℕ)) × (w : Warm) × IsSteadyAt N.Bench player.old (start m)
        × ShowsPlay m kept.now w }
    ensures at { (m : List (List ℕ)) (w : Warm) → IsSteadyAt N.Bench player.old (start m) → ShowsPlay m kept.now w
        → IsSteadyAt N.Bench player.new (AfterPower w) }
    ensures keeps_device { N.same (device_of player.old) (device_of player.new) }
{
    let _set = play_line(player, &Line::Budget(kept.budget), steps);
    power_up(player, steps);
    player.put_live(&kept.live);
}

/// Plays the lines of a deck before one of them, from a place on: those before that place were played, and left the
/// words of the device and what was kept.
pub fn play_front<N: Bench, L: Ledger>(
    device: N,
    kept: &Option<Kept>,
    deck: &Deck,
    from: usize,
    to: usize,
    steps: &mut Steps<L>,
) -> Player<N>
    requires fuses { IsUnfused (N.bench device) }
    requires steady { (N.bench device).steady ≡ true }
    requires kept { IsKeptAt (N.state device).words kept.now (state_on_blank (take from deck.now)) }
    requires order { from ≤ to }
    requires place { to ≤ length deck.now }
    ensures at { IsSteadyAt N.Bench result (state_on_blank (take to deck.now)) }
    ensures keeps_device { N.same device (device_of result) }
{
    let mut player = resume(device, kept, steps);
    for i in from..to {
        let (_number, line) = deck.line(i);
        let _answer = play_line(&mut player, &line, steps);
    }
    player
}

/// Plays the lines of a deck before one of them, from a place on, and returns the device and what is to be kept.
pub fn play_on<N: Bench, L: Ledger>(
    alloc: Global,
    device: N,
    kept: &Option<Kept>,
    deck: &Deck,
    from: usize,
    to: usize,
    steps: &mut Steps<L>,
) -> (N, Option<Kept>)
    requires fuses { IsUnfused (N.bench device) }
    requires steady { (N.bench device).steady ≡ true }
    requires kept { IsKeptAt (N.state device).words kept.now (state_on_blank (take from deck.now)) }
    requires order { from ≤ to }
    requires place { to ≤ length deck.now }
    ensures kept { IfSome result.1 (λ k. IsKeptAt (N.state result.0).words (Some k)
        (state_on_blank (take to deck.now))) }
    ensures keeps_device { N.same device result.0 }
{
    let player = play_front(device, kept, deck, from, to, steps);
    let next = keep(alloc, &player);
    (player.into_dev(), next)
}

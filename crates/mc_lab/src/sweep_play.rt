// The laboratory's device, and the plays on it.
ghost use Rattle.std.specs.Prelude.{◌≡◌, ◌+◌, ◌≤◌, ℕ, List, [], length, map, take, true, IfOk};
ghost use Rattle.law_explore.specs.model_play.specs.Play.{State};
ghost use Rattle.law_explore.specs.model_play.specs.DeckGrammar.{DeckLine};
ghost use Rattle.mc_deck.specs.Lines.{line_of, GoodLine};
ghost use Rattle.mc_script.specs.Players.{device_of, statics_in, IsUnfused};
ghost use Rattle.mc_script.specs.Benches.{IsPlaying};
ghost use Rattle.mc_lab.specs.Sweeps.{state_on_blank};
ghost use Rattle.law_explore.specs.model_device.specs.Bytes.{zeros};
ghost use Rattle.mc_lab.specs.SweepBodies.{account_value, held_value, hit_in, state_at_place, CanCut, AccountFits};
ghost use Rattle.mc_lab.specs.SweepBodies.{IsRecoveryBound, IsPlace};
ghost use Rattle.mc_lab.specs.declared.sweep_trial.TrialLines.TheVariants as trial;
ghost use Rattle.mc_lab.specs.SweepPlayers.{fault_in, most_in};
ghost use Rattle.mc_lab.specs.SweepFronts.{HasPlayed, IsKeptAt};
ghost use Rattle.mc_lab.specs.Benches.{CutOn, IsSteadyAt, LineOn, TrialOn};

use crate::sweep_account::{Account, Held};
use crate::sweep_front::{Kept, play_front, play_on};
use crate::sweep_trial::{Place, Played, TrialLines, Trials};
use arrayvec::ArrayVec;
use lab_branch::BranchNvm;
use mc_blocks::Unusable;
use mc_deck::Line;
use mc_nvm::Bench;
use mc_script::{Answer, Player, Silent, was_cut};
use mc_words::{Aid, NoMemory, Steps, Word};
use std::alloc::Global;
use std::sync::ledger::Ledger;

/// A device in memory whose root is the words after some lines of a deck, what was kept of the play then, and the number
/// of these lines. Lines are played anew on each trial from the last one on after which a card runs and no stop is armed.
#[derive(Drop)]
pub struct Laboratory {
    alloc: Global,
    device: BranchNvm,
    kept: Option<Kept>,
    played: usize,
}

// Why a power line found no card.
fn fault_of(answer: &Option<Answer>) -> Option<Unusable>
    ensures { result ≡ fault_in answer.now }
{
    match answer {
        Some(Answer::Unusable(unusable)) => Some(*unusable),
        _ => None,
    }
}

// A number of device writes that a power line did not exceed, by its result: the exact number if it found a card.
fn most_of(answer: &Option<Answer>) -> u16
    ensures { result ≡ most_in answer.now }
{
    match answer {
        Some(Answer::Ready(made)) => *made,
        _ => u16::MAX,
    }
}

/// Plays a line, and drops the record of its turns.
pub fn play_line<N: Bench, L: Ledger>(
    player: &mut Player<N>,
    line: &Line<'_>,
    steps: &mut Steps<L>,
) -> Option<Answer>
    requires playing { IsPlaying N.Bench player.old }
    requires good { GoodLine (line_of line.now) }
    ensures on { (s : State) (n : ℕ) → IsSteadyAt N.Bench player.old s
        → LineOn N.Bench s (n, line_of line.now) result player.new }
    ensures playing { IsPlaying N.Bench player.new }
    ensures size { length (N.state (device_of player.new)).words ≡ length (N.state (device_of player.old)).words }
    ensures keeps_device { N.same (device_of player.old) (device_of player.new) }
{
    player.line(line, &mut Silent, steps)
}

// Plays a line with its write `k` cut, and returns whether it made that write.
fn play_cut<N: Bench, L: Ledger>(
    player: &mut Player<N>,
    line: &Line<'_>,
    k: u32,
    fill: Word,
    steps: &mut Steps<L>,
) -> bool
    requires playing { IsPlaying N.Bench player.old }
    requires good { GoodLine (line_of line.now) }
    requires low { 1 ≤ k }
    ensures on { (s : State) (i n : ℕ) → IsSteadyAt N.Bench player.old s
        → CutOn N.Bench s (n, line_of line.now) i k fill result player.new }
    ensures playing { IsPlaying N.Bench player.new }
    ensures size { length (N.state (device_of player.new)).words ≡ length (N.state (device_of player.old)).words }
    ensures keeps_device { N.same (device_of player.old) (device_of player.new) }
{
    let _armed = play_line(player, &Line::Cut { k, fill }, steps);
    let answer = play_line(player, line, steps);
    was_cut(&answer)
}

// Plays a line with its write `k` cut, and after it a power line with its write `again` cut, and returns
// whether the power line made that write.
fn play_twice<N: Bench, L: Ledger>(
    player: &mut Player<N>,
    line: &Line<'_>,
    k: u32,
    fill: Word,
    again: u32,
    steps: &mut Steps<L>,
) -> bool
    requires playing { IsPlaying N.Bench player.old }
    requires good { GoodLine (line_of line.now) }
    requires low { 1 ≤ k }
    requires first { 1 ≤ again }
    ensures on { (front : List (ℕ × DeckLine)) (n : ℕ) → IsSteadyAt N.Bench player.old (state_on_blank front)
        → TrialOn N.Bench front (n, line_of line.now) (trial.Twice k fill again) result player.new }
    ensures size { length (N.state (device_of player.new)).words ≡ length (N.state (device_of player.old)).words }
    ensures keeps_device { N.same (device_of player.old) (device_of player.new) }
{
    let _hit = play_cut(player, line, k, fill, steps);
    play_cut(player, &Line::Power, again, fill, steps)
}

// Plays the lines of a trial from its line on, and returns whether the last cut hit its line.
fn play_trial_lines<N: Bench, L: Ledger>(
    player: &mut Player<N>,
    line: &Line<'_>,
    trial: TrialLines,
    steps: &mut Steps<L>,
) -> bool
    requires playing { IsPlaying N.Bench player.old }
    requires good { GoodLine (line_of line.now) }
    requires cuts { CanCut trial }
    ensures on { (front : List (ℕ × DeckLine)) (n : ℕ) → IsSteadyAt N.Bench player.old (state_on_blank front)
        → TrialOn N.Bench front (n, line_of line.now) trial result player.new }
    ensures size { length (N.state (device_of player.new)).words ≡ length (N.state (device_of player.old)).words }
    ensures keeps_device { N.same (device_of player.old) (device_of player.new) }
{
    match trial {
        TrialLines::Nothing => true,
        TrialLines::Whole => {
            let _answer = play_line(player, line, steps);
            true
        }
        TrialLines::Cut { k, fill } => play_cut(player, line, k, fill, steps),
        TrialLines::Twice { k, fill, again } => play_twice(player, line, k, fill, again, steps),
    }
}

// The static bytes under a name, or `None` if it is absent or no card runs.
fn held_now<N: Bench>(player: &Player<N>, name: &Aid) -> Held
    requires { IsPlaying N.Bench player.now }
    ensures { held_value result ≡ statics_in N.state player.now name.now }
{
    let len = player.static_len(name)?;
    let mut bytes = [0; 4096];
    let held = &mut bytes[..len as usize];
    player.static_of(name, 0, held);
    Some(kept(held))
}

// A copy of the bytes.
fn kept(bytes: &[u8]) -> ArrayVec<u8, 4096>
    requires { length bytes.now ≤ 4096 }
    ensures { result.items ≡ bytes.now }
{
    let mut kept = ArrayVec::new();
    kept.try_extend_from_slice(bytes).unwrap();
    kept
}

// Stores the static bytes under each name.
fn take_held<N: Bench>(held: &mut [Held], player: &Player<N>, names: &[Aid])
    requires playing { IsPlaying N.Bench player.now }
    requires room { length held.old ≡ length names.now }
    ensures held { map held_value held.new ≡ map (statics_in N.state player.now) names.now }
{
    for i in 0..names.len() {
        held[i] = held_now(player, &names[i]);
    }
}

// Stores the observed state of a player after a power line, by the result of that line.
fn take_down<N: Bench>(
    into: &mut Account,
    player: &Player<N>,
    answer: &Option<Answer>,
    names: &[Aid],
)
    requires playing { IsPlaying N.Bench player.now }
    requires room { length into.old.held.items ≡ length names.now }
    ensures fault { into.new.fault ≡ fault_in answer.now }
    ensures held { map held_value into.new.held.items ≡ map (statics_in N.state player.now) names.now }
{
    into.fault = fault_of(answer);
    take_held(into.held.as_mut_slice(), player, names);
}

// One trial on a device with the words of the lines that were played: the lines before a line that were not played yet,
// the lines of the trial from there on, and a power line without a cut.
fn play_trial<N: Bench, L: Ledger>(
    device: N,
    kept: &Option<Kept>,
    from: usize,
    place: &Place<'_>,
    trial: TrialLines,
    into: &mut Account,
    steps: &mut Steps<L>,
) -> (N, Played)
    requires fuses { IsUnfused (N.bench device) }
    requires steady { (N.bench device).steady ≡ true }
    requires kept { IsKeptAt (N.state device).words kept.now (state_on_blank (take from place.now.deck.now)) }
    requires from { from ≤ place.now.at }
    requires at { IsPlace place.now }
    requires room { AccountFits into.old place.now }
    requires cuts { CanCut trial }
    ensures reported { account_value into.new ≡ state_at_place place.now trial }
    ensures hit { result.1.hit ≡ hit_in place.now trial }
    ensures few { IsRecoveryBound place.now trial result.1.most }
    ensures room { AccountFits into.new place.now }
    ensures keeps_device { N.same device result.0 }
{
    let mut player = play_front(device, kept, place.deck, from, place.at, steps);
    let (_number, line) = place.deck.line(place.at);
    let hit = play_trial_lines(&mut player, &line, trial, steps);
    let answer = play_line(&mut player, &Line::Power, steps);
    take_down(into, &player, &answer, place.names);
    let most = most_of(&answer);
    (player.into_dev(), Played { hit, most })
}

// Plays the lines before a line that were not played yet, and then the line with its write `k` cut. Returns whether it
// made that write.
fn play_reach<N: Bench, L: Ledger>(
    device: N,
    kept: &Option<Kept>,
    from: usize,
    place: &Place<'_>,
    k: u32,
    steps: &mut Steps<L>,
) -> (N, bool)
    requires fuses { IsUnfused (N.bench device) }
    requires steady { (N.bench device).steady ≡ true }
    requires kept { IsKeptAt (N.state device).words kept.now (state_on_blank (take from place.now.deck.now)) }
    requires from { from ≤ place.now.at }
    requires at { IsPlace place.now }
    requires low { 1 ≤ k }
    ensures hit { result.1 ≡ hit_in place.now (trial.Cut k (zeros 8)) }
    ensures keeps_device { N.same device result.0 }
{
    let mut player = play_front(device, kept, place.deck, from, place.at, steps);
    let (_number, line) = place.deck.line(place.at);
    let hit = play_cut(&mut player, &line, k, [0; 8], steps);
    (player.into_dev(), hit)
}

impl Laboratory {
    /// Returns a laboratory with room for its device, of which no line was played.
    ///
    /// # Errors
    ///
    /// Returns `NoMemory` if it is out of memory.
    pub fn new(alloc: Global) -> Result<Laboratory, NoMemory>
        ensures { IfOk result (λ l. HasPlayed l []) }
    {
        let device = BranchNvm::new(alloc)?;
        Ok(Laboratory {
            alloc,
            device,
            kept: None,
            played: 0,
        })
    }
}

impl Trials for Laboratory {
    ghost has_played = { HasPlayed };

    fn report<L: Ledger>(
        &mut self,
        place: &Place<'_>,
        trial: TrialLines,
        into: &mut Account,
        steps: &mut Steps<L>,
    ) -> Played {
        self.device.return_to_root();
        let (_device, played) = play_trial(
            &mut self.device,
            &self.kept,
            self.played,
            place,
            trial,
            into,
            steps,
        );
        played
    }

    fn reaches<L: Ledger>(&mut self, place: &Place<'_>, k: u32, steps: &mut Steps<L>) -> bool {
        self.device.return_to_root();
        let (_device, hit) = play_reach(&mut self.device, &self.kept, self.played, place, k, steps);
        hit
    }

    fn advance<L: Ledger>(&mut self, place: &Place<'_>, steps: &mut Steps<L>) {
        // bounds the number of lines, so that the next one has a number
        let _count = place.deck.len();
        self.device.return_to_root();
        let (_device, kept) = play_on(
            self.alloc,
            &mut self.device,
            &self.kept,
            place.deck,
            self.played,
            place.at + 1,
            steps,
        );
        match kept {
            None => {}
            Some(kept) => {
                self.device.take_root();
                self.kept = Some(kept);
                self.played = place.at + 1;
            }
        }
    }
}

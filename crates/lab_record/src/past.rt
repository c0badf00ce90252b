// What happened to an application while the lines of its deck were played.
ghost use Rattle.std.specs.Prelude.{◌≡◌, ◌<◌, ◌≤◌, ℕ, length, option_map, slice_get, take, None, OnOk, Some};
ghost use Rattle.law_events.specs.law_promise.specs.model_play.specs.DeckGrammar.{DeckLine};
ghost use Rattle.law_events.specs.law_promise.specs.model_play.specs.Play.{State};
ghost use Rattle.mc_script.specs.Benches.{IsPlaying};
ghost use Rattle.lab_record.specs.Benches.{IsSteadyAt};
ghost use Rattle.lab_record.specs.Steady.{armed_in, steady_step};

use crate::playing::{play_before, play_line};
use crate::recording::{Played, play_recorded};
use crate::subject::Subject;
use lab_branch::push;
use lab_history::{Break, Course, Extent, Standing, apply, broken_always, is_durable};
use mc_deck::{Deck, Line};
use mc_nvm::{Bench, DEVICE_WORDS, SimNvm};
use mc_script::Player;
use mc_words::{NoMemory, Steps};
use std::alloc::Global;
use std::sync::ledger::Ledger;

/// The word that opens the journal of layout 2.
const OPENING: [u8; 8] = *b"OPEN-2--";

/// The most device writes of one atomic write.
const MOST_WRITES: u32 = 147;

/// What is counted after some lines of a deck, and whether the application is on the card.
#[derive(Drop)]
struct Past<'a> {
    subject: Subject<'a>,
    standing: Standing,
    is_there: bool,
}

/// A stop that is armed for a line: the number of the device write, and whether it leaves the word that commits a
/// write.
#[derive(Clone, Copy)]
struct ArmedStop {
    write: u32,
    opens: bool,
}

// The stop that is armed for the line with a number: that of the nearest line before it that arms one.
fn armed_for(deck: &Deck, i: usize) -> Option<ArmedStop>
    requires { i ≤ length deck.now }
    ensures { option_map (λ a. a.write) result ≡ armed_in None (take i deck.now) }
{
    let mut armed = None;
    let count = deck.len();
    for j in 0..i.min(count) {
        match deck.line(j).1 {
            Line::Cut { k, fill } => {
                armed = Some(ArmedStop {
                    write: k,
                    opens: fill == OPENING,
                });
            }
            Line::Fail(k) => {
                armed = Some(ArmedStop {
                    write: k,
                    opens: false,
                });
            }
            _ => {}
        }
    }
    armed
}

// Plays the lines of a deck before one, and that one with its device write `k` cut.
fn replay_on<N: Bench, L: Ledger>(
    alloc: Global,
    player: &mut Player<N>,
    deck: &Deck,
    i: usize,
    k: u32,
    subject: Subject<'_>,
    steps: &mut Steps<L>,
) -> Result<Played, NoMemory>
    requires playing { IsPlaying N.Bench player.old }
    requires cut { 1 ≤ k }
    requires there { i < length deck.now }
{
    play_before(player, deck, i, steps);
    play_line(player, &Line::Cut { k, fill: [0; 8] }, steps);
    play_recorded(alloc, player, &deck.line(i).1, subject, steps)
}

// Plays the lines of a deck before one, and that one with its device write `k` cut, on a device of its own.
fn replay<L: Ledger>(
    alloc: Global,
    deck: &Deck,
    i: usize,
    k: u32,
    subject: Subject<'_>,
    steps: &mut Steps<L>,
) -> Result<Played, NoMemory>
    requires cut { 1 ≤ k }
    requires there { i < length deck.now }
{
    let mut player = Player::new(SimNvm::new(alloc, DEVICE_WORDS)?);
    replay_on(alloc, &mut player, deck, i, k, subject, steps)
}

// For each device write of a line, up to those of the instruction that a stop at write `k` hits, the number of turns
// before it.
fn turns_before<L: Ledger>(
    alloc: Global,
    deck: &Deck,
    i: usize,
    k: u32,
    subject: Subject<'_>,
    steps: &mut Steps<L>,
) -> Result<Vec<u64>, NoMemory>
    requires { i < length deck.now }
{
    let mut turns = Vec::new(alloc);
    for write in 0..k.saturating_add(MOST_WRITES) {
        let played = replay(alloc, deck, i, write + 1, subject, steps)?;
        if !played.is_stopped {
            return Ok(turns);
        }
        push(&mut turns, played.turns)?;
    }
    Ok(turns)
}

// What happens while the line with a number is played whole, and how far it came, by what was played of it.
fn stopped<L: Ledger>(
    alloc: Global,
    deck: &Deck,
    i: usize,
    played: &Played,
    subject: Subject<'_>,
    steps: &mut Steps<L>,
) -> Result<(Course, Extent), NoMemory>
    requires { i < length deck.now }
{
    let whole = replay(alloc, deck, i, u32::MAX, subject, steps)?;
    let durable = match armed_for(deck, i) {
        Some(stop) => {
            let turns = turns_before(alloc, deck, i, stop.write, subject, steps)?;
            is_durable(
                turns.as_slice(),
                stop.write.saturating_sub(1) as usize,
                stop.opens,
            )
        }
        None => false,
    };
    Ok((
        whole.course,
        Extent::Stopped {
            turns: played.turns,
            durable,
        },
    ))
}

// The static bytes of the application on the card of a player, or `None` if it is not there.
fn statics_of<N: Bench>(
    alloc: Global,
    player: &Player<N>,
    subject: Subject<'_>,
) -> Result<Option<Vec<u8>>, NoMemory>
    requires { IsPlaying N.Bench player.now }
{
    let Some(count) = player.static_len(subject.aid) else {
        return Ok(None);
    };
    let mut fixed = vec![in alloc; 0; count as usize]?;
    player.static_of(subject.aid, 0, fixed.as_mut_slice());
    Ok(Some(fixed))
}

impl<'a> Past<'a> {
    // Counts what happened while a line was played, if the application is there.
    fn count(&mut self, course: &Course, extent: Extent) -> Option<Break> {
        if !self.is_there {
            return None;
        }
        apply(
            self.subject.rules,
            &mut self.standing,
            &mut [],
            course,
            extent,
        )
    }

    // Looks at the static bytes of a card that runs: an application that comes, or goes, begins anew.
    fn look(&mut self, alloc: Global, fixed: Option<Vec<u8>>) -> Result<Option<Break>, NoMemory> {
        let Some(fixed) = fixed else {
            self.is_there = false;
            self.standing = Standing::first(alloc, self.subject.rules)?;
            return Ok(None);
        };
        self.is_there = true;
        Ok(broken_always(self.subject.rules, &self.standing, fixed.as_slice()))
    }

    // Counts a line that was played, and looks at what it left.
    fn add<N: Bench>(
        &mut self,
        alloc: Global,
        player: &Player<N>,
        course: &Course,
        extent: Extent,
    ) -> Result<Option<Break>, NoMemory>
        requires { IsPlaying N.Bench player.now }
    {
        let broken = self.count(course, extent);
        if broken.is_some() || player.card().is_none() {
            return Ok(broken);
        }
        let fixed = statics_of(alloc, player, self.subject)?;
        self.look(alloc, fixed)
    }

    // Plays the line of a deck with a number, and counts it.
    fn play<N: Bench, L: Ledger>(
        &mut self,
        alloc: Global,
        player: &mut Player<N>,
        deck: &Deck,
        i: usize,
        steps: &mut Steps<L>,
    ) -> Result<Option<Break>, NoMemory>
        requires playing { IsPlaying N.Bench player.old }
        requires there { i < length deck.now }
        ensures playing { IsPlaying N.Bench player.new }
        ensures at { OnOk result ((s : State) (l : ℕ × DeckLine) → IsSteadyAt N.Bench player.old s
            → slice_get deck.now i ≡ Some l → IsSteadyAt N.Bench player.new (steady_step s l).after) }
    {
        let played = play_recorded(alloc, player, &deck.line(i).1, self.subject, steps)?;
        if played.is_stopped && played.has_begun {
            let (course, extent) = stopped(alloc, deck, i, &played, self.subject, steps)?;
            return self.add(alloc, player, &course, extent);
        }
        let extent = if played.is_stopped {
            Extent::Stopped {
                turns: 0,
                durable: false,
            }
        } else {
            Extent::Whole
        };
        self.add(alloc, player, &played.course, extent)
    }

    // Powers up a card that does not run, as an exploration begins.
    fn power<N: Bench, L: Ledger>(
        &mut self,
        alloc: Global,
        player: &mut Player<N>,
        steps: &mut Steps<L>,
    ) -> Result<Option<Break>, NoMemory>
        requires { IsPlaying N.Bench player.old }
    {
        drop_stop(player, steps);
        if player.card().is_some() {
            return Ok(None);
        }
        let played = play_recorded(alloc, player, &Line::Power, self.subject, steps)?;
        self.add(alloc, player, &played.course, Extent::Whole)
    }
}

// Drops a stop that is armed for the next card line.
fn drop_stop<N: Bench, L: Ledger>(player: &mut Player<N>, steps: &mut Steps<L>)
    requires { IsPlaying N.Bench player.old }
    ensures { IsPlaying N.Bench player.new }
{
    if !player.is_armed() {
        return;
    }
    play_line(player, &Line::Apdu(&[0]), steps);
}

// Plays a deck, and returns the amounts of the allowances after it, or the first rule that is broken.
fn chronicle_on<N: Bench, L: Ledger>(
    alloc: Global,
    player: &mut Player<N>,
    deck: &Deck,
    subject: Subject<'_>,
    steps: &mut Steps<L>,
) -> Result<Result<Vec<u32>, Break>, NoMemory>
    requires { IsPlaying N.Bench player.old }
{
    let mut past = Past {
        subject,
        standing: Standing::first(alloc, subject.rules)?,
        is_there: false,
    };
    for i in 0..deck.len() {
        if let Some(broken) = past.play(alloc, player, deck, i, steps)? {
            return Ok(Err(broken));
        }
    }
    if let Some(broken) = past.power(alloc, player, steps)? {
        return Ok(Err(broken));
    }
    Ok(Ok(past.standing.amounts))
}

/// Plays a deck, and returns the amounts of the allowances after it, or the first rule that is broken.
///
/// # Errors
///
/// Returns `NoMemory` if it is out of memory.
pub fn chronicle<L: Ledger>(
    alloc: Global,
    deck: &Deck,
    subject: Subject<'_>,
    steps: &mut Steps<L>,
) -> Result<Result<Vec<u32>, Break>, NoMemory> {
    let mut player = Player::new(SimNvm::new(alloc, DEVICE_WORDS)?);
    chronicle_on(alloc, &mut player, deck, subject, steps)
}

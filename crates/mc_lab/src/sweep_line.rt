// One line of a sweep: each of its writes is cut, and each write of the recovery after it.
ghost use Rattle.std.specs.Prelude.{◌≡◌, ◌+◌, ◌≤◌, ◌<◌, ◌*◌, length, map, take, IfNone, IfOk, IfSome, MatchOption};
ghost use Rattle.mc_lab.specs.Sweeps.{all_same, count_from, plays_of};
ghost use Rattle.mc_lab.specs.SweepBodies.{account_value, again_in, front_of, lines_through, recovery_states_at, state_at_place};
ghost use Rattle.mc_lab.specs.SweepBodies.{cut_write_at, word_with};
ghost use Rattle.mc_lab.specs.SweepBodies.{writes_in, AccountFits, AccountsHaveRoom, IsUnarmedLine, IsPlace};
ghost use Rattle.mc_lab.specs.SweepBodies.{OpensNoGate};
ghost use Rattle.mc_lab.specs.declared.sweep_trial.TrialLines.TheVariants as trial;

use crate::sweep_account::Account;
use crate::sweep_trial::{Place, TrialLines, Trials};
use crate::sweep_word::SweepWord;
use crate::truth::both;
use mc_words::{NoMemory, Steps};
use std::alloc::Global;
use std::sync::ledger::Ledger;

/// The words that a cut leaves.
const ZEROS: [u8; 8] = [0; 8];

const ONES: [u8; 8] = [0xFF; 8];

/// The observed states before a line and after it.
#[derive(Drop)]
pub struct Ends {
    before: Account,
    after: Account,
}

/// The observed states of the first play of a write and of the last one.
#[derive(Drop)]
pub struct Pair {
    first: Account,
    now: Account,
}

/// A laboratory, and room for the states that it observes.
#[derive(Drop)]
pub struct LineSweeper<D: Trials + Drop> {
    trials: D,
    ends: Ends,
    pair: Pair,
}

/// A write that was cut: its word, and the number of plays that determine it.
#[derive(Clone, Copy, Debug)]
pub struct Tried {
    pub word: SweepWord,
    pub plays: u32,
}

/// A line whose writes were cut: the number of writes, and the number of plays that determine their words.
#[derive(Clone, Copy, Debug)]
pub struct Swept {
    pub writes: usize,
    pub plays: u64,
}

// The word of a write, by whether all its states are equal, and equal to the state before and to the state
// after.
fn word_of(is_one: bool, is_before: bool, is_after: bool) -> SweepWord
    ensures { result ≡ word_with is_one is_before is_after }
{
    match (is_one, is_before, is_after) {
        (false, _, _) => SweepWord::Torn,
        (true, true, false) => SweepWord::Before,
        (true, false, true) => SweepWord::After,
        (true, true, true) => SweepWord::Same,
        (true, false, false) => SweepWord::Between,
    }
}

// Cuts each write of the recovery after a cut, of which there are at most `most`: whether the first state is always
// left, and the number of those writes.
fn recoveries<D: Trials, L: Ledger>(
    trials: &mut D,
    place: &Place<'_>,
    k: u32,
    fill: [u8; 8],
    most: u16,
    pair: &mut Pair,
    steps: &mut Steps<L>,
) -> (bool, u16)
    requires at { IsPlace place.now }
    requires played { D.has_played trials.old (front_of place.now) }
    requires open { IsUnarmedLine place.now }
    requires low { 1 ≤ k }
    requires high { k ≤ writes_in place.now }
    requires shuts { OpensNoGate fill }
    requires few { again_in place.now k fill ≤ most }
    requires room { AccountFits pair.old.now place.now }
    ensures same { result.0 ≡ all_same (account_value pair.old.first) (recovery_states_at place.now k fill) }
    ensures count { result.1 ≡ length (recovery_states_at place.now k fill) }
    ensures first { pair.new.first ≡ pair.old.first }
    ensures room { AccountFits pair.new.now place.now }
    ensures played { D.has_played trials.new (front_of place.now) }
{
    let mut same = true;
    for made in 0..most {
        let again = made as u32 + 1;
        let trial = TrialLines::Twice { k, fill, again };
        let played = trials.report(place, trial, &mut pair.now, steps);
        if !played.hit {
            return (same, made);
        }
        same = both(pair.now.is_same(&pair.first), same);
    }
    (same, most)
}

// Cuts write `k` of a line with both fills, and each write of the recovery after it, if the line makes at
// least `k` writes.
fn try_write<D: Trials, L: Ledger>(
    trials: &mut D,
    place: &Place<'_>,
    k: u32,
    ends: &Ends,
    pair: &mut Pair,
    steps: &mut Steps<L>,
) -> Option<Tried>
    requires at { IsPlace place.now }
    requires played { D.has_played trials.old (front_of place.now) }
    requires open { IsUnarmedLine place.now }
    requires low { 1 ≤ k }
    requires before { account_value ends.now.before ≡ state_at_place place.now trial.Nothing }
    requires after { account_value ends.now.after ≡ state_at_place place.now trial.Whole }
    requires first { AccountFits pair.old.first place.now }
    requires now { AccountFits pair.old.now place.now }
    ensures tried { MatchOption result (writes_in place.now < k)
        (λ t. (k ≤ writes_in place.now) × (t.word ≡ (cut_write_at place.now k).word)
        × (t.plays ≡ (cut_write_at place.now k).plays)) }
    ensures few_plays { IfSome result (λ t. t.plays ≤ 131072) }
    ensures first { AccountFits pair.new.first place.now }
    ensures now { AccountFits pair.new.now place.now }
    ensures played { D.has_played trials.new (front_of place.now) }
{
    let trial = TrialLines::Cut { k, fill: ZEROS };
    let first = trials.report(place, trial, &mut pair.first, steps);
    if !first.hit {
        return None;
    }
    let (zeros_same, zeros) = recoveries(trials, place, k, ZEROS, first.most, pair, steps);
    let second = trials.report(
        place,
        TrialLines::Cut { k, fill: ONES },
        &mut pair.now,
        steps,
    );
    let ones_first = pair.now.is_same(&pair.first);
    let (ones_same, ones) = recoveries(trials, place, k, ONES, second.most, pair, steps);
    let is_one = both(zeros_same, both(ones_first, ones_same));
    Some(Tried {
        word: word_of(
            is_one,
            pair.first.is_same(&ends.before),
            pair.first.is_same(&ends.after),
        ),
        plays: 2 + zeros as u32 + ones as u32,
    })
}

// A number of writes that is greater than `bound`, twice as large and one more if that is not too large, or `None` if
// there is none that a cut may follow.
fn doubled(bound: u32) -> Option<u32>
    ensures grows { IfSome result (λ n. bound < n) }
    ensures small { IfSome result (λ n. n < 4294967295) }
    ensures twice { IfSome result (λ n. n < 4294967294 → n ≡ 2 * bound + 1) }
    ensures some { IfSome result (λ _n. bound < 4294967294) }
    ensures none { IfNone result (4294967294 ≤ bound) }
{
    if bound >= 4_294_967_294 {
        return None;
    }
    if bound >= 2_147_483_647 {
        return Some(4_294_967_294);
    }
    Some(2 * bound + 1)
}

impl<D: Trials + Drop> LineSweeper<D> {
    /// Returns a sweeper with room for this number of names.
    ///
    /// # Errors
    ///
    /// Returns `NoMemory` if it is out of memory.
    pub fn new(alloc: Global, trials: D, names: usize) -> Result<LineSweeper<D>, NoMemory>
        ensures room { IfOk result (λ sweeper. AccountsHaveRoom sweeper.ends sweeper.pair names) }
        ensures trials { IfOk result (λ sweeper. sweeper.trials ≡ trials) }
    {
        Ok(LineSweeper {
            trials,
            ends: Ends {
                before: Account::new(alloc, names)?,
                after: Account::new(alloc, names)?,
            },
            pair: Pair {
                first: Account::new(alloc, names)?,
                now: Account::new(alloc, names)?,
            },
        })
    }

    /// Returns a number from `most` on that the device writes of a line do not exceed, or `None` if they are
    /// 4,294,967,295 or more.
    ///
    /// It plays the line once, and once more each time that the number is doubled.
    pub fn bound<L: Ledger>(
        &mut self,
        place: &Place<'_>,
        most: u32,
        steps: &mut Steps<L>,
    ) -> Option<u32>
        requires at { IsPlace place.now }
        requires played { D.has_played self.old.trials (front_of place.now) }
        requires open { IsUnarmedLine place.now }
        requires small { most < 4294967295 }
        requires room { AccountsHaveRoom self.old.ends self.old.pair (length place.now.names.now) }
        ensures writes { IfSome result (λ n. writes_in place.now ≤ n) }
        ensures many { IfNone result (4294967295 ≤ writes_in place.now) }
        ensures grows { IfSome result (λ n. most ≤ n) }
        ensures small { IfSome result (λ n. n < 4294967295) }
        ensures room { AccountsHaveRoom self.new.ends self.new.pair (length place.now.names.now) }
        ensures played { D.has_played self.new.trials (front_of place.now) }
    {
        let mut bound = most;
        loop {
            if !self.trials.reaches(place, bound + 1, steps) {
                return Some(bound);
            }
            bound = doubled(bound)?;
        }
    }

    /// Plays a line after the lines before it, which were played.
    pub fn advance<L: Ledger>(&mut self, place: &Place<'_>, steps: &mut Steps<L>)
        requires at { IsPlace place.now }
        requires played { D.has_played self.old.trials (front_of place.now) }
        requires room { AccountsHaveRoom self.old.ends self.old.pair (length place.now.names.now) }
        ensures played { D.has_played self.new.trials (lines_through place.now) }
        ensures room { AccountsHaveRoom self.new.ends self.new.pair (length place.now.names.now) }
    {
        self.trials.advance(place, steps);
    }

    /// Cuts each write of a line, which makes at most as many writes as there is room for in `words`.
    pub fn sweep_line<L: Ledger>(
        &mut self,
        place: &Place<'_>,
        words: &mut [SweepWord],
        steps: &mut Steps<L>,
    ) -> Swept
        requires at { IsPlace place.now }
        requires played { D.has_played self.old.trials (front_of place.now) }
        requires open { IsUnarmedLine place.now }
        requires room { AccountsHaveRoom self.old.ends self.old.pair (length place.now.names.now) }
        requires words { writes_in place.now ≤ length words.old }
        requires most { length words.old ≤ 4294967295 }
        ensures writes { result.writes ≡ writes_in place.now }
        ensures words { take result.writes words.new
            ≡ map (λ t. t.word) (map (cut_write_at place.now) (count_from 1 (writes_in place.now))) }
        ensures plays { result.plays ≡ plays_of (map (cut_write_at place.now) (count_from 1 (writes_in place.now))) }
        ensures few_plays { result.plays ≤ 131072 * result.writes }
        ensures size { length words.new ≡ length words.old }
        ensures room { AccountsHaveRoom self.new.ends self.new.pair (length place.now.names.now) }
        ensures played { D.has_played self.new.trials (front_of place.now) }
    {
        if !self.trials.reaches(place, 1, steps) {
            return Swept {
                writes: 0,
                plays: 0,
            };
        }
        let _played = self
            .trials
            .report(place, TrialLines::Nothing, &mut self.ends.before, steps);
        let _played = self
            .trials
            .report(place, TrialLines::Whole, &mut self.ends.after, steps);
        let mut plays = 0;
        for writes in 0..words.len() {
            let k = writes as u32 + 1;
            match try_write(
                &mut self.trials,
                place,
                k,
                &self.ends,
                &mut self.pair,
                steps,
            ) {
                None => return Swept { writes, plays },
                Some(tried) => {
                    words[writes] = tried.word;
                    plays += tried.plays as u64;
                }
            }
        }
        Swept {
            writes: words.len(),
            plays,
        }
    }
}

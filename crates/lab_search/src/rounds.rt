// What was found so far, and the tries of a depth.
ghost use Rattle.std.specs.Prelude.{◌≡◌, ◌+◌, ◌<◌, ◌≤◌, ◌^◌, ℕ, true, List, [], ◌∷◌, drop, false, length, replicate, slice_get, IfOk};
ghost use Rattle.law_explore_text.specs.model_play.specs.Family.{is_running};
ghost use Rattle.law_explore_text.specs.law_explore.specs.Rules as rule;
ghost use Rattle.law_explore_text.specs.law_explore.specs.States as model;
ghost use Rattle.law_explore_text.specs.law_explore.specs.States.{is_known, play_of};
ghost use Rattle.law_explore_text.specs.law_explore.specs.Tries.{cuts_from, tries_of, tries_with, writes_of, Try};
ghost use Rattle.law_explore_text.specs.law_explore.specs.Search.{round_of_states, with_reached, Node};
ghost use Rattle.lab_search.specs.Kept.{names_in, Kept};
ghost use Rattle.lab_search.specs.Rounds.{cuts_at, known_in, round_in, tally_of, tries_from, tries_in, try_value};
ghost use Rattle.lab_search.specs.Trying.{CanCut, IsMade, IsMissed};
ghost use Rattle.lab_search.specs.Rounds.{CanCutMove, CanStep, CanTryMove, CanTryMoves, CanTryStates};
ghost use Rattle.lab_search.specs.Rounds.{AreCandidates, Attempts, Comes, Depth, Holds, IsFrom, IsTry, TriesMove};

use crate::journey::{Fill, Manner, Step, next_write};
use crate::making::Candidate;
use crate::tally::Tally;
use crate::trying::{Laboratory, Tried};
use indexmap::IndexSet;
use lab_branch::push;
use lab_key::{CardState, Rosters};
use lab_rules::Exploration;
use mc_words::{NoMemory, Steps};
use std::alloc::Global;
use std::sync::ledger::Ledger;

/// What ends a search before the depths that are left: a rule that is broken, by the place of its allowance, with
/// the last step to it; or one state too many.
#[derive(Clone, Copy)]
pub enum Halt {
    Broken(usize, Step),
    Full,
}

/// What a try came to: its cut hit no write, the search goes on, or it ends.
#[derive(Clone, Copy)]
pub enum Attempt {
    NotHit,
    GoesOn,
    Halts(Halt),
}

/// A search: the most states, the laboratory and the rosters with which states are kept, the states in the order
/// in which they were found, the last step to each but the first, and what the tries came to.
#[derive(Drop)]
pub struct Search {
    pub limit: usize,
    pub laboratory: Laboratory,
    pub rosters: Rosters,
    pub states: IndexSet<CardState>,
    pub last_steps: Vec<Step>,
    pub tally: Tally,
}

impl Search {
    /// Returns a search that holds a first state, for a number of `on` lines.
    ///
    /// # Errors
    ///
    /// Returns `NoMemory` if it is out of memory.
    pub fn new(
        alloc: Global,
        limit: usize,
        laboratory: Laboratory,
        rosters: Rosters,
        first: CardState,
        ons: usize,
    ) -> Result<Search, NoMemory>
        ensures holds { IfOk result (λ s. (r : rule.Rules) (c : model.CardState)
            → Kept laboratory rosters (names_in r) first c → length laboratory.counts.items ≡ length r.ons
            → Holds (record { rules = r; most = limit; from = 0 }) s (record { state = c; path = [] } ∷ [])) }
        ensures none { IfOk result (λ s. tally_of s ≡ record { tries = 0; heard = replicate ons false }) }
    {
        let mut states = IndexSet::new(alloc);
        if states.insert_full(first).is_err() {
            return Err(NoMemory);
        }
        Ok(Search {
            limit,
            laboratory,
            rosters,
            states,
            last_steps: Vec::new(alloc),
            tally: Tally::new(alloc, ons)?,
        })
    }

    /// Keeps a state that was reached by a step, if it is new. Returns `Full` if there are too many.
    ///
    /// # Errors
    ///
    /// Returns `NoMemory` if it is out of memory.
    pub fn keep(&mut self, state: CardState, step: Step) -> Result<Option<Halt>, NoMemory>
        ensures laboratory { self.new.laboratory ≡ self.old.laboratory }
        ensures rosters { self.new.rosters ≡ self.old.rosters }
        ensures comes { IfOk result (λ h. (d : Depth) (ns : List Node) (n : Node) (t : Try) (c : model.CardState)
            → IsFrom d self.old ns n step.before → IsTry d.rules.moves step t
            → Kept self.old.laboratory self.old.rosters (names_in d.rules) state c
            → Comes d ns (with_reached (is_known c (known_in ns)) d.most (record { state = c; path = t ∷ n.path })
            (round_in d (tally_of self.old) ns)) h self.new) }
    {
        if self.states.contains(&state) {
            return Ok(None);
        }
        if self.states.len() >= self.limit {
            return Ok(Some(Halt::Full));
        }
        push(&mut self.last_steps, step)?;
        if self.states.insert_full(state).is_err() {
            return Err(NoMemory);
        }
        Ok(None)
    }

    // Makes a try.
    fn attempt<L: Ledger>(
        &mut self,
        alloc: Global,
        candidate: &Candidate<'_>,
        step: Step,
        steps: &mut Steps<L>,
    ) -> Result<Attempt, NoMemory>
        requires { CanStep self.old candidate.now step }
        ensures { IfOk result (λ a. (d : Depth) (ns : List Node) (n : Node) (m : rule.Move)
            → TriesMove d self.old ns n m candidate.now step.before step.chosen → CanCut n.state step.manner
            → Attempts (IsMissed n.state m step.manner) (IsMade n.state m step.manner) d ns (round_in d (tally_of self.old) ns)
            (tries_from d n (try_value m step.manner ∷ []) (round_in d (tally_of self.old) ns)) a self.new) }
    {
        let Some(state) = self.states.get_index(step.before) else {
            unreachable!()
        };
        let tried = self.laboratory.attempt(
            alloc,
            &mut self.rosters,
            state,
            candidate,
            step.manner,
            steps,
        )?;
        match tried {
            Tried::NotHit => Ok(Attempt::NotHit),
            Tried::Broken(allowance) => {
                self.tally.count(&self.laboratory.counts)?;
                Ok(Attempt::Halts(Halt::Broken(allowance, step)))
            }
            Tried::Reached(state) => {
                self.tally.count(&self.laboratory.counts)?;
                match self.keep(state, step)? {
                    None => Ok(Attempt::GoesOn),
                    Some(halt) => Ok(Attempt::Halts(halt)),
                }
            }
        }
    }

    // Cuts a move at the write after the first `made` ones, with a fill.
    fn cut_with<L: Ledger>(
        &mut self,
        alloc: Global,
        candidate: &Candidate<'_>,
        before: usize,
        chosen: usize,
        made: u32,
        fill: Fill,
        steps: &mut Steps<L>,
    ) -> Result<Attempt, NoMemory>
        requires can { CanCutMove self.old candidate.now before chosen }
        requires counted { made + 1 < 2 ^ 32 }
        ensures { IfOk result (λ a. (d : Depth) (ns : List Node) (n : Node) (m : rule.Move)
            → TriesMove d self.old ns n m candidate.now before chosen → is_running n.state.live ≡ true
            → Attempts (writes_of (play_of n.state) m ≤ made) (made < writes_of (play_of n.state) m) d ns
            (round_in d (tally_of self.old) ns)
            (tries_from d n (try_value m (Manner.Cut made fill) ∷ []) (round_in d (tally_of self.old) ns)) a self.new) }
    {
        let manner = Manner::Cut { made, fill };
        let step = Step {
            before,
            chosen,
            manner,
        };
        self.attempt(alloc, candidate, step, steps)
    }

    // Cuts a move at the write after the first `made` ones, with each fill.
    fn cut_at<L: Ledger>(
        &mut self,
        alloc: Global,
        candidate: &Candidate<'_>,
        before: usize,
        chosen: usize,
        made: u32,
        steps: &mut Steps<L>,
    ) -> Result<Attempt, NoMemory>
        requires can { CanCutMove self.old candidate.now before chosen }
        requires counted { made + 1 < 2 ^ 32 }
        ensures { IfOk result (λ a. (d : Depth) (ns : List Node) (n : Node) (m : rule.Move)
            → TriesMove d self.old ns n m candidate.now before chosen → is_running n.state.live ≡ true
            → Attempts (writes_of (play_of n.state) m ≤ made) (made < writes_of (play_of n.state) m) d ns
            (round_in d (tally_of self.old) ns) (tries_from d n (cuts_at m (made + 1)) (round_in d (tally_of self.old) ns))
            a self.new) }
    {
        match self.cut_with(alloc, candidate, before, chosen, made, Fill::Zeros, steps)? {
            Attempt::GoesOn => {}
            end => return Ok(end),
        }
        match self.cut_with(alloc, candidate, before, chosen, made, Fill::Ones, steps)? {
            Attempt::GoesOn => {}
            end => return Ok(end),
        }
        self.cut_with(alloc, candidate, before, chosen, made, Fill::Opening, steps)
    }

    // Cuts a move at each of its writes. Returns what ends the search, or `NoMemory` if the move makes
    // 4,294,967,295 writes or more, which no cut can count.
    fn cut_all<L: Ledger>(
        &mut self,
        alloc: Global,
        candidate: &Candidate<'_>,
        before: usize,
        chosen: usize,
        steps: &mut Steps<L>,
    ) -> Result<Option<Halt>, NoMemory>
        requires { CanCutMove self.old candidate.now before chosen }
        ensures { IfOk result (λ h. (d : Depth) (ns : List Node) (n : Node) (m : rule.Move)
            → TriesMove d self.old ns n m candidate.now before chosen → is_running n.state.live ≡ true
            → Comes d ns (tries_from d n (tries_in m (cuts_from 1 (writes_of (play_of n.state) m)))
            (round_in d (tally_of self.old) ns)) h self.new) }
    {
        let mut made = 0;
        'writes: loop {
            match self.cut_at(alloc, candidate, before, chosen, made, steps)? {
                Attempt::NotHit => return Ok(None),
                Attempt::GoesOn => {}
                Attempt::Halts(halt) => return Ok(Some(halt)),
            }
            made = next_write(made)?;
        }
    }

    /// Returns whether a card runs in the state with a number.
    pub fn runs(&self, state: usize) -> bool
        ensures { (d : Depth) (ns : List Node) (n : Node) → IsFrom d self.now ns n state
            → result ≡ is_running n.state.live }
    {
        match self.states.get_index(state) {
            Some(state) => state.runs,
            None => false,
        }
    }

    // Tries a move from a state: whole, and if a card runs cut at each of its writes.
    fn try_move<L: Ledger>(
        &mut self,
        alloc: Global,
        candidate: &Candidate<'_>,
        before: usize,
        chosen: usize,
        steps: &mut Steps<L>,
    ) -> Result<Option<Halt>, NoMemory>
        requires { CanTryMove self.old candidate.now before chosen }
        ensures { IfOk result (λ h. (d : Depth) (ns : List Node) (n : Node) (m : rule.Move)
            → TriesMove d self.old ns n m candidate.now before chosen
            → Comes d ns (tries_from d n (tries_with n.state m) (round_in d (tally_of self.old) ns)) h self.new) }
    {
        let step = Step {
            before,
            chosen,
            manner: Manner::Whole,
        };
        match self.attempt(alloc, candidate, step, steps)? {
            Attempt::Halts(halt) => return Ok(Some(halt)),
            _ => {}
        }
        if !self.runs(before) {
            return Ok(None);
        }
        self.cut_all(alloc, candidate, before, chosen, steps)
    }

    // Tries each move from a state.
    fn try_moves<L: Ledger>(
        &mut self,
        alloc: Global,
        exploration: &Exploration<'_>,
        applications: &[Vec<bool>],
        before: usize,
        steps: &mut Steps<L>,
    ) -> Result<Option<Halt>, NoMemory>
        requires { CanTryMoves self.old exploration.now.rules applications.now before }
        ensures { IfOk result (λ h. (d : Depth) (ns : List Node) (n : Node) → IsFrom d self.old ns n before
            → AreCandidates d.rules exploration.now.rules applications.now
            → Comes d ns (tries_from d n (tries_of d.rules.moves n.state) (round_in d (tally_of self.old) ns)) h self.new) }
    {
        let ons = exploration.rules.ons.as_slice();
        for (chosen, listed) in exploration.rules.moves.iter().enumerate() {
            let Some(applies) = applications.get(chosen) else {
                unreachable!()
            };
            let candidate = Candidate {
                chosen: listed,
                ons,
                applies: applies.as_slice(),
            };
            let halt = self.try_move(alloc, &candidate, before, chosen, steps)?;
            if halt.is_some() {
                return Ok(halt);
            }
        }
        Ok(None)
    }

    /// Tries each move from each of the states `from..to`, and returns what ends the search. `applications` says
    /// for each move to which of the `on` lines it applies.
    ///
    /// # Errors
    ///
    /// Returns `NoMemory` if it is out of memory, and if there is no room for the number of tries.
    pub fn try_states<L: Ledger>(
        &mut self,
        alloc: Global,
        exploration: &Exploration<'_>,
        applications: &[Vec<bool>],
        from: usize,
        to: usize,
        steps: &mut Steps<L>,
    ) -> Result<Option<Halt>, NoMemory>
        requires { CanTryStates self.old exploration.now.rules applications.now from to }
        ensures { IfOk result (λ h. (d : Depth) (ns : List Node) → Holds d self.old ns → from ≤ to → to ≡ length ns
            → AreCandidates d.rules exploration.now.rules applications.now
            → Comes d ns (round_of_states d.most d.rules (drop from ns) (round_in d (tally_of self.old) ns)) h self.new) }
    {
        for before in from..to {
            let halt = self.try_moves(alloc, exploration, applications, before, steps)?;
            if halt.is_some() {
                return Ok(halt);
            }
        }
        Ok(None)
    }
}

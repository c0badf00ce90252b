// A move that is tried from a state, and what is counted of each try.
ghost use Rattle.std.specs.Prelude.{◌≡◌, ℕ, suc, IfOk, List, OnOk, drop, length, slice_get, Some};
ghost use Rattle.law_histories.specs.law_explore.specs.Rules as rule;
ghost use Rattle.law_histories.specs.law_explore.specs.Search.{Node};
ghost use Rattle.lab_search.specs.Kept.{names_in, KeepsKept};
ghost use Rattle.lab_search.specs.Rounds.{CanStep, CanTryMove, Depth, IsFrom, TriesMove};
ghost use Rattle.lab_search.specs.Trying.{CanCut};
ghost use Rattle.lab_application.specs.Shadows.{SpendNothing};
ghost use Rattle.lab_application.specs.Finding.{ComesTo, IfReached, IsKept, IsKeptWith, IsReachedFrom, IsSameSearch};

use crate::statics::statics_in;
use lab_history::{Break, Course, Extent, Standing, apply, broken_always, first_amounts};
use lab_key::CardState;
use lab_record::Subject;
use lab_search::{Candidate, Laboratory, Manner, Search, Step, Tried};
use mc_words::{NoMemory, Steps};
use std::alloc::Global;
use std::sync::ledger::Ledger;

/// What ends a search before the depths that are left: a rule that is broken, with the last step to it; or one state too
/// many.
#[derive(Clone, Copy)]
pub enum Halt {
    Broken(Break, Step),
    Full,
}

/// A move that is tried from a state: the number of the state, that of the move, the move with its counter of
/// instructions, what happens while it is made whole, and the static bytes of the application before it, or `None` if it is
/// not there.
#[derive(Clone, Copy)]
pub struct Attempt<'a> {
    pub alloc: Global,
    pub subject: Subject<'a>,
    pub candidate: &'a Candidate<'a>,
    pub before: usize,
    pub chosen: usize,
    pub course: &'a Course,
    pub fixed: &'a Option<Vec<u8>>,
}

/// A card that a move leads to, the number of instructions that it did, and the static bytes of the application on that
/// card, or `None` if it is not there.
#[derive(Drop)]
pub struct Reached {
    pub state: CardState,
    pub turns: u64,
    pub fixed: Option<Vec<u8>>,
}

// The amounts of the allowances of a state, without the first, which is none of the rules.
fn amounts_in(state: &CardState) -> &[u32] {
    match state.allowances.as_slice() {
        [_, amounts @ ..] => amounts,
        [] => &[],
    }
}

// Makes amounts those after the first, if they are as many.
fn assign(into: &mut [u32], amounts: &[u32])
    ensures size { length into.new ≡ length into.old }
    ensures amounts { length into.old ≡ suc (length amounts.now) → drop 1 into.new ≡ amounts.now }
{
    if into.len() == amounts.len() + 1 {
        into[1..].copy_from_slice(amounts);
    }
}

// The allowances of a state, of which there are `count`, with these amounts after the first.
fn allowances_with(alloc: Global, amounts: &[u32], count: usize) -> Result<Vec<u32>, NoMemory>
    ensures count { IfOk result (λ allowances. length allowances.items ≡ count) }
    ensures amounts { count ≡ suc (length amounts.now)
        → IfOk result (λ allowances. drop 1 allowances.items ≡ amounts.now) }
{
    let mut allowances = vec![in alloc; 0; count]?;
    assign(allowances.as_mut_slice(), amounts);
    Ok(allowances)
}

// The instructions that the last try did.
fn turns_of(laboratory: &Laboratory) -> u64 {
    match laboratory.counts.as_slice() {
        [turns, ..] => *turns,
        [] => 0,
    }
}

impl<'a> Attempt<'a> {
    // The step that is made in a manner.
    fn step(&self, manner: Manner) -> Step
        ensures { result ≡ record { before = self.now.before; chosen = self.now.chosen; manner = manner } }
    {
        Step {
            before: self.before,
            chosen: self.chosen,
            manner,
        }
    }

    /// Makes the move in a manner. Returns `None` if a cut hits no write.
    ///
    /// # Errors
    ///
    /// Returns `NoMemory` if it is out of memory.
    pub fn make<L: Ledger>(
        &self,
        search: &mut Search,
        manner: Manner,
        steps: &mut Steps<L>,
    ) -> Result<Option<Reached>, NoMemory>
        requires can { CanStep search.old self.now.candidate.now
            (record { before = self.now.before; chosen = self.now.chosen; manner = manner }) }
        requires allows { SpendNothing self.now.candidate.now.ons.now }
        ensures same { OnOk result (IsSameSearch search.old search.new) }
        ensures made { IfOk result (λ o. (d : Depth) (ns : List Node) (n : Node) (m : rule.Move)
            → TriesMove d search.old ns n m self.now.candidate.now self.now.before self.now.chosen
            → CanCut n.state manner → IsReachedFrom d search.new n m manner o) }
    {
        let Some(state) = search.states.get_index(self.before) else {
            unreachable!()
        };
        let tried = search.laboratory.attempt(
            self.alloc,
            &mut search.rosters,
            state,
            self.candidate,
            manner,
            steps,
        )?;
        match tried {
            Tried::NotHit => Ok(None),
            Tried::Broken(_) => unreachable!(),
            Tried::Reached(state) => self.look(search, state),
        }
    }

    // Looks at a card that the move led to.
    fn look(&self, search: &mut Search, state: CardState) -> Result<Option<Reached>, NoMemory>
        requires { IsKept search.old.laboratory search.old.rosters state }
        ensures same { OnOk result (IsSameSearch search.old search.new) }
        ensures reached { (names : List (List ℕ)) → IsKeptWith search.old names state
            → IfOk result (IfReached (IsKeptWith search.new names)) }
    {
        let turns = turns_of(&search.laboratory);
        let fixed = statics_in(
            self.alloc,
            &mut search.laboratory,
            &search.rosters,
            &state,
            self.subject.aid,
        )?;
        Ok(Some(Reached {
            state,
            turns,
            fixed,
        }))
    }

    // What is counted before the move, if the application is on both cards: between two lines each block is what it is to
    // be. Else it is what is counted of a new application.
    fn standing(&self, search: &Search, stays: bool) -> Result<(Standing, bool), NoMemory>
        requires { CanTryMove search.now self.now.candidate.now self.now.before self.now.chosen }
    {
        let rules = self.subject.rules;
        let Some(state) = search.states.get_index(self.before) else {
            unreachable!()
        };
        match self.fixed {
            Some(fixed) if stays => Ok((
                Standing::between(self.alloc, rules, amounts_in(state), fixed.as_slice())?,
                true,
            )),
            _ => Ok((Standing::first(self.alloc, rules)?, false)),
        }
    }

    // Counts what happens in a try that came this far, and looks at the card that it leads to. Returns the amounts of the
    // allowances, or the rule that is broken.
    fn count(
        &self,
        search: &mut Search,
        reached: &Option<Vec<u8>>,
        extent: Extent,
    ) -> Result<Result<Vec<u32>, Break>, NoMemory>
        requires { CanTryMove search.old self.now.candidate.now self.now.before self.now.chosen }
        ensures { OnOk result (IsSameSearch search.old search.new) }
    {
        let rules = self.subject.rules;
        let (mut standing, stays) = self.standing(search, reached.is_some())?;
        let mut times = vec![in self.alloc; 0u64; rules.ons.len()]?;
        let mut broken = None;
        if stays {
            broken = apply(
                rules,
                &mut standing,
                times.as_mut_slice(),
                self.course,
                extent,
            );
        }
        search.tally.count(&times)?;
        if let Some(broken) = broken {
            return Ok(Err(broken));
        }
        self.stands(standing, reached)
    }

    // The amounts of the allowances, or the `always` line that a card breaks.
    fn stands(
        &self,
        standing: Standing,
        reached: &Option<Vec<u8>>,
    ) -> Result<Result<Vec<u32>, Break>, NoMemory> {
        let rules = self.subject.rules;
        match reached {
            Some(fixed) => match broken_always(rules, &standing, fixed.as_slice()) {
                Some(broken) => Ok(Err(broken)),
                None => Ok(Ok(standing.amounts)),
            },
            None => Ok(Ok(first_amounts(self.alloc, rules)?)),
        }
    }

    /// Takes a try that was made and came this far: counts what happens in it, and keeps the state that it leads to. Returns
    /// what ends the search.
    ///
    /// # Errors
    ///
    /// Returns `NoMemory` if it is out of memory, and if there is no room for the number of tries.
    pub fn take(
        &self,
        search: &mut Search,
        reached: &Reached,
        manner: Manner,
        extent: Extent,
    ) -> Result<Option<Halt>, NoMemory>
        requires { CanTryMove search.old self.now.candidate.now self.now.before self.now.chosen }
        ensures keeps { OnOk result (KeepsKept search.old.laboratory search.old.rosters search.new.laboratory
            search.new.rosters) }
        ensures comes { IfOk result (λ h. (d : Depth) (ns : List Node) (n : Node) (m : rule.Move)
            → TriesMove d search.old ns n m self.now.candidate.now self.now.before self.now.chosen
            → IsKeptWith search.old (names_in d.rules) reached.now.state → ComesTo d ns h search.new) }
    {
        let step = self.step(manner);
        match self.count(search, &reached.fixed, extent)? {
            Err(broken) => Ok(Some(Halt::Broken(broken, step))),
            Ok(amounts) => self.keep(search, &reached.state, amounts.as_slice(), step),
        }
    }

    // Keeps a card that was reached by a step, with these amounts of the allowances.
    fn keep(
        &self,
        search: &mut Search,
        reached: &CardState,
        amounts: &[u32],
        step: Step,
    ) -> Result<Option<Halt>, NoMemory>
        ensures keeps { OnOk result (KeepsKept search.old.laboratory search.old.rosters search.new.laboratory
            search.new.rosters) }
        ensures comes { IfOk result (λ h. (d : Depth) (ns : List Node) (n : Node) (m : rule.Move)
            → IsFrom d search.old ns n step.before → slice_get d.rules.moves step.chosen ≡ Some m
            → IsKeptWith search.old (names_in d.rules) reached.now → ComesTo d ns h search.new) }
    {
        let allowances = allowances_with(self.alloc, amounts, reached.allowances.len())?;
        let state = CardState {
            card: reached.card,
            runs: reached.runs,
            allowances,
        };
        match search.keep(state, step)? {
            None => Ok(None),
            Some(_) => Ok(Some(Halt::Full)),
        }
    }
}

// A move that is tried from a state: whole, and cut at each of its device writes.
ghost use Rattle.std.specs.Prelude.{◌≡◌, ◌+◌, ◌<◌, ◌≤◌, ◌^◌, IfOk, List, OnOk, length, true};
ghost use Rattle.law_histories.specs.model_play.specs.Family.{is_running};
ghost use Rattle.law_histories.specs.law_explore.specs.Rules as rule;
ghost use Rattle.law_histories.specs.law_explore.specs.States.{play_of};
ghost use Rattle.law_histories.specs.law_explore.specs.Tries.{writes_of};
ghost use Rattle.law_histories.specs.law_explore.specs.Search.{Node};
ghost use Rattle.lab_search.specs.Kept.{names_in, KeepsKept};
ghost use Rattle.lab_search.specs.Rounds.{CanCutMove, CanTryMove, Depth, TriesMove};
ghost use Rattle.lab_application.specs.Shadows.{SpendNothing};
ghost use Rattle.lab_application.specs.Finding.{AreKeptWith, CanCutAt, CanTakeCut, ComesTo, IsKeptWith, IsSameSearch};

use crate::attempts::{Attempt, Halt, Reached};
use lab_branch::push;
use lab_history::{Extent, is_durable};
use lab_search::{Fill, Manner, Search, next_write};
use mc_words::{NoMemory, Steps};
use std::alloc::Global;
use std::sync::ledger::Ledger;

// The instructions of some tries.
fn turns_in(alloc: Global, all: &[Reached]) -> Result<Vec<u64>, NoMemory> {
    let mut turns = Vec::new(alloc);
    for reached in all {
        push(&mut turns, reached.turns)?;
    }
    Ok(turns)
}

// How far a move came that is cut at the device write after the first `made` ones, with a fill.
fn extent_of(turns: &[u64], made: u32, fill: Fill) -> Extent {
    let place = made as usize;
    let done = if place < turns.len() { turns[place] } else { 0 };
    Extent::Stopped {
        turns: done,
        durable: is_durable(turns, place, fill == Fill::Opening),
    }
}

impl<'a> Attempt<'a> {
    // Makes the move cut with eight bytes 00 at each of its device writes, in order.
    fn make_all<L: Ledger>(
        &self,
        search: &mut Search,
        steps: &mut Steps<L>,
    ) -> Result<Vec<Reached>, NoMemory>
        requires can { CanCutMove search.old self.now.candidate.now self.now.before self.now.chosen }
        requires allows { SpendNothing self.now.candidate.now.ons.now }
        ensures same { OnOk result (IsSameSearch search.old search.new) }
        ensures few { IfOk result (λ all. length all.items < 2 ^ 32) }
        ensures made { IfOk result (λ all. (d : Depth) (ns : List Node) (n : Node) (m : rule.Move)
            → TriesMove d search.old ns n m self.now.candidate.now self.now.before self.now.chosen
            → is_running n.state.live ≡ true → AreKeptWith search.new (names_in d.rules) all.items
            × (length all.items ≤ writes_of (play_of n.state) m)) }
    {
        let mut all = Vec::new(self.alloc);
        let mut made = 0;
        'writes: loop {
            let manner = Manner::Cut {
                made,
                fill: Fill::Zeros,
            };
            match self.make(search, manner, steps)? {
                Some(reached) => push(&mut all, reached)?,
                None => return Ok(all),
            }
            made = next_write(made)?;
        }
    }

    // Tries the move cut at a device write with a fill that was not made yet.
    fn try_fill<L: Ledger>(
        &self,
        search: &mut Search,
        turns: &[u64],
        made: u32,
        fill: Fill,
        steps: &mut Steps<L>,
    ) -> Result<Option<Halt>, NoMemory>
        requires can { CanCutAt search.old self.now.candidate.now self.now.before self.now.chosen made }
        requires counted { made + 1 < 2 ^ 32 }
        requires allows { SpendNothing self.now.candidate.now.ons.now }
        ensures keeps { OnOk result (KeepsKept search.old.laboratory search.old.rosters search.new.laboratory
            search.new.rosters) }
        ensures comes { IfOk result (λ h. (d : Depth) (ns : List Node) (n : Node) (m : rule.Move)
            → TriesMove d search.old ns n m self.now.candidate.now self.now.before self.now.chosen
            → is_running n.state.live ≡ true → ComesTo d ns h search.new) }
    {
        let manner = Manner::Cut { made, fill };
        match self.make(search, manner, steps)? {
            Some(reached) => {
                let extent = extent_of(turns, made, fill);
                self.take(search, &reached, manner, extent)
            }
            None => unreachable!(),
        }
    }

    // Tries the move cut at a device write with each fill, of which the first was made.
    fn try_cut<L: Ledger>(
        &self,
        search: &mut Search,
        turns: &[u64],
        made: u32,
        zeros: &Reached,
        steps: &mut Steps<L>,
    ) -> Result<Option<Halt>, NoMemory>
        requires can { CanTakeCut search.old self.now.candidate.now self.now.before self.now.chosen made
            zeros.now.state }
        requires counted { made + 1 < 2 ^ 32 }
        requires allows { SpendNothing self.now.candidate.now.ons.now }
        ensures keeps { OnOk result (KeepsKept search.old.laboratory search.old.rosters search.new.laboratory
            search.new.rosters) }
        ensures comes { IfOk result (λ h. (d : Depth) (ns : List Node) (n : Node) (m : rule.Move)
            → TriesMove d search.old ns n m self.now.candidate.now self.now.before self.now.chosen
            → is_running n.state.live ≡ true → IsKeptWith search.old (names_in d.rules) zeros.now.state
            → ComesTo d ns h search.new) }
    {
        let manner = Manner::Cut {
            made,
            fill: Fill::Zeros,
        };
        let halt = self.take(search, zeros, manner, extent_of(turns, made, Fill::Zeros))?;
        if halt.is_some() {
            return Ok(halt);
        }
        let halt = self.try_fill(search, turns, made, Fill::Ones, steps)?;
        if halt.is_some() {
            return Ok(halt);
        }
        self.try_fill(search, turns, made, Fill::Opening, steps)
    }

    // Tries the move cut at each of its device writes.
    fn try_cuts<L: Ledger>(
        &self,
        search: &mut Search,
        steps: &mut Steps<L>,
    ) -> Result<Option<Halt>, NoMemory>
        requires can { CanCutMove search.old self.now.candidate.now self.now.before self.now.chosen }
        requires allows { SpendNothing self.now.candidate.now.ons.now }
        ensures { IfOk result (λ h. (d : Depth) (ns : List Node) (n : Node) (m : rule.Move)
            → TriesMove d search.old ns n m self.now.candidate.now self.now.before self.now.chosen
            → is_running n.state.live ≡ true → ComesTo d ns h search.new) }
    {
        let all = self.make_all(search, steps)?;
        let tried = all.as_slice();
        let turns = turns_in(self.alloc, tried)?;
        for place in 0..tried.len() {
            let halt = self.try_cut(search, turns.as_slice(), place as u32, &tried[place], steps)?;
            if halt.is_some() {
                return Ok(halt);
            }
        }
        Ok(None)
    }

    /// Tries the move whole, and if a card runs cut at each of its device writes. Returns what ends the search.
    ///
    /// # Errors
    ///
    /// Returns `NoMemory` if it is out of memory, if there is no room for the number of tries, and if the move makes
    /// 4,294,967,295 device writes or more.
    pub fn try_all<L: Ledger>(
        &self,
        search: &mut Search,
        steps: &mut Steps<L>,
    ) -> Result<Option<Halt>, NoMemory>
        requires can { CanTryMove search.old self.now.candidate.now self.now.before self.now.chosen }
        requires allows { SpendNothing self.now.candidate.now.ons.now }
        ensures { IfOk result (λ h. (d : Depth) (ns : List Node) (n : Node) (m : rule.Move)
            → TriesMove d search.old ns n m self.now.candidate.now self.now.before self.now.chosen
            → ComesTo d ns h search.new) }
    {
        let Some(reached) = self.make(search, Manner::Whole, steps)? else {
            unreachable!()
        };
        let halt = self.take(search, &reached, Manner::Whole, Extent::Whole)?;
        if halt.is_some() {
            return Ok(halt);
        }
        if !search.runs(self.before) {
            return Ok(None);
        }
        self.try_cuts(search, steps)
    }
}

// The bases of routines, or a call by which a routine reaches itself: a search along the calls, from routines to their
// callers.
ghost use Rattle.std.specs.Prelude.{◌≡◌, ◌<◌, ◌≤◌, ◌-◌, ◌^◌, ◌++◌, ◌∷◌, ℕ, [], length, replicate, map, take, slice_get, slice_set, Some, OnOk, IfOk, IfErr};
ghost use Rattle.law_family.specs.model_device.specs.Limits.{most_code};
ghost use Rattle.mc_check.specs.Table.{IsWholeTable, AreBases, IsFaultDue};
ghost use Rattle.mc_check.specs.CallList.{AreClosed, AreBasesIn, IsCalled, IsRing};
ghost use Rattle.mc_check.specs.Searching.{answer_of_call, Answers, AreBelow, IsSeen, StaySeen, Searches, remaining_work, base_of};

use crate::calls::{Call, list_calls};
use crate::table::{Entry, Fault, Refusal, Routine};
use law_family::model_text::CheckCause;
use std::alloc::{AllocError, Global};

// The progress of the search with a routine.
#[derive(Clone, Copy)]
enum Progress {
    Unseen,
    Open,
    Done(u32),
}

// The base of a routine by its calls, or why there is none yet.
#[derive(Clone, Copy)]
enum Answer {
    // The base.
    Base(u32),
    // This caller is unseen.
    Unseen(u16),
    // The call at this place is by an open routine.
    Open(u16),
}

// The routines by their places, and those that are open: each one calls the one before it.
#[derive(Drop)]
struct Search {
    progress: Vec<Progress>,
    stack: Vec<u16>,
}

// Returns the base of a call's target by the call, or why there is none yet.
fn base_by(progress: &[Progress], call: &Call) -> Answer
    requires caller { (p : ℕ) → call.now.caller ≡ Routine.At p → p < length progress.now }
    requires bound { AreBelow (2 ^ 31) progress.now }
    ensures { result ≡ answer_of_call progress.now call.now }
{
    match call.caller {
        Routine::Main => Answer::Base(u32::from(call.height) + 4),
        Routine::At(caller) => match progress[caller as usize] {
            Progress::Unseen => Answer::Unseen(caller),
            Progress::Open => Answer::Open(call.place),
            Progress::Done(base) => Answer::Base(base + u32::from(call.height) + 4),
        },
    }
}

// Returns the greatest base of a routine by its calls, or the first call whose routine has no base yet.
fn base_of(progress: &[Progress], calls: &[Call], routine: u16) -> Answer
    requires closed { AreClosed (length progress.now) calls.now }
    requires called { IsCalled calls.now routine }
    requires bound { AreBelow (2 ^ 31) progress.now }
    ensures { Answers progress.now calls.now routine result }
{
    let mut greatest = 0;
    for call in calls {
        if call.target == routine {
            match base_by(progress, call) {
                Answer::Base(base) => greatest = greatest.max(base),
                other => return other,
            }
        }
    }
    Answer::Base(greatest)
}

impl Search {
    // Returns a search in which no routine was seen, in `len` bytes of code.
    fn new(alloc: Global, len: usize) -> Result<Self, AllocError>
        ensures progress { IfOk result (λ s. s.progress.items ≡ replicate len Progress.Unseen) }
        ensures stack { IfOk result (λ s. s.stack.items ≡ []) }
    {
        Ok(Search {
            progress: vec![in alloc; Progress::Unseen; len]?,
            stack: Vec::new(alloc),
        })
    }

    // Begins with a routine: it is open.
    fn enter(&mut self, routine: u16) -> Result<(), AllocError>
        requires { routine < length self.old.progress.items }
        ensures progress { OnOk result (self.new.progress.items
            ≡ slice_set self.old.progress.items routine Progress.Open) }
        ensures stack { OnOk result (self.new.stack.items ≡ self.old.stack.items ++ routine ∷ []) }
    {
        self.stack.push(routine)?;
        self.progress[routine as usize] = Progress::Open;
        Ok(())
    }

    // Ends with the routine that was entered last: its base is found.
    fn leave(&mut self, routine: u16, base: u32)
        requires { routine < length self.old.progress.items }
        ensures progress { self.new.progress.items ≡ slice_set self.old.progress.items routine (Progress.Done base) }
        ensures stack { self.new.stack.items ≡ take (length self.old.stack.items - 1) self.old.stack.items }
    {
        self.stack.pop();
        self.progress[routine as usize] = Progress::Done(base);
    }

    // Returns the routine that was entered last and not left.
    fn last(&self) -> Option<u16>
        ensures { result ≡ slice_get self.now.stack.items (length self.now.stack.items - 1) }
    {
        self.stack.last().copied()
    }

    // Makes one step with the routine that was entered last: it is left, or an unseen caller of it is
    // entered.
    fn advance(&mut self, calls: &[Call], routine: u16) -> Result<(), Fault>
        requires len { length self.old.progress.items ≤ most_code }
        requires closed { AreClosed (length self.old.progress.items) calls.now }
        requires searches { Searches calls.now self.old.progress.items self.old.stack.items }
        requires last { slice_get self.old.stack.items (length self.old.stack.items - 1) ≡ Some routine }
        ensures len { OnOk result (length self.new.progress.items ≡ length self.old.progress.items) }
        ensures searches { OnOk result (Searches calls.now self.new.progress.items self.new.stack.items) }
        ensures seen { OnOk result (StaySeen self.old.progress.items self.new.progress.items) }
        ensures nearer { OnOk result (remaining_work self.new.progress.items self.new.stack.items
            < remaining_work self.old.progress.items self.old.stack.items) }
        ensures ring { IfErr result (IsRing calls.now) }
    {
        match base_of(self.progress.as_slice(), calls, routine) {
            Answer::Base(base) => {
                self.leave(routine, base);
                Ok(())
            }
            Answer::Unseen(caller) => {
                self.enter(caller)?;
                Ok(())
            }
            Answer::Open(place) => Err(Fault::Refused(Refusal {
                place,
                cause: CheckCause::Recursive,
            })),
        }
    }

    // Finds the base of a routine, and the bases of all routines that reach it by calls.
    fn find(&mut self, calls: &[Call], routine: u16) -> Result<(), Fault>
        requires len { length self.old.progress.items ≤ most_code }
        requires closed { AreClosed (length self.old.progress.items) calls.now }
        requires called { IsCalled calls.now routine }
        requires searches { Searches calls.now self.old.progress.items [] }
        requires stack { self.old.stack.items ≡ [] }
        ensures len { OnOk result (length self.new.progress.items ≡ length self.old.progress.items) }
        ensures searches { OnOk result (Searches calls.now self.new.progress.items []) }
        ensures stack { OnOk result (self.new.stack.items ≡ []) }
        ensures seen { OnOk result (StaySeen self.old.progress.items self.new.progress.items) }
        ensures this { OnOk result (IsSeen self.new.progress.items routine) }
        ensures ring { IfErr result (IsRing calls.now) }
    {
        let Progress::Unseen = self.progress[routine as usize] else {
            return Ok(());
        };
        self.enter(routine)?;
        while let Some(last) = self.last() {
            self.advance(calls, last)?;
        }
        Ok(())
    }
}

// Returns the bases that were found, by place.
fn found(alloc: Global, progress: &[Progress]) -> Result<Vec<u32>, AllocError>
    ensures { IfOk result (λ bases. bases.items ≡ map base_of progress.now) }
{
    progress
        .iter()
        .map(|state| match state {
            Progress::Done(base) => *base,
            _ => 0,
        })
        .collect(alloc)
}

// Returns the bases of the routines that are called, in code of `len` bytes; or a call by which a routine
// reaches itself.
fn bases_by(alloc: Global, calls: &[Call], len: usize) -> Result<Vec<u32>, Fault>
    requires len { len ≤ most_code }
    requires closed { AreClosed len calls.now }
    ensures bases { IfOk result (λ bases. AreBasesIn len calls.now bases.items) }
    ensures ring { IfErr result (IsRing calls.now) }
{
    let mut search = Search::new(alloc, len)?;
    for call in calls {
        search.find(calls, call.target)?;
    }
    Ok(found(alloc, search.progress.as_slice())?)
}

/// Returns the bases of the routines that are reached, by their places, from the table of all facts; or a
/// CALL by which its routine reaches itself.
pub fn find_bases(alloc: Global, code: &[u8], table: &[Option<Entry>]) -> Result<Vec<u32>, Fault>
    requires high { length code.now ≤ most_code }
    requires whole { IsWholeTable code.now table.now }
    ensures bases { IfOk result (λ bases. AreBases code.now bases.items) }
    ensures due { IfErr result (IsFaultDue code.now) }
{
    let calls = list_calls(alloc, code, table)?;
    bases_by(alloc, calls.as_slice(), code.len())
}

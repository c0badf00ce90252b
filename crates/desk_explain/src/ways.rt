// The two ways on which code comes to a place that the stack checker refuses. The facts are followed as the checker
// follows them, one after the other; what breaks a rule by itself is followed no further.
ghost use Rattle.std.specs.Prelude.{◌≤◌, length};
ghost use Rattle.mc_isa.specs.model_device.specs.Limits.{most_code};
ghost use Rattle.mc_isa.specs.model_machine.specs.Code.{Shaped};

use mc_check::{
    Counts, Entry, Routine, Seen, call_target, goes_on, height_after, is_conditional, jump_target,
    look, return_counts,
};
use std::alloc::{AllocError, Global};

// From a height above this one no fact follows.
const HIGHEST: u16 = 512;

/// A way to a place: the place of the instruction that leads there, or none if the code begins there, and the routine
/// and the height of the stack with which it does.
#[derive(Clone, Copy, Debug, PartialEq, Eq)]
pub struct Way {
    pub from: Option<u16>,
    pub entry: Entry,
}

/// The first way to a place, and the first that disagrees with it.
#[derive(Clone, Copy, Debug, PartialEq, Eq)]
pub struct Ways {
    pub first: Option<Way>,
    pub second: Option<Way>,
}

// The state of the walk: the ways to places, the counts of routines by their places, the places whose ways are still to
// be followed, and the place in question with the ways that were found to it.
#[derive(Drop)]
struct Walk {
    table: Vec<Option<Way>>,
    counts: Vec<Option<Counts>>,
    work: Vec<u16>,
    place: u16,
    ways: Ways,
}

// Whether two ways agree in what they bring.
fn agree(one: Way, other: Way) -> bool {
    one.entry == other.entry
}

impl Ways {
    // Takes one more way to the place.
    fn take(&mut self, way: Way) {
        let Some(first) = self.first else {
            self.first = Some(way);
            return;
        };
        if self.second.is_none() && !agree(first, way) {
            self.second = Some(way);
        }
    }
}

impl Walk {
    fn new(alloc: Global, len: usize, place: u16) -> Result<Walk, AllocError> {
        Ok(Walk {
            table: vec![in alloc; None; len]?,
            counts: vec![in alloc; None; len]?,
            work: Vec::new(alloc),
            place,
            ways: Ways {
                first: None,
                second: None,
            },
        })
    }

    // The way by which a place was reached first.
    fn way_at(&self, place: u16) -> Option<Way> {
        self.table.get(place as usize).copied()?
    }

    // Keeps the way to a place that no way was found to before.
    fn keep(&mut self, place: u16, way: Way) -> Result<(), AllocError> {
        if let Some(known) = self.table.get_mut(place as usize) {
            *known = Some(way);
            self.work.push(place)?;
        }
        Ok(())
    }

    // Adds a way to a place.
    fn add(&mut self, code: &[u8], place: u16, way: Way) -> Result<(), AllocError>
        requires { length code.now ≤ most_code }
    {
        if place == self.place {
            self.ways.take(way);
        }
        if self.way_at(place).is_some() || look(code, place, way.entry).is_err() {
            return Ok(());
        }
        self.keep(place, way)
    }

    // Follows a call to the place after it, with the counts of its routine.
    fn come_back(
        &mut self,
        code: &[u8],
        place: u16,
        entry: Entry,
        next: u16,
        counts: Counts,
    ) -> Result<(), AllocError>
        requires { length code.now ≤ most_code }
    {
        let less = u16::from(counts.less);
        if entry.height < less || entry.height > HIGHEST {
            return Ok(());
        }
        let entry = Entry {
            routine: entry.routine,
            height: (entry.height - less).saturating_add(u16::from(counts.more)),
        };
        self.add(
            code,
            next,
            Way {
                from: Some(place),
                entry,
            },
        )
    }

    // Follows the instruction at a place to the place after it, if it is a call of a routine.
    fn come_back_at(
        &mut self,
        code: &[u8],
        place: u16,
        routine: u16,
        counts: Counts,
    ) -> Result<(), AllocError>
        requires { length code.now ≤ most_code }
    {
        let Some(way) = self.way_at(place) else {
            return Ok(());
        };
        match look(code, place, way.entry) {
            Ok(seen) if call_target(seen.ins) == Some(routine) => {
                self.come_back(code, place, way.entry, seen.next, counts)
            }
            _ => Ok(()),
        }
    }

    // The counts of a routine, if a return of it was seen.
    fn counts_of(&self, routine: u16) -> Option<Counts> {
        self.counts.get(routine as usize).copied()?
    }

    // Keeps the counts of a routine.
    fn keep_counts(&mut self, routine: u16, counts: Counts) {
        if let Some(known) = self.counts.get_mut(routine as usize) {
            *known = Some(counts);
        }
    }

    // Follows each call of a routine to the place after it.
    fn come_back_all(&mut self, code: &[u8], routine: u16, counts: Counts) -> Result<(), AllocError>
        requires { length code.now ≤ most_code }
    {
        for place in 0..code.len() as u16 {
            self.come_back_at(code, place, routine, counts)?;
        }
        Ok(())
    }

    // Follows a return of a routine, the first time that one is seen.
    fn follow_return(
        &mut self,
        code: &[u8],
        routine: Routine,
        counts: Counts,
    ) -> Result<(), AllocError>
        requires { length code.now ≤ most_code }
    {
        let Routine::At(routine) = routine else {
            return Ok(());
        };
        if self.counts_of(routine).is_some() {
            return Ok(());
        }
        self.come_back_all(code, routine, counts)?;
        self.keep_counts(routine, counts);
        Ok(())
    }

    // Goes on after a call with the same height, if it has a condition.
    fn pass(&mut self, code: &[u8], place: u16, way: Way, seen: Seen) -> Result<(), AllocError>
        requires { length code.now ≤ most_code }
    {
        if !is_conditional(seen.ins) {
            return Ok(());
        }
        self.add(
            code,
            seen.next,
            Way {
                from: Some(place),
                entry: way.entry,
            },
        )
    }

    // Follows a call of a routine.
    fn follow_call(
        &mut self,
        code: &[u8],
        place: u16,
        way: Way,
        seen: Seen,
        routine: u16,
    ) -> Result<(), AllocError>
        requires { length code.now ≤ most_code }
    {
        let entry = Entry {
            routine: Routine::At(routine),
            height: 0,
        };
        self.add(
            code,
            routine,
            Way {
                from: Some(place),
                entry,
            },
        )?;
        self.pass(code, place, way, seen)?;
        match self.counts_of(routine) {
            Some(counts) => self.come_back(code, place, way.entry, seen.next, counts),
            None => Ok(()),
        }
    }

    // Goes on after an instruction that is no call.
    fn go_on(&mut self, code: &[u8], place: u16, way: Way, seen: Seen) -> Result<(), AllocError>
        requires high { length code.now ≤ most_code }
        requires low { way.entry.height ≤ 512 }
        requires shaped { Shaped seen.ins }
    {
        if !goes_on(seen.ins) {
            return Ok(());
        }
        let entry = Entry {
            routine: way.entry.routine,
            height: height_after(seen.ins, way.entry.height),
        };
        self.add(
            code,
            seen.next,
            Way {
                from: Some(place),
                entry,
            },
        )
    }

    // Goes to the target of a branch or jump.
    fn jump(&mut self, code: &[u8], place: u16, way: Way, seen: Seen) -> Result<(), AllocError>
        requires { length code.now ≤ most_code }
    {
        match jump_target(seen.ins, seen.next) {
            Some(to) => self.add(
                code,
                to,
                Way {
                    from: Some(place),
                    entry: way.entry,
                },
            ),
            None => Ok(()),
        }
    }

    // Follows an instruction that is no return, from a height from which facts follow.
    fn follow_low(
        &mut self,
        code: &[u8],
        place: u16,
        way: Way,
        seen: Seen,
    ) -> Result<(), AllocError>
        requires high { length code.now ≤ most_code }
        requires low { way.entry.height ≤ 512 }
        requires shaped { Shaped seen.ins }
    {
        match call_target(seen.ins) {
            Some(routine) => self.follow_call(code, place, way, seen, routine),
            None => {
                self.go_on(code, place, way, seen)?;
                self.jump(code, place, way, seen)
            }
        }
    }

    // Follows an instruction.
    fn follow_seen(
        &mut self,
        code: &[u8],
        place: u16,
        way: Way,
        seen: Seen,
    ) -> Result<(), AllocError>
        requires high { length code.now ≤ most_code }
        requires shaped { Shaped seen.ins }
    {
        if let Some(counts) = return_counts(seen.ins) {
            return self.follow_return(code, way.entry.routine, counts);
        }
        if way.entry.height > HIGHEST {
            return Ok(());
        }
        self.follow_low(code, place, way, seen)
    }

    // Follows the first way to a place.
    fn follow(&mut self, code: &[u8], place: u16) -> Result<(), AllocError>
        requires { length code.now ≤ most_code }
    {
        let Some(way) = self.way_at(place) else {
            return Ok(());
        };
        match look(code, place, way.entry) {
            Ok(seen) => self.follow_seen(code, place, way, seen),
            Err(_) => Ok(()),
        }
    }
}

/// Returns the ways to a place of code of at most 8,192 bytes, in the order in which the checker finds them.
///
/// # Errors
///
/// Returns `AllocError` if out of memory.
pub fn ways_to(alloc: Global, code: &[u8], place: u16) -> Result<Ways, AllocError>
    requires { length code.now ≤ most_code }
{
    let mut walk = Walk::new(alloc, code.len(), place)?;
    let entry = Entry {
        routine: Routine::Main,
        height: 0,
    };
    walk.add(code, 0, Way { from: None, entry })?;
    for _ in 0..code.len() {
        let Some(next) = walk.work.pop() else {
            return Ok(walk.ways);
        };
        walk.follow(code, next)?;
    }
    Ok(walk.ways)
}

// What happens to an application, counted.
ghost use Rattle.std.specs.Prelude.{◌≡◌, slice_get, slice_set, vec_len, IfNone};
ghost use Rattle.model_device.specs.Bytes.{num};
ghost use Rattle.lab_history.specs.Applying.{course_effect, deed_effect, deeds_effect, end_effect, is_session, line_effect, lines_effect, session_effect, session_if, ComesTo};
ghost use Rattle.lab_history.specs.Moves.{takes_from_sum, AreDone, IsDone, IsLineMoved};

use crate::amounts::is_kept;
use crate::course::{Course, Deed, Extent};
use crate::standing::{Break, Standing};
use lab_app_rules::{Effect, Event, On, Rules};

// Notes that the `on` line with a number applied, if there is such a line.
fn hear(times: &mut [u64], i: usize)
    ensures { times.new ≡ slice_set times.old i 1 }
{
    if i < times.len() {
        times[i] = 1;
    }
}

// Whether an `on` line takes from its sum.
fn takes(on: &On) -> bool
    ensures { result ≡ takes_from_sum on.now.effect }
{
    match on.effect {
        Effect::Take(_) => true,
        _ => false,
    }
}

// Whether an `on` line is about sessions.
fn is_session(on: &On) -> bool
    ensures { result ≡ is_session on.now }
{
    on.event == Event::Session
}

// Does what the `on` line with a number says of an allowance. Returns what it breaks.
fn apply_line(ons: &[On], amounts: &mut [u32], times: &mut [u64], i: usize) -> Option<Break>
    ensures { ComesTo result amounts.new (line_effect ons.now i amounts.old) }
{
    hear(times, i);
    if i >= ons.len() {
        return None;
    }
    if is_kept(amounts, &ons[i]) {
        return None;
    }
    Some(Break::On(i))
}

// Does what the `on` lines with these numbers say of allowances, in order, up to the first that is broken.
fn apply_lines(ons: &[On], amounts: &mut [u32], times: &mut [u64], lines: &[usize]) -> Option<Break>
    ensures { ComesTo result amounts.new (lines_effect ons.now lines.now amounts.old) }
{
    for i in lines {
        let broken = apply_line(ons, amounts, times, *i);
        if broken.is_some() {
            return broken;
        }
    }
    None
}

// A session begins or ends: does what the `on session` lines say.
fn apply_session(ons: &[On], amounts: &mut [u32], times: &mut [u64]) -> Option<Break>
    ensures { ComesTo result amounts.new (session_effect ons.now 0 ons.now amounts.old) }
{
    for (i, on) in ons.iter().enumerate() {
        if is_session(on) {
            let broken = apply_line(ons, amounts, times, i);
            if broken.is_some() {
                return broken;
            }
        }
    }
    None
}

// Moves the sum of the `on` line with a number.
fn apply_sum(rules: &Rules<'_>, standing: &mut Standing, times: &mut [u64], i: usize, number: &[u8])
    ensures amounts { standing.new.amounts.items ≡ standing.old.amounts.items }
    ensures kept { standing.new.kept.items ≡ standing.old.kept.items }
    ensures waiting { IsLineMoved (slice_get rules.now.ons.items i) rules.now.balances.items (num number.now)
        standing.old.waiting.items standing.new.waiting.items }
{
    hear(times, i);
    if i < rules.ons.len() {
        let on = &rules.ons[i];
        standing.move_sum(rules.balances.as_slice(), on.name, takes(on), number);
    }
}

// Counts what an instruction does.
fn apply_deed(
    rules: &Rules<'_>,
    standing: &mut Standing,
    times: &mut [u64],
    deed: &Deed,
) -> Option<Break>
    ensures amounts { ComesTo result standing.new.amounts.items
        (deed_effect rules.now.ons.items deed.now standing.old.amounts.items) }
    ensures blocks { vec_len standing.old.kept ≡ vec_len standing.old.waiting
        → IsDone rules.now.ons.items rules.now.balances.items deed.now
        standing.old.kept.items standing.old.waiting.items standing.new.kept.items standing.new.waiting.items }
{
    match deed {
        Deed::On(i) => apply_line(
            rules.ons.as_slice(),
            standing.amounts.as_mut_slice(),
            times,
            *i,
        ),
        Deed::Sum(i, number) => {
            apply_sum(rules, standing, times, *i, number.as_slice());
            None
        }
        Deed::Keep => {
            standing.keep();
            None
        }
        Deed::Drop => {
            standing.drop_waiting();
            None
        }
        Deed::Abend => Some(Break::Abend),
    }
}

// Counts what the instructions do that count.
fn apply_deeds(
    rules: &Rules<'_>,
    standing: &mut Standing,
    times: &mut [u64],
    course: &Course,
    extent: Extent,
) -> Option<Break>
    ensures amounts { ComesTo result standing.new.amounts.items
        (deeds_effect rules.now.ons.items extent course.now.deeds.items standing.old.amounts.items) }
    ensures blocks { vec_len standing.old.kept ≡ vec_len standing.old.waiting → IfNone result
        (AreDone rules.now.ons.items
        rules.now.balances.items extent course.now.deeds.items standing.old.kept.items standing.old.waiting.items
        standing.new.kept.items standing.new.waiting.items) }
{
    for happening in &course.deeds {
        if !extent.has(happening.turn) {
            return None;
        }
        let broken = apply_deed(rules, standing, times, &happening.deed);
        if broken.is_some() {
            return broken;
        }
    }
    None
}

// Counts a session that begins or ends, if one does.
fn apply_session_if(ons: &[On], amounts: &mut [u32], times: &mut [u64], ends: bool) -> Option<Break>
    ensures { ComesTo result amounts.new (session_if ends ons.now amounts.old) }
{
    if !ends {
        return None;
    }
    apply_session(ons, amounts, times)
}

// Counts what comes after the last instruction: the answer, and the session that begins or ends; or that of the stop.
fn apply_end(
    ons: &[On],
    amounts: &mut [u32],
    times: &mut [u64],
    course: &Course,
    extent: Extent,
) -> Option<Break>
    ensures { ComesTo result amounts.new (end_effect ons.now course.now extent amounts.old) }
{
    match extent {
        Extent::Stopped {
            turns: _,
            durable: _,
        } => { apply_session_if(ons, amounts, times, course.was_selected) }
        Extent::Whole => {
            let broken = apply_lines(ons, amounts, times, course.answer.as_slice());
            if broken.is_some() {
                return broken;
            }
            apply_session_if(ons, amounts, times, course.has_session)
        }
    }
}

/// Counts what happens while a line is played, as far as it came, and returns the first rule that is broken. It writes 1
/// into `times` for each `on` line that applies, of which no clause speaks.
pub fn apply(
    rules: &Rules<'_>,
    standing: &mut Standing,
    times: &mut [u64],
    course: &Course,
    extent: Extent,
) -> Option<Break>
    ensures amounts { ComesTo result standing.new.amounts.items
        (course_effect rules.now.ons.items course.now extent standing.old.amounts.items) }
    ensures blocks { vec_len standing.old.kept ≡ vec_len standing.old.waiting → IfNone result
        (AreDone rules.now.ons.items
        rules.now.balances.items extent course.now.deeds.items standing.old.kept.items standing.old.waiting.items
        standing.new.kept.items standing.new.waiting.items) }
{
    let ons = rules.ons.as_slice();
    let broken = apply_lines(
        ons,
        standing.amounts.as_mut_slice(),
        times,
        course.command.as_slice(),
    );
    if broken.is_some() {
        return broken;
    }
    let broken = apply_deeds(rules, standing, times, course, extent);
    if broken.is_some() {
        return broken;
    }
    apply_end(ons, standing.amounts.as_mut_slice(), times, course, extent)
}

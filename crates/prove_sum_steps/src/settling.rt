// What is known for sums after the event of an instruction, held against what the table has at the place after it.
ghost use Rattle.std.specs.Prelude.{◌≡◌, ◌≤◌, ℕ, true, List, bytes_eq, IfOk, IfSome};
ghost use Rattle.mc_isa.specs.model_machine.specs.Code.{Shaped};
ghost use Rattle.mc_isa.specs.model_machine.specs.declared.instruction.Ins.{Ins};
ghost use Rattle.prove_facts.specs.model_prove.specs.Arrivals.{Setting};
ghost use Rattle.prove_facts.specs.model_prove.specs.Splits.{Scene};
ghost use Rattle.prove_facts.specs.model_rules.specs.Keeping.{OnTurn, after_occasion, line_of};
ghost use Rattle.prove_sums.specs.model_sums.specs.Closed as closed;
ghost use Rattle.prove_sums.specs.model_sums.specs.Closed.{has_sums};
ghost use Rattle.prove_sums.specs.model_sums.specs.Moves.{after_next};
ghost use Rattle.prove_sums.specs.model_sums.specs.Sums as sums;
ghost use Rattle.prove_sums.specs.model_sums.specs.Sums.{SumsTable, sums_at};
ghost use Rattle.mc_isa.specs.model_text.specs.Listing.{text_of};
ghost use Rattle.prove_keys.specs.Keys.{amounts_of};
ghost use Rattle.prove_occasions.specs.Amounts.{AreAfter};
ghost use Rattle.prove_occasions.specs.Turns.{line_of_turn};
ghost use Rattle.prove_sum_steps.specs.Walks.{IsTurn, PassesAt, PassesWith, event_closed, event_sums, turn_in};
ghost use Rattle.prove_sums.specs.Values.{SumsAre};

use crate::goals::Goal;
use crate::turns::Turn;
use mc_isa::text_of;
use model_device::NoMemory;
use prove_events::TurnEvent;
use prove_occasions::{after_turn, whole_line, without_mark};
use prove_scenes::Next;
use prove_sums::{Sums, asks, counted, drops, mode_of};
use std::alloc::Global;

// What is known for sums after the event of an instruction with this line.
fn after_event(alloc: Global, turn: &Turn<'_>, after: &Sums, line: &[u8]) -> Result<Sums, NoMemory>
    ensures { IfOk result (λ known. (names : List (List ℕ)) (s : Setting) (u : SumsTable) (e : Scene) (v : sums.Sums)
        → IsTurn names s u turn.now → SumsAre after.now v
        → SumsAre known (event_sums s (turn_in names turn.now e) v line.now)) }
{
    let dropped = drops(turn.spot.protected(), mode_of(turn.ins));
    counted(alloc, turn.rules, dropped, line, &turn.sums.origins, after)
}

// Whether no total is off after an event, if they are asked.
fn is_settled(turn: &Turn<'_>, sums: &Sums) -> bool
    ensures { result ≡ true → PassesWith turn.now sums.now closed.is_settled }
{
    !asks(turn.spot.protected(), mode_of(turn.ins)) || sums.are_even(turn.rules.balances.as_slice())
}

// Whether what a place of the table has follows from what is known after an event.
fn follows_at(
    alloc: Global,
    turn: &Turn<'_>,
    next: Next,
    sums: &Sums,
    goal: &Goal<'_>,
) -> Result<bool, NoMemory>
    ensures { IfOk result (λ holds. holds ≡ true → PassesAt turn.now goal.now next sums.now
        (λ s u w n v k. has_sums s.rules.totals (after_next n v) (sums_at u k))) }
{
    goal.sums.fits();
    let balances = turn.rules.balances.as_slice();
    match next {
        Next::Delegates => {
            let left = sums.delegated(alloc)?;
            let holds = left.follows(alloc, balances, goal.sums)?;
            Ok(holds)
        }
        Next::Goes => {
            let holds = sums.follows(alloc, balances, goal.sums)?;
            Ok(holds)
        }
        Next::Exits => {
            let holds = sums.follows(alloc, balances, goal.sums)?;
            Ok(holds)
        }
    }
}

// Whether what is known after the event with a line is settled, and a place of the table says no more.
fn event_holds(
    alloc: Global,
    turn: &Turn<'_>,
    next: Next,
    after: &Sums,
    goal: &Goal<'_>,
    line: &[u8],
) -> Result<bool, NoMemory>
    ensures { IfOk result (λ holds. holds ≡ true → PassesAt turn.now goal.now next after.now
        (λ s u w n v k. event_closed s u w n (event_sums s w v line.now) k)) }
{
    let sums = after_event(alloc, turn, after, line)?;
    if !is_settled(turn, &sums) {
        return Ok(false);
    }
    let holds = follows_at(alloc, turn, next, &sums, goal)?;
    Ok(holds)
}

// The event of an instruction at a depth, with DT and flags after it.
fn event_at<'a>(
    turn: &Turn<'_>,
    text: &'a [u8],
    depth: u8,
    dt: u16,
    c: bool,
    z: bool,
) -> TurnEvent<'a>
    ensures depth { result.depth ≡ depth }
    ensures text { result.ins.now ≡ text.now }
    ensures line { (i : Ins) → line_of_turn result i ≡ line_of depth turn.now.spot.now.at i dt c z }
{
    TurnEvent {
        depth,
        at: turn.spot.at(),
        ins: text,
        dt,
        c,
        z,
    }
}

// The amounts after the event of an instruction, or `None` if a rule is broken.
fn amounts_after(
    alloc: Global,
    turn: &Turn<'_>,
    event: &TurnEvent<'_>,
) -> Result<Option<Vec<u32>>, NoMemory>
    ensures { (names : List (List ℕ)) (s : Setting) (u : SumsTable) → IsTurn names s u turn.now
        → event.now.ins.now ≡ text_of turn.now.ins.now → IfOk result (λ r. IfSome r (λ b. AreAfter names
        (after_occasion s.rules.ons (OnTurn (line_of_turn event.now turn.now.ins.now))
        (amounts_of names turn.now.key.now.amounts.items)) b.items)) }
{
    let amounts = turn.key.amounts.as_slice();
    after_turn(alloc, turn.subject.ons, amounts, event)
}

// Whether the amounts after an event are those of a place.
fn leads_to(amounts: &[u32], goal: &Goal<'_>) -> bool
    ensures { result ≡ bytes_eq amounts.now goal.now.key.now.amounts.items }
{
    amounts == goal.key.amounts.as_slice()
}

/// Returns whether what an instruction leaves at a depth is what a place of the table says, if its event leads there.
///
/// # Errors
///
/// Returns `NoMemory` if it is out of memory.
pub fn depth_holds(
    alloc: Global,
    turn: &Turn<'_>,
    next: Next,
    after: &Sums,
    goal: &Goal<'_>,
    depth: u8,
) -> Result<bool, NoMemory>
    requires depth { depth ≤ 4 }
    requires shaped { Shaped turn.now.ins.now }
    ensures { IfOk result (λ holds. holds ≡ true → PassesAt turn.now goal.now next after.now
        (λ s u w n v k. closed.depth_closed s u w n v k depth)) }
{
    let ins = text_of(turn.ins);
    let registers = goal.key.registers;
    let event = event_at(
        turn,
        ins.as_slice(),
        depth,
        registers.dt,
        registers.c,
        registers.z,
    );
    let Some(left) = amounts_after(alloc, turn, &event)? else {
        return Ok(false);
    };
    if !leads_to(left.as_slice(), goal) {
        return Ok(true);
    }
    let line = whole_line(&event);
    let text = without_mark(line.as_slice());
    let holds = event_holds(alloc, turn, next, after, goal, text)?;
    Ok(holds)
}

/// Returns whether no total is off after an exit at a depth, if they are asked.
///
/// # Errors
///
/// Returns `NoMemory` if it is out of memory.
pub fn exit_holds(
    alloc: Global,
    turn: &Turn<'_>,
    dt: u16,
    after: &Sums,
    depth: u8,
) -> Result<bool, NoMemory>
    requires depth { depth ≤ 4 }
    requires shaped { Shaped turn.now.ins.now }
    ensures { IfOk result (λ holds. holds ≡ true → PassesWith turn.now after.now
        (λ s w v. closed.is_settled s w (closed.after_event s w v dt w.spot.key.c w.spot.key.z depth))) }
{
    let ins = text_of(turn.ins);
    let event = event_at(
        turn,
        ins.as_slice(),
        depth,
        dt,
        turn.spot.c(),
        turn.spot.z(),
    );
    let line = whole_line(&event);
    let text = without_mark(line.as_slice());
    let sums = after_event(alloc, turn, after, text)?;
    Ok(is_settled(turn, &sums))
}

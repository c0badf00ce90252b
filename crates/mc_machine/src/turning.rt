// One turn of a chain: an executed instruction, or a fetch that abends.
ghost use Rattle.std.specs.Prelude.{[], ◌≡◌, ◌≢◌, ◌+◌, ◌<◌, ◌≤◌, ◌∷◌, ◌||◌, false, bytes_eq, length, nat_le, option_map, ℕ, List, IfOk, IfSome};
ghost use Rattle.mc_bank.specs.Bank.{AreApps, name_or};
ghost use Rattle.law_machine.specs.model_device.specs.Bytes.{lookup};
ghost use Rattle.law_machine.specs.model_machine.specs.Code.{Shaped};
ghost use Rattle.law_machine.specs.model_machine.specs.Chain.{Chain as ModelChain, turn_of, chain_after_call, follows};
ghost use Rattle.mc_segs.specs.HeldFrames.{FitsBank};
ghost use Rattle.mc_segs.specs.Ends.{scene, RowActs, then_of};
ghost use Rattle.mc_rows.specs.Rows.{row_result};
ghost use Rattle.mc_machine.specs.Chains.{RunsAs, FitsChain};
ghost use Rattle.mc_machine.specs.Frames.{with_held_frame};
ghost use Rattle.mc_machine.specs.Turns.{ActDone, BriefDone, TurnDone, WritesFew, EndFits, Followed, FrameExits, chain_at_next, step_of_halt};
ghost use Rattle.mc_machine.specs.Turns.{delegator_of, has_frame, AllFitBank, outcome_value, end_value};

use crate::chain::Chain;
use crate::fetch::fetch;
use crate::outcome::{BriefTurn, End, Outcome, Step, Turn, last_exit, reported};
use crate::waiting::Waiting;
use mc_bank::Bank;
use mc_isa::{DecodeFault, Ins};
use mc_prims::{Around, prim};
use mc_rows::{Flow, step};
use mc_segs::{Abend, Frame, Halt, Next, Session};
use mc_words::{Aid, Steps, Stop};
use std::mem;
use std::sync::ledger::Ledger;

/// The most frames that a chain has.
const FRAMES: u8 = 4;

/// The status of a delegation to a name that is not on the card.
const NOT_FOUND: u16 = 0x6A82;

/// The status of a delegation to an application that runs already, or in a full chain.
const NOT_ALLOWED: u16 = 0x6985;

/// Runs one turn of a chain that has not ended: one executed instruction, and one step, or a fetch that ends
/// the chain. The instruction's change of static bytes is one atomic write of at most 33 words, or of at most
/// 64 if the instruction commits what is pending.
///
/// # Errors
///
/// Returns the `Stop` of the bank in that change.
pub fn turn<B: Bank, L: Ledger>(
    bank: &mut B,
    chain: &mut Chain,
    steps: &mut Steps<L>,
) -> Result<Turn, Stop>
    requires going { (B.state bank.old).stopped ≡ false }
    requires fits { FitsChain B.Bank bank.old chain.old }
    ensures done { (ch : ModelChain) → RunsAs (B.state bank.old) (B.named bank.old) chain.old ch
        → TurnDone B.Bank bank.old bank.new chain.old chain.new ch (turn_of chain.old.left ch) result }
    ensures ticks { (ch : ModelChain) → RunsAs (B.state bank.old) (B.named bank.old) chain.old ch
        → steps.new ≡ steps.old + (turn_of chain.old.left ch).count }
    ensures few { (ch : ModelChain) → RunsAs (B.state bank.old) (B.named bank.old) chain.old ch
        → AreApps (B.state bank.old).apps → WritesFew (turn_of chain.old.left ch) }
    ensures shaped { IfOk result (λ turn. IfSome turn.ins Shaped) }
    ensures low { IfOk result (λ turn. 1 ≤ turn.depth) }
    ensures high { IfOk result (λ turn. turn.depth ≤ 4) }
{
    let BriefTurn {
        depth,
        at,
        ins,
        dt,
        flags,
        end,
    } = brief_turn(bank, chain, steps)?;
    let end = chain.outcome_of(end);
    Ok(Turn {
        depth,
        at,
        ins,
        dt,
        flags,
        end,
    })
}

/// Runs one turn as `turn` does, and returns it without the bytes of its reply, which stays in the public segment: a
/// reply has room for 1,024 bytes, and moving it takes longer than most turns. `Chain::put_outcome` writes it.
///
/// # Errors
///
/// Returns the `Stop` of the bank in the instruction's change.
pub fn brief_turn<B: Bank, L: Ledger>(
    bank: &mut B,
    chain: &mut Chain,
    steps: &mut Steps<L>,
) -> Result<BriefTurn, Stop>
    requires going { (B.state bank.old).stopped ≡ false }
    requires fits { FitsChain B.Bank bank.old chain.old }
    ensures done { (ch : ModelChain) → RunsAs (B.state bank.old) (B.named bank.old) chain.old ch
        → BriefDone B.Bank bank.old bank.new chain.old chain.new ch (turn_of chain.old.left ch) result }
    ensures ticks { (ch : ModelChain) → RunsAs (B.state bank.old) (B.named bank.old) chain.old ch
        → steps.new ≡ steps.old + (turn_of chain.old.left ch).count }
    ensures few { (ch : ModelChain) → RunsAs (B.state bank.old) (B.named bank.old) chain.old ch
        → AreApps (B.state bank.old).apps → WritesFew (turn_of chain.old.left ch) }
    ensures ends { IfOk result (λ turn. IfSome turn.end (λ end. EndFits chain.new.public end)) }
    ensures shaped { IfOk result (λ turn. IfSome turn.ins Shaped) }
    ensures low { IfOk result (λ turn. 1 ≤ turn.depth) }
    ensures high { IfOk result (λ turn. turn.depth ≤ 4) }
{
    let depth = chain.waiting.count() + 1;
    let at = chain.running.at();
    let Step {
        ins,
        dt,
        flags,
        end,
    } = act(bank, chain, steps)?;
    Ok(BriefTurn {
        depth,
        at,
        ins,
        dt,
        flags,
        end,
    })
}

/// Runs one turn as `turn` does, and returns its record without its place, which has fewer bytes.
pub fn act<B: Bank, L: Ledger>(
    bank: &mut B,
    chain: &mut Chain,
    steps: &mut Steps<L>,
) -> Result<Step, Stop>
    requires going { (B.state bank.old).stopped ≡ false }
    requires fits { FitsChain B.Bank bank.old chain.old }
    ensures done { (ch : ModelChain) → RunsAs (B.state bank.old) (B.named bank.old) chain.old ch
        → ActDone B.Bank bank.old bank.new chain.old chain.new ch (turn_of chain.old.left ch) result }
    ensures ticks { (ch : ModelChain) → RunsAs (B.state bank.old) (B.named bank.old) chain.old ch
        → steps.new ≡ steps.old + (turn_of chain.old.left ch).count }
    ensures few { (ch : ModelChain) → RunsAs (B.state bank.old) (B.named bank.old) chain.old ch
        → AreApps (B.state bank.old).apps → WritesFew (turn_of chain.old.left ch) }
    ensures ends { IfOk result (λ step. IfSome step.end (λ end. EndFits chain.new.public end)) }
    ensures shaped { IfOk result (λ step. IfSome step.ins Shaped) }
{
    let before = reported(&chain.running, None, None);
    if chain.left == 0 {
        return Ok(before.abends(Abend::A07));
    }
    let (ins, next) = match fetch(bank, &chain.running) {
        Ok(found) => found,
        Err(DecodeFault::Undefined) => return Ok(before.abends(Abend::A01)),
        Err(DecodeFault::Past) => return Ok(before.abends(Abend::A02)),
    };
    steps.tick();
    chain.advance(next);
    let before = Step {
        ins: Some(ins),
        ..before
    };
    match perform(bank, &ins, chain) {
        Ok(next) => Ok(follow(bank, next, ins, before, chain)),
        Err(halt) => before.halts(halt),
    }
}

impl Step {
    // Returns what an instruction that was not done leads to: the record of a turn that ends the chain by its
    // abend, or the `Stop` of the bank.
    fn halts(self, halt: Halt) -> Result<Step, Stop>
        ensures value { result ≡ step_of_halt self halt }
        ensures ends { (public : List ℕ) → IfOk result (λ step. IfSome step.end (λ end. EndFits public end)) }
        ensures ins { IfOk result (λ step. step.ins ≡ self.ins) }
    {
        match halt {
            Halt::Abend(abend) => Ok(self.abends(abend)),
            Halt::Stop(stop) => Err(stop),
        }
    }
}

// Executes an instruction of the running frame, whose code address is already after it.
fn perform<B: Bank>(bank: &mut B, ins: &Ins, chain: &mut Chain) -> Result<Next, Halt>
    requires going { (B.state bank.old).stopped ≡ false }
    requires fits { FitsBank (B.state bank.old) (B.named bank.old) chain.old.running }
    requires waiting { AllFitBank (B.state bank.old) (B.named bank.old) chain.old.below }
    requires shaped { Shaped ins.now }
    ensures acts { RowActs B.Bank
        (scene bank.old bank.new chain.old.running chain.new.running chain.old.public chain.new.public) ins.now
        (record { case = chain.old.case; delegator = delegator_of (B.named bank.old) chain.old.below }) result }
    ensures others { chain.new ≡ record chain.old { running = chain.new.running; public = chain.new.public } }
{
    match ins {
        Ins::Prim { set, number, args } => {
            let around = Around {
                case: chain.case,
                delegator: chain.delegator(bank),
            };
            prim(
                bank,
                &mut chain.running,
                &mut chain.public,
                *set,
                *number,
                args,
                &around,
            )
        }
        _ => next_of(step(bank, &mut chain.running, &mut chain.public, ins)),
    }
}

// Returns what comes after an instruction that is not PRIM, in the type of any instruction.
fn next_of(done: Result<Flow, Halt>) -> Result<Next, Halt>
    ensures { result ≡ row_result done }
{
    match done {
        Ok(Flow::Go) => Ok(Next::Go),
        Ok(Flow::Exit) => Ok(Next::Exit),
        Err(halt) => Err(halt),
    }
}

// Does what follows an instruction that was done, and returns the record of the turn: if the chain ends by an
// abend, it has the registers from before the instruction.
fn follow<B: Bank>(bank: &B, next: Next, ins: Ins, before: Step, chain: &mut Chain) -> Step
    requires going { (B.state bank.now).stopped ≡ false }
    requires fits { FitsChain B.Bank bank.now chain.old }
    ensures follows { (ch : ModelChain) → RunsAs (B.state bank.now) (B.named bank.now) chain.old ch
        → Followed (B.state bank.now) (B.named bank.now) chain.old chain.new ins before result
        (follows ch (then_of next)) }
    ensures left { chain.new.left ≡ chain.old.left }
    ensures le { chain.new.le ≡ chain.old.le }
    ensures ends { IfSome result.end (λ end. EndFits chain.new.public end) }
    ensures shaped { Shaped ins → IfSome before.ins Shaped → IfSome result.ins Shaped }
{
    let after = reported(&chain.running, Some(ins), None);
    match next {
        Next::Go => after,
        Next::Exit => match chain.leave() {
            None => after,
            Some(End::Reply) => Step {
                end: Some(End::Reply),
                ..after
            },
            Some(End::Abend(abend)) => before.abends(abend),
        },
        Next::Delegate(aid) => {
            chain.call(bank, &aid);
            after
        }
    }
}

impl Chain {
    // Returns the name of the application that delegated to the running one, or `None` if there is none.
    fn delegator<B: Bank>(&self, bank: &B) -> Option<Aid>
        requires going { (B.state bank.now).stopped ≡ false }
        requires waiting { AllFitBank (B.state bank.now) (B.named bank.now) self.now.below }
        ensures { result ≡ delegator_of (B.named bank.now) self.now.below }
    {
        match self.waiting.top_slot() {
            Some(slot) => Some(bank.facts(slot).aid),
            None => None,
        }
    }

    // Takes one instruction from the budget, and moves the running frame's code address to `next`, after its
    // instruction.
    fn advance(&mut self, next: u16)
        requires { self.old.left ≢ 0 }
        ensures { self.new ≡ chain_at_next self.old next }
    {
        self.left -= 1;
        self.running.go(next);
    }

    // Returns the outcome of a turn's end, or `None` if it has no end.
    fn outcome_of(&self, end: Option<End>) -> Option<Outcome>
        requires { IfSome end (λ end. EndFits self.now.public end) }
        ensures { option_map outcome_value result ≡ option_map (end_value self.now.public self.now.le) end }
    {
        match end {
            Some(end) => Some(self.outcome(end)),
            None => None,
        }
    }

    // Exits the running frame: the one that waits for it goes on, or the chain ends.
    fn leave(&mut self) -> Option<End>
        ensures { FrameExits self.old self.new result self.old.below }
    {
        match self.waiting.pop() {
            Some(frame) => {
                self.running = frame;
                None
            }
            None => Some(last_exit(&self.public)),
        }
    }

    // Returns whether a frame of the chain runs the application of a name.
    fn is_active<B: Bank>(&self, bank: &B, aid: &Aid) -> bool
        requires going { (B.state bank.now).stopped ≡ false }
        requires running { FitsBank (B.state bank.now) (B.named bank.now) self.now.running }
        requires waiting { AllFitBank (B.state bank.now) (B.named bank.now) self.now.below }
        ensures { result ≡ has_frame (B.named bank.now) aid.now (self.now.running ∷ self.now.below) }
    {
        runs(bank, &self.running, aid) || waits(bank, &self.waiting, aid)
    }

    // Returns whether a delegation to a name that is on the card is refused.
    fn refuses<B: Bank>(&self, bank: &B, aid: &Aid) -> bool
        requires going { (B.state bank.now).stopped ≡ false }
        requires running { FitsBank (B.state bank.now) (B.named bank.now) self.now.running }
        requires waiting { AllFitBank (B.state bank.now) (B.named bank.now) self.now.below }
        ensures { result ≡ (has_frame (B.named bank.now) aid.now (self.now.running ∷ self.now.below)
            || nat_le 4 (length self.now.below + 1)) }
    {
        self.is_active(bank, aid) || self.waiting.count() + 1 >= FRAMES
    }

    // Delegates to a name: sets a status if it is not on the card, if it runs already, or if the chain is
    // full; else its application runs on top, with zero session bytes.
    pub(crate) fn call<B: Bank>(&mut self, bank: &B, aid: &Aid)
        requires going { (B.state bank.now).stopped ≡ false }
        requires fits { FitsChain B.Bank bank.now self.old }
        ensures runs { (ch : ModelChain) → RunsAs (B.state bank.now) (B.named bank.now) self.old ch
            → RunsAs (B.state bank.now) (B.named bank.now) self.new
            (chain_after_call ch aid.now (lookup ch.map aid.now)) }
        ensures left { self.new.left ≡ self.old.left }
        ensures le { self.new.le ≡ self.old.le }
    {
        let Some(slot) = bank.find(aid) else {
            self.public.set_sw(NOT_FOUND);
            return;
        };
        if self.refuses(bank, aid) {
            self.public.set_sw(NOT_ALLOWED);
            return;
        }
        let facts = bank.facts(slot);
        self.enter(Frame::new(slot, &facts, &Session::new(facts.sizes.session)));
    }

    // Puts a frame on top of the others, of which there are three at the most.
    fn enter(&mut self, callee: Frame)
        requires { length self.old.below < 3 }
        ensures { self.new ≡ record self.old { running = callee; below = self.old.running ∷ self.old.below } }
    {
        let caller = mem::replace(&mut self.running, callee);
        self.waiting.push(caller);
    }
}

// Returns whether one of the frames that wait runs the application of a name.
fn waits<B: Bank>(bank: &B, waiting: &Waiting, aid: &Aid) -> bool
    requires going { (B.state bank.now).stopped ≡ false }
    requires fits { AllFitBank (B.state bank.now) (B.named bank.now) waiting.now }
    ensures { result ≡ has_frame (B.named bank.now) aid.now waiting.now }
{
    runs_in(bank, &waiting.third, aid)
        || runs_in(bank, &waiting.second, aid)
        || runs_in(bank, &waiting.first, aid)
}

// Returns whether the frame of a place, if there is one, runs the application of a name.
fn runs_in<B: Bank>(bank: &B, place: &Option<Frame>, aid: &Aid) -> bool
    requires going { (B.state bank.now).stopped ≡ false }
    requires fits { AllFitBank (B.state bank.now) (B.named bank.now) (with_held_frame place.now []) }
    ensures { result ≡ has_frame (B.named bank.now) aid.now (with_held_frame place.now []) }
{
    match place {
        Some(frame) => runs(bank, frame, aid),
        None => false,
    }
}

// Returns whether a frame runs the application of a name.
fn runs<B: Bank>(bank: &B, frame: &Frame, aid: &Aid) -> bool
    requires going { (B.state bank.now).stopped ≡ false }
    requires fits { FitsBank (B.state bank.now) (B.named bank.now) frame.now }
    ensures { result ≡ bytes_eq (name_or (B.named bank.now frame.now.slot)) aid.now }
{
    bank.facts(frame.slot()).aid.bytes() == aid.bytes()
}

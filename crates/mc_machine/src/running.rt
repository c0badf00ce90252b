// A command to an application, from its first turn to its end.
ghost use Rattle.std.specs.Prelude.{◌≡◌, ◌+◌, ◌≤◌, length, false, IsSome, IfOk, OnOk, OnErr};
ghost use Rattle.std.specs.List.{AllByRecursion};
ghost use Rattle.law_machine.specs.model_device.specs.Orders.{InOrder, answer_of};
ghost use Rattle.law_machine.specs.model_device.specs.Bytes.{lookup};
ghost use Rattle.law_machine.specs.model_machine.specs.Chain.{Chain as ModelChain, chain_after_call, run_of_chain};
ghost use Rattle.mc_bank.specs.Bank.{app_of};
ghost use Rattle.mc_machine.specs.Chains.{FitsChain, RunsAs, ChainWrote, run_of_command};
ghost use Rattle.mc_machine.specs.Lone.{lone_chain, RanDone};
ghost use Rattle.mc_machine.specs.Turns.{outcome_value, outcome_by, reply_or_stop};

use crate::chain::{Chain, first_frame};
use crate::known::blank;
use crate::lone::{Lone, known_turn, lone_turn};
use crate::outcome::{End, Outcome, put_end};
use crate::turning::act;
use crate::waiting::Waiting;
use arrayvec::ArrayVec;
use mc_apdu::{Apdu, Reply};
use mc_bank::{Bank, Slot};
use mc_segs::{Abend, Frame, Public, Session};
use mc_words::{Aid, Steps, Stop};
use std::mem;
use std::sync::ledger::Ledger;

/// The number of turns after which a run keeps the instructions that it decodes. Most commands end before, and making
/// room for those takes as long as some of their turns.
const FEW: u32 = 32;

/// Runs a command for the application of slot `first`, from its first turn to its end, and returns its outcome: a reply
/// of ISO/IEC 7816-4 or an abend.
///
/// `session` is the session bytes of the selection, which the run changes. `budget` is 1 to 65,536 instructions. Each
/// change of static bytes is one atomic write of at most 64 words.
///
/// It is `run_into` with a reply of its own.
///
/// # Errors
///
/// Returns the `Stop` of the bank in a change of static bytes. The changes before it are kept, and `session` is
/// unchanged.
pub fn run<B: Bank, L: Ledger>(
    bank: &mut B,
    first: Slot,
    session: &mut Session,
    apdu: &Apdu,
    budget: u32,
    steps: &mut Steps<L>,
) -> Result<Outcome, Stop>
    requires going { (B.state bank.old).stopped ≡ false }
    requires there { IsSome (B.named bank.old first) }
    requires session { length session.old ≡ (app_of (B.state bank.old).apps (B.named bank.old first)).session }
    requires some { 1 ≤ budget }
    requires budget { budget ≤ 65536 }
    requires data { length apdu.now.body.now ≤ 1024 }
    // The atomic writes of the run are made in its order, up to the first that stops.
    ensures writes { InOrder (ChainWrote B.Bank) bank.old
        (run_of_command (B.state bank.old) (B.named bank.old) first session.old apdu.now budget).writes
        (answer_of result) bank.new }
    // Each of them touches at most 64 words.
    ensures few { OnOk result (AllByRecursion (λ w. w.words ≤ 64)
        (run_of_command (B.state bank.old) (B.named bank.old) first session.old apdu.now budget).writes) }
    // The outcome is that of the run.
    ensures outcome { IfOk result (λ outcome. outcome_value outcome
        ≡ (run_of_command (B.state bank.old) (B.named bank.old) first session.old apdu.now budget).outcome) }
    // The session bytes are those that the run leaves.
    ensures session { OnOk result (session.new
        ≡ (run_of_command (B.state bank.old) (B.named bank.old) first session.old apdu.now budget).session) }
    // Each decoded instruction is one step.
    ensures ticks { OnOk result (steps.new
        ≡ steps.old + (run_of_command (B.state bank.old) (B.named bank.old) first session.old apdu.now budget).count) }
    // A run that is stopped makes no more steps than the whole one.
    ensures most { OnErr result (steps.new
        ≤ steps.old + (run_of_command (B.state bank.old) (B.named bank.old) first session.old apdu.now budget).count) }
    // The bank goes on.
    ensures going { OnOk result ((B.state bank.new).stopped ≡ false) }
    // A stop leaves the session bytes as they were.
    ensures unchanged { OnErr result (session.new ≡ session.old) }
{
    let mut reply = Reply {
        body: ArrayVec::new(),
        sw: 0,
    };
    match run_into(bank, first, session, apdu, budget, &mut reply, steps)? {
        End::Reply => Ok(Outcome::Reply(reply)),
        End::Abend(abend) => Ok(Outcome::Abend(abend)),
    }
}

/// Runs a command for the application of slot `first`, from its first turn to its end, and returns how it ends. A reply
/// is written to `reply`, in place to avoid copying it.
///
/// `session` is the session bytes of the selection, which the run changes. `budget` is 1 to 65,536 instructions. Each
/// change of static bytes is one atomic write of at most 64 words. After an abend the contents of `reply` are
/// unspecified.
///
/// # Errors
///
/// Returns the `Stop` of the bank in a change of static bytes. The changes before it are kept, `session` is unchanged,
/// and the contents of `reply` are unspecified.
pub fn run_into<B: Bank, L: Ledger>(
    bank: &mut B,
    first: Slot,
    session: &mut Session,
    apdu: &Apdu,
    budget: u32,
    reply: &mut Reply,
    steps: &mut Steps<L>,
) -> Result<End, Stop>
    requires going { (B.state bank.old).stopped ≡ false }
    requires there { IsSome (B.named bank.old first) }
    requires session { length session.old ≡ (app_of (B.state bank.old).apps (B.named bank.old first)).session }
    requires some { 1 ≤ budget }
    requires budget { budget ≤ 65536 }
    requires data { length apdu.now.body.now ≤ 1024 }
    // The atomic writes of the run are made in its order, up to the first that stops.
    ensures writes { InOrder (ChainWrote B.Bank) bank.old
        (run_of_command (B.state bank.old) (B.named bank.old) first session.old apdu.now budget).writes
        (answer_of result) bank.new }
    // Each of them touches at most 64 words.
    ensures few { OnOk result (AllByRecursion (λ w. w.words ≤ 64)
        (run_of_command (B.state bank.old) (B.named bank.old) first session.old apdu.now budget).writes) }
    // The outcome is that of the run.
    ensures outcome { IfOk result (λ end. outcome_value (outcome_by end reply.new)
        ≡ (run_of_command (B.state bank.old) (B.named bank.old) first session.old apdu.now budget).outcome) }
    // The session bytes are those that the run leaves.
    ensures session { OnOk result (session.new
        ≡ (run_of_command (B.state bank.old) (B.named bank.old) first session.old apdu.now budget).session) }
    // Each decoded instruction is one step.
    ensures ticks { OnOk result (steps.new
        ≡ steps.old + (run_of_command (B.state bank.old) (B.named bank.old) first session.old apdu.now budget).count) }
    // A run that is stopped makes no more steps than the whole one.
    ensures most { OnErr result (steps.new
        ≤ steps.old + (run_of_command (B.state bank.old) (B.named bank.old) first session.old apdu.now budget).count) }
    // The bank goes on.
    ensures going { OnOk result ((B.state bank.new).stopped ≡ false) }
    // A stop leaves the session bytes as they were.
    ensures unchanged { OnErr result (session.new ≡ session.old) }
{
    run_turns(bank, first, session, apdu, budget, reply, steps)
}

// Runs the turns of a command, from the first to its end. It is the body of `run_into`, by the relation that
// its loop keeps.
#[inline(always)]
fn run_turns<B: Bank, L: Ledger>(
    bank: &mut B,
    first: Slot,
    session: &mut Session,
    apdu: &Apdu,
    budget: u32,
    reply: &mut Reply,
    steps: &mut Steps<L>,
) -> Result<End, Stop>
    requires going { (B.state bank.old).stopped ≡ false }
    requires there { IsSome (B.named bank.old first) }
    requires session { length session.old ≡ (app_of (B.state bank.old).apps (B.named bank.old first)).session }
    requires some { 1 ≤ budget }
    requires budget { budget ≤ 65536 }
    requires data { length apdu.now.body.now ≤ 1024 }
    ensures { RanDone B.Bank bank.old bank.new session.old session.new steps.old steps.new
        (run_of_command (B.state bank.old) (B.named bank.old) first session.old apdu.now budget)
        (reply_or_stop result reply.new) }
{
    // Until it delegates, an application runs without a chain: a chain has room for three more frames, and making it
    // takes longer than a short command.
    let mut frame = first_frame(bank, first, session);
    let mut public = Public::blank();
    public.open(apdu);
    let case = apdu.case();
    let le = apdu.le.unwrap_or(0);
    let mut callee = None;
    let few = budget.min(FEW);
    for turn in 0..few {
        match lone_turn(bank, &mut frame, &mut public, case, &mut callee, steps)? {
            Lone::Goes => {}
            Lone::Ends(end) => {
                frame.keep_session(session);
                put_end(&public, le, end, reply);
                return Ok(end);
            }
            Lone::Delegates => {
                let left = budget - turn - 1;
                let aid = callee.unwrap();
                return run_chain(
                    bank, &mut frame, public, case, le, left, &aid, session, reply, steps,
                );
            }
        }
    }
    run_long(
        bank,
        &mut frame,
        &mut public,
        case,
        le,
        budget - few,
        session,
        reply,
        steps,
    )
}

// Runs the rest of a command of many turns. It keeps the instructions that it decodes.
#[inline(never)]
fn run_long<B: Bank, L: Ledger>(
    bank: &mut B,
    frame: &mut Frame,
    public: &mut Public,
    case: u8,
    le: u16,
    left: u32,
    session: &mut Session,
    reply: &mut Reply,
    steps: &mut Steps<L>,
) -> Result<End, Stop>
    requires going { (B.state bank.old).stopped ≡ false }
    requires fits { FitsChain B.Bank bank.old (lone_chain frame.old public.old case le left) }
    requires left { left ≤ 65536 }
    ensures { (ch : ModelChain)
        → RunsAs (B.state bank.old) (B.named bank.old) (lone_chain frame.old public.old case le left) ch
        → RanDone B.Bank bank.old bank.new session.old session.new steps.old steps.new (run_of_chain left ch)
        (reply_or_stop result reply.new) }
{
    let mut table = blank();
    let mut callee = None;
    for turn in 0..left {
        match known_turn(bank, frame, public, &mut table, case, &mut callee, steps)? {
            Lone::Goes => {}
            Lone::Ends(end) => {
                frame.keep_session(session);
                put_end(public, le, end, reply);
                return Ok(end);
            }
            Lone::Delegates => {
                let rest = left - turn - 1;
                let aid = callee.unwrap();
                let segment = mem::replace(public, Public::blank());
                return run_chain(
                    bank, frame, segment, case, le, rest, &aid, session, reply, steps,
                );
            }
        }
    }
    frame.keep_session(session);
    Ok(End::Abend(Abend::A07))
}

// Runs the rest of a command, from the first delegation on: the application that runs delegates to a name. Its frame is
// moved to a chain, and a blank one takes its place: each caller would clear room for the frame if it were a value.
#[cold]
#[inline(never)]
fn run_chain<B: Bank, L: Ledger>(
    bank: &mut B,
    frame: &mut Frame,
    public: Public,
    case: u8,
    le: u16,
    left: u32,
    aid: &Aid,
    session: &mut Session,
    reply: &mut Reply,
    steps: &mut Steps<L>,
) -> Result<End, Stop>
    requires going { (B.state bank.old).stopped ≡ false }
    requires fits { FitsChain B.Bank bank.old (lone_chain frame.old public case le left) }
    requires left { left ≤ 65536 }
    ensures { (ch : ModelChain)
        → RunsAs (B.state bank.old) (B.named bank.old) (lone_chain frame.old public case le left) ch
        → RanDone B.Bank bank.old bank.new session.old session.new steps.old steps.new
        (run_of_chain left (chain_after_call ch aid.now (lookup ch.map aid.now))) (reply_or_stop result reply.new) }
{
    let facts = bank.facts(frame.slot());
    let blank = Frame::new(frame.slot(), &facts, &Session::new(facts.sizes.session));
    let running = mem::replace(frame, blank);
    let waiting = Waiting::new();
    let mut chain = Chain {
        running,
        waiting,
        public,
        case,
        le,
        left,
    };
    chain.call(bank, aid);
    finish(bank, &mut chain, left, session, reply, steps)
}

// Runs the turns of a chain to its end.
fn finish<B: Bank, L: Ledger>(
    bank: &mut B,
    chain: &mut Chain,
    left: u32,
    session: &mut Session,
    reply: &mut Reply,
    steps: &mut Steps<L>,
) -> Result<End, Stop>
    requires going { (B.state bank.old).stopped ≡ false }
    requires fits { FitsChain B.Bank bank.old chain.old }
    requires left { chain.old.left ≡ left }
    ensures { (ch : ModelChain) → RunsAs (B.state bank.old) (B.named bank.old) chain.old ch
        → RanDone B.Bank bank.old bank.new session.old session.new steps.old steps.new (run_of_chain left ch)
        (reply_or_stop result reply.new) }
{
    for _turn in 0..left {
        if let Some(end) = act(bank, chain, steps)?.end {
            *session = chain.session();
            chain.put_end(end, reply);
            return Ok(end);
        }
    }
    *session = chain.session();
    Ok(End::Abend(Abend::A07))
}

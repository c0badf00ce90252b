// Turns of an application that no frame waits for: the first one of a chain, until it delegates.
ghost use Rattle.std.specs.Prelude.{◌≡◌, ◌≢◌, ◌+◌, false, ℕ, List, Option, None, Ok};
ghost use Rattle.law_machine.specs.model_machine.specs.declared.instruction.Ins.TheVariants.{Prim};
ghost use Rattle.law_machine.specs.model_machine.specs.Code.{Shaped, instruction_at, DecodesTo};
ghost use Rattle.law_machine.specs.model_machine.specs.Chain.{Chain as ModelChain, turn_of};
ghost use Rattle.mc_segs.specs.HeldFrames.{FitsBank, app_under};
ghost use Rattle.mc_segs.specs.Ends.{scene};
ghost use Rattle.mc_rows.specs.Rows.{row_result};
ghost use Rattle.mc_machine.specs.Chains.{RunsAs};
ghost use Rattle.mc_machine.specs.Lone.{lone_chain, lone_of, lone_next_of, lone_halt_of};
ghost use Rattle.mc_machine.specs.Known.{KnowsCode};
ghost use Rattle.mc_machine.specs.Lone.{NameIsCalled, GoesOn, LoneActs, LoneDone, LoneFits};

use crate::fetch::fetch;
use crate::known::{Table, fetch_known};
use crate::outcome::{End, last_exit};
use mc_bank::Bank;
use mc_isa::{DecodeFault, Ins};
use mc_prims::{Around, prim};
use mc_rows::{Flow, step};
use mc_segs::{Abend, Frame, Halt, Next, Public};
use mc_words::{Aid, Steps, Stop};
use std::sync::ledger::Ledger;

/// What comes after a turn of an application that no frame waits for: its next turn, the end of the command,
/// or another application. The name of that one is kept elsewhere, since every turn would pass the room for
/// it.
#[derive(Clone, Copy, Debug, PartialEq, Eq)]
pub enum Lone {
    Goes,
    Ends(End),
    Delegates,
}

/// Runs one turn of an application that no frame waits for, under a budget that is not spent: one executed
/// instruction, and one step, or a fetch that ends the chain. If it delegates, the name is written to
/// `callee`. A `Stop` is that of the bank in the instruction's change.
#[inline(always)]
pub fn lone_turn<B: Bank, L: Ledger>(
    bank: &mut B,
    frame: &mut Frame,
    public: &mut Public,
    case: u8,
    callee: &mut Option<Aid>,
    steps: &mut Steps<L>,
) -> Result<Lone, Stop>
    requires going { (B.state bank.old).stopped ≡ false }
    requires fits { FitsBank (B.state bank.old) (B.named bank.old) frame.old }
    ensures done { (ch : ModelChain) (le left : ℕ) → left ≢ 0
        → RunsAs (B.state bank.old) (B.named bank.old) (lone_chain frame.old public.old case le left) ch
        → LoneDone B.Bank bank.old bank.new (lone_chain frame.old public.old case le left)
        (lone_chain frame.new public.new case le) ch (turn_of left ch) result callee.new }
    ensures ticks { (ch : ModelChain) (le left : ℕ) → left ≢ 0
        → RunsAs (B.state bank.old) (B.named bank.old) (lone_chain frame.old public.old case le left) ch
        → steps.new ≡ steps.old + (turn_of left ch).count }
    ensures fits { LoneFits public.new result }
{
    let found = fetch(bank, frame);
    perform_found(bank, frame, public, found, case, callee, steps)
}

/// Runs one turn as `lone_turn` does, with a table of instructions that were decoded before. If the application goes
/// on, its code is the same as before.
#[inline(always)]
pub fn known_turn<B: Bank, L: Ledger>(
    bank: &mut B,
    frame: &mut Frame,
    public: &mut Public,
    table: &mut Table,
    case: u8,
    callee: &mut Option<Aid>,
    steps: &mut Steps<L>,
) -> Result<Lone, Stop>
    requires going { (B.state bank.old).stopped ≡ false }
    requires fits { FitsBank (B.state bank.old) (B.named bank.old) frame.old }
    requires knows { KnowsCode (app_under (B.state bank.old) (B.named bank.old) frame.old).code table.old }
    ensures done { (ch : ModelChain) (le left : ℕ) → left ≢ 0
        → RunsAs (B.state bank.old) (B.named bank.old) (lone_chain frame.old public.old case le left) ch
        → LoneDone B.Bank bank.old bank.new (lone_chain frame.old public.old case le left)
        (lone_chain frame.new public.new case le) ch (turn_of left ch) result callee.new }
    ensures ticks { (ch : ModelChain) (le left : ℕ) → left ≢ 0
        → RunsAs (B.state bank.old) (B.named bank.old) (lone_chain frame.old public.old case le left) ch
        → steps.new ≡ steps.old + (turn_of left ch).count }
    ensures fits { LoneFits public.new result }
    ensures knows { GoesOn result → KnowsCode (app_under (B.state bank.new) (B.named bank.new) frame.new).code
        table.new }
{
    let found = fetch_known(bank, frame, table);
    perform_found(bank, frame, public, found, case, callee, steps)
}

// Executes the instruction at the code address of an application that no frame waits for, or ends the chain if there is
// none.
#[inline(always)]
fn perform_found<B: Bank, L: Ledger>(
    bank: &mut B,
    frame: &mut Frame,
    public: &mut Public,
    found: Result<(Ins, u16), DecodeFault>,
    case: u8,
    callee: &mut Option<Aid>,
    steps: &mut Steps<L>,
) -> Result<Lone, Stop>
    requires going { (B.state bank.old).stopped ≡ false }
    requires fits { FitsBank (B.state bank.old) (B.named bank.old) frame.old }
    requires exact { found ≡ instruction_at (app_under (B.state bank.old) (B.named bank.old) frame.old).code
        frame.old.frame.at }
    requires stands { DecodesTo (app_under (B.state bank.old) (B.named bank.old) frame.old).code
        frame.old.frame.at found }
    ensures done { (ch : ModelChain) (le left : ℕ) → left ≢ 0
        → RunsAs (B.state bank.old) (B.named bank.old) (lone_chain frame.old public.old case le left) ch
        → LoneDone B.Bank bank.old bank.new (lone_chain frame.old public.old case le left)
        (lone_chain frame.new public.new case le) ch (turn_of left ch) result callee.new }
    ensures ticks { (ch : ModelChain) (le left : ℕ) → left ≢ 0
        → RunsAs (B.state bank.old) (B.named bank.old) (lone_chain frame.old public.old case le left) ch
        → steps.new ≡ steps.old + (turn_of left ch).count }
    ensures fits { LoneFits public.new result }
    ensures code { GoesOn result → (app_under (B.state bank.new) (B.named bank.new) frame.new).code
        ≡ (app_under (B.state bank.old) (B.named bank.old) frame.old).code }
{
    let (ins, next) = match found {
        Ok(found) => found,
        Err(DecodeFault::Undefined) => return Ok(Lone::Ends(End::Abend(Abend::A01))),
        Err(DecodeFault::Past) => return Ok(Lone::Ends(End::Abend(Abend::A02))),
    };
    steps.tick();
    frame.go(next);
    perform_lone(bank, frame, public, &ins, case, callee)
}

// Executes an instruction of an application that nobody delegated to, whose code address is already after it.
#[inline(always)]
fn perform_lone<B: Bank>(
    bank: &mut B,
    frame: &mut Frame,
    public: &mut Public,
    ins: &Ins,
    case: u8,
    callee: &mut Option<Aid>,
) -> Result<Lone, Stop>
    requires going { (B.state bank.old).stopped ≡ false }
    requires fits { FitsBank (B.state bank.old) (B.named bank.old) frame.old }
    requires shaped { Shaped ins.now }
    ensures acts { LoneActs B.Bank
        (scene bank.old bank.new frame.old frame.new public.old public.new) ins.now
        (record { case = case; delegator = None }) result callee.new }
    ensures fits { LoneFits public.new result }
{
    match *ins {
        Ins::Prim { set, number, args } => {
            primitive(bank, frame, public, set, number, args, case, callee)
        }
        _ => after_row(step(bank, frame, public, ins), public),
    }
}

// Executes a primitive of such an application. It is a function of its own, so that no other instruction
// makes room for what it takes.
#[inline(never)]
fn primitive<B: Bank>(
    bank: &mut B,
    frame: &mut Frame,
    public: &mut Public,
    set: u8,
    number: u8,
    args: [u8; 3],
    case: u8,
    callee: &mut Option<Aid>,
) -> Result<Lone, Stop>
    requires going { (B.state bank.old).stopped ≡ false }
    requires fits { FitsBank (B.state bank.old) (B.named bank.old) frame.old }
    ensures acts { LoneActs B.Bank
        (scene bank.old bank.new frame.old frame.new public.old public.new) (Prim set number args)
        (record { case = case; delegator = None }) result callee.new }
    ensures fits { LoneFits public.new result }
{
    let around = Around {
        case,
        delegator: None,
    };
    let done = prim(bank, frame, public, set, number, &args, &around);
    after_primitive(done, public, callee)
}

// Returns what comes after a primitive; the name that it calls, if it delegates, is written to `callee`.
fn after_primitive(
    done: Result<Next, Halt>,
    public: &Public,
    callee: &mut Option<Aid>,
) -> Result<Lone, Stop>
    ensures value { result ≡ lone_of done public.now }
    ensures called { NameIsCalled done callee.new }
    ensures fits { LoneFits public.now result }
{
    match done {
        Ok(next) => Ok(after_done(next, public, callee)),
        Err(halt) => after_halt(halt),
    }
}

// Returns what comes after a primitive that was done.
fn after_done(next: Next, public: &Public, callee: &mut Option<Aid>) -> Lone
    ensures value { result ≡ lone_next_of next public.now }
    ensures called { NameIsCalled (Ok next) callee.new }
    ensures fits { LoneFits public.now (Ok result) }
{
    match next {
        Next::Go => Lone::Goes,
        Next::Exit => Lone::Ends(last_exit(public)),
        Next::Delegate(aid) => {
            *callee = Some(aid);
            Lone::Delegates
        }
    }
}

// Returns what comes after an instruction that is not PRIM.
#[inline(always)]
fn after_row(done: Result<Flow, Halt>, public: &Public) -> Result<Lone, Stop>
    ensures value { result ≡ lone_of (row_result done) public.now }
    ensures called { (callee : Option (List ℕ)) → NameIsCalled (row_result done) callee }
    ensures fits { LoneFits public.now result }
{
    match done {
        Ok(Flow::Go) => Ok(Lone::Goes),
        Ok(Flow::Exit) => Ok(Lone::Ends(last_exit(public))),
        Err(halt) => after_halt(halt),
    }
}

// Returns what comes after an instruction that was not done.
fn after_halt(halt: Halt) -> Result<Lone, Stop>
    ensures value { result ≡ lone_halt_of halt }
    ensures fits { (public : List ℕ) → LoneFits public result }
{
    match halt {
        Halt::Abend(abend) => Ok(Lone::Ends(End::Abend(abend))),
        Halt::Stop(stop) => Err(stop),
    }
}

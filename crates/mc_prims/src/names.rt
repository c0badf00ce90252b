// The primitives on the names of applications that delegate and are delegated to.
ghost use Rattle.std.specs.Prelude.{◌≡◌, ◌≤◌, [], ◌∷◌, false, length};
ghost use Rattle.model_machine.specs.Primitives as model;
ghost use Rattle.model_machine.specs.Primitives.{DelegateTo, DelegatorAid};
ghost use Rattle.mc_segs.specs.HeldFrames.{CanRun};
ghost use Rattle.mc_segs.specs.Ends.{scene};
ghost use Rattle.mc_prims.specs.Acting.{alone, PrimActs};

use crate::access::{Block, read_count};
use crate::stack::pop_word;
use mc_bank::Bank;
use mc_segs::{Frame, Halt, Next, Public, store};
use mc_words::Aid;
use model_machine::Abend;

/// Executes Delegate: returns the name of the application to run next. An address is on the stack; at the
/// address are the name's length and the name.
#[tactic(auto, unfolding(model_machine::specs::Primitives::later_causes, model_machine::specs::Primitives::prim_effect))]
pub fn delegate<B: Bank>(bank: &mut B, frame: &mut Frame, public: &mut Public) -> Result<Next, Halt>
    requires runs { CanRun B.Bank bank.old frame.old }
    requires room { length frame.old.frame.fixed ≤ 4096 }
    ensures { PrimActs B.Bank
        (scene bank.old bank.new frame.old frame.new public.old public.new) DelegateTo [] alone result }
{
    let at = pop_word(frame)?;
    let (len, behind) = read_count(bank, frame, public, at)?;
    if len < 5 || len > 16 {
        return Err(Halt::Abend(Abend::A06));
    }
    let name = Block::read(bank, frame, public, behind, len)?;
    match Aid::new(name.bytes()) {
        Some(name) => Ok(Next::Delegate(name)),
        None => Err(Halt::Abend(Abend::A06)),
    }
}

/// Executes Get Delegator AID: writes the length and the name of the delegator to the address on the stack,
/// and clears Z. Without a delegator sets Z, and does not test the address.
#[tactic(auto, unfolding(model_machine::specs::Primitives::later_causes, model_machine::specs::Primitives::prim_effect))]
pub fn report_delegator<B: Bank>(
    bank: &mut B,
    frame: &mut Frame,
    public: &mut Public,
    delegator: Option<Aid>,
) -> Result<Next, Halt>
    requires runs { CanRun B.Bank bank.old frame.old }
    ensures { PrimActs B.Bank
        (scene bank.old bank.new frame.old frame.new public.old public.new) DelegatorAid []
        (record alone { delegator = delegator }) result }
{
    let at = pop_word(frame)?;
    let c = frame.c();
    let Some(name) = delegator else {
        frame.set_flags(c, true);
        return Ok(Next::Go);
    };
    let reported = Block::counted(name.bytes());
    store(bank, frame, public, at, reported.bytes())?;
    frame.set_flags(c, false);
    Ok(Next::Go)
}
